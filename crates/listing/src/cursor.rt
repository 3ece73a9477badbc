// How far a listing is told, and what is told next.

ghost use Rattle.std.specs.Prelude.{◌≡◌, ◌+◌, ◌++◌, ◌<◌, ◌≤◌, ◌^◌, [], take, drop, length};
ghost use Rattle.listing.specs.Listing.{items, lines_text};
ghost use Rattle.listing.specs.Left.{lines_left, text_left};

use crate::lines::{byte_line, word_line};
use elf32::Elf;
use rv_asm::Line;

/// How far a listing is told.
#[derive(Drop)]
pub struct Cursor {
    /// The line that is being told, and how many of its bytes have been.
    pub line: Line,
    pub told: usize,
    /// The segment that the next line is of, and how many of its bytes have had their lines.
    pub segment: u32,
    pub at: usize,
}

/// Before the first line.
pub fn start() -> Cursor
    ensures line { result.line.items ≡ [] }
    ensures told { result.told ≡ 0 }
    ensures segment { result.segment ≡ 0 }
    ensures at { result.at ≡ 0 }
{
    Cursor {
        line: Line::new(),
        told: 0,
        segment: 0,
        at: 0,
    }
}

// Puts bytes into a place.
fn copy_at(into: &mut [u8], at: usize, piece: &[u8])
    requires { at + length piece.now ≤ length into.old }
    ensures { take (at + length piece.now) into.new ≡ take at into.old ++ piece.now }
{
    into[at..at + piece.len()].copy_from_slice(piece);
}

// Tells what is left of the line, or as much of it as there is room for behind what is done.
fn tell_line(cursor: &mut Cursor, into: &mut [u8], done: usize) -> usize
    requires { done ≤ length into.old }
    ensures front { take done into.old ++ drop cursor.old.told cursor.old.line.items ≡ take result into.new ++ drop cursor.new.told cursor.new.line.items }
    ensures from { done ≤ result }
    ensures within { result ≤ length into.new }
    ensures whole { result < length into.new → drop cursor.new.told cursor.new.line.items ≡ [] }
    ensures segment { cursor.new.segment ≡ cursor.old.segment }
    ensures at { cursor.new.at ≡ cursor.old.at }
{
    let line = cursor.line.as_slice();
    if cursor.told >= line.len() {
        return done;
    }
    let count = (line.len() - cursor.told).min(into.len() - done);
    copy_at(into, done, &line[cursor.told..cursor.told + count]);
    cursor.told += count;
    done + count
}

// The line of what stands first among the bytes from an address on, and how many of them it is of.
fn first_line(at: u32, bytes: &[u8]) -> (Line, usize)
    requires { 0 < length bytes.now }
    ensures line { lines_text (items at bytes.now) ≡ result.0.items ++ lines_text (items (at + result.1) (drop result.1 bytes.now)) }
    ensures some { 0 < result.1 }
    ensures within { result.1 ≤ length bytes.now }
{
    if at % 4 == 0 && bytes.len() >= 4 {
        let value = u32::from_le_bytes([bytes[0], bytes[1], bytes[2], bytes[3]]);
        return (word_line(at, value), 4);
    }
    (byte_line(at, bytes[0]), 1)
}

// Makes the line of what stands first among the bytes that have had none.
fn make_line(cursor: &mut Cursor, addr: u32, bytes: &[u8])
    requires some { cursor.old.at < length bytes.now }
    requires in_memory { addr + length bytes.now ≤ 2 ^ 32 }
    ensures line { lines_text (items (addr + cursor.old.at) (drop cursor.old.at bytes.now)) ≡ lines_left addr bytes.now cursor.new }
    ensures more { cursor.old.at < cursor.new.at }
    ensures within { cursor.new.at ≤ length bytes.now }
    ensures segment { cursor.new.segment ≡ cursor.old.segment }
{
    let at = cursor.at;
    let (line, count) = first_line(addr + at as u32, &bytes[at..]);
    cursor.line = line;
    cursor.told = 0;
    cursor.at = at + count;
}

// Tells lines of a segment, until it has no more or there is no room behind what is done.
fn tell_segment(cursor: &mut Cursor, addr: u32, bytes: &[u8], into: &mut [u8], done: usize) -> usize
    requires done { done ≤ length into.old }
    requires in_memory { addr + length bytes.now ≤ 2 ^ 32 }
    requires whole { drop cursor.old.told cursor.old.line.items ≡ [] }
    ensures front { take done into.old ++ lines_left addr bytes.now cursor.old ≡ take result into.new ++ lines_left addr bytes.now cursor.new }
    ensures from { done ≤ result }
    ensures within { result ≤ length into.new }
    ensures whole { result < length into.new → drop cursor.new.told cursor.new.line.items ≡ [] }
    ensures last { result < length into.new → length bytes.now ≤ cursor.new.at }
    ensures segment { cursor.new.segment ≡ cursor.old.segment }
{
    let mut end = done;
    'lines: while end < into.len() && cursor.at < bytes.len() {
        make_line(cursor, addr, bytes);
        end = tell_line(cursor, into, end);
    }
    end
}

/// Tells what comes next into the front of `into`, and gives the number of its bytes: 0 only where `into` is empty or
/// nothing is left.
pub fn tell(cursor: &mut Cursor, elf: &Elf<'_>, into: &mut [u8]) -> usize
    ensures within { result ≤ length into.new }
    ensures front { text_left elf.now.segments cursor.old ≡ take result into.new ++ text_left elf.now.segments cursor.new }
    ensures end { result ≡ 0 → 0 < length into.new → text_left elf.now.segments cursor.old ≡ [] }
{
    let mut done = tell_line(cursor, into, 0);
    'segments: while done < into.len() && cursor.segment < elf.count() {
        let part = elf.segment(cursor.segment);
        done = tell_segment(cursor, part.addr, part.bytes, into, done);
        if cursor.at >= part.bytes.len() {
            cursor.segment += 1;
            cursor.at = 0;
        }
    }
    done
}

/// Tells what is left of the line.
pub fn tell_rest(cursor: &mut Cursor, into: &mut [u8]) -> usize
    ensures within { result ≤ length into.new }
    ensures front { text_left [] cursor.old ≡ take result into.new ++ text_left [] cursor.new }
    ensures end { result ≡ 0 → 0 < length into.new → text_left [] cursor.old ≡ [] }
{
    tell_line(cursor, into, 0)
}
