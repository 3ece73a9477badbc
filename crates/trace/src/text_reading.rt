//! The text of a trace, read whole.

ghost use Rattle.std.specs.Prelude.{◌≡◌, ◌≢◌, ℕ, true, Bool, List, [], ◌∷◌, ◌++◌, ◌+◌, ◌<◌, ◌≤◌, length, codes, All, IfOk, IfErr, MatchResult};
ghost use Rattle.std.specs.Fmt.{decimal};
ghost use Rattle.history.specs.declared.events.Entry.{Entry};
ghost use Rattle.history.specs.Attested.{IsRanges, last_end};
ghost use Rattle.history.specs.Layout.{Setting, IsLayout, IsSetting, byte_count};
ghost use Rattle.chronicle.specs.Settings.{setting_of};
ghost use Rattle.chronicle.specs.Worlds.{Recorded};
ghost use Rattle.trace.specs.Text.{text_of_lines, entry_text, entries_text, memory_line, head_lines, image_lines, end_line};
ghost use Rattle.trace.specs.Printable.{IsPrintable};
ghost use Rattle.trace.specs.HeadReading.{version_word};
ghost use Rattle.trace.specs.Whole.{IsTrace, LeavesAt, TellsLine};

use crate::head_reading::{
    MOST_ENTRIES, attest_line, cap_line, end_line, memory_line, version_line,
};
use crate::image_reading::image_line;
use crate::reading::first_entry;
use chronicle::{Chronicle, Entry, Geometry, Ranges, World};
use std::alloc::Global;

/// The bytes of the shortest line of an entry, `0 end` with its end.
const SHORTEST_LINE: usize = 6;

/// Why a text isn't read as a trace.
#[derive(Clone, Copy, Debug, PartialEq, Eq)]
pub enum TraceFault {
    /// The first line at which the text leaves the grammar, counted from 1: a missing line is the one after the last, and
    /// a last line without its end is that line.
    Line(u64),
    /// There is no memory for what it says. It may come at any time.
    Memory,
}

/// What the first four lines say.
#[derive(Drop)]
struct Head {
    geometry: Geometry,
    ranges: Ranges,
    cap: u64,
}

// The first two lines, and the text behind them: several ranges, which don't touch, want three blocks.
fn read_memory(text: &[u8]) -> Result<(bool, Geometry, &[u8]), TraceFault>
    ensures found { IfOk result (λ found.
        text.now ≡ version_word found.0 ++ 10 ∷ (memory_line found.1 ++ 10 ∷ found.2.now)) }
    ensures layout { IfOk result (λ found. IsLayout found.1) }
    ensures room { IfOk result (λ found. found.0 ≡ true → 3 ≤ found.1.blocks) }
    ensures fault { IfErr result (TellsLine text.now) }
{
    let Some((several, text)) = version_line(text) else {
        return Err(TraceFault::Line(1));
    };
    let (geometry, rest) = match memory_line(text) {
        Some(found) => found,
        None => return Err(TraceFault::Line(2)),
    };
    if several && geometry.blocks() < 3 {
        return Err(TraceFault::Line(2));
    }
    Ok((several, geometry, rest))
}

// The first four lines, and the text behind them.
fn read_head(text: &[u8]) -> Result<(Head, &[u8]), TraceFault>
    ensures found { IfOk result (λ found. (image : List ℕ) → text.now
        ≡ text_of_lines (head_lines (setting_of found.0.geometry found.0.ranges image found.0.cap)) ++ found.1.now) }
    ensures layout { IfOk result (λ found. IsLayout found.0.geometry) }
    ensures ranges { IfOk result (λ found. IsRanges found.0.ranges) }
    ensures inside { IfOk result (λ found. last_end found.0.ranges ≤ found.0.geometry.blocks) }
    ensures some { IfOk result (λ found. 1 ≤ found.0.cap) }
    ensures few { IfOk result (λ found. found.0.cap ≤ 4000000) }
    ensures fault { IfErr result (TellsLine text.now) }
{
    let (several, geometry, text) = match read_memory(text) {
        Ok(found) => found,
        Err(fault) => return Err(fault),
    };
    let (ranges, text) = match attest_line(text) {
        Some(found) => found,
        None => return Err(TraceFault::Line(3)),
    };
    if (ranges.count() > 1) != several {
        return Err(TraceFault::Line(3));
    }
    if ranges.end() > geometry.blocks() {
        return Err(TraceFault::Line(3));
    }
    let Some((cap, rest)) = cap_line(text) else {
        return Err(TraceFault::Line(4));
    };
    Ok((
        Head {
            geometry,
            ranges,
            cap,
        },
        rest,
    ))
}

// The image of so many bytes, and the text behind its lines.
fn read_image(alloc: Global, bytes: usize, text: &[u8]) -> Result<(Vec<u8>, &[u8]), TraceFault>
    requires { bytes ≤ 1048576 }
    ensures found { IfOk result (λ found. text.now ≡ text_of_lines (image_lines found.0.items) ++ found.1.now) }
    ensures length { IfOk result (λ found. length found.0.items ≡ bytes) }
    ensures bytes { IfOk result (λ found. All (λ byte. byte < 256) found.0.items) }
    ensures fault { (w : Setting) (whole : List ℕ) → IsSetting w → byte_count w.layout ≡ bytes
        → whole ≡ text_of_lines (head_lines w) ++ text.now → IfErr result (TellsLine whole) }
{
    let Ok(mut image) = Vec::with_capacity(alloc, bytes) else {
        return Err(TraceFault::Memory);
    };
    let mut left = text;
    for line in 0..(bytes + 31) / 32 {
        let mut buffer = [0u8; 32];
        let count = (bytes - 32 * line).min(32);
        let piece = &mut buffer[..count];
        let Some(rest) = image_line(piece, left) else {
            return Err(TraceFault::Line(5 + line as u64));
        };
        let Ok(()) = image.extend_from_slice(piece) else {
            return Err(TraceFault::Memory);
        };
        left = rest;
    }
    Ok((image, left))
}

// The text has no more entries than this. Room that none of them takes is never touched.
fn most_entries(text: &[u8]) -> usize {
    let lines = text.len() / SHORTEST_LINE;
    lines.min(MOST_ENTRIES as usize)
}

// The entries whose lines stand at the front, the first of them with this number, and the text behind them.
fn read_entries(alloc: Global, line: u64, text: &[u8]) -> Result<(Vec<Entry>, &[u8]), TraceFault>
    requires { line ≤ 100000 }
    ensures found { IfOk result (λ found. text.now ≡ entries_text found.0.items ++ found.1.now) }
    ensures printable { IfOk result (λ found. All IsPrintable found.0.items) }
    ensures few { IfOk result (λ found. length found.0.items ≤ 4000000) }
    ensures last { IfOk result (λ found. (entry : Entry) (rest : List ℕ) → IsPrintable entry
        → found.1.now ≢ entry_text entry ++ 10 ∷ rest) }
    ensures fault { (w : Setting) (whole : List ℕ) → IsSetting w → line ≡ 5 + length (image_lines w.image)
        → whole ≡ text_of_lines (head_lines w ++ image_lines w.image) ++ text.now → IfErr result (TellsLine whole) }
{
    let Ok(mut entries) = Vec::with_capacity(alloc, most_entries(text)) else {
        return Err(TraceFault::Memory);
    };
    let mut left = text;
    while let Some((entry, rest)) = first_entry(left) {
        let count = entries.len() as u64;
        if count >= MOST_ENTRIES {
            return Err(TraceFault::Line(line + count));
        }
        let Ok(()) = entries.push(entry) else {
            return Err(TraceFault::Memory);
        };
        left = rest;
    }
    Ok((entries, left))
}

// The last line, which has this number and tells so many entries, has to be the whole text.
fn read_end(line: u64, count: u64, text: &[u8]) -> Result<(), TraceFault>
    requires { line ≤ 5000000 }
    ensures whole { IfOk result (λ _. text.now ≡ (codes "end " ++ decimal count) ++ 10 ∷ []) }
    ensures fault { (w : Setting) (entries : List Entry) (whole : List ℕ) → IsSetting w
        → All IsPrintable entries → length entries ≤ 4000000 → count ≡ length entries
        → line ≡ 5 + length (image_lines w.image) + count
        → whole ≡ text_of_lines (head_lines w ++ image_lines w.image) ++ (entries_text entries ++ text.now)
        → ((entry : Entry) (rest : List ℕ) → IsPrintable entry → text.now ≢ entry_text entry ++ 10 ∷ rest)
        → IfErr result (TellsLine whole) }
{
    let Some(rest) = end_line(count, text) else {
        return Err(TraceFault::Line(line));
    };
    if !rest.is_empty() {
        return Err(TraceFault::Line(line + 1));
    }
    Ok(())
}

// The entries of the world whose head and image stand before the text, up to the end of the trace.
fn read_rest(alloc: Global, world: &World, text: &[u8]) -> Result<Vec<Entry>, TraceFault>
    ensures found { IfOk result (λ entries.
        text.now ≡ entries_text entries.items ++ text_of_lines (end_line entries.items ∷ [])) }
    ensures printable { IfOk result (λ entries. All IsPrintable entries.items) }
    ensures few { IfOk result (λ entries. length entries.items ≤ 4000000) }
    ensures fault { (whole : List ℕ) → whole
        ≡ text_of_lines (head_lines world.now ++ image_lines world.now.image) ++ text.now → IfErr result (TellsLine whole) }
{
    let line = 5 + (world.image().len() as u64 + 31) / 32;
    let (entries, text) = read_entries(alloc, line, text)?;
    let count = entries.len() as u64;
    read_end(line + count, count, text)?;
    Ok(entries)
}

// The world whose head and image stand at the front, and the text behind them.
fn read_world(alloc: Global, bytes: &[u8]) -> Result<(World, &[u8]), TraceFault>
    ensures found { IfOk result (λ found. bytes.now
        ≡ text_of_lines (head_lines found.0 ++ image_lines found.0.image) ++ found.1.now) }
    ensures setting { IfOk result (λ found. IsSetting found.0) }
    ensures fault { IfErr result (TellsLine bytes.now) }
{
    let (head, text) = match read_head(bytes) {
        Ok(found) => found,
        Err(fault) => return Err(fault),
    };
    let (image, text) = match read_image(alloc, head.geometry.byte_count() as usize, text) {
        Ok(found) => found,
        Err(fault) => return Err(fault),
    };
    let Some(world) = World::new(head.geometry, head.ranges, image, head.cap) else {
        unreachable!()
    };
    Ok((world, text))
}

/// Reads the text of a trace, of either version. A refusal names the first line at which the text leaves the grammar, counted
/// from 1. Only want of memory refuses a text that is a trace.
pub fn read(alloc: Global, bytes: &[u8]) -> Result<Chronicle, TraceFault>
    ensures trace { IfOk result (IsTrace bytes.now) }
    ensures fault { IfErr result (TellsLine bytes.now) }
    ensures again { (kept : Recorded) → IsTrace bytes.now kept
        → MatchResult result (λ found. found ≡ kept) (λ fault. fault ≡ TraceFault.Memory) }
{
    let (world, text) = read_world(alloc, bytes)?;
    let entries = read_rest(alloc, &world, text)?;
    Ok(Chronicle::new(world, entries))
}

/// At most one line is the first at which a text leaves the grammar.
pub fn one_line_leaves()
    ensures { (text : List ℕ) (line other : ℕ) → LeavesAt text line → LeavesAt text other → line ≡ other }
{}
