//! The text of a chronicle in parts, so that no more than one part is held at a time.

ghost use Rattle.std.specs.Prelude.{◌≡◌, ◌↔◌, ◌^◌, IsTrue, ◌+◌, ◌*◌, ◌<◌, ◌≤◌, ◌++◌, ◌∷◌, [], length, map, slice_get, Some, IfOk, All};
ghost use Rattle.std.specs.Fork.{slice_chunk};
ghost use Rattle.std.specs.Slice.Iter.{chunk_count};
ghost use Rattle.trace.specs.Text.{text_of_lines, entry_text, head_lines, image_lines, end_line, trace_parts};
ghost use Rattle.trace.specs.Printable.{ActIsPrintable, IsPrintable};
ghost use Rattle.history.specs.Layout.{width_bytes};

use crate::lines::{put_end, put_entries, put_head, put_image};
use chronicle::{Act, Chronicle, Entry, Width, World};
use std::alloc::{AllocError, Global};

/// A part has the lines of at most so many entries.
const PART_ENTRIES: usize = 1024;

/// No line of an entry has more bytes: `A start CODE COUNTER` with a counter of 20 digits.
const MOST_LINE_BYTES: usize = 32;

/// No four lines of a head with eight ranges have more bytes.
const MOST_HEAD_BYTES: usize = 256;

// The value has a place in two digits for each byte of the width.
fn fits_width(width: Width, value: u32) -> bool
    ensures { IsTrue result ↔ (value < 256 ^ width_bytes width) }
{
    match width {
        Width::Byte => value < 256,
        Width::Half => value < 65_536,
        Width::Word => true,
    }
}

// The numbers of the act are in the ranges of the text.
fn act_is_printable(act: &Act) -> bool
    ensures { IsTrue result ↔ ActIsPrintable act.now }
{
    match *act {
        Act::Fetch { addr, value } => {
            fits_width(Width::Word, addr) && fits_width(Width::Word, value)
        }
        Act::Load { addr, width, value } | Act::Store { addr, width, value } => {
            fits_width(Width::Word, addr) && fits_width(width, value)
        }
        Act::Start { counter, .. } => counter <= u64::MAX,
        Act::Copy { block } => block < 4_096,
        Act::End | Act::Tick | Act::Release => true,
    }
}

fn is_printable(entry: &Entry) -> bool
    ensures { IsTrue result ↔ IsPrintable entry.now }
{
    entry.actor <= 8 && act_is_printable(&entry.act)
}

/// Whether each entry is in the ranges of the text: actors 0 to 8, values that fit their widths, blocks below 4,096.
pub fn are_printable(entries: &[Entry]) -> bool
    ensures { IsTrue result ↔ All IsPrintable entries.now }
{
    for entry in entries {
        if !is_printable(entry) {
            return false;
        }
    }
    true
}

/// How many parts the text of the chronicle has: the head with the image, a part for each 1,024 entries, and the end.
#[tactic(auto, using(crate::proofs::Pieces::parts_count))]
pub fn parts(chronicle: &Chronicle) -> u64
    ensures { result ≡ length (trace_parts chronicle.now.world chronicle.now.entries) }
{
    let entries = chronicle.entries().len() as u64;
    (entries + 1023) / 1024 + 2
}

/// A part of the text of the chronicle, from 0. Each entry has to be in the ranges of the text. Only want of memory
/// refuses it.
pub fn part(alloc: Global, chronicle: &Chronicle, k: u64) -> Result<Vec<u8>, AllocError>
    requires known { k < length (trace_parts chronicle.now.world chronicle.now.entries) }
    requires printable { All IsPrintable chronicle.now.entries }
    ensures { IfOk result (λ bytes. slice_get (trace_parts chronicle.now.world chronicle.now.entries) k ≡ Some bytes.items) }
{
    if k == 0 {
        return head_part(alloc, chronicle.world());
    }
    let entries = chronicle.entries();
    let piece = (k - 1) as usize;
    if piece < (entries.len() + 1023) / 1024 {
        return entries_part(alloc, entries, piece);
    }
    end_part(alloc, entries)
}

// The head with the image.
fn head_part(alloc: Global, world: &World) -> Result<Vec<u8>, AllocError>
    ensures { IfOk result (λ bytes. bytes.items ≡ text_of_lines (head_lines world.now ++ image_lines world.now.image)) }
{
    let image = world.image();
    let mut out = Vec::with_capacity(alloc, MOST_HEAD_BYTES + 2 * image.len() + image.len() / 16)?;
    put_head(&mut out, world)?;
    put_image(&mut out, image)?;
    Ok(out)
}

// The entries of a piece.
fn entries_part(alloc: Global, entries: &[Entry], piece: usize) -> Result<Vec<u8>, AllocError>
    requires known { piece < chunk_count (length entries.now) 1024 }
    requires printable { All IsPrintable entries.now }
    ensures { IfOk result (λ bytes. bytes.items ≡ text_of_lines (map entry_text (slice_chunk entries.now 1024 piece))) }
{
    let piece = entries_piece(entries, piece);
    let mut out = Vec::with_capacity(alloc, MOST_LINE_BYTES * piece.len())?;
    put_entries(&mut out, piece)?;
    Ok(out)
}

// The entries of the piece with this number, from 0.
fn entries_piece(entries: &[Entry], piece: usize) -> &[Entry]
    requires { piece < chunk_count (length entries.now) 1024 }
    ensures value { result.now ≡ slice_chunk entries.now 1024 piece }
    ensures few { length result.now ≤ 1024 }
{
    let from = piece * PART_ENTRIES;
    let to = (from + PART_ENTRIES).min(entries.len());
    &entries[from..to]
}

// The line behind the entries.
fn end_part(alloc: Global, entries: &[Entry]) -> Result<Vec<u8>, AllocError>
    ensures { IfOk result (λ bytes. bytes.items ≡ text_of_lines (end_line entries.now ∷ [])) }
{
    let mut out = Vec::with_capacity(alloc, MOST_LINE_BYTES)?;
    put_end(&mut out, entries)?;
    Ok(out)
}
