//! The first four lines of a trace, and its last one, read from the front of a text.

ghost use Rattle.std.specs.Prelude.{◌≡◌, ◌≢◌, ℕ, Bool, List, ◌≤◌, ◌++◌, ◌∷◌, codes, IfSome, IfNone};
ghost use Rattle.std.specs.List.{flat_map};
ghost use Rattle.std.specs.Option.{SomeIff, option_map};
ghost use Rattle.std.specs.Fmt.{decimal};
ghost use Rattle.history.specs.declared.ranges.Range.{Range};
ghost use Rattle.history.specs.Attested.{IsRanges};
ghost use Rattle.history.specs.Layout.{Layout, IsLayout};
ghost use Rattle.trace.specs.Text.{memory_line, range_pair, attest_line, cap_line};
ghost use Rattle.trace.specs.HeadReading.{version_word, memory_numbers, range_numbers, numbered_at};

use crate::reading::{decimal_at, digits_at, text_behind};
use chronicle::{Geometry, Range, Ranges};

/// The most entries that a trace may have, and the highest cap.
pub const MOST_ENTRIES: u64 = 4_000_000;

/// The first line: whether the attested blocks are several ranges, and the text behind it.
pub fn version_line(text: &[u8]) -> Option<(bool, &[u8])>
    ensures found { IfSome result (λ found. text.now ≡ version_word found.0 ++ 10 ∷ found.1.now) }
    ensures none { IfNone result ((several : Bool) (rest : List ℕ) → text.now ≢ version_word several ++ 10 ∷ rest) }
{
    if let Some(rest) = text_behind(b"TMT1\n", text) {
        return Some((false, rest));
    }
    let rest = text_behind(b"TMT2\n", text)?;
    Some((true, rest))
}

// `memory BASE SIZE BLOCKS`, up to the line's end.
#[tactic(auto, unfolding(crate::specs::HeadReading::memory_numbers))]
fn memory_numbers(text: &[u8]) -> Option<(u32, u64, u64, &[u8])>
    ensures { option_map (λ found. (found.0, found.1, found.2, found.3.now)) result ≡ memory_numbers text.now }
{
    let digits = text_behind(b"memory ", text)?;
    let (base, sizes) = digits_at(8, digits)?;
    let sizes = text_behind(b" ", sizes)?;
    let (size, blocks) = decimal_at(b' ', sizes)?;
    let (blocks, rest) = decimal_at(b'\n', blocks)?;
    Some((base, size, blocks, rest))
}

// The geometry with these numbers.
fn geometry_of(base: u32, size: u64, blocks: u64) -> Option<Geometry>
    ensures { let layout : Layout = record { base = base; size = size; blocks = blocks } in
        SomeIff result (IsLayout layout) layout }
{
    if size > 65_536 || blocks > 4_096 {
        return None;
    }
    Geometry::new(base, size as u32, blocks as u32)
}

/// The line of memory, and the text behind it.
pub fn memory_line(text: &[u8]) -> Option<(Geometry, &[u8])>
    ensures found { IfSome result (λ found. text.now ≡ memory_line found.0 ++ 10 ∷ found.1.now) }
    ensures layout { IfSome result (λ found. IsLayout found.0) }
    ensures none { IfNone result ((layout : Layout) (rest : List ℕ) → IsLayout layout
        → text.now ≢ memory_line layout ++ 10 ∷ rest) }
{
    let Some((base, size, blocks, rest)) = memory_numbers(text) else {
        return None;
    };
    match geometry_of(base, size, blocks) {
        Some(geometry) => Some((geometry, rest)),
        None => None,
    }
}

// `FIRST ATTESTED`, numbers up to 4,096, and the byte that ends them.
#[tactic(auto, unfolding(crate::specs::HeadReading::range_numbers))]
fn range_numbers(end: u8, text: &[u8]) -> Option<(Range, &[u8])>
    ensures { option_map (λ found. (found.0, found.1.now)) result ≡ range_numbers end text.now }
{
    let (first, rest) = decimal_at(b' ', text)?;
    let (attested, rest) = decimal_at(end, rest)?;
    if first > 4_096 || attested > 4_096 {
        return None;
    }
    Some((
        Range {
            first: first as u32,
            attested: attested as u32,
        },
        rest,
    ))
}

// The ranges of the line of attested blocks, behind its first space, and the text behind that line.
fn ranges_line(text: &[u8]) -> Option<(Ranges, &[u8])>
    ensures found { IfSome result (λ found. 32 ∷ text.now ≡ flat_map range_pair found.0 ++ 10 ∷ found.1.now) }
    ensures ranges { IfSome result (λ found. IsRanges found.0) }
    ensures none { IfNone result ((ranges : List Range) (rest : List ℕ) → IsRanges ranges
        → 32 ∷ text.now ≢ flat_map range_pair ranges ++ 10 ∷ rest) }
{
    let mut list = [Range {
        first: 0,
        attested: 0,
    }; 8];
    let mut left = text;
    for place in 0..8 {
        match range_numbers(b' ', left) {
            Some((range, rest)) => {
                list[place] = range;
                left = rest;
            }
            None => {
                let Some((range, rest)) = range_numbers(b'\n', left) else {
                    return None;
                };
                list[place] = range;
                let Some(ranges) = Ranges::new(&list[..=place]) else {
                    return None;
                };
                return Some((ranges, rest));
            }
        }
    }
    None
}

/// The line of attested blocks, and the text behind it.
pub fn attest_line(text: &[u8]) -> Option<(Ranges, &[u8])>
    ensures found { IfSome result (λ found. text.now ≡ attest_line found.0 ++ 10 ∷ found.1.now) }
    ensures ranges { IfSome result (λ found. IsRanges found.0) }
    ensures none { IfNone result ((ranges : List Range) (rest : List ℕ) → IsRanges ranges
        → text.now ≢ attest_line ranges ++ 10 ∷ rest) }
{
    let Some(pairs) = text_behind(b"attest ", text) else {
        return None;
    };
    ranges_line(pairs)
}

// A number behind a word, up to the line's end.
#[tactic(auto, unfolding(crate::specs::HeadReading::numbered_at))]
fn numbered_at<'a>(word: &[u8], text: &'a [u8]) -> Option<(u64, &'a [u8])>
    ensures { option_map (λ found. (found.0, found.1.now)) result ≡ numbered_at word.now text.now }
{
    let digits = text_behind(word, text)?;
    decimal_at(b'\n', digits)
}

/// The line of the cap, and the text behind it.
pub fn cap_line(text: &[u8]) -> Option<(u64, &[u8])>
    ensures found { IfSome result (λ found. text.now ≡ cap_line found.0 ++ 10 ∷ found.1.now) }
    ensures some { IfSome result (λ found. 1 ≤ found.0) }
    ensures few { IfSome result (λ found. found.0 ≤ 4000000) }
    ensures none { IfNone result ((cap : ℕ) (rest : List ℕ) → 1 ≤ cap → cap ≤ 4000000
        → text.now ≢ cap_line cap ++ 10 ∷ rest) }
{
    let Some((cap, rest)) = numbered_at(b"cap ", text) else {
        return None;
    };
    if cap == 0 {
        return None;
    }
    if cap > MOST_ENTRIES {
        return None;
    }
    Some((cap, rest))
}

/// The text behind the end's line, which has to tell this number of entries.
pub fn end_line(count: u64, text: &[u8]) -> Option<&[u8]>
    ensures found { IfSome result (λ rest. text.now ≡ (codes "end " ++ decimal count) ++ 10 ∷ rest.now) }
    ensures none { IfNone result ((rest : List ℕ) → text.now ≢ (codes "end " ++ decimal count) ++ 10 ∷ rest) }
{
    let Some((told, rest)) = numbered_at(b"end ", text) else {
        return None;
    };
    if told != count {
        return None;
    }
    Some(rest)
}
