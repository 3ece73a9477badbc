//! The text of a script, read line by line.

ghost use Rattle.std.specs.Prelude.{◌≡◌, ◌+◌, ◌<◌, ◌≤◌, ℕ, List, [], ◌∷◌, ◌++◌, length, codes, nat_lt, None, IsTrue, IfSome, IfNone, IfOk, OnOk};
ghost use Rattle.std.specs.List.{list_all};
ghost use Rattle.std.specs.Str.{bytes_eq};
ghost use Rattle.text_readers.specs.Lines.{AreWords, words_of};
ghost use Rattle.script.specs.Programs.{Program};
ghost use Rattle.script.specs.Attested.{IsScript};
ghost use Rattle.script.specs.Grammar.{layout_of, ranges_of, empty_script, fill_line, filled, step_line, body_line, is_passed_over, program_of};
ghost use Rattle.script.specs.Gives.{words_left, draft_line, read_line, GivesNext, GivesValue, IsHeader, GivesBytes, GivesScript, IsDraft};
ghost use Rattle.std.specs.Option.{option_and_then, option_map};
ghost use Rattle.history.specs.declared.ranges.Range.{Range};
ghost use Rattle.history.specs.Attested.{are_ranges, last_end};
ghost use Rattle.sequencing.specs.Options.{when};
ghost use Rattle.std.specs.Result.{result_ok};
ghost use Rattle.hex.specs.Hex.{decode_of};

use crate::{Script, step_in};
use block_memory::Geometry;
use hex::FromHexError;
use history::{Range, layouts_are_tested, ranges_are_tested};
use lock_plan::Ranges;
use std::alloc::{AllocError, Global};
use text_readers::{Words, cut_at, decimal, hex_number, next_line, words_in};

/// Why a line of a script isn't read.
#[derive(Clone, Copy, Debug, PartialEq, Eq)]
pub enum Refusal {
    /// It leaves the grammar.
    Line,
    /// There is no memory for what it says.
    Memory,
}

/// Why a text isn't read as a script.
#[derive(Clone, Copy, Debug, PartialEq, Eq)]
pub enum ScriptError {
    /// It leaves the grammar at this line, counted from 1; where the header ends too early, at the line after
    /// the last one.
    Line(u64),
    /// There is no memory for what it says.
    Memory,
}

/// What was read so far: nothing, memory and the cap, the attested blocks too, the key and a body too.
#[derive(Drop)]
pub enum Draft {
    Begun,
    HasMemory(Geometry, u64),
    HasRange(Geometry, u64, Ranges),
    HasKey(Script),
}

fn layout_in(base: u32, size: u64, blocks: u64) -> Option<Geometry>
    ensures { result ≡ layout_of base size blocks }
{
    layouts_are_tested();
    if size > 65_536 || blocks > 4_096 {
        return None;
    }
    Geometry::new(base, size as u32, blocks as u32)
}

#[tactic(auto, unfolding(crate::specs::Grammar::memory_header))]
fn memory_header(a: &[u8], b: &[u8], c: &[u8], d: &[u8]) -> Option<Draft>
    ensures value { (verb : List ℕ) → IsTrue (bytes_eq verb (codes "memory"))
        → result ≡ draft_line Draft.Begun (verb ∷ a.now ∷ b.now ∷ c.now ∷ d.now ∷ []) }
    ensures within { IfSome result IsDraft }
{
    let base = hex_number(8, a)?;
    let size = decimal(b)?;
    let blocks = decimal(c)?;
    let cap = decimal(d)?;
    let geometry = layout_in(base, size, blocks)?;
    if cap < 1 || cap > 100_000 {
        return None;
    }
    Some(Draft::HasMemory(geometry, cap))
}

// The range that two numbers up to 4,096 say.
fn range_in(a: &[u8], b: &[u8]) -> Option<Range>
    ensures none { IfNone result ((words : List (List ℕ)) → ranges_of (a.now ∷ b.now ∷ words) ≡ None) }
    ensures some { IfSome result (λ r. (words : List (List ℕ)) → ranges_of (a.now ∷ b.now ∷ words)
        ≡ option_map (λ more. r ∷ more) (ranges_of words)) }
{
    let first = decimal(a)?;
    let attested = decimal(b)?;
    if first > 4_096 || attested > 4_096 {
        return None;
    }
    Some(Range {
        first: first as u32,
        attested: attested as u32,
    })
}

// The first word, and the text after it, if there is more.
fn next_word(text: &[u8]) -> (&[u8], Option<&[u8]>)
    ensures { words_of text.now ≡ result.0.now ∷ words_left result.1 }
{
    match cut_at(b' ', text) {
        Some((word, more)) => (word, Some(more)),
        None => (text, None),
    }
}

// The first range of a text of pairs, and the text after it, if there is more.
fn next_range(pairs: &[u8]) -> Option<(Range, Option<&[u8]>)>
    ensures none { IfNone result (ranges_of (words_of pairs.now) ≡ None) }
    ensures some { IfSome result (λ parts. ranges_of (words_of pairs.now)
        ≡ option_map (λ more. parts.0 ∷ more) (ranges_of (words_left parts.1))) }
{
    let Some((a, after)) = cut_at(b' ', pairs) else {
        return None;
    };
    let (b, more) = next_word(after);
    let Some(range) = range_in(a, b) else {
        return None;
    };
    Some((range, more))
}

// The ranges that pairs of numbers say, one to eight.
fn ranges_in(pairs: &[u8]) -> Option<Ranges>
    ensures { result ≡ option_and_then (λ ranges. when (are_ranges ranges) ranges) (ranges_of (words_of pairs.now)) }
{
    ranges_are_tested();
    let mut list = [Range {
        first: 0,
        attested: 0,
    }; 8];
    let mut rest = pairs;
    for place in 0..8 {
        let (range, more) = next_range(rest)?;
        list[place] = range;
        match more {
            Some(text) => rest = text,
            None => return Ranges::new(&list[..=place]),
        }
    }
    None
}

#[tactic(auto, unfolding(crate::specs::Grammar::key_header))]
fn key_header(
    alloc: Global,
    geometry: Geometry,
    cap: u64,
    ranges: Ranges,
    hex: &[u8],
) -> Result<Draft, Refusal>
    requires inside { last_end ranges ≤ geometry.blocks }
    requires some_entry { 1 ≤ cap }
    requires few_entries { cap ≤ 100000 }
    ensures value { (verb : List ℕ) → IsTrue (bytes_eq verb (codes "key"))
        → GivesValue result (draft_line (Draft.HasRange geometry cap ranges) (verb ∷ hex.now ∷ [])) }
    ensures within { IfOk result IsDraft }
{
    let key = bytes_in(alloc, hex)?;
    if key.is_empty() || key.len() > 1_024 {
        return Err(Refusal::Line);
    }
    let Ok(script) = Script::new(alloc, geometry, cap, ranges, key) else {
        return Err(Refusal::Memory);
    };
    Ok(Draft::HasKey(script))
}

// The bytes that hexadecimal digits of either case say.
fn bytes_in(alloc: Global, hex: &[u8]) -> Result<Vec<u8>, Refusal>
    ensures { GivesBytes result (result_ok (decode_of hex.now)) }
{
    match hex::decode(alloc, hex) {
        Ok(bytes) => Ok(bytes),
        Err(FromHexError::OutOfMemory) => Err(Refusal::Memory),
        Err(_) => Err(Refusal::Line),
    }
}

#[tactic(auto, unfolding(crate::specs::Grammar::memory_header))]
fn first_line(words: &Words<'_>) -> Result<Draft, Refusal>
    ensures value { (list : List (List ℕ)) → AreWords words.now list → GivesValue result (draft_line Draft.Begun list) }
    ensures within { IfOk result IsDraft }
{
    if let Words::Five(verb, a, b, c, d) = *words {
        if verb == b"memory".as_slice() {
            return memory_header(a, b, c, d).ok_or(Refusal::Line);
        }
    }
    Err(Refusal::Line)
}

#[tactic(auto, unfolding(crate::specs::Grammar::attest_header))]
fn second_line(geometry: Geometry, cap: u64, line: &[u8]) -> Result<Draft, Refusal>
    requires some_entry { 1 ≤ cap }
    requires few_entries { cap ≤ 100000 }
    ensures value { GivesValue result (draft_line (Draft.HasMemory geometry cap) (words_of line.now)) }
    ensures within { IfOk result IsDraft }
{
    let Some((verb, pairs)) = cut_at(b' ', line) else {
        return Err(Refusal::Line);
    };
    let Some(ranges) = ranges_in(pairs) else {
        return Err(Refusal::Line);
    };
    if verb != b"attest".as_slice() || ranges.end() > geometry.blocks() {
        return Err(Refusal::Line);
    }
    Ok(Draft::HasRange(geometry, cap, ranges))
}

#[tactic(auto, unfolding(crate::specs::Grammar::key_header))]
fn third_line(
    alloc: Global,
    geometry: Geometry,
    cap: u64,
    ranges: Ranges,
    words: &Words<'_>,
) -> Result<Draft, Refusal>
    requires inside { last_end ranges ≤ geometry.blocks }
    requires some_entry { 1 ≤ cap }
    requires few_entries { cap ≤ 100000 }
    ensures value { (list : List (List ℕ)) → AreWords words.now list → GivesValue result (draft_line (Draft.HasRange geometry cap ranges) list) }
    ensures within { IfOk result IsDraft }
{
    if let Words::Two(verb, hex) = *words {
        if verb == b"key".as_slice() {
            return key_header(alloc, geometry, cap, ranges, hex);
        }
    }
    Err(Refusal::Line)
}

#[tactic(auto, unfolding(crate::specs::Grammar::fill_line))]
fn fill_line(alloc: Global, script: &mut Script, addr: &[u8], hex: &[u8]) -> Result<(), Refusal>
    requires { script.old.steps ≡ [] }
    ensures { GivesNext result (fill_line script.old addr.now hex.now) script.new }
{
    let Some(addr) = hex_number(8, addr) else {
        return Err(Refusal::Line);
    };
    let bytes = bytes_in(alloc, hex)?;
    if bytes.is_empty() || !script.has_bytes(addr, bytes.len()) {
        return Err(Refusal::Line);
    }
    script.fill(addr, &bytes);
    Ok(())
}

#[tactic(auto, unfolding(crate::specs::Grammar::step_line))]
fn step_line(script: &mut Script, words: &Words<'_>) -> Result<(), Refusal>
    ensures { (list : List (List ℕ)) → AreWords words.now list → GivesNext result (step_line script.old list) script.new }
{
    let Some(step) = step_in(words) else {
        return Err(Refusal::Line);
    };
    script.push_step(step)
}

#[tactic(auto, unfolding(crate::specs::Grammar::body_line))]
fn later_line(alloc: Global, script: &mut Script, words: &Words<'_>) -> Result<(), Refusal>
    ensures { (list : List (List ℕ)) → AreWords words.now list → GivesNext result (body_line script.old list) script.new }
{
    if let Words::Three(verb, addr, hex) = *words {
        if verb == b"fill".as_slice() && script.step_count() == 0 {
            return fill_line(alloc, script, addr, hex);
        }
    }
    step_line(script, words)
}

// A line of the header.
fn header_line(alloc: Global, draft: &Draft, line: &[u8]) -> Result<Draft, Refusal>
    requires draft { IsDraft draft.now }
    requires header { IsHeader draft.now }
    ensures value { GivesValue result (draft_line draft.now (words_of line.now)) }
    ensures within { IfOk result IsDraft }
{
    match draft {
        Draft::Begun => first_line(&words_in(line)),
        Draft::HasMemory(geometry, cap) => second_line(*geometry, *cap, line),
        Draft::HasRange(geometry, cap, ranges) => third_line(
            alloc,
            *geometry,
            *cap,
            *ranges,
            &words_in(line),
        ),
        Draft::HasKey(_) => unreachable!(),
    }
}

// A line of the text.
fn read_line(alloc: Global, draft: &mut Draft, line: &[u8]) -> Result<(), Refusal>
    requires { IsDraft draft.old }
    ensures value { GivesNext result (read_line draft.old line.now) draft.new }
    ensures within { OnOk result (IsDraft draft.new) }
{
    if is_passed_over(line) {
        return Ok(());
    }
    if let Draft::HasKey(script) = draft {
        return later_line(alloc, script, &words_in(line));
    }
    *draft = header_line(alloc, draft, line)?;
    Ok(())
}

// A line of nothing, or a comment.
fn is_passed_over(line: &[u8]) -> bool
    ensures { result ≡ is_passed_over line.now }
{
    line.is_empty() || line[0] == b'#' && is_ascii(line)
}

fn is_ascii(line: &[u8]) -> bool
    ensures { result ≡ list_all (λ byte. nat_lt byte 128) line.now }
{
    line.iter().all(|byte| *byte < 128)
}

/// The script that a text says. An `Err` of a line says at which line the text leaves the grammar.
pub fn read_script(alloc: Global, text: &[u8]) -> Result<Script, ScriptError>
    ensures gives { GivesScript result (program_of text.now) }
    ensures script { IfOk result IsScript }
{
    let mut draft = Draft::Begun;
    let mut rest = text;
    let mut number = 1u64;
    while let Some((line, after)) = next_line(rest) {
        match read_line(alloc, &mut draft, line) {
            Ok(()) => {}
            Err(Refusal::Line) => return Err(ScriptError::Line(number)),
            Err(Refusal::Memory) => return Err(ScriptError::Memory),
        }
        rest = after;
        number += 1;
    }
    match draft {
        Draft::HasKey(script) => {
            script.is_script();
            Ok(script)
        }
        Draft::Begun | Draft::HasMemory(..) | Draft::HasRange(..) => Err(ScriptError::Line(number)),
    }
}
