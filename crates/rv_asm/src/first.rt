// The first pass.

ghost use Rattle.std.specs.Prelude.{◌≡◌, ◌+◌, ◌++◌, ◌∷◌, [], ◌≤◌, ◌<◌, ◌^◌, Ok, Err, Some, None, OnSome, OnOk, IfOk, IsTrue, unwrap_or, length};
ghost use Rattle.std.specs.Option.{option_map};
ghost use Rattle.std.specs.Result.{result_map_both};
ghost use Rattle.asm_lines.specs.Cuts.{statement_words, line_of, nothing_said};
ghost use Rattle.asm_lines.specs.Lines.{source_lines};
ghost use Rattle.asm_statements.specs.Orders.{order_of};
ghost use Rattle.rv_asm.specs.Gives.{Leaves, GivesAt};
ghost use Rattle.rv_asm.specs.First.{start, first_pass_place, label_address, labelled_line, with_bytes, entry_noted, next_segment, with_order, with_orders, order_of_line, with_words, with_line, after_said, first_lines, has_room, end_of};
ghost use Rattle.rv_asm.specs.Kept.{kept_order, kept_orders, kept_here, kept_from, order_said};
ghost use Rattle.asm_statements.specs.Sizes as sizes;

use crate::faults::{AsmFault, Stop, fault_at};
use crate::labels::Labels;
use asm_lines::{Kind, ParsedLine, RawStatement, after_empty_line, next_line};
use asm_statements::{MOST_BYTES, Statement, is_instruction, size_of, statement_in};
use std::alloc::{AllocError, Global};

/// Where the lines so far have come to.
#[derive(Drop)]
pub struct Place<'a> {
    /// The address of the next byte, once there is a segment.
    pub next: Option<u64>,
    /// How many bytes there are.
    pub total: u32,
    /// How many segments there are.
    pub segments: u32,
    /// Whether `.entry` stood.
    pub has_entry: bool,
    pub labels: Labels<'a>,
}

/// What a line orders, kept for the second pass.
#[derive(Clone, Copy, Debug)]
pub struct Kept<'a> {
    /// The line's number, from 1.
    pub line: u64,
    /// The address of the next byte before it, or 0.
    pub here: u64,
    pub statement: Statement<'a>,
}

/// What the first pass has read of a whole text.
#[derive(Drop)]
pub struct Reading<'a> {
    pub place: Place<'a>,
    pub kept: Vec<Kept<'a>>,
    /// The number of the line after the last.
    pub after: u64,
}

/// Before the first line. It takes no memory.
pub fn start<'a>(alloc: Global) -> Place<'a>
    ensures { first_pass_place result ≡ start }
{
    Place {
        next: None,
        total: 0,
        segments: 0,
        has_entry: false,
        labels: Labels::new(alloc),
    }
}

fn label_address(next: Option<u64>) -> Option<u32>
    ensures { result ≡ label_address next }
{
    let address = next?;
    if address > 0xffff_ffff {
        return None;
    }
    Some(address as u32)
}

fn has_room(total: u32, size: u32, instruction: bool, address: u64) -> bool
    requires { size ≤ 1048576 }
    ensures { result ≡ has_room total size instruction address }
{
    let size_64 = u64::from(size);
    let aligned = !instruction || address % 4 == 0;
    aligned && address <= 0x1_0000_0000 - size_64 && total <= MOST_BYTES - size
}

// The address behind so many bytes, where they have room from the next address on.
fn end_of(next: Option<u64>, total: u32, size: u32, instruction: bool) -> Option<u64>
    requires { size ≤ 1048576 }
    ensures value { result ≡ end_of next total size instruction }
    ensures within { OnSome result (total + size ≤ 1048576) }
{
    let address = next?;
    if !has_room(total, size, instruction, address) {
        return None;
    }
    Some(address + u64::from(size))
}

fn with_bytes(place: &mut Place<'_>, size: u32, instruction: bool) -> Result<(), Stop>
    requires { size ≤ 1048576 }
    ensures { Leaves result (first_pass_place place.new) (with_bytes (first_pass_place place.old) size instruction) }
{
    if size == 0 {
        return Ok(());
    }
    let Some(end) = end_of(place.next, place.total, size, instruction) else {
        return Err(Stop::Fault(Kind::Layout));
    };
    place.next = Some(end);
    place.total += size;
    Ok(())
}

fn with_order(place: &mut Place<'_>, statement: &Statement<'_>) -> Result<(), Stop>
    ensures { Leaves result (first_pass_place place.new) (with_order (first_pass_place place.old) (order_of statement.now)) }
{
    match *statement {
        Statement::Begin(address) => begun(place, address),
        Statement::Entry(_) => entered(place),
        Statement::Plain(_) => sized(place, statement),
        Statement::JumpTo { .. } => sized(place, statement),
        Statement::BranchTo { .. } => sized(place, statement),
        Statement::LoadWide { .. } => sized(place, statement),
        Statement::LoadAddress { .. } => sized(place, statement),
        Statement::Cells(..) => sized(place, statement),
        Statement::Zeros(_) => sized(place, statement),
    }
}

fn sized(place: &mut Place<'_>, statement: &Statement<'_>) -> Result<(), Stop>
    ensures { Leaves result (first_pass_place place.new) (with_bytes (first_pass_place place.old) (sizes.size_of (order_of statement.now)) (sizes.is_instruction (order_of statement.now))) }
{
    match size_of(statement) {
        Some(size) => with_bytes(place, size, is_instruction(statement)),
        None => Err(Stop::Fault(Kind::Layout)),
    }
}

fn begun(place: &mut Place<'_>, address: u32) -> Result<(), Stop>
    ensures { Leaves result (first_pass_place place.new) (next_segment (first_pass_place place.old) address) }
{
    if place.segments >= 64 {
        return Err(Stop::Fault(Kind::Layout));
    }
    place.next = Some(u64::from(address));
    place.segments += 1;
    Ok(())
}

fn entered(place: &mut Place<'_>) -> Result<(), Stop>
    ensures { Leaves result (first_pass_place place.new) (entry_noted (first_pass_place place.old)) }
{
    if place.has_entry {
        return Err(Stop::Fault(Kind::Layout));
    }
    place.has_entry = true;
    Ok(())
}

/// What a line's statement orders, where it has one.
pub fn line_statement<'a>(raw: &Option<RawStatement<'a>>) -> Result<Option<Statement<'a>>, Kind>
    ensures { result_map_both (option_map order_of) (λ kind. kind) result ≡ order_of_line (option_map statement_words raw.now) }
{
    match raw {
        None => Ok(None),
        Some(raw) => match statement_in(raw) {
            Ok(statement) => Ok(Some(statement)),
            Err(kind) => Err(kind),
        },
    }
}

fn with_orders(place: &mut Place<'_>, statement: &Option<Statement<'_>>) -> Result<(), Stop>
    ensures { Leaves result (first_pass_place place.new) (with_orders (first_pass_place place.old) (option_map order_of statement.now)) }
{
    match statement {
        None => Ok(()),
        Some(statement) => with_order(place, statement),
    }
}

type Ordered<'a> = Result<Option<Statement<'a>>, Stop>;

// A line's statement, once its label has its address.
fn with_statement<'a>(place: &mut Place<'_>, raw: &Option<RawStatement<'a>>) -> Ordered<'a>
    ensures moved { Leaves result (first_pass_place place.new) (with_words (first_pass_place place.old) (option_map statement_words raw.now)) }
    ensures order { IfOk result (λ statement. order_of_line (option_map statement_words raw.now) ≡ Ok (option_map order_of statement)) }
{
    match line_statement(raw) {
        Err(kind) => Err(Stop::Fault(kind)),
        Ok(statement) => match with_orders(place, &statement) {
            Ok(()) => Ok(statement),
            Err(stop) => Err(stop),
        },
    }
}

// A line with a label that has this address.
#[tactic(auto, unfolding(crate::specs::First::with_line))]
fn labelled<'a>(
    place: &mut Place<'a>,
    name: &'a [u8],
    address: u32,
    raw: &Option<RawStatement<'a>>,
) -> Ordered<'a>
    requires { label_address place.old.next ≡ Some address }
    ensures moved { Leaves result (first_pass_place place.new) (with_line (first_pass_place place.old) (labelled_line name.now (option_map statement_words raw.now))) }
    ensures order { IfOk result (λ statement. order_of_line (option_map statement_words raw.now) ≡ Ok (option_map order_of statement)) }
{
    match place.labels.add(name, address) {
        Err(_) => Err(Stop::Memory),
        Ok(false) => Err(Stop::Fault(Kind::DuplicateLabel)),
        Ok(true) => with_statement(place, raw),
    }
}

// The fault of a line with a label where none may stand.
#[tactic(auto, unfolding(crate::specs::First::with_line))]
fn misplaced(place: &Place<'_>, name: &[u8], raw: &Option<RawStatement<'_>>) -> Kind
    requires { label_address place.now.next ≡ None }
    ensures { with_line (first_pass_place place.now) (labelled_line name.now (option_map statement_words raw.now)) ≡ Err result }
{
    if place.labels.address_of(name).is_some() {
        return Kind::DuplicateLabel;
    }
    match line_statement(raw) {
        Err(kind) => kind,
        Ok(_) => Kind::Layout,
    }
}

#[tactic(auto, unfolding(crate::specs::First::with_line))]
fn with_line<'a>(place: &mut Place<'a>, line: &ParsedLine<'a>) -> Ordered<'a>
    ensures moved { Leaves result (first_pass_place place.new) (with_line (first_pass_place place.old) (line_of line.now)) }
    ensures order { IfOk result (λ statement. order_of_line (line_of line.now).statement ≡ Ok (option_map order_of statement)) }
{
    let Some(name) = line.label else {
        return with_statement(place, &line.statement);
    };
    match label_address(place.next) {
        Some(address) => labelled(place, name, address, &line.statement),
        None => Err(Stop::Fault(misplaced(place, name, &line.statement))),
    }
}

// Whether a line has neither a label nor a statement.
fn says_nothing(line: &ParsedLine<'_>) -> bool
    ensures { IsTrue result → line_of line.now ≡ nothing_said }
{
    match line.label {
        Some(_) => false,
        None => match line.statement {
            Some(_) => false,
            None => true,
        },
    }
}

// Reads the line with this number, and keeps what it orders.
fn read_line<'a>(
    place: &mut Place<'a>,
    kept: &mut Vec<Kept<'a>>,
    number: u64,
    parsed: &Option<ParsedLine<'a>>,
) -> Result<(), Stop>
    ensures moved { Leaves result (first_pass_place place.new) (after_said (first_pass_place place.old) (option_map line_of parsed.now)) }
    ensures kept { OnOk result (kept_orders kept.new.items ≡ kept_orders kept.old.items ++ kept_here number (unwrap_or place.old.next 0) (order_said (option_map line_of parsed.now))) }
{
    let Some(line) = parsed else {
        return Err(Stop::Fault(Kind::Text));
    };
    if says_nothing(line) {
        return Ok(());
    }
    let here = place.next.unwrap_or(0);
    match with_line(place, line) {
        Err(stop) => Err(stop),
        Ok(None) => Ok(()),
        Ok(Some(statement)) => {
            let more = Kept {
                line: number,
                here,
                statement,
            };
            match keep(kept, more) {
                Ok(()) => Ok(()),
                Err(_) => Err(Stop::Memory),
            }
        }
    }
}

fn keep<'a>(kept: &mut Vec<Kept<'a>>, more: Kept<'a>) -> Result<(), AllocError>
    ensures { OnOk result (kept_orders kept.new.items ≡ kept_orders kept.old.items ++ kept_order more.entry ∷ []) }
{
    match kept.push(more) {
        Ok(()) => Ok(()),
        Err(_) => Err(AllocError),
    }
}

/// The place after all lines, and what they order.
pub fn first_pass<'a>(alloc: Global, text: &'a [u8]) -> Result<Reading<'a>, AsmFault>
    ensures place { GivesAt (λ reading. first_pass_place reading.place) result (first_lines start 1 (source_lines text.now)) }
    ensures kept { IfOk result (λ reading. kept_orders reading.kept.items ≡ kept_from start 1 (source_lines text.now)) }
    ensures after { IfOk result (λ reading. reading.after ≡ length (source_lines text.now) + 1) }
{
    let mut place = start(alloc);
    let mut kept = Vec::new(alloc);
    let mut rest = text;
    let mut number = 1u64;
    'lines: loop {
        if let Some(after) = after_empty_line(rest) {
            rest = after;
            number += 1;
            continue;
        }
        let Some((parsed, after)) = next_line(rest) else {
            return Ok(Reading {
                place,
                kept,
                after: number,
            });
        };
        match read_line(&mut place, &mut kept, number, &parsed) {
            Ok(()) => {}
            Err(stop) => return Err(fault_at(number, stop)),
        }
        rest = after;
        number += 1;
    }
}
