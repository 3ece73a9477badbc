// The bytes of a statement.

ghost use Rattle.std.specs.Prelude.{◌≡◌, ℕ, ℤ, pos, ◌-ℤ◌, ◌≤◌, ◌^◌, ◌∷◌, [], replicate, Ok, MatchOption};
ghost use Rattle.std.specs.Result.{result_map_both};
ghost use Rattle.rv_decode.specs.declared.instruction.Instr.{Instr};
ghost use Rattle.asm_lines.specs.Operands.{operand_parts, said};
ghost use Rattle.asm_statements.specs.Orders.{order_of};
ghost use Rattle.asm_statements.specs.Orders as orders;
ghost use Rattle.rv_asm.specs.Gives.{Puts};
ghost use Rattle.rv_asm.specs.Labels.{addresses_in};
ghost use Rattle.rv_asm.specs.Coded.{address_of, resolved, instr_bytes, pair_bytes, cell_bytes, cells_bytes, bytes_of};
ghost use Rattle.rv_asm.specs.Coded as coded;

use crate::faults::Stop;
use crate::labels::Labels;
use asm_lines::{Kind, Value, next_part, value_in};
use asm_statements::{Cell, Statement, branch_word, byte_bits, byte_in, jal_word, word_bits};
use rv_decode::{BranchOp, ImmOp, Instr, encode};

fn address_of(labels: &Labels<'_>, name: &[u8]) -> Result<u32, Kind>
    ensures { result ≡ address_of (addresses_in labels.now) name.now }
{
    labels.address_of(name).ok_or(Kind::UnknownLabel)
}

// How far an address is from an instruction that stands below 2^40.
fn offset_to(address: u32, here: u64) -> Option<i64>
    ensures { MatchOption result (2 ^ 40 ≤ here) (λ offset. offset ≡ pos address -ℤ pos here) }
{
    if here >= 0x100_0000_0000 {
        return None;
    }
    Some(i64::from(address) - here as i64)
}

#[tactic(auto, unfolding(crate::specs::Coded::resolved))]
fn jump_to<'a>(labels: &Labels<'_>, here: u64, rd: u32, label: &[u8]) -> Result<Statement<'a>, Kind>
    ensures { result_map_both order_of (λ kind. kind) result ≡ resolved (addresses_in labels.now) here (orders.JumpTo rd label.now) }
{
    match address_of(labels, label) {
        Ok(address) => match offset_to(address, here) {
            Some(offset) => jal_word(rd, offset),
            None => Err(Kind::Range),
        },
        Err(kind) => Err(kind),
    }
}

#[tactic(auto, unfolding(crate::specs::Coded::resolved))]
fn branch_to<'a>(
    labels: &Labels<'_>,
    here: u64,
    op: BranchOp,
    rs1: u32,
    rs2: u32,
    label: &[u8],
) -> Result<Statement<'a>, Kind>
    ensures { result_map_both order_of (λ kind. kind) result ≡ resolved (addresses_in labels.now) here (orders.BranchTo op rs1 rs2 label.now) }
{
    match address_of(labels, label) {
        Ok(address) => match offset_to(address, here) {
            Some(offset) => branch_word(op, rs1, rs2, offset),
            None => Err(Kind::Range),
        },
        Err(kind) => Err(kind),
    }
}

/// The statement at an address with its label's address filled in.
#[tactic(auto, unfolding(crate::specs::Coded::resolved))]
pub fn resolved<'a>(
    labels: &Labels<'_>,
    here: u64,
    statement: Statement<'a>,
) -> Result<Statement<'a>, Kind>
    ensures { result_map_both order_of (λ kind. kind) result ≡ resolved (addresses_in labels.now) here (order_of statement.entry) }
{
    match statement {
        Statement::JumpTo { rd, label } => jump_to(labels, here, rd, label),
        Statement::BranchTo {
            op,
            rs1,
            rs2,
            label,
        } => branch_to(labels, here, op, rs1, rs2, label),
        Statement::LoadAddress { rd, label } => match address_of(labels, label) {
            Ok(value) => Ok(Statement::LoadWide { rd, value }),
            Err(kind) => Err(kind),
        },
        Statement::Plain(_) => Ok(statement),
        Statement::LoadWide { .. } => Ok(statement),
        Statement::Cells(..) => Ok(statement),
        Statement::Zeros(_) => Ok(statement),
        Statement::Begin(_) => Ok(statement),
        Statement::Entry(_) => Ok(statement),
    }
}

fn put(bytes: &mut Vec<u8>, more: &[u8]) -> Result<(), Stop>
    ensures { Puts result bytes.old.items bytes.new.items (Ok more.now) }
{
    match bytes.extend_from_slice(more) {
        Ok(()) => Ok(()),
        Err(_) => Err(Stop::Memory),
    }
}

fn put_instr(bytes: &mut Vec<u8>, instr: Instr) -> Result<(), Stop>
    ensures { Puts result bytes.old.items bytes.new.items (instr_bytes instr) }
{
    match encode(&instr) {
        Some(word) => put(bytes, &word.to_le_bytes()),
        None => Err(Stop::Fault(Kind::Range)),
    }
}

// The upper 20 bits that `lui` takes, and the rest that `addi` adds.
fn pair_of(value: u32) -> (u32, i32)
    ensures upper { result.0 ≡ coded.upper value }
    ensures lower { result.1 ≡ coded.lower value }
{
    let high = (u64::from(value) + 0x800) / 4096;
    let rest = i64::from(value) - (high * 4096) as i64;
    ((high % 0x10_0000) as u32, rest as i32)
}

#[tactic(auto, unfolding(crate::specs::Coded::pair_bytes))]
fn put_pair(bytes: &mut Vec<u8>, rd: u32, value: u32) -> Result<(), Stop>
    ensures { Puts result bytes.old.items bytes.new.items (pair_bytes rd value) }
{
    let (upper, lower) = pair_of(value);
    put_instr(bytes, Instr::Lui { rd, imm: upper })?;
    put_instr(
        bytes,
        Instr::Imm {
            op: ImmOp::Addi,
            rd,
            rs1: rd,
            imm: lower,
        },
    )
}

fn word_value(labels: &Labels<'_>, value: Value<'_>) -> Result<u32, Kind>
    ensures { result ≡ coded.word_value (addresses_in labels.now) (said value.entry) }
{
    match value {
        Value::Number(number) => Ok(word_bits(number)),
        Value::Label(name) => address_of(labels, name),
    }
}

#[tactic(auto, unfolding(crate::specs::Coded::cell_bytes))]
fn put_word(bytes: &mut Vec<u8>, labels: &Labels<'_>, operand: &[u8]) -> Result<(), Stop>
    ensures { Puts result bytes.old.items bytes.new.items (cell_bytes (addresses_in labels.now) Cell.Word operand.now) }
{
    match value_in(operand) {
        Ok(value) => match word_value(labels, value) {
            Ok(word) => put(bytes, &word.to_le_bytes()),
            Err(kind) => Err(Stop::Fault(kind)),
        },
        Err(kind) => Err(Stop::Fault(kind)),
    }
}

#[tactic(auto, unfolding(crate::specs::Coded::cell_bytes))]
fn put_byte(bytes: &mut Vec<u8>, labels: &Labels<'_>, operand: &[u8]) -> Result<(), Stop>
    ensures { Puts result bytes.old.items bytes.new.items (cell_bytes (addresses_in labels.now) Cell.Byte operand.now) }
{
    match byte_in(operand) {
        Ok(number) => put(bytes, &[byte_bits(number)]),
        Err(kind) => Err(Stop::Fault(kind)),
    }
}

fn put_cell(
    bytes: &mut Vec<u8>,
    labels: &Labels<'_>,
    cell: Cell,
    operand: &[u8],
) -> Result<(), Stop>
    ensures { Puts result bytes.old.items bytes.new.items (cell_bytes (addresses_in labels.now) cell operand.now) }
{
    match cell {
        Cell::Word => put_word(bytes, labels, operand),
        Cell::Byte => put_byte(bytes, labels, operand),
    }
}

#[tactic(auto, using(crate::proofs::Cells::cells_more, crate::proofs::Cells::cells_last, crate::proofs::Cells::cells_stop_later))]
fn put_cells(bytes: &mut Vec<u8>, labels: &Labels<'_>, cell: Cell, text: &[u8]) -> Result<(), Stop>
    ensures { Puts result bytes.old.items bytes.new.items (cells_bytes (addresses_in labels.now) cell (operand_parts text.now)) }
{
    let mut rest = text;
    loop {
        let (operand, more) = next_part(rest);
        put_cell(bytes, labels, cell, operand)?;
        match more {
            Some(after) => rest = after,
            None => return Ok(()),
        }
    }
}

fn put_zeros(bytes: &mut Vec<u8>, count: u32) -> Result<(), Stop>
    ensures { Puts result bytes.old.items bytes.new.items (Ok (replicate count 0)) }
{
    for _ in 0..count {
        let Ok(()) = bytes.push(0) else {
            return Err(Stop::Memory);
        };
    }
    Ok(())
}

/// Appends the bytes of a statement whose label's address is filled in.
pub fn put_statement(
    bytes: &mut Vec<u8>,
    labels: &Labels<'_>,
    statement: Statement<'_>,
) -> Result<(), Stop>
    ensures { Puts result bytes.old.items bytes.new.items (bytes_of (addresses_in labels.now) (order_of statement.entry)) }
{
    match statement {
        Statement::Plain(instr) => put_instr(bytes, instr),
        Statement::LoadWide { rd, value } => put_pair(bytes, rd, value),
        Statement::Cells(cell, text) => put_cells(bytes, labels, cell, text),
        Statement::Zeros(count) => put_zeros(bytes, count),
        Statement::JumpTo { .. } => put(bytes, &[]),
        Statement::BranchTo { .. } => put(bytes, &[]),
        Statement::LoadAddress { .. } => put(bytes, &[]),
        Statement::Begin(_) => put(bytes, &[]),
        Statement::Entry(_) => put(bytes, &[]),
    }
}
