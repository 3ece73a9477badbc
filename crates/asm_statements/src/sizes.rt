// How many bytes a statement makes.

ghost use Rattle.std.specs.Prelude.{◌≡◌, ◌<◌, ◌≤◌, ◌*◌, length, MatchOption, IfSome};
ghost use Rattle.asm_lines.specs.Operands.{operand_parts};
ghost use Rattle.asm_statements.specs.Orders.{order_of};
ghost use Rattle.asm_statements.specs.Sizes.{size_of, is_instruction, cell_size};

use crate::forms::Cell;
use crate::statements::Statement;

/// The most bytes that a text may make.
pub const MOST_BYTES: u32 = 1_048_576;

// How many operands a text has.
#[tactic(auto, using(crate::proofs::Commas::parts_counted))]
fn part_count(text: &[u8]) -> usize
    ensures { result ≡ length (operand_parts text.now) }
{
    let commas = text.iter().filter(|byte| **byte == b',').count();
    commas + 1
}

fn words_size(text: &[u8]) -> Option<u32>
    ensures value { MatchOption result (1048576 < cell_size Cell.Word * length (operand_parts text.now)) (λ size. size ≡ cell_size Cell.Word * length (operand_parts text.now)) }
    ensures within { IfSome result (λ size. size ≤ 1048576) }
{
    let count = part_count(text);
    if count > 262_144 {
        return None;
    }
    Some(4 * count as u32)
}

fn bytes_size(text: &[u8]) -> Option<u32>
    ensures value { MatchOption result (1048576 < cell_size Cell.Byte * length (operand_parts text.now)) (λ size. size ≡ cell_size Cell.Byte * length (operand_parts text.now)) }
    ensures within { IfSome result (λ size. size ≤ 1048576) }
{
    let count = part_count(text);
    if count > 1_048_576 {
        return None;
    }
    Some(count as u32)
}

/// How many bytes the statement makes; `None` where they are more than `MOST_BYTES`.
pub fn size_of(statement: &Statement<'_>) -> Option<u32>
    ensures value { MatchOption result (1048576 < size_of (order_of statement.now)) (λ size. size ≡ size_of (order_of statement.now)) }
    ensures within { IfSome result (λ size. size ≤ 1048576) }
{
    match *statement {
        Statement::Plain(_) | Statement::JumpTo { .. } | Statement::BranchTo { .. } => Some(4),
        Statement::LoadWide { .. } | Statement::LoadAddress { .. } => Some(8),
        Statement::Cells(Cell::Word, text) => words_size(text),
        Statement::Cells(Cell::Byte, text) => bytes_size(text),
        Statement::Zeros(count) => zeros_size(count),
        Statement::Begin(_) | Statement::Entry(_) => Some(0),
    }
}

fn zeros_size(count: u32) -> Option<u32>
    ensures value { MatchOption result (1048576 < count) (λ size. size ≡ count) }
    ensures within { IfSome result (λ size. size ≤ 1048576) }
{
    if count > MOST_BYTES {
        return None;
    }
    Some(count)
}

/// Whether the statement makes instructions, which stand at addresses divisible by 4.
pub fn is_instruction(statement: &Statement<'_>) -> bool
    ensures { result ≡ is_instruction (order_of statement.now) }
{
    match *statement {
        Statement::Plain(_)
        | Statement::JumpTo { .. }
        | Statement::BranchTo { .. }
        | Statement::LoadWide { .. }
        | Statement::LoadAddress { .. } => true,
        Statement::Cells(..) | Statement::Zeros(_) | Statement::Begin(_) | Statement::Entry(_) =>
            false,
    }
}
