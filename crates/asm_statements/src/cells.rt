// The operands of `.word` and `.byte`, of which there may be any number.

ghost use Rattle.std.specs.Prelude.{◌≡◌, ◌*◌, ◌+◌, ◌≤◌, ◌<◌, length};
ghost use Rattle.std.specs.Result.{result_map_both};
ghost use Rattle.asm_lines.specs.Operands.{operand_parts};
ghost use Rattle.asm_statements.specs.Orders.{byte_operand, cell_fault, sooner, first_cell_fault, with_cells, order_of};
ghost use Rattle.asm_statements.specs.Sizes.{cell_size};

use crate::forms::Cell;
use crate::statements::Statement;
use asm_lines::{Kind, first_kind, next_part, number_in, value_in};

/// What an operand of `.byte` says: -128 to 255.
#[tactic(auto, unfolding(crate::specs::Orders::byte_operand))]
pub fn byte_in(operand: &[u8]) -> Result<i64, Kind>
    ensures { result ≡ byte_operand operand.now }
{
    match number_in(operand) {
        Ok(number) => {
            if number < -128 || number > 255 {
                return Err(Kind::Range);
            }
            Ok(number)
        }
        Err(kind) => Err(kind),
    }
}

fn word_fault(operand: &[u8]) -> Option<Kind>
    ensures { result ≡ cell_fault Cell.Word operand.now }
{
    match value_in(operand) {
        Ok(_) => None,
        Err(kind) => Some(kind),
    }
}

fn cell_fault(cell: Cell, operand: &[u8]) -> Option<Kind>
    ensures { result ≡ cell_fault cell operand.now }
{
    match cell {
        Cell::Word => word_fault(operand),
        Cell::Byte => match byte_in(operand) {
            Ok(_) => None,
            Err(kind) => Some(kind),
        },
    }
}

fn sooner(a: Option<Kind>, b: Option<Kind>) -> Option<Kind>
    ensures { result ≡ sooner a b }
{
    match a {
        None => b,
        Some(j) => match b {
            None => Some(j),
            Some(k) => Some(first_kind(j, k)),
        },
    }
}

#[tactic(auto, using(crate::proofs::Faults::first_fault_more, crate::proofs::Faults::first_fault_last))]
fn first_cell_fault(cell: Cell, text: &[u8]) -> Option<Kind>
    ensures { result ≡ first_cell_fault cell (operand_parts text.now) }
{
    let mut fault = None;
    let mut rest = text;
    loop {
        let (operand, more) = next_part(rest);
        fault = sooner(fault, cell_fault(cell, operand));
        match more {
            Some(after) => rest = after,
            None => return fault,
        }
    }
}

/// The statement `.word` or `.byte` with these operands.
#[tactic(auto, unfolding(crate::specs::Orders::with_cells))]
pub fn with_cells(cell: Cell, text: &[u8]) -> Result<Statement<'_>, Kind>
    ensures { result_map_both order_of (λ kind. kind) result ≡ with_cells cell text.now }
{
    if text.is_empty() {
        return Err(Kind::Operands);
    }
    match first_cell_fault(cell, text) {
        None => Ok(Statement::Cells(cell, text)),
        Some(kind) => Err(kind),
    }
}
