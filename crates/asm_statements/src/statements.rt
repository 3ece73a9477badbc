// What a statement orders.

use crate::forms::Cell;
use rv_decode::{BranchOp, Instr};

/// What a statement orders. Labels are names whose addresses are filled in later.
#[derive(Clone, Copy, Debug)]
pub enum Statement<'a> {
    /// An instruction with no label.
    Plain(Instr),
    /// `jal` to a label.
    JumpTo {
        rd: u32,
        label: &'a [u8],
    },
    /// A branch to a label.
    BranchTo {
        op: BranchOp,
        rs1: u32,
        rs2: u32,
        label: &'a [u8],
    },
    /// A value into a register by `lui` and `addi`.
    LoadWide {
        rd: u32,
        value: u32,
    },
    /// A label's address into a register by `lui` and `addi`.
    LoadAddress {
        rd: u32,
        label: &'a [u8],
    },
    /// The operands of `.word` or `.byte`, which have no fault but for labels.
    Cells(Cell, &'a [u8]),
    /// So many zeros.
    Zeros(u32),
    /// A new segment at this address.
    Begin(u32),
    /// The entry is a label's address.
    Entry(&'a [u8]),
}
