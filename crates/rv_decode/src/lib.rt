//! The words of RV32IM and its instructions, both ways.
//!
//! `decode` reads a 32-bit word as an instruction, and `encode` writes an instruction as its word. Both follow
//! the listing of the RISC-V Unprivileged ISA manual, its tables for RV32I and for the M extension:
//! `specs/Table.antt` has its rows, `specs/Fields.antt` the fields of a word, and `specs/Words.antt` the word of each
//! instruction and the instruction of each word.
#![tactic(auto)]

mod decoding;
mod encoding;
mod fields;
mod instruction;
mod laws;
mod names;
#[cfg(test)]
mod tests;

pub use decoding::decode;
pub use encoding::encode;
pub use instruction::{BranchOp, ImmOp, Instr, LoadOp, MulOp, RegOp, ShiftOp, StoreOp};
pub use laws::{rows_are_apart, words_and_instructions, words_are_apart};
