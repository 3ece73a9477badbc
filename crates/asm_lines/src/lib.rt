//! The lines of an assembler text, the parts of a line, and what a single operand says.
//!
//! `next_line` takes a line off a text (`after_empty_line` one that is empty) and parts it into its label, its first word and the text of its operands, and
//! `parts_in` or `next_part` part that text at its commas. What one operand says is read by
//! `register_in`, `number_in`, `indexed_in`, `label_in` and `value_in`, whose faults have their kinds.
#![tactic(auto)]

mod cuts;
mod kinds;
mod lines;
mod numbers;
mod operands;

pub use cuts::{ParsedLine, RawStatement};
pub use kinds::{Kind, both, first_kind};
pub use lines::{after_empty_line, next_line};
pub use operands::{
    Parts, Value, indexed_in, label_in, next_part, number_in, parts_in, register_in, value_in,
};
