//! The statements of an assembler text: what a statement orders, by its first word and its operands.
//!
//! `statement_in` reads a cut statement, and answers the kind of its first fault where it has one. Only the addresses
//! of labels are left open, which are known once all lines have been read.
#![tactic(auto)]

mod cells;
mod fields;
mod forms;
mod laws;
mod readers;
mod sizes;
mod statements;

pub use cells::byte_in;
pub use fields::{branch_word, byte_bits, jal_word, word_bits};
pub use forms::{Binary, Cell, Form, Ternary, Unary};
pub use laws::mnemonics_are_read;
pub use readers::statement_in;
pub use sizes::{MOST_BYTES, is_instruction, size_of};
pub use statements::Statement;
