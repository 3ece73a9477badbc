//! What a command is to do, as a plan by steps, and what it has to write before anything is written.
//!
//! A command reads all its files, and only then writes. Its definition is a step ([`specs/Steps.antt`]): what may come
//! of reading, by the names that are asked for, and what follows from it. Its code gives an [`Output`], or a [`Stop`]
//! that says why there is none, and the clause `Reads view step result before after` says that this is what comes of
//! the plan, and that files were only read.
#![tactic(auto)]

mod lines;
mod output;
mod parts;
mod reading;
mod writing;

pub use lines::bad_line;
pub use output::{Ending, Output, Planned, Stop};
pub use parts::{FileParts, NoParts, Parts};
pub use reading::{INPUT_LIMIT, read_file, read_input};

#[cfg(test)]
mod tests;
