//! The commands on recorded histories. `check` says whether the history of a trace file is legal, and which reports are on
//! its passes. `gen` runs the device that is drawn from a number, and says of each of its reports whether it is one on a
//! pass of the history. Nothing is written here: each prepares an output.
//!
//! ```rust
//! use trace_commands::{prepare_check, prepare_gen};
//!
//! let checked = prepare_check(alloc, &mut files, "trace.txt", "key.bin", &[])?;
//! let run = prepare_gen(alloc, 1)?;
//! ```
#![tactic(auto)]

mod checks;
mod ends;
mod generating;
mod laws;
mod reading;
mod report_lines;

pub use checks::prepare_check;
pub use ends::ReportEnd;
pub use generating::prepare_gen;
pub use laws::uncut_runs_are_confirmed;

#[cfg(test)]
mod tests;
