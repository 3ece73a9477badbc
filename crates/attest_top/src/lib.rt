//! The program's commands, from the words of the command line to the lines that are printed.
#![tactic(auto)]

mod command;
mod finish;
mod laws;
mod prepare;
mod scripts;
mod status;
mod top;

pub use command_plans::Ending;
pub use laws::one_plan;
pub use status::Status;
pub use top::{attest, attest_run, attest_still};

#[cfg(test)]
mod check_tests;
#[cfg(test)]
mod gate_tests;
#[cfg(test)]
mod tests;
