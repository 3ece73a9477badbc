//! Scripts: a memory and a list of steps as text, read and run on one thread.
#![tactic(auto)]

#[cfg(test)]
mod end_tests;
mod ends;
mod laws;
mod lines;
mod reading;
mod running;
mod script;
mod steps;
mod tagger;
#[cfg(test)]
mod tests;

pub use ends::{SCRIPT_LIMIT, ScriptEnd, run_script};
pub use laws::{releases_tell, scripts_attest};
pub use reading::{Draft, Refusal, ScriptError, read_script};
pub use running::{Printed, run};
pub use script::Script;
pub use steps::{Step, step_in};
