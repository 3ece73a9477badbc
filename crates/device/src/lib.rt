//! A device: memory, applications and a measurer, under a stated order of turns.
#![tactic(auto)]

mod device;
mod finishing;
mod laws;
mod making;
mod outcome_laws;
mod outcomes;
mod passes;
mod ranges;
mod serving;
mod shared;
mod slots;
mod tallies;
mod threads;

pub use app_thread::{AppRun, Ending, RunEnd};
pub use device::Device;
pub use device_config::{AppPlan, ChallengePlan, DeviceFault, DevicePlan, read_device};
pub use laws::{answers_tell, entries_are_own, no_pass_locks_nothing, nobody_waits_at_last};
pub use outcome_laws::{counters_start_once, one_outcome, one_report, passes_end_once};
pub use outcomes::{AppEnd, Outcome, PassEnd};
pub use passes::Passes;
pub use shared::SharedDevice;
pub use slots::Slot;
pub use tallies::{Stepped, Tally};

#[cfg(test)]
mod tests;
