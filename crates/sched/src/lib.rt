//! Devices under a schedule: which actor takes how many turns, and what becomes of them.
//!
//! ```rust
//! use sched::{read_schedule, run_schedule};
//!
//! let schedule = read_schedule(alloc, b"0 5\n1 100\n", 1)?;
//! let outcome = run_schedule(device, schedule.as_slice());
//! println!(rt; "{} entries", outcome.chronicle.length())?;
//! ```
#![tactic(auto)]

mod laws;
mod running;

pub use laws::one_scheduled_run;
pub use running::run_schedule;
pub use schedule_text::{Run, Schedule, ScheduleFault, read_schedule};

#[cfg(test)]
mod tests;
