//! Schedules: in which order the actors of a device take their turns.
//!
//! A schedule is a text of lines `ACTOR TURNS`: decimal numbers without leading zeros, one space between
//! them, each line ended by LF. ACTOR is 0, the measurer, or the number of an application; TURNS is 1 to
//! 1,000,000. There are at most 10,000 lines and 16,000,000 turns in all. An empty text is a schedule.
//!
//! ```rust
//! use schedule_text::read_schedule;
//!
//! let runs = read_schedule(alloc, b"0 5\n1 100\n", 2)?;
//! for run in runs.as_slice() {
//!     println!(rt; "{} turns of {}", run.turns, run.actor)?;
//! }
//! ```
#![tactic(auto)]

mod reading;
mod worked;

pub use reading::{Run, Schedule, ScheduleFault, read_schedule};
pub use worked::schedules_of_two_applications;

#[cfg(test)]
mod tests;
