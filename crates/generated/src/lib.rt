//! Devices and schedules that are drawn from a number: eight applications that count, a challenge of each discipline, and
//! 4,000 runs of turns. The same number always gives the same device and the same schedule.
//!
//! ```rust
//! use generated::{Generated, generate};
//! use sched::run_schedule;
//!
//! let Generated { device, schedule } = generate(alloc, 1)?;
//! let outcome = run_schedule(device, schedule.as_slice());
//! println!(rt; "{} entries", outcome.chronicle.length())?;
//! ```
#![tactic(auto)]

mod applications;
mod asking;
mod devices;
mod draws;
mod generating;
mod memories;
mod schedules;

pub use generating::{GENERATED_KEY, Generated, generate};

#[cfg(test)]
mod tests;
