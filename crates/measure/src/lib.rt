//! The measuring pass: over any port of the measurer, a step at a time, and as a machine that says what comes next.
//!
//! ```rust
//! use measure::{Measured, measure};
//!
//! match measure(&mut port, key, &challenge, &mut buffer, &NoGate) {
//!     Measured::Done { report, note } => send(report, note),
//!     Measured::Full { place, report } => give_up(place, report),
//! }
//! ```
//!
//! The same a step at a time, with steps of others between:
//!
//! ```rust
//! let mut measuring = Measuring::new(&challenge);
//! if !measuring.is_over() {
//!     let step = measuring.turn(&mut port, key, &mut buffer, &NoGate);
//! }
//! ```
#![tactic(auto)]

mod hashing;
mod laws;
mod machine;
mod measured;
mod measuring;
mod passing;
mod standing;
mod stepping;

pub use machine::{PassMachine, PassWant};
pub use measured::Measured;
pub use measuring::measure;
pub use standing::{measured_stays, measuring_stands, programs_stay_in_order};
pub use stepping::Measuring;

#[cfg(test)]
mod busy;
#[cfg(test)]
mod tests;
