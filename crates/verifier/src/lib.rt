//! The verifier's side: what a verifier file says, and the verdicts on the reports and release notes that come
//! from a device. Every byte of a report or a note may be an attacker's.
//!
//! ```rust
//! use verifier::{Verdict, Verifier};
//!
//! let mut verifier = Verifier::new(key, challenge, last, shape);
//! match verifier.judge(report, &images) {
//!     Verdict::Accepted { position } => println!(rt; "accepted {}", images.name(position))?,
//!     _ => println!(rt; "rejected")?,
//! }
//! ```
#![tactic(auto)]

mod files;
mod verdicts;

pub use att_base::DeviceFault;
pub use files::{VerifierPlan, read_verifier};
pub use verdicts::{NoteVerdict, Verdict, Verifier};

#[cfg(test)]
mod tests;
