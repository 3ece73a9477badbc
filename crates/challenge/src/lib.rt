//! Challenges: what a verifier asks a measurer for.
//!
//! ```rust
//! use challenge::{Challenge, Discipline};
//!
//! let challenge = Challenge {
//!     discipline: Discipline::IncExt,
//!     lead: 2,
//!     hold: 50,
//!     counter: 7,
//!     nonce: [9; 16],
//! };
//! let accepted = challenge.is_valid();
//! ```
#![tactic(auto)]

mod bytes;
mod faults;
mod numbers;
#[cfg(test)]
mod tests;

ghost use Rattle.std.specs.Prelude.{◌≡◌};
ghost use Rattle.challenge.specs.Bytes.{admission};

pub use bytes::{CHALLENGE_BYTES, HEAD_BYTES, one_spelling, read, write};
pub use faults::{ChallengeFault, Stale};
pub use history::Discipline;
pub use numbers::{discipline_with, u32_at, u64_at};

/// The most ticks that a challenge may ask for, before Start and again after End.
pub const MOST_TICKS: u32 = 4096;

/// What a verifier asks for: one measurement. The nonce and the counter tell its report from all others.
#[derive(Clone, Copy, Debug, PartialEq, Eq)]
pub struct Challenge {
    /// How the measurement locks.
    pub discipline: Discipline,
    /// How many Ticks come before Start, at most 4,096.
    pub lead: u32,
    /// How many Ticks come between End and Release, at most 4,096, and 0 unless the discipline is extended.
    pub hold: u32,
    /// The number of the challenge. A verifier never uses one twice.
    pub counter: u64,
    /// Bytes that nobody can foresee.
    pub nonce: [u8; 16],
}

impl Challenge {
    ghost use Rattle.std.specs.Prelude.{◌↔◌, IsTrue};
    ghost use Rattle.challenge.specs.Challenges.{IsChallenge};

    /// The counts of ticks are in their limits, and none are to be held for in a discipline that isn't extended.
    pub fn is_valid(&self) -> bool
        ensures { IsTrue result ↔ IsChallenge self.now }
    {
        self.lead <= MOST_TICKS
            && self.hold <= MOST_TICKS
            && (self.hold == 0 || self.discipline.extended())
    }
}

/// The counter that is the greatest served once this challenge is served too. Stale exactly where the challenge's
/// counter isn't greater than `last`, the greatest so far.
#[tactic(auto, unfolding(crate::specs::Bytes::admission))]
pub fn admit(last: u64, challenge: &Challenge) -> Result<u64, Stale>
    ensures { result ≡ admission last challenge.now }
{
    if challenge.counter > last {
        Ok(challenge.counter)
    } else {
        Err(Stale { last })
    }
}
