//! The commands `challenge` and `verify`: what their words ask for, what they read, and what they write.
//!
//! A challenge is what a verifier asks a device for; it goes out in a file, under a key. What comes back is a report,
//! and in an extended discipline a note on the release of the locks: `verify` judges both against the verifier's own
//! files. Both commands read all they need before anything is written, so each gives an `Output` or says why there is
//! none.
//!
//! ```rust
//! use message_commands::{challenge_of, prepare_challenge, prepare_verify};
//!
//! let asked = challenge_of("dec", "100", "0", "7", nonce).ok_or("no challenge")?;
//! let output = prepare_challenge(alloc, &mut files, "key.bin", &asked, "c.bin");
//! let judged = prepare_verify(alloc, &mut files, "verifier.toml", "r1.bin", None);
//! ```
#![tactic(auto)]

mod asking;
mod judging;
mod lines;
mod reading;
mod verifying;
mod words;
mod worked;

pub use asking::prepare_challenge;
pub use judging::accepts;
pub use verifying::prepare_verify;
pub use words::challenge_of;
pub use worked::{challenges_of_words, lines_of_verdicts};

#[cfg(test)]
mod tests;
