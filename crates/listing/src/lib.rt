//! The listing of an executable: its words with their instructions, and the bytes that no word has.
//!
//! ```rust
//! use listing::Listing;
//!
//! let mut listing = Listing::new(file)?;
//! let mut piece = [0u8; 4096];
//! let count = listing.next(&mut piece);
//! ```
//!
//! A word at an address divisible by 4 has a line `ADDRESS WORD TEXT`, each other byte a line
//! `ADDRESS BB .byte 0xBB`. `specs/Listing.antt` says which lines a file has, and `specs/Left.antt` what of them is still
//! to be told.
#![tactic(auto)]

mod cursor;
mod laws;
mod lines;
mod telling;
#[cfg(test)]
mod tests;
mod worked;

pub use laws::words_and_single_bytes;
pub use telling::Listing;
pub use worked::{four_words_are_listed, odd_bytes_are_listed};
