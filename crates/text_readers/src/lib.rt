//! Lines, words and numbers of the texts that people write: definitions, and the readers that meet them.
//!
//! `next_line`, `words_in`, `cut_at` and `first_place` take a text apart. `decimal`, `plain_decimal` and `hex_number` read
//! numbers, and `put_number`, `word_digits` and `byte_digits` write them.
#![tactic(auto)]

mod digits;
mod lines;
mod numbers;
#[cfg(test)]
mod tests;

pub use digits::{byte_digits, put_number, word_digits};
pub use lines::{Words, cut_at, first_place, next_line, words_in};
pub use numbers::{decimal, has_leading_zero, hex_number, plain_decimal};
