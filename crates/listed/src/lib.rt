//! A `Vec` or a `String` as a field of a public type, seen by clauses as a list. Two values with the same
//! elements are then equal in a clause, whatever room and place in storage they have.
//!
//! ```rust
//! use listed::Bytes;
//!
//! let bytes = Bytes::from_vec(file);
//! let first = bytes.as_slice().first();
//! ```
#![tactic(auto)]

mod bytes;
mod items;
mod text;

pub use bytes::Bytes;
pub use items::Items;
pub use text::Text;

#[cfg(test)]
mod tests;
