//! The rules that device files and verifier files share. Both are TOML documents, and the first rule that
//! fails is named by its number.
//!
//! | Rule | Key | What stands there |
//! |---|---|---|
//! | 1 | | the bytes are a TOML document |
//! | 2 | `base` | an integer from 0 to 4294967295 |
//! | 3 | `block` | a power of two from 16 to 65536 |
//! | 4 | `blocks` | an integer from 1 to 4096, with which memory fits: 1 MiB at most, the base divisible by the block, below 2^32 |
//! | 5 | `first` | an integer from 0 to blocks - 1 |
//! | | `ranges` | where it is there, instead: an array of one to eight arrays of two integers from 0 to 4096, the first block and the number of each range; none is empty, each ends below the first block of the next, the last at `blocks` at most |
//! | 6 | `attested` | an integer from 1 to blocks - first; where `ranges` is there, neither `first` nor `attested` is |
//! | 7 | `key` | a file name: a text of 1 to 255 bytes |
//! | 8 | `last` | an integer from 0 to 2^63 - 1 |
//!
//! ```rust
//! use config_rules::{names_at, read_common, read_document};
//!
//! let table = read_document(alloc, bytes)?;
//! let common = read_common(alloc, &table)?;
//! let images = names_at(alloc, &table, "images", 1, 64)?;
//! ```
#![tactic(auto)]

mod common;
mod region;
mod values;

pub use common::{Common, MOST_IMAGES, read_common};
pub use region::{MOST_U32, Region, read_region};
pub use values::{
    integer_between, name_at, names_at, names_in, number_at, read_document, value_at,
};

#[cfg(test)]
mod tests;
