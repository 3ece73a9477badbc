//! Traces: the text of a history.
//!
//! `parts` and `part` write the text of a chronicle, part by part. `check` says whether it is a legal history, or names
//! the first entry that breaks a rule. `read` reads a text whole, or names its first line that leaves the grammar;
//! `first_entry` reads the line of an entry from the front of a text. An `Index` has memory at any place of a chronicle, and
//! `Index::confirm` says whether a report is on a pass of its history.
#![tactic(auto)]

mod checking;
mod confirm;
mod head_reading;
mod image_reading;
mod index;
mod laws;
mod lines;
mod reading;
mod text_reading;
mod writing;

pub use checking::{CheckFault, check};
pub use chronicle::{Act, Chronicle, Entry, World};
pub use confirm::{Confirmed, confirmed_is_exact};
pub use index::Index;
pub use laws::{
    entries_are_read_again, legal_entries_are_printable, one_trace, parts_are_the_text,
};
pub use reading::first_entry;
pub use text_reading::{TraceFault, one_line_leaves, read};
pub use writing::{are_printable, part, parts};

#[cfg(test)]
mod index_tests;
#[cfg(test)]
mod tests;
