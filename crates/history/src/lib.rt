//! The history of one device's memory: its entries, and the definitions that every promise of this
//! project rests on. A reader who has to trust the headline reads `specs/` of this crate.
#![tactic(auto)]

mod events;
mod laws;
mod ranges;
mod worked;

pub use events::{Act, Discipline, Entry, Width};
pub use laws::{blocks_in_order, ranges_are_tested};
pub use ranges::Range;
pub use worked::{
    instants_of_one_pass, layouts_are_tested, locks_of_one_pass, locks_of_three_ranges,
    memory_of_small_histories, parts_of_small_histories, rules_of_small_histories, three_ranges,
};
