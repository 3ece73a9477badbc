//! What a device's memory begins with, what is recorded of it, and what may be asked of it: the world, the
//! chronicle, and the ports of applications and of the measurer. And what holds of each history that plain
//! memory and the order of a measurement allow.
//!
//! Each law is a public function that does nothing and whose contract is the law, over the definitions of the
//! crate `history` and of the ports' answers.
#![tactic(auto)]

mod answers;
mod laws;
mod ports;
mod worlds;

pub use answers::{Read, Step, Stored};
pub use block_memory::Geometry;
pub use history::{Act, Discipline, Entry, Range, Width};
pub use laws::{
    answers_add_own_entries, answers_move_the_plan, broken_is_exact, copied_is_memory, locks_slide,
    memory_is_bytes, memory_later, one_entry_more, order_by_plan, others_keep_the_order,
    others_keep_the_pass, own_entries, places_of_a_history, places_of_a_pass, prefixes_are_legal,
};
pub use lock_plan::Ranges;
pub use ports::{BlockPort, Chronicled, MemPort, Viewed};
pub use worlds::{Chronicle, Shape, World};

#[cfg(test)]
mod tests;
