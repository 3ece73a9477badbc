//! A lock that remembers: whoever takes a turn finds the value that the last turn left, knows that its history
//! begins with all that it has seen before, and adds at most one entry of its own.
//!
//! ```rust
//! use turn_cell::TurnCell;
//!
//! let Ok((cell, mut pass)) = TurnCell::new(alloc, value, 9) else { .. }; // for the actors 0 to 8
//! let others = cell.split(&mut pass, 1); // `pass` is actor 0's now, `others` that of 1 to 8
//! let mut turn = cell.enter(rt, pass); // waits
//! turn.value().tick(); // at most one entry, by an actor of the pass
//! let pass = cell.leave(turn);
//! let whole = cell.join(pass, others);
//! let value = cell.close(whole);
//! ```
#![tactic(auto)]

mod cells;
mod passes;
mod plays;
mod turns;
mod views;

pub use cells::{Refused, TurnCell};
pub use passes::Pass;
pub use turns::Turn;

#[cfg(test)]
mod tests;
