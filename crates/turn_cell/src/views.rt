//! What a seat at the cell's table knows. No value of these types is made: they are for the proofs.

use chronicle::{Entry, World};
use std::collections::LinkedList;
use std::snapshot::Snapshot;

/// The actors from `low` up to below `high`, and the entries that whoever speaks for them has seen.
pub struct RangeView {
    pub seen: LinkedList<Entry>,
    pub low: u32,
    pub high: u32,
}

/// How far a seat is in its turn.
pub enum TurnStage {
    /// It isn't in a turn.
    Outside,
    /// It has the held word.
    Entered,
    /// It has loaded the count since then, and so it has the value.
    Loaded,
}

/// What a seat knows: its own part, for a moment also that of a seat that was joined to it, and the cell's
/// number of actors and world.
pub struct SeatView {
    pub mine: RangeView,
    pub other: RangeView,
    pub actors: u32,
    pub world: World,
    pub stage: TurnStage,
}

/// What the table is told when it is made: the value and the number of actors.
pub struct Opening<T> {
    pub value: Snapshot<T>,
    pub actors: u32,
}

impl<T> Drop for Opening<T> {
    fn drop(self) {
        let Opening {
            value: _,
            actors: _,
        } = self;
    }
}
