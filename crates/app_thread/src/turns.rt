//! How a turn goes.

use rv_core::Ending;

/// How one turn of an application went.
#[derive(Clone, Copy, Debug, PartialEq, Eq)]
pub enum Turn {
    /// There was none: the application has ended so. Nobody was asked.
    Over(Ending),
    /// It has made its access. The entry's kind has this number, as a gate is told it (`att_base::MADE_FETCH`,
    /// `MADE_LOAD` or `MADE_STORE`), and the entry stands at this place, counted from 1.
    Made { kind: u32, place: u64 },
    /// Its store was answered that the block is locked, after this many entries; it asks the same next.
    Again { place: u64 },
    /// The history is full, with this many entries; it asks the same next.
    Full { place: u64 },
}
