//! What a core is asked, and what it answers.

use chronicle::{Discipline, Width};

/// An event that an actor asks for. A Copy has a call of its own, for its buffer.
#[derive(Clone, Copy, Debug, PartialEq, Eq)]
pub enum Want {
    /// The instruction word at the address.
    Fetch {
        addr: u32,
    },
    /// `width` bytes from the address on.
    Load {
        addr: u32,
        width: Width,
    },
    /// Put the lowest `width` bytes of the value at the address.
    Store {
        addr: u32,
        width: Width,
        value: u32,
    },
    /// Begin a pass.
    Start {
        discipline: Discipline,
        counter: u64,
    },
    /// End the pass.
    End,
    /// Let time go by.
    Tick,
    /// Give up what an extended discipline still locks after End.
    Release,
}

/// What came of it. A place is a number of entries.
#[derive(Clone, Copy, Debug, PartialEq, Eq)]
pub enum Answer {
    /// The entry was made, at this place. The value is what was read, or 0 where nothing was.
    Done { value: u32, place: u64 },
    /// The block is locked after this many entries: nothing has changed.
    Again { place: u64 },
    /// The history has as many entries as it may have: nothing has changed.
    Full { place: u64 },
}
