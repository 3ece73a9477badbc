//! What the calls of a port answer. A place is the number of an entry, counted from 1, or of entries so far.

/// The answer to a fetch or a load.
#[derive(Clone, Copy, Debug, PartialEq, Eq)]
pub enum Read {
    /// The entry was made, at this place, and this is what memory has.
    Done { value: u32, place: u64 },
    /// The history has as many entries as it may have: no entry was made.
    Full { place: u64 },
}

/// The answer to a store.
#[derive(Clone, Copy, Debug, PartialEq, Eq)]
pub enum Stored {
    /// The entry was made, at this place, and memory has the value.
    Done { place: u64 },
    /// The block is locked after this many entries: no entry was made, and the store may be tried again.
    Again { place: u64 },
    /// The history has as many entries as it may have: no entry was made.
    Full { place: u64 },
}

/// The answer to a step of the measurer.
#[derive(Clone, Copy, Debug, PartialEq, Eq)]
pub enum Step {
    /// The entry was made, at this place.
    Done { place: u64 },
    /// The history has as many entries as it may have: no entry was made.
    Full { place: u64 },
}
