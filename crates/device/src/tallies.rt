//! What a turn has come to, and what an actor's turns have come to.

/// What an actor's turns have come to, beside its entries.
#[derive(Clone, Copy, Debug, PartialEq, Eq)]
pub struct Tally {
    /// It was stopped by a full history.
    pub stopped: bool,
    /// How often it waited for a lock.
    pub waits: u64,
    /// The length of the history when it waited last.
    pub waited: Option<u64>,
}

/// How a turn went.
#[derive(Clone, Copy, Debug, PartialEq, Eq)]
pub enum Stepped {
    /// There was none: the actor's program is over, or it was stopped by a full history before.
    Over,
    /// The actor has made its entry, which stands at this place, counted from 1.
    Made { place: u64 },
    /// The application waits for a lock, in a history of this many entries; its store comes next again.
    Again { place: u64 },
    /// The history is full, with this many entries, and the actor is stopped.
    Full { place: u64 },
}
