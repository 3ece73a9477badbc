//! How a run ends.

use rv_core::Ending;

/// How the run of an application ended.
#[derive(Clone, Copy, Debug, PartialEq, Eq)]
pub enum RunEnd {
    /// The application has ended so.
    Ended(Ending),
    /// The history is full, with this many entries, and the application still asks an access.
    Full { place: u64 },
}

/// How a whole run went.
#[derive(Clone, Copy, Debug, PartialEq, Eq)]
pub struct AppRun {
    /// How it ended.
    pub end: RunEnd,
    /// How often a store was answered that its block is locked; it stays at the greatest number.
    pub waits: u64,
    /// After how many entries the last of them was so answered; None where none was.
    pub waited: Option<u64>,
}
