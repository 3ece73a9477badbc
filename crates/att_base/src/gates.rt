//! Where an actor stands, told to whoever watches: for tests that need two actors to meet, and for progress shown.

/// The number of a Fetch, as `Spot::Made` tells an entry's kind.
pub const MADE_FETCH: u32 = 1;

/// The number of a Load.
pub const MADE_LOAD: u32 = 2;

/// The number of a Store.
pub const MADE_STORE: u32 = 3;

/// The number of a Start.
pub const MADE_START: u32 = 4;

/// The number of a Copy.
pub const MADE_COPY: u32 = 5;

/// The number of an End.
pub const MADE_END: u32 = 6;

/// The number of a Tick.
pub const MADE_TICK: u32 = 7;

/// The number of a Release.
pub const MADE_RELEASE: u32 = 8;

/// What an actor has just done, or is about to do.
#[derive(Clone, Copy, Debug, PartialEq, Eq)]
pub enum Spot {
    /// It has made its entry of the kind with this number, `MADE_FETCH` to `MADE_RELEASE`, at this place of the
    /// history, counted from 1.
    Made { kind: u32, place: u64 },
    /// Its store was answered that the block is locked, after this many entries.
    Waits { place: u64 },
    /// It is about to hash its copy of this block, numbered from the first of memory.
    Hashing { block: u32 },
}

/// Somebody who is told where each actor stands. It is called while the actor holds no lock, so it may wait for
/// another actor. No contract says anything of a gate.
pub trait Gate {
    /// The actor stands here: 0 is the measurer, 1 to 8 are applications.
    fn at(&self, actor: u32, spot: Spot);
}

/// A gate that does nothing.
#[derive(Clone, Copy, Debug, PartialEq, Eq)]
pub struct NoGate;

impl Gate for NoGate {
    fn at(&self, _actor: u32, _spot: Spot) {}
}
