//! Why applications can't be placed.

use std::alloc::{AllocError, AllocFailed};
use thiserror::Error;

/// Why applications can't be placed: the first test that fails, where the applications are tried in order, and of one
/// application its segments in order and then its entry. Applications are numbered from 1, segments from 0.
#[derive(Clone, Copy, Debug, PartialEq, Eq, Error)]
pub enum PlaceFault {
    /// A byte of the segment lies outside memory.
    #[error("application {app}, segment {segment}: outside memory")]
    OutsideMemory {
        /// The application.
        app: u32,
        /// The segment.
        segment: u32,
    },
    /// The segment shares a byte with an earlier one, of which the first is named.
    #[error("application {app}, segment {segment}: overlaps application {with_app}, segment {with_segment}")]
    Overlap {
        /// The application.
        app: u32,
        /// The segment.
        segment: u32,
        /// The earlier segment's application.
        with_app: u32,
        /// The earlier segment.
        with_segment: u32,
    },
    /// The entry isn't divisible by 4, or its word doesn't fit memory.
    #[error("application {app}: its entry is no word of memory")]
    EntryOutside {
        /// The application.
        app: u32,
    },
    /// Memory ran out. It may come at any time.
    #[error("out of memory")]
    Memory,
}
