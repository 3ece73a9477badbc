//! Applications in memory.

use listed::{Bytes, Items};

/// Applications in memory.
#[derive(Debug, Drop)]
pub struct Placed {
    /// Memory's bytes, by rising address.
    pub image: Bytes,
    /// The address of each application's first instruction, in their order.
    pub entries: Items<u32>,
}
