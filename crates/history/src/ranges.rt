//! Ranges of blocks.

/// A range of attested blocks.
#[derive(Clone, Copy, Debug, PartialEq, Eq)]
pub struct Range {
    /// Its first block, numbered from the first of memory.
    pub first: u32,
    /// How many blocks it has.
    pub attested: u32,
}
