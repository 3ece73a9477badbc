//! An executable as a value: where it begins, and which bytes it puts where.
//!
//! ```rust
//! use executable::{Program, Segment};
//!
//! let mut program = Program::new(alloc, 0x8000_0000);
//! program.push(Segment::new(0x8000_0000, code))?;
//! ```
#![tactic(auto)]

use listed::{Bytes, Items};
use std::alloc::{AllocError, Global};

/// Bytes that stand in memory from an address on.
#[derive(Debug, Drop)]
pub struct Segment {
    /// The address of the first byte.
    pub addr: u32,
    /// The bytes, by rising address.
    pub bytes: Bytes,
}

impl Segment {
    ghost use Rattle.std.specs.Prelude.{◌≡◌};

    /// The segment of these bytes. It takes no memory.
    pub fn new(addr: u32, bytes: Vec<u8>) -> Segment
        ensures { result ≡ record { addr = addr; bytes = bytes.items } }
    {
        let bytes = Bytes::from_vec(bytes);
        Segment { addr, bytes }
    }
}

/// An executable. Its segments are in their order in the file, and may be empty or overlap.
#[derive(Debug, Drop)]
pub struct Program {
    /// The address of the first instruction.
    pub entry: u32,
    /// The segments, in order.
    pub segments: Items<Segment>,
}

impl Program {
    ghost use Rattle.std.specs.Prelude.{◌≡◌, ◌++◌, ◌∷◌, [], OnOk, OnErr};

    /// The executable that begins here and has no segments yet. It takes no memory.
    pub fn new(alloc: Global, entry: u32) -> Program
        ensures { result ≡ record { entry = entry; segments = [] } }
    {
        let segments = Items::new(alloc);
        Program { entry, segments }
    }

    /// Adds a segment after the others. A refusal changes nothing, and drops the segment.
    pub fn push(&mut self, segment: Segment) -> Result<(), AllocError>
        ensures ok { OnOk result (self.new ≡ record self.old { segments = self.old.segments ++ segment ∷ [] }) }
        ensures err { OnErr result (self.new ≡ self.old) }
    {
        self.segments.push(segment)
    }
}

#[cfg(test)]
mod tests;
