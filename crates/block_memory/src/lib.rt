//! The geometry of a device's memory, and the bytes that it holds: little-endian loads and stores, and
//! copies of whole blocks.
//!
//! ```rust
//! use block_memory::{BlockMemory, Geometry, Width};
//!
//! let geometry = Geometry::new(0x1000, 16, 2).ok_or("no such geometry")?;
//! let mut memory = BlockMemory::new(alloc, geometry, &[0; 32])?;
//! memory.store(0x1010, Width::Half, 0xabcd);
//! let low = memory.load(0x1010, Width::Byte);
//! ```
#![tactic(auto)]

mod geometry;
mod laws;
mod memory;

pub use geometry::{Geometry, aligned};
pub use history::Width;
pub use laws::{access_in_one_block, block_in_memory, reads_keep_memory};
pub use memory::BlockMemory;

#[cfg(test)]
mod tests;
