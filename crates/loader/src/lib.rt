//! Placing the executables of applications in one memory: the image that memory begins with, and where each
//! application begins.
//!
//! ```rust
//! use block_memory::Geometry;
//! use loader::{AppFile, place};
//!
//! let geometry = Geometry::new(0x8000_0000, 16, 4).ok_or("no such geometry")?;
//! let files = [AppFile::new(first), AppFile::new(second)];
//! let placed = place(alloc, &geometry, &files)?;
//! ```
#![tactic(auto)]

mod applications;
mod faults;
mod files;
mod placed;
mod placing;
mod spans;

pub use applications::place;
pub use faults::PlaceFault;
pub use files::AppFile;
pub use placed::Placed;

#[cfg(test)]
mod tests;
