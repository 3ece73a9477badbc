//! Executables for RV32 as ELF files (System V ABI, ELF; RISC-V ELF psABI): reading one with its first fault or its
//! segments over borrowed bytes, and writing one.
//!
//! ```rust
//! use elf32::{read, write};
//!
//! let file = write(alloc, &program)?;
//! let elf = read(&file)?;
//! for k in 0..elf.count() {
//!     let part = elf.segment(k);
//! }
//! ```
#![tactic(auto)]

mod faults;
mod headers;
mod laws;
mod reading;
mod writing;

pub use faults::ElfFault;
pub use laws::{fields_by_place, small_files};
pub use reading::{Elf, Part, read};
pub use writing::write;

#[cfg(test)]
mod tests;
