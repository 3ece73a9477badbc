//! The commands on executables: `asm` assembles a text into an ELF file, and `show` lists an ELF file. Nothing is
//! written here: each prepares an output for what it reads.
#![tactic(auto)]

mod asm;
mod show;

pub use asm::prepare_asm;
pub use show::{Listed, prepare_show};

#[cfg(test)]
mod tests;
