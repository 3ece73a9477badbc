//! The outside, as the crates above see it: streams of bytes, files by name, a command line's words, and fakes of
//! the streams and files.
//!
//! A stream has a count of faults that never falls, and a call fails only where that count rose in the call or
//! stands at its type's end; so have files. What a stream or a file holds is told over memory, and isn't told over
//! real files and terminals: each clause on content is an equation that holds either way.
#![tactic(auto)]

mod by_name;
mod calls;
mod faults;
mod gates;
mod mem_files;
mod memory;
mod standard;
mod std_files;
mod streams;
mod words;

pub use by_name::{Files, NAME_BYTES, names_are_apart, read_whole, write_whole};
pub use faults::{DeviceFault, Failed, FileFault, ReadFault};
pub use gates::{
    Gate, MADE_COPY, MADE_END, MADE_FETCH, MADE_LOAD, MADE_RELEASE, MADE_START, MADE_STORE,
    MADE_TICK, NoGate, Spot,
};
pub use mem_files::{MemFiles, NamedFile};
pub use memory::{MemSink, MemSource};
pub use standard::{StdErr, StdSink, StdSource};
pub use std_files::StdFiles;
pub use streams::{Sink, Source, put_all, take_all};
pub use words::Words;

#[cfg(test)]
mod tests;
