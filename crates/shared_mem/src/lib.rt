//! One device's memory that threads share: each call of a port is one turn of its lock, and so one event of
//! the one history, or none.
//!
//! ```rust
//! use chronicle::{BlockPort, MemPort, Width};
//! use shared_mem::{Port, SharedMem};
//!
//! let Ok((memory, mut pass)) = SharedMem::new(alloc, core, 2) else { .. }; // for the actors 0 and 1
//! let other = memory.split(&mut pass, 1);
//! let mut measurer = Port::new(&memory, pass, rt);
//! let mut application = Port::new(&memory, other, rt); // in a thread of its own
//! let step = measurer.start(Discipline::All, 8);
//! let stored = application.store(addr, Width::Byte, 1);
//! let whole = memory.join(measurer.into_pass(), application.into_pass());
//! let core = memory.close(whole);
//! ```
#![tactic(auto)]

mod memory;
mod ports;

pub use memory::SharedMem;
pub use ports::Port;
pub use turn_cell::{Pass, Refused};

#[cfg(test)]
mod tests;
