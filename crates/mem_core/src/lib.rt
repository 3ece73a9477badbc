//! A device's memory as one machine of events: each access of an application and each step of the measurer
//! adds its entry to a legal history, or changes nothing. No event takes memory.
//!
//! ```rust
//! use chronicle::{BlockPort, MemPort, Width};
//! use mem_core::{Direct, MemCore, Want};
//!
//! let mut core = MemCore::new(alloc, world)?;
//! let ticked = core.act(0, Want::Tick); // Done { value: 0, place: 1 }
//! let loaded = Direct::new(&mut core, 3).load(addr, Width::Byte); // as application 3, by the port
//! let history = core.into_chronicle();
//! ```
#![tactic(auto)]

mod cores;
mod direct;
mod wants;

pub use cores::MemCore;
pub use direct::Direct;
pub use wants::{Answer, Want};

#[cfg(test)]
mod tests;
