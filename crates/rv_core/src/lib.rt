//! One RV32IM core, as an application of a device runs it.
//!
//! A core never touches memory itself. It says what it wants next, a fetch, one load or one store, waits, and goes
//! on when it is told the answer. `specs/Effects.antt` has the effect of each instruction word, `specs/Runs.antt` what an
//! application's program is, as the list of its accesses, and `specs/Waits.antt` one step of a core that waits.
//!
//! ```rust
//! use rv_core::{Core, CoreWant, Geometry, Reply};
//!
//! let geometry = Geometry::new(0x8000_0000, 16, 4).ok_or("no such geometry")?;
//! let mut core = Core::new(geometry, 0x8000_0000, 0x8000_0040);
//! if let CoreWant::Fetch { .. } = core.want() {
//!     core.told(Reply::Fetched(0x0050_0093)); // addi x1, x0, 5
//! }
//! let five = core.reg(1);
//! ```
#![tactic(auto)]

mod effects;
mod laws;
mod running;
#[cfg(test)]
mod tests;
mod values;
mod waits;
mod worked;

pub use block_memory::{Geometry, Width};
pub use laws::{fronts_are_begun, runs_grow_by_one};
pub use running::{CONSOLE_BYTES, Core};
pub use waits::{CoreWant, Ending, Reply, TrapKind};
pub use worked::{
    divisions_without_a_quotient, endings_of_programs, entries_of_no_run, run_of_a_small_program,
};
