//! One application over any port.
//!
//! An application is a core and the fetches that it may still make. It takes one turn, which asks the port for the
//! one access that comes next, or runs until it has ended or the history is full. `specs/Turns.antt` says what a turn
//! is, and `specs/WholeRuns.antt` what a run is.
//!
//! ```rust
//! use app_thread::{App, Turn};
//!
//! let mut app = App::new(geometry, entry, stack, 1_000);
//! match app.turn(&mut port) {
//!     Turn::Made { kind, place } => note(kind, place),
//!     Turn::Again { place } => wait(place),
//!     Turn::Full { place } => give_up(place),
//!     Turn::Over(ending) => show(ending, app.console()),
//! }
//! ```
#![tactic(auto)]

mod apps;
mod ends;
mod laws;
mod running;
mod turns;
mod waiting;

pub use apps::App;
pub use block_memory::Geometry;
pub use ends::{AppRun, RunEnd};
pub use laws::{runs_compose, turns_go_on};
pub use running::run_app;
pub use rv_core::{CoreWant, Ending, TrapKind};
pub use turns::Turn;

#[cfg(test)]
mod busy;
#[cfg(test)]
mod tests;
