//! Device files: what a device is made of, which applications run on it, and which challenges it answers. A
//! device file is a TOML document; the first rule that fails is named by its number. Rules 1 to 8 are those
//! of `config_rules`.
//!
//! | Rule | Key | What stands there |
//! |---|---|---|
//! | 9 | `cap` | an integer from 16 to 4000000 |
//! | 10 | `trace` | a file name: a text of 1 to 255 bytes |
//! | 11 | `images` | absent, or an array of at most 64 file names |
//! | 12 | `app` | an array of 1 to 8 tables with `file` and `console` (file names), `stack` (an integer from 0 to 4294967295) and `fuel` (1 to 1000000) |
//! | 13 | `challenge` | absent, or an array of at most 64 tables with `file`, `report` and `note` (file names) |
//! | 14 | | the trace, the consoles, the reports and the notes have different names, compared as texts |
//!
//! ```rust
//! use device_config::read_device;
//!
//! let plan = read_device(alloc, bytes)?;
//! for app in plan.apps.as_slice() {
//!     println!(rt; "{} runs for {}", app.file.as_str(), app.fuel)?;
//! }
//! ```
#![tactic(auto)]

mod arrays;
mod names;
mod plans;
mod reading;
mod worked;

pub use att_base::DeviceFault;
pub use plans::{AppPlan, ChallengePlan, DevicePlan};
pub use reading::read_device;
pub use worked::{names_that_differ, tables_of_applications};

#[cfg(test)]
mod tests;
