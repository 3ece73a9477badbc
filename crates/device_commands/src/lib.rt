//! The commands on devices. `image` writes the attested bytes of a device's memory as it begins; `sched` runs a device
//! under a schedule, `run` runs it on threads, and both write what has come of it. Nothing is written here: each prepares an
//! output for what it reads.
//!
//! ```rust
//! use device_commands::{prepare_image, prepare_run, prepare_sched};
//!
//! let image = prepare_image(alloc, &mut files, "device.toml", "memory.img")?;
//! let scheduled = prepare_sched(alloc, &mut files, "device.toml", "schedule.txt")?;
//! let run = prepare_run(alloc, &mut files, "device.toml", &rt, &NoGate)?;
//! ```
#![tactic(auto)]

mod ends;
mod image;
mod laws;
mod outputs;
mod run_lines;
mod scheduled;
mod setting_up;
mod threaded;
mod trace_parts;

pub use ends::{ChallengeEnd, Judge, ReleaseEnd};
pub use image::prepare_image;
pub use laws::{
    cut_runs_end_full, files_have_different_names, measurements_are_sound, runs_are_printable,
    uncut_runs_are_finished,
};
pub use outputs::is_cut;
pub use run_lines::{put_app_ends, put_entries, put_line, put_release, put_report_line, put_waits};
pub use scheduled::prepare_sched;
pub use threaded::prepare_run;
pub use trace_parts::TraceParts;

#[cfg(test)]
mod fault_tests;
#[cfg(test)]
mod run_tests;
#[cfg(test)]
mod sched_tests;
#[cfg(test)]
mod tests;
