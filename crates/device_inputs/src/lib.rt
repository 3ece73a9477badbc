//! What commands on devices read: a device file, a schedule, the files of applications with their placing, challenges
//! with their admission, and all of them in the order in which a run reads them.
//!
//! Each call reads by a step of the plans ([`specs/Inputs.antt`], [`specs/Setups.antt`]), so its clause says which names
//! it asks for, in order, what comes of them, and that files were only read. Want of memory may come behind each name.
#![tactic(auto)]

mod admitting;
mod applications;
mod challenges;
mod device;
mod laws;
mod schedules;
mod setup;
mod worked;

pub use admitting::{Admission, admit_all};
pub use applications::{read_app_files, read_placed};
pub use challenges::{read_admissions, read_challenge_files};
pub use device::read_device;
pub use laws::served_in_order;
pub use schedules::read_schedule;
pub use setup::{ScheduledFiles, SetupFiles, read_named, read_scheduled, read_setup};
pub use worked::admissions_by_counter;

#[cfg(test)]
mod tests;
