//! What a device file says.

use block_memory::Geometry;
use listed::{Items, Text};
use lock_plan::Ranges;

/// An application: the executable, where it begins and what it may do.
#[derive(Debug, Drop)]
pub struct AppPlan {
    /// The name of the executable's file.
    pub file: Text,
    /// The name of the file that its console is written to.
    pub console: Text,
    /// The stack pointer with which it begins.
    pub stack: u32,
    /// How many instructions it may run at most, 1 to 1,000,000.
    pub fuel: u64,
}

/// A challenge that the device answers.
#[derive(Debug, Drop)]
pub struct ChallengePlan {
    /// The name of the challenge's file.
    pub file: Text,
    /// The name of the file that the report is written to.
    pub report: Text,
    /// The name of the file that the release note is written to.
    pub note: Text,
}

/// What a device file says.
#[derive(Debug, Drop)]
pub struct DevicePlan {
    /// Where memory lies.
    pub geometry: Geometry,
    /// The attested blocks, all of them in memory.
    pub ranges: Ranges,
    /// The name of the key's file.
    pub key: Text,
    /// The greatest counter that the device has answered so far, below 2^63.
    pub last: u64,
    /// How many entries the history may have, 16 to 4,000,000.
    pub cap: u64,
    /// The name of the file that the trace is written to.
    pub trace: Text,
    /// The names of the known images' files, at most 64.
    pub images: Items<Text>,
    /// The applications, 1 to 8.
    pub apps: Items<AppPlan>,
    /// The challenges in the order in which they are answered, at most 64.
    pub challenges: Items<ChallengePlan>,
}
