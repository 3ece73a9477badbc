//! What a run has come to.

ghost use Rattle.std.specs.Prelude.{◌≡◌};
ghost use Rattle.device.specs.Outcomes.{run_end};

use app_thread::{AppRun, CoreWant, RunEnd};
use chronicle::Chronicle;
use listed::{Bytes, Items};
use report::{Note, Report};

/// What an application has come to.
#[derive(Debug, Drop)]
pub struct AppEnd {
    /// How it ended, and how often it waited for a lock.
    pub run: AppRun,
    /// What it has printed, at most 4,096 bytes.
    pub console: Bytes,
}

/// What the measurement for a challenge has come to.
#[derive(Clone, Copy, Debug, PartialEq, Eq)]
pub enum PassEnd {
    /// The measurer's whole program was made. There is a note exactly in an extended discipline.
    Done { report: Report, note: Option<Note> },
    /// The history filled before. There is a report exactly where the pass had ended.
    Full { report: Option<Report> },
    /// The history filled in a measurement before this one.
    NotStarted,
}

/// What a run of a device has come to.
#[derive(Drop)]
pub struct Outcome {
    /// The applications, in their order.
    pub apps: Items<AppEnd>,
    /// The challenges, in their order.
    pub passes: Items<PassEnd>,
    /// The history of the run, with the world that it began in.
    pub chronicle: Chronicle,
}

/// How an application ends that asks this next, in a history of so many entries.
pub fn end_of_run(want: CoreWant, place: u64) -> RunEnd
    ensures { result ≡ run_end want place }
{
    match want {
        CoreWant::Ended(ending) => RunEnd::Ended(ending),
        CoreWant::Fetch { .. } | CoreWant::Load { .. } | CoreWant::Store { .. } => {
            RunEnd::Full { place }
        }
    }
}
