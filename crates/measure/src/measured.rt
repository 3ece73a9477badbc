//! What a measurement answers.

use report::{Note, Report};

/// The answer of a measurement.
#[derive(Clone, Copy, Debug, PartialEq, Eq)]
pub enum Measured {
    /// The measurer has made its whole program. There is a note exactly in an extended discipline.
    Done { report: Report, note: Option<Note> },
    /// The history filled, at this place, before the measurer had made its whole program. There is a report
    /// exactly where End's entry was made.
    Full { place: u64, report: Option<Report> },
}
