//! What the challenges of a run have come to, where its history is at hand.

ghost use Rattle.std.specs.Prelude.{◌≡◌, ◌≤◌, length, IfOk, All};
ghost use Rattle.std.specs.List.{list_all};
ghost use Rattle.history.specs.Layout.{byte_count};
ghost use Rattle.report.specs.Reports.{IsReport, report_bytes};
ghost use Rattle.trace.specs.Confirm.{confirmed};
ghost use Rattle.device_commands.specs.ChallengeEnds.{IsSoundPass};
ghost use Rattle.trace_commands.specs.GeneratedRuns.{is_confirmed_end, release_after, report_end, report_ends, report_told};

use device::PassEnd;
use device_commands::ReleaseEnd;
use report::{Note, Report, write_report};
use std::alloc::{AllocError, Global};
use trace::{Confirmed, Index};

/// What the challenge of a run has come to.
#[derive(Clone, Copy, Debug, PartialEq, Eq)]
pub enum ReportEnd {
    /// The history filled before the measurement ended.
    Stopped,
    /// The measurement has ended: its report, whether that is one on a pass of the history, and what has come of its locks.
    Reported {
        /// The report.
        report: Report,
        /// What it is told.
        answer: Confirmed,
        /// What has come of the locks.
        release: ReleaseEnd,
    },
}

// What has come of the locks.
fn release_after(report: &Report, note: Option<Note>) -> ReleaseEnd
    ensures { result ≡ release_after report.now note }
{
    match note {
        Some(note) => ReleaseEnd::Noted { note },
        None if report.discipline.extended() => ReleaseEnd::Stopped,
        None => ReleaseEnd::NotHeld,
    }
}

// What a measurement has come to that has this report.
fn report_told(
    index: &Index<'_>,
    key: &[u8],
    report: Report,
    note: Option<Note>,
    buffer: &mut [u8],
) -> ReportEnd
    requires report { IsReport report }
    requires room { length buffer.old ≡ byte_count index.now.world.layout }
    ensures value { result ≡ report_told key.now index.now report note }
    ensures room { length buffer.new ≡ length buffer.old }
{
    let answer = index.confirm(key, write_report(&report).as_slice(), buffer);
    let release = release_after(&report, note);
    ReportEnd::Reported {
        report,
        answer,
        release,
    }
}

// What a measurement has come to.
#[tactic(auto, unfolding(crate::specs::GeneratedRuns::report_end))]
fn report_end(index: &Index<'_>, key: &[u8], end: &PassEnd, buffer: &mut [u8]) -> ReportEnd
    requires sound { IsSoundPass end.now }
    requires room { length buffer.old ≡ byte_count index.now.world.layout }
    ensures value { result ≡ report_end key.now index.now end.now }
    ensures room { length buffer.new ≡ length buffer.old }
{
    match *end {
        PassEnd::Done { report, note } => report_told(index, key, report, note, buffer),
        PassEnd::Full {
            report: Some(report),
        } => report_told(index, key, report, None, buffer),
        PassEnd::Full { report: None } | PassEnd::NotStarted => ReportEnd::Stopped,
    }
}

/// What the measurements of a run have come to, in order. The buffer is as long as memory.
pub fn report_ends(
    alloc: Global,
    index: &Index<'_>,
    key: &[u8],
    passes: &[PassEnd],
    buffer: &mut [u8],
) -> Result<Vec<ReportEnd>, AllocError>
    requires sound { All IsSoundPass passes.now }
    requires room { length buffer.old ≡ byte_count index.now.world.layout }
    ensures { IfOk result (λ ends. ends.items ≡ report_ends key.now index.now passes.now) }
{
    let mut ends = Vec::with_capacity(alloc, passes.len())?;
    for end in passes {
        ends.push(report_end(index, key, end, buffer))?;
    }
    Ok(ends)
}

// The report was made, and is confirmed.
fn is_confirmed_end(end: &ReportEnd) -> bool
    ensures { result ≡ is_confirmed_end end.now }
{
    match *end {
        ReportEnd::Stopped => false,
        ReportEnd::Reported { answer, .. } => match answer {
            Confirmed::Yes => true,
            Confirmed::Malformed
            | Confirmed::WrongShape
            | Confirmed::NoPass
            | Confirmed::WrongTag => false,
        },
    }
}

/// Each report was made, and is confirmed.
pub fn are_confirmed(ends: &[ReportEnd]) -> bool
    ensures { result ≡ list_all is_confirmed_end ends.now }
{
    for end in ends {
        if !is_confirmed_end(end) {
            return false;
        }
    }
    true
}
