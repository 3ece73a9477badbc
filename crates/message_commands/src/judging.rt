//! The verdicts on a report and on a note, and what is written of them.

ghost use Rattle.std.specs.Prelude.{◌≡◌, IfOk};
ghost use Rattle.std.specs.Option.{option_copied};
ghost use Rattle.report.specs.Reports.{report_in};
ghost use Rattle.verifier.specs.Verdicts.{Standing};
ghost use Rattle.message_commands.specs.Plans.{Knowledge, accepts, accepts_note, ending_of, judgement, verdict_on_note};

use crate::lines::verdict_lines;
use command_plans::{Ending, FileParts, Output, Parts};
use image_set::ImageSet;
use report::{Report, read_report};
use std::alloc::{AllocError, Global};
use verifier::{NoteVerdict, Verdict, Verifier};

/// Whether the verdict is that the report is of a known image.
pub fn accepts(verdict: Verdict) -> bool
    ensures { result ≡ accepts verdict }
{
    match verdict {
        Verdict::Accepted { .. } => true,
        Verdict::Malformed
        | Verdict::WrongChallenge
        | Verdict::Stale { .. }
        | Verdict::WrongShape
        | Verdict::UnknownMemory => false,
    }
}

fn accepts_note(verdict: Option<NoteVerdict>) -> bool
    ensures { result ≡ accepts_note verdict }
{
    match verdict {
        None | Some(NoteVerdict::Accepted { .. }) => true,
        Some(NoteVerdict::Malformed)
        | Some(NoteVerdict::WrongReport)
        | Some(NoteVerdict::WrongTag) => false,
    }
}

// Whether each verdict that is printed accepts.
fn ending_of(verdict: Verdict, note: Option<NoteVerdict>) -> Ending
    ensures { result ≡ ending_of verdict note }
{
    if accepts(verdict) && accepts_note(note) {
        Ending::Accepted
    } else {
        Ending::Refused
    }
}

// The verdict on the note, where the report is accepted and a note is there.
fn verdict_on_note(
    verifier: &Verifier<'_>,
    verdict: Verdict,
    report: Option<&Report>,
    note: Option<&[u8]>,
) -> Option<NoteVerdict>
    ensures { result ≡ verdict_on_note verifier.now.key verdict (option_copied report.entry) (option_copied note.entry) }
{
    let note = note?;
    if !accepts(verdict) {
        return None;
    }
    let report = report?;
    Some(verifier.judge_note(note, report))
}

/// What is written of the verdicts on the bytes of a report, and of a note where there is one.
#[tactic(auto, unfolding(crate::specs::Plans::judgement, verifier::specs::Verdicts::verdict_of))]
pub fn judgement<P: Parts + Drop, B: FileParts + Drop>(
    alloc: Global,
    verifier: &mut Verifier<'_>,
    set: &ImageSet,
    report: &[u8],
    note: Option<&[u8]>,
) -> Result<Output<P, B>, AllocError>
    requires { set.now.shape ≡ verifier.old.shape }
    ensures { let known : Knowledge = record { standing = verifier.old; images = set.now.images } in
        IfOk result (λ o. o ≡ judgement known report.now (option_copied note.entry)) }
{
    let report = read_report(report);
    let verdict = verifier.judge_read(report.as_ref(), set);
    let noted = verdict_on_note(verifier, verdict, report.as_ref(), note);
    let lines = verdict_lines(alloc, set, verdict, noted)?;
    let ending = ending_of(verdict, noted);
    Output::ended(alloc, Vec::new(alloc), lines.into_bytes(), ending)
}
