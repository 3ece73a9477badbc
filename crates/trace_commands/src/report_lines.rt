//! The lines on reports that are confirmed or not, appended to an output.

ghost use Rattle.std.specs.Prelude.{◌≡◌, ◌≤◌, ◌++◌, codes, OnOk};
ghost use Rattle.std.specs.Fmt.{decimal};
ghost use Rattle.device_commands.specs.RunLines.{numbered_line};
ghost use Rattle.trace_commands.specs.GeneratedRuns.{all_report_lines, answer_line, refusal, report_lines};

use crate::ends::ReportEnd;
use device_commands::{put_line, put_release, put_report_line};
use std::alloc::AllocError;
use text_readers::put_number;
use trace::Confirmed;

/// The number of the first reason for which a report isn't confirmed: 1 it is malformed, 2 it has another shape, 3 the
/// history has no such pass, 4 the tag is another.
pub fn refusal(answer: Confirmed) -> Option<u32>
    ensures { result ≡ refusal answer }
{
    match answer {
        Confirmed::Malformed => Some(1),
        Confirmed::WrongShape => Some(2),
        Confirmed::NoPass => Some(3),
        Confirmed::WrongTag => Some(4),
        Confirmed::Yes => None,
    }
}

// `confirmed J`
fn put_confirmed(out: &mut Vec<u8>, number: u64) -> Result<(), AllocError>
    ensures { OnOk result (out.new.items ≡ out.old.items ++ (codes "confirmed " ++ decimal number ++ codes "\n")) }
{
    out.extend_from_slice(b"confirmed ")?;
    put_number(out, number)?;
    out.push(b'\n')?;
    Ok(())
}

// `refused J V`
#[tactic(auto, unfolding(device_commands::specs::RunLines::numbered_line))]
fn put_refused(out: &mut Vec<u8>, number: u64, reason: u32) -> Result<(), AllocError>
    ensures { OnOk result (out.new.items ≡ out.old.items ++ numbered_line (codes "refused") number (decimal reason)) }
{
    out.extend_from_slice(b"refused ")?;
    put_number(out, number)?;
    out.push(b' ')?;
    put_number(out, u64::from(reason))?;
    out.push(b'\n')?;
    Ok(())
}

// The one or the other.
fn put_answer(out: &mut Vec<u8>, number: u64, answer: Confirmed) -> Result<(), AllocError>
    ensures { OnOk result (out.new.items ≡ out.old.items ++ answer_line number (refusal answer)) }
{
    match refusal(answer) {
        None => put_confirmed(out, number),
        Some(reason) => put_refused(out, number, reason),
    }
}

// What one challenge has come to.
#[tactic(auto, unfolding(crate::specs::GeneratedRuns::report_lines))]
fn put_report_end(out: &mut Vec<u8>, number: u64, end: &ReportEnd) -> Result<(), AllocError>
    ensures { OnOk result (out.new.items ≡ out.old.items ++ report_lines number end.now) }
{
    match *end {
        ReportEnd::Stopped => put_line(out, b"challenge", number, b"stopped"),
        ReportEnd::Reported {
            report,
            answer,
            release,
        } => {
            put_report_line(out, number, &report)?;
            put_answer(out, number, answer)?;
            put_release(out, number, release)
        }
    }
}

/// What each challenge, counted from 1, has come to: `challenge J stopped`, or `challenge J report START END TAG`. Behind a
/// report stands `confirmed J` or `refused J V`, and, where the locks were held beyond End, `release J R` or
/// `release J stopped`.
pub fn put_report_ends(out: &mut Vec<u8>, ends: &[ReportEnd]) -> Result<(), AllocError>
    ensures { OnOk result (out.new.items ≡ out.old.items ++ all_report_lines 1 ends.now) }
{
    let mut number = 1;
    for end in ends {
        put_report_end(out, number, end)?;
        number += 1;
    }
    Ok(())
}
