//! The lines that are printed of a run, appended to its output.

ghost use Rattle.std.specs.Prelude.{◌≡◌, ◌≤◌, ◌<◌, ◌^◌, ◌++◌, codes, length, OnOk};
ghost use Rattle.std.specs.Fmt.{decimal};
ghost use Rattle.hex.specs.Hex.{encode_lower};
ghost use Rattle.message_commands.specs.Lines.{image_name};
ghost use Rattle.device_commands.specs.RunLines.{numbered_line, run_end_text, end_lines, wait_lines, report_text, verdict_text, release_line, challenge_lines, all_challenge_lines, entries_line};

use crate::ends::{ChallengeEnd, ReleaseEnd};
use app_thread::{Ending, RunEnd};
use device::AppEnd;
use image_set::ImageSet;
use report::Report;
use std::alloc::AllocError;
use text_readers::{put_number, word_digits};
use verifier::Verdict;

// `WORD NUMBER `, the front of a line.
fn put_front(out: &mut Vec<u8>, word: &[u8], number: u64) -> Result<(), AllocError>
    ensures { OnOk result (out.new.items ≡ out.old.items ++ (word.now ++ codes " " ++ decimal number ++ codes " ")) }
{
    out.extend_from_slice(word)?;
    out.push(b' ')?;
    put_number(out, number)?;
    out.push(b' ')?;
    Ok(())
}

/// The line `WORD NUMBER TEXT`.
#[tactic(auto, unfolding(crate::specs::RunLines::numbered_line))]
pub fn put_line(out: &mut Vec<u8>, word: &[u8], number: u64, text: &[u8]) -> Result<(), AllocError>
    ensures { OnOk result (out.new.items ≡ out.old.items ++ numbered_line word.now number text.now) }
{
    put_front(out, word, number)?;
    out.extend_from_slice(text)?;
    out.push(b'\n')?;
    Ok(())
}

// How an application has ended.
#[tactic(auto, unfolding(crate::specs::RunLines::run_end_text))]
fn put_run_end(out: &mut Vec<u8>, end: RunEnd) -> Result<(), AllocError>
    ensures { OnOk result (out.new.items ≡ out.old.items ++ run_end_text end) }
{
    match end {
        RunEnd::Ended(Ending::Exit(number)) => {
            out.extend_from_slice(b"exit ")?;
            put_number(out, u64::from(number))
        }
        RunEnd::Ended(Ending::Trap(kind, pc)) => {
            out.extend_from_slice(b"trap ")?;
            put_number(out, u64::from(kind.code()))?;
            out.push(b' ')?;
            out.extend_from_slice(&word_digits(pc))
        }
        RunEnd::Ended(Ending::Fuel) => out.extend_from_slice(b"fuel"),
        RunEnd::Full { .. } => out.extend_from_slice(b"stopped"),
    }
}

// `app K ..`
#[tactic(auto, unfolding(crate::specs::RunLines::numbered_line))]
fn put_app_end(out: &mut Vec<u8>, number: u64, end: RunEnd) -> Result<(), AllocError>
    ensures { OnOk result (out.new.items ≡ out.old.items ++ numbered_line (codes "app") number (run_end_text end)) }
{
    put_front(out, b"app", number)?;
    put_run_end(out, end)?;
    out.push(b'\n')?;
    Ok(())
}

/// For each application, counted from 1, how it has ended: `app K exit N`, `app K trap T PC`, `app K fuel` or
/// `app K stopped`.
pub fn put_app_ends(out: &mut Vec<u8>, apps: &[AppEnd]) -> Result<(), AllocError>
    ensures { OnOk result (out.new.items ≡ out.old.items ++ end_lines 1 apps.now) }
{
    let mut number = 1;
    for app in apps {
        put_app_end(out, number, app.run.end)?;
        number += 1;
    }
    Ok(())
}

// `waits K W`
#[tactic(auto, unfolding(crate::specs::RunLines::numbered_line))]
fn put_app_waits(out: &mut Vec<u8>, number: u64, waits: u64) -> Result<(), AllocError>
    ensures { OnOk result (out.new.items ≡ out.old.items ++ numbered_line (codes "waits") number (decimal waits)) }
{
    put_front(out, b"waits", number)?;
    put_number(out, waits)?;
    out.push(b'\n')?;
    Ok(())
}

/// For each application, counted from 1, how often it waited for a lock: `waits K W`.
pub fn put_waits(out: &mut Vec<u8>, apps: &[AppEnd]) -> Result<(), AllocError>
    ensures { OnOk result (out.new.items ≡ out.old.items ++ wait_lines 1 apps.now) }
{
    let mut number = 1;
    for app in apps {
        put_app_waits(out, number, app.run.waits)?;
        number += 1;
    }
    Ok(())
}

// The digits of a tag.
fn put_tag(out: &mut Vec<u8>, tag: &[u8; 32]) -> Result<(), AllocError>
    ensures { OnOk result (out.new.items ≡ out.old.items ++ encode_lower tag.now) }
{
    let mut digits = [0u8; 64];
    let Ok(()) = hex::encode_to_slice(tag.as_slice(), &mut digits) else {
        unreachable!()
    };
    out.extend_from_slice(&digits)
}

#[tactic(auto, unfolding(crate::specs::RunLines::report_text))]
fn put_report(out: &mut Vec<u8>, report: &Report) -> Result<(), AllocError>
    ensures { OnOk result (out.new.items ≡ out.old.items ++ report_text report.now) }
{
    out.extend_from_slice(b"report ")?;
    put_number(out, report.start)?;
    out.push(b' ')?;
    put_number(out, report.end)?;
    out.push(b' ')?;
    put_tag(out, &report.tag)
}

// The name of the image at this position; no bytes where there is none.
fn image_name(set: &ImageSet, position: u32) -> &[u8]
    ensures { result.now ≡ image_name set.now.images position }
{
    if (position as usize) < set.len() {
        set.name(position).as_bytes()
    } else {
        b""
    }
}

#[tactic(auto, unfolding(crate::specs::RunLines::verdict_text))]
fn put_verdict(out: &mut Vec<u8>, set: &ImageSet, verdict: Verdict) -> Result<(), AllocError>
    ensures { OnOk result (out.new.items ≡ out.old.items ++ verdict_text set.now.images verdict) }
{
    match verdict {
        Verdict::Accepted { position } => {
            out.extend_from_slice(b"accepted ")?;
            out.extend_from_slice(image_name(set, position))
        }
        Verdict::Malformed => out.extend_from_slice(b"rejected 1"),
        Verdict::WrongChallenge => out.extend_from_slice(b"rejected 2"),
        Verdict::Stale { last } => {
            out.extend_from_slice(b"rejected 3 ")?;
            put_number(out, last)
        }
        Verdict::WrongShape => out.extend_from_slice(b"rejected 4"),
        Verdict::UnknownMemory => out.extend_from_slice(b"rejected 5"),
    }
}

/// The line `challenge J report START END TAG`.
#[tactic(auto, unfolding(crate::specs::RunLines::numbered_line))]
pub fn put_report_line(out: &mut Vec<u8>, number: u64, report: &Report) -> Result<(), AllocError>
    ensures { OnOk result (out.new.items ≡ out.old.items ++ numbered_line (codes "challenge") number (report_text report.now)) }
{
    put_front(out, b"challenge", number)?;
    put_report(out, report)?;
    out.push(b'\n')?;
    Ok(())
}

// `verdict J ..`
#[tactic(auto, unfolding(crate::specs::RunLines::numbered_line))]
fn put_verdict_line(
    out: &mut Vec<u8>,
    number: u64,
    set: &ImageSet,
    verdict: Verdict,
) -> Result<(), AllocError>
    ensures { OnOk result (out.new.items ≡ out.old.items ++ numbered_line (codes "verdict") number (verdict_text set.now.images verdict)) }
{
    put_front(out, b"verdict", number)?;
    put_verdict(out, set, verdict)?;
    out.push(b'\n')?;
    Ok(())
}

// `release J R`
#[tactic(auto, unfolding(crate::specs::RunLines::numbered_line))]
fn put_release_place(out: &mut Vec<u8>, number: u64, place: u64) -> Result<(), AllocError>
    ensures { OnOk result (out.new.items ≡ out.old.items ++ numbered_line (codes "release") number (decimal place)) }
{
    put_front(out, b"release", number)?;
    put_number(out, place)?;
    out.push(b'\n')?;
    Ok(())
}

/// The line `release J R` or `release J stopped`; none where the locks aren't held beyond End.
#[tactic(auto, unfolding(crate::specs::RunLines::release_line))]
pub fn put_release(out: &mut Vec<u8>, number: u64, release: ReleaseEnd) -> Result<(), AllocError>
    ensures { OnOk result (out.new.items ≡ out.old.items ++ release_line number release) }
{
    match release {
        ReleaseEnd::Noted { note } => put_release_place(out, number, note.release),
        ReleaseEnd::Stopped => put_line(out, b"release", number, b"stopped"),
        ReleaseEnd::NotHeld => Ok(()),
    }
}

// `challenge J refused stale LAST`
#[tactic(auto, unfolding(crate::specs::RunLines::numbered_line))]
fn put_stale(out: &mut Vec<u8>, number: u64, last: u64) -> Result<(), AllocError>
    ensures { OnOk result (out.new.items ≡ out.old.items ++ numbered_line (codes "challenge") number (codes "refused stale " ++ decimal last)) }
{
    put_front(out, b"challenge", number)?;
    out.extend_from_slice(b"refused stale ")?;
    put_number(out, last)?;
    out.push(b'\n')?;
    Ok(())
}

// What one challenge has come to.
#[tactic(auto, unfolding(crate::specs::RunLines::challenge_lines))]
fn put_challenge(
    out: &mut Vec<u8>,
    set: &ImageSet,
    number: u64,
    end: &ChallengeEnd,
) -> Result<(), AllocError>
    ensures { OnOk result (out.new.items ≡ out.old.items ++ challenge_lines set.now.images number end.now) }
{
    match *end {
        ChallengeEnd::Malformed => put_line(out, b"challenge", number, b"refused malformed"),
        ChallengeEnd::BadMac => put_line(out, b"challenge", number, b"refused badmac"),
        ChallengeEnd::Stale { last } => put_stale(out, number, last),
        ChallengeEnd::Stopped => put_line(out, b"challenge", number, b"stopped"),
        ChallengeEnd::Reported {
            report,
            verdict,
            release,
        } => {
            put_report_line(out, number, &report)?;
            put_verdict_line(out, number, set, verdict)?;
            put_release(out, number, release)
        }
    }
}

/// What each challenge, counted from 1, has come to: `challenge J refused malformed`, `challenge J refused badmac`,
/// `challenge J refused stale LAST`, `challenge J stopped`, or `challenge J report START END TAG`. Behind a report stand
/// the verdict on it, `verdict J accepted NAME` with an image's name or `verdict J rejected V`, and, where the locks were
/// held beyond End, `release J R` or `release J stopped`.
pub fn put_challenges(
    out: &mut Vec<u8>,
    set: &ImageSet,
    ends: &[ChallengeEnd],
) -> Result<(), AllocError>
    ensures { OnOk result (out.new.items ≡ out.old.items ++ all_challenge_lines set.now.images 1 ends.now) }
{
    let mut number = 1;
    for end in ends {
        put_challenge(out, set, number, end)?;
        number += 1;
    }
    Ok(())
}

/// `entries N`, how many entries the history has.
#[tactic(auto, unfolding(crate::specs::RunLines::entries_line))]
pub fn put_entries(out: &mut Vec<u8>, count: u64) -> Result<(), AllocError>
    ensures { OnOk result (out.new.items ≡ out.old.items ++ entries_line count) }
{
    out.extend_from_slice(b"entries ")?;
    put_number(out, count)?;
    out.push(b'\n')?;
    Ok(())
}
