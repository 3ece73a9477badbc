//! What is written of a run: the trace, the consoles, the reports and the notes; and the text on standard output.

ghost use Rattle.std.specs.Prelude.{◌≡◌, ◌++◌, ◌∷◌, [], All, IfOk, OnOk, Ok};
ghost use Rattle.std.specs.List.{list_all, list_any};
ghost use Rattle.att_base.specs.Files.{IsName};
ghost use Rattle.trace.specs.Printable.{IsPrintable};
ghost use Rattle.device_config.specs.Plans.{IsAppPlan, IsChallengePlan, IsDevicePlan};
ghost use Rattle.command_plans.specs.Answered.{Gives};
ghost use Rattle.device_commands.specs.ChallengeEnds.{IsSoundEnd, IsSoundPass, challenge_ends};
ghost use Rattle.device_commands.specs.RunWritten.{answer_files, console_files, ending_of_run, files_of_end, is_accepted, is_cut, is_cut_pass, is_cut_run, run_files, run_text, written_of, written_with};

use crate::ends::{ChallengeEnd, Judge, ReleaseEnd, challenge_ends};
use crate::run_lines::{put_app_ends, put_challenges, put_entries, put_waits};
use crate::trace_parts::{TraceParts, trace_file};
use app_thread::RunEnd;
use att_base::NamedFile;
use command_plans::{Ending, FileParts, Output, Parts, Planned, Stop};
use device::{AppEnd, Outcome, PassEnd};
use device_config::{AppPlan, ChallengePlan, DevicePlan};
use device_inputs::Admission;
use message_commands::accepts;
use report::{write_note, write_report};
use std::alloc::{AllocError, Global};

// Appends a file.
fn put_file<B: FileParts + Drop>(
    alloc: Global,
    files: &mut Vec<Planned<B>>,
    name: &str,
    bytes: &[u8],
) -> Result<(), AllocError>
    requires name { IsName name.now }
    requires named { All (λ file. IsName file.name) files.old.items }
    ensures files { OnOk result (files.new.items ≡ files.old.items ++ record { name = name.now; bytes = bytes.now } ∷ []) }
    ensures named { OnOk result (All (λ file. IsName file.name) files.new.items) }
{
    let file = NamedFile::copied(alloc, name, bytes)?;
    files.push(Planned::whole(file))?;
    Ok(())
}

// The console of each application.
fn put_consoles<B: FileParts + Drop>(
    alloc: Global,
    files: &mut Vec<Planned<B>>,
    plans: &[AppPlan],
    apps: &[AppEnd],
) -> Result<(), AllocError>
    requires plans { All IsAppPlan plans.now }
    requires named { All (λ file. IsName file.name) files.old.items }
    ensures files { OnOk result (files.new.items ≡ files.old.items ++ console_files plans.now apps.now) }
    ensures named { OnOk result (All (λ file. IsName file.name) files.new.items) }
{
    let mut k = 0;
    for plan in plans {
        if k >= apps.len() {
            return Ok(());
        }
        put_file(
            alloc,
            files,
            plan.console.as_str(),
            apps[k].console.as_slice(),
        )?;
        k += 1;
    }
    Ok(())
}

// The files of a challenge.
#[tactic(auto, unfolding(crate::specs::RunWritten::files_of_end))]
fn put_files_of_end<B: FileParts + Drop>(
    alloc: Global,
    files: &mut Vec<Planned<B>>,
    plan: &ChallengePlan,
    end: &ChallengeEnd,
) -> Result<(), AllocError>
    requires plan { IsChallengePlan plan.now }
    requires end { IsSoundEnd end.now }
    requires named { All (λ file. IsName file.name) files.old.items }
    ensures files { OnOk result (files.new.items ≡ files.old.items ++ files_of_end plan.now end.now) }
    ensures named { OnOk result (All (λ file. IsName file.name) files.new.items) }
{
    match *end {
        ChallengeEnd::Reported {
            report,
            release: ReleaseEnd::Noted { note },
            ..
        } => {
            put_file(
                alloc,
                files,
                plan.report.as_str(),
                write_report(&report).as_slice(),
            )?;
            put_file(alloc, files, plan.note.as_str(), &write_note(&note))
        }
        ChallengeEnd::Reported { report, .. } => {
            put_file(
                alloc,
                files,
                plan.report.as_str(),
                write_report(&report).as_slice(),
            )
        }
        ChallengeEnd::Malformed
        | ChallengeEnd::BadMac
        | ChallengeEnd::Stale { .. }
        | ChallengeEnd::Stopped => Ok(()),
    }
}

// The files of each challenge, in order.
fn put_answers<B: FileParts + Drop>(
    alloc: Global,
    files: &mut Vec<Planned<B>>,
    plans: &[ChallengePlan],
    ends: &[ChallengeEnd],
) -> Result<(), AllocError>
    requires plans { All IsChallengePlan plans.now }
    requires ends { All IsSoundEnd ends.now }
    requires named { All (λ file. IsName file.name) files.old.items }
    ensures files { OnOk result (files.new.items ≡ files.old.items ++ answer_files plans.now ends.now) }
    ensures named { OnOk result (All (λ file. IsName file.name) files.new.items) }
{
    let mut k = 0;
    for plan in plans {
        if k >= ends.len() {
            return Ok(());
        }
        put_files_of_end(alloc, files, plan, &ends[k])?;
        k += 1;
    }
    Ok(())
}

// The trace, each console, and each challenge's report and note.
#[tactic(auto, unfolding(crate::specs::RunWritten::run_files))]
fn run_files(
    alloc: Global,
    plan: &DevicePlan,
    ends: &[ChallengeEnd],
    outcome: Outcome,
) -> Result<Vec<Planned<TraceParts>>, AllocError>
    requires plan { IsDevicePlan plan.now }
    requires ends { All IsSoundEnd ends.now }
    requires printable { All IsPrintable outcome.chronicle.entries }
    ensures files { IfOk result (λ files. files.items ≡ run_files plan.now ends.now outcome) }
    ensures named { IfOk result (λ files. All (λ file. IsName file.name) files.items) }
{
    let Outcome {
        apps,
        chronicle,
        ..
    } = outcome;
    let mut files = Vec::new(alloc);
    files.push(trace_file(alloc, plan.trace.as_str(), chronicle)?)?;
    put_consoles(alloc, &mut files, plan.apps.as_slice(), apps.as_slice())?;
    put_answers(alloc, &mut files, plan.challenges.as_slice(), ends)?;
    Ok(files)
}

// What is printed.
#[tactic(auto, unfolding(crate::specs::RunWritten::run_text))]
fn run_text(
    alloc: Global,
    judge: &Judge,
    shows_waits: bool,
    ends: &[ChallengeEnd],
    outcome: &Outcome,
) -> Result<Vec<u8>, AllocError>
    ensures { IfOk result (λ out. out.items ≡ run_text judge.now shows_waits ends.now outcome.now) }
{
    let mut out = Vec::new(alloc);
    put_app_ends(&mut out, outcome.apps.as_slice())?;
    if shows_waits {
        put_waits(&mut out, outcome.apps.as_slice())?;
    }
    put_challenges(&mut out, judge.images(), ends)?;
    put_entries(&mut out, outcome.chronicle.length())?;
    Ok(out)
}

fn is_cut_run(end: &RunEnd) -> bool
    ensures { result ≡ is_cut_run end.now }
{
    match *end {
        RunEnd::Ended(_) => false,
        RunEnd::Full { .. } => true,
    }
}

fn is_cut_pass(end: &PassEnd) -> bool
    ensures { result ≡ is_cut_pass end.now }
{
    match *end {
        PassEnd::Done { .. } => false,
        PassEnd::Full { .. } | PassEnd::NotStarted => true,
    }
}

// An application met the full history.
fn an_app_is_cut(apps: &[AppEnd]) -> bool
    ensures { result ≡ list_any (λ app. is_cut_run app.run.end) apps.now }
{
    for app in apps {
        if is_cut_run(&app.run.end) {
            return true;
        }
    }
    false
}

// The measurer met it.
fn a_pass_is_cut(passes: &[PassEnd]) -> bool
    ensures { result ≡ list_any is_cut_pass passes.now }
{
    for end in passes {
        if is_cut_pass(end) {
            return true;
        }
    }
    false
}

/// Whether an actor met the full history.
#[tactic(auto, unfolding(crate::specs::RunWritten::is_cut))]
pub fn is_cut(outcome: &Outcome) -> bool
    ensures { result ≡ is_cut outcome.now }
{
    an_app_is_cut(outcome.apps.as_slice()) || a_pass_is_cut(outcome.passes.as_slice())
}

// The challenge was admitted, and its report accepted.
fn is_accepted(end: &ChallengeEnd) -> bool
    ensures { result ≡ is_accepted end.now }
{
    match *end {
        ChallengeEnd::Reported { verdict, .. } => accepts(verdict),
        ChallengeEnd::Malformed
        | ChallengeEnd::BadMac
        | ChallengeEnd::Stale { .. }
        | ChallengeEnd::Stopped => false,
    }
}

// Each of the challenges was admitted, and its report accepted.
fn are_accepted(ends: &[ChallengeEnd]) -> bool
    ensures { result ≡ list_all is_accepted ends.now }
{
    for end in ends {
        if !is_accepted(end) {
            return false;
        }
    }
    true
}

// How the command ends.
#[tactic(auto, unfolding(crate::specs::RunWritten::ending_of_run))]
fn ending_of_run(cap: u64, ends: &[ChallengeEnd], outcome: &Outcome) -> Ending
    ensures { result ≡ ending_of_run cap ends.now outcome.now }
{
    if is_cut(outcome) {
        return Ending::Full(cap);
    }
    if are_accepted(ends) {
        return Ending::Accepted;
    }
    Ending::Refused
}

// What is written of a run whose challenges have come to this.
fn written_with<P: Parts + Drop>(
    alloc: Global,
    plan: &DevicePlan,
    judge: &Judge,
    shows_waits: bool,
    ends: &[ChallengeEnd],
    outcome: Outcome,
) -> Result<Output<P, TraceParts>, AllocError>
    requires plan { IsDevicePlan plan.now }
    requires ends { All IsSoundEnd ends.now }
    requires printable { All IsPrintable outcome.chronicle.entries }
    ensures { IfOk result (λ o. o ≡ written_with plan.now judge.now shows_waits ends.now outcome) }
{
    let out = run_text(alloc, judge, shows_waits, ends, &outcome)?;
    let ending = ending_of_run(plan.cap, ends, &outcome);
    let files = run_files(alloc, plan, ends, outcome)?;
    Output::ended(alloc, files, out, ending)
}

/// What is written of a run of this plan's device: the trace, each console, each report and note; the lines, with those
/// on waiting where `shows_waits` says so; and how the command ends, with `Full` where an actor met the full history, else
/// with `Refused` where a challenge was refused or its report isn't accepted. Only want of memory stops it.
#[tactic(auto, unfolding(crate::specs::RunWritten::written_of))]
pub fn run_output<P: Parts + Drop>(
    alloc: Global,
    plan: &DevicePlan,
    judge: &Judge,
    admissions: &[Admission],
    shows_waits: bool,
    outcome: Outcome,
) -> Result<Output<P, TraceParts>, Stop>
    requires plan { IsDevicePlan plan.now }
    requires sound { All IsSoundPass outcome.passes }
    requires printable { All IsPrintable outcome.chronicle.entries }
    ensures { Gives (λ o. o) (Ok (written_of plan.now judge.now admissions.now shows_waits outcome)) result }
{
    let ends = challenge_ends(alloc, judge, admissions, outcome.passes.as_slice())?;
    match written_with(alloc, plan, judge, shows_waits, ends.as_slice(), outcome) {
        Ok(output) => Ok(output),
        Err(_) => Err(Stop::Memory),
    }
}
