//! The command `gen`: a device that is drawn from a number runs, and what has come of it is to be printed.

ghost use Rattle.std.specs.Prelude.{◌≡◌, ◌≤◌, [], length, IfOk, OnOk, All, Ok};
ghost use Rattle.history.specs.Layout.{IsSetting};
ghost use Rattle.command_plans.specs.Answered.{Gives, IsQuiet, came_of};
ghost use Rattle.device.specs.Turns.{first_state};
ghost use Rattle.device_commands.specs.ChallengeEnds.{IsSoundPass};
ghost use Rattle.generated.specs.Generated.{generated_setup};
ghost use Rattle.trace_commands.specs.GeneratedRuns.{ending_of_reports, generated_text, report_ends, written_of_generated, written_with_ends};
ghost use Rattle.trace_commands.specs.Plans.{GeneratedRun, gen_plan};

use crate::ends::{ReportEnd, are_confirmed, report_ends};
use crate::report_lines::put_report_ends;
use command_plans::{Ending, FileParts, Output, Parts, Stop};
use device::{Device, Outcome};
use device_commands::{is_cut, measurements_are_sound, put_app_ends, put_entries, put_waits};
use generated::{GENERATED_KEY, Generated, generate};
use sched::{Run, run_schedule};
use std::alloc::{AllocError, Global};
use trace::Index;

// What is printed.
#[tactic(auto, unfolding(crate::specs::GeneratedRuns::generated_text))]
fn generated_text(
    alloc: Global,
    ends: &[ReportEnd],
    outcome: &Outcome,
) -> Result<Vec<u8>, AllocError>
    ensures { IfOk result (λ out. out.items ≡ generated_text ends.now outcome.now) }
{
    let mut out = Vec::new(alloc);
    put_app_ends(&mut out, outcome.apps.as_slice())?;
    put_waits(&mut out, outcome.apps.as_slice())?;
    put_report_ends(&mut out, ends)?;
    put_entries(&mut out, outcome.chronicle.length())?;
    Ok(out)
}

// How the command ends.
#[tactic(auto, unfolding(crate::specs::GeneratedRuns::ending_of_reports))]
fn ending_of_reports(cap: u64, ends: &[ReportEnd], outcome: &Outcome) -> Ending
    ensures { result ≡ ending_of_reports cap ends.now outcome.now }
{
    if is_cut(outcome) {
        return Ending::Full(cap);
    }
    if are_confirmed(ends) {
        return Ending::Accepted;
    }
    Ending::Refused
}

// What is written of a run whose challenges have come to this.
fn written_with_ends<P: Parts + Drop, B: FileParts + Drop>(
    alloc: Global,
    ends: &[ReportEnd],
    outcome: &Outcome,
) -> Result<Output<P, B>, AllocError>
    ensures { IfOk result (λ o. o ≡ written_with_ends ends.now outcome.now) }
{
    let out = generated_text(alloc, ends, outcome)?;
    let ending = ending_of_reports(outcome.chronicle.world().cap(), ends, outcome);
    Output::ended(alloc, Vec::new(alloc), out, ending)
}

// What the challenges of a run have come to.
fn ends_of(alloc: Global, key: &[u8], outcome: &Outcome) -> Result<Vec<ReportEnd>, AllocError>
    requires sound { All IsSoundPass outcome.now.passes }
    ensures { IfOk result (λ ends. ends.items ≡ report_ends key.now outcome.now.chronicle outcome.now.passes) }
{
    let chronicle = &outcome.chronicle;
    let size = chronicle.world().geometry().byte_count();
    let mut buffer = vec![in alloc; 0u8; size as usize]?;
    let index = Index::new(alloc, chronicle)?;
    report_ends(alloc, &index, key, outcome.passes.as_slice(), &mut buffer)
}

// What is written of a run.
#[tactic(auto, unfolding(crate::specs::GeneratedRuns::written_of_generated))]
fn run_output<P: Parts + Drop, B: FileParts + Drop>(
    alloc: Global,
    key: &[u8],
    outcome: &Outcome,
) -> Result<Output<P, B>, Stop>
    requires sound { All IsSoundPass outcome.now.passes }
    ensures { Gives (λ o. o) (Ok (written_of_generated key.now outcome.now)) result }
{
    let Ok(ends) = ends_of(alloc, key, outcome) else {
        return Err(Stop::Memory);
    };
    match written_with_ends(alloc, &ends, outcome) {
        Ok(output) => Ok(output),
        Err(_) => Err(Stop::Memory),
    }
}

// What is written of the run of a generated device.
#[tactic(auto, unfolding(generated::specs::Generated::generated_key))]
fn generated_run<P: Parts + Drop, B: FileParts + Drop>(
    alloc: Global,
    device: Device,
    schedule: &[Run],
) -> Result<Output<P, B>, Stop>
    requires world { IsSetting device.setup.world }
    requires fresh { device.state ≡ first_state device.setup }
    requires actors { All (λ run. run.actor ≤ length device.setup.programs) schedule.now }
    ensures comes { GeneratedRun device.setup schedule.now [] (came_of (λ o. o) result) }
    ensures quiet { IsQuiet result }
{
    measurements_are_sound();
    let outcome = run_schedule(device, schedule);
    run_output(alloc, GENERATED_KEY, &outcome)
}

/// The output of `gen`: the device and the schedule that are drawn from a number; the device runs under the schedule, and
/// each of its reports is confirmed by the history. The lines of the run are to be printed; the command ends with `Full`
/// where an actor met the full history, else with `Refused` where a report isn't confirmed. No file is read or written.
#[tactic(auto, unfolding(crate::specs::Plans::gen_plan))]
pub fn prepare_gen<P: Parts + Drop, B: FileParts + Drop>(
    alloc: Global,
    seed: u64,
) -> Result<Output<P, B>, Stop>
    ensures comes { gen_plan seed [] (came_of (λ o. o) result) }
    ensures quiet { IsQuiet result }
    // The generated memory is one that a device may have.
    ensures setting { OnOk result (IsSetting (generated_setup seed).world) }
{
    let Ok(Generated { device, schedule }) = generate(alloc, seed) else {
        return Err(Stop::Memory);
    };
    generated_run(alloc, device, schedule.as_slice())
}
