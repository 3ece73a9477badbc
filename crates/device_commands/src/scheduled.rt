//! The command `sched`: a device runs under a schedule, and what has come of it is to be written.

ghost use Rattle.std.specs.Prelude.{◌≡◌, ◌^◌, ◌<◌, ◌≤◌, [], length, All};
ghost use Rattle.att_base.specs.Files.{IsName};
ghost use Rattle.history.specs.Layout.{IsSetting};
ghost use Rattle.device_config.specs.Plans.{IsDevicePlan};
ghost use Rattle.device_inputs.specs.Setups.{IsScheduledFiles};
ghost use Rattle.command_plans.specs.Answered.{IsQuiet, Reads, came_of};
ghost use Rattle.device.specs.Turns.{first_state};
ghost use Rattle.device_commands.specs.Plans.{RunOfFiles, ScheduledRun, sched_plan};

use crate::ends::Judge;
use crate::laws::{measurements_are_sound, runs_are_printable};
use crate::outputs::run_output;
use crate::setting_up::device_of;
use crate::trace_parts::TraceParts;
use att_base::Files;
use command_plans::{Output, Parts, Stop};
use device::Device;
use device_config::DevicePlan;
use device_inputs::{Admission, ScheduledFiles, SetupFiles, read_scheduled};
use sched::{Run, run_schedule};
use std::alloc::Global;

// What is written of a device's run under the schedule.
fn scheduled_run<P: Parts + Drop>(
    alloc: Global,
    plan: &DevicePlan,
    judge: &Judge,
    admissions: &[Admission],
    device: Device,
    schedule: &[Run],
) -> Result<Output<P, TraceParts>, Stop>
    requires plan { IsDevicePlan plan.now }
    requires world { IsSetting device.setup.world }
    requires counters { All (λ c. c.counter < 2 ^ 64) device.setup.challenges }
    requires fresh { device.state ≡ first_state device.setup }
    requires actors { All (λ run. run.actor ≤ length device.setup.programs) schedule.now }
    ensures comes { ScheduledRun device.setup schedule.now plan.now judge.now admissions.now [] (came_of (λ o. o) result) }
    ensures quiet { IsQuiet result }
{
    measurements_are_sound();
    runs_are_printable();
    let outcome = run_schedule(device, schedule);
    run_output(alloc, plan, judge, admissions, true, outcome)
}

// What is written of the run that these files give.
fn run_of_files<P: Parts + Drop>(
    alloc: Global,
    read: ScheduledFiles,
) -> Result<Output<P, TraceParts>, Stop>
    requires { IsScheduledFiles read }
    ensures comes { RunOfFiles read [] (came_of (λ o. o) result) }
    ensures quiet { IsQuiet result }
{
    let ScheduledFiles { setup, schedule } = read;
    let SetupFiles {
        plan,
        key,
        placed,
        admissions,
        images,
    } = setup;
    let Ok(device) = device_of(alloc, &plan, placed, key.as_slice(), admissions.as_slice()) else {
        return Err(Stop::Memory);
    };
    let judge = Judge::new(key, images);
    scheduled_run(
        alloc,
        &plan,
        &judge,
        admissions.as_slice(),
        device,
        schedule.as_slice(),
    )
}

/// The output of `sched`: the device file is read, then the schedule, the key, the files of the applications, which are
/// placed, those of the challenges, the images. The device then runs under the schedule. The trace, the consoles, the
/// reports and the notes are to be written, and the lines of the run; the command ends with `Full` where an actor met the
/// full history, else with `Refused` where a challenge was refused or its report isn't accepted. Nothing is written here,
/// and no file is changed.
pub fn prepare_sched<F: Files, P: Parts + Drop>(
    alloc: Global,
    files: &mut F,
    device: &str,
    schedule: &str,
) -> Result<Output<P, TraceParts>, Stop>
    requires { IsName device.now × IsName schedule.now }
    ensures { Reads (λ o. o) (sched_plan device.now schedule.now) result (F.shows files.old) (F.shows files.new) }
{
    let read = read_scheduled(alloc, files, device, schedule)?;
    run_of_files(alloc, read)
}
