//! The command `run`: a device runs on threads, and what has come of it is to be written.

ghost use Rattle.std.specs.Prelude.{◌≡◌, ◌^◌, ◌<◌, [], All};
ghost use Rattle.att_base.specs.Files.{IsName};
ghost use Rattle.history.specs.Layout.{IsSetting};
ghost use Rattle.device_config.specs.Plans.{IsDevicePlan};
ghost use Rattle.device_inputs.specs.Setups.{IsSetupFiles};
ghost use Rattle.command_plans.specs.Answered.{IsQuiet, Reads, came_of};
ghost use Rattle.device.specs.Turns.{first_state};
ghost use Rattle.device_commands.specs.Plans.{ThreadedRun, ThreadedRunOfFiles, run_plan};

use crate::ends::Judge;
use crate::laws::{measurements_are_sound, runs_are_printable};
use crate::outputs::run_output;
use crate::setting_up::device_of;
use crate::trace_parts::TraceParts;
use att_base::{Files, Gate};
use command_plans::{Output, Parts, Stop};
use device::Device;
use device_config::DevicePlan;
use device_inputs::{Admission, SetupFiles, read_setup};
use std::alloc::Global;
use std::sync::Wait;
use std::thread::Threads;

// What is written of a device's run on threads.
fn threaded_run<P: Parts + Drop, R: Threads + Wait + Sync, G: Gate + Sync>(
    alloc: Global,
    plan: &DevicePlan,
    judge: &Judge,
    admissions: &[Admission],
    device: Device,
    rt: &R,
    gate: &G,
) -> Result<Output<P, TraceParts>, Stop>
    requires plan { IsDevicePlan plan.now }
    requires world { IsSetting device.setup.world }
    requires counters { All (λ c. c.counter < 2 ^ 64) device.setup.challenges }
    requires fresh { device.state ≡ first_state device.setup }
    ensures comes { ThreadedRun device.setup plan.now judge.now admissions.now [] (came_of (λ o. o) result) }
    ensures quiet { IsQuiet result }
{
    measurements_are_sound();
    runs_are_printable();
    let Ok(device) = device.share(alloc) else {
        return Err(Stop::Memory);
    };
    let outcome = device.run_threads(rt, gate);
    run_output(alloc, plan, judge, admissions, false, outcome)
}

// What is written of the run that these files give.
fn run_of_files<P: Parts + Drop, R: Threads + Wait + Sync, G: Gate + Sync>(
    alloc: Global,
    read: SetupFiles,
    rt: &R,
    gate: &G,
) -> Result<Output<P, TraceParts>, Stop>
    requires { IsSetupFiles read }
    ensures comes { ThreadedRunOfFiles read [] (came_of (λ o. o) result) }
    ensures quiet { IsQuiet result }
{
    let SetupFiles {
        plan,
        key,
        placed,
        admissions,
        images,
    } = read;
    let Ok(device) = device_of(alloc, &plan, placed, key.as_slice(), admissions.as_slice()) else {
        return Err(Stop::Memory);
    };
    let judge = Judge::new(key, images);
    threaded_run(
        alloc,
        &plan,
        &judge,
        admissions.as_slice(),
        device,
        rt,
        gate,
    )
}

/// The output of `run`: the device file is read, then the key, the files of the applications, which are placed, those of
/// the challenges, the images. The measurer and the applications of the device then run, each in a thread of its own, until
/// each is over or the history is full; where no thread can be made, they run one after another. The trace, the consoles,
/// the reports and the notes are to be written, and the lines of the run, without those on waiting; the command ends as
/// `sched` does. Nothing is written here, and no file is changed.
///
/// The gate is told of each entry and of each wait. The call may wait for ever, where a block stays locked.
pub fn prepare_run<F: Files, P: Parts + Drop, R: Threads + Wait + Sync, G: Gate + Sync>(
    alloc: Global,
    files: &mut F,
    device: &str,
    rt: &R,
    gate: &G,
) -> Result<Output<P, TraceParts>, Stop>
    requires { IsName device.now }
    ensures { Reads (λ o. o) (run_plan device.now) result (F.shows files.old) (F.shows files.new) }
{
    let read = read_setup(alloc, files, device)?;
    run_of_files(alloc, read, rt, gate)
}
