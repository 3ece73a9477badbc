//! All that a run of a device reads.

ghost use Rattle.std.specs.Prelude.{◌≡◌, IfOk};
ghost use Rattle.att_base.specs.Files.{IsName};
ghost use Rattle.command_plans.specs.Answered.{Reads};
ghost use Rattle.device_config.specs.Plans.{IsDevicePlan};
ghost use Rattle.device_inputs.specs.Setups.{IsScheduledFiles, IsSetupFiles, NamedIn, ScheduledIn, SetupIn};

use crate::admitting::Admission;
use crate::applications::read_placed;
use crate::challenges::read_admissions;
use crate::device::read_device;
use crate::schedules::read_schedule;
use att_base::Files;
use command_plans::Stop;
use device_config::DevicePlan;
use image_set::ImageSet;
use input_files::{image_shape, read_images, read_key};
use listed::{Bytes, Items};
use loader::Placed;
use schedule_text::Schedule;
use std::alloc::Global;

/// What a device file says, and the files that it names.
#[derive(Drop)]
pub struct SetupFiles {
    /// What the device file says.
    pub plan: DevicePlan,
    /// The key, of 1 to 1,024 bytes.
    pub key: Bytes,
    /// The applications in memory.
    pub placed: Placed,
    /// What becomes of each challenge, in order.
    pub admissions: Items<Admission>,
    /// The known images of the attested blocks.
    pub images: ImageSet,
}

/// The same, with a schedule for its applications.
#[derive(Drop)]
pub struct ScheduledFiles {
    /// What the device file says, and the files that it names.
    pub setup: SetupFiles,
    /// In which order the actors take their turns.
    pub schedule: Schedule,
}

/// What the files say that a device's plan names, in the order in which a run reads them: the key, the files of the
/// applications, which are then placed, those of the challenges, the images. `device` is the device file's name, by
/// which a fault of placing is told.
pub fn read_named<F: Files>(
    alloc: Global,
    files: &mut F,
    device: &str,
    plan: DevicePlan,
) -> Result<SetupFiles, Stop>
    requires { IsDevicePlan plan }
    ensures reads { Reads (λ setup. setup) (NamedIn device.now plan) result (F.shows files.old) (F.shows files.new) }
    ensures plan { IfOk result (λ setup. setup.plan ≡ plan) }
    ensures setup { IfOk result IsSetupFiles }
{
    let key = read_key(alloc, files, plan.key.as_str())?;
    let placed = read_placed(alloc, files, device, &plan)?;
    let admissions = read_admissions(alloc, files, &key, plan.last, plan.challenges.as_slice())?;
    let shape = image_shape(&plan.geometry, plan.ranges);
    let images = read_images(alloc, files, shape, plan.images.as_slice())?;
    let key = Bytes::from_vec(key);
    Ok(SetupFiles {
        plan,
        key,
        placed,
        admissions,
        images,
    })
}

/// What a run reads: the device file of this name, and then the files that it names.
pub fn read_setup<F: Files>(alloc: Global, files: &mut F, device: &str) -> Result<SetupFiles, Stop>
    requires { IsName device.now }
    ensures reads { Reads (λ setup. setup) (SetupIn device.now) result (F.shows files.old) (F.shows files.new) }
    ensures setup { IfOk result IsSetupFiles }
{
    let plan = read_device(alloc, files, device)?;
    read_named(alloc, files, device, plan)
}

/// What a scheduled run reads: the device file, then the schedule for its applications, then the files that the device
/// file names.
pub fn read_scheduled<F: Files>(
    alloc: Global,
    files: &mut F,
    device: &str,
    schedule: &str,
) -> Result<ScheduledFiles, Stop>
    requires { IsName device.now × IsName schedule.now }
    ensures reads { Reads (λ setup. setup) (ScheduledIn device.now schedule.now) result (F.shows files.old) (F.shows files.new) }
    ensures setup { IfOk result IsScheduledFiles }
{
    let plan = read_device(alloc, files, device)?;
    let apps = plan.apps.len() as u32;
    let schedule = read_schedule(alloc, files, schedule, apps)?;
    let setup = read_named(alloc, files, device, plan)?;
    Ok(ScheduledFiles { setup, schedule })
}
