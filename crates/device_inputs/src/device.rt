//! Device files.

ghost use Rattle.std.specs.Prelude.{◌≡◌, IfOk};
ghost use Rattle.att_base.specs.Files.{IsName};
ghost use Rattle.command_plans.specs.Answered.{Gives, Reads};
ghost use Rattle.device_config.specs.Files.{device_file};
ghost use Rattle.device_config.specs.Plans.{IsDevicePlan};
ghost use Rattle.device_inputs.specs.Inputs.{DeviceIn, checked_device};

use att_base::{DeviceFault, Files};
use command_plans::{INPUT_LIMIT, Stop, bad_line, read_file};
use device_config::DevicePlan;
use std::alloc::Global;

// What the bytes of a device file say.
fn checked_device(alloc: Global, name: &str, text: &[u8]) -> Result<DevicePlan, Stop>
    ensures gives { Gives (λ plan. plan) (checked_device name.now (device_file text.now)) result }
    ensures plan { IfOk result IsDevicePlan }
{
    match device_config::read_device(alloc, text) {
        Ok(plan) => Ok(plan),
        Err(DeviceFault::Rule(rule)) => {
            let line = bad_line(alloc, name, "device", u64::from(rule), &[])?;
            Err(Stop::Bad(line))
        }
        Err(DeviceFault::Memory) => Err(Stop::Memory),
    }
}

/// What the device file of this name says, or the line `device N` with the first rule that it breaks.
pub fn read_device<F: Files>(alloc: Global, files: &mut F, name: &str) -> Result<DevicePlan, Stop>
    requires { IsName name.now }
    ensures reads { Reads (λ plan. plan) (DeviceIn name.now) result (F.shows files.old) (F.shows files.new) }
    ensures plan { IfOk result IsDevicePlan }
{
    let text = read_file(alloc, files, name, INPUT_LIMIT)?;
    checked_device(alloc, name, &text)
}
