//! Schedules.

ghost use Rattle.std.specs.Prelude.{IfOk};
ghost use Rattle.att_base.specs.Files.{IsName};
ghost use Rattle.command_plans.specs.Answered.{Gives, Reads};
ghost use Rattle.schedule_text.specs.Schedules.{IsSchedule, schedule_of};
ghost use Rattle.device_inputs.specs.Inputs.{ScheduleIn, checked_schedule};

use att_base::Files;
use command_plans::{INPUT_LIMIT, Stop, bad_line, read_file};
use schedule_text::{Schedule, ScheduleFault};
use std::alloc::Global;

// The runs of the text, for so many applications.
fn checked_schedule(alloc: Global, name: &str, apps: u32, text: &[u8]) -> Result<Schedule, Stop>
    ensures gives { Gives (λ runs. runs) (checked_schedule name.now (schedule_of apps text.now)) result }
    ensures schedule { IfOk result (IsSchedule apps) }
{
    match schedule_text::read_schedule(alloc, text, apps) {
        Ok(runs) => Ok(runs),
        Err(ScheduleFault::Line(number)) => {
            let line = bad_line(alloc, name, "schedule", number, &[])?;
            Err(Stop::Bad(line))
        }
        Err(ScheduleFault::Memory) => Err(Stop::Memory),
    }
}

/// The schedule in the file of this name, for so many applications, or the line `schedule LINE` with the first line at
/// which it leaves the grammar.
pub fn read_schedule<F: Files>(
    alloc: Global,
    files: &mut F,
    name: &str,
    apps: u32,
) -> Result<Schedule, Stop>
    requires { IsName name.now }
    ensures reads { Reads (λ runs. runs) (ScheduleIn name.now apps) result (F.shows files.old) (F.shows files.new) }
    ensures schedule { IfOk result (IsSchedule apps) }
{
    let text = read_file(alloc, files, name, INPUT_LIMIT)?;
    checked_schedule(alloc, name, apps, &text)
}
