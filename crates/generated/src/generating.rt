//! What is generated.

ghost use Rattle.std.specs.Prelude.{◌≡◌, ◌≤◌, ◌<◌, ◌^◌, length, All, IfOk, OnOk};
ghost use Rattle.history.specs.Layout.{IsSetting};
ghost use Rattle.device.specs.Turns.{first_state};
ghost use Rattle.generated.specs.Generated.{generated_schedule, generated_setup};

use crate::asking::challenges_of;
use crate::devices::{entries_of, plan_of};
use crate::draws::Draws;
use crate::memories::image_of;
use crate::schedules::schedule_of;
use device::Device;
use listed::Bytes;
use loader::Placed;
use schedule_text::Schedule;
use std::alloc::{AllocError, Global};

/// The key of a generated device.
pub const GENERATED_KEY: &[u8] = b"gen";

/// A device before its first turn, and a schedule for it.
#[derive(Drop)]
pub struct Generated {
    /// The device.
    pub device: Device,
    /// The runs of turns, of the measurer and its eight applications.
    pub schedule: Schedule,
}

// The device, whose draws are the first.
fn device_of(alloc: Global, draws: &mut Draws) -> Result<Device, AllocError>
    requires { draws.old.count ≡ 0 }
    ensures setup { IfOk result (λ device. device.setup ≡ generated_setup draws.old.seed) }
    ensures state { IfOk result (λ device. device.state ≡ first_state device.setup) }
    ensures world { IfOk result (λ device. IsSetting device.setup.world) }
    ensures seed { OnOk result (draws.new.seed ≡ draws.old.seed) }
    ensures count { OnOk result (draws.new.count ≡ 23) }
{
    let plan = plan_of(alloc)?;
    let placed = Placed {
        image: Bytes::from_vec(image_of(alloc, draws)?),
        entries: entries_of(alloc)?,
    };
    let admitted = challenges_of(alloc, draws)?;
    let key = Vec::from_slice(alloc, GENERATED_KEY)?;
    Device::make(alloc, &plan, placed, key, admitted)
}

/// The device and the schedule that are drawn from a number. Only want of memory refuses it.
pub fn generate(alloc: Global, seed: u64) -> Result<Generated, AllocError>
    ensures setup { IfOk result (λ made. made.device.setup ≡ generated_setup seed) }
    ensures state { IfOk result (λ made. made.device.state ≡ first_state made.device.setup) }
    ensures schedule { IfOk result (λ made. made.schedule ≡ generated_schedule seed) }
    ensures world { IfOk result (λ made. IsSetting made.device.setup.world) }
    ensures actors { IfOk result (λ made. All (λ run. run.actor ≤ length made.device.setup.programs) made.schedule) }
{
    let mut draws = Draws::new(seed);
    let device = device_of(alloc, &mut draws)?;
    let schedule = schedule_of(alloc, &mut draws)?;
    Ok(Generated { device, schedule })
}
