//! The device of what was read, and what is known of its parts.

ghost use Rattle.std.specs.Prelude.{◌≡◌, ◌^◌, ◌<◌, ◌+◌, ◌∷◌, true, length, All, IfOk};
ghost use Rattle.std.specs.List.Sorted.{IsStrictlyIncreasing};
ghost use Rattle.history.specs.Layout.{IsSetting, byte_count};
ghost use Rattle.challenge.specs.declared.Challenge.{Challenge};
ghost use Rattle.challenge.specs.Challenges.{IsChallenge};
ghost use Rattle.loader.specs.Placing.{is_entry};
ghost use Rattle.device_config.specs.Plans.{IsDevicePlan};
ghost use Rattle.device_inputs.specs.Admissions.{counters, served};
ghost use Rattle.device.specs.Setups.{setup_of};
ghost use Rattle.device.specs.Turns.{first_state};

use crate::ends::served;
use challenge::Challenge;
use device::Device;
use device_config::DevicePlan;
use device_inputs::Admission;
use loader::Placed;
use std::alloc::{AllocError, Global};

// Bytes are below 256.
fn bytes_fit(bytes: &[u8])
    ensures { All (λ byte. byte < 256) bytes.now }
{
    let _count = bytes.len();
}

// A counter has 64 bits.
fn counter_fits(challenge: &Challenge)
    ensures { challenge.now.counter < 2 ^ 64 }
{
    let _counter = challenge.counter;
}

// Counters have 64 bits.
fn counters_fit(challenges: &[Challenge])
    ensures { All (λ c. c.counter < 2 ^ 64) challenges.now }
{
    for challenge in challenges {
        counter_fits(challenge);
    }
}

/// The device of a plan, of its applications in memory, of its key and of the challenges that it serves, before its first
/// turn. Only want of memory refuses it.
pub fn device_of(
    alloc: Global,
    plan: &DevicePlan,
    placed: Placed,
    key: &[u8],
    admissions: &[Admission],
) -> Result<Device, AllocError>
    requires plan { IsDevicePlan plan.now }
    requires image { length placed.image ≡ byte_count plan.now.geometry }
    requires entries { length placed.entries ≡ length plan.now.apps }
    requires each_entry { All (λ entry. is_entry plan.now.geometry entry ≡ true) placed.entries }
    requires valid { All IsChallenge (served admissions.now) }
    requires rising { IsStrictlyIncreasing (plan.now.last ∷ counters (served admissions.now)) }
    ensures setup { IfOk result (λ device. device.setup ≡ setup_of plan.now placed key.now (served admissions.now)) }
    ensures fresh { IfOk result (λ device. device.state ≡ first_state device.setup) }
    ensures world { IfOk result (λ device. IsSetting device.setup.world) }
    ensures programs { IfOk result (λ device. length device.setup.programs ≡ length plan.now.apps) }
    ensures counters { IfOk result (λ device. All (λ c. c.counter < 2 ^ 64) device.setup.challenges) }
{
    bytes_fit(placed.image.as_slice());
    let admitted = served(alloc, admissions)?;
    counters_fit(&admitted);
    let key = key.to_vec(alloc)?;
    Device::make(alloc, plan, placed, key, admitted)
}
