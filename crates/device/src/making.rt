//! The parts of a device before its first turn.

ghost use Rattle.std.specs.Prelude.{◌≡◌, ℕ, ◌%◌, ◌≤◌, [], List, length, map, All, IfOk, vec_len, vec_capacity};
ghost use Rattle.history.specs.Layout.{Setting, IsSetting};
ghost use Rattle.challenge.specs.Challenges.{IsChallenge};
ghost use Rattle.device.specs.Setups.{program_of_app, programs_at};
ghost use Rattle.device.specs.Turns.{fresh};
ghost use Rattle.device.specs.Keeping.{IsFreshSlot, IsMeasuring, program_of_slot};

use crate::passes::{Passes, measurement_for};
use crate::slots::Slot;
use crate::tallies::Tally;
use app_thread::App;
use block_memory::Geometry;
use challenge::Challenge;
use device_config::AppPlan;
use rv_core::CONSOLE_BYTES;
use std::alloc::{AllocError, Global};

/// An actor without a turn.
const FRESH: Tally = Tally {
    stopped: false,
    waits: 0,
    waited: None,
};

// An application before its first instruction.
fn slot_of(alloc: Global, geometry: Geometry, app: &AppPlan, entry: u32) -> Result<Slot, AllocError>
    requires { entry % 4 ≡ 0 }
    ensures program { IfOk result (λ slot. program_of_slot geometry slot ≡ program_of_app geometry app.now entry) }
    ensures fresh { IfOk result (IsFreshSlot geometry) }
{
    let console = Vec::with_capacity(alloc, CONSOLE_BYTES)?;
    Ok(Slot {
        app: App::new(geometry, entry, app.stack, app.fuel),
        entry,
        stack: app.stack,
        fuel: app.fuel,
        tally: FRESH,
        console,
    })
}

/// The applications before their first instructions, which stand at these addresses.
pub fn slots_of(
    alloc: Global,
    geometry: Geometry,
    apps: &[AppPlan],
    entries: &[u32],
) -> Result<Vec<Slot>, AllocError>
    requires count { length entries.now ≡ length apps.now }
    requires aligned { All (λ entry. entry % 4 ≡ 0) entries.now }
    ensures programs { IfOk result
        (λ slots. map (program_of_slot geometry) slots.items ≡ programs_at geometry apps.now entries.now) }
    ensures fresh { IfOk result (λ slots. All (IsFreshSlot geometry) slots.items) }
{
    let mut slots = Vec::with_capacity(alloc, apps.len())?;
    for (k, app) in apps.iter().enumerate() {
        slots.push(slot_of(alloc, geometry, app, entries[k])?)?;
    }
    Ok(slots)
}

/// The measurer before its first turn.
pub fn passes_of(alloc: Global, challenges: Vec<Challenge>) -> Result<Passes, AllocError>
    requires { All IsChallenge challenges.items }
    ensures challenges { IfOk result (λ passes. passes.challenges ≡ challenges) }
    ensures tally { IfOk result (λ passes. passes.tally ≡ fresh) }
    ensures measuring { IfOk result
        (λ passes. (key : List ℕ) (w : Setting) → IsSetting w → IsMeasuring key w [] passes) }
{
    measure::measuring_stands();
    let ends = Vec::with_capacity(alloc, challenges.len())?;
    let under_way = measurement_for(&challenges, 0);
    Ok(Passes {
        challenges,
        ends,
        under_way,
        tally: FRESH,
    })
}
