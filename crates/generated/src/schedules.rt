//! The generated schedule.

ghost use Rattle.std.specs.Prelude.{◌≡◌, ◌<◌, ◌≤◌, ◌+◌, ◌*◌, IfOk, All};
ghost use Rattle.generated.specs.Generated.{generated_run, generated_schedule};

use crate::draws::Draws;
use listed::Items;
use schedule_text::{Run, Schedule};
use std::alloc::{AllocError, Global};

/// How many runs there are.
const RUNS: usize = 4000;

// One run.
fn run_of(draws: &mut Draws, k: usize) -> Run
    requires few { k < 4000 }
    requires count { draws.old.count ≡ 2 * k + 23 }
    ensures value { result ≡ generated_run draws.old.seed k }
    ensures actor { result.actor ≤ 8 }
    ensures seed { draws.new.seed ≡ draws.old.seed }
    ensures count { draws.new.count ≡ 2 * k + 25 }
{
    let actor = draws.below(9);
    let turns = 1 + draws.below(16);
    Run { actor, turns }
}

/// The runs, each of the measurer or one of the eight applications.
pub fn schedule_of(alloc: Global, draws: &mut Draws) -> Result<Schedule, AllocError>
    requires { draws.old.count ≡ 23 }
    ensures items { IfOk result (λ schedule. schedule ≡ generated_schedule draws.old.seed) }
    ensures actors { IfOk result (λ schedule. All (λ run. run.actor ≤ 8) schedule) }
{
    let mut runs = Vec::with_capacity(alloc, RUNS)?;
    for k in 0..RUNS {
        runs.push(run_of(draws, k))?;
    }
    Ok(Items::from_vec(runs))
}
