//! The turns of a schedule, and the rounds behind them.

ghost use Rattle.std.specs.Prelude.{◌≡◌, ◌+◌, ◌<◌, ◌≤◌, true, false, length, replicate, All};
ghost use Rattle.device.specs.Turns.{AllDone, actors_in, first_state, turn, turns};
ghost use Rattle.sched.specs.Scheduled.{IsScheduled, IsScheduledOutcome, turns_said};
ghost use Rattle.sched.specs.Rounds.{DoneBelow, StopsAtCap, adds_entry, entries_left};

use device::{Device, Outcome, Stepped};
use schedule_text::Run;

// The turns of one run of the schedule.
fn take_turns(device: &mut Device, run: Run)
    requires actor { run.actor ≤ length device.old.setup.programs }
    requires stops_at_cap { StopsAtCap device.old.setup device.old.state }
    ensures setup { device.new.setup ≡ device.old.setup }
    ensures state { device.new.state ≡ turns device.old.setup device.old.state (replicate run.turns run.actor) }
    ensures stops_at_cap { StopsAtCap device.new.setup device.new.state }
{
    for _turn in 0..run.turns {
        take_turn(device, run.actor);
    }
}

// The turns of a schedule, run after run.
fn take_schedule(device: &mut Device, schedule: &[Run])
    requires actors { All (λ run. run.actor ≤ length device.old.setup.programs) schedule.now }
    requires stops_at_cap { StopsAtCap device.old.setup device.old.state }
    ensures setup { device.new.setup ≡ device.old.setup }
    ensures state { device.new.state ≡ turns device.old.setup device.old.state (turns_said schedule.now) }
    ensures stops_at_cap { StopsAtCap device.new.setup device.new.state }
{
    for run in schedule {
        take_turns(device, *run);
    }
}

// The turn was an entry.
fn adds_entry(stepped: Stepped) -> bool
    ensures { result ≡ adds_entry stepped }
{
    match stepped {
        Stepped::Made { .. } => true,
        Stepped::Over | Stepped::Again { .. } | Stepped::Full { .. } => false,
    }
}

// One turn. It says whether it was an entry; where not, and each actor before is done, this one is too.
fn take_turn(device: &mut Device, actor: u32) -> bool
    requires actor { actor ≤ length device.old.setup.programs }
    requires stops_at_cap { StopsAtCap device.old.setup device.old.state }
    ensures setup { device.new.setup ≡ device.old.setup }
    ensures state { device.new.state ≡ turn device.old.setup device.old.state actor }
    ensures stops_at_cap { StopsAtCap device.new.setup device.new.state }
    ensures left { entries_left device.new.setup device.new.state ≤ entries_left device.old.setup device.old.state }
    ensures went { result ≡ true
        → entries_left device.new.setup device.new.state < entries_left device.old.setup device.old.state }
    ensures done { result ≡ false → DoneBelow device.old.setup device.old.state actor
        → DoneBelow device.new.setup device.new.state (actor + 1) }
{
    adds_entry(device.step(actor))
}

// One turn of each actor. It says whether any of them made its entry: else all of them are done.
fn round(device: &mut Device) -> bool
    requires stops_at_cap { StopsAtCap device.old.setup device.old.state }
    ensures setup { device.new.setup ≡ device.old.setup }
    ensures state { device.new.state ≡ turns device.old.setup device.old.state (actors_in device.old.setup) }
    ensures stops_at_cap { StopsAtCap device.new.setup device.new.state }
    ensures went { result ≡ true
        → entries_left device.new.setup device.new.state < entries_left device.old.setup device.old.state }
    ensures done { result ≡ false → AllDone device.new.setup device.new.state }
{
    let mut went = false;
    for actor in 0..device.actors() {
        went |= take_turn(device, actor);
    }
    went
}

// The turns of a schedule, and then rounds until one is without an entry.
fn take_all_turns(device: &mut Device, schedule: &[Run])
    requires actors { All (λ run. run.actor ≤ length device.old.setup.programs) schedule.now }
    requires fresh { device.old.state ≡ first_state device.old.setup }
    ensures setup { device.new.setup ≡ device.old.setup }
    ensures scheduled { IsScheduled device.old.setup schedule.now device.new.state }
{
    take_schedule(device, schedule);
    while round(device) {}
}

/// Runs a device on which no turn was made: the turns of the schedule, one after the other, and then rounds in which
/// the measurer and each application have one turn each, until all of them are done. A turn of an actor that is over or
/// was stopped is passed over. Any other turn is one entry, a wait for a lock, or the stop by a full history.
///
/// It always returns, and takes no memory. An application's `waits` counts its waits, and its `waited` is the history's
/// length at the last of them.
pub fn run_schedule(device: Device, schedule: &[Run]) -> Outcome
    requires actors { All (λ run. run.actor ≤ length device.setup.programs) schedule.now }
    requires fresh { device.state ≡ first_state device.setup }
    ensures { IsScheduledOutcome device.setup schedule.now result }
{
    let mut device = device;
    take_all_turns(&mut device, schedule);
    device.finish()
}
