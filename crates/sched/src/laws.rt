//! The law of scheduled runs. It is a fact about the definitions, so its function does nothing else.

ghost use Rattle.std.specs.Prelude.{◌≡◌, List};
ghost use Rattle.schedule_text.specs.declared.reading.Run.{Run};
ghost use Rattle.device.specs.Setups.{Setup};
ghost use Rattle.device.specs.Turns.{RunState};
ghost use Rattle.sched.specs.Scheduled.{IsScheduled};

/// Under one schedule a device comes to one state: the number of rounds behind it is no choice, since a turn of an actor
/// that is done changes nothing.
pub fn one_scheduled_run()
    ensures { (s : Setup) (schedule : List Run) (a b : RunState)
        → IsScheduled s schedule a → IsScheduled s schedule b → a ≡ b }
{}
