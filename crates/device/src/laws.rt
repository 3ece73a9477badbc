//! The laws of turns and of own entries. Each is a fact about the definitions, by the laws of the crates below, so its
//! function does nothing else.

ghost use Rattle.std.specs.Prelude.{◌≡◌, ◌≢◌, ℕ, ◌+◌, ◌≤◌, true, List, [], ◌∷◌, ◌++◌, length, reverse, None};
ghost use Rattle.history.specs.declared.events.Act.{Act};
ghost use Rattle.history.specs.declared.events.Entry.{Entry};
ghost use Rattle.history.specs.Layout.{Setting, IsSetting};
ghost use Rattle.history.specs.Legal.{IsLegal, lock_allows};
ghost use Rattle.measure.specs.Program.{MayStart};
ghost use Rattle.chronicle.specs.Ports.{entry_by};
ghost use Rattle.device.specs.Setups.{Setup};
ghost use Rattle.device.specs.Runs.{IsRunSoFar, entries_of, next_act};
ghost use Rattle.device.specs.Turns.{IsTurn, RunState, answer_of, turn};

use chronicle::own_entries;
use measure::programs_stay_in_order;

/// An entry more is the last of its own actor's, and changes nothing of those of others.
pub fn entries_are_own()
    ensures own { (history : List Entry) (actor : ℕ) (act : Act)
        → entries_of (history ++ entry_by actor act ∷ []) actor ≡ entries_of history actor ++ entry_by actor act ∷ [] }
    ensures other { (history : List Entry) (actor other : ℕ) (act : Act) → actor ≢ other
        → entries_of (history ++ entry_by other act ∷ []) actor ≡ entries_of history actor }
{
    own_entries();
}

/// Where no pass is open no block is locked, so every act is allowed.
pub fn no_pass_locks_nothing()
    ensures { (w : Setting) (history : List Entry) (act : Act)
        → MayStart w history → lock_allows w (reverse history) act ≡ true }
{}

/// Once the measurer is over, no block is locked: no application waits from then on.
pub fn nobody_waits_at_last()
    ensures { (s : Setup) (history : List Entry) (act : Act)
        → IsSetting s.world → IsRunSoFar s history → next_act s history 0 ≡ None
        → lock_allows s.world (reverse history) act ≡ true }
{
    no_pass_locks_nothing();
    programs_stay_in_order();
}

/// What a turn and its answer say of one another.
pub fn answers_tell()
    ensures { (s : Setup) (state : RunState) (actor : ℕ) → IsSetting s.world → IsRunSoFar s state.history
        → IsTurn s state actor (turn s state actor) (answer_of s state actor) }
{
    nobody_waits_at_last();
}
