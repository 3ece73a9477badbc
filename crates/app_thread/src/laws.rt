//! The laws of turns, for whoever keeps an application's run. Each is a fact about the definitions, by the laws of the
//! crates below, so its function does nothing else.

ghost use Rattle.std.specs.Prelude.{◌≡◌, ℕ, ◌<◌, List};
ghost use Rattle.history.specs.declared.events.Entry.{Entry};
ghost use Rattle.history.specs.Layout.{Setting};
ghost use Rattle.history.specs.Memory.{own};
ghost use Rattle.rv_core.specs.declared.waits.Ending.{Ending};
ghost use Rattle.rv_core.specs.Runs.{AppProgram, ProgramState, IsBegunRun, IsWholeRun};
ghost use Rattle.chronicle.specs.Ports.{OthersFollow};
ghost use Rattle.app_thread.specs.declared.turns.Turn.{Turn};
ghost use Rattle.app_thread.specs.declared.turns.Turn.TheVariants as turn;
ghost use Rattle.app_thread.specs.Turns.{FindsLocked, HasTurned};
ghost use Rattle.app_thread.specs.WholeRuns.{GoesOn, WaitsAt};

use chronicle::{answers_add_own_entries, own_entries};
use rv_core::runs_grow_by_one;

/// Turns go on from one another: where the entries that a port has seen of its own actors are a begun run, and the
/// application stands at its end, this is so after a turn too. Others' entries don't count. Where the application was
/// over, the run is whole with that ending.
pub fn turns_go_on()
    ensures begun { (w : Setting) (low high : ℕ) (old new : List Entry) (before after : ProgramState) (how : Turn) (start : AppProgram)
        → low < high → HasTurned w low high old new before after how
        → IsBegunRun start (own old low high) before → IsBegunRun start (own new low high) after }
    ensures whole { (w : Setting) (low high : ℕ) (old new : List Entry) (before after : ProgramState) (ending : Ending) (start : AppProgram)
        → HasTurned w low high old new before after (turn.Over ending)
        → IsBegunRun start (own old low high) before → IsWholeRun start (own new low high) ending after }
{
    answers_add_own_entries();
    runs_grow_by_one();
}

/// How runs compose, for whoever joins their parts: from one list to a longer one and on to a longer one yet, where
/// others' entries change nothing. What a run has gone on by are the range's own entries. And a store that waited in a
/// part of a run has waited in the whole.
pub fn runs_compose()
    ensures none { (low high : ℕ) (history : List Entry) (at : ProgramState) → GoesOn low high history history at at }
    ensures others { (low high : ℕ) (old new : List Entry) (at : ProgramState)
        → OthersFollow low high old new → GoesOn low high old new at at }
    ensures more { (low high : ℕ) (first second third : List Entry) (before middle after : ProgramState)
        → GoesOn low high first second before middle → GoesOn low high second third middle after
        → GoesOn low high first third before after }
    ensures own { (low high : ℕ) (old new : List Entry) (before after : ProgramState) (start : AppProgram)
        → GoesOn low high old new before after
        → IsBegunRun start (own old low high) before → IsBegunRun start (own new low high) after }
    ensures turn { (w : Setting) (low high : ℕ) (old new : List Entry) (before after : ProgramState) (how : Turn)
        → low < high → HasTurned w low high old new before after how → GoesOn low high old new before after }
    ensures waits { (w : Setting) (low high : ℕ) (old new : List Entry) (at : ProgramState) (place : ℕ)
        → FindsLocked w low high old new at place → WaitsAt w low high old new at place }
    ensures waits_later { (w : Setting) (low high : ℕ) (old middle new : List Entry) (before at after : ProgramState) (place : ℕ)
        → WaitsAt w low high old middle before place → GoesOn low high middle new at after
        → WaitsAt w low high old new before place }
    ensures waits_earlier { (w : Setting) (low high : ℕ) (old middle new : List Entry) (before at : ProgramState) (place : ℕ)
        → GoesOn low high old middle before at → WaitsAt w low high middle new at place
        → WaitsAt w low high old new before place }
{
    answers_add_own_entries();
    own_entries();
    runs_grow_by_one();
}
