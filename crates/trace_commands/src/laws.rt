//! A law about runs: a contract with nothing to run.

ghost use Rattle.std.specs.Prelude.{◌≡◌, ℕ, true, false, List, All};
ghost use Rattle.std.specs.List.{list_all};
ghost use Rattle.history.specs.Layout.{IsSetting};
ghost use Rattle.schedule_text.specs.declared.reading.Run.{Run};
ghost use Rattle.device.specs.declared.outcomes.Outcome.{Outcome};
ghost use Rattle.device.specs.Setups.{Setup};
ghost use Rattle.sched.specs.Scheduled.{IsScheduledOutcome};
ghost use Rattle.device_commands.specs.Plans.{IsThreadedOutcome};
ghost use Rattle.device_commands.specs.RunWritten.{is_cut};
ghost use Rattle.generated.specs.Generated.{generated_key, generated_schedule, generated_setup};
ghost use Rattle.trace_commands.specs.GeneratedRuns.{FitsChallenge, is_confirmed_end, report_ends};

use device_commands::measurements_are_sound;
use report::one_report;
use trace::confirmed_is_exact;

/// Of a run in which no actor met a full history every report is made, and confirmed: its bytes, read again, are told Yes by
/// the run's own history, under the device's key. This holds of runs on threads and of scheduled runs alike, and so of the
/// generated ones.
pub fn uncut_runs_are_confirmed()
    ensures threaded { (s : Setup) → IsSetting s.world → All FitsChallenge s.challenges
        → (outcome : Outcome) → IsThreadedOutcome s outcome → is_cut outcome ≡ false
        → list_all is_confirmed_end (report_ends s.key outcome.chronicle outcome.passes) ≡ true }
    ensures scheduled { (s : Setup) → IsSetting s.world → All FitsChallenge s.challenges
        → (schedule : List Run) (outcome : Outcome) → IsScheduledOutcome s schedule outcome → is_cut outcome ≡ false
        → list_all is_confirmed_end (report_ends s.key outcome.chronicle outcome.passes) ≡ true }
    ensures generated { (seed : ℕ) → IsSetting (generated_setup seed).world
        → (outcome : Outcome) → IsScheduledOutcome (generated_setup seed) (generated_schedule seed) outcome → is_cut outcome ≡ false
        → list_all is_confirmed_end (report_ends generated_key outcome.chronicle outcome.passes) ≡ true }
{
    measurements_are_sound();
    one_report();
    confirmed_is_exact();
}
