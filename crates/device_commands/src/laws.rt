//! Laws about runs, each a contract with nothing to run: what is written of a run can be written, under different names; and
//! which runs are whole.

ghost use Rattle.std.specs.Prelude.{◌≡◌, ℕ, ◌^◌, ◌<◌, Bool, true, false, List, length, All, Ok};
ghost use Rattle.history.specs.declared.events.Act.{Act};
ghost use Rattle.history.specs.declared.events.Entry.{Entry};
ghost use Rattle.history.specs.Layout.{IsSetting};
ghost use Rattle.history.specs.Legal.{IsLegal};
ghost use Rattle.challenge.specs.declared.Challenge.{Challenge};
ghost use Rattle.trace.specs.Printable.{IsPrintable};
ghost use Rattle.device_config.specs.declared.plans.DevicePlan.{DevicePlan};
ghost use Rattle.device_config.specs.Files.{device_file};
ghost use Rattle.device_config.specs.Names.{all_different};
ghost use Rattle.schedule_text.specs.declared.reading.Run.{Run};
ghost use Rattle.device.specs.declared.outcomes.Outcome.{Outcome};
ghost use Rattle.device.specs.declared.outcomes.PassEnd.{PassEnd};
ghost use Rattle.device.specs.Outcomes.{ArePassEnds};
ghost use Rattle.device.specs.Runs.{IsRunSoFar};
ghost use Rattle.device.specs.Setups.{Setup};
ghost use Rattle.sched.specs.Scheduled.{IsScheduledOutcome};
ghost use Rattle.device_inputs.specs.declared.admitting.Admission.{Admission};
ghost use Rattle.device_commands.specs.declared.ends.ChallengeEnd.{ChallengeEnd};
ghost use Rattle.device_commands.specs.ChallengeEnds.{IsSoundPass, Judge};
ghost use Rattle.device_commands.specs.Plans.{IsThreadedOutcome};
ghost use Rattle.device_commands.specs.RunWritten.{IsFinishedRun, is_cut, is_full_ending, names_of, run_files, written_of};

use trace::legal_entries_are_printable;

/// The reports and the notes of a run's measurements are in their grammars.
pub fn measurements_are_sound()
    ensures { (s : Setup) → IsSetting s.world → (history : List Entry) → IsLegal s.world history
        → (made : List Act) (challenges : List Challenge) (ends : List PassEnd)
        → ArePassEnds s history made challenges ends → All IsSoundPass ends }
{}

/// The entries of a run are in the ranges of a trace's text: an application stores values that fit their widths.
pub fn runs_are_printable()
    ensures { (s : Setup) → IsSetting s.world → All (λ c. c.counter < 2 ^ 64) s.challenges
        → (history : List Entry) → IsRunSoFar s history → All IsPrintable history }
{
    legal_entries_are_printable();
}

/// The files that are written of a run have different names, since those that the device file names differ.
pub fn files_have_different_names()
    ensures { (text : List ℕ) (plan : DevicePlan) → device_file text ≡ Ok plan → (ends : List ChallengeEnd) (outcome : Outcome)
        → all_different (names_of (run_files plan ends outcome)) ≡ true }
{}

/// A run in which no actor met a full history is whole: every application has ended by itself, and every challenge that the
/// device serves has its report and, in an extended discipline, its note. No actor meets it where the history is below its
/// cap. This holds of runs on threads and of scheduled runs alike.
pub fn uncut_runs_are_finished()
    ensures threaded { (s : Setup) (outcome : Outcome) → IsThreadedOutcome s outcome
        → is_cut outcome ≡ false → IsFinishedRun s outcome }
    ensures threaded_below { (s : Setup) (outcome : Outcome) → IsThreadedOutcome s outcome
        → length outcome.chronicle.entries < s.world.cap → is_cut outcome ≡ false }
    ensures scheduled { (s : Setup) (schedule : List Run) (outcome : Outcome) → IsScheduledOutcome s schedule outcome
        → is_cut outcome ≡ false → IsFinishedRun s outcome }
    ensures scheduled_below { (s : Setup) (schedule : List Run) (outcome : Outcome) → IsScheduledOutcome s schedule outcome
        → length outcome.chronicle.entries < s.world.cap → is_cut outcome ≡ false }
{}

/// The command ends with `Full` exactly where an actor met a full history.
pub fn cut_runs_end_full()
    ensures { (plan : DevicePlan) (by : Judge) (admissions : List Admission) (shows_waits : Bool) (outcome : Outcome)
        → is_full_ending (written_of plan by admissions shows_waits outcome).ending ≡ is_cut outcome }
{}
