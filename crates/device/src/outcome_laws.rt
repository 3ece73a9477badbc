//! One history has one outcome: the laws behind it, and at last the whole. Each is a fact about the definitions, so its
//! function does nothing else.

ghost use Rattle.std.specs.Prelude.{◌≡◌, ℕ, ◌≤◌, IsTrue, List, map};
ghost use Rattle.history.specs.declared.events.Discipline.{Discipline};
ghost use Rattle.history.specs.declared.events.Act.{Act};
ghost use Rattle.history.specs.declared.events.Entry.{Entry};
ghost use Rattle.history.specs.Layout.{Setting};
ghost use Rattle.history.specs.Pass.{is_extended};
ghost use Rattle.history.specs.Instants.{EndsAt, ReleasesAt};
ghost use Rattle.history.specs.Legal.{IsLegal};
ghost use Rattle.challenge.specs.declared.Challenge.{Challenge};
ghost use Rattle.report.specs.declared.Note.{Note};
ghost use Rattle.report.specs.declared.Report.{Report};
ghost use Rattle.rv_core.specs.Runs.{AppProgram};
ghost use Rattle.measure.specs.Measured.{IsNoteOn, IsReportOn};
ghost use Rattle.device.specs.declared.outcomes.AppEnd.{AppEnd};
ghost use Rattle.device.specs.declared.outcomes.PassEnd.{PassEnd};
ghost use Rattle.device.specs.declared.tallies.Tally.{Tally};
ghost use Rattle.device.specs.Setups.{Rise, Setup};
ghost use Rattle.device.specs.Runs.{IsRunSoFar};
ghost use Rattle.device.specs.Once.{StartsOnce};
ghost use Rattle.device.specs.Outcomes.{AreAppEnds, ArePassEnds, HaveWaited, ended_and_printed};

/// A pass of a legal history has one End, and is released in one place; a pass of an extended discipline that has ended
/// is released somewhere from its End on, at least at the history's end.
pub fn passes_end_once()
    ensures ends { (w : Setting) (history : List Entry) → IsLegal w history
        → (form : Discipline) (number start end other : ℕ)
        → EndsAt history form number start end → EndsAt history form number start other → end ≡ other }
    ensures releases { (w : Setting) (history : List Entry) → IsLegal w history
        → (form : Discipline) (number start release other : ℕ)
        → ReleasesAt history form number start release → ReleasesAt history form number start other
        → release ≡ other }
    ensures released { (w : Setting) (history : List Entry) → IsLegal w history
        → (form : Discipline) (number start end : ℕ) → EndsAt history form number start end → IsTrue (is_extended form)
        → (release : ℕ) × (end ≤ release) × ReleasesAt history form number start release }
{}

/// In the history of a run each counter is started once: all Starts are the measurer's, and the counters of its
/// challenges rise.
pub fn counters_start_once()
    ensures { (s : Setup) (history : List Entry) → IsRunSoFar s history
        → (last : ℕ) → Rise last s.challenges → StartsOnce history }
{}

/// In a legal history that starts each counter once a challenge has one report, and a report has one note.
pub fn one_report()
    ensures reports { (key : List ℕ) (w : Setting) (c : Challenge) (history : List Entry) → IsLegal w history
        → StartsOnce history → (old before : List Entry) (r other : Report)
        → IsReportOn key w c old history r → IsReportOn key w c before history other → r ≡ other }
    ensures notes { (key : List ℕ) (w : Setting) (c : Challenge) (history : List Entry) → IsLegal w history
        → (r : Report) (n other : Note)
        → IsNoteOn key c history r n → IsNoteOn key c history r other → n ≡ other }
{
    passes_end_once();
}

/// One history has one outcome. What an application ends with and what it has printed follow from its own entries, and
/// what the measurements have come to follows from the history and the measurer's acts in it. How often an application
/// has waited is nothing that the history tells; with the tallies of the turns that too is one thing.
pub fn one_outcome()
    ensures apps { (programs : List AppProgram) (history : List Entry) (ends others : List AppEnd)
        → AreAppEnds programs history ends → AreAppEnds programs history others
        → map ended_and_printed ends ≡ map ended_and_printed others }
    ensures apps_with_waits { (programs : List AppProgram) (history : List Entry) (tallies : List Tally) (ends others : List AppEnd)
        → AreAppEnds programs history ends → AreAppEnds programs history others
        → HaveWaited tallies ends → HaveWaited tallies others → ends ≡ others }
    ensures passes { (s : Setup) (history : List Entry) → IsRunSoFar s history
        → (last : ℕ) → Rise last s.challenges
        → (challenges : List Challenge) (made : List Act) (ends others : List PassEnd)
        → ArePassEnds s history made challenges ends → ArePassEnds s history made challenges others
        → ends ≡ others }
{
    counters_start_once();
    one_report();
}
