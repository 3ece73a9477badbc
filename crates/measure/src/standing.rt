//! What whoever runs several challenges, or lets the history go on, knows of the measurer: laws, each a function that
//! does nothing.

ghost use Rattle.std.specs.Prelude.{◌≡◌, ℕ, true, false, IsTrue, List, [], ◌∷◌, ◌++◌, length, reverse, Some};
ghost use Rattle.history.specs.declared.events.Act.{Act};
ghost use Rattle.history.specs.declared.events.Entry.{Entry};
ghost use Rattle.history.specs.Layout.{Setting, IsSetting};
ghost use Rattle.history.specs.Memory.{own};
ghost use Rattle.history.specs.Pass.{pass_after};
ghost use Rattle.history.specs.Legal.{IsLegal, in_order};
ghost use Rattle.challenge.specs.declared.Challenge.{Challenge};
ghost use Rattle.chronicle.specs.Worlds.{shape_of};
ghost use Rattle.chronicle.specs.Ports.{OthersFollow};
ghost use Rattle.report.specs.declared.Report.{Report};
ghost use Rattle.report.specs.declared.Note.{Note};
ghost use Rattle.measure.specs.declared.stepping.Measuring.{Measuring};
ghost use Rattle.measure.specs.Program.{HasMade, IsCut, MayStart, measuring_program, measuring_programs};
ghost use Rattle.measure.specs.Measured.{HasReport, IsNoteOn, IsReportOn};
ghost use Rattle.measure.specs.Stepping.{HasNoteOn, Stands, is_over, left_of, note_of, report_of};

use crate::laws;
use chronicle::{
    copied_is_memory, others_keep_the_order, others_keep_the_pass, own_entries, places_of_a_pass,
    prefixes_are_legal,
};
use history::blocks_in_order;

/// The programs of several challenges, one after the other, from a list of entries on in which no pass is open: where the
/// measurer's new entries are a front of them, its next act is in order, and where they are all of them, no pass is open.
/// Others' entries stand between them as they may.
pub fn programs_stay_in_order()
    ensures next { (w : Setting) (challenges : List Challenge) (old new : List Entry) (made : List Act) (next : Act) (missed : List Act)
        → IsSetting w → IsLegal w new → MayStart w old → HasMade old new made
        → measuring_programs challenges (shape_of w) ≡ made ++ next ∷ missed
        → IsTrue (in_order w (pass_after (reverse new)) next) }
    ensures over { (w : Setting) (challenges : List Challenge) (old new : List Entry)
        → IsSetting w → IsLegal w new → MayStart w old → HasMade old new (measuring_programs challenges (shape_of w))
        → MayStart w new }
{
    blocks_in_order();
    others_keep_the_order();
    own_entries();
    prefixes_are_legal();
}

/// What a report and a note say of a list of entries they say of every legal list that goes on from it, also where an
/// extended pass is released later: its locks keep the attested memory as it was.
pub fn measured_stays()
    ensures report { (key : List ℕ) (w : Setting) (c : Challenge) (old seen more : List Entry) (r : Report)
        → IsSetting w → IsLegal w (seen ++ more) → IsReportOn key w c old seen r → IsReportOn key w c old (seen ++ more) r }
    ensures note { (key : List ℕ) (c : Challenge) (seen more : List Entry) (r : Report) (n : Note)
        → IsNoteOn key c seen r n → IsNoteOn key c (seen ++ more) r n }
{
    copied_is_memory();
    places_of_a_pass();
    prefixes_are_legal();
}

/// How a measurement that is made a step at a time stands. The measurer's entries are a front of the program, and there
/// is a report exactly where End's is among them. Entries of others change nothing of it. Once it is over, the whole
/// program is made, the report and the note are right, and no pass is open. Where it isn't over and the history is full,
/// the program was cut there.
pub fn measuring_stands()
    ensures made { (key : List ℕ) (w : Setting) (c : Challenge) (old seen : List Entry) (m : Measuring)
        → Stands key w c old seen m
        → (made : List Act) × HasMade old seen made × (measuring_program c (shape_of w) ≡ made ++ left_of w m)
        × HasReport key w c old seen made (report_of m) }
    ensures others { (key : List ℕ) (w : Setting) (c : Challenge) (old seen more : List Entry) (m : Measuring)
        → Stands key w c old seen m → IsLegal w (seen ++ more) → own more 0 1 ≡ [] → Stands key w c old (seen ++ more) m }
    ensures followed { (key : List ℕ) (w : Setting) (c : Challenge) (old seen new : List Entry) (m : Measuring)
        → Stands key w c old seen m → IsLegal w new → OthersFollow 0 1 seen new → Stands key w c old new m }
    ensures over { (key : List ℕ) (w : Setting) (c : Challenge) (old seen : List Entry) (m : Measuring)
        → Stands key w c old seen m → is_over m ≡ true
        → HasMade old seen (measuring_program c (shape_of w)) × MayStart w seen
        × ((r : Report) × (report_of m ≡ Some r) × IsReportOn key w c old seen r × HasNoteOn key c seen r (note_of m)) }
    ensures none_left { (w : Setting) (m : Measuring) → is_over m ≡ true → left_of w m ≡ [] }
    ensures full { (key : List ℕ) (w : Setting) (c : Challenge) (old seen : List Entry) (m : Measuring)
        → Stands key w c old seen m → is_over m ≡ false → length seen ≡ w.cap
        → (made : List Act) × IsCut w old seen (measuring_program c (shape_of w)) w.cap made
        × HasReport key w c old seen made (report_of m) }
{
    laws::reports_stand();
    measured_stays();
    others_keep_the_order();
    others_keep_the_pass();
    own_entries();
    programs_stay_in_order();
}
