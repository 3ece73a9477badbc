//! The laws of a measuring pass: what each answer of a port makes of what the measurer knows.

ghost use Rattle.std.specs.Prelude.{◌≡◌, ℕ, ◌+◌, ◌<◌, Bool, true, false, IsTrue, List, [], ◌∷◌, ◌++◌, length, reverse};
ghost use Rattle.history.specs.declared.events.Act.{Act};
ghost use Rattle.history.specs.declared.events.Act.TheVariants as act;
ghost use Rattle.history.specs.declared.events.Entry.{Entry};
ghost use Rattle.history.specs.Attested.{attested_block, total};
ghost use Rattle.history.specs.Layout.{Setting, IsSetting};
ghost use Rattle.history.specs.Memory.{block_bytes, memory_after};
ghost use Rattle.history.specs.Pass.{pass_after, is_extended};
ghost use Rattle.history.specs.Legal.{IsLegal, in_order};
ghost use Rattle.history.specs.Copied.{copied_bytes};
ghost use Rattle.challenge.specs.declared.Challenge.{Challenge};
ghost use Rattle.chronicle.specs.Ports.{AddsEntry, OthersFollow, entry_by};
ghost use Rattle.report.specs.declared.Report.{Report};
ghost use Rattle.measure.specs.Program.{HasMade};
ghost use Rattle.measure.specs.Measured.{IsReportOn};
ghost use Rattle.measure.specs.Passing.{EndsHere, HasEnded, IsUnderWay, Keeps, ReleasesHere};

use chronicle::{
    copied_is_memory, one_entry_more, others_keep_the_order, others_keep_the_pass, own_entries,
    places_of_a_pass,
};
use history::blocks_in_order;

/// What the answers of a port make: others' entries none of the measurer's acts, its own entry one.
pub fn answers_make()
    ensures none { (history : List Entry) → HasMade history history [] }
    ensures others { (old new : List Entry) → OthersFollow 0 1 old new → HasMade old new [] }
    ensures added { (old new : List Entry) (a : Act) → AddsEntry 0 1 old new (entry_by 0 a) → HasMade old new (a ∷ []) }
    ensures more { (first second third : List Entry) (a b : List Act)
        → HasMade first second a → HasMade second third b → HasMade first third (a ++ b) }
{
    own_entries();
}

/// Others' entries and Ticks leave the pass as it is, and what it has copied.
pub fn answers_keep()
    ensures none { (w : Setting) (history : List Entry) → Keeps w history history }
    ensures others { (w : Setting) (old new : List Entry) → IsLegal w new → OthersFollow 0 1 old new → Keeps w old new }
    ensures tick { (w : Setting) (old new : List Entry) → IsLegal w new → AddsEntry 0 1 old new (entry_by 0 act.Tick) → Keeps w old new }
    ensures more { (w : Setting) (first second third : List Entry) → Keeps w first second → Keeps w second third → Keeps w first third }
{
    one_entry_more();
    others_keep_the_order();
    others_keep_the_pass();
    own_entries();
    places_of_a_pass();
}

/// What Start, each Copy, End and Release make of the pass, and when the order rule allows them.
pub fn steps_of_a_pass()
    ensures starts { (w : Setting) (old new : List Entry) (c : Challenge)
        → AddsEntry 0 1 old new (entry_by 0 (act.Start c.discipline c.counter))
        → IsUnderWay w new c (length new) 0 false × (copied_bytes w (reverse new) ≡ []) }
    ensures copies { (w : Setting) (old new : List Entry) (c : Challenge) (start copied block : ℕ)
        → IsLegal w new → AddsEntry 0 1 old new (entry_by 0 (act.Copy block)) → IsUnderWay w old c start copied false
        → IsUnderWay w new c start (copied + 1) false
        × (copied_bytes w (reverse new) ≡ copied_bytes w (reverse old) ++ block_bytes w (memory_after w (reverse new)) block) }
    ensures allows_copy { (w : Setting) (seen : List Entry) (c : Challenge) (start copied : ℕ)
        → IsSetting w → IsUnderWay w seen c start copied false → copied < total w.ranges
        → IsTrue (in_order w (pass_after (reverse seen)) (act.Copy (attested_block w.ranges copied))) }
    ensures allows_end { (w : Setting) (seen : List Entry) (c : Challenge) (start : ℕ)
        → IsUnderWay w seen c start (total w.ranges) false → IsTrue (in_order w (pass_after (reverse seen)) act.End) }
    ensures ends { (w : Setting) (old new : List Entry) (c : Challenge) (start : ℕ)
        → IsLegal w new → AddsEntry 0 1 old new (entry_by 0 act.End) → IsUnderWay w old c start (total w.ranges) false
        → EndsHere w old new c start }
    ensures allows_release { (w : Setting) (seen : List Entry) (c : Challenge) (start : ℕ)
        → IsUnderWay w seen c start (total w.ranges) true → IsTrue (is_extended c.discipline)
        → IsTrue (in_order w (pass_after (reverse seen)) act.Release) }
    ensures releases { (w : Setting) (old new : List Entry) (c : Challenge) (start : ℕ)
        → IsLegal w new → AddsEntry 0 1 old new (entry_by 0 act.Release) → IsUnderWay w old c start (total w.ranges) true
        → ReleasesHere new c start }
{
    blocks_in_order();
    one_entry_more();
    others_keep_the_order();
    others_keep_the_pass();
    own_entries();
    places_of_a_pass();
}

/// Why a report is worth what it says: the bytes that were digested are the attested memory at each instant, by
/// the sliding-lock fact, however the history goes on.
pub fn reports_stand()
    ensures later { (key : List ℕ) (w : Setting) (c : Challenge) (seen later : List Entry) (r : Report) (acts : List Act)
        → HasEnded key w c seen r → HasMade seen later acts → HasEnded key w c later r }
    ensures report { (key : List ℕ) (w : Setting) (c : Challenge) (old history : List Entry) (r : Report)
        → IsSetting w → IsLegal w history → length old < r.start → HasEnded key w c history r
        → IsReportOn key w c old history r }
{
    copied_is_memory();
    places_of_a_pass();
}
