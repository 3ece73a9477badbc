//! What the definitions of a plan have in common with those of histories, for every history.

ghost use Rattle.std.specs.Prelude.{◌≡◌, ℕ, List, ◌∷◌, Option, IsTrue};
ghost use Rattle.history.specs.declared.events.Act.{Act};
ghost use Rattle.history.specs.declared.events.Act.TheVariants.{Start, Copy, End, Tick, Release};
ghost use Rattle.history.specs.declared.events.Discipline.{Discipline};
ghost use Rattle.history.specs.declared.events.Entry.{Entry};
ghost use Rattle.history.specs.declared.ranges.Range.{Range};
ghost use Rattle.history.specs.Attested.{IsRanges};
ghost use Rattle.history.specs.Layout.{Setting};
ghost use Rattle.history.specs.Pass.{Pass, pass_after};
ghost use Rattle.history.specs.Legal.{in_order, is_access};
ghost use Rattle.lock_plan.specs.Plans.{PlanState, plan_after, next_step};

use crate::steps::PlanStep;
use history::blocks_in_order;

/// Accesses of applications and the measurer's Ticks leave the plan as it is, and are always in order.
pub fn others_leave_plan()
    ensures accesses { (ranges : List Range) (past : List Entry) (entry : Entry)
        → IsTrue (is_access entry.act)
        → plan_after ranges (entry ∷ past) ≡ plan_after ranges past }
    ensures ticks { (ranges : List Range) (past : List Entry) (entry : Entry)
        → entry.act ≡ Tick
        → plan_after ranges (entry ∷ past) ≡ plan_after ranges past }
    ensures accesses_in_order { (w : Setting) (pass : Option Pass) (act : Act)
        → IsTrue (is_access act) → IsTrue (in_order w pass act) }
    ensures ticks_in_order { (w : Setting) (pass : Option Pass) → IsTrue (in_order w pass Tick) }
{}

/// A step that the order rule allows after a history is the next step of the plan after that history.
pub fn order_gives_next_step()
    ensures start { (w : Setting) (past : List Entry) (plan : PlanState) (discipline : Discipline) (counter : ℕ)
        → plan ≡ plan_after w.ranges past
        → IsTrue (in_order w (pass_after past) (Start discipline counter))
        → next_step plan ≡ PlanStep.Start }
    ensures copy { (w : Setting) (past : List Entry) (plan : PlanState) (block : ℕ)
        → IsRanges w.ranges
        → plan ≡ plan_after w.ranges past
        → IsTrue (in_order w (pass_after past) (Copy block))
        → next_step plan ≡ PlanStep.Copy block }
    ensures end { (w : Setting) (past : List Entry) (plan : PlanState)
        → plan ≡ plan_after w.ranges past
        → IsTrue (in_order w (pass_after past) End)
        → next_step plan ≡ PlanStep.End }
    ensures release { (w : Setting) (past : List Entry) (plan : PlanState)
        → plan ≡ plan_after w.ranges past
        → IsTrue (in_order w (pass_after past) Release)
        → next_step plan ≡ PlanStep.Release }
{
    blocks_in_order();
}
