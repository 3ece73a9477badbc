//! The plan of a measurement: the state of its last pass.

ghost use Rattle.std.specs.Prelude.{◌≡◌, ℕ, ◌↔◌, IsTrue, List, [], ◌∷◌};
ghost use Rattle.history.specs.declared.events.Act.TheVariants.{Start, Copy, End, Release};
ghost use Rattle.history.specs.declared.events.Discipline.{Discipline};
ghost use Rattle.history.specs.declared.events.Entry.{Entry};
ghost use Rattle.history.specs.declared.ranges.Range.{Range};
ghost use Rattle.history.specs.Layout.{Setting};
ghost use Rattle.history.specs.Pass.{pass_after};
ghost use Rattle.history.specs.Locks.{is_locked};
ghost use Rattle.history.specs.Legal.{in_order};
ghost use Rattle.history.specs.Worked.{measurer};
ghost use Rattle.lock_plan.specs.Plans.{plan_after, plan_locks, next_step, is_copy_step, after_start, pass_changed, with_copy, with_end, with_release};

use crate::bits;
use crate::ranges::Ranges;
use crate::steps::PlanStep;
use history::{Discipline, blocks_in_order};
use std::marker::Model;

/// Which attested blocks are locked, and which step of the measurement comes next. Clauses see it as the
/// `PlanState` of `specs/Plans.antt`.
#[derive(Drop)]
pub struct Plan {
    ranges: Ranges,
    attested: u32,

    // None before the first Start
    discipline: Option<Discipline>,
    copied: u32,
    ended: bool,
    released: bool,

    // a bit for each index of an attested block: the block is locked
    locked: [u64; 64],
}

impl Model for Plan {
    ghost use Rattle.std.specs.Prelude.{◌≡◌, ℕ, ◌<◌, ◌≤◌, false};
    ghost use Rattle.std.specs.Option.{option_map};
    ghost use Rattle.history.specs.Attested.{IsRanges, total};
    ghost use Rattle.lock_plan.specs.Plans.{PlanState, pass_with, state_locks};
    ghost use Rattle.lock_plan.specs.Tables.{has_bit};

    ghost Value = { PlanState };

    ghost view = { λ p. record {
      ranges = p.ranges;
      pass = option_map (pass_with p.copied p.ended p.released) p.discipline;
    } };

    ghost invariant = { λ p. IsRanges p.ranges × (p.attested ≡ total p.ranges) × (p.attested ≤ 4096)
        × (p.copied ≤ p.attested) × (p.ended ≡ false → p.released ≡ false) × ((index : ℕ) → index < p.attested
        → has_bit p.locked index ≡ state_locks (option_map (pass_with p.copied p.ended p.released) p.discipline) index) };
}

impl Plan {
    /// A plan for these attested blocks, before any pass.
    pub fn new(ranges: Ranges) -> Plan
        ensures { result ≡ plan_after ranges [] }
    {
        Plan {
            ranges,
            attested: ranges.total(),
            discipline: None,
            copied: 0,
            ended: false,
            released: false,
            locked: bits::filled(0),
        }
    }

    /// A pass begins. The order rule has to allow it: no pass is open.
    pub fn start(&mut self, discipline: Discipline)
        requires { next_step self.old ≡ PlanStep.Start }
        ensures state { self.new ≡ after_start discipline self.old }
        ensures history { (ranges : List Range) (counter : ℕ) (past : List Entry)
            → self.old ≡ plan_after ranges past
            → self.new ≡ plan_after ranges (measurer (Start discipline counter) ∷ past) }
    {
        self.locked = bits::at_start(discipline);
        self.discipline = Some(discipline);
        self.copied = 0;
        self.ended = false;
        self.released = false;
    }

    /// The pass has copied its next block. The order rule has to allow it: `next` gives a Copy.
    pub fn copied(&mut self)
        requires { IsTrue (is_copy_step (next_step self.old)) }
        ensures state { self.new ≡ pass_changed with_copy self.old }
        ensures history { (ranges : List Range) (block : ℕ) (past : List Entry)
            → self.old ≡ plan_after ranges past
            → self.new ≡ plan_after ranges (measurer (Copy block) ∷ past) }
    {
        bits::copy(&mut self.locked, self.copied, self.discipline);
        self.copied += 1;
    }

    /// The pass has ended. The order rule has to allow it: every attested block is copied.
    pub fn ended(&mut self)
        requires { next_step self.old ≡ PlanStep.End }
        ensures state { self.new ≡ pass_changed with_end self.old }
        ensures history { (ranges : List Range) (past : List Entry)
            → self.old ≡ plan_after ranges past
            → self.new ≡ plan_after ranges (measurer End ∷ past) }
    {
        bits::end(&mut self.locked, self.discipline);
        self.ended = true;
    }

    /// An extended discipline has given up its locks. The order rule has to allow it: its pass has ended,
    /// and this is its first Release.
    pub fn released(&mut self)
        requires { next_step self.old ≡ PlanStep.Release }
        ensures state { self.new ≡ pass_changed with_release self.old }
        ensures history { (ranges : List Range) (past : List Entry)
            → self.old ≡ plan_after ranges past
            → self.new ≡ plan_after ranges (measurer Release ∷ past) }
    {
        self.locked = bits::filled(0);
        self.released = true;
    }

    /// The block is locked: a store into it has to wait. A block that isn't attested is never locked.
    pub fn is_locked(&self, block: u32) -> bool
        ensures state { result ≡ plan_locks self.now block }
        ensures history { (w : Setting) (past : List Entry)
            → self.now ≡ plan_after w.ranges past
            → result ≡ is_locked w past block }
    {
        match self.ranges.index(block) {
            None => false,
            Some(index) => bits::bit(&self.locked, index),
        }
    }

    /// The one step that the order rule allows beside Tick: Start where no pass is open, Copy of the next
    /// attested block, End after the last Copy, Release after the End of an extended discipline.
    pub fn next(&self) -> PlanStep
        ensures state { result ≡ next_step self.now }
        ensures start { (w : Setting) (past : List Entry) (discipline : Discipline) (counter : ℕ)
            → self.now ≡ plan_after w.ranges past
            → ((result ≡ PlanStep.Start) ↔ IsTrue (in_order w (pass_after past) (Start discipline counter))) }
        ensures copy { (w : Setting) (past : List Entry) (block : ℕ)
            → self.now ≡ plan_after w.ranges past
            → ((result ≡ PlanStep.Copy block) ↔ IsTrue (in_order w (pass_after past) (Copy block))) }
        ensures end { (w : Setting) (past : List Entry)
            → self.now ≡ plan_after w.ranges past
            → ((result ≡ PlanStep.End) ↔ IsTrue (in_order w (pass_after past) End)) }
        ensures release { (w : Setting) (past : List Entry)
            → self.now ≡ plan_after w.ranges past
            → ((result ≡ PlanStep.Release) ↔ IsTrue (in_order w (pass_after past) Release)) }
    {
        blocks_in_order();
        let Some(discipline) = self.discipline else {
            return PlanStep::Start;
        };
        if !self.ended {
            if self.copied < self.attested {
                return PlanStep::Copy(self.ranges.block(self.copied));
            }
            return PlanStep::End;
        }
        if discipline.extended() && !self.released {
            return PlanStep::Release;
        }
        PlanStep::Start
    }
}
