//! A core behind a turn cell.

use chronicle::{Read, Shape, Step, Stored, Width, others_keep_the_order, own_entries};
use mem_core::{Answer, MemCore, Want};
use std::alloc::Global;
use std::marker::Model;
use std::sync::Wait;
use turn_cell::{Pass, Refused, TurnCell};

/// A core that threads take turns with. Clauses see it as turn_cell's `Cell`.
#[derive(Drop)]
pub struct SharedMem {
    cell: TurnCell<MemCore>,
    shape: Shape,
}

impl Model for SharedMem {
    ghost use Rattle.std.specs.Prelude.{◌≡◌};
    ghost use Rattle.history.specs.Layout.{IsSetting};
    ghost use Rattle.chronicle.specs.Worlds.{shape_of};
    ghost use Rattle.turn_cell.specs.Cells.{Cell};

    ghost Value = { Cell };

    ghost view = { λ m. m.cell };

    ghost invariant = { λ m. (m.shape ≡ shape_of m.cell.world) × IsSetting m.cell.world };
}

impl SharedMem {
    ghost use Rattle.std.specs.Prelude.{◌≡◌, ◌+◌, ◌^◌, ◌<◌, IfOk, IfErr, IsTrue, false, length, reverse};
    ghost use Rattle.history.specs.declared.events.Act.TheVariants as act;
    ghost use Rattle.history.specs.Layout.{IsSetting, block_of, width_bytes};
    ghost use Rattle.history.specs.Pass.{pass_after};
    ghost use Rattle.history.specs.Legal.{IsLegal, actor_fits, in_order, in_range};
    ghost use Rattle.chronicle.specs.Worlds.{shape_of};
    ghost use Rattle.chronicle.specs.Ports as port;
    ghost use Rattle.chronicle.specs.Ports.{HasRead, HasStepped, HasStored, IsMeasurer, OthersFollow, ReadsWithin, entry_by};
    ghost use Rattle.mem_core.specs.Cores.{Core};
    ghost use Rattle.mem_core.specs.Wants.{AnswersWithin, StoresWithin, act_wanted, has_to_wait, value_read, width_answered};
    ghost use Rattle.shared_mem.specs.Turns.{TakesCopy, TakesTurn};
    ghost use Rattle.turn_cell.specs.Cells.{AllBelow, longer_list, token};

    /// The core, shared by the actors from 0 up to below `actors`, and the pass for all of them. Only want of
    /// memory refuses it.
    pub fn new(
        alloc: Global,
        core: MemCore,
        actors: u32,
    ) -> Result<(SharedMem, Pass), Refused<MemCore>>
        requires some { 0 < actors }
        requires below { AllBelow actors core.history }
        ensures ok { IfOk result (λ made. (made.0.actors ≡ actors) × (made.0.world ≡ core.world)
            × (made.1 ≡ token made.0 core.history 0 actors)) }
        ensures err { IfErr result (λ refused. refused.value ≡ core) }
    {
        let shape = core.world().shape();
        let (cell, pass) = TurnCell::new(alloc, core, actors)?;
        Ok((SharedMem { cell, shape }, pass))
    }

    /// Cuts the pass's range in two: the pass keeps the actors below `at`, and the new pass has the others.
    /// Both have seen what the pass had.
    pub fn split(&self, pass: &mut Pass, at: u32) -> Pass
        requires cell { pass.old.cell ≡ self.now }
        requires within { (pass.old.low < at) × (at < pass.old.high) }
        ensures left { pass.new ≡ record pass.old { high = at } }
        ensures right { result ≡ record pass.old { low = at } }
    {
        self.cell.split(pass, at)
    }

    /// Makes two passes one again, the left range beginning where the right one ends. It has seen the longer of
    /// the two lists. What that one has more is by actors outside the range of the pass with the shorter.
    pub fn join(&self, left: Pass, right: Pass) -> Pass
        requires left { left.cell ≡ self.now }
        requires right { right.cell ≡ self.now }
        requires meet { left.high ≡ right.low }
        ensures pass { result ≡ record left { seen = longer_list left.seen right.seen; high = right.high } }
        ensures left { OthersFollow left.low left.high left.seen result.seen }
        ensures right { OthersFollow right.low right.high right.seen result.seen }
    {
        self.cell.join(left, right)
    }

    /// Gives the core back to whoever has the pass of all actors.
    pub fn close(self, pass: Pass) -> MemCore
        requires cell { pass.cell ≡ self }
        requires all { (pass.low ≡ 0) × (pass.high ≡ pass.cell.actors) }
        ensures world { result.world ≡ pass.cell.world }
        ensures history { result.history ≡ pass.seen }
        ensures below { AllBelow pass.cell.actors result.history }
    {
        let SharedMem { cell, shape: _ } = self;
        cell.close(pass)
    }

    /// One turn, in which the core is asked for an event of the pass's one actor.
    fn act<R: Wait>(&self, rt: &R, pass: Pass, want: Want) -> (Pass, Answer)
        requires cell { pass.cell ≡ self.now }
        requires one { pass.high ≡ pass.low + 1 }
        requires actor { IsTrue (actor_fits (entry_by pass.low (act_wanted want 0))) }
        requires range { IsTrue (in_range pass.cell.world (act_wanted want 0)) }
        requires small { StoresWithin want }
        requires order { IsTrue (in_order pass.cell.world (pass_after (reverse pass.seen)) (act_wanted want 0)) }
        ensures same { result.0 ≡ record pass { seen = result.0.seen } }
        ensures setting { IsSetting pass.cell.world }
        ensures legal { IsLegal pass.cell.world result.0.seen }
        ensures turn { TakesTurn pass result.0 want result.1 }
        ensures small { AnswersWithin want result.1 }
    {
        own_entries();
        others_keep_the_order();
        let actor = pass.low();
        let mut turn = self.cell.enter(rt, pass);
        let _found = turn.peek().length();
        let answer = turn.value().act(actor, want);
        (self.cell.leave(turn), answer)
    }

    /// One turn, in which a value is read.
    pub(crate) fn read<R: Wait>(&self, rt: &R, pass: Pass, want: Want) -> (Pass, Read)
        requires cell { pass.cell ≡ self.now }
        requires one { pass.high ≡ pass.low + 1 }
        requires actor { IsTrue (actor_fits (entry_by pass.low (act_wanted want 0))) }
        requires range { IsTrue (in_range pass.cell.world (act_wanted want 0)) }
        requires small { StoresWithin want }
        requires order { IsTrue (in_order pass.cell.world (pass_after (reverse pass.seen)) (act_wanted want 0)) }
        requires free { (core : Core) → has_to_wait core want ≡ false }
        ensures same { result.0 ≡ record pass { seen = result.0.seen } }
        ensures setting { IsSetting pass.cell.world }
        ensures legal { IsLegal pass.cell.world result.0.seen }
        ensures answer { HasRead pass.cell.world pass.low pass.high pass.seen result.0.seen
            (act_wanted want) result.1 }
        ensures small { ReadsWithin (width_answered want) result.1 }
    {
        let (pass, answer) = self.act(rt, pass, want);
        match answer {
            Answer::Done { value, place } => (pass, Read::Done { value, place }),
            Answer::Again { .. } => unreachable!(),
            Answer::Full { place } => (pass, Read::Full { place }),
        }
    }

    /// One turn, in which a value is stored if its block isn't locked.
    pub(crate) fn store<R: Wait>(
        &self,
        rt: &R,
        pass: Pass,
        addr: u32,
        width: Width,
        value: u32,
    ) -> (Pass, Stored)
        requires cell { pass.cell ≡ self.now }
        requires one { pass.high ≡ pass.low + 1 }
        requires actor { IsTrue (actor_fits (entry_by pass.low (act.Store addr width value))) }
        requires range { IsTrue (in_range pass.cell.world (act.Store addr width value)) }
        requires small { value < 256 ^ width_bytes width }
        ensures same { result.0 ≡ record pass { seen = result.0.seen } }
        ensures setting { IsSetting pass.cell.world }
        ensures legal { IsLegal pass.cell.world result.0.seen }
        ensures answer { HasStored pass.cell.world pass.low pass.high pass.seen result.0.seen
            (act.Store addr width value) (block_of pass.cell.world.layout addr) result.1 }
    {
        let (pass, answer) = self.act(rt, pass, Want::Store { addr, width, value });
        match answer {
            Answer::Done { place, .. } => (pass, Stored::Done { place }),
            Answer::Again { place } => (pass, Stored::Again { place }),
            Answer::Full { place } => (pass, Stored::Full { place }),
        }
    }

    /// One turn, in which the measurer makes a step.
    pub(crate) fn step<R: Wait>(&self, rt: &R, pass: Pass, want: Want) -> (Pass, Step)
        requires cell { pass.cell ≡ self.now }
        requires one { pass.high ≡ pass.low + 1 }
        requires actor { IsTrue (actor_fits (entry_by pass.low (act_wanted want 0))) }
        requires range { IsTrue (in_range pass.cell.world (act_wanted want 0)) }
        requires small { StoresWithin want }
        requires order { IsTrue (in_order pass.cell.world (pass_after (reverse pass.seen)) (act_wanted want 0)) }
        requires free { (core : Core) → has_to_wait core want ≡ false }
        requires reads_nothing { (core : Core) → value_read core want ≡ 0 }
        ensures same { result.0 ≡ record pass { seen = result.0.seen } }
        ensures setting { IsSetting pass.cell.world }
        ensures legal { IsLegal pass.cell.world result.0.seen }
        ensures answer { HasStepped pass.cell.world pass.low pass.high pass.seen result.0.seen
            (act_wanted want 0) result.1 }
    {
        let (pass, answer) = self.act(rt, pass, want);
        match answer {
            Answer::Done { place, .. } => (pass, Step::Done { place }),
            Answer::Again { .. } => unreachable!(),
            Answer::Full { place } => (pass, Step::Full { place }),
        }
    }

    /// One turn, in which the measurer copies a block.
    fn take_copy<R: Wait>(&self, rt: &R, pass: Pass, block: u32, into: &mut [u8]) -> (Pass, Answer)
        requires cell { pass.cell ≡ self.now }
        requires measurer { IsMeasurer pass.low pass.high }
        requires order { IsTrue (in_order pass.cell.world (pass_after (reverse pass.seen)) (act.Copy block)) }
        requires room { length into.old ≡ pass.cell.world.layout.size }
        ensures same { result.0 ≡ record pass { seen = result.0.seen } }
        ensures setting { IsSetting pass.cell.world }
        ensures legal { IsLegal pass.cell.world result.0.seen }
        ensures turn { TakesCopy pass result.0 block into.old into.new result.1 }
    {
        own_entries();
        others_keep_the_order();
        let mut turn = self.cell.enter(rt, pass);
        let _found = turn.peek().length();
        let answer = turn.value().copy(block, into);
        (self.cell.leave(turn), answer)
    }

    /// The same, with a step's answer.
    pub(crate) fn copy<R: Wait>(
        &self,
        rt: &R,
        pass: Pass,
        block: u32,
        into: &mut [u8],
    ) -> (Pass, Step)
        requires cell { pass.cell ≡ self.now }
        requires measurer { IsMeasurer pass.low pass.high }
        requires order { IsTrue (in_order pass.cell.world (pass_after (reverse pass.seen)) (act.Copy block)) }
        requires room { length into.old ≡ pass.cell.world.layout.size }
        ensures same { result.0 ≡ record pass { seen = result.0.seen } }
        ensures setting { IsSetting pass.cell.world }
        ensures legal { IsLegal pass.cell.world result.0.seen }
        ensures answer { HasStepped pass.cell.world pass.low pass.high pass.seen result.0.seen
            (act.Copy block) result.1 }
        ensures bytes { port.FillsBuffer pass.cell.world result.0.seen block into.old into.new result.1 }
    {
        let (pass, answer) = self.take_copy(rt, pass, block, into);
        match answer {
            Answer::Done { place, .. } => (pass, Step::Done { place }),
            Answer::Again { .. } => unreachable!(),
            Answer::Full { place } => (pass, Step::Full { place }),
        }
    }

    /// Where the attested blocks lie. This takes no turn.
    pub(crate) fn shape(&self) -> Shape
        ensures shape { result ≡ shape_of self.now.world }
        ensures setting { IsSetting self.now.world }
    {
        Shape {
            base: self.shape.base,
            size: self.shape.size,
            ranges: self.shape.ranges,
        }
    }
}

/// Threads may share a core's memory.
fn crosses<X: Send + Sync>(_value: &X) {}

fn memory_crosses(memory: &SharedMem) {
    crosses(memory);
}
