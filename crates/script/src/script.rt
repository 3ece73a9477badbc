//! A script as a value.

ghost use Rattle.std.specs.Prelude.{[], ◌≡◌, ◌+◌, ◌<◌, ◌≤◌, ℕ, List, length, All, IsTrue};
ghost use Rattle.script.specs.Grammar.{filled};
ghost use Rattle.history.specs.Attested.{IsRanges};
ghost use Rattle.history.specs.Layout.{Setting};
ghost use Rattle.history.specs.declared.events.Entry.{Entry};
ghost use Rattle.lock_plan.specs.Plans.{plan_after};
ghost use Rattle.script.specs.Measuring.{may_come, measured_with};

use crate::{Refusal, Step};
use block_memory::{Geometry, aligned};
use chronicle::World;
use lock_plan::{Plan, PlanStep, Ranges, order_gives_next_step};
use std::alloc::{AllocError, Global};
use std::marker::Model;

/// A script: a memory, a key and the steps. Clauses see it as the `Program` of `specs/Programs.antt`.
#[derive(Drop)]
pub struct Script {
    geometry: Geometry,
    ranges: Ranges,
    cap: u64,
    image: Vec<u8>,
    key: Vec<u8>,
    steps: Vec<Step>,

    // after the measuring steps so far
    plan: Plan,
}

impl Model for Script {
    ghost use Rattle.script.specs.Programs.{Program};

    ghost Value = { Program };

    ghost use Rattle.script.specs.Reading.{program_in, IsBuilt};

    ghost view = { program_in };

    ghost invariant = { IsBuilt };
}

impl Script {
    ghost use Rattle.std.specs.Prelude.{◌≡◌, ◌+◌, ◌≤◌, ◌<◌, ℕ, IfOk, OnErr, IsErrOf, length, replicate, []};
    ghost use Rattle.std.specs.Prelude.{◌-◌};
    ghost use Rattle.history.specs.Attested.{last_end};
    ghost use Rattle.history.specs.Layout.{Setting, byte_count, past_end};
    ghost use Rattle.std.specs.Prelude.{◌++◌, ◌∷◌, ◌↔◌, IsTrue, All};
    ghost use Rattle.script.specs.Grammar.{filled};
    ghost use Rattle.sequencing.specs.Options.{when};
    ghost use Rattle.script.specs.Measuring.{may_come, measured_after};
    ghost use Rattle.script.specs.Gives.{GivesNext};
    ghost use Rattle.script.specs.Attested.{IsScript, FitsWidth, MayComeAll};

    /// A script of no steps over a memory of zeros. Only want of memory refuses it.
    pub fn new(
        alloc: Global,
        geometry: Geometry,
        cap: u64,
        ranges: Ranges,
        key: Vec<u8>,
    ) -> Result<Script, AllocError>
        requires inside { last_end ranges ≤ geometry.blocks }
        requires some_entry { 1 ≤ cap }
        requires few_entries { cap ≤ 4000000 }
        ensures { IfOk result (λ script. script ≡ record {
          setting = record { layout = geometry; ranges = ranges; image = replicate (byte_count geometry) 0; cap = cap };
          key = key.items;
          steps = [];
        }) }
    {
        ranges.count();
        let image = vec![in alloc; 0; geometry.byte_count() as usize]?;
        Ok(Script {
            geometry,
            ranges,
            cap,
            image,
            key,
            steps: Vec::new(alloc),
            plan: Plan::new(ranges),
        })
    }

    /// Puts the step at the end, if it may come after those before it: an access has to fit and to be aligned, a step
    /// of the measurer has to be the next of its pass.
    pub fn push_step(&mut self, step: Step) -> Result<(), Refusal>
        requires { FitsWidth step }
        ensures { GivesNext result (when (may_come self.old.setting (measured_after self.old.setting [] self.old.steps) step)
            (record self.old { steps = self.old.steps ++ step ∷ [] })) self.new }
    {
        if !may_follow(&self.geometry, &self.plan, &step) {
            return Err(Refusal::Line);
        }
        let Ok(()) = self.steps.push(step) else {
            return Err(Refusal::Memory);
        };
        follow(&mut self.plan, &step);
        Ok(())
    }

    /// A script is in the grammar: a law, with nothing to run.
    pub fn is_script(&self)
        ensures { IsScript self.now }
    {
        let _ = &self.steps;
    }

    /// Its world, its key and its steps.
    pub fn into_parts(self) -> (World, Vec<u8>, Vec<Step>)
        ensures world { result.0 ≡ self.setting }
        ensures key { result.1.items ≡ self.key }
        ensures steps { result.2.items ≡ self.steps }
        ensures ordered { MayComeAll self.setting [] self.steps }
        ensures within { All FitsWidth self.steps }
    {
        let Script {
            geometry,
            ranges,
            cap,
            image,
            key,
            steps,
            plan: _,
        } = self;
        let Some(world) = World::new(geometry, ranges, image, cap) else {
            unreachable!()
        };
        (world, key, steps)
    }

    /// How many entries its history may have.
    pub fn cap(&self) -> u64
        ensures { result ≡ self.now.setting.cap }
    {
        self.cap
    }

    /// How many steps it has.
    pub fn step_count(&self) -> usize
        ensures { result ≡ length self.now.steps }
    {
        self.steps.len()
    }

    /// Memory has so many bytes from the address on.
    pub fn has_bytes(&self, addr: u32, count: usize) -> bool
        ensures { IsTrue result ↔ ((self.now.setting.layout.base ≤ addr) × (addr + count ≤ past_end self.now.setting.layout)) }
    {
        let base = self.geometry.base();
        if addr < base {
            return false;
        }
        let offset = (addr - base) as usize;
        let bytes = self.geometry.byte_count() as usize;
        offset <= bytes && count <= bytes - offset
    }

    /// Puts bytes into the image; of two fills the later one stands.
    pub fn fill(&mut self, addr: u32, bytes: &[u8])
        requires low { self.old.setting.layout.base ≤ addr }
        requires high { addr + length bytes.now ≤ past_end self.old.setting.layout }
        requires no_step { self.old.steps ≡ [] }
        ensures { self.new ≡ record self.old { setting = record self.old.setting { image = filled self.old.setting.image (addr - self.old.setting.layout.base) bytes.now } } }
    {
        let offset = (addr - self.geometry.base()) as usize;
        fill(&mut self.image, offset, bytes);
    }
}

// Puts bytes into an image, from an offset on.
fn fill(image: &mut Vec<u8>, offset: usize, bytes: &[u8])
    requires { offset + length bytes.now ≤ length image.old.items }
    ensures value { image.new.items ≡ filled image.old.items offset bytes.now }
    ensures bytes { All (λ byte. byte < 256) image.new.items }
    ensures len { length image.new.items ≡ length image.old.items }
{
    image[offset..offset + bytes.len()].copy_from_slice(bytes);
}

// Whether the step may come after the measuring steps that led to this plan.
fn may_follow(geometry: &Geometry, plan: &Plan, step: &Step) -> bool
    ensures { (w : Setting) (measured : List Entry) → w.layout ≡ geometry.now → plan.now ≡ plan_after w.ranges measured
        → result ≡ may_come w measured step.now }
{
    match *step {
        Step::Load { width, addr } => geometry.fits(addr, width) && aligned(addr, width),
        Step::Store { width, addr, .. } => geometry.fits(addr, width) && aligned(addr, width),
        Step::Start { .. } => plan.next() == PlanStep::Start,
        Step::Copy => matches!(plan.next(), PlanStep::Copy(_)),
        Step::End => plan.next() == PlanStep::End,
        Step::Tick => true,
        Step::Release => plan.next() == PlanStep::Release,
    }
}

// The plan after a step that may come.
fn follow(plan: &mut Plan, step: &Step)
    requires { (w : Setting) × (measured : List Entry) × IsRanges w.ranges × (plan.old ≡ plan_after w.ranges measured) × IsTrue (may_come w measured step.now) }
    ensures { (w : Setting) (measured : List Entry) → plan.old ≡ plan_after w.ranges measured
        → plan.new ≡ plan_after w.ranges (measured_with w measured step.now) }
{
    order_gives_next_step();
    match *step {
        Step::Start { discipline, .. } => plan.start(discipline),
        Step::Copy => plan.copied(),
        Step::End => plan.ended(),
        Step::Release => plan.released(),
        Step::Load { .. } | Step::Store { .. } | Step::Tick => {}
    }
}
