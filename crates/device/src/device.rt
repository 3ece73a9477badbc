//! A device: its memory with the history, its applications and its measurer, a turn at a time.

use crate::finishing::{ends_of, passes_at_last};
use crate::laws::{answers_tell, entries_are_own};
use crate::making::{passes_of, slots_of};
use crate::outcomes::{AppEnd, Outcome};
use crate::passes::Passes;
use crate::slots::Slot;
use crate::tallies::Stepped;
use challenge::Challenge;
use chronicle::{World, own_entries};
use device_config::DevicePlan;
use listed::Items;
use loader::Placed;
use measure::{measured_stays, measuring_stands};
use mem_core::MemCore;
use std::alloc::{AllocError, Global};
use std::marker::Model;

/// A device of 1 to 8 applications and a measurer, which take turns on one thread. Clauses see it as a `DeviceState` of
/// `specs/Turns.antt`: what it began with, and what its turns have come to.
#[derive(Drop)]
pub struct Device {
    pub(crate) core: MemCore,
    pub(crate) slots: Vec<Slot>,
    pub(crate) passes: Passes,
    pub(crate) key: Vec<u8>,
    // a block long
    pub(crate) buffer: Vec<u8>,
    // room for what the applications have come to
    pub(crate) apps: Vec<AppEnd>,
}

impl Model for Device {
    ghost use Rattle.std.specs.Prelude.{◌≡◌, ◌≤◌, [], length, vec_capacity};
    ghost use Rattle.device.specs.Turns.{DeviceState};
    ghost use Rattle.device.specs.Keeping.{IsDevice, device_kept};

    ghost Value = { DeviceState };

    ghost view = { λ d. device_kept d.core.world d.key.items d.core.history d.slots.items d.passes };

    ghost invariant = { λ d. IsDevice d.core.world d.key.items d.core.history d.slots.items d.passes
        × (length d.buffer.items ≡ d.core.world.layout.size)
        × (d.apps.items ≡ []) × (length d.slots.items ≤ vec_capacity d.apps) };
}

impl Device {
    ghost use Rattle.std.specs.Prelude.{◌≡◌, ◌+◌, ◌%◌, ◌<◌, ◌≤◌, false, length, All, IfOk, IsTrue};
    ghost use Rattle.history.specs.Layout.{IsSetting};
    ghost use Rattle.challenge.specs.Challenges.{IsChallenge};
    ghost use Rattle.device.specs.Setups.{setup_of};
    ghost use Rattle.device.specs.Runs.{IsRunOf, IsRunSoFar, entries_of};
    ghost use Rattle.device.specs.Outcomes.{AreAppEnds, ArePassEnds, HaveWaited, acts_of};
    ghost use Rattle.device.specs.Turns.{AllDone, IsTurn, answer_of, first_state, is_done, turn};

    /// A device before its first turn. Only want of memory refuses it: the history, memory, the cores, the block buffer
    /// and the results are reserved here.
    ///
    /// The plan's memory with the placed image, its ranges and its cap have to make a world, and there have to be 1 to 8
    /// applications with as many addresses, each divisible by 4. The challenges have to be valid.
    pub fn make(
        alloc: Global,
        plan: &DevicePlan,
        placed: Placed,
        key: Vec<u8>,
        admitted: Vec<Challenge>,
    ) -> Result<Device, AllocError>
        requires world { IsSetting (setup_of plan.now placed key.items admitted.items).world }
        requires apps { (1 ≤ length plan.now.apps) × (length plan.now.apps ≤ 8) }
        requires entries { length placed.entries ≡ length plan.now.apps }
        requires aligned { All (λ entry. entry % 4 ≡ 0) placed.entries }
        requires challenges { All IsChallenge admitted.items }
        ensures setup { IfOk result (λ device. device.setup ≡ setup_of plan.now placed key.items admitted.items) }
        ensures state { IfOk result (λ device. device.state ≡ first_state device.setup) }
    {
        let Placed { image, entries } = placed;
        let Some(world) = World::new(plan.geometry, plan.ranges, image.into_vec(), plan.cap) else {
            unreachable!()
        };
        let slots = slots_of(
            alloc,
            plan.geometry,
            plan.apps.as_slice(),
            entries.as_slice(),
        )?;
        let passes = passes_of(alloc, admitted)?;
        let buffer = vec![in alloc; 0u8; plan.geometry.size() as usize]?;
        let apps = Vec::with_capacity(alloc, slots.len())?;
        let core = MemCore::new(alloc, world)?;
        Ok(Device {
            core,
            slots,
            passes,
            key,
            buffer,
            apps,
        })
    }

    /// How many actors there are: the measurer, 0, and the applications from 1 on.
    pub fn actors(&self) -> u32
        ensures { result ≡ 1 + length self.now.setup.programs }
    {
        1 + self.slots.len() as u32
    }

    /// How many entries the history has, at most as many as the cap.
    pub fn length(&self) -> u64
        ensures value { result ≡ length self.now.state.history }
        ensures few { result ≤ self.now.setup.world.cap }
    {
        self.core.length()
    }

    /// Whether the actor is done: it was stopped, or its program is over. Then its turns change nothing.
    pub fn over(&self, actor: u32) -> bool
        requires { actor < 1 + length self.now.setup.programs }
        ensures { result ≡ is_done self.now.setup self.now.state actor }
    {
        if actor == 0 {
            return self.passes.is_done();
        }
        self.slots[actor as usize - 1].is_done()
    }

    /// Whether all actors are done.
    pub fn all_over(&self) -> bool
        ensures over { IsTrue result → AllDone self.now.setup self.now.state }
        ensures more { result ≡ false → AllDone self.now.setup self.now.state → ⊥ }
    {
        for actor in 0..self.actors() {
            if !self.over(actor) {
                return false;
            }
        }
        true
    }

    /// One turn of an actor, and what it came to. It takes no memory.
    ///
    /// The answer is `Over` where the actor is done; `Full` where the history is at its cap, which stops the actor;
    /// `Again` where its store goes to a locked block; else `Made` with the entry's place. `Again` comes only while the
    /// measurer isn't over.
    pub fn step(&mut self, actor: u32) -> Stepped
        requires { actor < 1 + length self.old.setup.programs }
        ensures setup { self.new.setup ≡ self.old.setup }
        ensures state { self.new.state ≡ turn self.old.setup self.old.state actor }
        ensures answer { result ≡ answer_of self.old.setup self.old.state actor }
        ensures turned { IsTurn self.old.setup self.old.state actor self.new.state result }
    {
        self.so_far();
        answers_tell();
        if actor == 0 {
            return self.step_measurer();
        }
        self.step_application(actor)
    }

    /// What the run has come to. All actors have to be done. It takes no memory.
    ///
    /// The history is one of a whole run. An application that has not ended met a full history; so did the measurement
    /// that is `Full`, and those after it, and no others, are `NotStarted`.
    pub fn finish(self) -> Outcome
        requires { AllDone self.setup self.state }
        ensures run { IsRunOf self.setup self.state.history }
        ensures world { result.chronicle.world ≡ self.setup.world }
        ensures entries { result.chronicle.entries ≡ self.state.history }
        ensures apps { AreAppEnds self.setup.programs self.state.history result.apps }
        ensures waits { HaveWaited self.state.tallies result.apps }
        ensures passes { ArePassEnds self.setup self.state.history (acts_of (entries_of self.state.history 0))
            self.setup.challenges result.passes }
    {
        measuring_stands();
        own_entries();
        let Device {
            core,
            slots,
            passes,
            apps,
            key: _,
            buffer: _,
        } = self;
        let apps = ends_of(slots, apps, core.length());
        let passes = passes_at_last(passes);
        Outcome {
            apps: Items::from_vec(apps),
            passes: Items::from_vec(passes),
            chronicle: core.into_chronicle(),
        }
    }

    // The history is one of a run so far.
    fn so_far(&self)
        ensures setting { IsSetting self.now.setup.world }
        ensures run { IsRunSoFar self.now.setup self.now.state.history }
    {
        own_entries();
        let _length = self.core.length();
    }

    // A turn of the measurer.
    fn step_measurer(&mut self) -> Stepped
        ensures setup { self.new.setup ≡ self.old.setup }
        ensures state { self.new.state ≡ turn self.old.setup self.old.state 0 }
        ensures answer { result ≡ answer_of self.old.setup self.old.state 0 }
    {
        entries_are_own();
        self.passes
            .turn(&mut self.core, &self.key, &mut self.buffer)
    }

    // A turn of an application.
    fn step_application(&mut self, actor: u32) -> Stepped
        requires { (1 ≤ actor) × (actor ≤ length self.old.setup.programs) }
        ensures setup { self.new.setup ≡ self.old.setup }
        ensures state { self.new.state ≡ turn self.old.setup self.old.state actor }
        ensures answer { result ≡ answer_of self.old.setup self.old.state actor }
    {
        entries_are_own();
        own_entries();
        measured_stays();
        measuring_stands();
        let slot = &mut self.slots[actor as usize - 1];
        let stepped = slot.turn(&mut self.core, actor);
        let _length = self.core.length();
        stepped
    }
}
