//! The measurer of a device: the measurements for its challenges, one after the other.

ghost use Rattle.std.specs.Prelude.{◌≡◌, ℕ, Bool, false, List, length, slice_get, is_none, All, ◌||◌};
ghost use Rattle.history.specs.declared.events.Entry.{Entry};
ghost use Rattle.history.specs.Layout.{Setting, IsSetting};
ghost use Rattle.history.specs.Legal.{IsLegal};
ghost use Rattle.challenge.specs.declared.Challenge.{Challenge};
ghost use Rattle.challenge.specs.Challenges.{IsChallenge};
ghost use Rattle.chronicle.specs.Worlds.{shape_of};
ghost use Rattle.measure.specs.Program.{measuring_programs};
ghost use Rattle.measure.specs.Stepping.{TakesStep, TakesStepAlone, IsStanding, Stands, is_over};
ghost use Rattle.device.specs.Runs.{entries_of};
ghost use Rattle.device.specs.Turns.{actor_at, own_answer, own_turn};
ghost use Rattle.device.specs.Keeping.{BeginsNext, IsMeasuring, IsSteppingOn};

use crate::outcomes::PassEnd;
use crate::tallies::{Stepped, Tally};
use att_base::NoGate;
use challenge::Challenge;
use chronicle::{Step, one_entry_more, own_entries};
use measure::{Measuring, measured_stays, measuring_stands};
use mem_core::{Direct, MemCore};

/// The measurements of a device.
#[derive(Drop)]
pub struct Passes {
    /// The challenges, in the order in which they are answered.
    pub challenges: Vec<Challenge>,
    /// What those that are over have come to, with room for all.
    pub ends: Vec<PassEnd>,
    /// The measurement under way; None once all are over.
    pub under_way: Option<Measuring>,
    /// What the measurer's turns have come to.
    pub tally: Tally,
}

// A step of the measurement over the core: nobody else makes an entry in it.
fn step_over(measuring: &mut Measuring, core: &mut MemCore, key: &[u8], buffer: &mut [u8]) -> Step
    requires stands { IsStanding key.now core.old.world core.old.history measuring.old }
    requires more { is_over measuring.old ≡ false }
    requires room { length buffer.old ≡ core.old.world.layout.size }
    ensures world { core.new.world ≡ core.old.world }
    ensures setting { IsSetting core.new.world }
    ensures legal { IsLegal core.new.world core.new.history }
    ensures room { length buffer.new ≡ length buffer.old }
    ensures stands { (c : Challenge) (old : List Entry)
        → Stands key.now core.old.world c old core.old.history measuring.old
        → Stands key.now core.old.world c old core.new.history measuring.new }
    ensures turned { TakesStep core.old.world core.old.history core.new.history measuring.old measuring.new result }
    ensures alone { TakesStepAlone core.old.world core.old.history core.new.history measuring.old result }
{
    let mut port = Direct::new(core, 0);
    measuring.turn(&mut port, key, buffer, &NoGate)
}

/// The measurement for the challenge at this place, counted from 0, before its first step; None where there is none.
pub fn measurement_for(challenges: &[Challenge], place: usize) -> Option<Measuring>
    requires valid { All IsChallenge challenges.now }
    ensures { BeginsNext (slice_get challenges.now place) result }
{
    match challenges.get(place) {
        Some(challenge) => Some(Measuring::new(challenge)),
        None => None,
    }
}

impl Passes {
    /// Whether the measurer is done: it was stopped, or has made all of its programs.
    pub fn is_done(&self) -> bool
        ensures { (key : List ℕ) (w : Setting) (history : List Entry) → IsMeasuring key w history self.now
            → result ≡ (self.now.tally.stopped
            || is_none (slice_get (measuring_programs self.now.challenges.items (shape_of w)) (length (entries_of history 0)))) }
    {
        own_entries();
        self.tally.stopped || self.under_way.is_none()
    }

    // Goes on to the next challenge where the measurement under way is over.
    pub(crate) fn settle(&mut self)
        requires standing { (key : List ℕ) × (w : Setting) × (history : List Entry) × IsSteppingOn key w history self.old }
        ensures rest { self.new ≡ record self.old { ends = self.new.ends; under_way = self.new.under_way } }
        ensures stands { (key : List ℕ) (w : Setting) (history : List Entry)
            → IsSteppingOn key w history self.old → IsMeasuring key w history self.new }
    {
        measuring_stands();
        own_entries();
        let Some(measuring) = &self.under_way else {
            return;
        };
        if !measuring.is_over() {
            return;
        }
        let Some(report) = measuring.report() else {
            unreachable!()
        };
        let note = measuring.note();
        self.ends.push_reserved(PassEnd::Done { report, note });
        self.under_way = measurement_for(&self.challenges, self.ends.len());
    }

    /// One turn of the measurer: its next entry, a stop at a full history, or nothing where it is over or was stopped.
    /// The buffer is a block long. A copied block is hashed at once. It takes no memory.
    pub fn turn(&mut self, core: &mut MemCore, key: &[u8], buffer: &mut [u8]) -> Stepped
        requires stands { IsMeasuring key.now core.old.world core.old.history self.old }
        requires room { length buffer.old ≡ core.old.world.layout.size }
        ensures world { core.new.world ≡ core.old.world }
        ensures room { length buffer.new ≡ length buffer.old }
        ensures challenges { self.new.challenges ≡ self.old.challenges }
        ensures stands { IsMeasuring key.now core.new.world core.new.history self.new }
        ensures state { actor_at core.new.history self.new.tally
            ≡ own_turn core.old.world 0
            (slice_get (measuring_programs self.old.challenges.items (shape_of core.old.world)) (length (entries_of core.old.history 0)))
            (actor_at core.old.history self.old.tally) }
        ensures answer { result
            ≡ own_answer core.old.world
            (slice_get (measuring_programs self.old.challenges.items (shape_of core.old.world)) (length (entries_of core.old.history 0)))
            (actor_at core.old.history self.old.tally) }
    {
        measured_stays();
        one_entry_more();
        own_entries();
        if self.tally.stopped {
            return Stepped::Over;
        }
        let Some(measuring) = &mut self.under_way else {
            return Stepped::Over;
        };
        match step_over(measuring, core, key, buffer) {
            Step::Done { place } => {
                self.settle();
                Stepped::Made { place }
            }
            Step::Full { place } => {
                self.tally.stopped = true;
                Stepped::Full { place }
            }
        }
    }
}
