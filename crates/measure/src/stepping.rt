//! A measurement made a step at a time, for a measurer that takes turns with others on one thread.

ghost use Rattle.std.specs.Prelude.{◌≡◌, ℕ, false, List, length};
ghost use Rattle.history.specs.declared.events.Act.{Act};
ghost use Rattle.history.specs.declared.events.Entry.{Entry};
ghost use Rattle.history.specs.Layout.{Setting, IsSetting};
ghost use Rattle.history.specs.Legal.{IsLegal};
ghost use Rattle.challenge.specs.declared.Challenge.{Challenge};
ghost use Rattle.challenge.specs.Challenges.{IsChallenge};
ghost use Rattle.chronicle.specs.Worlds.{shape_of};
ghost use Rattle.chronicle.specs.Ports.{IsMeasurer, KeepsPort};
ghost use Rattle.measure.specs.Program.{MayStart, measuring_program};
ghost use Rattle.measure.specs.Stepping.{HasAsked, TakesStep, TakesStepAlone, IsStageAfterEnd, IsStanding, Stands, TakesIn, is_over, left_of, note_of, report_of};

use crate::hashing::{MEASURER, hash_block};
use crate::laws;
use crate::passing::{Passing, passing_from, report_at};
use crate::standing::{measuring_stands, programs_stay_in_order};
use att_base::{Gate, MADE_COPY, MADE_END, MADE_RELEASE, MADE_START, MADE_TICK, Spot};
use challenge::Challenge;
use chronicle::{BlockPort, Shape, Step};
use report::{Note, Report, note_on};
use std::mem;

/// How far the program is made, with what is kept for the rest of it.
#[derive(Drop)]
pub enum Progress {
    /// So many Ticks are left before Start.
    Leading { left: u32 },
    /// So many blocks are copied.
    Copying { passing: Passing, made: u32 },
    /// End is made, and so many Ticks are left before Release.
    Holding { report: Report, left: u32 },
    /// All is made. There is a note exactly in an extended discipline.
    Over { report: Report, note: Option<Note> },
}

/// The program of one challenge, made a step at a time: between its turns others may make entries through ports of
/// their own.
#[derive(Drop)]
pub struct Measuring {
    challenge: Challenge,
    progress: Progress,
}

// The stage once End is made, at this place, of this pass.
fn after_end(challenge: &Challenge, passing: Passing, place: u64) -> Progress
    ensures { IsStageAfterEnd challenge.now passing place result }
{
    let report = report_at(passing, place);
    if challenge.discipline.extended() {
        return Progress::Holding {
            report,
            left: challenge.hold,
        };
    }
    Progress::Over { report, note: None }
}

// Tells the gate of the entry of this kind, if it was made.
fn tell<G: Gate>(step: Step, kind: u32, gate: &G) -> Step
    ensures { result ≡ step }
{
    if let Step::Done { place } = step {
        gate.at(MEASURER, Spot::Made { kind, place });
    }
    step
}

impl Measuring {
    /// The challenge's program before its first step. The challenge has to be valid. It is made from the next entry
    /// on, so no pass may be open.
    pub fn new(challenge: &Challenge) -> Measuring
        requires { IsChallenge challenge.now }
        ensures left { (w : Setting) → left_of w result ≡ measuring_program challenge.now (shape_of w) }
        ensures more { is_over result ≡ false }
        ensures stands { (key : List ℕ) (w : Setting) (seen : List Entry) → IsSetting w → IsLegal w seen → MayStart w seen
            → Stands key w challenge.now seen seen result }
    {
        laws::answers_make();
        Measuring {
            challenge: *challenge,
            progress: Progress::Leading {
                left: challenge.lead,
            },
        }
    }

    /// The whole program is made.
    pub fn is_over(&self) -> bool
        ensures { result ≡ is_over self.now }
    {
        matches!(self.progress, Progress::Over { .. })
    }

    /// The report, once End is made.
    pub fn report(&self) -> Option<Report>
        ensures { result ≡ report_of self.now }
    {
        match &self.progress {
            Progress::Holding { report, .. } | Progress::Over { report, .. } => Some(*report),
            Progress::Leading { .. } | Progress::Copying { .. } => None,
        }
    }

    /// The note, once Release is made.
    pub fn note(&self) -> Option<Note>
        ensures { result ≡ note_of self.now }
    {
        match &self.progress {
            Progress::Over { note, .. } => *note,
            Progress::Leading { .. } | Progress::Copying { .. } | Progress::Holding { .. } => None,
        }
    }

    // Asks the port for the first step that is left, and changes nothing here.
    fn ask<P: BlockPort, G: Gate>(&self, port: &mut P, buffer: &mut [u8], gate: &G) -> Step
        requires actor { IsMeasurer (P.low port.old) (P.high port.old) }
        requires stands { (key : List ℕ) × IsStanding key (P.world port.old) (P.seen port.old) self.now }
        requires more { is_over self.now ≡ false }
        requires room { length buffer.old ≡ (P.world port.old).layout.size }
        ensures port { KeepsPort (P.owner port.old) (P.owner port.new) (P.world port.old) (P.world port.new)
            (P.low port.old) (P.low port.new) (P.high port.old) (P.high port.new) }
        ensures setting { IsSetting (P.world port.new) }
        ensures legal { IsLegal (P.world port.new) (P.seen port.new) }
        ensures room { length buffer.new ≡ length buffer.old }
        ensures asked { HasAsked P.alone (P.world port.old) (P.seen port.old) (P.seen port.new)
            (left_of (P.world port.old) self.now) buffer.new result }
    {
        programs_stay_in_order();
        let challenge = &self.challenge;
        match &self.progress {
            Progress::Leading { left: 0 } => {
                let step = port.start(challenge.discipline, challenge.counter);
                tell(step, MADE_START, gate)
            }
            Progress::Leading { .. } => tell(port.tick(), MADE_TICK, gate),
            Progress::Copying { passing, made } if *made < passing.shape.ranges.total() => {
                let step = port.copy(passing.shape.ranges.block(*made), buffer);
                tell(step, MADE_COPY, gate)
            }
            Progress::Copying { .. } => tell(port.end(), MADE_END, gate),
            Progress::Holding { left: 0, .. } => tell(port.release(), MADE_RELEASE, gate),
            Progress::Holding { .. } => tell(port.tick(), MADE_TICK, gate),
            Progress::Over { .. } => unreachable!(),
        }
    }

    // The first step that was left is made, at this place: takes it in, and hashes what it copied into the buffer.
    fn told<G: Gate>(&mut self, key: &[u8], shape: &Shape, place: u64, buffer: &[u8], gate: &G)
        requires more { is_over self.old ≡ false }
        ensures takes { (w : Setting) (c : Challenge) (first old new : List Entry) → shape.now ≡ shape_of w
            → TakesIn key.now w c first old new self.old self.new place buffer.now }
    {
        laws::answers_make();
        laws::answers_keep();
        laws::steps_of_a_pass();
        laws::reports_stand();
        match &mut self.progress {
            Progress::Leading { left: 0 } => {
                self.progress = Progress::Copying {
                    passing: passing_from(key, &self.challenge, shape, place),
                    made: 0,
                };
            }
            Progress::Leading { left } => *left -= 1,
            Progress::Copying { passing, made } if *made < passing.shape.ranges.total() => {
                let block = passing.shape.ranges.block(*made);
                hash_block(&mut passing.hmac, block, buffer, gate);
                *made += 1;
            }
            Progress::Copying { .. } => {
                let begun = Progress::Leading { left: 0 };
                let Progress::Copying { passing, .. } = mem::replace(&mut self.progress, begun)
                else {
                    unreachable!()
                };
                self.progress = after_end(&self.challenge, passing, place);
            }
            Progress::Holding { report, left: 0 } => {
                self.progress = Progress::Over {
                    report: *report,
                    note: Some(note_on(key, report, place)),
                };
            }
            Progress::Holding { left, .. } => *left -= 1,
            Progress::Over { .. } => unreachable!(),
        }
    }

    /// Makes the first step that is left: one call of the port. The port has to be the measurer's, the program not
    /// over, and the buffer as long as a block.
    ///
    /// A copied block is hashed after the port's call has returned, from the buffer. The gate is told of the entry,
    /// and before the block is hashed. Where the history is full, nothing changes here. This takes no memory, and
    /// waits only where the port or the gate does.
    pub fn turn<P: BlockPort, G: Gate>(
        &mut self,
        port: &mut P,
        key: &[u8],
        buffer: &mut [u8],
        gate: &G,
    ) -> Step
        requires actor { IsMeasurer (P.low port.old) (P.high port.old) }
        requires stands { IsStanding key.now (P.world port.old) (P.seen port.old) self.old }
        requires more { is_over self.old ≡ false }
        requires room { length buffer.old ≡ (P.world port.old).layout.size }
        ensures port { KeepsPort (P.owner port.old) (P.owner port.new) (P.world port.old) (P.world port.new)
            (P.low port.old) (P.low port.new) (P.high port.old) (P.high port.new) }
        ensures setting { IsSetting (P.world port.new) }
        ensures legal { IsLegal (P.world port.new) (P.seen port.new) }
        ensures room { length buffer.new ≡ length buffer.old }
        ensures stands { (c : Challenge) (old : List Entry)
            → Stands key.now (P.world port.old) c old (P.seen port.old) self.old
            → Stands key.now (P.world port.old) c old (P.seen port.new) self.new }
        ensures turned { TakesStep (P.world port.old) (P.seen port.old) (P.seen port.new) self.old self.new result }
        ensures alone { P.alone
            → TakesStepAlone (P.world port.old) (P.seen port.old) (P.seen port.new) self.old result }
    {
        measuring_stands();
        let shape = port.shape();
        match self.ask(port, buffer, gate) {
            Step::Done { place } => {
                self.told(key, &shape, place, buffer, gate);
                Step::Done { place }
            }
            Step::Full { place } => Step::Full { place },
        }
    }
}
