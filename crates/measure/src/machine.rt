//! The measurer's program as a machine: it says what comes next, and is told the place of each entry made.

ghost use Rattle.std.specs.Prelude.{◌≡◌};
ghost use Rattle.chronicle.specs.declared.worlds.Shape.{Shape};
ghost use Rattle.measure.specs.Program.{closing_acts};
ghost use Rattle.measure.specs.Machine.{FitsShape, acts_left};

use challenge::Challenge;
use chronicle::Shape;
use std::marker::Model;

/// What the measurer does next.
#[derive(Clone, Copy, Debug, PartialEq, Eq)]
pub enum PassWant {
    /// Let time go by.
    Tick,
    /// Begin the pass.
    Start,
    /// Copy this block, numbered from the first of memory.
    Copy(u32),
    /// End the pass.
    End,
    /// Give up what an extended discipline still locks after End.
    Release,
    /// Nothing: the program is made.
    Over,
}

/// How far the program is made.
#[derive(Clone, Copy, Debug, PartialEq, Eq)]
pub enum Stage {
    /// So many Ticks are left before Start.
    Leading { left: u32 },
    /// So many blocks are copied.
    Copying { made: u32 },
    /// So many Ticks are left before Release.
    Holding { left: u32 },
    Over,
}

/// The measurer's program for one challenge, step by step. Clauses see it as a `Machine` of `specs/Machine.antt`:
/// the acts that are left, and the places of Start and End.
#[derive(Drop)]
pub struct PassMachine {
    challenge: Challenge,
    shape: Shape,
    stage: Stage,
    start: u64,
    end: u64,
}

// The stage once End is made.
fn after_end(challenge: &Challenge) -> Stage
    ensures left { (shape : Shape) → acts_left challenge.now shape result ≡ closing_acts challenge.now }
    ensures within { (shape : Shape) → FitsShape shape result }
{
    if challenge.discipline.extended() {
        return Stage::Holding {
            left: challenge.hold,
        };
    }
    Stage::Over
}

impl Model for PassMachine {
    ghost use Rattle.measure.specs.Machine.{Machine, FitsShape, acts_left};

    ghost Value = { Machine };

    ghost view = { λ m. record { left = acts_left m.challenge m.shape m.stage; start = m.start; end = m.end } };

    ghost invariant = { λ m. FitsShape m.shape m.stage };
}

impl PassMachine {
    ghost use Rattle.std.specs.Prelude.{◌≡◌, ◌↔◌, ◌<◌, IsTrue, length};
    ghost use Rattle.challenge.specs.Challenges.{IsChallenge};
    ghost use Rattle.measure.specs.Machine.{new_machine, told_machine, first_want};

    /// The machine before its first step. The challenge has to be valid.
    pub fn new(challenge: &Challenge, shape: &Shape) -> PassMachine
        requires { IsChallenge challenge.now }
        ensures { result ≡ new_machine challenge.now shape.now }
    {
        PassMachine {
            challenge: *challenge,
            shape: *shape,
            stage: Stage::Leading {
                left: challenge.lead,
            },
            start: 0,
            end: 0,
        }
    }

    /// What comes next.
    pub fn want(&self) -> PassWant
        ensures { result ≡ first_want self.now.left }
    {
        match self.stage {
            Stage::Leading { left: 0 } => PassWant::Start,
            Stage::Leading { .. } => PassWant::Tick,
            Stage::Copying { made } if made < self.shape.ranges.total() => {
                PassWant::Copy(self.shape.ranges.block(made))
            }
            Stage::Copying { .. } => PassWant::End,
            Stage::Holding { left: 0 } => PassWant::Release,
            Stage::Holding { .. } => PassWant::Tick,
            Stage::Over => PassWant::Over,
        }
    }

    /// The program is made: nothing is left of it.
    pub fn is_over(&self) -> bool
        ensures { IsTrue result ↔ (length self.now.left ≡ 0) }
    {
        match self.stage {
            Stage::Leading { .. } | Stage::Copying { .. } | Stage::Holding { .. } => false,
            Stage::Over => true,
        }
    }

    /// The place of Start, once it was told; 0 before.
    pub fn start(&self) -> u64
        ensures { result ≡ self.now.start }
    {
        self.start
    }

    /// The place of End, once it was told; 0 before.
    pub fn end(&self) -> u64
        ensures { result ≡ self.now.end }
    {
        self.end
    }

    /// What was wanted has been made, at this place. The program must not be over.
    pub fn told(&mut self, place: u64)
        requires { 0 < length self.old.left }
        ensures { self.new ≡ told_machine self.old place }
    {
        match self.stage {
            Stage::Leading { left: 0 } => {
                self.start = place;
                self.stage = Stage::Copying { made: 0 };
            }
            Stage::Leading { left } => self.stage = Stage::Leading { left: left - 1 },
            Stage::Copying { made } if made < self.shape.ranges.total() => {
                self.stage = Stage::Copying { made: made + 1 };
            }
            Stage::Copying { .. } => {
                self.end = place;
                self.stage = after_end(&self.challenge);
            }
            Stage::Holding { left: 0 } => self.stage = Stage::Over,
            Stage::Holding { left } => self.stage = Stage::Holding { left: left - 1 },
            Stage::Over => unreachable!(),
        }
    }
}
