//! Both ports over a core that has one owner.

ghost use Rattle.std.specs.Prelude.{◌≡◌, ◌+◌, ◌^◌, ◌<◌, IsTrue, length, reverse};
ghost use Rattle.history.specs.declared.events.Width.TheVariants.{Word};
ghost use Rattle.history.specs.declared.events.Act.TheVariants as act;

use crate::cores::MemCore;
use crate::wants::{Answer, Want};
use chronicle::{BlockPort, Discipline, MemPort, Read, Shape, Step, Stored, Viewed, Width};

/// A core as one actor's port. Nothing stands between its calls: what it has seen is the core's history.
#[derive(Drop)]
pub struct Direct<'a> {
    /// The core.
    pub core: &'a mut MemCore,
    /// Who speaks: 0 is the measurer, 1 to 8 are applications.
    pub actor: u32,
}

impl<'a> Direct<'a> {
    /// The port of this actor over the core.
    ///
    /// Once the port is let go, the core is what the port held last: a call that keeps the port's owner
    /// keeps the core's name, and so its clauses on what was seen speak of the core's history.
    pub fn new(core: &'a mut MemCore, actor: u32) -> Direct<'a>
        ensures owner { result.core.ghost_name ≡ core.entry.ghost_name }
        ensures core { result.core.now ≡ core.old }
        ensures actor { result.actor ≡ actor }
    {
        Direct { core, actor }
    }
}

impl Viewed for Direct<'_> {
    type Owner = u64;

    ghost owner = { λ port. port.core.ghost_name };

    ghost world = { λ port. port.core.now.world };

    ghost seen = { λ port. port.core.now.history };

    ghost low = { λ port. port.actor };

    ghost high = { λ port. port.actor + 1 };

    ghost alone = { Unit {0} };
}

impl MemPort for Direct<'_> {
    fn actor(&self) -> u32 {
        self.actor
    }

    fn fetch(&mut self, addr: u32) -> Read {
        match self.core.act(self.actor, Want::Fetch { addr }) {
            Answer::Done { value, place } => Read::Done { value, place },
            Answer::Again { .. } => unreachable!(),
            Answer::Full { place } => Read::Full { place },
        }
    }

    fn load(&mut self, addr: u32, width: Width) -> Read {
        match self.core.act(self.actor, Want::Load { addr, width }) {
            Answer::Done { value, place } => Read::Done { value, place },
            Answer::Again { .. } => unreachable!(),
            Answer::Full { place } => Read::Full { place },
        }
    }

    fn store(&mut self, addr: u32, width: Width, value: u32) -> Stored {
        match self
            .core
            .act(self.actor, Want::Store { addr, width, value })
        {
            Answer::Done { place, .. } => Stored::Done { place },
            Answer::Again { place } => Stored::Again { place },
            Answer::Full { place } => Stored::Full { place },
        }
    }
}

impl BlockPort for Direct<'_> {
    fn shape(&self) -> Shape {
        self.core.world().shape()
    }

    fn start(&mut self, discipline: Discipline, counter: u64) -> Step {
        let want = Want::Start {
            discipline,
            counter,
        };
        match self.core.act(0, want) {
            Answer::Done { place, .. } => Step::Done { place },
            Answer::Again { .. } => unreachable!(),
            Answer::Full { place } => Step::Full { place },
        }
    }

    fn copy(&mut self, block: u32, into: &mut [u8]) -> Step {
        match self.core.copy(block, into) {
            Answer::Done { place, .. } => Step::Done { place },
            Answer::Again { .. } => unreachable!(),
            Answer::Full { place } => Step::Full { place },
        }
    }

    fn end(&mut self) -> Step {
        match self.core.act(0, Want::End) {
            Answer::Done { place, .. } => Step::Done { place },
            Answer::Again { .. } => unreachable!(),
            Answer::Full { place } => Step::Full { place },
        }
    }

    fn tick(&mut self) -> Step {
        match self.core.act(0, Want::Tick) {
            Answer::Done { place, .. } => Step::Done { place },
            Answer::Again { .. } => unreachable!(),
            Answer::Full { place } => Step::Full { place },
        }
    }

    fn release(&mut self) -> Step {
        match self.core.act(0, Want::Release) {
            Answer::Done { place, .. } => Step::Done { place },
            Answer::Again { .. } => unreachable!(),
            Answer::Full { place } => Step::Full { place },
        }
    }
}
