//! Both ports over a shared core.

ghost use Rattle.std.specs.Prelude.{◌≡◌};
ghost use Rattle.std.specs.Thread.{IsSync};

use crate::memory::SharedMem;
use chronicle::{BlockPort, Discipline, MemPort, Read, Shape, Step, Stored, Viewed, Width};
use mem_core::Want;
use std::marker::Model;
use std::sync::Wait;
use turn_cell::Pass;

/// The port of one actor over a shared core. Each call but `shape` and `actor` is one turn, and may wait for it.
/// Clauses see the port as its pass, a `Token` of turn_cell.
#[derive(Drop)]
pub struct Port<'a, R: Wait> {
    memory: &'a SharedMem,
    rt: &'a R,
    pass: Option<Pass>,
}

impl<'a, R: Wait> Model for Port<'a, R> {
    ghost use Rattle.std.specs.Prelude.{◌≡◌, ◌+◌, Some};
    ghost use Rattle.turn_cell.specs.Cells.{Token};
    ghost use Rattle.shared_mem.specs.PassHeld.{pass_in};

    ghost Value = { Token };

    ghost view = { λ p. pass_in p.pass };

    ghost invariant = { λ p. let t = pass_in p.pass in
        (p.pass ≡ Some t) × (t.cell ≡ p.memory.now) × (t.high ≡ t.low + 1) };
}

impl<'a, R: Wait> Port<'a, R> {
    ghost use Rattle.std.specs.Prelude.{◌≡◌, ◌+◌};

    /// The port of the pass's one actor.
    pub fn new(memory: &'a SharedMem, pass: Pass, rt: &'a R) -> Port<'a, R>
        requires cell { pass.cell ≡ memory.now }
        requires one { pass.high ≡ pass.low + 1 }
        ensures { result ≡ pass }
    {
        Port {
            memory,
            rt,
            pass: Some(pass),
        }
    }

    /// The pass, with all that the port has seen.
    pub fn into_pass(self) -> Pass
        ensures { result ≡ self.entry }
    {
        let Port {
            memory: _,
            rt: _,
            pass,
        } = self;
        pass.unwrap()
    }
}

impl<R: Wait> Viewed for Port<'_, R> {
    type Owner = SharedMem;

    ghost owner = { λ port. port.cell };

    ghost world = { λ port. port.cell.world };

    ghost seen = { λ port. port.seen };

    ghost low = { λ port. port.low };

    ghost high = { λ port. port.high };
}

impl<R: Wait> MemPort for Port<'_, R> {
    fn actor(&self) -> u32 {
        match &self.pass {
            Some(pass) => pass.low(),
            None => unreachable!(),
        }
    }

    fn fetch(&mut self, addr: u32) -> Read {
        let pass = self.pass.take().unwrap();
        let (pass, read) = self.memory.read(self.rt, pass, Want::Fetch { addr });
        self.pass = Some(pass);
        read
    }

    fn load(&mut self, addr: u32, width: Width) -> Read {
        let pass = self.pass.take().unwrap();
        let (pass, read) = self.memory.read(self.rt, pass, Want::Load { addr, width });
        self.pass = Some(pass);
        read
    }

    fn store(&mut self, addr: u32, width: Width, value: u32) -> Stored {
        let pass = self.pass.take().unwrap();
        let (pass, stored) = self.memory.store(self.rt, pass, addr, width, value);
        self.pass = Some(pass);
        stored
    }
}

impl<R: Wait> BlockPort for Port<'_, R> {
    fn shape(&self) -> Shape {
        self.memory.shape()
    }

    fn start(&mut self, discipline: Discipline, counter: u64) -> Step {
        let want = Want::Start {
            discipline,
            counter,
        };
        let pass = self.pass.take().unwrap();
        let (pass, step) = self.memory.step(self.rt, pass, want);
        self.pass = Some(pass);
        step
    }

    fn copy(&mut self, block: u32, into: &mut [u8]) -> Step {
        let pass = self.pass.take().unwrap();
        let (pass, step) = self.memory.copy(self.rt, pass, block, into);
        self.pass = Some(pass);
        step
    }

    fn end(&mut self) -> Step {
        let pass = self.pass.take().unwrap();
        let (pass, step) = self.memory.step(self.rt, pass, Want::End);
        self.pass = Some(pass);
        step
    }

    fn tick(&mut self) -> Step {
        let pass = self.pass.take().unwrap();
        let (pass, step) = self.memory.step(self.rt, pass, Want::Tick);
        self.pass = Some(pass);
        step
    }

    fn release(&mut self) -> Step {
        let pass = self.pass.take().unwrap();
        let (pass, step) = self.memory.step(self.rt, pass, Want::Release);
        self.pass = Some(pass);
        step
    }
}

/// A port may be made here and used in another thread.
fn hands_on<X: Send>(_value: &X) {}

fn port_crosses<R: Wait + Sync>(port: &Port<'_, R>)
    requires { IsSync R.row }
{
    hands_on(port);
}
