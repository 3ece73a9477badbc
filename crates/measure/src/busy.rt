//! A port of the tests' own: before each step of the measurer an application stores a word, if it may.

ghost use Rattle.std.specs.Prelude.{◌≡◌, IsTrue, List, reverse};
ghost use Rattle.history.specs.declared.events.Act.{Act};
ghost use Rattle.history.specs.declared.events.Entry.{Entry};
ghost use Rattle.history.specs.Layout.{Setting};
ghost use Rattle.history.specs.Pass.{pass_after};
ghost use Rattle.history.specs.Legal.{IsLegal, in_order};
ghost use Rattle.chronicle.specs.declared.answers.Step.{Step};
ghost use Rattle.chronicle.specs.Ports.{HasStepped, OthersFollow};

use block_memory::aligned;
use chronicle::{
    BlockPort, Discipline, Shape, Step, Viewed, Width, answers_add_own_entries,
    others_keep_the_order, own_entries,
};
use mem_core::{Direct, MemCore, Want};

/// A measurer's port over a core. Application 1 stores 1, 2, 3 and so on at one address.
#[derive(Drop)]
pub struct Busy<'a> {
    pub core: &'a mut MemCore,
    pub addr: u32,
    pub stored: u32,
}

impl<'a> Busy<'a> {
    /// The port over this core, before the first store.
    pub fn new(core: &'a mut MemCore, addr: u32) -> Busy<'a>
        ensures owner { result.core.ghost_name ≡ core.entry.ghost_name }
        ensures core { result.core.now ≡ core.old }
    {
        Busy {
            core,
            addr,
            stored: 0,
        }
    }
}

// Others' entries before a step leave it in order, and its answer speaks of them too.
fn goes_on()
    ensures order { (w : Setting) (old middle : List Entry) (a : Act) → IsLegal w middle → OthersFollow 0 1 old middle
        → IsTrue (in_order w (pass_after (reverse old)) a) → IsTrue (in_order w (pass_after (reverse middle)) a) }
    ensures answer { (w : Setting) (old middle new : List Entry) (a : Act) (answer : Step) → OthersFollow 0 1 old middle
        → HasStepped w 0 1 middle new a answer → HasStepped w 0 1 old new a answer }
{
    answers_add_own_entries();
    others_keep_the_order();
    own_entries();
}

/// Stores the word, if the address fits and the block isn't locked.
pub fn disturb(core: &mut MemCore, addr: u32, value: u32)
    ensures world { core.new.world ≡ core.old.world }
    ensures others { OthersFollow 0 1 core.old.history core.new.history }
    ensures legal { IsLegal core.new.world core.new.history }
{
    answers_add_own_entries();
    let _before = core.length();
    if core.world().geometry().fits(addr, Width::Word) && aligned(addr, Width::Word) {
        let width = Width::Word;
        core.act(1, Want::Store { addr, width, value });
    }
}

impl Viewed for Busy<'_> {
    type Owner = u64;

    ghost owner = { λ port. port.core.ghost_name };

    ghost world = { λ port. port.core.now.world };

    ghost seen = { λ port. port.core.now.history };

    ghost low = { λ port. 0 };

    ghost high = { λ port. 1 };
}

impl BlockPort for Busy<'_> {
    fn shape(&self) -> Shape {
        self.core.world().shape()
    }

    fn start(&mut self, discipline: Discipline, counter: u64) -> Step {
        goes_on();
        self.stored = self.stored.wrapping_add(1);
        disturb(self.core, self.addr, self.stored);
        Direct::new(self.core, 0).start(discipline, counter)
    }

    fn copy(&mut self, block: u32, into: &mut [u8]) -> Step {
        goes_on();
        self.stored = self.stored.wrapping_add(1);
        disturb(self.core, self.addr, self.stored);
        Direct::new(self.core, 0).copy(block, into)
    }

    fn end(&mut self) -> Step {
        goes_on();
        self.stored = self.stored.wrapping_add(1);
        disturb(self.core, self.addr, self.stored);
        Direct::new(self.core, 0).end()
    }

    fn tick(&mut self) -> Step {
        goes_on();
        self.stored = self.stored.wrapping_add(1);
        disturb(self.core, self.addr, self.stored);
        Direct::new(self.core, 0).tick()
    }

    fn release(&mut self) -> Step {
        goes_on();
        self.stored = self.stored.wrapping_add(1);
        disturb(self.core, self.addr, self.stored);
        Direct::new(self.core, 0).release()
    }
}
