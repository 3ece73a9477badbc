//! A port of the tests' own: before each call of the application the measurer takes the step that comes next.

ghost use Rattle.std.specs.Prelude.{◌≡◌, ℕ, List};
ghost use Rattle.history.specs.declared.events.Act.{Act};
ghost use Rattle.history.specs.declared.events.Entry.{Entry};
ghost use Rattle.history.specs.Layout.{Setting};
ghost use Rattle.history.specs.Legal.{IsLegal};
ghost use Rattle.chronicle.specs.declared.answers.Read.{Read};
ghost use Rattle.chronicle.specs.declared.answers.Step.{Step};
ghost use Rattle.chronicle.specs.declared.answers.Stored.{Stored};
ghost use Rattle.chronicle.specs.Ports.{HasRead, HasStored, OthersFollow, StepsAlone};

use chronicle::{
    BlockPort, Discipline, MemPort, Read, Step, Stored, Viewed, Width, answers_add_own_entries,
};
use lock_plan::PlanStep;
use mem_core::{Direct, MemCore};

/// Application 1's port over a core.
#[derive(Drop)]
pub struct Busy<'a> {
    pub core: &'a mut MemCore,
}

// A step of the measurer is an entry of another, and the answer to an access after it speaks of it too.
fn goes_on()
    ensures step { (old new : List Entry) (a : Act) (answer : Step) → StepsAlone 0 old new a answer → OthersFollow 1 2 old new }
    ensures none { (history : List Entry) → OthersFollow 1 2 history history }
    ensures read { (w : Setting) (old middle new : List Entry) (a : ℕ → Act) (answer : Read) → OthersFollow 1 2 old middle
        → HasRead w 1 2 middle new a answer → HasRead w 1 2 old new a answer }
    ensures stored { (w : Setting) (old middle new : List Entry) (a : Act) (block : ℕ) (answer : Stored) → OthersFollow 1 2 old middle
        → HasStored w 1 2 middle new a block answer → HasStored w 1 2 old new a block answer }
{
    answers_add_own_entries();
}

/// The next step of the measurer, if blocks have 16 bytes.
pub fn step_over(core: &mut MemCore) -> Option<Step>
    ensures world { core.new.world ≡ core.old.world }
    ensures others { OthersFollow 1 2 core.old.history core.new.history }
{
    goes_on();
    let mut buffer = [0u8; 16];
    if core.world().geometry().size() != 16 {
        return None;
    }
    match core.next() {
        PlanStep::Start => Some(Direct::new(core, 0).start(Discipline::All, 1)),
        PlanStep::Copy(block) => Some(Direct::new(core, 0).copy(block, &mut buffer)),
        PlanStep::End => Some(Direct::new(core, 0).end()),
        PlanStep::Release => Some(Direct::new(core, 0).release()),
    }
}

impl Viewed for Busy<'_> {
    type Owner = u64;

    ghost owner = { λ port. port.core.ghost_name };

    ghost world = { λ port. port.core.now.world };

    ghost seen = { λ port. port.core.now.history };

    ghost low = { λ port. 1 };

    ghost high = { λ port. 2 };
}

impl MemPort for Busy<'_> {
    fn actor(&self) -> u32 {
        1
    }

    fn fetch(&mut self, addr: u32) -> Read {
        goes_on();
        step_over(self.core);
        Direct::new(self.core, 1).fetch(addr)
    }

    fn load(&mut self, addr: u32, width: Width) -> Read {
        goes_on();
        step_over(self.core);
        Direct::new(self.core, 1).load(addr, width)
    }

    fn store(&mut self, addr: u32, width: Width, value: u32) -> Stored {
        goes_on();
        step_over(self.core);
        Direct::new(self.core, 1).store(addr, width, value)
    }
}
