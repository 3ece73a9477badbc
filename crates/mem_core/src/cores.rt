//! The event machine: memory, the plan of the measurement, and the history that both come from.

ghost use Rattle.std.specs.Prelude.{◌≡◌, ◌<◌, [], ◌∷◌, ◌++◌, length, vec_len, vec_capacity};
ghost use Rattle.chronicle.specs.Ports.{entry_by};

use crate::wants::{Answer, Want};
use block_memory::BlockMemory;
use chronicle::{Act, Chronicle, Chronicled, Discipline, Entry, Width, World};
use history::blocks_in_order;
use lock_plan::{Plan, PlanStep, order_gives_next_step};
use std::alloc::{AllocError, Global};
use std::marker::Model;
use std::mem::size_of;

/// What an entry may take, so that the longest history fits 128 MB.
const MOST_ENTRY_BYTES: usize = 32;

const _: () = prove!(size_of::<Entry>() <= MOST_ENTRY_BYTES);

/// A device's memory with its history. Each call makes one event, or none. Clauses see it as a `Core` of
/// `specs/Cores.antt`.
#[derive(Drop)]
pub struct MemCore {
    world: World,
    entries: Vec<Entry>,
    memory: BlockMemory,
    plan: Plan,
}

impl Model for MemCore {
    ghost use Rattle.std.specs.Prelude.{◌≤◌, vec_capacity};
    ghost use Rattle.mem_core.specs.Cores.{Core};
    ghost use Rattle.mem_core.specs.Kept.{IsKept};

    ghost Value = { Core };

    ghost view = { λ c. record { world = c.world; history = c.entries.items } };

    ghost invariant = { λ c. IsKept c.world c.entries.items c.memory c.plan
        × (c.world.cap ≤ vec_capacity c.entries) };
}

/// Appends an entry where room is reserved, and says how many there are now.
fn append(entries: &mut Vec<Entry>, actor: u32, act: Act) -> u64
    requires { vec_len entries.old < vec_capacity entries.old }
    ensures items { entries.new.items ≡ entries.old.items ++ entry_by actor act ∷ [] }
    ensures capacity { vec_capacity entries.new ≡ vec_capacity entries.old }
    ensures place { result ≡ length entries.new.items }
{
    entries.push_reserved(Entry { actor, act });
    entries.len() as u64
}

impl MemCore {
    ghost use Rattle.std.specs.Prelude.{◌≡◌, ◌↔◌, ℕ, ◌^◌, ◌<◌, ◌≤◌, IsTrue, IfOk, [], length, reverse};
    ghost use Rattle.history.specs.declared.events.Discipline.{Discipline};
    ghost use Rattle.history.specs.declared.events.Act.TheVariants as act;
    ghost use Rattle.history.specs.Layout.{IsSetting, block_of, has_byte, width_bytes};
    ghost use Rattle.history.specs.Pass.{pass_after};
    ghost use Rattle.history.specs.Legal.{IsLegal, actor_fits, in_range, in_order};
    ghost use Rattle.chronicle.specs.Ports.{entry_by};
    ghost use Rattle.mem_core.specs.Wants.{AnswersWithin, HasAnswered, HasAnsweredCopy, StoresWithin, act_wanted};

    /// A core of this world, with no entry yet. Only want of memory refuses it.
    pub fn new(alloc: Global, world: World) -> Result<MemCore, AllocError>
        ensures world { IfOk result (λ core. core.world ≡ world) }
        ensures empty { IfOk result (λ core. core.history ≡ []) }
    {
        let entries = Vec::with_capacity(alloc, world.cap() as usize)?;
        let memory = BlockMemory::new(alloc, world.geometry(), world.image())?;
        let plan = Plan::new(*world.ranges());
        Ok(MemCore {
            world,
            entries,
            memory,
            plan,
        })
    }

    /// The core's world.
    pub fn world(&self) -> &World
        ensures value { result.now ≡ self.now.world }
        ensures setting { IsSetting self.now.world }
    {
        &self.world
    }

    /// How many entries the history has.
    pub fn length(&self) -> u64
        ensures value { result ≡ length self.now.history }
        ensures setting { IsSetting self.now.world }
        ensures legal { IsLegal self.now.world self.now.history }
        ensures few { result ≤ self.now.world.cap }
    {
        self.entries.len() as u64
    }

    /// The one step of the measurer that the order of the pass allows now, beside letting time go by.
    pub fn next(&self) -> PlanStep
        ensures start { (discipline : Discipline) (counter : ℕ) → ((result ≡ PlanStep.Start)
            ↔ IsTrue (in_order self.now.world (pass_after (reverse self.now.history))
            (act.Start discipline counter))) }
        ensures copy { (block : ℕ) → ((result ≡ PlanStep.Copy block)
            ↔ IsTrue (in_order self.now.world (pass_after (reverse self.now.history)) (act.Copy block))) }
        ensures end { (result ≡ PlanStep.End)
            ↔ IsTrue (in_order self.now.world (pass_after (reverse self.now.history)) act.End) }
        ensures release { (result ≡ PlanStep.Release)
            ↔ IsTrue (in_order self.now.world (pass_after (reverse self.now.history)) act.Release) }
    {
        self.plan.next()
    }

    /// The world and the history, as a chronicle.
    pub fn into_chronicle(self) -> Chronicle
        ensures world { result.world ≡ self.world }
        ensures entries { result.entries ≡ self.history }
        ensures legal { IsLegal self.world self.history }
    {
        let MemCore {
            world,
            entries,
            memory: _,
            plan: _,
        } = self;
        Chronicle::new(world, entries)
    }

    /// Makes the event that an actor asks for. The actor of an access is an application, 1 to 8; that of a
    /// step of the measurer is 0, and the order of the pass has to allow the step.
    ///
    /// `Full` exactly where the history is at its cap, before `Again`; `Again` exactly where a store's
    /// block is locked. The value is what was read, or 0.
    pub fn act(&mut self, actor: u32, want: Want) -> Answer
        requires actor { IsTrue (actor_fits (entry_by actor (act_wanted want 0))) }
        requires range { IsTrue (in_range self.old.world (act_wanted want 0)) }
        requires small { StoresWithin want }
        requires order { IsTrue (in_order self.old.world (pass_after (reverse self.old.history))
            (act_wanted want 0)) }
        ensures answer { HasAnswered self.old self.new actor want result }
        ensures small { AnswersWithin want result }
        ensures setting { IsSetting self.new.world }
        ensures legal { IsLegal self.new.world self.new.history }
    {
        let place = self.length();
        if place == self.world().cap() {
            return Answer::Full { place };
        }
        match want {
            Want::Fetch { addr } => self.fetch(actor, addr),
            Want::Load { addr, width } => self.load(actor, addr, width),
            Want::Store { addr, width, value } => self.store(actor, addr, width, value),
            Want::Start {
                discipline,
                counter,
            } => self.start(discipline, counter),
            Want::End => self.end(),
            Want::Tick => self.tick(),
            Want::Release => self.release(),
        }
    }

    /// Copies the block's bytes into the buffer, by rising address, as the measurer's next step. The order
    /// of the pass has to allow it.
    ///
    /// `Full` exactly where the history is at its cap. `Again` never comes.
    pub fn copy(&mut self, block: u32, into: &mut [u8]) -> Answer
        requires order { IsTrue (in_order self.old.world (pass_after (reverse self.old.history))
            (act.Copy block)) }
        requires room { length into.old ≡ self.old.world.layout.size }
        ensures answer { HasAnsweredCopy self.old self.new block into.old into.new result }
        ensures setting { IsSetting self.new.world }
        ensures legal { IsLegal self.new.world self.new.history }
    {
        let count = self.length();
        if count == self.world().cap() {
            return Answer::Full { place: count };
        }
        self.copy_next(block, into)
    }

    /// Copies the next block of the pass.
    fn copy_next(&mut self, block: u32, into: &mut [u8]) -> Answer
        requires cap { length self.old.history < self.old.world.cap }
        requires order { IsTrue (in_order self.old.world (pass_after (reverse self.old.history))
            (act.Copy block)) }
        requires room { length into.old ≡ self.old.world.layout.size }
        ensures answer { HasAnsweredCopy self.old self.new block into.old into.new result }
        ensures setting { IsSetting self.new.world }
        ensures legal { IsLegal self.new.world self.new.history }
    {
        blocks_in_order();
        order_gives_next_step();
        self.memory.copy_block(block, into);
        self.plan.copied();
        let place = append(&mut self.entries, 0, Act::Copy { block });
        Answer::Done { value: 0, place }
    }

    /// Reads an instruction word.
    fn fetch(&mut self, actor: u32, addr: u32) -> Answer
        requires cap { length self.old.history < self.old.world.cap }
        requires actor { IsTrue (actor_fits (entry_by actor (act.Fetch addr 0))) }
        requires range { IsTrue (in_range self.old.world (act.Fetch addr 0)) }
        ensures answer { HasAnswered self.old self.new actor (Want.Fetch addr) result }
        ensures setting { IsSetting self.new.world }
        ensures legal { IsLegal self.new.world self.new.history }
    {
        let value = self.memory.load(addr, Width::Word);
        let place = append(&mut self.entries, actor, Act::Fetch { addr, value });
        Answer::Done { value, place }
    }

    /// Reads `width` bytes.
    fn load(&mut self, actor: u32, addr: u32, width: Width) -> Answer
        requires cap { length self.old.history < self.old.world.cap }
        requires actor { IsTrue (actor_fits (entry_by actor (act.Load addr width 0))) }
        requires range { IsTrue (in_range self.old.world (act.Load addr width 0)) }
        ensures answer { HasAnswered self.old self.new actor (Want.Load addr width) result }
        ensures small { AnswersWithin (Want.Load addr width) result }
        ensures setting { IsSetting self.new.world }
        ensures legal { IsLegal self.new.world self.new.history }
    {
        let value = self.memory.load(addr, width);
        let place = append(&mut self.entries, actor, Act::Load { addr, width, value });
        Answer::Done { value, place }
    }

    /// Writes `width` bytes, unless their block is locked.
    fn store(&mut self, actor: u32, addr: u32, width: Width, value: u32) -> Answer
        requires cap { length self.old.history < self.old.world.cap }
        requires actor { IsTrue (actor_fits (entry_by actor (act.Store addr width value))) }
        requires range { IsTrue (in_range self.old.world (act.Store addr width value)) }
        requires small { value < 256 ^ width_bytes width }
        ensures answer { HasAnswered self.old self.new actor (Want.Store addr width value) result }
        ensures setting { IsSetting self.new.world }
        ensures legal { IsLegal self.new.world self.new.history }
    {
        if self.plan.is_locked(self.block_of(addr)) {
            return Answer::Again {
                place: self.length(),
            };
        }
        self.memory.store(addr, width, value);
        let place = append(&mut self.entries, actor, Act::Store { addr, width, value });
        Answer::Done { value: 0, place }
    }

    /// The block that has the byte at this address.
    fn block_of(&self, addr: u32) -> u32
        requires { IsTrue (has_byte self.now.world.layout addr) }
        ensures { result ≡ block_of self.now.world.layout addr }
    {
        match self.memory.geometry().block_of(addr) {
            Some(block) => block,
            None => 0,
        }
    }

    /// Begins a pass.
    fn start(&mut self, discipline: Discipline, counter: u64) -> Answer
        requires cap { length self.old.history < self.old.world.cap }
        requires order { IsTrue (in_order self.old.world (pass_after (reverse self.old.history))
            (act.Start discipline counter)) }
        ensures answer { HasAnswered self.old self.new 0 (Want.Start discipline counter) result }
        ensures setting { IsSetting self.new.world }
        ensures legal { IsLegal self.new.world self.new.history }
    {
        self.plan.start(discipline);
        let place = append(
            &mut self.entries,
            0,
            Act::Start {
                discipline,
                counter,
            },
        );
        Answer::Done { value: 0, place }
    }

    /// Ends the pass.
    fn end(&mut self) -> Answer
        requires cap { length self.old.history < self.old.world.cap }
        requires order { IsTrue (in_order self.old.world (pass_after (reverse self.old.history))
            act.End) }
        ensures answer { HasAnswered self.old self.new 0 Want.End result }
        ensures setting { IsSetting self.new.world }
        ensures legal { IsLegal self.new.world self.new.history }
    {
        self.plan.ended();
        let place = append(&mut self.entries, 0, Act::End);
        Answer::Done { value: 0, place }
    }

    /// Lets time go by.
    fn tick(&mut self) -> Answer
        requires cap { length self.old.history < self.old.world.cap }
        ensures answer { HasAnswered self.old self.new 0 Want.Tick result }
        ensures setting { IsSetting self.new.world }
        ensures legal { IsLegal self.new.world self.new.history }
    {
        let place = append(&mut self.entries, 0, Act::Tick);
        Answer::Done { value: 0, place }
    }

    /// Gives up what an extended discipline still locks.
    fn release(&mut self) -> Answer
        requires cap { length self.old.history < self.old.world.cap }
        requires order { IsTrue (in_order self.old.world (pass_after (reverse self.old.history))
            act.Release) }
        ensures answer { HasAnswered self.old self.new 0 Want.Release result }
        ensures setting { IsSetting self.new.world }
        ensures legal { IsLegal self.new.world self.new.history }
    {
        self.plan.released();
        let place = append(&mut self.entries, 0, Act::Release);
        Answer::Done { value: 0, place }
    }
}

impl Chronicled for MemCore {
    ghost use Rattle.std.specs.Prelude.{◌≡◌, length};

    ghost world = { λ core. core.world };

    ghost history = { λ core. core.history };

    fn length(&self) -> u64 {
        MemCore::length(self)
    }
}

/// Threads may share a core.
fn crosses<X: Send + Sync>(_value: &X) {}

fn core_crosses(core: &MemCore) {
    crosses(core);
}
