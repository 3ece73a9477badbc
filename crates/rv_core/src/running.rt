//! A core that runs one application and waits for each of its accesses.

ghost use Rattle.std.specs.Prelude.{◌≡◌, ◌<◌, ◌^◌, slice_index};
ghost use Rattle.history.specs.Layout.{width_bytes};
ghost use Rattle.rv_core.specs.Effects.{with_register, extended};
ghost use Rattle.rv_core.specs.Kept.{load_phase, store_phase};

use crate::effects::{effect_of, next_word};
use crate::waits::{CoreWant, Effect, Ending, Phase, Reply, TrapKind};
use block_memory::{Geometry, aligned};
use history::Width;
use std::marker::Model;

/// How many bytes a console holds.
pub const CONSOLE_BYTES: usize = 4096;

/// The register a0, the first argument and the result of a call.
const A0: usize = 10;

/// The register a7, the number of a call of the environment.
const A7: usize = 17;

/// The call that ends the application.
const EXIT: u32 = 93;

/// The call that prints a byte.
const PRINT: u32 = 1;

// A write to a register; one to x0 does nothing.
fn write_register(x: &mut [u32; 32], rd: u32, value: u32)
    requires { rd < 32 }
    ensures value { x.new ≡ with_register rd value x.old }
    ensures zero { slice_index x.old 0 ≡ 0 → slice_index x.new 0 ≡ 0 }
{
    if rd != 0 {
        x[rd as usize] = value;
    }
}

// A load's value in a register.
fn in_register(width: Width, signed: bool, value: u32) -> u32
    requires { value < 256 ^ width_bytes width }
    ensures { result ≡ extended signed width value }
{
    match (signed, width) {
        (true, Width::Byte) if value >= 0x80 => value + 0xffff_ff00,
        (true, Width::Half) if value >= 0x8000 => value + 0xffff_0000,
        _ => value,
    }
}

// Where a core stands after the fetch of a load.
#[inline(always)]
fn before_load(
    geometry: &Geometry,
    pc: u32,
    width: Width,
    signed: bool,
    addr: u32,
    rd: u32,
) -> Phase
    requires { rd < 32 }
    ensures { result ≡ load_phase geometry.now pc width signed addr rd }
{
    if !aligned(addr, width) {
        return Phase::Over(Ending::Trap(TrapKind::LoadMisaligned, pc));
    }
    if !geometry.fits(addr, width) {
        return Phase::Over(Ending::Trap(TrapKind::LoadAccess, pc));
    }
    Phase::Loading {
        width,
        signed,
        addr,
        rd,
    }
}

// Where a core stands after the fetch of a store.
#[inline(always)]
fn before_store(geometry: &Geometry, pc: u32, width: Width, addr: u32, value: u32) -> Phase
    requires { value < 256 ^ width_bytes width }
    ensures { result ≡ store_phase geometry.now pc width addr value }
{
    if !aligned(addr, width) {
        return Phase::Over(Ending::Trap(TrapKind::StoreMisaligned, pc));
    }
    if !geometry.fits(addr, width) {
        return Phase::Over(Ending::Trap(TrapKind::StoreAccess, pc));
    }
    Phase::Storing { width, addr, value }
}

/// One RV32IM core (RISC-V Unprivileged ISA, chapters "RV32I Base Integer Instruction Set" and "M Standard Extension for
/// Integer Multiplication and Division") and its console. Clauses see it as the `Waiting` of `specs/Runs.antt`: a core
/// between two instructions, and the word of an instruction that waits for its load or its store.
#[derive(Drop)]
pub struct Core {
    geometry: Geometry,
    registers: [u32; 32],
    pc: u32,
    console: [u8; CONSOLE_BYTES],
    count: usize,
    /// The word that was fetched last, and what it still asks.
    word: u32,
    phase: Phase,
}

impl Model for Core {
    ghost use Rattle.std.specs.Prelude.{take};
    ghost use Rattle.rv_core.specs.Runs.{Waiting, waiting};
    ghost use Rattle.rv_core.specs.Kept.{fetched_in, IsSound};

    ghost Value = { Waiting };

    ghost view = { λ c. waiting
        (record { layout = c.geometry; registers = c.registers; pc = c.pc; console = take c.count c.console })
        (fetched_in c.phase c.word) };

    ghost invariant = { λ c. IsSound
        (record { layout = c.geometry; registers = c.registers; pc = c.pc; console = take c.count c.console })
        c.count c.word c.phase };
}

impl Core {
    ghost use Rattle.std.specs.Prelude.{◌≡◌, ℕ, ◌+◌, ◌%◌, ◌<◌, ◌≤◌, length, List, [], ◌∷◌, ◌++◌, Some, None, slice_index};
    ghost use Rattle.history.specs.declared.events.Act.{Act};
    ghost use Rattle.history.specs.declared.events.Entry.{Entry};
    ghost use Rattle.rv_core.specs.declared.waits.Reply.TheVariants.{Fetched, Loaded, Stored};
    ghost use Rattle.rv_core.specs.declared.waits.Effect.TheVariants.{Calls};
    ghost use Rattle.rv_core.specs.Effects.{effect_of, next};
    ghost use Rattle.rv_core.specs.Kept.{fetched_in, KeepsPhase};
    ghost use Rattle.rv_core.specs.Runs.{CoreState, Waiting, waiting, AppProgram, ProgramState, standing, started, core_want, a7, asked_by_call, after_print, with_fetched, IsBegunRun};
    ghost use Rattle.rv_core.specs.Waits.{told_of, goes_on, IsProperWant, data_accesses, Replies, reply_value, act_asked, fuel_of};

    /// A core over a memory that lies there, at its first instruction: all registers are 0 but x2, the stack
    /// pointer.
    pub fn new(geometry: Geometry, pc: u32, sp: u32) -> Core
        requires { pc % 4 ≡ 0 }
        ensures { result ≡ waiting (started geometry pc sp) None }
    {
        let mut registers = [0; 32];
        registers[2] = sp;
        Core {
            geometry,
            registers,
            pc,
            console: [0; CONSOLE_BYTES],
            count: 0,
            word: 0,
            phase: Phase::Fetching,
        }
    }

    /// What the core asks next. It asks the same until it is told. A fetch is of the word at the pc; an access has
    /// room in memory and is aligned, and a stored value has no more bytes than its width.
    #[inline(always)]
    pub fn want(&self) -> CoreWant
        ensures value { result ≡ core_want self.now }
        ensures proper { IsProperWant self.now.core.layout result }
    {
        match self.phase {
            Phase::Fetching => {
                if self.geometry.fits(self.pc, Width::Word) {
                    CoreWant::Fetch { addr: self.pc }
                } else {
                    CoreWant::Ended(Ending::Trap(TrapKind::FetchAccess, self.pc))
                }
            }
            Phase::Loading { width, addr, .. } => CoreWant::Load { addr, width },
            Phase::Storing { width, addr, value } => CoreWant::Store { addr, width, value },
            Phase::Over(ending) => CoreWant::Ended(ending),
        }
    }

    /// The reply to what the core wants, which has to be of that kind; a loaded value is below 256 to the power of
    /// its width. A program that stands where the core so far does goes on from there by this access; so where the
    /// core is at the end of a begun run, it is at the end of one with this access more. A fetch takes one of the
    /// program's fuel.
    #[inline(always)]
    pub fn told(&mut self, reply: Reply)
        requires { Replies (core_want self.old) reply }
        ensures value { self.new ≡ told_of self.old reply }
        ensures layout { self.new.core.layout ≡ self.old.core.layout }
        // After a load or a store the instruction is over: what comes next is a fetch or the end.
        ensures once { data_accesses (core_want self.old) ≡ 1 → data_accesses (core_want self.new) ≡ 0 }
        ensures step { (fuel left : ℕ) (act : Act)
            → act_asked (core_want self.old) (reply_value reply) ≡ Some act → fuel ≡ left + fuel_of reply
            → goes_on (standing self.old fuel) act ≡ Some (standing self.new left) }
        ensures run { (start : AppProgram) (entries : List Entry) (fuel left actor : ℕ) (act : Act)
            → act_asked (core_want self.old) (reply_value reply) ≡ Some act → fuel ≡ left + fuel_of reply
            → IsBegunRun start entries (standing self.old fuel)
            → IsBegunRun start (entries ++ record { actor = actor; act = act } ∷ []) (standing self.new left) }
    {
        match reply {
            Reply::Fetched(word) => self.fetched(word),
            Reply::Loaded(value) => self.loaded(value),
            Reply::Stored => self.stored(),
        }
    }

    /// What the application has printed, at most 4,096 bytes.
    pub fn console(&self) -> &[u8]
        ensures value { result.now ≡ self.now.core.console }
        ensures room { length result.now ≤ 4096 }
    {
        &self.console[..self.count]
    }

    /// The register with this number.
    pub fn reg(&self, n: u32) -> u32
        requires { n < 32 }
        ensures value { result ≡ slice_index self.now.core.registers n }
        ensures zero { n ≡ 0 → result ≡ 0 }
    {
        self.registers[n as usize]
    }

    // The next word was fetched.
    #[inline(always)]
    fn fetched(&mut self, word: u32)
        requires { self.old.fetched ≡ None }
        ensures { self.new ≡ told_of self.old (Fetched word) }
    {
        match effect_of(word, &self.registers, self.pc) {
            Effect::Writes { rd, value, pc } => {
                write_register(&mut self.registers, rd, value);
                self.pc = pc;
            }
            Effect::Goes { pc } => self.pc = pc,
            Effect::Loads {
                width,
                signed,
                addr,
                rd,
            } => {
                let phase = before_load(&self.geometry, self.pc, width, signed, addr, rd);
                self.waits_in(word, phase);
            }
            Effect::Stores { width, addr, value } => {
                let phase = before_store(&self.geometry, self.pc, width, addr, value);
                self.waits_in(word, phase);
            }
            Effect::Calls => self.call(word),
            Effect::Traps(kind) => {
                let phase = Phase::Over(Ending::Trap(kind, self.pc));
                self.waits_in(word, phase);
            }
        }
    }

    // The instruction of this word isn't over.
    #[inline(always)]
    fn waits_in(&mut self, word: u32, phase: Phase)
        requires now { self.old.fetched ≡ None }
        requires phase { KeepsPhase self.old.core word phase }
        ensures { self.new ≡ waiting self.old.core (fetched_in phase word) }
    {
        self.word = word;
        self.phase = phase;
    }

    // A call of the environment.
    fn call(&mut self, word: u32)
        requires now { self.old.fetched ≡ None }
        requires call { effect_of word self.old.core.registers self.old.core.pc ≡ Calls }
        ensures { self.new ≡ with_fetched self.old.core word }
    {
        let ending = match self.registers[A7] {
            PRINT => return self.print(),
            EXIT => Ending::Exit(self.registers[A0]),
            _ => Ending::Trap(TrapKind::UnknownCall, self.pc),
        };
        self.waits_in(word, Phase::Over(ending));
    }

    // The low byte of a0 goes to the console, and a0 becomes 0; where the console is full, a0 becomes all ones.
    fn print(&mut self)
        requires { self.old.fetched ≡ None }
        ensures { self.new ≡ waiting (after_print self.old.core) None }
    {
        if self.count < CONSOLE_BYTES {
            self.console[self.count] = (self.registers[A0] & 0xff) as u8;
            self.count += 1;
            self.registers[A0] = 0;
        } else {
            self.registers[A0] = u32::MAX;
        }
        self.pc = next_word(self.pc);
    }

    // The load is done.
    #[inline(always)]
    fn loaded(&mut self, value: u32)
        requires { Replies (core_want self.old) (Loaded value) }
        ensures { self.new ≡ told_of self.old (Loaded value) }
    {
        let Phase::Loading {
            width,
            signed,
            rd,
            ..
        } = self.phase
        else {
            unreachable!()
        };
        self.go_on();
        write_register(&mut self.registers, rd, in_register(width, signed, value));
    }

    // The store is done.
    #[inline(always)]
    fn stored(&mut self)
        requires { Replies (core_want self.old) Stored }
        ensures { self.new ≡ told_of self.old Stored }
    {
        let Phase::Storing { .. } = self.phase else {
            unreachable!()
        };
        self.go_on();
    }

    // The instruction is over, and the next word follows.
    fn go_on(&mut self)
        ensures { self.new ≡ waiting (record self.old.core { pc = next self.old.core.pc }) None }
    {
        self.phase = Phase::Fetching;
        self.pc = next_word(self.pc);
    }
}

/// A core may run on a thread of its own.
fn crosses<X: Send + Sync>(_value: &X) {}

fn core_crosses(core: &Core) {
    crosses(core);
}
