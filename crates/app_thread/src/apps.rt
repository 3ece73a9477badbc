//! An application, and one turn of it.

use crate::turns::Turn;
use att_base::{MADE_FETCH, MADE_LOAD, MADE_STORE};
use block_memory::Geometry;
use chronicle::{MemPort, Read, Stored};
use history::Width;
use rv_core::{Core, CoreWant, Ending, Reply};
use std::marker::Model;

/// An application: its core, and how many fetches it may still make. Clauses see it as the `ProgramState` of
/// `rv_core`: where its program stands.
#[derive(Drop)]
pub struct App {
    core: Core,
    fuel: u64,
}

impl Model for App {
    ghost use Rattle.rv_core.specs.Runs.{ProgramState, standing};

    ghost Value = { ProgramState };

    ghost view = { λ app. standing app.core app.fuel };
}

impl App {
    ghost use Rattle.std.specs.Prelude.{◌≡◌, ◌%◌, ◌^◌, ◌<◌, ◌≤◌, IsTrue, length};
    ghost use Rattle.history.specs.declared.events.Width.TheVariants.{Word};
    ghost use Rattle.history.specs.Layout.{fits, is_aligned, width_bytes};
    ghost use Rattle.rv_core.specs.declared.waits.CoreWant.TheVariants as want;
    ghost use Rattle.rv_core.specs.Runs.{app_program, beginning, next_access, started};
    ghost use Rattle.rv_core.specs.Waits.{IsProperWant};
    ghost use Rattle.chronicle.specs.Ports.{IsApplication, KeepsPort};
    ghost use Rattle.app_thread.specs.Turns.{HasTurned, IsLegalAfter, TurnsAlone};

    /// An application at its first instruction, over a memory that lies there: all registers are 0 but x2, the stack
    /// pointer, the console is empty, and so many fetches may be made.
    pub fn new(geometry: Geometry, entry: u32, stack: u32, fuel: u64) -> App
        requires { entry % 4 ≡ 0 }
        ensures { result ≡ beginning (app_program (started geometry entry stack) fuel) }
    {
        let core = Core::new(geometry, entry, stack);
        App { core, fuel }
    }

    /// The access that the application asks next, or how it has ended. A fetch is of the word at the pc; an access
    /// has room in memory and is aligned, and a stored value has no more bytes than its width.
    #[inline(always)]
    pub fn next(&self) -> CoreWant
        ensures value { result ≡ next_access self.now }
        ensures proper { IsProperWant self.now.now.core.layout result }
    {
        match self.core.want() {
            CoreWant::Fetch { .. } if self.fuel == 0 => CoreWant::Ended(Ending::Fuel),
            want => want,
        }
    }

    /// What the application has printed, at most 4,096 bytes.
    pub fn console(&self) -> &[u8]
        ensures value { result.now ≡ self.now.now.core.console }
        ensures room { length result.now ≤ 4096 }
    {
        self.core.console()
    }

    /// Asks the port for the access that comes next: one call of the port, or none where the application has ended.
    ///
    /// Where the entry was made, the application goes on with what it has read. `Again`, where the store's block is
    /// locked in a history that isn't full, and `Full`, where the history is full, leave it as it is.
    #[inline(always)]
    pub fn turn<P: MemPort>(&mut self, port: &mut P) -> Turn
        requires actor { IsApplication (P.low port.old) (P.high port.old) }
        requires layout { self.old.now.core.layout ≡ (P.world port.old).layout }
        ensures port { KeepsPort (P.owner port.old) (P.owner port.new) (P.world port.old) (P.world port.new)
            (P.low port.old) (P.low port.new) (P.high port.old) (P.high port.new) }
        ensures layout { self.new.now.core.layout ≡ self.old.now.core.layout }
        ensures turn { HasTurned (P.world port.old) (P.low port.old) (P.high port.old)
            (P.seen port.old) (P.seen port.new) self.old self.new result }
        ensures legal { IsLegalAfter (P.world port.new) (P.seen port.new) result }
        ensures alone { P.alone
            → TurnsAlone (P.low port.old) (P.seen port.old) (P.seen port.new) self.old self.new result }
    {
        match self.next() {
            CoreWant::Fetch { addr } => self.fetch(port, addr),
            CoreWant::Load { addr, width } => self.load(port, addr, width),
            CoreWant::Store { addr, width, value } => self.store(port, addr, width, value),
            CoreWant::Ended(ending) => Turn::Over(ending),
        }
    }

    // Asks for the fetch that comes next.
    #[inline(always)]
    fn fetch<P: MemPort>(&mut self, port: &mut P, addr: u32) -> Turn
        requires actor { IsApplication (P.low port.old) (P.high port.old) }
        requires layout { self.old.now.core.layout ≡ (P.world port.old).layout }
        requires asked { next_access self.old ≡ want.Fetch addr }
        requires fits { IsTrue (fits (P.world port.old).layout addr Word) }
        requires aligned { IsTrue (is_aligned addr Word) }
        ensures port { KeepsPort (P.owner port.old) (P.owner port.new) (P.world port.old) (P.world port.new)
            (P.low port.old) (P.low port.new) (P.high port.old) (P.high port.new) }
        ensures layout { self.new.now.core.layout ≡ self.old.now.core.layout }
        ensures turn { HasTurned (P.world port.old) (P.low port.old) (P.high port.old)
            (P.seen port.old) (P.seen port.new) self.old self.new result }
        ensures legal { IsLegalAfter (P.world port.new) (P.seen port.new) result }
        ensures alone { P.alone
            → TurnsAlone (P.low port.old) (P.seen port.old) (P.seen port.new) self.old self.new result }
    {
        match port.fetch(addr) {
            Read::Done { value, place } => {
                self.core.told(Reply::Fetched(value));
                self.fuel -= 1;
                Turn::Made {
                    kind: MADE_FETCH,
                    place,
                }
            }
            Read::Full { place } => Turn::Full { place },
        }
    }

    // Asks for the load that comes next.
    #[inline(always)]
    fn load<P: MemPort>(&mut self, port: &mut P, addr: u32, width: Width) -> Turn
        requires actor { IsApplication (P.low port.old) (P.high port.old) }
        requires layout { self.old.now.core.layout ≡ (P.world port.old).layout }
        requires asked { next_access self.old ≡ want.Load addr width }
        requires fits { IsTrue (fits (P.world port.old).layout addr width) }
        requires aligned { IsTrue (is_aligned addr width) }
        ensures port { KeepsPort (P.owner port.old) (P.owner port.new) (P.world port.old) (P.world port.new)
            (P.low port.old) (P.low port.new) (P.high port.old) (P.high port.new) }
        ensures layout { self.new.now.core.layout ≡ self.old.now.core.layout }
        ensures turn { HasTurned (P.world port.old) (P.low port.old) (P.high port.old)
            (P.seen port.old) (P.seen port.new) self.old self.new result }
        ensures legal { IsLegalAfter (P.world port.new) (P.seen port.new) result }
        ensures alone { P.alone
            → TurnsAlone (P.low port.old) (P.seen port.old) (P.seen port.new) self.old self.new result }
    {
        match port.load(addr, width) {
            Read::Done { value, place } => {
                self.core.told(Reply::Loaded(value));
                Turn::Made {
                    kind: MADE_LOAD,
                    place,
                }
            }
            Read::Full { place } => Turn::Full { place },
        }
    }

    // Asks for the store that comes next.
    #[inline(always)]
    fn store<P: MemPort>(&mut self, port: &mut P, addr: u32, width: Width, value: u32) -> Turn
        requires actor { IsApplication (P.low port.old) (P.high port.old) }
        requires layout { self.old.now.core.layout ≡ (P.world port.old).layout }
        requires asked { next_access self.old ≡ want.Store addr width value }
        requires fits { IsTrue (fits (P.world port.old).layout addr width) }
        requires aligned { IsTrue (is_aligned addr width) }
        requires small { value < 256 ^ width_bytes width }
        ensures port { KeepsPort (P.owner port.old) (P.owner port.new) (P.world port.old) (P.world port.new)
            (P.low port.old) (P.low port.new) (P.high port.old) (P.high port.new) }
        ensures layout { self.new.now.core.layout ≡ self.old.now.core.layout }
        ensures turn { HasTurned (P.world port.old) (P.low port.old) (P.high port.old)
            (P.seen port.old) (P.seen port.new) self.old self.new result }
        ensures legal { IsLegalAfter (P.world port.new) (P.seen port.new) result }
        ensures alone { P.alone
            → TurnsAlone (P.low port.old) (P.seen port.old) (P.seen port.new) self.old self.new result }
    {
        match port.store(addr, width, value) {
            Stored::Done { place } => {
                self.core.told(Reply::Stored);
                Turn::Made {
                    kind: MADE_STORE,
                    place,
                }
            }
            Stored::Again { place } => Turn::Again { place },
            Stored::Full { place } => Turn::Full { place },
        }
    }
}

/// An application may run on a thread of its own.
fn crosses<X: Send + Sync>(_value: &X) {}

fn app_crosses(app: &App) {
    crosses(app);
}
