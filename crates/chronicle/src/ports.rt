//! The two ports: what an application and the measurer may ask of a device's memory.
//!
//! A port speaks for a range of actors, and has seen a list of entries. A call sees what others have added
//! since, and then adds at most the one entry of its own. So whatever stands between the calls, the list is
//! one legal history that only grows.

ghost use Rattle.std.specs.Prelude.{◌≡◌, ℕ, ◌^◌, ◌<◌, IsTrue, List, length, reverse};
ghost use Rattle.history.specs.declared.events.Width.TheVariants.{Word};
ghost use Rattle.history.specs.declared.events.Act.TheVariants as act;
ghost use Rattle.history.specs.declared.events.Entry.{Entry};
ghost use Rattle.history.specs.Layout.{Setting, IsSetting, fits, is_aligned, block_of, width_bytes};
ghost use Rattle.history.specs.Pass.{pass_after};
ghost use Rattle.history.specs.Legal.{IsLegal, in_order};
ghost use Rattle.chronicle.specs.Worlds.{shape_of};
ghost use Rattle.chronicle.specs.Ports.{IsApplication, IsMeasurer, KeepsPort, HasRead, HasStored, HasStepped, FillsBuffer, ReadsWithin, ReadsAlone, StoresAlone, StepsAlone};

use crate::answers::{Read, Step, Stored};
use crate::worlds::Shape;
use history::{Discipline, Width};

/// What contracts see of a port.
pub trait Viewed {
    /// What tells apart the things that ports are ports of.
    type Owner;

    // what the port is a port of: no call changes it
    ghost owner: { Self → Self.Owner };

    // the world, which no call changes
    ghost world: { Self → Setting };

    // the entries that the port has seen, the oldest first
    ghost seen: { Self → List Entry };

    // the port speaks for the actors from low up to below high, which no call changes
    ghost low: { Self → ℕ };

    ghost high: { Self → ℕ };

    // holds where nobody but this port makes entries, as over a core with one owner
    ghost alone: { Type 0 } = { ⊥ };
}

/// A port of an application: accesses to memory, each of which is one entry of the history.
pub trait MemPort: Viewed {
    /// The first actor that the port speaks for, and the only one where it is an application's. This makes no entry.
    fn actor(&self) -> u32
        ensures { result ≡ Self.low self.now };

    /// Fetches the instruction word at the address.
    fn fetch(&mut self, addr: u32) -> Read
        requires actor { IsApplication (Self.low self.old) (Self.high self.old) }
        requires fits { IsTrue (fits (Self.world self.old).layout addr Word) }
        requires aligned { IsTrue (is_aligned addr Word) }
        ensures port { KeepsPort (Self.owner self.old) (Self.owner self.new) (Self.world self.old) (Self.world self.new)
            (Self.low self.old) (Self.low self.new) (Self.high self.old) (Self.high self.new) }
        ensures setting { IsSetting (Self.world self.new) }
        ensures legal { IsLegal (Self.world self.new) (Self.seen self.new) }
        ensures answer { HasRead (Self.world self.old) (Self.low self.old) (Self.high self.old)
            (Self.seen self.old) (Self.seen self.new) (act.Fetch addr) result }
        ensures alone { Self.alone
            → ReadsAlone (Self.low self.old) (Self.seen self.old) (Self.seen self.new) (act.Fetch addr) result };

    /// Loads `width` bytes from the address on, the lowest byte first, filled with zeros.
    fn load(&mut self, addr: u32, width: Width) -> Read
        requires actor { IsApplication (Self.low self.old) (Self.high self.old) }
        requires fits { IsTrue (fits (Self.world self.old).layout addr width) }
        requires aligned { IsTrue (is_aligned addr width) }
        ensures port { KeepsPort (Self.owner self.old) (Self.owner self.new) (Self.world self.old) (Self.world self.new)
            (Self.low self.old) (Self.low self.new) (Self.high self.old) (Self.high self.new) }
        ensures setting { IsSetting (Self.world self.new) }
        ensures legal { IsLegal (Self.world self.new) (Self.seen self.new) }
        ensures answer { HasRead (Self.world self.old) (Self.low self.old) (Self.high self.old)
            (Self.seen self.old) (Self.seen self.new) (act.Load addr width) result }
        ensures alone { Self.alone
            → ReadsAlone (Self.low self.old) (Self.seen self.old) (Self.seen self.new) (act.Load addr width) result }
        ensures small { ReadsWithin width result };

    /// Stores the lowest `width` bytes of the value from the address on, the lowest byte first. `Again`
    /// where the block is locked and the history isn't full.
    fn store(&mut self, addr: u32, width: Width, value: u32) -> Stored
        requires actor { IsApplication (Self.low self.old) (Self.high self.old) }
        requires fits { IsTrue (fits (Self.world self.old).layout addr width) }
        requires aligned { IsTrue (is_aligned addr width) }
        requires small { value < 256 ^ width_bytes width }
        ensures port { KeepsPort (Self.owner self.old) (Self.owner self.new) (Self.world self.old) (Self.world self.new)
            (Self.low self.old) (Self.low self.new) (Self.high self.old) (Self.high self.new) }
        ensures setting { IsSetting (Self.world self.new) }
        ensures legal { IsLegal (Self.world self.new) (Self.seen self.new) }
        ensures answer { HasStored (Self.world self.old) (Self.low self.old) (Self.high self.old)
            (Self.seen self.old) (Self.seen self.new) (act.Store addr width value)
            (block_of (Self.world self.old).layout addr) result }
        ensures alone { Self.alone
            → StoresAlone (Self.low self.old) (Self.seen self.old) (Self.seen self.new) (act.Store addr width value) result };
}

/// The port of the measurer: the steps of a pass, each of which is one entry of the history.
///
/// The order of a pass has to allow a step after what the port has seen. Entries of applications never
/// change what it allows.
pub trait BlockPort: Viewed {
    /// Where the attested blocks lie. This makes no entry.
    fn shape(&self) -> Shape
        ensures shape { result ≡ shape_of (Self.world self.now) }
        ensures setting { IsSetting (Self.world self.now) };

    /// Begins a pass.
    fn start(&mut self, discipline: Discipline, counter: u64) -> Step
        requires actor { IsMeasurer (Self.low self.old) (Self.high self.old) }
        requires order { IsTrue (in_order (Self.world self.old) (pass_after (reverse (Self.seen self.old)))
            (act.Start discipline counter)) }
        ensures port { KeepsPort (Self.owner self.old) (Self.owner self.new) (Self.world self.old) (Self.world self.new)
            (Self.low self.old) (Self.low self.new) (Self.high self.old) (Self.high self.new) }
        ensures setting { IsSetting (Self.world self.new) }
        ensures legal { IsLegal (Self.world self.new) (Self.seen self.new) }
        ensures answer { HasStepped (Self.world self.old) (Self.low self.old) (Self.high self.old)
            (Self.seen self.old) (Self.seen self.new) (act.Start discipline counter) result }
        ensures alone { Self.alone
            → StepsAlone (Self.low self.old) (Self.seen self.old) (Self.seen self.new) (act.Start discipline counter) result };

    /// Copies a block into the buffer, by rising address.
    fn copy(&mut self, block: u32, into: &mut [u8]) -> Step
        requires actor { IsMeasurer (Self.low self.old) (Self.high self.old) }
        requires order { IsTrue (in_order (Self.world self.old) (pass_after (reverse (Self.seen self.old)))
            (act.Copy block)) }
        requires room { length into.old ≡ (Self.world self.old).layout.size }
        ensures port { KeepsPort (Self.owner self.old) (Self.owner self.new) (Self.world self.old) (Self.world self.new)
            (Self.low self.old) (Self.low self.new) (Self.high self.old) (Self.high self.new) }
        ensures setting { IsSetting (Self.world self.new) }
        ensures legal { IsLegal (Self.world self.new) (Self.seen self.new) }
        ensures answer { HasStepped (Self.world self.old) (Self.low self.old) (Self.high self.old)
            (Self.seen self.old) (Self.seen self.new) (act.Copy block) result }
        ensures alone { Self.alone
            → StepsAlone (Self.low self.old) (Self.seen self.old) (Self.seen self.new) (act.Copy block) result }
        ensures bytes { FillsBuffer (Self.world self.old) (Self.seen self.new) block into.old into.new result };

    /// Ends the pass.
    fn end(&mut self) -> Step
        requires actor { IsMeasurer (Self.low self.old) (Self.high self.old) }
        requires order { IsTrue (in_order (Self.world self.old) (pass_after (reverse (Self.seen self.old)))
            act.End) }
        ensures port { KeepsPort (Self.owner self.old) (Self.owner self.new) (Self.world self.old) (Self.world self.new)
            (Self.low self.old) (Self.low self.new) (Self.high self.old) (Self.high self.new) }
        ensures setting { IsSetting (Self.world self.new) }
        ensures legal { IsLegal (Self.world self.new) (Self.seen self.new) }
        ensures answer { HasStepped (Self.world self.old) (Self.low self.old) (Self.high self.old)
            (Self.seen self.old) (Self.seen self.new) act.End result }
        ensures alone { Self.alone
            → StepsAlone (Self.low self.old) (Self.seen self.old) (Self.seen self.new) act.End result };

    /// Lets time go by. This is always in order.
    fn tick(&mut self) -> Step
        requires actor { IsMeasurer (Self.low self.old) (Self.high self.old) }
        ensures port { KeepsPort (Self.owner self.old) (Self.owner self.new) (Self.world self.old) (Self.world self.new)
            (Self.low self.old) (Self.low self.new) (Self.high self.old) (Self.high self.new) }
        ensures setting { IsSetting (Self.world self.new) }
        ensures legal { IsLegal (Self.world self.new) (Self.seen self.new) }
        ensures answer { HasStepped (Self.world self.old) (Self.low self.old) (Self.high self.old)
            (Self.seen self.old) (Self.seen self.new) act.Tick result }
        ensures alone { Self.alone
            → StepsAlone (Self.low self.old) (Self.seen self.old) (Self.seen self.new) act.Tick result };

    /// Gives up what an extended discipline still locks after End.
    fn release(&mut self) -> Step
        requires actor { IsMeasurer (Self.low self.old) (Self.high self.old) }
        requires order { IsTrue (in_order (Self.world self.old) (pass_after (reverse (Self.seen self.old)))
            act.Release) }
        ensures port { KeepsPort (Self.owner self.old) (Self.owner self.new) (Self.world self.old) (Self.world self.new)
            (Self.low self.old) (Self.low self.new) (Self.high self.old) (Self.high self.new) }
        ensures setting { IsSetting (Self.world self.new) }
        ensures legal { IsLegal (Self.world self.new) (Self.seen self.new) }
        ensures answer { HasStepped (Self.world self.old) (Self.low self.old) (Self.high self.old)
            (Self.seen self.old) (Self.seen self.new) act.Release result }
        ensures alone { Self.alone
            → StepsAlone (Self.low self.old) (Self.seen self.old) (Self.seen self.new) act.Release result };
}

/// A value that keeps a history of a world.
pub trait Chronicled {
    ghost world: { Self → Setting };

    // the entries, the oldest first
    ghost history: { Self → List Entry };

    /// How many entries the history has.
    fn length(&self) -> u64
        ensures { result ≡ length (history self.now) };
}
