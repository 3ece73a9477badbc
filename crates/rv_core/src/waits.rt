//! What a core waits for, what it is told, and how it ends.

ghost use Rattle.std.specs.Prelude.{◌≡◌};

use history::Width;

/// Why an application is stopped.
#[derive(Clone, Copy, Debug, PartialEq, Eq)]
pub enum TrapKind {
    /// The word is none of RV32IM.
    Illegal,
    /// The word at the pc lies outside memory.
    FetchAccess,
    /// The target of a jump that is taken isn't divisible by 4.
    FetchMisaligned,
    /// A load outside memory.
    LoadAccess,
    /// A load whose address isn't divisible by its width.
    LoadMisaligned,
    /// A store outside memory.
    StoreAccess,
    /// A store whose address isn't divisible by its width.
    StoreMisaligned,
    /// EBREAK.
    Breakpoint,
    /// ECALL with a number in a7 that is none of the environment's.
    UnknownCall,
}

impl TrapKind {
    ghost use Rattle.rv_core.specs.Effects.{trap_code};

    /// The trap's number in what is printed, 1 to 9.
    pub fn code(self) -> u8
        ensures { result ≡ trap_code self }
    {
        match self {
            TrapKind::Illegal => 1,
            TrapKind::FetchAccess => 2,
            TrapKind::FetchMisaligned => 3,
            TrapKind::LoadAccess => 4,
            TrapKind::LoadMisaligned => 5,
            TrapKind::StoreAccess => 6,
            TrapKind::StoreMisaligned => 7,
            TrapKind::Breakpoint => 8,
            TrapKind::UnknownCall => 9,
        }
    }
}

/// How an application ends.
#[derive(Clone, Copy, Debug, PartialEq, Eq)]
pub enum Ending {
    /// It has called the environment with 93 in a7: the status, from a0.
    Exit(u32),
    /// It was stopped, at this pc. Registers and pc are as they were before.
    Trap(TrapKind, u32),
    /// It has no fetch left. A core never ends so by itself: who runs it counts the fetches.
    Fuel,
}

/// What a core asks for next.
#[derive(Clone, Copy, Debug, PartialEq, Eq)]
pub enum CoreWant {
    /// The instruction word at the address.
    Fetch { addr: u32 },
    /// The value of `width` bytes at the address, filled with zeros.
    Load { addr: u32, width: Width },
    /// That `width` bytes at the address become the value, which has no more bytes.
    Store { addr: u32, width: Width, value: u32 },
    /// Nothing: the application has ended.
    Ended(Ending),
}

/// The answer to what a core has asked for.
#[derive(Clone, Copy, Debug, PartialEq, Eq)]
pub enum Reply {
    /// The word that was fetched.
    Fetched(u32),
    /// The value that was loaded, below 256 to the power of its width.
    Loaded(u32),
    /// The store is done.
    Stored,
}

/// Where a core stands: before a fetch, or after the fetch of a load or a store that it still has to make.
#[derive(Clone, Copy)]
pub enum Phase {
    /// The next instruction is to be fetched.
    Fetching,
    /// A load for the register `rd`; `signed` where the value's highest bit fills the register.
    Loading {
        width: Width,
        signed: bool,
        addr: u32,
        rd: u32,
    },
    /// A store.
    Storing {
        width: Width,
        addr: u32,
        value: u32,
    },
    /// The application has ended.
    Over(Ending),
}

/// What one instruction does, apart from what memory answers.
#[derive(Clone, Copy)]
pub enum Effect {
    /// The register `rd` becomes `value`, and the pc moves. A write to x0 does nothing.
    Writes {
        rd: u32,
        value: u32,
        pc: u32,
    },
    /// The pc moves, and no register changes.
    Goes {
        pc: u32,
    },
    /// A load for the register `rd`; `signed` where the value's highest bit fills the register.
    Loads {
        width: Width,
        signed: bool,
        addr: u32,
        rd: u32,
    },
    /// A store.
    Stores {
        width: Width,
        addr: u32,
        value: u32,
    },
    /// A call of the environment.
    Calls,
    /// A trap. Registers and pc stay.
    Traps(TrapKind),
}
