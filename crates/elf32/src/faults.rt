//! Why bytes are no executable.

ghost use Rattle.std.specs.Prelude.{◌≡◌};
ghost use Rattle.elf32.specs.Files.{fault_number};

use thiserror::Error;

/// Why bytes are no executable for RV32: the first rule that they break, in this order.
#[derive(Clone, Copy, Debug, PartialEq, Eq, Error)]
pub enum ElfFault {
    /// There are fewer than 52 bytes.
    #[error("shorter than an ELF header")]
    Short,
    /// The first four bytes aren't those of an ELF file.
    #[error("no ELF file")]
    Magic,
    /// Class, byte order or version isn't 1.
    #[error("not 32 bits, or not little-endian")]
    Class,
    /// The type isn't that of an executable, or the version isn't 1.
    #[error("no executable")]
    Kind,
    /// The machine isn't RISC-V.
    #[error("not for RISC-V")]
    Machine,
    /// The code has compressed instructions. Other flags aren't looked at.
    #[error("compressed instructions")]
    Compressed,
    /// The program headers aren't 1 to 64 of 32 bytes each, or reach past the file.
    #[error("no table of program headers")]
    ProgramTable,
    /// A program header asks for a dynamic linker.
    #[error("a dynamic executable")]
    Dynamic,
    /// A segment to be loaded has more bytes than room, has bytes past the file, or reaches past `2^32`.
    #[error("a segment out of range")]
    SegmentRange,
}

impl ElfFault {
    /// The fault's number, from 1 in the order of the rules.
    pub fn number(&self) -> u32
        ensures { result ≡ fault_number self.now }
    {
        match self {
            ElfFault::Short => 1,
            ElfFault::Magic => 2,
            ElfFault::Class => 3,
            ElfFault::Kind => 4,
            ElfFault::Machine => 5,
            ElfFault::Compressed => 6,
            ElfFault::ProgramTable => 7,
            ElfFault::Dynamic => 8,
            ElfFault::SegmentRange => 9,
        }
    }
}
