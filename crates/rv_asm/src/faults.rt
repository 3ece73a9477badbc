// Why a text isn't assembled.

ghost use Rattle.std.specs.Prelude.{◌≡◌};
ghost use Rattle.rv_asm.specs.Gives.{at_line};

use asm_lines::Kind;
use thiserror::Error;

/// Why a line isn't read.
#[derive(Clone, Copy, Debug)]
pub enum Stop {
    Fault(Kind),
    Memory,
}

/// Why a text isn't assembled.
#[derive(Clone, Copy, Debug, PartialEq, Eq, Error)]
pub enum AsmFault {
    /// The first fault. Lines are counted from 1. The kinds are 1 Text, 2 Mnemonic, 3 Operands, 4 Register, 5 Number,
    /// 6 Range, 7 UnknownLabel, 8 DuplicateLabel and 9 Layout.
    #[error("line {line} has a fault of kind {kind}")]
    At { line: u64, kind: u32 },
    /// There is no memory for what the text says.
    #[error("out of memory")]
    Memory,
}

/// A fault of the line with this number, or want of memory.
pub fn fault_at(line: u64, stop: Stop) -> AsmFault
    ensures { result ≡ at_line line stop }
{
    match stop {
        Stop::Fault(kind) => AsmFault::At {
            line,
            kind: kind.number(),
        },
        Stop::Memory => AsmFault::Memory,
    }
}
