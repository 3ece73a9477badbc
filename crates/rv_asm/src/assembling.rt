// From a text to an executable.

ghost use Rattle.std.specs.Prelude.{◌≡◌, IfOk};
ghost use Rattle.executable.specs.Writable.{IsWritable};
ghost use Rattle.rv_asm.specs.Gives.{GivesAt};
ghost use Rattle.rv_asm.specs.First.{first_pass_place};
ghost use Rattle.rv_asm.specs.Kept.{kept_orders, from_kept};
ghost use Rattle.rv_asm.specs.Assembled.{assembled};

use crate::faults::AsmFault;
use crate::first::{Reading, first_pass};
use crate::second::{finished, second_pass};
use asm_lines::Kind;
use executable::Program;
use std::alloc::Global;

fn from_kept(alloc: Global, reading: &Reading<'_>) -> Result<Program, AsmFault>
    ensures { GivesAt (λ program. program) result (from_kept (first_pass_place reading.now.place) (kept_orders reading.now.kept.items) reading.now.after) }
{
    if !reading.place.has_entry {
        return Err(AsmFault::At {
            line: reading.after,
            kind: Kind::Layout.number(),
        });
    }
    let output = second_pass(alloc, &reading.place.labels, reading.kept.as_slice())?;
    match finished(output) {
        Ok(program) => Ok(program),
        Err(_) => Err(AsmFault::Memory),
    }
}

/// The executable that an assembler text says, or the text's first fault: the first of the first pass, else a missing
/// `.entry`, else the first of the second pass. Lines are counted from 1; without `.entry` the line after the last is
/// at fault. `Memory` may come before any of them. What is given can be written as an ELF file.
#[tactic(auto, unfolding(crate::specs::Assembled::assembled))]
pub fn assemble(alloc: Global, text: &[u8]) -> Result<Program, AsmFault>
    ensures gives { GivesAt (λ program. program) result (assembled text.now) }
    ensures writable { IfOk result (λ program. IsWritable program) }
{
    let reading = first_pass(alloc, text)?;
    from_kept(alloc, &reading)
}
