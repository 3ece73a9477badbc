//! The command `asm`: a text is assembled, and its executable is to be written.

ghost use Rattle.std.specs.Prelude.{◌≡◌, ◌≤◌, Ok, IfOk, string_bytes};
ghost use Rattle.att_base.specs.Files.{IsName};
ghost use Rattle.executable.specs.Writable.{total_size, IsWritable};
ghost use Rattle.rv_asm.specs.Assembled.{assembled};
ghost use Rattle.command_plans.specs.Answered.{Gives, Reads};
ghost use Rattle.executable_commands.specs.Lines.{entry_line};
ghost use Rattle.executable_commands.specs.Plans.{asm_plan, checked_assembly, written_assembly};

use att_base::{Files, NamedFile};
use command_plans::{FileParts, INPUT_LIMIT, Output, Parts, Planned, Stop, bad_line, read_file};
use executable::{Program, Segment};
use rv_asm::{AsmFault, assemble};
use std::alloc::{AllocError, Global};

// How many bytes the segments have together.
fn total_size(segments: &[Segment]) -> u64
    requires { total_size segments.now ≤ 1048576 }
    ensures { result ≡ total_size segments.now }
{
    let mut size = 0;
    for segment in segments {
        size += segment.bytes.len() as u64;
    }
    size
}

#[tactic(auto, unfolding(crate::specs::Lines::entry_line))]
fn entry_line(alloc: Global, entry: u32, segments: usize, bytes: u64) -> Result<String, AllocError>
    ensures { IfOk result (λ text. string_bytes text ≡ entry_line entry segments bytes) }
{
    let word = entry.to_be_bytes();
    let digits = hex::encode(alloc, word.as_slice())?;
    format!(in alloc; "entry {digits} segments {segments} bytes {bytes}\n")
}

fn program_output<P: Parts + Drop, B: FileParts + Drop>(
    alloc: Global,
    elf: &str,
    program: &Program,
) -> Result<Output<P, B>, Stop>
    requires named { IsName elf.now }
    requires writable { IsWritable program.now }
    ensures { Gives (λ o. o) (Ok (written_assembly elf.now program.now)) result }
{
    let segments = program.segments.as_slice();
    let file = elf32::write(alloc, program)?;
    let size = total_size(segments);
    let out = entry_line(alloc, program.entry, segments.len(), size)?;
    let name = String::from_str(alloc, elf)?;
    let mut files = Vec::new(alloc);
    let Ok(()) = files.push(Planned::whole(NamedFile::new(name, file))) else {
        return Err(Stop::Memory);
    };
    Ok(Output::accepted(alloc, files, out.into_bytes()))
}

fn asm_output<P: Parts + Drop, B: FileParts + Drop>(
    alloc: Global,
    text: &str,
    elf: &str,
    source: &[u8],
) -> Result<Output<P, B>, Stop>
    requires { IsName elf.now }
    ensures { Gives (λ o. o) (checked_assembly text.now elf.now (assembled source.now)) result }
{
    match assemble(alloc, source) {
        Ok(program) => program_output(alloc, elf, &program),
        Err(AsmFault::At { line, kind }) => {
            let line = bad_line(alloc, text, "asm", line, &[u64::from(kind)])?;
            Err(Stop::Bad(line))
        }
        Err(AsmFault::Memory) => Err(Stop::Memory),
    }
}

/// The output of `asm`: the text is read, and then assembled. Nothing is written here, and no file is changed.
pub fn prepare_asm<F: Files, P: Parts + Drop, B: FileParts + Drop>(
    alloc: Global,
    files: &mut F,
    text: &str,
    elf: &str,
) -> Result<Output<P, B>, Stop>
    requires { IsName text.now × IsName elf.now }
    ensures { Reads (λ o. o) (asm_plan text.now elf.now) result (F.shows files.old) (F.shows files.new) }
{
    let source = read_file(alloc, files, text, INPUT_LIMIT)?;
    asm_output(alloc, text, elf, &source)
}
