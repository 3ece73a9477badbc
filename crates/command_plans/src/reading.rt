//! Reading: a file by its name, and standard input.

ghost use Rattle.std.specs.Prelude.{◌+◌, ◌^◌, ◌<◌, ◌≤◌, [], length, IfOk};
ghost use Rattle.att_base.specs.Files.{IsName};
ghost use Rattle.att_base.specs.Streams.{TakesFront};
ghost use Rattle.command_plans.specs.Reading.{ReadFile, ReadInput};
ghost use Rattle.command_plans.specs.Answered.{Reads, came_of, CountsInput, LeavesInput};

use crate::lines::bad_line;
use crate::output::Stop;
use att_base::{Files, ReadFault, Source, read_whole, take_all};
use std::alloc::Global;

/// The most bytes of an input: 4 MiB.
pub const INPUT_LIMIT: u64 = 4_194_304;

/// The bytes of a file, if it is there and has at most `limit` bytes. Its name is asked for once, and no file is
/// changed.
pub fn read_file<F: Files>(
    alloc: Global,
    files: &mut F,
    name: &str,
    limit: u64,
) -> Result<Vec<u8>, Stop>
    requires { IsName name.now }
    ensures reads { Reads (λ v. v.items) (ReadFile limit name.now) result (F.shows files.old) (F.shows files.new) }
    ensures within { IfOk result (λ v. length v.items ≤ limit) }
{
    match read_whole(alloc, files, name, limit) {
        Ok(bytes) => Ok(bytes),
        Err(ReadFault::Missing) => Err(Stop::Absent),
        Err(ReadFault::Failed) => Err(Stop::Fault),
        Err(ReadFault::Memory) => Err(Stop::Memory),
        Err(ReadFault::TooLong) => {
            let line = bad_line(alloc, name, "long", 2, &[])?;
            Err(Stop::Bad(line))
        }
    }
}

/// All that is left of standard input, if that is at most `limit` bytes.
pub fn read_input<S: Source>(alloc: Global, input: &mut S, limit: u64) -> Result<Vec<u8>, Stop>
    requires { limit + 1 < 2 ^ 64 }
    ensures read { ReadInput limit (S.left input.old) [] (came_of (λ v. v.items) result) }
    ensures within { IfOk result (λ v. length v.items ≤ limit) }
    ensures counted { CountsInput result (S.faults input.old) (S.faults input.new) }
    ensures left { LeavesInput limit result (S.left input.old) (S.left input.new) }
    ensures front { TakesFront (S.left input.old) (S.left input.new) }
{
    match take_all(alloc, input, limit) {
        Ok(text) => Ok(text),
        Err(ReadFault::TooLong) => {
            let line = bad_line(alloc, "-", "long", 2, &[])?;
            Err(Stop::Bad(line))
        }
        Err(ReadFault::Memory) => Err(Stop::Memory),
        Err(ReadFault::Failed) | Err(ReadFault::Missing) => Err(Stop::Fault),
    }
}
