//! A script over streams: read whole, tried whole, and then run.

ghost use Rattle.att_base.specs.Streams.{TakesFront};
ghost use Rattle.script.specs.Attested.{IsScript};
ghost use Rattle.script.specs.Ends.{ScriptEnds, TextEnds, InputEnds, InputIsLeft, InputCounts, OutputCounts};

use crate::{Script, ScriptError, read_script, releases_tell, run, scripts_attest};
use att_base::{ReadFault, Sink, Source, put_all, take_all};
use std::alloc::Global;

/// The most bytes of a script: 4 MiB.
pub const SCRIPT_LIMIT: u64 = 4_194_304;

/// How a script on a stream has ended.
#[derive(Clone, Copy, Debug, PartialEq, Eq)]
pub enum ScriptEnd {
    /// Each step was taken, and all lines are written.
    Done,
    /// The text leaves the grammar at this line, counted from 1; where the header ends too early, at the line after the last one.
    BadLine(u64),
    /// The text has more than `SCRIPT_LIMIT` bytes.
    TooLong,
    /// The input has failed.
    ReadFailed,
    /// The output has failed.
    WriteFailed,
    /// A step found the history full, with this many entries; the lines up to there are written.
    Full(u64),
    /// There is no memory.
    Memory,
}

// Runs the script, and writes its lines once all of them are there.
fn write_printed<O: Sink>(alloc: Global, script: Script, out: &mut O) -> ScriptEnd
    requires { IsScript script }
    ensures ends { ScriptEnds script (O.held out.old) (O.held out.new) result }
    ensures counted { OutputCounts result (O.faults out.old) (O.faults out.new) }
{
    scripts_attest();
    releases_tell();
    let cap = script.cap();
    let Ok(printed) = run(alloc, script) else {
        return ScriptEnd::Memory;
    };
    if put_all(out, &printed.text).is_err() {
        return ScriptEnd::WriteFailed;
    }
    if printed.is_full {
        ScriptEnd::Full(cap)
    } else {
        ScriptEnd::Done
    }
}

// Tries the whole text, and runs the script that it says.
fn write_text<O: Sink>(alloc: Global, text: &[u8], out: &mut O) -> ScriptEnd
    ensures ends { TextEnds text.now (O.held out.old) (O.held out.new) result }
    ensures counted { OutputCounts result (O.faults out.old) (O.faults out.new) }
{
    match read_script(alloc, text) {
        Ok(script) => write_printed(alloc, script, out),
        Err(ScriptError::Line(number)) => ScriptEnd::BadLine(number),
        Err(ScriptError::Memory) => ScriptEnd::Memory,
    }
}

/// Reads all that is left of the input, at most `SCRIPT_LIMIT` bytes, tries the whole text, and then runs it, one line of
/// output for each step. All memory is taken before anything is written: after `BadLine`, `TooLong`, `ReadFailed` and `Memory`
/// the output is as it was, and after `WriteFailed` it has grown by a front of the lines. No call on a stream that has failed is
/// tried again.
pub fn run_script<S: Source, O: Sink>(alloc: Global, input: &mut S, out: &mut O) -> ScriptEnd
    ensures ends { InputEnds (S.left input.old) (O.held out.old) (O.held out.new) result }
    ensures left { InputIsLeft result (S.left input.old) (S.left input.new) }
    ensures front { TakesFront (S.left input.old) (S.left input.new) }
    ensures read { InputCounts result (S.faults input.old) (S.faults input.new) }
    ensures written { OutputCounts result (O.faults out.old) (O.faults out.new) }
{
    match take_all(alloc, input, SCRIPT_LIMIT) {
        Ok(text) => write_text(alloc, &text, out),
        Err(ReadFault::TooLong) => ScriptEnd::TooLong,
        Err(ReadFault::Memory) => ScriptEnd::Memory,
        Err(ReadFault::Failed) | Err(ReadFault::Missing) => ScriptEnd::ReadFailed,
    }
}
