//! What `check` reads.

ghost use Rattle.std.specs.Prelude.{[], All};
ghost use Rattle.att_base.specs.Files.{IsName};
ghost use Rattle.command_plans.specs.Answered.{IsQuiet, Reads, came_of};
ghost use Rattle.device_inputs.specs.Lists.{ReadEach};
ghost use Rattle.trace_commands.specs.Checks.{ReportIn, TraceIn, TraceOf};

use att_base::Files;
use chronicle::Chronicle;
use command_plans::{INPUT_LIMIT, Stop, bad_line, read_file};
use listed::{Bytes, Items, Text};
use std::alloc::Global;
use trace::TraceFault;

/// The most bytes of a trace file: 256 MiB.
const TRACE_LIMIT: u64 = 268_435_456;

// The recorded history of this text.
fn trace_of(alloc: Global, name: &str, text: &[u8]) -> Result<Chronicle, Stop>
    ensures comes { TraceOf name.now text.now [] (came_of (λ kept. kept) result) }
    ensures quiet { IsQuiet result }
{
    match trace::read(alloc, text) {
        Ok(chronicle) => Ok(chronicle),
        Err(TraceFault::Line(line)) => {
            let line = bad_line(alloc, name, "trace", line, &[])?;
            Err(Stop::Bad(line))
        }
        Err(TraceFault::Memory) => Err(Stop::Memory),
    }
}

/// The recorded history in the trace file of this name.
pub fn read_trace<F: Files>(alloc: Global, files: &mut F, name: &str) -> Result<Chronicle, Stop>
    requires { IsName name.now }
    ensures { Reads (λ kept. kept) (TraceIn name.now) result (F.shows files.old) (F.shows files.new) }
{
    let text = read_file(alloc, files, name, TRACE_LIMIT)?;
    trace_of(alloc, name, &text)
}

// The bytes of a report.
fn read_report<F: Files>(alloc: Global, files: &mut F, name: &Text) -> Result<Bytes, Stop>
    requires { IsName name.now }
    ensures { Reads (λ bytes. bytes) (ReportIn name.now) result (F.shows files.old) (F.shows files.new) }
{
    match read_file(alloc, files, name.as_str(), INPUT_LIMIT) {
        Ok(bytes) => Ok(Bytes::from_vec(bytes)),
        Err(stop) => Err(stop),
    }
}

/// The bytes of each report, in order. Nothing is asked of them.
pub fn read_reports<F: Files>(
    alloc: Global,
    files: &mut F,
    names: &[Text],
) -> Result<Items<Bytes>, Stop>
    requires { All IsName names.now }
    ensures { Reads (λ list. list) (ReadEach ReportIn names.now) result (F.shows files.old) (F.shows files.new) }
{
    let mut list = Items::new(alloc);
    for name in names {
        let bytes = read_report(alloc, files, name)?;
        let Ok(()) = list.push(bytes) else {
            return Err(Stop::Memory);
        };
    }
    Ok(list)
}
