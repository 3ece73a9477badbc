//! What has been prepared is written, and the status is told.

ghost use Rattle.std.specs.Prelude.{◌≡◌, [], All, IsErrOf, OnOk, OnErr};
ghost use Rattle.att_base.specs.Faults.{FaultCountRose};
ghost use Rattle.att_base.specs.Files.{FilesView, IsName};
ghost use Rattle.command_plans.specs.Answered.{reason_of, came_of};
ghost use Rattle.attest_top.specs.declared.status.Status.{Status as AStatus};
ghost use Rattle.attest_top.specs.Lines.{usage_line, fault_line, no_memory_line};
ghost use Rattle.attest_top.specs.Moments.{StreamView, stream_view};
ghost use Rattle.attest_top.specs.Plans.{planned};
ghost use Rattle.attest_top.specs.Outcomes.{EndsSaying, FilesWritten, FilesCut, reason_line, reason_status, CarriesOut, ComesTo};
ghost use Rattle.attest_top.specs.Prepared.{PreparesNoFiles};

use crate::Status;
use att_base::{FileFault, Files, Sink, put_all};
use command_plans::{Ending, FileParts, Output, Parts, Planned, Stop};
use std::alloc::Global;

const USAGE_LINE: &[u8] = b"attest: usage\n";

const FAULT_LINE: &[u8] = b"attest: outside fault\n";

const MEMORY_LINE: &[u8] = b"attest: memory\n";

// Says a line on standard error; a fault there is the status.
fn say<E: Sink>(err: &mut E, line: &[u8], status: Status) -> Status
    ensures { EndsSaying line.now status result (stream_view (E.held err.old) (E.faults err.old)) (stream_view (E.held err.new) (E.faults err.new)) }
{
    match put_all(err, line) {
        Ok(()) => status,
        Err(_) => Status::OutsideFault,
    }
}

/// Says that the words are in no form.
#[tactic(auto, unfolding(crate::specs::Lines::usage_line))]
pub fn say_usage<E: Sink>(err: &mut E) -> Status
    ensures { EndsSaying usage_line AStatus.Usage result (stream_view (E.held err.old) (E.faults err.old)) (stream_view (E.held err.new) (E.faults err.new)) }
{
    say(err, USAGE_LINE, Status::Usage)
}

// Says that the outside has failed.
#[tactic(auto, unfolding(crate::specs::Lines::fault_line))]
fn say_fault<E: Sink>(err: &mut E) -> Status
    ensures { EndsSaying fault_line AStatus.OutsideFault result (stream_view (E.held err.old) (E.faults err.old)) (stream_view (E.held err.new) (E.faults err.new)) }
{
    say(err, FAULT_LINE, Status::OutsideFault)
}

// Says that there is no memory.
#[tactic(auto, unfolding(crate::specs::Lines::no_memory_line))]
fn say_no_memory<E: Sink>(err: &mut E) -> Status
    ensures { EndsSaying no_memory_line AStatus.Memory result (stream_view (E.held err.old) (E.faults err.old)) (stream_view (E.held err.new) (E.faults err.new)) }
{
    say(err, MEMORY_LINE, Status::Memory)
}

// Writes the files in order, each whole before the next.
fn write_files<F: Files, B: FileParts + Drop>(
    alloc: Global,
    files: &mut F,
    written: &[Planned<B>],
) -> Result<(), FileFault>
    requires { All (λ file. IsName file.name) written.now }
    ensures ok { OnOk result (FilesWritten written.now (F.shows files.old) (F.shows files.new)) }
    ensures err { OnErr result (FilesCut written.now (F.shows files.old).held (F.shows files.new).held) }
    ensures failed { IsErrOf result FileFault.Failed → FaultCountRose (F.shows files.old).faults (F.shows files.new).faults }
    ensures memory { IsErrOf result FileFault.Memory → (F.shows files.new).faults ≡ (F.shows files.old).faults }
    ensures asked { (F.shows files.new).asked ≡ (F.shows files.old).asked }
    ensures none { written.now ≡ [] → OnOk result (F.shows files.new ≡ F.shows files.old) }
    ensures some { written.now ≡ [] → OnErr result ⊥ }
{
    for file in written {
        file.write_to(alloc, files)?;
    }
    Ok(())
}

// Writes standard output, and says the line of a full history, where all files are written.
fn write_out<P: Parts + Drop, B: FileParts + Drop, O: Sink, E: Sink>(
    output: &mut Output<P, B>,
    out: &mut O,
    err: &mut E,
) -> Status
    ensures { (before now : FilesView) (input left : StreamView) → FilesWritten output.old.files before now
        → CarriesOut output.old result (record { files = before; input = input; out = stream_view (O.held out.old) (O.faults out.old); err = stream_view (E.held err.old) (E.faults err.old) })
        (record { files = now; input = left; out = stream_view (O.held out.new) (O.faults out.new); err = stream_view (E.held err.new) (E.faults err.new) }) }
{
    if output.put_out(out).is_err() {
        return say_fault(err);
    }
    match output.ending() {
        Ending::Accepted => Status::Good,
        Ending::Refused => Status::Rejected,
        Ending::Full(_) => say(err, output.line().as_bytes(), Status::Full),
    }
}

// Writes all that was prepared: the files, then standard output, then the line of its ending.
fn write<P: Parts + Drop, B: FileParts + Drop, F: Files, O: Sink, E: Sink>(
    alloc: Global,
    output: &mut Output<P, B>,
    files: &mut F,
    out: &mut O,
    err: &mut E,
) -> Status
    ensures writes { (input left : StreamView)
        → CarriesOut output.old result (record { files = F.shows files.old; input = input; out = stream_view (O.held out.old) (O.faults out.old); err = stream_view (E.held err.old) (E.faults err.old) })
        (record { files = F.shows files.new; input = left; out = stream_view (O.held out.new) (O.faults out.new); err = stream_view (E.held err.new) (E.faults err.new) }) }
    ensures asked { (F.shows files.new).asked ≡ (F.shows files.old).asked }
    ensures none { output.old.files ≡ [] → F.shows files.new ≡ F.shows files.old }
{
    match write_files(alloc, files, output.files()) {
        Ok(()) => write_out(output, out, err),
        Err(FileFault::Failed) => say_fault(err),
        Err(FileFault::Memory) => say_no_memory(err),
    }
}

// Says why nothing is written.
fn say_stop<E: Sink>(stop: &Stop, err: &mut E) -> Status
    ensures { EndsSaying (reason_line (reason_of stop.now)) (reason_status (reason_of stop.now)) result (stream_view (E.held err.old) (E.faults err.old)) (stream_view (E.held err.new) (E.faults err.new)) }
{
    match stop {
        Stop::Absent | Stop::Fault => say_fault(err),
        Stop::Bad(line) => say(err, line.as_bytes(), Status::BadInput),
        Stop::Memory => say_no_memory(err),
    }
}

/// Writes what was prepared, or says why nothing is written, and gives the status.
pub fn finish<P: Parts + Drop, B: FileParts + Drop, F: Files, O: Sink, E: Sink>(
    alloc: Global,
    prepared: Result<Output<P, B>, Stop>,
    files: &mut F,
    out: &mut O,
    err: &mut E,
) -> Status
    ensures comes { (input left : StreamView)
        → ComesTo (planned (came_of (λ w. w) prepared)) result (record { files = F.shows files.old; input = input; out = stream_view (O.held out.old) (O.faults out.old); err = stream_view (E.held err.old) (E.faults err.old) })
        (record { files = F.shows files.new; input = left; out = stream_view (O.held out.new) (O.faults out.new); err = stream_view (E.held err.new) (E.faults err.new) }) }
    ensures asked { (F.shows files.new).asked ≡ (F.shows files.old).asked }
    ensures none { PreparesNoFiles prepared → F.shows files.new ≡ F.shows files.old }
{
    match prepared {
        Ok(mut output) => write(alloc, &mut output, files, out, err),
        Err(stop) => say_stop(&stop, err),
    }
}
