//! The public calls.

ghost use Rattle.attest_top.specs.Lines.{command_of, run_of, still_of};
ghost use Rattle.attest_top.specs.Moments.{stream_view, Moment};
ghost use Rattle.attest_top.specs.Promise.{Promise};

use crate::Status;
use crate::command::{device_to_run, parse_still};
use crate::finish::{finish, say_usage};
use crate::laws::one_plan;
use crate::prepare::prepare_still;
use att_base::{Files, Gate, Sink, Source, Words};
use chronicle::broken_is_exact;
use command_plans::{NoParts, Output, Stop};
use device_commands::{
    TraceParts, files_have_different_names, prepare_run, uncut_runs_are_finished,
};
use std::alloc::Global;
use std::sync::Wait;
use std::thread::Threads;
use trace::confirmed_is_exact;
use trace_commands::uncut_runs_are_confirmed;

/// Carries out a command line whose command runs on one thread, and gives the status that the program ends with. Words of
/// `run DEVICE` are in no form here.
///
/// `words` are those of the command line without the program's name. All that is read is read before anything is
/// written, each file once and in the order of the command's plan. Standard error gets one line with statuses 2 to 6, a
/// front of one where it fails itself, and nothing else. It waits for nobody.
pub fn attest_still<F: Files, S: Source, O: Sink, E: Sink>(
    alloc: Global,
    words: &Words,
    files: &mut F,
    input: &mut S,
    out: &mut O,
    err: &mut E,
) -> Status
    ensures { let before : Moment = record { files = F.shows files.old; input = stream_view (S.left input.old) (S.faults input.old); out = stream_view (O.held out.old) (O.faults out.old); err = stream_view (E.held err.old) (E.faults err.old) } in
        let after : Moment = record { files = F.shows files.new; input = stream_view (S.left input.new) (S.faults input.new); out = stream_view (O.held out.new) (O.faults out.new); err = stream_view (E.held err.new) (E.faults err.new) } in
        Promise (still_of words.now) before after result }
{
    one_plan();
    files_have_different_names();
    uncut_runs_are_finished();
    broken_is_exact();
    confirmed_is_exact();
    uncut_runs_are_confirmed();
    let Some(command) = parse_still(words) else {
        return say_usage(err);
    };
    let prepared = prepare_still(alloc, command, files, input);
    finish(alloc, prepared, files, out, err)
}

/// Carries out `run DEVICE`, whose actors run on threads, and gives the status that the program ends with. All other words
/// are in no form here.
///
/// It promises what [`attest_still`] does. The gate is told where each actor stands, while that holds no lock. Where no thread
/// can be made, the actors run one after another. Standard input is left as it is. It may wait for ever, where a block stays
/// locked.
pub fn attest_run<R: Threads + Wait + Sync, F: Files, S: Source, O: Sink, E: Sink, G: Gate + Sync>(
    rt: &R,
    alloc: Global,
    words: &Words,
    files: &mut F,
    input: &mut S,
    out: &mut O,
    err: &mut E,
    gate: &G,
) -> Status
    ensures { let before : Moment = record { files = F.shows files.old; input = stream_view (S.left input.old) (S.faults input.old); out = stream_view (O.held out.old) (O.faults out.old); err = stream_view (E.held err.old) (E.faults err.old) } in
        let after : Moment = record { files = F.shows files.new; input = stream_view (S.left input.new) (S.faults input.new); out = stream_view (O.held out.new) (O.faults out.new); err = stream_view (E.held err.new) (E.faults err.new) } in
        Promise (run_of words.now) before after result }
{
    one_plan();
    files_have_different_names();
    uncut_runs_are_finished();
    broken_is_exact();
    confirmed_is_exact();
    uncut_runs_are_confirmed();
    let Some(device) = device_to_run(words) else {
        return say_usage(err);
    };
    let prepared: Result<Output<NoParts, TraceParts>, Stop> = prepare_run(
        alloc, files, device, rt, gate,
    );
    finish(alloc, prepared, files, out, err)
}

/// Carries out a command line: `run DEVICE` by [`attest_run`], and all other words by [`attest_still`]. It promises what they
/// do.
pub fn attest<R: Threads + Wait + Sync, F: Files, S: Source, O: Sink, E: Sink, G: Gate + Sync>(
    rt: &R,
    alloc: Global,
    words: &Words,
    files: &mut F,
    input: &mut S,
    out: &mut O,
    err: &mut E,
    gate: &G,
) -> Status
    ensures { let before : Moment = record { files = F.shows files.old; input = stream_view (S.left input.old) (S.faults input.old); out = stream_view (O.held out.old) (O.faults out.old); err = stream_view (E.held err.old) (E.faults err.old) } in
        let after : Moment = record { files = F.shows files.new; input = stream_view (S.left input.new) (S.faults input.new); out = stream_view (O.held out.new) (O.faults out.new); err = stream_view (E.held err.new) (E.faults err.new) } in
        Promise (command_of words.now) before after result }
{
    match device_to_run(words) {
        Some(_) => attest_run(rt, alloc, words, files, input, out, err, gate),
        None => attest_still(alloc, words, files, input, out, err),
    }
}
