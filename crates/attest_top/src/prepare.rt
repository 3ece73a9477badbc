//! What each command makes of what it reads. Nothing is written here.

ghost use Rattle.std.specs.Prelude.{◌≡◌, ◌≤◌, length, drop, All, IfOk};
ghost use Rattle.att_base.specs.Files.{IsName};
ghost use Rattle.command_plans.specs.Answered.{Reads};
ghost use Rattle.attest_top.specs.Moments.{stream_view};
ghost use Rattle.attest_top.specs.Plans.{named_check_plan};
ghost use Rattle.attest_top.specs.Prepared.{Prepares};

use crate::command::{Command, Kind};
use crate::scripts::prepare_script;
use att_base::{Files, Source, Words};
use command_plans::{FileParts, Output, Parts, Stop};
use device_commands::{TraceParts, prepare_image, prepare_sched};
use executable_commands::{Listed, prepare_asm, prepare_show};
use listed::Text;
use message_commands::{prepare_challenge, prepare_verify};
use std::alloc::{AllocError, Global};
use trace_commands::{prepare_check, prepare_gen};

// The words behind the first three.
fn report_names(alloc: Global, words: &Words) -> Result<Vec<Text>, AllocError>
    requires { 3 ≤ length words.now }
    ensures { IfOk result (λ names. names.items ≡ drop 3 words.now) }
{
    let count = words.count();
    let mut names = Vec::with_capacity(alloc, count - 3)?;
    for k in 3..count {
        names.push(Text::from_str(alloc, words.word(k))?)?;
    }
    Ok(names)
}

// The output of `check`, where the names of the reports are the words behind the first three.
fn named_check<F: Files, P: Parts + Drop, B: FileParts + Drop>(
    alloc: Global,
    files: &mut F,
    trace: &str,
    key: &str,
    words: &Words,
) -> Result<Output<P, B>, Stop>
    requires count { 3 ≤ length words.now }
    requires named { IsName trace.now × IsName key.now }
    requires reports { All IsName (drop 3 words.now) }
    ensures { Reads (λ o. o) (named_check_plan trace.now key.now (drop 3 words.now)) result (F.shows files.old) (F.shows files.new) }
{
    let Ok(names) = report_names(alloc, words) else {
        return Err(Stop::Memory);
    };
    prepare_check(alloc, files, trace, key, &names)
}

/// What a command on one thread has to write, or what keeps it from writing. Nothing is read but the input of `script` and the files
/// that the command's plan reads, each once and in its order, and no file is changed.
pub fn prepare_still<F: Files, S: Source>(
    alloc: Global,
    command: Command<'_>,
    files: &mut F,
    input: &mut S,
) -> Result<Output<Listed, TraceParts>, Stop>
    ensures { Prepares command.entry result (F.shows files.old) (F.shows files.new) (stream_view (S.left input.old) (S.faults input.old)) (stream_view (S.left input.new) (S.faults input.new)) }
{
    match command.kind {
        Kind::Script => prepare_script(alloc, input),
        Kind::Asm { text, elf } => prepare_asm(alloc, files, text, elf),
        Kind::Show { elf } => prepare_show(alloc, files, elf),
        Kind::Challenge { key, asked, out } => prepare_challenge(alloc, files, key, &asked, out),
        Kind::Verify {
            verifier,
            report,
            note,
        } => prepare_verify(alloc, files, verifier, report, note),
        Kind::Image { device, out } => prepare_image(alloc, files, device, out),
        Kind::Sched { device, schedule } => prepare_sched(alloc, files, device, schedule),
        Kind::Check { trace, key, words } => named_check(alloc, files, trace, key, words),
        Kind::Gen { seed } => prepare_gen(alloc, seed),
    }
}
