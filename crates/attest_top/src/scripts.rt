//! The command `script`: a script on standard input is run.

ghost use Rattle.std.specs.Prelude.{OnOk, Ok, IfOk};
ghost use Rattle.command_plans.specs.Answered.{Gives};
ghost use Rattle.script.specs.Grammar.{program_of};
ghost use Rattle.script.specs.Attested.{IsAttested, IsReleased};
ghost use Rattle.attest_top.specs.Moments.{stream_view};
ghost use Rattle.attest_top.specs.Plans.{script_output, script_result};
ghost use Rattle.attest_top.specs.Prepared.{IsScriptOutput, ReadsScript};

use att_base::Source;
use command_plans::{Ending, FileParts, INPUT_LIMIT, Output, Parts, Stop, bad_line, read_input};
use script::{Script, ScriptError, read_script, releases_tell, run, scripts_attest};
use std::alloc::Global;

fn run_output<P: Parts + Drop, B: FileParts + Drop>(
    alloc: Global,
    script: Script,
) -> Result<Output<P, B>, Stop>
    ensures gives { Gives (λ w. w) (Ok (script_output script)) result }
    ensures attested { OnOk result (IsAttested script × IsReleased script) }
{
    scripts_attest();
    releases_tell();
    script.is_script();
    let cap = script.cap();
    let printed = run(alloc, script)?;
    let ending = if printed.is_full {
        Ending::Full(cap)
    } else {
        Ending::Accepted
    };
    Ok(Output::ended(alloc, Vec::new(alloc), printed.text, ending)?)
}

fn text_output<P: Parts + Drop, B: FileParts + Drop>(
    alloc: Global,
    text: &[u8],
) -> Result<Output<P, B>, Stop>
    ensures gives { Gives (λ w. w) (script_result (program_of text.now)) result }
    ensures found { IfOk result (λ w. IsScriptOutput text.now w) }
{
    match read_script(alloc, text) {
        Ok(script) => run_output(alloc, script),
        Err(ScriptError::Line(number)) => {
            let line = bad_line(alloc, "-", "script", number, &[])?;
            Err(Stop::Bad(line))
        }
        Err(ScriptError::Memory) => Err(Stop::Memory),
    }
}

/// The output of `script`: the whole input is read, then the whole text is tried, then it is run.
pub fn prepare_script<P: Parts + Drop, B: FileParts + Drop, S: Source>(
    alloc: Global,
    input: &mut S,
) -> Result<Output<P, B>, Stop>
    ensures { ReadsScript result (stream_view (S.left input.old) (S.faults input.old)) (stream_view (S.left input.new) (S.faults input.new)) }
{
    match read_input(alloc, input, INPUT_LIMIT) {
        Ok(text) => text_output(alloc, &text),
        Err(stop) => Err(stop),
    }
}
