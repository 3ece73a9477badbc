//! What a verifier reads beside what other commands read too: a verifier file and a note.

ghost use Rattle.std.specs.Prelude.{IfOk};
ghost use Rattle.std.specs.Option.{ForSome, option_map, option_copied};
ghost use Rattle.att_base.specs.Files.{IsName};
ghost use Rattle.verifier.specs.Files.{verifier_file};
ghost use Rattle.command_plans.specs.Answered.{Gives, Reads};
ghost use Rattle.message_commands.specs.Plans.{NamesFiles, ReadNote, VerifierIn, checked_verifier};

use att_base::{DeviceFault, Files};
use command_plans::{INPUT_LIMIT, Stop, bad_line, read_file};
use std::alloc::Global;
use verifier::{VerifierPlan, read_verifier};

// What a verifier file says.
fn checked_verifier(alloc: Global, name: &str, text: &[u8]) -> Result<VerifierPlan, Stop>
    ensures gives { Gives (λ plan. plan) (checked_verifier name.now (verifier_file text.now)) result }
    ensures named { IfOk result NamesFiles }
{
    match read_verifier(alloc, text) {
        Ok(plan) => Ok(plan),
        Err(DeviceFault::Rule(rule)) => {
            let line = bad_line(alloc, name, "verifier", u64::from(rule), &[])?;
            Err(Stop::Bad(line))
        }
        Err(DeviceFault::Memory) => Err(Stop::Memory),
    }
}

/// What the verifier file of this name says.
pub fn read_plan<F: Files>(alloc: Global, files: &mut F, name: &str) -> Result<VerifierPlan, Stop>
    requires { IsName name.now }
    ensures reads { Reads (λ plan. plan) (VerifierIn name.now) result (F.shows files.old) (F.shows files.new) }
    ensures named { IfOk result NamesFiles }
{
    let text = read_file(alloc, files, name, INPUT_LIMIT)?;
    checked_verifier(alloc, name, &text)
}

/// The bytes of the note, where one is named.
pub fn read_note<F: Files>(
    alloc: Global,
    files: &mut F,
    name: Option<&str>,
) -> Result<Option<Vec<u8>>, Stop>
    requires { ForSome name (λ n. IsName n.now) }
    ensures { Reads (option_map (λ v. v.items)) (ReadNote (option_copied name.entry)) result (F.shows files.old) (F.shows files.new) }
{
    match name {
        None => Ok(None),
        Some(name) => match read_file(alloc, files, name, INPUT_LIMIT) {
            Ok(bytes) => Ok(Some(bytes)),
            Err(stop) => Err(stop),
        },
    }
}
