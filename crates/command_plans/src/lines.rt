//! The lines that all commands share.

ghost use Rattle.std.specs.Prelude.{◌≡◌, ◌∷◌, List, IfOk, string_bytes};
ghost use Rattle.command_plans.specs.Lines.{bad_line, ending_line, numbers_text};

use crate::output::Ending;
use std::alloc::{AllocError, Global};

/// The line that an input of this name is bad: in which way, by a word and at least one number.
#[tactic(auto, unfolding(crate::specs::Lines::bad_line))]
pub fn bad_line(
    alloc: Global,
    name: &str,
    word: &str,
    number: u64,
    more: &[u64],
) -> Result<String, AllocError>
    ensures { IfOk result (λ line. string_bytes line ≡ bad_line name.now word.now (number ∷ more.now)) }
{
    let mut line = format!(in alloc; "attest: bad input {name} {word} {number}")?;
    for next in more {
        line = format!(in alloc; "{line} {next}")?;
    }
    line.push('\n')?;
    Ok(line)
}

/// What a command that has written all says on standard error. It wants memory only for a full history.
#[tactic(auto, unfolding(crate::specs::Lines::full_line))]
pub fn ending_line(alloc: Global, ending: Ending) -> Result<String, AllocError>
    ensures { IfOk result (λ line. string_bytes line ≡ ending_line ending) }
{
    match ending {
        Ending::Accepted | Ending::Refused => Ok(String::new(alloc)),
        Ending::Full(cap) => format!(in alloc; "attest: full at {cap}\n"),
    }
}
