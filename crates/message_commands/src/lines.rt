//! The lines that are printed.

ghost use Rattle.std.specs.Prelude.{◌≡◌, ◌<◌, ℕ, length, IfOk, string_bytes};
ghost use Rattle.verifier.specs.declared.verdicts.Verdict.TheVariants as verdicts;
ghost use Rattle.message_commands.specs.Lines.{challenge_line, note_line, verdict_line, verdict_lines};

use image_set::ImageSet;
use std::alloc::{AllocError, Global};
use verifier::{NoteVerdict, Verdict};

#[tactic(auto, unfolding(crate::specs::Lines::challenge_line))]
pub fn challenge_line(alloc: Global, counter: u64, mac: &[u8]) -> Result<String, AllocError>
    ensures { IfOk result (λ line. string_bytes line ≡ challenge_line counter mac.now) }
{
    let digits = hex::encode(alloc, mac)?;
    format!(in alloc; "challenge {counter} {digits}\n")
}

// The line of the verdict on a report; an accepted one names its image.
#[tactic(auto, unfolding(crate::specs::Lines::verdict_line))]
fn verdict_line(alloc: Global, set: &ImageSet, verdict: Verdict) -> Result<String, AllocError>
    requires { (position : ℕ) → verdict ≡ verdicts.Accepted position → position < length set.now.images }
    ensures { IfOk result (λ line. string_bytes line ≡ verdict_line set.now.images verdict) }
{
    match verdict {
        Verdict::Accepted { position } => {
            let name = set.name(position);
            format!(in alloc; "verdict accepted {name}\n")
        }
        Verdict::Malformed => String::from_str(alloc, "verdict rejected 1\n"),
        Verdict::WrongChallenge => String::from_str(alloc, "verdict rejected 2\n"),
        Verdict::Stale { last } => format!(in alloc; "verdict rejected 3 {last}\n"),
        Verdict::WrongShape => String::from_str(alloc, "verdict rejected 4\n"),
        Verdict::UnknownMemory => String::from_str(alloc, "verdict rejected 5\n"),
    }
}

// The line of the verdict on a note.
#[tactic(auto, unfolding(crate::specs::Lines::note_line))]
fn note_line(alloc: Global, verdict: NoteVerdict) -> Result<String, AllocError>
    ensures { IfOk result (λ line. string_bytes line ≡ note_line verdict) }
{
    match verdict {
        NoteVerdict::Accepted { release } => format!(in alloc; "note accepted {release}\n"),
        NoteVerdict::Malformed => String::from_str(alloc, "note rejected 1\n"),
        NoteVerdict::WrongReport => String::from_str(alloc, "note rejected 2\n"),
        NoteVerdict::WrongTag => String::from_str(alloc, "note rejected 3\n"),
    }
}

// The lines of both verdicts.
pub fn verdict_lines(
    alloc: Global,
    set: &ImageSet,
    verdict: Verdict,
    note: Option<NoteVerdict>,
) -> Result<String, AllocError>
    requires { (position : ℕ) → verdict ≡ verdicts.Accepted position → position < length set.now.images }
    ensures { IfOk result (λ lines. string_bytes lines ≡ verdict_lines set.now.images verdict note) }
{
    let first = verdict_line(alloc, set, verdict)?;
    match note {
        None => Ok(first),
        Some(note) => {
            let second = note_line(alloc, note)?;
            format!(in alloc; "{first}{second}")
        }
    }
}
