//! The words of a command line.

ghost use Rattle.std.specs.Prelude.{◌≡◌, ◌≤◌, length, drop, All, IsTrue, IfSome};
ghost use Rattle.std.specs.List.{list_all};
ghost use Rattle.std.specs.Option.{option_copied};
ghost use Rattle.att_base.specs.Files.{IsName};
ghost use Rattle.challenge.specs.Challenges.{IsChallenge};
ghost use Rattle.attest_top.specs.Lines.{is_file_name, show_form, gen_form, two_files_form, note_form, challenge_form, check_form, first_form, counted_form, still_of, run_of};
ghost use Rattle.attest_top.specs.Prepared.{run_meant};

use att_base::{NAME_BYTES, Words};
use challenge::Challenge;
use message_commands::challenge_of;
use std::marker::Model;
use text_readers::plain_decimal;

/// What the words of a command line ask for that runs on one thread, with the names of files in them.
#[derive(Clone, Copy)]
pub enum Kind<'a> {
    /// Run the script on standard input.
    Script,
    /// Assemble a text into an ELF file.
    Asm {
        text: &'a str,
        elf: &'a str,
    },
    /// List an ELF file.
    Show {
        elf: &'a str,
    },
    /// Write a challenge under a key.
    Challenge {
        key: &'a str,
        asked: Challenge,
        out: &'a str,
    },
    /// Judge a report, and a release note.
    Verify {
        verifier: &'a str,
        report: &'a str,
        note: Option<&'a str>,
    },
    /// Write the attested bytes of a device's memory as it begins.
    Image {
        device: &'a str,
        out: &'a str,
    },
    /// Run a device under a schedule.
    Sched {
        device: &'a str,
        schedule: &'a str,
    },
    /// Check a recorded history, and reports by it, whose names stand behind the first three words.
    Check {
        trace: &'a str,
        key: &'a str,
        words: &'a Words,
    },
    /// Run the device that is drawn from a number.
    Gen {
        seed: u64,
    },
}

/// A command on one thread. Clauses see its form; its names are names of files, and what it asks for is a valid challenge.
#[derive(Drop)]
pub struct Command<'a> {
    pub kind: Kind<'a>,
}

impl<'a> Model for Command<'a> {
    ghost use Rattle.attest_top.specs.Lines.{Form};
    ghost use Rattle.attest_top.specs.Prepared.{form_meant, HasFileNames};

    ghost Value = { Form };

    ghost view = { λ c. form_meant c.kind };

    ghost invariant = { λ c. HasFileNames c.kind };
}

/// The most words of `check`: 64 names of reports behind three words.
const CHECK_WORDS: usize = 67;

fn is_file_name(word: &str) -> bool
    ensures value { result ≡ is_file_name word.now }
    ensures name { IsTrue result → IsName word.now }
{
    !word.is_empty() && word.len() <= NAME_BYTES
}

// Each word from this one on is a file name.
fn are_file_names(words: &Words, from: usize) -> bool
    requires { from ≤ length words.now }
    ensures value { result ≡ list_all is_file_name (drop from words.now) }
    ensures names { IsTrue result → All IsName (drop from words.now) }
{
    for k in from..words.count() {
        if !is_file_name(words.word(k)) {
            return false;
        }
    }
    true
}

// `show ELF`
fn show<'a>(verb: &str, elf: &'a str) -> Option<Command<'a>>
    ensures { result ≡ show_form verb.now elf.now }
{
    if verb == "show" && is_file_name(elf) {
        return Some(Command {
            kind: Kind::Show { elf },
        });
    }
    None
}

// `gen N`
fn seeded<'a>(verb: &str, number: &str) -> Option<Command<'a>>
    ensures { result ≡ gen_form verb.now number.now }
{
    if verb != "gen" {
        return None;
    }
    let seed = plain_decimal(number.as_bytes())?;
    Some(Command {
        kind: Kind::Gen { seed },
    })
}

// `show ELF` and `gen N`
fn two_words<'a>(verb: &str, word: &'a str) -> Option<Command<'a>>
    ensures { result ≡ first_form (show_form verb.now word.now) (gen_form verb.now word.now) }
{
    match show(verb, word) {
        Some(command) => Some(command),
        None => seeded(verb, word),
    }
}

// `asm TEXT ELF`, `verify VERIFIER REPORT`, `image DEVICE OUT` and `sched DEVICE SCHEDULE`
fn two_files<'a>(verb: &str, one: &'a str, other: &'a str) -> Option<Command<'a>>
    ensures { result ≡ two_files_form verb.now one.now other.now }
{
    if !(is_file_name(one) && is_file_name(other)) {
        return None;
    }
    let kind = match verb {
        "asm" => Kind::Asm {
            text: one,
            elf: other,
        },
        "verify" => Kind::Verify {
            verifier: one,
            report: other,
            note: None,
        },
        "image" => Kind::Image {
            device: one,
            out: other,
        },
        "sched" => Kind::Sched {
            device: one,
            schedule: other,
        },
        _ => return None,
    };
    Some(Command { kind })
}

// `verify VERIFIER REPORT NOTE`
fn with_note<'a>(
    verb: &str,
    verifier: &'a str,
    report: &'a str,
    note: &'a str,
) -> Option<Command<'a>>
    ensures { result ≡ note_form verb.now verifier.now report.now note.now }
{
    if verb == "verify" && is_file_name(verifier) && is_file_name(report) && is_file_name(note) {
        return Some(Command {
            kind: Kind::Verify {
                verifier,
                report,
                note: Some(note),
            },
        });
    }
    None
}

// `challenge KEY DISCIPLINE LEAD HOLD COUNTER NONCE OUT`, of which the five words between ask for this
fn challenge<'a>(
    verb: &str,
    key: &'a str,
    asked: Option<Challenge>,
    out: &'a str,
) -> Option<Command<'a>>
    requires { IfSome asked IsChallenge }
    ensures { result ≡ challenge_form verb.now key.now asked out.now }
{
    match asked {
        Some(asked) if verb == "challenge" && is_file_name(key) && is_file_name(out) => {
            Some(Command {
                kind: Kind::Challenge { key, asked, out },
            })
        }
        _ => None,
    }
}

/// The device file of `run DEVICE`; None where the words are others.
#[tactic(auto, unfolding(crate::specs::Lines::run_of))]
pub fn device_to_run<'a>(words: &'a Words) -> Option<&'a str>
    ensures form { run_meant (option_copied result) ≡ run_of words.now }
    ensures name { IfSome result (λ device. IsName device.now) }
{
    match words.count() {
        2 if words.word(0) == "run" && is_file_name(words.word(1)) => Some(words.word(1)),
        _ => None,
    }
}

// `check TRACE KEY` and up to 64 names of reports
fn check<'a>(words: &'a Words) -> Option<Command<'a>>
    ensures { result ≡ check_form words.now }
{
    let count = words.count();
    if count < 3 {
        return None;
    }
    if count > CHECK_WORDS {
        return None;
    }
    if words.word(0) == "check" && are_file_names(words, 1) {
        return Some(Command {
            kind: Kind::Check {
                trace: words.word(1),
                key: words.word(2),
                words,
            },
        });
    }
    None
}

// The commands with a fixed number of words.
#[tactic(auto, unfolding(crate::specs::Lines::counted_form))]
fn counted<'a>(words: &'a Words) -> Option<Command<'a>>
    ensures { result ≡ counted_form words.now }
{
    match words.count() {
        1 if words.word(0) == "script" => Some(Command { kind: Kind::Script }),
        2 => two_words(words.word(0), words.word(1)),
        3 => two_files(words.word(0), words.word(1), words.word(2)),
        4 => with_note(words.word(0), words.word(1), words.word(2), words.word(3)),
        8 => {
            let asked = challenge_of(
                words.word(2),
                words.word(3),
                words.word(4),
                words.word(5),
                words.word(6),
            );
            challenge(words.word(0), words.word(1), asked, words.word(7))
        }
        _ => None,
    }
}

/// The command on one thread that the words name; None where they name none.
#[tactic(auto, unfolding(crate::specs::Lines::still_of))]
pub fn parse_still<'a>(words: &'a Words) -> Option<Command<'a>>
    ensures { result ≡ still_of words.now }
{
    match check(words) {
        Some(command) => Some(command),
        None => counted(words),
    }
}
