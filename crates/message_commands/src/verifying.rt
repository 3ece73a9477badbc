//! The command `verify`: a report, and maybe a note, against what the verifier's own files say.

ghost use Rattle.std.specs.Prelude.{◌≡◌, Ok};
ghost use Rattle.std.specs.Option.{ForSome, option_copied, option_map};
ghost use Rattle.att_base.specs.Files.{IsName};
ghost use Rattle.command_plans.specs.Answered.{Gives, Reads};
ghost use Rattle.message_commands.specs.Plans.{KnowledgeIn, judgement, verify_plan};

use crate::judging::judgement;
use crate::reading::{read_note, read_plan};
use att_base::Files;
use challenge::Challenge;
use command_plans::{FileParts, INPUT_LIMIT, Output, Parts, Stop, read_file};
use image_set::ImageSet;
use input_files::{image_shape, read_challenge, read_images, read_key};
use std::alloc::Global;
use std::marker::Model;
use verifier::{Verifier, VerifierPlan};

// What a verifier's own files say.
#[derive(Drop)]
struct Knowledge {
    key: Vec<u8>,
    expected: Challenge,
    last: u64,
    set: ImageSet,
}

impl Model for Knowledge {
    ghost use Rattle.message_commands.specs.Plans.{Knowledge as Known};

    ghost Value = { Known };

    ghost view = { λ k. record {
      standing = record { key = k.key.items; expected = k.expected; last = k.last; shape = k.set.shape };
      images = k.set.images;
    } };
}

// What the verifier file of this name and the files that it names say.
fn read_knowledge<F: Files>(alloc: Global, files: &mut F, verifier: &str) -> Result<Knowledge, Stop>
    requires { IsName verifier.now }
    ensures { Reads (λ known. known) (KnowledgeIn verifier.now) result (F.shows files.old) (F.shows files.new) }
{
    let plan = read_plan(alloc, files, verifier)?;
    let key = read_key(alloc, files, plan.key.as_str())?;
    let expected = read_challenge(alloc, files, &key, plan.challenge.as_str())?;
    let shape = image_shape(&plan.geometry, plan.ranges);
    let set = read_images(alloc, files, shape, plan.images.as_slice())?;
    Ok(Knowledge {
        key,
        expected,
        last: plan.last,
        set,
    })
}

// The bytes that were read, where any were.
fn bytes_of(read: &Option<Vec<u8>>) -> Option<&[u8]>
    ensures { option_copied result ≡ option_map (λ v. v.items) read.now }
{
    match read {
        None => None,
        Some(bytes) => Some(bytes),
    }
}

// The judgement on what was read.
fn judge<P: Parts + Drop, B: FileParts + Drop>(
    alloc: Global,
    known: &Knowledge,
    report: &[u8],
    note: Option<&[u8]>,
) -> Result<Output<P, B>, Stop>
    ensures { Gives (λ o. o) (Ok (judgement known.now report.now (option_copied note.entry))) result }
{
    let shape = known.set.shape();
    let mut verifier = Verifier::new(&known.key, known.expected, known.last, shape);
    match judgement(alloc, &mut verifier, &known.set, report, note) {
        Ok(output) => Ok(output),
        Err(_) => Err(Stop::Memory),
    }
}

/// The output of `verify`: the verifier file is read, then the key, the challenge and the images that it names, then
/// the report, and then the note where one is named, whatever will be said of the report. The report is judged, and
/// where it is accepted the note. Nothing is written here, and no file is changed.
pub fn prepare_verify<F: Files, P: Parts + Drop, B: FileParts + Drop>(
    alloc: Global,
    files: &mut F,
    verifier: &str,
    report: &str,
    note: Option<&str>,
) -> Result<Output<P, B>, Stop>
    requires names { IsName verifier.now × IsName report.now }
    requires note { ForSome note (λ n. IsName n.now) }
    ensures { Reads (λ o. o) (verify_plan verifier.now report.now (option_copied note.entry)) result (F.shows files.old) (F.shows files.new) }
{
    let known = read_knowledge(alloc, files, verifier)?;
    let bytes = read_file(alloc, files, report, INPUT_LIMIT)?;
    let written = read_note(alloc, files, note)?;
    judge(alloc, &known, &bytes, bytes_of(&written))
}
