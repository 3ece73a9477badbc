//! The command `challenge`: a file that asks a device for one measurement.

ghost use Rattle.std.specs.Prelude.{◌≡◌, ◌≤◌, length, Ok, IfOk, string_bytes};
ghost use Rattle.hmac256.specs.Hmac.{hmac};
ghost use Rattle.att_base.specs.Files.{IsName};
ghost use Rattle.challenge.specs.Challenges.{IsChallenge};
ghost use Rattle.challenge.specs.Bytes.{challenge_bytes, challenge_head};
ghost use Rattle.command_plans.specs.Answered.{Gives, Reads};
ghost use Rattle.message_commands.specs.Lines.{challenge_line};
ghost use Rattle.message_commands.specs.Plans.{challenge_plan, written_challenge};

use crate::lines::challenge_line;
use att_base::{Files, NamedFile};
use challenge::{Challenge, HEAD_BYTES};
use command_plans::{FileParts, Output, Parts, Planned, Stop};
use input_files::read_key;
use std::alloc::{AllocError, Global};

// A nonce has 16 bytes, so the MAC stands at its place.
fn nonce_is_whole(challenge: &Challenge)
    ensures { length challenge.now.nonce ≡ 16 }
{
    let _nonce = challenge.nonce;
}

// The line of a challenge under this key whose bytes these are: its MAC stands behind its head.
fn line_of(
    alloc: Global,
    key: &[u8],
    challenge: &Challenge,
    bytes: &[u8],
) -> Result<String, AllocError>
    requires bytes { bytes.now ≡ challenge_bytes key.now challenge.now }
    requires size { HEAD_BYTES ≤ length bytes.now }
    ensures { IfOk result (λ line. string_bytes line ≡ challenge_line challenge.now.counter (hmac key.now (challenge_head challenge.now))) }
{
    nonce_is_whole(challenge);
    let (_, mac) = bytes.split_at(HEAD_BYTES);
    challenge_line(alloc, challenge.counter, mac)
}

// What is written of the challenge under this key.
fn challenge_output<P: Parts + Drop, B: FileParts + Drop>(
    alloc: Global,
    key: &[u8],
    challenge: &Challenge,
    out: &str,
) -> Result<Output<P, B>, Stop>
    requires named { IsName out.now }
    requires valid { IsChallenge challenge.now }
    ensures { Gives (λ o. o) (Ok (written_challenge key.now challenge.now out.now)) result }
{
    let bytes = challenge::write(challenge, key);
    let line = line_of(alloc, key, challenge, &bytes)?;
    let file = NamedFile::copied(alloc, out, &bytes)?;
    let mut files = Vec::new(alloc);
    let Ok(()) = files.push(Planned::whole(file)) else {
        return Err(Stop::Memory);
    };
    Ok(Output::accepted(alloc, files, line.into_bytes()))
}

/// The output of `challenge`: the key is read, and the challenge under it stands in the file OUT; standard output
/// gets its counter and its MAC. Nothing is written here, and no file is changed.
pub fn prepare_challenge<F: Files, P: Parts + Drop, B: FileParts + Drop>(
    alloc: Global,
    files: &mut F,
    key: &str,
    challenge: &Challenge,
    out: &str,
) -> Result<Output<P, B>, Stop>
    requires named { IsName key.now × IsName out.now }
    requires valid { IsChallenge challenge.now }
    ensures { Reads (λ o. o) (challenge_plan key.now challenge.now out.now) result (F.shows files.old) (F.shows files.new) }
{
    let bytes = read_key(alloc, files, key)?;
    challenge_output(alloc, &bytes, challenge, out)
}
