//! Challenges.

ghost use Rattle.att_base.specs.Files.{IsName};
ghost use Rattle.challenge.specs.Bytes.{challenge_in};
ghost use Rattle.command_plans.specs.Answered.{Gives, Reads};
ghost use Rattle.input_files.specs.InputFiles.{ChallengeIn, checked_challenge};

use att_base::Files;
use challenge::{Challenge, ChallengeFault};
use command_plans::{INPUT_LIMIT, Stop, bad_line, read_file};
use std::alloc::Global;

// The challenge that the bytes are.
fn checked_challenge(alloc: Global, key: &[u8], name: &str, bytes: &[u8]) -> Result<Challenge, Stop>
    ensures { Gives (λ sent. sent) (checked_challenge name.now (challenge_in key.now bytes.now)) result }
{
    let fault = match challenge::read(bytes, key) {
        Ok(sent) => return Ok(sent),
        Err(ChallengeFault::Malformed) => 1,
        Err(ChallengeFault::BadMac) => 2,
    };
    let line = bad_line(alloc, name, "challenge", fault, &[])?;
    Err(Stop::Bad(line))
}

/// The challenge under this key in the file of this name.
pub fn read_challenge<F: Files>(
    alloc: Global,
    files: &mut F,
    key: &[u8],
    name: &str,
) -> Result<Challenge, Stop>
    requires { IsName name.now }
    ensures { Reads (λ sent. sent) (ChallengeIn key.now name.now) result (F.shows files.old) (F.shows files.new) }
{
    let bytes = read_file(alloc, files, name, INPUT_LIMIT)?;
    checked_challenge(alloc, key, name, &bytes)
}
