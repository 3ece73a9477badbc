//! The files of challenges, and their admission.

ghost use Rattle.std.specs.Prelude.{◌≡◌, ◌∷◌, All, length, IfOk, Ok};
ghost use Rattle.std.specs.List.Sorted.{IsStrictlyIncreasing};
ghost use Rattle.att_base.specs.Files.{IsName};
ghost use Rattle.command_plans.specs.Answered.{Gives, Reads};
ghost use Rattle.device_config.specs.Plans.{IsChallengePlan};
ghost use Rattle.challenge.specs.Challenges.{IsChallenge};
ghost use Rattle.device_inputs.specs.Admissions.{admissions, counters, served};
ghost use Rattle.device_inputs.specs.Inputs.{ChallengeFileIn, ChallengeFilesIn};
ghost use Rattle.device_inputs.specs.Setups.{AdmissionsIn};

use crate::admitting::{Admission, admit_all};
use crate::laws::served_in_order;
use att_base::Files;
use command_plans::{INPUT_LIMIT, Stop, read_file};
use device_config::ChallengePlan;
use listed::{Bytes, Items};
use std::alloc::Global;

// The challenge's file.
fn read_challenge_file<F: Files>(
    alloc: Global,
    files: &mut F,
    challenge: &ChallengePlan,
) -> Result<Bytes, Stop>
    requires { IsName challenge.now.file }
    ensures { Reads (λ bytes. bytes) (ChallengeFileIn challenge.now) result (F.shows files.old) (F.shows files.new) }
{
    match read_file(alloc, files, challenge.file.as_str(), INPUT_LIMIT) {
        Ok(bytes) => Ok(Bytes::from_vec(bytes)),
        Err(stop) => Err(stop),
    }
}

/// Each challenge's file, in order. Nothing is asked of their bytes.
pub fn read_challenge_files<F: Files>(
    alloc: Global,
    files: &mut F,
    challenges: &[ChallengePlan],
) -> Result<Items<Bytes>, Stop>
    requires { All IsChallengePlan challenges.now }
    ensures reads { Reads (λ list. list) (ChallengeFilesIn challenges.now) result (F.shows files.old) (F.shows files.new) }
    ensures count { IfOk result (λ list. length list ≡ length challenges.now) }
{
    let mut list = Items::new(alloc);
    for challenge in challenges {
        let bytes = read_challenge_file(alloc, files, challenge)?;
        let Ok(()) = list.push(bytes) else {
            return Err(Stop::Memory);
        };
    }
    Ok(list)
}

// What becomes of the challenges in these bytes.
fn admitted(alloc: Global, key: &[u8], last: u64, sent: &[Bytes]) -> Result<Items<Admission>, Stop>
    ensures gives { Gives (λ all. all) (Ok (admissions key.now last sent.now)) result }
    ensures count { IfOk result (λ all. length all ≡ length sent.now) }
    ensures valid { IfOk result (λ all. All IsChallenge (served all)) }
    ensures rising { IfOk result (λ all. IsStrictlyIncreasing (last ∷ counters (served all))) }
{
    served_in_order();
    match admit_all(alloc, key, last, sent) {
        Ok(all) => Ok(all),
        Err(_) => Err(Stop::Memory),
    }
}

/// What becomes of the challenges in these files under the key, where `last` is the greatest counter that was served
/// before them: all files are read, and then each challenge is admitted or refused.
pub fn read_admissions<F: Files>(
    alloc: Global,
    files: &mut F,
    key: &[u8],
    last: u64,
    challenges: &[ChallengePlan],
) -> Result<Items<Admission>, Stop>
    requires { All IsChallengePlan challenges.now }
    ensures reads { Reads (λ all. all) (AdmissionsIn key.now last challenges.now) result (F.shows files.old) (F.shows files.new) }
    ensures count { IfOk result (λ all. length all ≡ length challenges.now) }
    ensures valid { IfOk result (λ all. All IsChallenge (served all)) }
    ensures rising { IfOk result (λ all. IsStrictlyIncreasing (last ∷ counters (served all))) }
{
    let sent = read_challenge_files(alloc, files, challenges)?;
    admitted(alloc, key, last, sent.as_slice())
}
