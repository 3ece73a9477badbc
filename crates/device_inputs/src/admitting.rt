//! Which challenges a device serves of those that it is sent.

ghost use Rattle.std.specs.Prelude.{◌≡◌, length, IfOk};
ghost use Rattle.challenge.specs.Bytes.{challenge_in};
ghost use Rattle.device_inputs.specs.Admissions.{admission_of, admissions, greatest_after};

use challenge::{Challenge, ChallengeFault, admit};
use listed::{Bytes, Items};
use std::alloc::{AllocError, Global};

/// What becomes of a challenge that a device is sent.
#[derive(Clone, Copy, Debug, PartialEq, Eq)]
pub enum Admission {
    /// It is refused: its bytes aren't in the grammar of challenges.
    Malformed,
    /// It is refused: its MAC isn't the one under the device's key.
    BadMac,
    /// It is refused: its counter isn't greater than the greatest before.
    Stale {
        /// The greatest counter before.
        last: u64,
    },
    /// It is served.
    Admitted {
        /// The challenge.
        challenge: Challenge,
        /// The greatest counter before.
        last: u64,
    },
}

// What becomes of the bytes under the key, where `last` is the greatest counter before.
fn admission_of(key: &[u8], last: u64, bytes: &[u8]) -> Admission
    ensures { result ≡ admission_of last (challenge_in key.now bytes.now) }
{
    let challenge = match challenge::read(bytes, key) {
        Ok(challenge) => challenge,
        Err(ChallengeFault::Malformed) => return Admission::Malformed,
        Err(ChallengeFault::BadMac) => return Admission::BadMac,
    };
    match admit(last, &challenge) {
        Ok(_) => Admission::Admitted { challenge, last },
        Err(stale) => Admission::Stale { last: stale.last },
    }
}

// The greatest counter behind it.
fn greatest_after(last: u64, admission: Admission) -> u64
    ensures { result ≡ greatest_after last admission }
{
    match admission {
        Admission::Admitted { challenge, .. } => challenge.counter,
        Admission::Malformed | Admission::BadMac | Admission::Stale { .. } => last,
    }
}

/// What becomes of each of the challenges in these bytes under the key, in order. Before the first of them `last` is the
/// greatest counter that the device has served; a challenge that is served raises it to its own, a refusal leaves it.
pub fn admit_all(
    alloc: Global,
    key: &[u8],
    last: u64,
    sent: &[Bytes],
) -> Result<Items<Admission>, AllocError>
    ensures { IfOk result (λ all. all ≡ admissions key.now last sent.now) }
{
    let mut all = Items::new(alloc);
    let mut greatest = last;
    for bytes in sent {
        let admission = admission_of(key, greatest, bytes.as_slice());
        greatest = greatest_after(greatest, admission);
        all.push(admission)?;
    }
    Ok(all)
}
