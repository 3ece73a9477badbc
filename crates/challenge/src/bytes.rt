//! The byte form of challenges.

ghost use Rattle.std.specs.Prelude.{◌≡◌, ◌<◌, ◌^◌, List, ℕ, length, slice_index, Ok};
ghost use Rattle.challenge.specs.declared.Challenge.{Challenge};
ghost use Rattle.challenge.specs.Challenges.{IsChallenge};
ghost use Rattle.challenge.specs.Bytes.{challenge_head, challenge_bytes, Spells, IsChallengeReading, if_spelled, head_challenge, challenge_in};

use crate::Challenge;
use crate::faults::ChallengeFault;
use crate::numbers::{discipline_with, u32_at, u64_at};
use byteorder::{BigEndian, ByteOrder};
use hmac256::hmac256;

/// The bytes of a challenge.
pub const CHALLENGE_BYTES: usize = 72;

/// The bytes before the MAC, which it digests.
pub const HEAD_BYTES: usize = 40;

/// The 40 bytes that a challenge begins with.
#[tactic(auto, unfolding(crate::specs::Bytes::challenge_head))]
fn head(challenge: &Challenge) -> [u8; HEAD_BYTES]
    ensures value { result ≡ challenge_head challenge.now }
    ensures counter { challenge.now.counter < 2 ^ 64 }
{
    let Challenge {
        discipline,
        lead,
        hold,
        counter,
        nonce,
    } = *challenge;
    let mut out = [0u8; HEAD_BYTES];
    out[..8].copy_from_slice(&[b'T', b'M', b'C', b'1', discipline.code(), 0, 0, 0]);
    BigEndian::write_u32(&mut out[8..], lead);
    BigEndian::write_u32(&mut out[12..], hold);
    BigEndian::write_u64(&mut out[16..], counter);
    out[24..].copy_from_slice(&nonce);
    out
}

/// The challenge, if it is valid and these are the bytes that it begins with. So no byte is passed over.
fn if_spelled(challenge: Challenge, bytes: &[u8]) -> Option<Challenge>
    requires { length bytes.now ≡ HEAD_BYTES }
    ensures { result ≡ if_spelled bytes.now challenge }
{
    if !challenge.is_valid() {
        return None;
    }
    if head(&challenge).as_slice() != bytes {
        return None;
    }
    Some(challenge)
}

/// The challenge that 40 bytes spell: the one whose fields stand at their places.
#[tactic(auto, unfolding(crate::specs::Bytes::head_challenge))]
fn head_challenge(bytes: &[u8]) -> Option<Challenge>
    requires { length bytes.now ≡ HEAD_BYTES }
    ensures { result ≡ head_challenge bytes.now }
{
    let discipline = discipline_with(bytes[4])?;
    let mut nonce = [0; 16];
    nonce.copy_from_slice(&bytes[24..]);
    let challenge = Challenge {
        discipline,
        lead: u32_at(bytes, 8),
        hold: u32_at(bytes, 12),
        counter: u64_at(bytes, 16),
        nonce,
    };
    if_spelled(challenge, bytes)
}

/// The challenge in these bytes: 72 bytes of the grammar whose last 32 are the MAC under the key.
#[tactic(auto, unfolding(crate::specs::Bytes::challenge_in, crate::specs::Bytes::spelled_challenge))]
pub fn read(bytes: &[u8], key: &[u8]) -> Result<Challenge, ChallengeFault>
    ensures value { result ≡ challenge_in key.now bytes.now }
    ensures reading { IsChallengeReading key.now bytes.now result }
{
    if bytes.len() != CHALLENGE_BYTES {
        return Err(ChallengeFault::Malformed);
    }
    let (head, mac) = bytes.split_at(HEAD_BYTES);
    let Some(challenge) = head_challenge(head) else {
        return Err(ChallengeFault::Malformed);
    };
    if hmac256(key, head).as_slice() != mac {
        return Err(ChallengeFault::BadMac);
    }
    Ok(challenge)
}

/// The one spelling of a valid challenge under the key.
#[tactic(auto, unfolding(crate::specs::Bytes::challenge_bytes))]
pub fn write(challenge: &Challenge, key: &[u8]) -> [u8; CHALLENGE_BYTES]
    requires { IsChallenge challenge.now }
    ensures value { result ≡ challenge_bytes key.now challenge.now }
    // What is written is read again.
    ensures again { challenge_in key.now result ≡ Ok challenge.now }
{
    let head = head(challenge);
    let mut out = [0u8; CHALLENGE_BYTES];
    out[HEAD_BYTES..].copy_from_slice(&hmac256(key, &head));
    out[..HEAD_BYTES].copy_from_slice(&head);
    out
}

/// A byte list spells at most one challenge, and under one key each challenge has one byte list.
pub fn one_spelling()
    ensures value { (bytes : List ℕ) (a b : Challenge) → Spells bytes a → Spells bytes b → a ≡ b }
    ensures read { (key bytes : List ℕ) → ((i : ℕ) → slice_index bytes i < 256) → IsChallengeReading key bytes (challenge_in key bytes) }
{}
