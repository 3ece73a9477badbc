//! What the words of the command `challenge` ask for.

ghost use Rattle.std.specs.Prelude.{◌≡◌, ◌≤◌, IfSome};
ghost use Rattle.challenge.specs.declared.Challenge.{Challenge};
ghost use Rattle.challenge.specs.Challenges.{IsChallenge};
ghost use Rattle.message_commands.specs.Words.{challenge_of_words, if_valid};

use challenge::{Challenge, Discipline, MOST_TICKS};
use hex::FromHex;
use text_readers::plain_decimal;

// The challenge with these fields, if it is valid.
fn if_valid(
    discipline: Discipline,
    lead: u64,
    hold: u64,
    counter: u64,
    nonce: [u8; 16],
) -> Option<Challenge>
    ensures value { let c : Challenge = record { discipline = discipline; lead = lead; hold = hold; counter = counter; nonce = nonce } in result ≡ if_valid c }
    ensures valid { IfSome result IsChallenge }
{
    if lead > u64::from(MOST_TICKS) || hold > u64::from(MOST_TICKS) {
        return None;
    }
    let challenge = Challenge {
        discipline,
        lead: lead as u32,
        hold: hold as u32,
        counter,
        nonce,
    };
    if !challenge.is_valid() {
        return None;
    }
    Some(challenge)
}

/// The challenge that these words of a command line ask for: one of the disciplines' words; three numbers below 2^64
/// in decimal digits without leading zeros; and the nonce's 32 hexadecimal digits, of either case. None exactly where
/// a word is none of these, or the challenge isn't valid.
#[tactic(auto, unfolding(crate::specs::Words::challenge_of_words))]
pub fn challenge_of(
    discipline: &str,
    lead: &str,
    hold: &str,
    counter: &str,
    nonce: &str,
) -> Option<Challenge>
    ensures value { result ≡ challenge_of_words discipline.now lead.now hold.now counter.now nonce.now }
    ensures valid { IfSome result IsChallenge }
{
    let discipline = Discipline::from_word(discipline)?;
    let lead = plain_decimal(lead.as_bytes())?;
    let hold = plain_decimal(hold.as_bytes())?;
    let counter = plain_decimal(counter.as_bytes())?;
    let nonce = <[u8; 16] as FromHex>::from_hex(nonce).ok()?;
    if_valid(discipline, lead, hold, counter, nonce)
}
