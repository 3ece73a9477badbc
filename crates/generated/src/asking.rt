//! The challenges that a generated device is sent.

ghost use Rattle.std.specs.Prelude.{◌≡◌, ◌≤◌, ◌<◌, OnOk, IfOk, All};
ghost use Rattle.challenge.specs.Challenges.{IsChallenge};
ghost use Rattle.generated.specs.Generated.{asked, challenges};

use crate::draws::Draws;
use challenge::{Challenge, Discipline};
use std::alloc::{AllocError, Global};

// The challenge with these numbers, whose nonce is its counter 16 times.
fn asked(discipline: Discipline, lead: u32, hold: u32, counter: u8) -> Challenge
    ensures { result ≡ asked discipline lead hold counter }
{
    Challenge {
        discipline,
        lead,
        hold,
        counter: u64::from(counter),
        nonce: [counter; 16],
    }
}

/// A challenge of each discipline. It makes draws 17 to 23.
#[tactic(auto, unfolding(crate::specs::Generated::challenges))]
pub fn challenges_of(alloc: Global, draws: &mut Draws) -> Result<Vec<Challenge>, AllocError>
    requires { draws.old.count ≡ 16 }
    ensures items { IfOk result (λ made. made.items ≡ challenges draws.old.seed) }
    ensures seed { OnOk result (draws.new.seed ≡ draws.old.seed) }
    ensures count { OnOk result (draws.new.count ≡ 23) }
{
    let all = asked(Discipline::All, draws.below(100), 0, 1);
    let lead = draws.below(100);
    let all_ext = asked(Discipline::AllExt, lead, draws.below(100), 2);
    let dec = asked(Discipline::Dec, draws.below(100), 0, 3);
    let inc = asked(Discipline::Inc, draws.below(100), 0, 4);
    let lead = draws.below(100);
    let inc_ext = asked(Discipline::IncExt, lead, draws.below(100), 5);
    Ok(vec![in alloc; all, all_ext, dec, inc, inc_ext]?)
}
