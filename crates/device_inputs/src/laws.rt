//! Laws about admission, each a contract with nothing to run.

ghost use Rattle.std.specs.Prelude.{ℕ, List, ◌∷◌, All};
ghost use Rattle.std.specs.List.Sorted.{IsStrictlyIncreasing};
ghost use Rattle.challenge.specs.Challenges.{IsChallenge};
ghost use Rattle.device_inputs.specs.Admissions.{admissions, counters, served};

/// Of the challenges that a device is sent it serves valid ones alone, and their counters rise, from above the greatest
/// that it has served before.
pub fn served_in_order()
    ensures valid { (key : List ℕ) (last : ℕ) (sent : List (List ℕ)) → All IsChallenge (served (admissions key last sent)) }
    ensures rising { (key : List ℕ) (last : ℕ) (sent : List (List ℕ)) → IsStrictlyIncreasing (last ∷ counters (served (admissions key last sent))) }
{}
