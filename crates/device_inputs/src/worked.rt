//! The definitions, computed on a few challenges: each contract here is read beside `specs/`.

ghost use Rattle.std.specs.Prelude.{◌≡◌, [], ◌∷◌, Ok, Err};
ghost use Rattle.history.specs.declared.events.Discipline.TheVariants.{Dec};
ghost use Rattle.challenge.specs.declared.Challenge.{Challenge};
ghost use Rattle.challenge.specs.declared.faults.ChallengeFault.TheVariants as faults;
ghost use Rattle.device_inputs.specs.declared.admitting.Admission.TheVariants as sent;
ghost use Rattle.device_inputs.specs.Admissions.{admission_of, greatest_after, served};

/// What becomes of a challenge with counter 7, by the greatest counter before; what it leaves, and which are served.
#[tactic(auto, unfolding(challenge::specs::Bytes::admission))]
pub fn admissions_by_counter()
    ensures above { let c : Challenge = record { discipline = Dec; lead = 0; hold = 0; counter = 7; nonce = [] } in
        admission_of 6 (Ok c) ≡ sent.Admitted c 6 }
    ensures equal { let c : Challenge = record { discipline = Dec; lead = 0; hold = 0; counter = 7; nonce = [] } in
        admission_of 7 (Ok c) ≡ sent.Stale 7 }
    ensures malformed { admission_of 6 (Err faults.Malformed) ≡ sent.Malformed }
    ensures bad_mac { admission_of 6 (Err faults.BadMac) ≡ sent.BadMac }
    ensures raised { let c : Challenge = record { discipline = Dec; lead = 0; hold = 0; counter = 7; nonce = [] } in
        greatest_after 6 (sent.Admitted c 6) ≡ 7 }
    ensures left { greatest_after 8 (sent.Stale 8) ≡ 8 }
    ensures served { let c : Challenge = record { discipline = Dec; lead = 0; hold = 0; counter = 7; nonce = [] } in
        served (sent.Malformed ∷ sent.Admitted c 6 ∷ sent.Stale 7 ∷ sent.BadMac ∷ []) ≡ c ∷ [] }
{}
