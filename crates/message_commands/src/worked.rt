//! The definitions, computed on a few words and verdicts: each contract here is read beside `specs/`.

ghost use Rattle.std.specs.Prelude.{◌≡◌, [], ◌∷◌, codes, Some, None};
ghost use Rattle.history.specs.declared.events.Discipline.{Discipline};
ghost use Rattle.history.specs.declared.events.Discipline.TheVariants.{Dec, IncExt};
ghost use Rattle.challenge.specs.declared.Challenge.{Challenge};
ghost use Rattle.image_set.specs.declared.Image.{Image};
ghost use Rattle.verifier.specs.declared.verdicts.Verdict.TheVariants as verdicts;
ghost use Rattle.verifier.specs.declared.verdicts.NoteVerdict.TheVariants as notes;
ghost use Rattle.command_plans.specs.declared.output.Ending.TheVariants.{Accepted, Refused};
ghost use Rattle.message_commands.specs.Lines.{verdict_lines};
ghost use Rattle.message_commands.specs.Plans.{ending_of};
ghost use Rattle.message_commands.specs.Words.{if_valid};

/// Challenges that are asked for, and one that isn't valid: Dec-Lock holds nothing after End.
pub fn challenges_of_words()
    ensures held { let c : Challenge = record { discipline = IncExt; lead = 4096; hold = 1; counter = 7; nonce = [] } in if_valid c ≡ Some c }
    ensures not_held { let c : Challenge = record { discipline = Dec; lead = 0; hold = 1; counter = 7; nonce = [] } in if_valid c ≡ None }
    ensures late { let c : Challenge = record { discipline = Dec; lead = 4097; hold = 0; counter = 7; nonce = [] } in if_valid c ≡ None }
{}

/// What is printed of verdicts, and how `verify` ends.
#[tactic(auto, unfolding(crate::specs::Lines::verdict_line, crate::specs::Lines::note_line))]
pub fn lines_of_verdicts()
    ensures both { let image : Image = record { name = codes "good.img"; bytes = [] } in
        verdict_lines (image ∷ []) (verdicts.Accepted 0) (Some notes.WrongTag) ≡ codes "verdict accepted good.img\nnote rejected 3\n" }
    ensures unknown { verdict_lines [] verdicts.UnknownMemory None ≡ codes "verdict rejected 5\n" }
    ensures good { ending_of (verdicts.Accepted 0) (Some (notes.Accepted 9)) ≡ Accepted }
    ensures bad_note { ending_of (verdicts.Accepted 0) (Some notes.WrongTag) ≡ Refused }
    ensures bad { ending_of verdicts.UnknownMemory None ≡ Refused }
{}
