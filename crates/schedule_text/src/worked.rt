//! The definition, computed on a few texts: each contract here is read beside `specs/`.

ghost use Rattle.std.specs.Prelude.{◌≡◌, [], ◌∷◌, codes, Ok, Err};
ghost use Rattle.schedule_text.specs.declared.reading.Run.{Run};
ghost use Rattle.schedule_text.specs.Schedules.{schedule_of};

/// Texts for two applications, and the lines at which others leave the grammar.
#[tactic(auto, unfolding(crate::specs::Schedules::schedule_of, crate::specs::Schedules::next_run, crate::specs::Lines::run_on_line, crate::specs::Lines::number_between, text_readers::specs::Numbers::plain_decimal, text_readers::specs::Numbers::digits_number))]
pub fn schedules_of_two_applications()
    ensures none { schedule_of 2 [] ≡ Ok [] }
    ensures two { let first : Run = record { actor = 0; turns = 5 } in let second : Run = record { actor = 2; turns = 1000000 } in
        schedule_of 2 (codes "0 5\n2 1000000\n") ≡ Ok (first ∷ second ∷ []) }
    ensures actor { schedule_of 2 (codes "0 5\n3 1\n") ≡ Err 2 }
    ensures no_turn { schedule_of 2 (codes "0 5\n2 0\n") ≡ Err 2 }
    ensures many_turns { schedule_of 2 (codes "1 1000001\n") ≡ Err 1 }
    ensures padded { schedule_of 2 (codes "01 5\n") ≡ Err 1 }
    ensures no_end { schedule_of 2 (codes "0 5\n1 1") ≡ Err 2 }
    ensures empty_line { schedule_of 2 (codes "0 5\n\n1 1\n") ≡ Err 2 }
{}
