//! The definitions, computed on a small program: each contract here is read beside `specs/`.

ghost use Rattle.std.specs.Prelude.{◌≡◌, ◌∷◌, [], ◌++◌, Some, None};
ghost use Rattle.history.specs.declared.events.Width.TheVariants.{Byte, Half, Word};
ghost use Rattle.history.specs.declared.events.Act.TheVariants.{Fetch, Load};
ghost use Rattle.rv_core.specs.Effects.{quotient, quotient_signed, remainder, remainder_signed};
ghost use Rattle.rv_core.specs.Runs.{asks};
ghost use Rattle.history.specs.Worked.{application};
ghost use Rattle.rv_core.specs.Worked.{program_at, up_to_store, up_to_load, load_made, exit};

use crate::waits::{CoreWant, Ending, TrapKind};

/// What a small program asks after each part of its run.
#[tactic(auto, unfolding(rv_decode::specs::Table::listed))]
pub fn run_of_a_small_program()
    ensures first { asks (program_at 0x8000_0000 9) [] ≡ Some (CoreWant.Fetch 0x8000_0000) }
    ensures store { asks (program_at 0x8000_0000 9) up_to_store ≡ Some (CoreWant.Store 0x8000_0004 Word 5) }
    ensures load { asks (program_at 0x8000_0000 9) (up_to_store ++ up_to_load 0x8000_0004 Word 5)
        ≡ Some (CoreWant.Load 0x8000_0006 Half) }
    // A load and a store take no fuel, and are made after the last fetch.
    ensures last_load { asks (program_at 0x8000_0000 4) (up_to_store ++ up_to_load 0x8000_0004 Word 5)
        ≡ Some (CoreWant.Load 0x8000_0006 Half) }
    ensures fuel { asks (program_at 0x8000_0000 5)
        (up_to_store ++ up_to_load 0x8000_0004 Word 5 ++ load_made 0x8000_0006 Half) ≡ Some (CoreWant.Fetch 0x8000_0010) }
    ensures no_fuel { asks (program_at 0x8000_0000 4)
        (up_to_store ++ up_to_load 0x8000_0004 Word 5 ++ load_made 0x8000_0006 Half) ≡ Some (CoreWant.Ended Ending.Fuel) }
{}

/// Which entries are none of the small program's run.
#[tactic(auto, unfolding(rv_decode::specs::Table::listed))]
pub fn entries_of_no_run()
    ensures fetch_address { asks (program_at 0x8000_0000 9) (application (Fetch 0x8000_0004 0x13) ∷ []) ≡ None }
    ensures store_value { asks (program_at 0x8000_0000 9) (up_to_store ++ up_to_load 0x8000_0004 Word 6) ≡ None }
    ensures store_address { asks (program_at 0x8000_0000 9) (up_to_store ++ up_to_load 0x8000_0008 Word 5) ≡ None }
    ensures store_width { asks (program_at 0x8000_0000 9) (up_to_store ++ up_to_load 0x8000_0004 Byte 5) ≡ None }
    ensures no_store { asks (program_at 0x8000_0000 9) (up_to_store ++ application (Fetch 0x8000_000c 0x13) ∷ []) ≡ None }
    ensures other_access { asks (program_at 0x8000_0000 9) (up_to_store ++ load_made 0x8000_0004 Word) ≡ None }
    ensures load_address { asks (program_at 0x8000_0000 9)
        (up_to_store ++ up_to_load 0x8000_0004 Word 5 ++ load_made 0x8000_0004 Half) ≡ None }
    ensures load_width { asks (program_at 0x8000_0000 9)
        (up_to_store ++ up_to_load 0x8000_0004 Word 5 ++ load_made 0x8000_0006 Byte) ≡ None }
    ensures two_loads { asks (program_at 0x8000_0000 9)
        (up_to_store ++ up_to_load 0x8000_0004 Word 5 ++ load_made 0x8000_0006 Half ++ load_made 0x8000_0006 Half) ≡ None }
{}

/// How a program ends, and that nothing follows.
#[tactic(auto, unfolding(rv_decode::specs::Table::listed))]
pub fn endings_of_programs()
    ensures outside { asks (program_at 0x9000_0000 0) []
        ≡ Some (CoreWant.Ended (Ending.Trap TrapKind.FetchAccess 0x9000_0000)) }
    ensures fuel { asks (program_at 0x8000_0000 0) [] ≡ Some (CoreWant.Ended Ending.Fuel) }
    ensures illegal { asks (program_at 0x8000_0000 9) (application (Fetch 0x8000_0000 0) ∷ [])
        ≡ Some (CoreWant.Ended (Ending.Trap TrapKind.Illegal 0x8000_0000)) }
    ensures past_illegal { asks (program_at 0x8000_0000 9)
        (application (Fetch 0x8000_0000 0) ∷ application (Fetch 0x8000_0004 0x13) ∷ []) ≡ None }
    // The third of three fetches is the exit's.
    ensures exit { asks (program_at 0x8000_0000 3) exit ≡ Some (CoreWant.Ended (Ending.Exit 7)) }
    ensures past_exit { asks (program_at 0x8000_0000 9) (exit ++ application (Fetch 0x8000_000c 0x13) ∷ []) ≡ None }
{}

/// The manual's table of divisions by zero and of the one that overflows, -2^31 by -1.
pub fn divisions_without_a_quotient()
    ensures divu { quotient 5 0 ≡ 0xffff_ffff }
    ensures div { quotient_signed 5 0 ≡ 0xffff_ffff }
    ensures remu { remainder 5 0 ≡ 5 }
    ensures rem { remainder_signed 5 0 ≡ 5 }
    ensures overflow_div { quotient_signed 0x8000_0000 0xffff_ffff ≡ 0x8000_0000 }
    ensures overflow_rem { remainder_signed 0x8000_0000 0xffff_ffff ≡ 0 }
{}
