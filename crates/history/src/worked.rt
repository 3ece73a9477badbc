//! The definitions, computed on small histories: each contract here is read beside `specs/`.

ghost use Rattle.std.specs.Prelude.{◌≡◌, ℕ, ◌+◌, ◌*◌, ◌<◌, [], ◌∷◌, ◌++◌, map, filter, replicate, reverse, Some, None, true, false, IsTrue};
ghost use Rattle.history.specs.Layout.{Layout, IsLayout, is_layout};
ghost use Rattle.history.specs.declared.events.Discipline.TheVariants.{All, AllExt, Dec, Inc, IncExt};
ghost use Rattle.history.specs.declared.events.Width.TheVariants.{Byte, Half, Word};
ghost use Rattle.history.specs.declared.events.Act.TheVariants.{Fetch, Load, Store, Start, Copy, End, Tick, Release};
ghost use Rattle.history.specs.Attested.{attested_blocks, attested_block, are_ranges, index_of, is_attested, total};
ghost use Rattle.history.specs.Memory.{memory_after, own, value_in, attested_bytes};
ghost use Rattle.history.specs.Copied.{copied_bytes};
ghost use Rattle.history.specs.Instants.{IsInstant, EndsAt, ReleasesAt};
ghost use Rattle.history.specs.Broken.{broken};
ghost use Rattle.history.specs.Worked.{setting, spread, spread_setting, two_blocks_apart, measurer, application, by, short_pass, long_pass, spread_pass, locked_blocks, at, stores, store_in_pass};

/// The test of a layout and the fact say the same.
pub fn layouts_are_tested()
    ensures is { (l : Layout) → IsTrue (is_layout l) → IsLayout l }
    ensures tested { (l : Layout) → IsLayout l → IsTrue (is_layout l) }
{}

/// The blocks that each discipline locks, at each place of one pass over blocks 1 and 2 of four.
pub fn locks_of_one_pass()
    ensures all { locked_blocks setting (short_pass All) 5 ≡ [] ∷ (1 ∷ 2 ∷ []) ∷ (1 ∷ 2 ∷ []) ∷ (1 ∷ 2 ∷ []) ∷ [] ∷ [] }
    ensures all_ext { locked_blocks setting (long_pass AllExt) 7 ≡ [] ∷ (1 ∷ 2 ∷ []) ∷ (1 ∷ 2 ∷ []) ∷ (1 ∷ 2 ∷ []) ∷ (1 ∷ 2 ∷ []) ∷ (1 ∷ 2 ∷ []) ∷ [] ∷ [] }
    ensures dec { locked_blocks setting (short_pass Dec) 5 ≡ [] ∷ (1 ∷ 2 ∷ []) ∷ (2 ∷ []) ∷ [] ∷ [] ∷ [] }
    ensures inc { locked_blocks setting (short_pass Inc) 5 ≡ [] ∷ [] ∷ (1 ∷ []) ∷ (1 ∷ 2 ∷ []) ∷ [] ∷ [] }
    ensures inc_ext { locked_blocks setting (long_pass IncExt) 7 ≡ [] ∷ [] ∷ (1 ∷ []) ∷ (1 ∷ 2 ∷ []) ∷ (1 ∷ 2 ∷ []) ∷ (1 ∷ 2 ∷ []) ∷ [] ∷ [] }
{}

/// Three ranges of which one is one block: their blocks, their number, and for each block of memory its index; and what
/// are no ranges of a device.
pub fn three_ranges()
    ensures blocks { attested_blocks spread ≡ 0 ∷ 1 ∷ 3 ∷ 5 ∷ 6 ∷ [] }
    ensures total { total spread ≡ 5 }
    ensures indexes { map (index_of spread) (0 ∷ 1 ∷ 2 ∷ 3 ∷ 4 ∷ 5 ∷ 6 ∷ 7 ∷ []) ≡ 0 ∷ 1 ∷ 2 ∷ 2 ∷ 3 ∷ 3 ∷ 4 ∷ 5 ∷ [] }
    ensures attested { filter (is_attested spread) (0 ∷ 1 ∷ 2 ∷ 3 ∷ 4 ∷ 5 ∷ 6 ∷ 7 ∷ []) ≡ 0 ∷ 1 ∷ 3 ∷ 5 ∷ 6 ∷ [] }
    ensures at { map (attested_block spread) (0 ∷ 1 ∷ 2 ∷ 3 ∷ 4 ∷ []) ≡ 0 ∷ 1 ∷ 3 ∷ 5 ∷ 6 ∷ [] }
    ensures fit { are_ranges spread ≡ true }
    ensures none { are_ranges [] ≡ false }
    ensures empty { are_ranges (record { first = 1; attested = 0 } ∷ []) ≡ false }
    ensures touching { are_ranges (record { first = 1; attested = 2 } ∷ record { first = 3; attested = 1 } ∷ []) ≡ false }
    ensures falling { are_ranges (record { first = 5; attested = 1 } ∷ record { first = 1; attested = 2 } ∷ []) ≡ false }
    ensures last { are_ranges (record { first = 4095; attested = 1 } ∷ []) ≡ true }
    ensures past { are_ranges (record { first = 4095; attested = 2 } ∷ []) ≡ false }
{}

/// The blocks that each discipline locks, at each place of one pass over the three ranges: a block between two ranges is
/// never locked, and the next block to copy is that of the next range.
pub fn locks_of_three_ranges()
    ensures all { locked_blocks spread_setting (spread_pass All []) 8
        ≡ [] ∷ attested_blocks spread ∷ attested_blocks spread ∷ attested_blocks spread ∷ attested_blocks spread ∷ attested_blocks spread ∷ attested_blocks spread ∷ [] ∷ [] }
    ensures all_ext { locked_blocks spread_setting (spread_pass AllExt (Release ∷ [])) 9
        ≡ [] ∷ attested_blocks spread ∷ attested_blocks spread ∷ attested_blocks spread ∷ attested_blocks spread ∷ attested_blocks spread ∷ attested_blocks spread ∷ attested_blocks spread ∷ [] ∷ [] }
    ensures dec { locked_blocks spread_setting (spread_pass Dec []) 8
        ≡ [] ∷ (0 ∷ 1 ∷ 3 ∷ 5 ∷ 6 ∷ []) ∷ (1 ∷ 3 ∷ 5 ∷ 6 ∷ []) ∷ (3 ∷ 5 ∷ 6 ∷ []) ∷ (5 ∷ 6 ∷ []) ∷ (6 ∷ []) ∷ [] ∷ [] ∷ [] }
    ensures inc { locked_blocks spread_setting (spread_pass Inc []) 8
        ≡ [] ∷ [] ∷ (0 ∷ []) ∷ (0 ∷ 1 ∷ []) ∷ (0 ∷ 1 ∷ 3 ∷ []) ∷ (0 ∷ 1 ∷ 3 ∷ 5 ∷ []) ∷ (0 ∷ 1 ∷ 3 ∷ 5 ∷ 6 ∷ []) ∷ [] ∷ [] }
    ensures inc_ext { locked_blocks spread_setting (spread_pass IncExt (Release ∷ [])) 9
        ≡ [] ∷ [] ∷ (0 ∷ []) ∷ (0 ∷ 1 ∷ []) ∷ (0 ∷ 1 ∷ 3 ∷ []) ∷ (0 ∷ 1 ∷ 3 ∷ 5 ∷ []) ∷ (0 ∷ 1 ∷ 3 ∷ 5 ∷ 6 ∷ []) ∷ (0 ∷ 1 ∷ 3 ∷ 5 ∷ 6 ∷ []) ∷ [] ∷ [] }
    ensures legal { broken spread_setting (spread_pass Inc []) ≡ None }
    ensures gap { broken spread_setting (map measurer (Start Dec 7 ∷ Copy 0 ∷ Copy 1 ∷ Copy 2 ∷ [])) ≡ Some (record { place = 4; rule = 5 }) }
    ensures early_end { broken spread_setting (map measurer (Start Dec 7 ∷ Copy 0 ∷ Copy 1 ∷ Copy 3 ∷ End ∷ [])) ≡ Some (record { place = 5; rule = 5 }) }
{}

/// The instants of a pass whose Start, End and Release are at the places 3, 6 and 8: what is one, and what
/// just isn't one any more.
pub fn instants_of_one_pass()
    ensures all { IsInstant All 3 6 8 3 × IsInstant All 3 6 8 6 × (IsInstant All 3 6 8 2 → ⊥) × (IsInstant All 3 6 8 7 → ⊥) }
    ensures all_ext { IsInstant AllExt 3 6 8 3 × IsInstant AllExt 3 6 8 8 × (IsInstant AllExt 3 6 8 2 → ⊥) × (IsInstant AllExt 3 6 8 9 → ⊥) }
    ensures dec { IsInstant Dec 3 6 8 3 × (IsInstant Dec 3 6 8 2 → ⊥) × (IsInstant Dec 3 6 8 4 → ⊥) }
    ensures inc { IsInstant Inc 3 6 8 6 × (IsInstant Inc 3 6 8 5 → ⊥) × (IsInstant Inc 3 6 8 7 → ⊥) }
    ensures inc_ext { IsInstant IncExt 3 6 8 6 × IsInstant IncExt 3 6 8 8 × (IsInstant IncExt 3 6 8 5 → ⊥) × (IsInstant IncExt 3 6 8 9 → ⊥) }
{}

/// What memory is after stores of each width, what a value is read as, and what a pass copies: a store
/// after a block's Copy isn't in the copied bytes, one before it is.
pub fn memory_of_small_histories()
    ensures word { map (memory_after setting (stores 20 287454020 ∷ [])) (at 19 ∷ at 20 ∷ at 21 ∷ at 22 ∷ at 23 ∷ at 24 ∷ []) ≡ 0 ∷ 68 ∷ 51 ∷ 34 ∷ 17 ∷ 0 ∷ [] }
    ensures half { value_in (memory_after setting (application (Store (at 22) Half 43981) ∷ stores 20 287454020 ∷ [])) (at 20) Word ≡ 43981 * 65536 + 13124 }
    ensures byte { value_in (memory_after setting (application (Store (at 21) Byte 255) ∷ stores 20 287454020 ∷ [])) (at 20) Half ≡ 255 * 256 + 68 }
    ensures copied { copied_bytes setting (reverse (measurer (Start Dec 7) ∷ measurer (Copy 1) ∷ stores 16 5 ∷ stores 44 9 ∷ measurer (Copy 2) ∷ measurer End ∷ [])) ≡ replicate 28 0 ++ (9 ∷ 0 ∷ 0 ∷ 0 ∷ []) }
    ensures attested { attested_bytes setting (memory_after setting (stores 16 5 ∷ stores 44 9 ∷ stores 48 7 ∷ [])) ≡ (5 ∷ []) ++ replicate 27 0 ++ (9 ∷ 0 ∷ 0 ∷ 0 ∷ []) }
    ensures two_ranges { attested_bytes two_blocks_apart (memory_after two_blocks_apart (stores 0 5 ∷ stores 16 6 ∷ stores 32 7 ∷ [])) ≡ (5 ∷ []) ++ replicate 15 0 ++ (7 ∷ []) ++ replicate 15 0 }
    ensures border { map (memory_after setting (application (Store (at 14) Half 258) ∷ application (Store (at 16) Byte 3) ∷ stores 12 0 ∷ [])) (at 13 ∷ at 14 ∷ at 15 ∷ at 16 ∷ at 17 ∷ []) ≡ 0 ∷ 2 ∷ 1 ∷ 3 ∷ 0 ∷ [] }
    ensures border_values { map (value_in (memory_after setting (stores 12 16909060 ∷ stores 16 84281096 ∷ [])) (at 15)) (Byte ∷ Half ∷ Word ∷ []) ≡ 1 ∷ 2049 ∷ 101124097 ∷ [] }
    ensures begun_anew { copied_bytes setting (reverse (short_pass Inc ++ (measurer (Start Dec 8) ∷ []))) ≡ [] }
{}

/// The entries of some actors, in their order, and the places of a pass: where its Start, its End and its Release
/// stand, and where only the last pass counts.
pub fn parts_of_small_histories()
    ensures one { own (measurer Tick ∷ stores 0 1 ∷ stores 0 2 ∷ measurer (Start Dec 7) ∷ stores 4 3 ∷ []) 1 2 ≡ stores 0 1 ∷ stores 0 2 ∷ stores 4 3 ∷ [] }
    ensures measurer { own (measurer Tick ∷ stores 0 1 ∷ measurer (Start Dec 7) ∷ []) 0 1 ≡ measurer Tick ∷ measurer (Start Dec 7) ∷ [] }
    ensures from_low { own (measurer Tick ∷ by 1 Tick ∷ by 2 Tick ∷ by 3 Tick ∷ []) 1 3 ≡ by 1 Tick ∷ by 2 Tick ∷ [] }
    ensures ends { EndsAt (stores 0 1 ∷ long_pass AllExt) AllExt 7 2 5 }
    ensures releases { ReleasesAt (stores 0 1 ∷ long_pass AllExt) AllExt 7 2 7 }
    ensures unreleased { ReleasesAt (map measurer (Start AllExt 7 ∷ Copy 1 ∷ Copy 2 ∷ End ∷ Tick ∷ [])) AllExt 7 1 5 }
{}

/// Which rule a small history breaks first, and where; None where it is legal. The rules are 1 actor,
/// 2 range, 3 value, 4 locked, 5 order, 6 cap.
pub fn rules_of_small_histories()
    ensures legal { broken setting (stores 16 5 ∷ short_pass Inc ++ (stores 16 6 ∷ application (Load (at 16) Word 6) ∷ [])) ≡ None }
    ensures actor { broken setting (measurer (Fetch (at 0) 0) ∷ []) ≡ Some (record { place = 1; rule = 1 }) }
    ensures range { broken setting (stores 64 0 ∷ []) ≡ Some (record { place = 1; rule = 2 }) }
    ensures aligned { broken setting (application (Load (at 2) Word 0) ∷ []) ≡ Some (record { place = 1; rule = 2 }) }
    ensures stale { broken setting (stores 16 5 ∷ stores 16 6 ∷ application (Load (at 16) Word 5) ∷ []) ≡ Some (record { place = 3; rule = 3 }) }
    ensures all { broken setting (store_in_pass All 16) ≡ Some (record { place = 2; rule = 4 }) }
    ensures all_ext { broken setting (store_in_pass AllExt 16) ≡ Some (record { place = 2; rule = 4 }) }
    ensures dec { broken setting (store_in_pass Dec 32) ≡ Some (record { place = 2; rule = 4 }) }
    ensures inc { broken setting (store_in_pass Inc 16) ≡ None }
    ensures inc_ext { broken setting (store_in_pass IncExt 16) ≡ None }
    ensures other_block { broken setting (store_in_pass All 0) ≡ None }
    ensures order { broken setting (measurer (Start All 7) ∷ measurer (Copy 2) ∷ []) ≡ Some (record { place = 2; rule = 5 }) }
    ensures early_end { broken setting (measurer (Start All 7) ∷ measurer (Copy 1) ∷ measurer End ∷ []) ≡ Some (record { place = 3; rule = 5 }) }
    ensures early_start { broken setting (short_pass AllExt ++ (measurer (Start All 8) ∷ [])) ≡ Some (record { place = 5; rule = 5 }) }
    ensures later_start { broken setting (long_pass AllExt ++ (measurer (Start All 8) ∷ [])) ≡ None }
    ensures actor_above { broken setting (by 9 (Load (at 16) Word 0) ∷ []) ≡ Some (record { place = 1; rule = 1 }) }
    ensures actor_eight { broken setting (by 8 (Load (at 16) Word 0) ∷ []) ≡ None }
    ensures tick_by_application { broken setting (application Tick ∷ []) ≡ Some (record { place = 1; rule = 1 }) }
    ensures copy_by_application { broken setting (measurer (Start All 7) ∷ application (Copy 1) ∷ []) ≡ Some (record { place = 2; rule = 1 }) }
    ensures stale_fetch { broken setting (stores 16 5 ∷ stores 16 6 ∷ application (Fetch (at 16) 5) ∷ []) ≡ Some (record { place = 3; rule = 3 }) }
    ensures fetch_off_word { broken setting (application (Fetch (at 2) 0) ∷ []) ≡ Some (record { place = 1; rule = 2 }) }
    ensures fetch_past_memory { broken setting (application (Fetch (at 64) 0) ∷ []) ≡ Some (record { place = 1; rule = 2 }) }
    ensures release_before_end { broken setting (map measurer (Start AllExt 7 ∷ Copy 1 ∷ Copy 2 ∷ Release ∷ [])) ≡ Some (record { place = 4; rule = 5 }) }
    ensures release_twice { broken setting (long_pass AllExt ++ (measurer Release ∷ [])) ≡ Some (record { place = 7; rule = 5 }) }
    ensures release_of_all { broken setting (short_pass All ++ (measurer Release ∷ [])) ≡ Some (record { place = 5; rule = 5 }) }
    ensures end_twice { broken setting (short_pass All ++ (measurer End ∷ [])) ≡ Some (record { place = 5; rule = 5 }) }
    ensures least_rule { broken setting (by 9 (Load (at 64) Word 7) ∷ []) ≡ Some (record { place = 1; rule = 1 }) }
    ensures lesser_rule { broken setting (measurer (Start All 7) ∷ application (Load (at 16) Word 7) ∷ stores 16 0 ∷ []) ≡ Some (record { place = 2; rule = 3 }) }
    ensures cap { broken setting (map measurer (Tick ∷ Tick ∷ Tick ∷ Tick ∷ Tick ∷ Tick ∷ Tick ∷ Tick ∷ Tick ∷ Tick ∷ [])) ≡ Some (record { place = 10; rule = 6 }) }
{}
