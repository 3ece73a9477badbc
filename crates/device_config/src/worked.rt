//! The definitions, computed on a few names and tables: each contract here is read beside `specs/`.

ghost use Rattle.std.specs.Prelude.{◌≡◌, [], ◌∷◌, pos, negsuc, codes, true, false, Some, None};
ghost use Rattle.toml.specs.Data.{Members, array, integer, item, member, no_items, no_members, string, table};
ghost use Rattle.device_config.specs.declared.plans.AppPlan.{AppPlan};
ghost use Rattle.device_config.specs.declared.plans.ChallengePlan.{ChallengePlan};
ghost use Rattle.config_rules.specs.Values.{array_in};
ghost use Rattle.device_config.specs.Arrays.{app_plan_in, app_plan_of, challenges_at};
ghost use Rattle.device_config.specs.Names.{all_different, output_names};

/// Which names are written, in their order, and whether they differ.
#[tactic(auto, unfolding(crate::specs::Names::output_names))]
pub fn names_that_differ()
    ensures one { all_different (codes "a" ∷ []) ≡ true }
    ensures two { all_different (codes "a" ∷ codes "A" ∷ codes "aa" ∷ []) ≡ true }
    ensures twice { all_different (codes "a" ∷ codes "b" ∷ codes "a" ∷ []) ≡ false }
    ensures written { let app : AppPlan = record { file = codes "f"; console = codes "c"; stack = 0; fuel = 1 } in
        let first : ChallengePlan = record { file = codes "f"; report = codes "r"; note = codes "n" } in
        let second : ChallengePlan = record { file = codes "f"; report = codes "s"; note = codes "m" } in
        output_names (codes "t") (app ∷ []) (first ∷ second ∷ [])
        ≡ codes "t" ∷ codes "c" ∷ codes "r" ∷ codes "s" ∷ codes "n" ∷ codes "m" ∷ [] }
{}

/// Tables of applications, and what isn't one.
#[tactic(auto, unfolding(crate::specs::Arrays::app_plan_in, crate::specs::Arrays::challenges_at, config_rules::specs::Values::name_at, config_rules::specs::Values::name_of, config_rules::specs::Values::number_at, config_rules::specs::Values::integer_between))]
pub fn tables_of_applications()
    ensures whole { let names : Members = member (codes "console") (string (codes "c")) (member (codes "file") (string (codes "f")) (member (codes "stack") (integer (pos 16)) no_members)) in
        let app : AppPlan = record { file = codes "f"; console = codes "c"; stack = 16; fuel = 7 } in
        app_plan_in (member (codes "fuel") (integer (pos 7)) names) ≡ Some app }
    ensures no_fuel { let names : Members = member (codes "console") (string (codes "c")) (member (codes "file") (string (codes "f")) (member (codes "stack") (integer (pos 16)) no_members)) in
        app_plan_in names ≡ None }
    ensures zero_fuel { let names : Members = member (codes "console") (string (codes "c")) (member (codes "file") (string (codes "f")) (member (codes "stack") (integer (pos 16)) no_members)) in
        app_plan_in (member (codes "fuel") (integer (pos 0)) names) ≡ None }
    ensures negative_stack { let names : Members = member (codes "console") (string (codes "c")) (member (codes "file") (string (codes "f")) (member (codes "fuel") (integer (pos 7)) no_members)) in
        app_plan_in (member (codes "stack") (integer (negsuc 0)) names) ≡ None }
    ensures no_table { array_in app_plan_of 1 8 (array (item (integer (pos 1)) no_items)) ≡ None }
    ensures nothing { array_in app_plan_of 1 8 (array no_items) ≡ None }
    ensures no_array { array_in app_plan_of 1 8 (table no_members) ≡ None }
    ensures absent { challenges_at no_members ≡ Some [] }
{}
