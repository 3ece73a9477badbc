//! The laws of a history.

ghost use Rattle.std.specs.Prelude.{◌≡◌, ℕ, ◌+◌, ◌^◌, ◌<◌, ◌≤◌, ◌⊎◌, ◌↔◌, List, [], ◌∷◌, ◌++◌, length, reverse, All, slice_get, take, false, Some, None};
ghost use Rattle.history.specs.declared.events.Width.{Width};
ghost use Rattle.history.specs.declared.events.Discipline.{Discipline};
ghost use Rattle.history.specs.declared.events.Act.{Act};
ghost use Rattle.history.specs.declared.events.Entry.{Entry};
ghost use Rattle.history.specs.Attested.{total};
ghost use Rattle.history.specs.Layout.{Setting, IsSetting, width_bytes};
ghost use Rattle.history.specs.Memory.{Memory, back, memory_after, memory_at, own, value_in};
ghost use Rattle.history.specs.Pass.{Pass, copied_of, is_released, pass_after, pass_step, start_of};
ghost use Rattle.history.specs.Legal.{IsLegal, MayFollow, in_order};
ghost use Rattle.history.specs.Broken.{Break, broken, broken_rule};
ghost use Rattle.history.specs.Copied.{copied_bytes, copied_step};
ghost use Rattle.history.specs.Instants.{EndsAt, ReleasesAt};
ghost use Rattle.history.specs.Sliding.{LocksSlide, CopiedIsMemory};
ghost use Rattle.lock_plan.specs.Plans.{next_step};
ghost use Rattle.chronicle.specs.Laws.{EndCopiesNone, EndsThere, ReleasesThere, IsFirstBreak, KeepsPass, between, is_next, patched, lock_plan_of, plan_step, stored};
ghost use Rattle.chronicle.specs.Ports.{AddsEntry, OthersFollow};

use history::blocks_in_order;

/// The entries before a place, as the definitions look back over them: how many they are, the one
/// that each place adds, and that later entries change none of them.
pub fn places_of_a_history()
    ensures none { (history : List Entry) → back history 0 ≡ [] }
    ensures count { (history : List Entry) (place : ℕ) → place ≤ length history
        → length (back history place) ≡ place }
    ensures next { (history : List Entry) (place : ℕ) (entry : Entry)
        → slice_get history place ≡ Some entry → back history (place + 1) ≡ entry ∷ back history place }
    ensures all { (history : List Entry) → back history (length history) ≡ reverse history }
    ensures longer { (history more : List Entry) (place : ℕ) → place ≤ length history
        → back (history ++ more) place ≡ back history place }
{}

/// The first entries of a legal history, up to any place, are a legal history: each rule looks at the
/// entry and at those before it alone.
pub fn prefixes_are_legal()
    ensures { (w : Setting) (history : List Entry) (place : ℕ)
        → IsLegal w history → IsLegal w (take place history) }
{}

/// A history with one entry more is legal where the history is and the entry may follow it, and
/// nowhere else.
pub fn one_entry_more()
    ensures more { (w : Setting) (history : List Entry) (entry : Entry)
        → IsLegal w history → MayFollow w (reverse history) entry → IsLegal w (history ++ entry ∷ []) }
    ensures less { (w : Setting) (history : List Entry) (entry : Entry)
        → IsLegal w (history ++ entry ∷ []) → IsLegal w history × MayFollow w (reverse history) entry }
{}

/// The entries of some actors: they are a filter, so those of two lists in a row are those of the
/// first and then those of the second, others have none, and a part of the actors has its own out of
/// those of all.
pub fn own_entries()
    ensures append { (a b : List Entry) (low high : ℕ)
        → own (a ++ b) low high ≡ own a low high ++ own b low high }
    ensures none { (low high : ℕ) (others : List Entry)
        → All (λ entry. (entry.actor < low) ⊎ (high ≤ entry.actor)) others → own others low high ≡ [] }
    ensures all { (low high : ℕ) (mine : List Entry)
        → All (λ entry. (low ≤ entry.actor) × (entry.actor < high)) mine → own mine low high ≡ mine }
    ensures part { (history : List Entry) (low high from upto : ℕ) → low ≤ from → upto ≤ high
        → own (own history low high) from upto ≡ own history from upto }
{}

/// Memory is bytes, whatever the history: the first image is, and a store puts a remainder by 256. So
/// the value that an access reads fits its width.
pub fn memory_is_bytes()
    ensures bytes { (w : Setting) → IsSetting w → (past : List Entry) (x : ℕ)
        → memory_after w past x < 256 }
    ensures values { (m : Memory) → ((x : ℕ) → m x < 256) → (addr : ℕ) (width : Width)
        → value_in m addr width < 256 ^ width_bytes width }
{}

/// Memory at a later place is memory at an earlier one with the stores of the entries between applied
/// in their order: the last store that covers a byte says what it is, and where none of these does,
/// the earlier memory does.
pub fn memory_later()
    ensures next { (w : Setting) (history : List Entry) (place : ℕ) (entry : Entry)
        → slice_get history place ≡ Some entry
        → (x : ℕ) → memory_at w history (place + 1) x ≡ stored entry (memory_at w history place) x }
    ensures between { (w : Setting) (history : List Entry) (place later : ℕ) → place ≤ later → (x : ℕ)
        → memory_at w history later x
        ≡ patched (between history place later) (memory_at w history place) x }
    ensures newer { (w : Setting) (later older : List Entry) (x : ℕ)
        → memory_after w (reverse later ++ older) x ≡ patched later (memory_after w older) x }
{}

/// The first break of a rule: there is none exactly where the history is legal, and else it is the
/// place before which the history is legal, with the least rule that the entry there breaks. Each rule
/// is a test that computes, and none fails exactly where the entry may follow.
pub fn broken_is_exact()
    ensures none { (w : Setting) (history : List Entry)
        → (broken w history ≡ None) ↔ IsLegal w history }
    ensures first { (w : Setting) (history : List Entry) (b : Break)
        → (broken w history ≡ Some b) ↔ IsFirstBreak w history b }
    ensures rules { (w : Setting) (past : List Entry) (entry : Entry)
        → (broken_rule w past entry ≡ None) ↔ MayFollow w past entry }
{}

/// The sliding-lock fact. While a pass runs, a block that is still to be copied has the bytes of
/// Start, where the discipline locks from Start on, and a copied block that is still locked has the
/// bytes of its own Copy.
///
/// Every kind of entry keeps this: all but a store change no byte, and a store goes to a block that
/// isn't locked.
pub fn locks_slide()
    ensures { LocksSlide }
{
    blocks_in_order();
}

/// At each instant of a pass the attested memory is what the pass has copied, block by block, up to
/// its End.
///
/// Where a discipline locks from Start on, each block had the bytes of Start at its own Copy and,
/// until the lock is given up, has them still. Where it locks a block from its Copy on, each block has
/// the bytes of its Copy at End, when all are copied, and keeps them while the lock is held. End and
/// Release change no byte, so their own places still count.
pub fn copied_is_memory()
    ensures { CopiedIsMemory }
{
    blocks_in_order();
}

/// What the measurer knows of its pass stays true while others make their entries: where no new entry
/// is actor 0's, the pass is the same, with the same copies, and where there was none there is none.
/// Others only fetch, load and store, by the rule on actors.
pub fn others_keep_the_pass()
    ensures pass { (w : Setting) (history others : List Entry)
        → IsLegal w (history ++ others) → own others 0 1 ≡ []
        → (pass : Pass) → pass_after (reverse history) ≡ Some pass
        → KeepsPass w history (history ++ others) pass }
    ensures none { (w : Setting) (history others : List Entry)
        → IsLegal w (history ++ others) → own others 0 1 ≡ []
        → pass_after (reverse history) ≡ None → pass_after (reverse (history ++ others)) ≡ None }
{}

/// What shows the instants of a pass to one who has followed it: how one entry more changes the pass
/// and the bytes that it has copied, where the pass's End and Release stand, however the history goes
/// on, and that a pass that has ended copied every attested block after its Start.
pub fn places_of_a_pass()
    ensures step { (history : List Entry) (entry : Entry)
        → pass_after (reverse (history ++ entry ∷ []))
        ≡ pass_step entry.act entry (reverse history) (pass_after (reverse history)) }
    ensures bytes { (w : Setting) (history : List Entry) (entry : Entry)
        → copied_bytes w (reverse (history ++ entry ∷ []))
        ≡ copied_step w entry.act (reverse history) (copied_bytes w (reverse history)) }

    ensures ends { EndsThere }
    ensures end_bytes { EndCopiesNone }
    ensures releases { ReleasesThere }
    ensures unreleased { (history : List Entry) (pass : Pass)
        → pass_after (reverse history) ≡ Some pass → is_released pass ≡ false
        → ReleasesAt history pass.discipline pass.counter (start_of pass) (length history) }

    ensures whole { (w : Setting) (history : List Entry) → IsLegal w history
        → (form : Discipline) (number start end : ℕ) → (e : EndsAt history form number start end)
        → (copied_of e.pass ≡ total w.ranges) × (start < end) }
{}

/// What the order rule allows is what the plan of the pass names next. So who knows the plan knows which
/// step is in order.
pub fn order_by_plan()
    ensures { (w : Setting) → IsSetting w → (history : List Entry) → IsLegal w history → (act : Act)
        → in_order w (pass_after (reverse history)) act ≡ is_next (next_step (lock_plan_of w history)) act }
{
    blocks_in_order();
}

/// Entries of others change neither the order nor the plan of a pass: both are those of the measurer's
/// own entries. So a measurer that has seen others' entries may take the step that was in order before.
pub fn others_keep_the_order()
    ensures order { (w : Setting) (history others : List Entry)
        → IsLegal w (history ++ others) → own others 0 1 ≡ [] → (act : Act)
        → in_order w (pass_after (reverse (history ++ others))) act
        ≡ in_order w (pass_after (reverse history)) act }
    ensures own_order { (w : Setting) (history : List Entry) → IsLegal w history → (act : Act)
        → in_order w (pass_after (reverse history)) act
        ≡ in_order w (pass_after (reverse (own history 0 1))) act }
    ensures own_plan { (w : Setting) (history : List Entry) → IsLegal w history
        → lock_plan_of w history ≡ lock_plan_of w (own history 0 1) }
{}

/// What the answers of a measurer's port say of the plan: others' entries leave it as it is, and the
/// own entry changes it as its act does.
pub fn answers_move_the_plan()
    ensures others { (w : Setting) (old new : List Entry) → IsLegal w new → OthersFollow 0 1 old new
        → lock_plan_of w new ≡ lock_plan_of w old }
    ensures added { (w : Setting) (old new : List Entry) (entry : Entry)
        → IsLegal w new → AddsEntry 0 1 old new entry
        → lock_plan_of w new ≡ plan_step entry.act (lock_plan_of w old) }
{}

/// What the answers of a port say of the entries of its own range: others' entries add none to them, and
/// the own entry comes last. A call that made no entry can be joined with a later one.
pub fn answers_add_own_entries()
    ensures others { (low high : ℕ) (old new : List Entry) → OthersFollow low high old new
        → own new low high ≡ own old low high }
    ensures added { (low high : ℕ) (old new : List Entry) (entry : Entry)
        → AddsEntry low high old new entry → low ≤ entry.actor → entry.actor < high
        → own new low high ≡ own old low high ++ entry ∷ [] }
    ensures none { (low high : ℕ) (history : List Entry) → OthersFollow low high history history }
    ensures others_join { (low high : ℕ) (first second third : List Entry)
        → OthersFollow low high first second → OthersFollow low high second third
        → OthersFollow low high first third }
    ensures added_join { (low high : ℕ) (first second third : List Entry) (entry : Entry)
        → OthersFollow low high first second → AddsEntry low high second third entry
        → AddsEntry low high first third entry }
{}
