//! What the words mean, for numbers.

ghost use Rattle.std.specs.Prelude.{◌≡◌, ℕ, true, false, Option, Some, None, Result, Ok, Err};
ghost use Rattle.sequencing.specs.Options as options;
ghost use Rattle.sequencing.specs.Results as results;

/// The first step that gives nothing, or gives a fault, ends what is read; the next step has the value of the one before.
pub fn steps_in_order()
    ensures when { (value : ℕ) → (options.when true value ≡ Some value) × (options.when false value ≡ None) }
    ensures unless { (fault value : ℕ) → (results.unless {E = ℕ} None value ≡ Ok value) × (results.unless (Some fault) value ≡ Err fault) }
{}
