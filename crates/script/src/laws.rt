//! What holds of every script in the grammar.

ghost use Rattle.script.specs.Programs.{Program};
ghost use Rattle.script.specs.Attested.{IsScript, IsAttested, IsReleased};

use chronicle::{copied_is_memory, places_of_a_pass};

/// The history of a script in the grammar is legal, and each tag that it prints is that of the attested memory
/// at every instant of its pass.
pub fn scripts_attest()
    ensures { (program : Program) → IsScript program → IsAttested program }
{
    copied_is_memory();
    places_of_a_pass();
}

/// Each Release that a script prints stands where its pass is released, and its tag is that of a note on the
/// counter, on the places of Start, End and Release, and on the tag that the pass's End printed.
pub fn releases_tell()
    ensures { (program : Program) → IsScript program → IsReleased program }
{
    places_of_a_pass();
}
