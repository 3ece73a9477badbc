//! What holds of every trace's text.

ghost use Rattle.std.specs.Prelude.{◌≡◌, ℕ, ◌++◌, ◌∷◌, List, All, Some};
ghost use Rattle.std.specs.List.{concat};
ghost use Rattle.history.specs.declared.events.Entry.{Entry};
ghost use Rattle.history.specs.Layout.{Setting, IsSetting};
ghost use Rattle.history.specs.Legal.{IsLegal};
ghost use Rattle.trace.specs.Reading.{entry_at};
ghost use Rattle.trace.specs.Text.{entry_text, trace_parts, trace_text};
ghost use Rattle.trace.specs.Printable.{FitsFields, IsPrintable};

use chronicle::memory_is_bytes;
use history::blocks_in_order;

/// The parts in their order are the text.
pub fn parts_are_the_text()
    ensures { (w : Setting) (history : List Entry) → concat (trace_parts w history) ≡ trace_text w history }
{}

/// Each text is that of at most one setting that a device may have and one list of entries in the ranges of the text: two
/// that have the same text are the same.
pub fn one_trace()
    ensures { (w other : Setting) (history entries : List Entry) → IsSetting w → IsSetting other
        → All IsPrintable history → All IsPrintable entries
        → trace_text w history ≡ trace_text other entries → (w ≡ other) × (history ≡ entries) }
{}

/// The entries of a legal history are in the ranges of the text, where its stored values fit their widths and its counters
/// 64 bits, as the fields of an `Entry` and of a port's answers do.
pub fn legal_entries_are_printable()
    ensures { (w : Setting) → IsSetting w → (history : List Entry) → IsLegal w history
        → All FitsFields history → All IsPrintable history }
{
    blocks_in_order();
    memory_is_bytes();
}

/// Of the line of an entry: what is read stands there, and what stands there is read, whatever follows.
pub fn entries_are_read_again()
    ensures stands { (text rest : List ℕ) (entry : Entry) → entry_at text ≡ Some (entry, rest)
        → IsPrintable entry × (text ≡ entry_text entry ++ 10 ∷ rest) }
    ensures again { (entry : Entry) (rest : List ℕ) → IsPrintable entry
        → entry_at (entry_text entry ++ 10 ∷ rest) ≡ Some (entry, rest) }
{}
