//! Laws about memory and its layout, for the layers above: each is a contract with nothing to run.

ghost use Rattle.std.specs.Prelude.{◌≡◌, ℕ, ◌+◌, ◌<◌, false, IsTrue, List, ◌∷◌};
ghost use Rattle.history.specs.declared.events.Entry.{Entry};
ghost use Rattle.history.specs.declared.events.Width.{Width};
ghost use Rattle.history.specs.Layout.{Layout, Setting, IsLayout, fits, is_aligned, has_byte, block_of, width_bytes};
ghost use Rattle.block_memory.specs.Bytes.{Held, IsMemoryOf, is_store};

/// All bytes of an access that fits lie in memory, and if it is aligned, in one block.
pub fn access_in_one_block()
    ensures inside { (l : Layout) (addr : ℕ) (width : Width) → IsTrue (fits l addr width)
        → (k : ℕ) → k < width_bytes width → IsTrue (has_byte l (addr + k)) }
    ensures block { (l : Layout) (addr : ℕ) (width : Width) → IsLayout l → IsTrue (fits l addr width)
        → IsTrue (is_aligned addr width) → (k : ℕ) → k < width_bytes width
        → block_of l (addr + k) ≡ block_of l addr }
{}

/// The block of a byte in memory is one of memory's blocks.
pub fn block_in_memory()
    ensures { (l : Layout) (x : ℕ) → IsTrue (has_byte l x) → block_of l x < l.blocks }
{}

/// An entry that isn't a store leaves memory as it was.
pub fn reads_keep_memory()
    ensures { (w : Setting) (past : List Entry) (held : Held) (entry : Entry)
        → is_store entry.act ≡ false → IsMemoryOf w past held → IsMemoryOf w (entry ∷ past) held }
{}
