// The law of listings: a fact about the definitions alone, so its function does nothing.

ghost use Rattle.std.specs.Prelude.{◌≡◌, ◌↔◌, ℕ, List, Contains};
ghost use Rattle.listing.specs.Listing.{word, byte, items};
ghost use Rattle.listing.specs.Told.{HasWord, HasSingle};

/// What is listed of some bytes from an address on: each word at an address divisible by 4 whose four bytes are there,
/// and each byte whose word isn't there.
pub fn words_and_single_bytes()
    ensures words { (at : ℕ) (bytes : List ℕ) (place value : ℕ) → Contains (items at bytes) (word place value)
        ↔ HasWord at bytes place value }
    ensures bytes { (at : ℕ) (bytes : List ℕ) (place value : ℕ) → Contains (items at bytes) (byte place value)
        ↔ HasSingle at bytes place value }
{}
