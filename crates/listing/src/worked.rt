// The definitions, computed on small executables: each contract here is read beside `specs/`.

ghost use Rattle.std.specs.Prelude.{◌≡◌};
ghost use Rattle.listing.specs.Listing.{listing_of};
ghost use Rattle.listing.specs.Worked.{four_word_segments, four_lines, odd_bytes, odd_lines};

/// Four words, one after the other.
pub fn four_words_are_listed()
    ensures { listing_of four_word_segments ≡ four_lines }
{}

/// Bytes that no word has, a word that is no instruction, and memory that the file has no bytes for.
pub fn odd_bytes_are_listed()
    ensures { listing_of odd_bytes ≡ odd_lines }
{}
