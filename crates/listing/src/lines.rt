// A line of the listing.

ghost use Rattle.std.specs.Prelude.{◌≡◌};
ghost use Rattle.listing.specs.Listing.{word, byte, item_line};

use rv_asm::{Line, put, put_text};
use text_readers::{byte_digits, word_digits};

/// The line of a word.
#[tactic(auto, using(crate::proofs::Pieces::line_joined))]
pub fn word_line(at: u32, value: u32) -> Line
    ensures { result.items ≡ item_line (word at value) }
{
    let mut line = Line::new();
    put(&mut line, &word_digits(at));
    put(&mut line, b" ");
    put(&mut line, &word_digits(value));
    put(&mut line, b" ");
    put_text(&mut line, value);
    put(&mut line, b"\n");
    line
}

/// The line of a byte.
#[tactic(auto, using(crate::proofs::Pieces::byte_joined))]
pub fn byte_line(at: u32, value: u8) -> Line
    ensures { result.items ≡ item_line (byte at value) }
{
    let digits = byte_digits(value);
    let mut line = Line::new();
    put(&mut line, &word_digits(at));
    put(&mut line, b" ");
    put(&mut line, &digits);
    put(&mut line, b" .byte 0x");
    put(&mut line, &digits);
    put(&mut line, b"\n");
    line
}
