//! The lines of a trace's image, read from the front of a text.

ghost use Rattle.std.specs.Prelude.{◌≡◌, ◌≢◌, ℕ, List, ◌<◌, ◌++◌, ◌∷◌, length, All, IfSome, IfNone};
ghost use Rattle.hex.specs.Hex.{IsBytes, encode_lower};

use crate::reading::{digits_at, text_behind};

/// Fills the piece by the bytes of a line of the image, and gives the text behind that line.
pub fn image_line<'a>(piece: &mut [u8], text: &'a [u8]) -> Option<&'a [u8]>
    ensures length { length piece.new ≡ length piece.old }
    ensures bytes { IfSome result (λ _. All (λ byte. byte < 256) piece.new) }
    ensures found { IfSome result (λ rest. text.now ≡ encode_lower piece.new ++ 10 ∷ rest.now) }
    ensures none { IfNone result ((bytes rest : List ℕ) → IsBytes bytes → length bytes ≡ length piece.old
        → text.now ≢ encode_lower bytes ++ 10 ∷ rest) }
{
    let mut left = text;
    for place in 0..piece.len() {
        let Some((byte, rest)) = digits_at(2, left) else {
            return None;
        };
        piece[place] = byte as u8;
        left = rest;
    }
    text_behind(b"\n", left)
}
