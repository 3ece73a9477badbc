//! Lines of a text and words of a line, cut off the front.

ghost use Rattle.std.specs.Prelude.{◌≡◌, ◌<◌, ◌≤◌, ◌+◌, ◌==◌, ℕ, [], ◌∷◌, length, MatchOption, IfSome};
ghost use Rattle.std.specs.List.{position};
ghost use Rattle.text_readers.specs.Lines.{parts_at, lines_of, words_of, AreWords};

/// The words of a line that has at most five, or the news that it has more.
#[derive(Clone, Copy, Debug)]
pub enum Words<'a> {
    One(&'a [u8]),
    Two(&'a [u8], &'a [u8]),
    Three(&'a [u8], &'a [u8], &'a [u8]),
    Four(&'a [u8], &'a [u8], &'a [u8], &'a [u8]),
    Five(&'a [u8], &'a [u8], &'a [u8], &'a [u8], &'a [u8]),
    More,
}

/// The place of the first such byte; None exactly where no byte is one.
pub fn first_place(byte: u8, text: &[u8]) -> Option<usize>
    ensures { result ≡ position (λ b. b == byte) text.now }
{
    text.iter().position(|b| *b == byte)
}

/// What stands before the first such byte, and what stands after it; None exactly where no byte is one.
pub fn cut_at(byte: u8, text: &[u8]) -> Option<(&[u8], &[u8])>
    ensures parts { MatchOption result
        (parts_at byte text.now ≡ text.now ∷ [])
        (λ parts. parts_at byte text.now ≡ parts.0.now ∷ parts_at byte parts.1.now) }
    ensures shorter { IfSome result (λ parts. length parts.1.now < length text.now) }
{
    match first_place(byte, text) {
        Some(at) => Some((&text[..at], &text[at + 1..])),
        None => None,
    }
}

// The first line of a text that has one, without its end, and the text after it.
fn first_line(text: &[u8]) -> (&[u8], &[u8])
    requires { 0 < length text.now }
    ensures line { lines_of text.now ≡ result.0.now ∷ lines_of result.1.now }
    ensures shorter { length result.1.now < length text.now }
{
    match first_place(b'\n', text) {
        Some(at) => (&text[..at], &text[at + 1..]),
        None => (text, &text[text.len()..]),
    }
}

/// The first line, without its end, and the text after it; None where the text has no byte left.
pub fn next_line(text: &[u8]) -> Option<(&[u8], &[u8])>
    ensures line { MatchOption result (text.now ≡ []) (λ parts. lines_of text.now ≡ parts.0.now ∷ lines_of parts.1.now) }
    ensures shorter { IfSome result (λ parts. length parts.1.now < length text.now) }
{
    if text.is_empty() {
        return None;
    }
    Some(first_line(text))
}

/// The words of a line, where it has at most five.
pub fn words_in(line: &[u8]) -> Words<'_>
    ensures { AreWords result (words_of line.now) }
{
    let Some((a, line)) = cut_at(b' ', line) else {
        return Words::One(line);
    };
    let Some((b, line)) = cut_at(b' ', line) else {
        return Words::Two(a, line);
    };
    let Some((c, line)) = cut_at(b' ', line) else {
        return Words::Three(a, b, line);
    };
    let Some((d, line)) = cut_at(b' ', line) else {
        return Words::Four(a, b, c, line);
    };
    match cut_at(b' ', line) {
        None => Words::Five(a, b, c, d, line),
        Some(_) => Words::More,
    }
}
