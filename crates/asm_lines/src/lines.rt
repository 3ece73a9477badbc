// Lines, cut off the front of a text and parsed.

ghost use Rattle.std.specs.Prelude.{◌≡◌, ◌<◌, ◌==◌, [], ◌∷◌, length, Some, MatchOption, IfSome};
ghost use Rattle.std.specs.List.{position};
ghost use Rattle.std.specs.Option.{option_map};
ghost use Rattle.asm_lines.specs.Cuts.{ends_plain, line_of, nothing_said, FirstLineSays};
ghost use Rattle.asm_lines.specs.Lines.{without_cr, source_lines};

use crate::cuts::{ParsedLine, is_text_byte, labelled, parse_line, trimmed};
use text_readers::cut_at;

// The line without the one CR that stands right before its end.
fn without_cr(line: &[u8]) -> &[u8]
    ensures { result.now ≡ without_cr line.now }
{
    let count = line.len();
    if count > 0 && line[count - 1] == b'\r' {
        return &line[..count - 1];
    }
    line
}

// The first line of a text that has one, and the text after it.
fn first_line(text: &[u8]) -> (&[u8], &[u8])
    requires { 0 < length text.now }
    ensures line { source_lines text.now ≡ result.0.now ∷ source_lines result.1.now }
    ensures shorter { length result.1.now < length text.now }
{
    match cut_at(b'\n', text) {
        Some((line, rest)) => (without_cr(line), rest),
        None => (text, &text[text.len()..]),
    }
}

// Whether a line's plain part ends at this byte: at a comment, or at a byte that no line has, as its end is.
fn ends_plain(byte: u8) -> bool
    ensures { result ≡ ends_plain byte }
{
    byte == b'#' || !is_text_byte(byte)
}

fn plain_end(text: &[u8]) -> Option<usize>
    ensures { result ≡ position ends_plain text.now }
{
    text.iter().position(|byte| ends_plain(*byte))
}

// The first line and the text after it, where one walk does: it has no comment, no CR and nothing at fault in its bytes.
fn plain_line(text: &[u8]) -> Option<(Option<ParsedLine<'_>>, &[u8])>
    ensures line { IfSome result (λ parts. FirstLineSays text.now (option_map line_of parts.0) parts.1.now) }
    ensures shorter { IfSome result (λ parts. length parts.1.now < length text.now) }
{
    let at = plain_end(text)?;
    if text[at] != b'\n' {
        return None;
    }
    Some((labelled(trimmed(&text[..at])), &text[at + 1..]))
}

/// The text after its first line, where that line is empty.
pub fn after_empty_line(text: &[u8]) -> Option<&[u8]>
    ensures line { IfSome result (λ rest. FirstLineSays text.now (Some nothing_said) rest.now) }
    ensures shorter { IfSome result (λ rest. length rest.now < length text.now) }
{
    if text.is_empty() || text[0] != b'\n' {
        return None;
    }
    Some(&text[1..])
}

/// What the first line says, where it has its shape, and the text after it; `None` where the text has no byte left.
/// A comment is cut off, and one CR right before the line's LF is passed over.
pub fn next_line(text: &[u8]) -> Option<(Option<ParsedLine<'_>>, &[u8])>
    ensures line { MatchOption result (text.now ≡ []) (λ parts. FirstLineSays text.now (option_map line_of parts.0) parts.1.now) }
    ensures shorter { IfSome result (λ parts. length parts.1.now < length text.now) }
{
    if text.is_empty() {
        return None;
    }
    if let Some(plain) = plain_line(text) {
        return Some(plain);
    }
    let (line, rest) = first_line(text);
    Some((parse_line(line), rest))
}
