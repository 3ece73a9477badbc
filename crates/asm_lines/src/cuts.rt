// A line, cut into its parts.

ghost use Rattle.std.specs.Prelude.{◌≡◌, ◌+◌, ◌<◌, ◌≤◌, ◌==◌, ◌&&◌, not, length, take, drop, slice_index, Some, None, if◌then◌else◌};
ghost use Rattle.std.specs.Option.{option_map};
ghost use Rattle.std.specs.List.{list_all, position, position_or_len};
ghost use Rattle.asm_lines.specs.Cuts as spec;
ghost use Rattle.asm_lines.specs.Cuts.{is_text_byte, front_to, has, trim_front, trim_end, line_of, worded, labelled, parse_line};

use text_readers::first_place;

/// A statement: its first word, and the text of its operands, with no blanks round it.
#[derive(Clone, Copy, Debug)]
pub struct RawStatement<'a> {
    pub mnemonic: &'a [u8],
    pub operands: &'a [u8],
}

/// A line's label and its statement, where it has them.
#[derive(Clone, Copy, Debug)]
pub struct ParsedLine<'a> {
    pub label: Option<&'a [u8]>,
    pub statement: Option<RawStatement<'a>>,
}

fn is_blank(byte: u8) -> bool
    ensures { result ≡ spec.is_blank byte }
{
    byte == b' ' || byte == b'\t'
}

/// Whether names may begin with this byte: a letter, `_` or `.`.
pub fn begins_name(byte: u8) -> bool
    ensures { result ≡ spec.begins_name byte }
{
    byte.is_ascii_uppercase() || byte.is_ascii_lowercase() || byte == b'_' || byte == b'.'
}

fn is_name_byte(byte: u8) -> bool
    ensures { result ≡ spec.is_name_byte byte }
{
    begins_name(byte) || byte.is_ascii_digit()
}

/// Whether a word is a name: 1 to 64 letters, digits, `_` and `.`, with no digit in front.
pub fn is_symbol(word: &[u8]) -> bool
    ensures { result ≡ spec.is_symbol word.now }
{
    word.len() <= 64 && begins_here(word) && has_name_bytes(word)
}

fn has_name_bytes(word: &[u8]) -> bool
    ensures { result ≡ list_all spec.is_name_byte word.now }
{
    word.iter().all(|byte| is_name_byte(*byte))
}

// How many bytes of names the text begins with.
fn name_end(text: &[u8]) -> usize
    ensures place { result ≡ position_or_len (λ byte. not (spec.is_name_byte byte)) text.now }
    ensures within { result ≤ length text.now }
{
    match first_other(text) {
        Some(at) => at,
        None => text.len(),
    }
}

fn first_other(text: &[u8]) -> Option<usize>
    ensures { result ≡ position (λ byte. not (spec.is_name_byte byte)) text.now }
{
    text.iter().position(|byte| !is_name_byte(*byte))
}

// The name that the text begins with, which is followed by a byte of no name, if by any.
fn leading_name(text: &[u8], end: usize) -> Option<&[u8]>
    requires { end ≡ position_or_len (λ byte. not (spec.is_name_byte byte)) text.now }
    ensures { option_map (λ name. name.now) result ≡ (if spec.is_symbol (take end text.now) then Some (take end text.now) else None) }
{
    if end > 64 || !begins_here(text) {
        return None;
    }
    Some(&text[..end])
}

/// Whether a text's first byte is one that names begin with.
pub fn begins_here(word: &[u8]) -> bool
    ensures { result ≡ spec.begins_name (slice_index word.now 0) }
{
    !word.is_empty() && begins_name(word[0])
}

/// Whether a line may have this byte: 20 to 7E, or tab.
pub fn is_text_byte(byte: u8) -> bool
    ensures { result ≡ is_text_byte byte }
{
    (32 <= byte && byte <= 126) || byte == b'\t'
}

fn is_text(line: &[u8]) -> bool
    ensures { result ≡ list_all is_text_byte line.now }
{
    line.iter().all(|byte| is_text_byte(*byte))
}

fn trim_front(text: &[u8]) -> &[u8]
    ensures { result.now ≡ trim_front text.now }
{
    let mut rest = text;
    while !rest.is_empty() && is_blank(rest[0]) {
        rest = &rest[1..];
    }
    rest
}

fn trim_end(text: &[u8]) -> &[u8]
    ensures { result.now ≡ trim_end text.now }
{
    let mut end = text.len();
    while end > 0 && is_blank(text[end - 1]) {
        end -= 1;
    }
    &text[..end]
}

/// The text without the blanks at its ends.
pub fn trimmed(text: &[u8]) -> &[u8]
    ensures { result.now ≡ spec.trimmed text.now }
{
    trim_end(trim_front(text))
}

// The line without its comment.
fn without_comment(line: &[u8]) -> &[u8]
    ensures { result.now ≡ front_to (λ byte. byte == 35) line.now }
{
    match first_place(b'#', line) {
        Some(at) => &line[..at],
        None => line,
    }
}

#[tactic(auto, unfolding(crate::specs::Cuts::worded))]
fn worded<'a>(label: Option<&'a [u8]>, text: &'a [u8]) -> Option<ParsedLine<'a>>
    ensures { option_map line_of result ≡ worded (option_map (λ name. name.now) label.entry) text.now }
{
    if text.is_empty() {
        return Some(ParsedLine {
            label,
            statement: None,
        });
    }
    match first_word(text) {
        None => None,
        Some(statement) => Some(ParsedLine {
            label,
            statement: Some(statement),
        }),
    }
}

// The first word, which ends at a blank, where it is a name, and what stands behind the blanks after it.
fn first_word(text: &[u8]) -> Option<RawStatement<'_>>
    ensures { option_map spec.statement_words result ≡ spec.first_word text.now }
{
    let end = name_end(text);
    if end < text.len() && !is_blank(text[end]) {
        return None;
    }
    match leading_name(text, end) {
        None => None,
        Some(mnemonic) => Some(RawStatement {
            mnemonic,
            operands: trim_front(behind(end, text)),
        }),
    }
}

// What stands behind a place, which may be the end.
fn behind(place: usize, text: &[u8]) -> &[u8]
    requires { place ≤ length text.now }
    ensures { result.now ≡ drop (place + 1) text.now }
{
    if place == text.len() {
        return &text[place..];
    }
    &text[place + 1..]
}

// The label that the text begins with, and what stands behind its colon.
fn leading_label(text: &[u8]) -> Option<(&[u8], &[u8])>
    ensures name { option_map (λ parts. parts.0.now) result ≡ (if spec.has_label text.now then Some (front_to (λ byte. byte == 58) text.now) else None) }
    ensures rest { option_map (λ parts. parts.1.now) result ≡ (if spec.has_label text.now then Some (spec.behind (λ byte. byte == 58) text.now) else None) }
{
    let end = name_end(text);
    if end == text.len() {
        return None;
    }
    if text[end] != b':' {
        return None;
    }
    match leading_name(text, end) {
        None => None,
        Some(name) => Some((name, &text[end + 1..])),
    }
}

#[tactic(auto, unfolding(crate::specs::Cuts::labelled))]
pub fn labelled(text: &[u8]) -> Option<ParsedLine<'_>>
    ensures { option_map line_of result ≡ labelled text.now }
{
    if text.is_empty() {
        return Some(ParsedLine {
            label: None,
            statement: None,
        });
    }
    match leading_label(text) {
        Some((name, rest)) => worded(Some(name), trim_front(rest)),
        None => worded(None, text),
    }
}

/// What a line says: its label, its first word and its operands; `None` where a byte or its shape is at fault.
/// A comment is cut off first.
#[tactic(auto, unfolding(crate::specs::Cuts::parse_line))]
pub fn parse_line(line: &[u8]) -> Option<ParsedLine<'_>>
    ensures { option_map line_of result ≡ parse_line line.now }
{
    if !is_text(line) {
        return None;
    }
    labelled(trimmed(without_comment(line)))
}
