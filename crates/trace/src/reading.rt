//! The lines of a trace, read from the front of a text.

ghost use Rattle.std.specs.Prelude.{◌≡◌, ◌≢◌, ℕ, List, ◌+◌, ◌*◌, ◌^◌, ◌<◌, ◌≤◌, ◌++◌, ◌∷◌, length, IfSome, IfNone};
ghost use Rattle.std.specs.Option.{option_map};
ghost use Rattle.history.specs.declared.events.Entry.{Entry};
ghost use Rattle.history.specs.Layout.{width_bytes};
ghost use Rattle.trace.specs.Text.{entry_text};
ghost use Rattle.trace.specs.Printable.{IsPrintable};
ghost use Rattle.trace.specs.Reading.{text_behind, low_digit, digits_at, decimal_at, access_at, sized_at, fetch_at, load_at, store_at, coded_discipline, start_at, copy_at, short_act_at, act_at, entry_at};

use chronicle::{Act, Discipline, Entry, Width};
use text_readers::{cut_at, plain_decimal};

/// The text behind a word that stands at its front.
pub fn text_behind<'a>(word: &[u8], text: &'a [u8]) -> Option<&'a [u8]>
    ensures { option_map (λ rest. rest.now) result ≡ text_behind word.now text.now }
{
    if !text.starts_with(word) {
        return None;
    }
    Some(&text[word.len()..])
}

// The value of each byte as a lower-case hexadecimal digit; 16 of one that is none.
static LOW_DIGITS: [u8; 256] = *b"\
    \x10\x10\x10\x10\x10\x10\x10\x10\x10\x10\x10\x10\x10\x10\x10\x10\
    \x10\x10\x10\x10\x10\x10\x10\x10\x10\x10\x10\x10\x10\x10\x10\x10\
    \x10\x10\x10\x10\x10\x10\x10\x10\x10\x10\x10\x10\x10\x10\x10\x10\
    \x00\x01\x02\x03\x04\x05\x06\x07\x08\x09\x10\x10\x10\x10\x10\x10\
    \x10\x10\x10\x10\x10\x10\x10\x10\x10\x10\x10\x10\x10\x10\x10\x10\
    \x10\x10\x10\x10\x10\x10\x10\x10\x10\x10\x10\x10\x10\x10\x10\x10\
    \x10\x0a\x0b\x0c\x0d\x0e\x0f\x10\x10\x10\x10\x10\x10\x10\x10\x10\
    \x10\x10\x10\x10\x10\x10\x10\x10\x10\x10\x10\x10\x10\x10\x10\x10\
    \x10\x10\x10\x10\x10\x10\x10\x10\x10\x10\x10\x10\x10\x10\x10\x10\
    \x10\x10\x10\x10\x10\x10\x10\x10\x10\x10\x10\x10\x10\x10\x10\x10\
    \x10\x10\x10\x10\x10\x10\x10\x10\x10\x10\x10\x10\x10\x10\x10\x10\
    \x10\x10\x10\x10\x10\x10\x10\x10\x10\x10\x10\x10\x10\x10\x10\x10\
    \x10\x10\x10\x10\x10\x10\x10\x10\x10\x10\x10\x10\x10\x10\x10\x10\
    \x10\x10\x10\x10\x10\x10\x10\x10\x10\x10\x10\x10\x10\x10\x10\x10\
    \x10\x10\x10\x10\x10\x10\x10\x10\x10\x10\x10\x10\x10\x10\x10\x10\
    \x10\x10\x10\x10\x10\x10\x10\x10\x10\x10\x10\x10\x10\x10\x10\x10";

#[tactic(auto, using(crate::proofs::Table::low_in_table))]
fn table_digit(c: u8) -> u8
    ensures { result ≡ low_digit c }
{
    LOW_DIGITS[c as usize]
}

// The value of a lower-case hexadecimal digit; 16 of any other byte.
fn low_digit(c: u8) -> u32
    ensures value { result ≡ low_digit c }
    ensures small { result ≤ 16 }
{
    u32::from(table_digit(c))
}

/// The number that so many lower-case hexadecimal digits at the front say, at most 8 of them, and the text behind them.
pub fn digits_at(count: usize, text: &[u8]) -> Option<(u32, &[u8])>
    requires { count ≤ 8 }
    ensures value { option_map (λ found. (found.0, found.1.now)) result ≡ digits_at count 0 text.now }
{
    if text.len() < count {
        return None;
    }
    // No branch depends on a byte, so none is guessed wrong: a byte that is no digit leaves its 16 in `seen`.
    let mut value = 0u32;
    let mut seen = 0u32;
    for c in &text[..count] {
        let digit = low_digit(*c);
        seen |= digit;
        value = value.wrapping_mul(16).wrapping_add(digit);
    }
    if seen >= 16 {
        return None;
    }
    Some((value, &text[count..]))
}

/// A decimal number with no zero in front and the byte that ends it, and the text behind that byte.
pub fn decimal_at(end: u8, text: &[u8]) -> Option<(u64, &[u8])>
    ensures { option_map (λ found. (found.0, found.1.now)) result ≡ decimal_at end text.now }
{
    let (word, rest) = cut_at(end, text)?;
    let number = plain_decimal(word)?;
    Some((number, rest))
}

// ` ADDR VALUE` of this width, up to the line's end.
#[tactic(auto, unfolding(crate::specs::Reading::access_at))]
#[inline(always)]
fn access_at(width: Width, text: &[u8]) -> Option<(u32, u32, &[u8])>
    ensures { option_map (λ found. (found.0, found.1, found.2.now)) result ≡ access_at width text.now }
{
    let front = text_behind(b" ", text)?;
    let (addr, digits) = digits_at(8, front)?;
    let digits = text_behind(b" ", digits)?;
    let (value, rest) = digits_at(2 * width.bytes() as usize, digits)?;
    let rest = text_behind(b"\n", rest)?;
    Some((addr, value, rest))
}

// A width and an access of that width, up to the line's end.
#[tactic(auto, unfolding(crate::specs::Reading::sized_at))]
fn sized_at(text: &[u8]) -> Option<(Width, u32, u32, &[u8])>
    ensures { option_map (λ found. (found.0, found.1, found.2, found.3.now)) result ≡ sized_at text.now }
{
    let (c, text) = text.split_first()?;
    let width = match *c {
        b'1' => Width::Byte,
        b'2' => Width::Half,
        b'4' => Width::Word,
        _ => return None,
    };
    let (addr, value, rest) = access_at(width, text)?;
    Some((width, addr, value, rest))
}

#[tactic(auto, unfolding(crate::specs::Reading::fetch_at))]
fn fetch_at(text: &[u8]) -> Option<(Act, &[u8])>
    ensures { option_map (λ found. (found.0, found.1.now)) result ≡ fetch_at text.now }
{
    let (addr, value, rest) = access_at(Width::Word, text)?;
    Some((Act::Fetch { addr, value }, rest))
}

#[tactic(auto, unfolding(crate::specs::Reading::load_at))]
fn load_at(text: &[u8]) -> Option<(Act, &[u8])>
    ensures { option_map (λ found. (found.0, found.1.now)) result ≡ load_at text.now }
{
    let (width, addr, value, rest) = sized_at(text)?;
    Some((Act::Load { addr, width, value }, rest))
}

#[tactic(auto, unfolding(crate::specs::Reading::store_at))]
fn store_at(text: &[u8]) -> Option<(Act, &[u8])>
    ensures { option_map (λ found. (found.0, found.1.now)) result ≡ store_at text.now }
{
    let (width, addr, value, rest) = sized_at(text)?;
    Some((Act::Store { addr, width, value }, rest))
}

fn coded_discipline(code: u64) -> Option<Discipline>
    ensures { result ≡ coded_discipline code }
{
    if code > 255 {
        return None;
    }
    Discipline::from_code(code as u8)
}

#[tactic(auto, unfolding(crate::specs::Reading::start_at))]
fn start_at(text: &[u8]) -> Option<(Act, &[u8])>
    ensures { option_map (λ found. (found.0, found.1.now)) result ≡ start_at text.now }
{
    let (code, rest) = decimal_at(b' ', text)?;
    let discipline = coded_discipline(code)?;
    let (counter, rest) = decimal_at(b'\n', rest)?;
    Some((
        Act::Start {
            discipline,
            counter,
        },
        rest,
    ))
}

#[tactic(auto, unfolding(crate::specs::Reading::copy_at))]
fn copy_at(text: &[u8]) -> Option<(Act, &[u8])>
    ensures { option_map (λ found. (found.0, found.1.now)) result ≡ copy_at text.now }
{
    let (block, rest) = decimal_at(b'\n', text)?;
    if block >= 4_096 {
        return None;
    }
    Some((
        Act::Copy {
            block: block as u32,
        },
        rest,
    ))
}

#[tactic(auto, unfolding(crate::specs::Reading::short_act_at))]
fn short_act_at(text: &[u8]) -> Option<(Act, &[u8])>
    ensures { option_map (λ found. (found.0, found.1.now)) result ≡ short_act_at text.now }
{
    if let Some(rest) = text_behind(b" end\n", text) {
        return Some((Act::End, rest));
    }
    if let Some(rest) = text_behind(b" tick\n", text) {
        return Some((Act::Tick, rest));
    }
    let rest = text_behind(b" release\n", text)?;
    Some((Act::Release, rest))
}

// An act, as it stands behind its actor, up to the line's end.
#[tactic(auto, unfolding(crate::specs::Reading::act_at))]
fn act_at(text: &[u8]) -> Option<(Act, &[u8])>
    ensures { option_map (λ found. (found.0, found.1.now)) result ≡ act_at text.now }
{
    if let Some(rest) = text_behind(b" f", text) {
        return fetch_at(rest);
    }
    if let Some(rest) = text_behind(b" l", text) {
        return load_at(rest);
    }
    if let Some(rest) = text_behind(b" start ", text) {
        return start_at(rest);
    }
    if let Some(rest) = text_behind(b" s", text) {
        return store_at(rest);
    }
    match text_behind(b" copy ", text) {
        Some(rest) => copy_at(rest),
        None => short_act_at(text),
    }
}

// The entry whose line a text begins with, and the text behind that line.
#[tactic(auto, unfolding(crate::specs::Reading::entry_at))]
fn entry_at(text: &[u8]) -> Option<(Entry, &[u8])>
    ensures { option_map (λ found. (found.0, found.1.now)) result ≡ entry_at text.now }
{
    let (c, text) = text.split_first()?;
    if *c < b'0' || *c > b'8' {
        return None;
    }
    let (act, rest) = act_at(text)?;
    Some((
        Entry {
            actor: u32::from(*c - b'0'),
            act,
        },
        rest,
    ))
}

/// The entry whose line a text begins with, and the text behind that line. None exactly where no line of an entry in the
/// ranges of the text, with its end, stands at the front.
pub fn first_entry(text: &[u8]) -> Option<(Entry, &[u8])>
    ensures found { IfSome result (λ found. IsPrintable found.0
        × (text.now ≡ entry_text found.0 ++ 10 ∷ found.1.now)) }
    ensures none { IfNone result ((entry : Entry) (rest : List ℕ) → IsPrintable entry
        → text.now ≢ entry_text entry ++ 10 ∷ rest) }
{
    entry_at(text)
}
