// Numbers and registers as operands spell them.

ghost use Rattle.std.specs.Prelude.{◌≡◌, ◌<◌, ◌≤◌, ◌^◌, length};
ghost use Rattle.asm_lines.specs.Numbers.{without_zeros, plain_hex, spelled, register_by_letter, counted_register, register_of};

use text_readers::{hex_number, plain_decimal};

fn without_zeros(digits: &[u8]) -> &[u8]
    ensures { result.now ≡ without_zeros digits.now }
{
    let mut rest = digits;
    while !rest.is_empty() && rest[0] == b'0' {
        rest = &rest[1..];
    }
    rest
}

#[tactic(auto, unfolding(crate::specs::Numbers::plain_hex))]
fn plain_hex(digits: &[u8]) -> Option<u32>
    ensures { result ≡ plain_hex digits.now }
{
    let rest = without_zeros(digits);
    if digits.is_empty() || rest.len() > 8 {
        return None;
    }
    hex_number(rest.len(), rest)
}

/// The number that a word spells, from -2^31 to 2^32 - 1: decimal digits with no zero in front, which may have a
/// minus before them, or `0x` and hexadecimal digits of either case.
#[tactic(auto, unfolding(crate::specs::Numbers::spelled))]
pub fn spelled(word: &[u8]) -> Option<i64>
    ensures { result ≡ spelled word.now }
{
    if word.starts_with(b"0x".as_slice()) {
        let number = plain_hex(&word[2..])?;
        return Some(i64::from(number));
    }
    if !word.is_empty() && word[0] == b'-' {
        let number = plain_decimal(&word[1..])?;
        if number > 0x8000_0000 {
            return None;
        }
        return Some(-(number as i64));
    }
    let number = plain_decimal(word)?;
    if number > 0xffff_ffff {
        return None;
    }
    Some(number as i64)
}

fn register_by_letter(letter: u8, number: u64) -> Option<u32>
    ensures { result ≡ register_by_letter letter number }
{
    if letter == b'x' && number < 32 {
        return Some(number as u32);
    }
    if letter == b'a' && number < 8 {
        return Some(10 + number as u32);
    }
    if letter == b't' && number < 3 {
        return Some(5 + number as u32);
    }
    if letter == b't' && number < 7 {
        return Some(25 + number as u32);
    }
    if letter == b's' && number < 2 {
        return Some(8 + number as u32);
    }
    if letter == b's' && number < 12 {
        return Some(16 + number as u32);
    }
    None
}

#[tactic(auto, unfolding(crate::specs::Numbers::counted_register, text_readers::specs::Numbers::plain_decimal))]
fn counted_register(word: &[u8]) -> Option<u32>
    ensures { result ≡ counted_register word.now }
{
    if word.is_empty() {
        return None;
    }
    let number = plain_decimal(&word[1..])?;
    register_by_letter(word[0], number)
}

/// The number of the register that a word names.
#[tactic(auto, unfolding(crate::specs::Numbers::register_of))]
pub fn register_of(word: &[u8]) -> Option<u32>
    ensures { result ≡ register_of word.now }
{
    if word == b"zero".as_slice() {
        return Some(0);
    }
    if word == b"ra".as_slice() {
        return Some(1);
    }
    if word == b"sp".as_slice() {
        return Some(2);
    }
    if word == b"gp".as_slice() {
        return Some(3);
    }
    if word == b"tp".as_slice() {
        return Some(4);
    }
    if word == b"fp".as_slice() {
        return Some(8);
    }
    counted_register(word)
}
