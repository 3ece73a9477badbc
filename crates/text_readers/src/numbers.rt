//! Numbers in texts.

ghost use Rattle.std.specs.Prelude.{◌≡◌, ◌+◌, ◌*◌, ◌^◌, ◌<◌, ◌≤◌, SomeIff, IfSome};
ghost use Rattle.std.specs.Char.{digit_value};
ghost use Rattle.text_readers.specs.Numbers.{digits_number, decimal_of, has_leading_zero, plain_decimal, hex_of};

// The number with one digit more at its end.
fn with_digit(base: u32, value: u64, c: u8) -> Option<u64>
    requires low { 2 ≤ base }
    requires high { base ≤ 16 }
    ensures { SomeIff result ((digit_value c < base) × (value * base + digit_value c < 2 ^ 64)) (value * base + digit_value c) }
{
    let digit = char::from(c).to_digit(base)?;
    let shifted = value.checked_mul(u64::from(base))?;
    shifted.checked_add(u64::from(digit))
}

// The number below 2 ^ 64 that these digits are, in a base of at most 16.
fn number(base: u32, digits: &[u8]) -> Option<u64>
    requires low { 2 ≤ base }
    requires high { base ≤ 16 }
    ensures { result ≡ digits_number base digits.now }
{
    let mut value = 0u64;
    for c in digits {
        let Some(more) = with_digit(base, value, *c) else {
            return None;
        };
        value = more;
    }
    Some(value)
}

/// The decimal number below `2^64` that these digits are: 1 to 20 of them, which may begin with zeros.
pub fn decimal(digits: &[u8]) -> Option<u64>
    ensures { result ≡ decimal_of digits.now }
{
    if digits.is_empty() || digits.len() > 20 {
        return None;
    }
    number(10, digits)
}

/// Whether the first digit is a zero that another one follows.
pub fn has_leading_zero(digits: &[u8]) -> bool
    ensures { result ≡ has_leading_zero digits.now }
{
    digits.len() > 1 && digits[0] == b'0'
}

/// The decimal number below `2^64` that these digits are: 1 to 20 of them, with no zero in front. Zero is `0`.
#[tactic(auto, unfolding(crate::specs::Numbers::plain_decimal))]
pub fn plain_decimal(digits: &[u8]) -> Option<u64>
    ensures { result ≡ plain_decimal digits.now }
{
    if has_leading_zero(digits) {
        return None;
    }
    decimal(digits)
}

/// The hexadecimal number that these digits are: `count` of them, at most 8, of either case.
pub fn hex_number(count: usize, digits: &[u8]) -> Option<u32>
    requires { count ≤ 8 }
    ensures value { result ≡ hex_of count digits.now }
    ensures below { IfSome result (λ number. number < 16 ^ count) }
{
    if digits.len() != count {
        return None;
    }
    let value = number(16, digits)?;
    Some(value as u32)
}
