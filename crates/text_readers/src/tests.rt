use super::*;
use std::process::Abort;

// The width's largest number is 18446744073709551615; 20 digits are the most.
#[test]
fn decimals_fit_their_width(rt: HostRuntime) {
    let rows: [(&[u8], Option<u64>); 13] = [
        (b"", None),
        (b"0", Some(0)),
        (b"7", Some(7)),
        (b"007", Some(7)),
        (b"00000000000000000000", Some(0)),
        (b"000000000000000000000", None),
        (b"18446744073709551615", Some(18_446_744_073_709_551_615)),
        (b"18446744073709551616", None),
        (b"99999999999999999999", None),
        (b"1f", None),
        (b"+1", None),
        (b"-1", None),
        (b" 1", None),
    ];
    for (digits, want) in rows {
        assert_eq!(rt; decimal(digits), want);
    }
}

// No zero stands in front of a plain number; zero itself is one digit.
#[test]
fn plain_decimals_have_no_zero_in_front(rt: HostRuntime) {
    assert_eq!(rt; plain_decimal(b"0"), Some(0));
    assert_eq!(rt; plain_decimal(b"10"), Some(10));
    assert_eq!(rt; plain_decimal(b"007"), None);
    assert_eq!(rt; plain_decimal(b"00"), None);
    assert_eq!(rt; plain_decimal(b""), None);
}

#[test]
fn digits_are_lower_case(rt: HostRuntime) {
    assert!(rt; word_digits(0xdead_beef) == *b"deadbeef");
    assert!(rt; word_digits(0x0120_0003) == *b"01200003");
    assert!(rt; byte_digits(0x0a) == *b"0a");
}

#[test]
fn hexadecimals_have_their_count_of_digits(rt: HostRuntime) {
    let rows: [(usize, &[u8], Option<u32>); 12] = [
        (0, b"", Some(0)),
        (0, b"0", None),
        (8, b"", None),
        (2, b"fF", Some(255)),
        (2, b"0a", Some(10)),
        (2, b"a", None),
        (2, b"00a", None),
        (2, b"0g", None),
        (4, b"0x1f", None),
        (8, b"00000000", Some(0)),
        (8, b"DEADbeef", Some(0xdead_beef)),
        (8, b"ffffffff", Some(0xffff_ffff)),
    ];
    for (count, digits, want) in rows {
        assert!(rt; count <= 8);
        assert_eq!(rt; hex_number(count, digits), want);
    }
}

// Lines are read until none is left.
fn expect_lines(rt: &impl Abort, text: &[u8], want: &[&[u8]]) {
    let mut rest = text;
    for line in want {
        let Some((first, more)) = next_line(rest) else {
            assert!(rt; false, "a line is missing");
            return;
        };
        assert!(rt; first == *line);
        rest = more;
    }
    assert!(rt; next_line(rest).is_none());
}

// The last line may have its end or not; an empty line counts.
#[test]
fn lines_end_with_their_byte(rt: HostRuntime) {
    expect_lines(&rt, b"", &[]);
    expect_lines(&rt, b"\n", &[b""]);
    expect_lines(&rt, b"one", &[b"one"]);
    expect_lines(&rt, b"one\n", &[b"one"]);
    expect_lines(&rt, b"one\ntwo", &[b"one", b"two"]);
    expect_lines(&rt, b"\none\n\n", &[b"", b"one", b""]);
    expect_lines(&rt, b"one\r\n", &[b"one\r"]);
}

fn expect_words(rt: &impl Abort, line: &[u8], want: &[&[u8]]) {
    let same = match words_in(line) {
        Words::One(a) => want == [a].as_slice(),
        Words::Two(a, b) => want == [a, b].as_slice(),
        Words::Three(a, b, c) => want == [a, b, c].as_slice(),
        Words::Four(a, b, c, d) => want == [a, b, c, d].as_slice(),
        Words::Five(a, b, c, d, e) => want == [a, b, c, d, e].as_slice(),
        Words::More => want.is_empty(),
    };
    assert!(rt; same);
}

// One space stands between two words; nothing between two spaces is an empty word. No words wanted
// stands for more than five.
#[test]
fn words_have_one_space_between(rt: HostRuntime) {
    expect_words(&rt, b"", &[b""]);
    expect_words(&rt, b"end", &[b"end"]);
    expect_words(&rt, b" ", &[b"", b""]);
    expect_words(&rt, b"end ", &[b"end", b""]);
    expect_words(&rt, b"a\tb c", &[b"a\tb", b"c"]);
    expect_words(&rt, b"a  c", &[b"a", b"", b"c"]);
    expect_words(&rt, b"a b c d", &[b"a", b"b", b"c", b"d"]);
    expect_words(&rt, b"a b c d e", &[b"a", b"b", b"c", b"d", b"e"]);
    expect_words(&rt, b"a b c d e f", &[]);
    expect_words(&rt, b"a b c d e ", &[]);
}
