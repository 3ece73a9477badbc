//! Reports and notes made by another implementation under the key `key`, and bytes that are none.

use super::*;
use lock_plan::{Range, Ranges};
use std::alloc::Global;
use std::process::Abort;
use std::test::Fail;

// The nonce counts up from 0, and memory begins at 0x80000000 and is zeros, in blocks of 16 bytes.
// All-Lock, counter 7, blocks 0 to 3, places 1 and 6.
const ONE: &str =
    "544d5231010000000000000000000007000102030405060708090a0b0c0d0e0f800000000000001000000000000000040000000000000001000000000000000601f92e63122daaa5ace2ac8ec1073612262c1c4783e5e050ded70df31e70d1ec";

// Dec-Lock, counter 1, blocks 1, 2 and 5, places 1 and 5.
const TWO: &str =
    "544d5232030000000000000000000001000102030405060708090a0b0c0d0e0f8000000000000010000000020000000100000002000000050000000100000000000000010000000000000005fe4e39823f710934d142ef8969ed02993785dad6383d7f0acd1eed89b62c2bb9";

// Inc-Lock-Ext, the greatest counter, the eight blocks 0, 2 .. 14, places 2 and 11.
const EIGHT: &str =
    "544d523205000000ffffffffffffffff000102030405060708090a0b0c0d0e0f800000000000001000000008000000000000000100000002000000010000000400000001000000060000000100000008000000010000000a000000010000000c000000010000000e000000010000000000000002000000000000000b05483c46ac3bd0ccc461d3b77b5eaa519c4b9c0b87ebe17ab963de9b60d0a9a7";

// The note on an All-Lock-Ext pass with counter 11 and places 1, 6 and 9.
const NOTE: &str =
    "544d4e3100000000000000000000000b0000000000000001000000000000000600000000000000094875fcbde67b4b670f04f3daa0dcf79806c090eb6347248ff53992b9e8547196";

// The bytes of these digits, with other digits put from a place on.
fn changed(alloc: Global, digits: &str, place: usize, put: &str) -> Result<Vec<u8>, Fail> {
    let mut bytes = hex::decode(alloc, digits.as_bytes()).map_err(|_| "no digits")?;
    let others = hex::decode(alloc, put.as_bytes()).map_err(|_| "no digits")?;
    for (byte, other) in bytes.iter_mut().skip(place).zip(&others) {
        *byte = *other;
    }
    Ok(bytes)
}

// These digits are a report's, and it is written as they are.
fn expect_report(rt: &impl Abort, alloc: Global, digits: &str) -> Result<(), Fail> {
    let bytes = changed(alloc, digits, 0, "")?;
    match read_report(&bytes) {
        Some(report) if report.is_valid() => {
            assert_eq!(rt; write_report(&report).as_slice(), bytes.as_slice());
        }
        _ => panic!(rt; "no report"),
    }
    Ok(())
}

#[test]
fn reports_of_both_versions(rt: HostRuntime) -> Result<(), Fail> {
    expect_report(&rt, rt.alloc(), ONE)?;
    expect_report(&rt, rt.alloc(), TWO)?;
    expect_report(&rt, rt.alloc(), EIGHT)
}

#[test]
fn fields_of_a_report(rt: HostRuntime) -> Result<(), Fail> {
    let first = Range {
        first: 1,
        attested: 2,
    };
    let second = Range {
        first: 5,
        attested: 1,
    };
    let Some(ranges) = Ranges::new(&[first, second]) else {
        panic!(rt; "no ranges")
    };
    let mut tag = [0u8; 32];
    hex::decode_to_slice(TWO[152..].as_bytes(), &mut tag).map_err(|_| "no digits")?;
    let report = Report {
        discipline: Discipline::Dec,
        counter: 1,
        nonce: [0, 1, 2, 3, 4, 5, 6, 7, 8, 9, 10, 11, 12, 13, 14, 15],
        shape: Shape {
            base: 0x8000_0000,
            size: 16,
            ranges,
        },
        start: 1,
        end: 5,
        tag,
    };
    let bytes = changed(rt.alloc(), TWO, 0, "")?;
    assert!(rt; read_report(&bytes) == Some(report));
    Ok(())
}

// Whether the report is still one with these digits put at this place.
fn expect_change(
    rt: &impl Abort,
    alloc: Global,
    digits: &str,
    place: usize,
    put: &str,
    is: bool,
) -> Result<(), Fail> {
    let bytes = changed(alloc, digits, place, put)?;
    assert_eq!(rt; read_report(&bytes).is_some(), is, "{place} {put}");
    Ok(())
}

#[test]
fn bounds_of_version_1(rt: HostRuntime) -> Result<(), Fail> {
    for (place, put, is) in [
        (3usize, "32", false),
        (4, "06", false),
        (4, "05", true),
        (7, "01", false),
        (32, "fffffff0", false),
        (36, "00000018", false),
        (44, "00000000", false),
        (44, "00000005", false),
        (48, "fffffffffffffffbffffffffffffffff", false),
        (48, "fffffffffffffffaffffffffffffffff", true),
    ] {
        expect_change(&rt, rt.alloc(), ONE, place, put, is)?;
    }
    Ok(())
}

// Ranges that touch, none, too many, in the other order; one range is written as version 1 alone.
#[test]
fn bounds_of_version_2(rt: HostRuntime) -> Result<(), Fail> {
    for (place, put, is) in [
        (3usize, "31", false),
        (40, "00000001", false),
        (40, "00000003", false),
        (48, "00000001", true),
        (48, "00000004", false),
        (52, "00000001", false),
        (56, "00000000", false),
        (75, "04", false),
    ] {
        expect_change(&rt, rt.alloc(), TWO, place, put, is)?;
    }
    let one_range =
        "544d5232030000000000000000000001000102030405060708090a0b0c0d0e0f8000000000000010000000010000000100000002000000000000000100000000000000050000000000000000000000000000000000000000000000000000000000000000";
    expect_change(&rt, rt.alloc(), one_range, 0, "", false)?;
    expect_change(&rt, rt.alloc(), &EIGHT[..310], 0, "", false)?;
    expect_change(&rt, rt.alloc(), &ONE[2..], 0, "54", false)
}

#[test]
fn notes(rt: HostRuntime) -> Result<(), Fail> {
    let bytes = changed(rt.alloc(), NOTE, 0, "")?;
    let note = read_note(&bytes).ok_or("no note")?;
    assert_eq!(rt;
        (note.counter, note.start, note.end, note.release),
        (11, 1, 6, 9)
    );
    if note.is_valid() {
        assert_eq!(rt; write_note(&note).as_slice(), bytes.as_slice());
    }
    for (place, put) in [(0usize, "53"), (7, "01"), (23, "06"), (31, "09")] {
        let bytes = changed(rt.alloc(), NOTE, place, put)?;
        assert!(rt; read_note(&bytes).is_none(), "{place} {put}");
    }
    Ok(())
}
