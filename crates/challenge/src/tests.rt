ghost use Rattle.std.specs.Prelude.{◌+◌, ◌≤◌, length};

use super::*;
use std::alloc::Global;
use std::process::Abort;
use std::test::Fail;

// Dec-Lock, lead 100, hold 0, counter 7, a nonce that counts up from 0; the MAC under `key` is from another
// implementation, as are all here. One byte more follows.
const DEC_AND_ONE: &[u8] =
    b"\x54\x4d\x43\x31\x03\x00\x00\x00\x00\x00\x00\x64\x00\x00\x00\x00\x00\x00\x00\x00\x00\x00\x00\x07\x00\x01\x02\x03\x04\x05\x06\x07\x08\x09\x0a\x0b\x0c\x0d\x0e\x0f\xf9\xd5\x65\x78\x88\x22\x20\xd2\xe3\x6f\xd6\x3b\xcb\x3b\x79\xac\xc4\x81\x95\x32\xa4\x17\xeb\x33\x56\xf6\x2c\xde\xa4\xf1\xbc\x02\x00";

// Inc-Lock-Ext with the greatest numbers.
const GREATEST: &[u8] =
    b"\x54\x4d\x43\x31\x05\x00\x00\x00\x00\x00\x10\x00\x00\x00\x10\x00\xff\xff\xff\xff\xff\xff\xff\xff\xff\xff\xff\xff\xff\xff\xff\xff\xff\xff\xff\xff\xff\xff\xff\xff\x6a\x79\x14\xd2\xec\x8d\x7e\xec\xe8\x1b\x1c\x24\x79\x6c\xe4\x76\x2f\x5a\x29\xc4\x29\x5b\x70\x70\x92\xf6\x49\x1a\xa9\x8a\x71\xb5";

// All-Lock with zeros, under a key of one zero byte.
const LEAST: &[u8] =
    b"\x54\x4d\x43\x31\x01\x00\x00\x00\x00\x00\x00\x00\x00\x00\x00\x00\x00\x00\x00\x00\x00\x00\x00\x00\x00\x00\x00\x00\x00\x00\x00\x00\x00\x00\x00\x00\x00\x00\x00\x00\xb9\xf7\x76\x84\xf6\xa6\x25\xe3\xbb\xff\x96\x4b\x14\x14\x08\x0b\x51\xfd\xe0\x27\x10\x18\x1c\x02\x00\xe4\xd9\xe3\x75\xcd\x68\x0a";

fn expect_validity(rt: &impl Abort, discipline: Discipline, lead: u32, hold: u32, valid: bool) {
    let challenge = Challenge {
        discipline,
        lead,
        hold,
        counter: u64::MAX,
        nonce: [255; 16],
    };
    assert_eq!(rt; challenge.is_valid(), valid);
}

#[test]
fn counts_of_ticks_have_limits(rt: HostRuntime) {
    for discipline in [Discipline::All, Discipline::Dec, Discipline::Inc] {
        expect_validity(&rt, discipline, 0, 0, true);
        expect_validity(&rt, discipline, 4096, 0, true);
        expect_validity(&rt, discipline, 4097, 0, false);
        expect_validity(&rt, discipline, 0, 1, false);
    }
    for discipline in [Discipline::AllExt, Discipline::IncExt] {
        expect_validity(&rt, discipline, 4096, 4096, true);
        expect_validity(&rt, discipline, 0, 0, true);
        expect_validity(&rt, discipline, 4097, 0, false);
        expect_validity(&rt, discipline, 0, 4097, false);
    }
}

// What reading the first `len` bytes answers, with `put` at a place: None is a challenge.
fn answer(
    alloc: Global,
    len: usize,
    place: usize,
    put: &[u8],
) -> Result<Option<ChallengeFault>, Fail> {
    let mut file = Vec::from_slice(alloc, DEC_AND_ONE)?;
    file.truncate(len);
    for (old, byte) in file.iter_mut().skip(place).zip(put) {
        *old = *byte;
    }
    Ok(read(&file, b"key").err())
}

// Bounds of the grammar at their edges.
#[test]
fn what_is_no_challenge(rt: HostRuntime) -> Result<(), Fail> {
    let malformed = Some(ChallengeFault::Malformed);
    let bad_mac = Some(ChallengeFault::BadMac);
    let table: [(usize, usize, &[u8], Option<ChallengeFault>); 13] = [
        (72, 0, b"", None),
        (71, 0, b"", malformed),
        (73, 0, b"", malformed),
        (72, 3, b"\x32", malformed),
        (72, 4, b"\x06", malformed),
        (72, 4, b"\x05", bad_mac),
        (72, 7, b"\x80", malformed),
        (72, 8, b"\x00\x00\x10\x00", bad_mac),
        (72, 8, b"\x00\x00\x10\x01", malformed),
        (72, 12, b"\x00\x00\x00\x01", malformed),
        (72, 16, b"\x00\x00\x00\x00\x00\x00\x00\x08", bad_mac),
        (72, 39, b"\x1f", bad_mac),
        (72, 71, b"\x82", bad_mac),
    ];
    for (len, place, put, expected) in table {
        assert_eq!(rt; answer(rt.alloc(), len, place, put)?, expected);
    }
    Ok(())
}

// It is read as this challenge and written as these bytes.
fn expect_file(rt: &impl Abort, bytes: &[u8], key: &[u8], challenge: &Challenge) {
    assert!(rt; matches!(read(bytes, key), Ok(found) if found == *challenge));
    assert!(rt; read(bytes, b"other") == Err(ChallengeFault::BadMac));
    if challenge.is_valid() {
        assert_eq!(rt; write(challenge, key).as_slice(), bytes);
    }
}

#[test]
fn files_of_challenges(rt: HostRuntime) {
    let counted = [0, 1, 2, 3, 4, 5, 6, 7, 8, 9, 10, 11, 12, 13, 14, 15];
    let dec = Challenge {
        discipline: Discipline::Dec,
        lead: 100,
        hold: 0,
        counter: 7,
        nonce: counted,
    };
    expect_file(&rt, &DEC_AND_ONE[..72], b"key", &dec);
    let greatest = Challenge {
        discipline: Discipline::IncExt,
        lead: 4096,
        hold: 4096,
        counter: u64::MAX,
        nonce: [255; 16],
    };
    expect_file(&rt, GREATEST, b"key", &greatest);
    let least = Challenge {
        discipline: Discipline::All,
        lead: 0,
        hold: 0,
        counter: 0,
        nonce: [0; 16],
    };
    expect_file(&rt, LEAST, b"\0", &least);
}

fn with_counter(counter: u64) -> Challenge {
    Challenge {
        discipline: Discipline::Inc,
        lead: 0,
        hold: 0,
        counter,
        nonce: [0; 16],
    }
}

#[test]
fn only_a_greater_counter_is_admitted(rt: HostRuntime) {
    let table: [(u64, u64, bool); 8] = [
        (5, 5, false),
        (5, 6, true),
        (5, 4, false),
        (5, u64::MAX, true),
        (0, 0, false),
        (0, 1, true),
        (u64::MAX, u64::MAX, false),
        (u64::MAX, 0, false),
    ];
    for (last, counter, admitted) in table {
        let expected = if admitted {
            Ok(counter)
        } else {
            Err(Stale { last })
        };
        assert!(rt; admit(last, &with_counter(counter)) == expected);
    }
}

#[test]
fn faults_are_shown(rt: HostRuntime) -> Result<(), Fail> {
    let malformed = ChallengeFault::Malformed;
    let bad_mac = ChallengeFault::BadMac;
    let stale = Stale { last: 7 };
    let shown = format!(in rt.alloc(); "{malformed}, {bad_mac}, {stale}")?;
    assert_eq!(rt; shown.as_str(), "malformed, badmac, stale 7");
    Ok(())
}
