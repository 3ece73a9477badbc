use super::*;
use chronicle::{Discipline, Geometry, Range, Ranges, Width};
use std::alloc::Global;
use std::process::Abort;
use std::test::Fail;
use text_readers::{cut_at, plain_decimal};

// Four blocks of 16 bytes from 80000000 on, all of them attested, with the same program in two of them.
fn small_world(alloc: Global, cap: u64) -> Result<World, Fail> {
    let Some(geometry) = Geometry::new(0x8000_0000, 16, 4) else {
        return Err("no geometry".into());
    };
    let list = [Range {
        first: 0,
        attested: 4,
    }];
    let Some(ranges) = Ranges::new(&list) else {
        return Err("no ranges".into());
    };
    let mut image = Vec::with_capacity(alloc, 64)?;
    for _ in 0..2 {
        image.extend_from_slice(
            b"\x23\x20\x21\x00\x93\x08\xd0\x05\x73\x00\x00\x00\x00\x00\x00\x00",
        )?;
    }
    image.extend_from_slice(&[0u8; 32])?;
    let Some(world) = World::new(geometry, ranges, image, cap) else {
        return Err("no world".into());
    };
    Ok(world)
}

pub fn by(actor: u32, act: Act) -> Entry {
    Entry { actor, act }
}

fn fetch(addr: u32, value: u32) -> Act {
    Act::Fetch { addr, value }
}

fn load(addr: u32, width: Width, value: u32) -> Act {
    Act::Load { addr, width, value }
}

pub fn store(addr: u32, width: Width, value: u32) -> Act {
    Act::Store { addr, width, value }
}

pub fn start(discipline: Discipline, counter: u64) -> Act {
    Act::Start {
        discipline,
        counter,
    }
}

pub fn copy(block: u32) -> Act {
    Act::Copy { block }
}

// All parts of the text, joined.
fn joined(rt: &(impl Abort + Alloc<A = Global>), kept: &Chronicle) -> Result<Vec<u8>, Fail> {
    let mut text = Vec::new(rt.alloc());
    assert!(rt; are_printable(kept.entries()));
    for k in 0..parts(kept) {
        text.extend_from_slice(&part(rt.alloc(), kept, k)?)?;
    }
    Ok(text)
}

// Two programs that store a word each and end, and an Inc-Lock pass between their steps.
pub fn example(alloc: Global) -> Result<Chronicle, Fail> {
    let mut entries = Vec::new(alloc);
    entries.push(by(0, start(Discipline::Inc, 1)))?;
    entries.push(by(2, fetch(0x8000_0010, 0x0021_2023)))?;
    entries.push(by(2, store(0x8000_0034, Width::Word, 0x8000_0034)))?;
    for block in 0..4 {
        entries.push(by(0, copy(block)))?;
    }
    entries.push(by(1, fetch(0x8000_0000, 0x0021_2023)))?;
    entries.push(by(0, Act::End))?;
    entries.push(by(1, store(0x8000_0030, Width::Word, 0x8000_0030)))?;
    entries.push(by(2, fetch(0x8000_0014, 0x05d0_0893)))?;
    entries.push(by(1, fetch(0x8000_0004, 0x05d0_0893)))?;
    entries.push(by(2, fetch(0x8000_0018, 0x0000_0073)))?;
    entries.push(by(1, fetch(0x8000_0008, 0x0000_0073)))?;
    Ok(Chronicle::new(small_world(alloc, 100)?, entries))
}

const EXAMPLE: &[u8] =
    b"TMT1\nmemory 80000000 16 4\nattest 0 4\ncap 100\n232021009308d0057300000000000000232021009308d0057300000000000000\n0000000000000000000000000000000000000000000000000000000000000000\n0 start 4 1\n2 f 80000010 00212023\n2 s4 80000034 80000034\n0 copy 0\n0 copy 1\n0 copy 2\n0 copy 3\n1 f 80000000 00212023\n0 end\n1 s4 80000030 80000030\n2 f 80000014 05d00893\n1 f 80000004 05d00893\n2 f 80000018 00000073\n1 f 80000008 00000073\nend 14\n";

#[test]
fn the_example_has_its_text(rt: HostRuntime) -> Result<(), Fail> {
    let kept = example(rt.alloc())?;
    assert_eq!(rt; parts(&kept), 3);
    assert!(rt; joined(&rt, &kept)?.as_slice() == EXAMPLE);
    assert!(rt; check(rt.alloc(), &kept) == Ok(()));
    parts_are_the_text();
    legal_entries_are_printable();
    Ok(())
}

// Each kind of entry has its line, legal or not.
#[test]
fn each_kind_has_its_line(rt: HostRuntime) -> Result<(), Fail> {
    let mut entries = Vec::new(rt.alloc());
    for (actor, act) in [
        (8, load(0x0a0b_0c0d, Width::Byte, 0x0e)),
        (7, load(0, Width::Half, 0xf0)),
        (6, load(0xffff_ffff, Width::Word, 0xffff_ffff)),
        (5, store(1, Width::Byte, 0xff)),
        (4, store(2, Width::Half, 0xabcd)),
        (3, start(Discipline::All, u64::MAX)),
        (2, start(Discipline::IncExt, 0)),
        (1, copy(4095)),
        (0, Act::Tick),
        (9, Act::Release),
    ] {
        entries.push(by(actor % 9, act))?;
    }
    let kept = Chronicle::new(small_world(rt.alloc(), 4_000_000)?, entries);
    let text = joined(&rt, &kept)?;
    let want =
        b"cap 4000000\n232021009308d0057300000000000000232021009308d0057300000000000000\n0000000000000000000000000000000000000000000000000000000000000000\n8 l1 0a0b0c0d 0e\n7 l2 00000000 00f0\n6 l4 ffffffff ffffffff\n5 s1 00000001 ff\n4 s2 00000002 abcd\n3 start 1 18446744073709551615\n2 start 5 0\n1 copy 4095\n0 tick\n0 release\nend 10\n".as_slice();
    assert!(rt; text.len() > 37);
    assert!(rt; &text[37..] == want);
    Ok(())
}

// Entries come in parts of 1,024 lines; a part of several ranges and a short last line of the image.
#[test]
fn parts_are_cut_at_1024_entries(rt: HostRuntime) -> Result<(), Fail> {
    let mut entries = Vec::new(rt.alloc());
    for _ in 0..1025 {
        entries.push(by(0, Act::Tick))?;
    }
    let geometry = Geometry::new(0x1000, 16, 7).ok_or("no geometry")?;
    let list = [
        Range {
            first: 1,
            attested: 2,
        },
        Range {
            first: 5,
            attested: 1,
        },
    ];
    let ranges = Ranges::new(&list).ok_or("no ranges")?;
    let image = vec![in rt.alloc(); 0xa5u8; 112]?;
    let world = World::new(geometry, ranges, image, 1).ok_or("no world")?;
    let kept = Chronicle::new(world, entries);
    assert_eq!(rt; parts(&kept), 4);
    let text = joined(&rt, &kept)?;
    let head = b"TMT2\nmemory 00001000 16 7\nattest 1 2 5 1\ncap 1\na5".as_slice();
    assert!(rt; text.starts_with(head));
    assert!(rt; text.ends_with(b"\n0 tick\n0 tick\nend 1025\n"));
    assert_eq!(rt; text.len(), 47 + 3 * 65 + 33 + 1025 * 7 + 9);
    Ok(())
}

fn expect_broken(
    rt: &(impl Abort + Alloc<A = Global>),
    before: &[Entry],
    entry: Entry,
    rule: u32,
) -> Result<(), Fail> {
    let mut entries = Vec::from_slice(rt.alloc(), before)?;
    entries.push(entry)?;
    entries.push(by(9, Act::Tick))?;
    let place = entries.len() as u64 - 1;
    let kept = Chronicle::new(small_world(rt.alloc(), 3)?, entries);
    let found = check(rt.alloc(), &kept);
    assert!(rt; found == Err(CheckFault::Broken { place, rule }));
    Ok(())
}

// The first entry that breaks a rule, and the least of its rules.
#[test]
fn each_rule_breaks(rt: HostRuntime) -> Result<(), Fail> {
    let pass = [by(0, start(Discipline::All, 1))];
    let stored = [by(1, store(0x8000_0030, Width::Word, 0x0102_0304))];
    let full = [by(0, Act::Tick), by(0, Act::Tick), by(0, Act::Tick)];
    for (before, entry, rule) in [
        ([].as_slice(), by(0, fetch(0x8000_0002, 0)), 1),
        (&[], by(1, Act::Tick), 1),
        (&[], by(9, fetch(0x8000_0000, 0x0021_2023)), 1),
        (&[], by(1, fetch(0x8000_0002, 0)), 2),
        (&[], by(1, store(0x8000_0040, Width::Byte, 0)), 2),
        (&[], by(1, fetch(0x8000_0000, 0x0021_2024)), 3),
        (&stored, by(2, load(0x8000_0030, Width::Word, 0)), 3),
        (&stored, by(2, load(0x8000_0032, Width::Half, 0x0304)), 3),
        (&pass, by(1, store(0x8000_0000, Width::Byte, 0)), 4),
        (&pass, by(1, store(0x8000_0001, Width::Half, 0)), 2),
        (&[], by(0, copy(0)), 5),
        (&pass, by(0, copy(1)), 5),
        (&pass, by(0, Act::End), 5),
        (&full, by(0, Act::Tick), 6),
        (&full, by(0, Act::Release), 5),
    ] {
        expect_broken(&rt, before, entry, rule)?;
    }
    Ok(())
}

fn expect_entry(rt: &impl Abort, text: &[u8], want: Option<Entry>) {
    match first_entry(text) {
        None => assert!(rt; want.is_none()),
        Some((entry, rest)) => {
            assert!(rt; want == Some(entry));
            assert!(rt; rest == b"0".as_slice());
        }
    }
}

// An entry is read with the end of its line; one digit of another case, one word more or less, and it isn't.
#[test]
fn entries_are_read(rt: HostRuntime) -> Result<(), Fail> {
    for (text, want) in [
        (
            b"1 f 800000af 00212023\n0".as_slice(),
            Some(by(1, fetch(0x8000_00af, 0x0021_2023))),
        ),
        (
            b"8 l1 0a0b0c0d 0e\n0",
            Some(by(8, load(0x0a0b_0c0d, Width::Byte, 0x0e))),
        ),
        (
            b"2 s2 00000002 abcd\n0",
            Some(by(2, store(2, Width::Half, 0xabcd))),
        ),
        (
            b"0 start 4 18446744073709551615\n0",
            Some(by(0, start(Discipline::Inc, u64::MAX))),
        ),
        (b"0 copy 4095\n0", Some(by(0, copy(4095)))),
        (b"0 release\n0", Some(by(0, Act::Release))),
        (b"9 tick\n0", None),
        (b"1 f 800000aF 00212023\n0", None),
        (b"1 f 800000af 0021202\n0", None),
        (b"1 l1 00000000 000e\n0", None),
        (b"1 l3 00000000 0000\n0", None),
        (b"0 start 6 1\n0", None),
        (b"0 start 4 01\n0", None),
        (b"0 copy 4096\n0", None),
        (b"0 tick \n0", None),
        (b"0 tick", None),
        (b"", None),
    ] {
        expect_entry(&rt, text, want);
    }
    one_trace();
    entries_are_read_again();
    Ok(())
}

// A text of a trace is that of what is read of it.
fn expect_read(rt: &(impl Abort + Alloc<A = Global>), text: &[u8]) -> Result<(), Fail> {
    match read(rt.alloc(), text) {
        Ok(kept) => assert!(rt; joined(rt, &kept)?.as_slice() == text),
        Err(fault) => assert!(rt; false, "{fault:?}"),
    }
    Ok(())
}

#[test]
fn traces_are_read(rt: HostRuntime) -> Result<(), Fail> {
    one_line_leaves();
    expect_read(&rt, EXAMPLE)?;
    expect_read(
        &rt,
        b"TMT2\nmemory ffffffd0 16 3\nattest 0 1 2 1\ncap 4000000\n5a5a5a5a5a5a5a5a5a5a5a5a5a5a5a5a5a5a5a5a5a5a5a5a5a5a5a5a5a5a5a5a\n0f0f0f0f0f0f0f0f0f0f0f0f0f0f0f0f\n0 tick\n8 end\nend 2\n".as_slice(),
    )
}

// The line at which a text is refused; 0 stands for a trace.
fn line_of(rt: &impl Alloc<A = Global>, text: &[u8]) -> u64 {
    match read(rt.alloc(), text) {
        Ok(_) => 0,
        Err(TraceFault::Line(line)) => line,
        Err(TraceFault::Memory) => 99_999,
    }
}

// Rows of a line and a text, cut at bars: the text has the row's text behind this front, and is refused at that line; line 0
// stands for a trace.
fn expect_lines(
    rt: &(impl Abort + Alloc<A = Global>),
    front: &[u8],
    rows: &[u8],
) -> Result<(), Fail> {
    let mut rows = rows;
    for _ in 0..64 {
        let Some((row, more)) = cut_at(b'|', rows) else {
            return Ok(());
        };
        let (line, behind) = cut_at(b' ', row).ok_or("no line")?;
        let line = plain_decimal(line).ok_or("no number")?;
        let mut text = Vec::from_slice(rt.alloc(), front)?;
        text.extend_from_slice(behind)?;
        assert_eq!(rt; line_of(rt, &text), line);
        rows = more;
    }
    Ok(())
}

#[test]
fn first_lines_are_refused(rt: HostRuntime) -> Result<(), Fail> {
    expect_lines(
        &rt,
        b"".as_slice(),
        b"1 |1 TMT1|1 TMT3\n|1 tmt1\n|1 TMT1 \n|1 TMT1\r\n|1 \nTMT1\n|2 TMT1\n|2 TMT2\n|".as_slice(),
    )
}

#[test]
fn lines_of_memory_are_refused(rt: HostRuntime) -> Result<(), Fail> {
    expect_lines(
        &rt,
        b"TMT1\nmemory ".as_slice(),
        b"2 80000000 16 4|2 8000000 16 4\n|2 8000000A 16 4\n|2 80000000 24 4\n|2 80000000 8 4\n|2 80000000 131072 4\n|2 80000000 16 0\n|2 80000000 16 4097\n|2 80000000 512 4096\n|2 80000008 16 4\n|2 fffffff0 16 2\n|2 80000000 016 4\n|2 80000000 16 4 \n|2 80000000  16 4\n|3 fffffff0 16 1\n|3 80000000 256 4096\n|3 80000000 65536 16\n|".as_slice(),
    )?;
    expect_lines(
        &rt,
        b"TMT2\n".as_slice(),
        b"2 memory 80000000 16 2\n|3 memory 80000000 16 3\n|".as_slice(),
    )
}

#[test]
fn lines_of_ranges_are_refused(rt: HostRuntime) -> Result<(), Fail> {
    expect_lines(
        &rt,
        b"TMT1\nmemory 80000000 16 17\nattest ".as_slice(),
        b"3 0 4|3 17 1\n|3 0 18\n|3 0 0\n|3 0\n|3 0 1 2 1\n|3 00 4\n|3 0 4 \n|3  0 4\n|3 4294967296 1\n|3 0 4097\n|4 0 17\n|4 16 1\n|".as_slice(),
    )?;
    expect_lines(
        &rt,
        b"TMT2\nmemory 80000000 16 17\nattest ".as_slice(),
        b"3 0 4\n|3 0 1 1 1\n|3 2 1 0 1\n|3 0 1 2\n|3 0 1 2 16\n|3 0 1 2 1 4 1 6 1 8 1 10 1 12 1 14 1 16 1\n|4 0 1 2 1 4 1 6 1 8 1 10 1 12 1 14 3\n|4 0 1 2 15\n|".as_slice(),
    )
}

#[test]
fn lines_of_caps_are_refused(rt: HostRuntime) -> Result<(), Fail> {
    expect_lines(
        &rt,
        b"TMT1\nmemory 80000000 16 4\nattest 0 4\n".as_slice(),
        b"4 |4 cap 100|4 cap 0\n|4 cap 4000001\n|4 cap 01\n|4 cap \n|4 cap -1\n|4 cap 18446744073709551617\n|5 cap 4000000\n|5 cap 1\n|".as_slice(),
    )
}

#[test]
fn lines_of_images_are_refused(rt: HostRuntime) -> Result<(), Fail> {
    expect_lines(
        &rt,
        b"TMT1\nmemory 80000000 16 3\nattest 0 3\ncap 1\n00000000000000000000000000000000000000000000000000000000000000".as_slice(),
        b"5 |5 0\n|5 000\n|5 0A\n|5 0g\n|5 00|6 00\n|6 00\n000000000000000000000000000000|6 00\n0000000000000000000000000000000\n|6 00\n0000000000000000000000000000000F\n|6 00\n0000000000000000000000000000000000\n|7 00\n0000000000000000000000000000000f\n|0 0f\n0000000000000000000000000000000f\nend 0\n|".as_slice(),
    )
}

#[test]
fn lines_of_entries_are_refused(rt: HostRuntime) -> Result<(), Fail> {
    expect_lines(
        &rt,
        b"TMT1\nmemory 80000000 16 4\nattest 0 4\ncap 1\n0000000000000000000000000000000000000000000000000000000000000000\n0000000000000000000000000000000000000000000000000000000000000000\n".as_slice(),
        b"7 |7 0 tick|7 9 tick\n|8 0 tick\n9 tick\n|7 end 0|7 end 1\n|7 end 00\n|7 end\n|7 end 0 \n|8 end 0\n\n|8 end 0\nend 0\n|8 end 0\n |9 0 tick\n0 tick\n|9 0 tick\n0 tick\nend 1\n|9 0 tick\n0 tick\nend 3\n|10 0 tick\n0 tick\nend 2\n0|0 8 end\nend 1\n|0 0 tick\n0 tick\nend 2\n|".as_slice(),
    )
}
