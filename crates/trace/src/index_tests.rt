//! Memory at places on both sides of a checkpoint, and reports that are confirmed and refused. The tags are those of
//! another implementation under the key `key`.

use crate::tests::{by, copy, example, start, store};
use crate::{Confirmed, Index, confirmed_is_exact};
use chronicle::{Act, Chronicle, Discipline, Entry, Geometry, Range, Ranges, Width, World};
use std::alloc::Global;
use std::process::Abort;
use std::test::Fail;

// Seven blocks of 16 bytes a5 from 80000000 on; blocks 1, 2 and 5 are attested.
fn two_ranges(alloc: Global) -> Result<World, Fail> {
    let geometry = Geometry::new(0x8000_0000, 16, 7).ok_or("no geometry")?;
    let list = [
        Range {
            first: 1,
            attested: 2,
        },
        Range {
            first: 5,
            attested: 1,
        },
    ];
    let ranges = Ranges::new(&list).ok_or("no ranges")?;
    let image = vec![in alloc; 0xa5u8; 112]?;
    Ok(World::new(geometry, ranges, image, 4_000_000).ok_or("no world")?)
}

// A pass of All-Lock and one of Inc-Lock, with stores into a block of the gap and into the last attested one.
fn two_passes(alloc: Global) -> Result<Chronicle, Fail> {
    let mut entries = Vec::new(alloc);
    for (actor, act) in [
        (0, start(Discipline::All, 3)),
        (0, copy(1)),
        (1, store(0x8000_0040, Width::Byte, 0x11)),
        (0, copy(2)),
        (0, copy(5)),
        (0, Act::End),
        (1, store(0x8000_0054, Width::Word, 0x1234_5678)),
        (0, start(Discipline::Inc, 4)),
        (2, store(0x8000_0051, Width::Byte, 0xee)),
        (0, copy(1)),
        (0, copy(2)),
        (0, copy(5)),
        (0, Act::End),
        (1, store(0x8000_0050, Width::Half, 0)),
    ] {
        entries.push(by(actor, act))?;
    }
    Ok(Chronicle::new(two_ranges(alloc)?, entries))
}

// What the report with these hexadecimal digits is told.
fn told(
    rt: &(impl Abort + Alloc<A = Global>),
    kept: &Chronicle,
    digits: &[u8],
) -> Result<Confirmed, Fail> {
    let report = hex::decode(rt.alloc(), digits)?;
    let index = Index::new(rt.alloc(), kept)?;
    let size = kept.world().geometry().byte_count() as usize;
    let mut buffer = vec![in rt.alloc(); 0u8; size]?;
    Ok(index.confirm(b"key", &report, &mut buffer))
}

// The report of an Inc-Lock pass, and reports that differ from it: a byte less, a reserved byte, one block less, another
// counter, Start, End and discipline, memory as it was at Start, another tag.
#[test]
fn reports_are_confirmed_and_refused(rt: HostRuntime) -> Result<(), Fail> {
    let kept = example(rt.alloc())?;
    for (digits, want) in [
        (
            b"544d5231040000000000000000000001000102030405060708090a0b0c0d0e0f8000000000000010000000000000000400000000000000010000000000000009166fe70fd9c4416332abe2143742ec7a2b3842804c53ae4d9a51462bc2270b9d".as_slice(),
            Confirmed::Yes,
        ),
        (
            b"544d5231040000000000000000000001000102030405060708090a0b0c0d0e0f8000000000000010000000000000000400000000000000010000000000000009166fe70fd9c4416332abe2143742ec7a2b3842804c53ae4d9a51462bc2270b",
            Confirmed::Malformed,
        ),
        (
            b"544d5231040000010000000000000001000102030405060708090a0b0c0d0e0f8000000000000010000000000000000400000000000000010000000000000009166fe70fd9c4416332abe2143742ec7a2b3842804c53ae4d9a51462bc2270b9d",
            Confirmed::Malformed,
        ),
        (
            b"544d5231040000000000000000000001000102030405060708090a0b0c0d0e0f80000000000000100000000000000003000000000000000100000000000000093d58b74bfad96ba937e94a02749cb759f0cfd21d29d12f434a170e3c703f1395",
            Confirmed::WrongShape,
        ),
        (
            b"544d5231040000000000000000000002000102030405060708090a0b0c0d0e0f80000000000000100000000000000004000000000000000100000000000000099254a95d0b9cd74fbcfae0b846d83ef16a3006a813c650ab08e1d6420507e896",
            Confirmed::NoPass,
        ),
        (
            b"544d5231040000000000000000000001000102030405060708090a0b0c0d0e0f80000000000000100000000000000004000000000000000200000000000000091fb99d2e7011251545d6e2906b1e746e6424d46341e04ae521de070fe2808f59",
            Confirmed::NoPass,
        ),
        (
            b"544d5231040000000000000000000001000102030405060708090a0b0c0d0e0f800000000000001000000000000000040000000000000001000000000000000878a2717b104d7cb5964e3fe8d4311d1ee1026df34d549d1f12b5b9092e87237f",
            Confirmed::NoPass,
        ),
        (
            b"544d5231050000000000000000000001000102030405060708090a0b0c0d0e0f800000000000001000000000000000040000000000000001000000000000000980ad12e50533683398c9e002ba9408c2495e6a2d00371d5a8dbb7e8e0a73eb96",
            Confirmed::NoPass,
        ),
        (
            b"544d5231040000000000000000000001000102030405060708090a0b0c0d0e0f8000000000000010000000000000000400000000000000010000000000000009f8669ec73012f0b63b8122b008566e077d6ba72386bd4c1cc22774646a41404c",
            Confirmed::WrongTag,
        ),
        (
            b"544d5231040000000000000000000001000102030405060708090a0b0c0d0e0f8000000000000010000000000000000400000000000000010000000000000009166fe70fd9c4416332abe2143742ec7a2b3842804c53ae4d9a51462bc2270b9c",
            Confirmed::WrongTag,
        ),
    ] {
        let found = told(&rt, &kept, digits)?;
        assert!(rt; found == want);
    }
    Ok(())
}

// Reports of two ranges on two passes, and one with the fields of the one pass and the places of the other.
#[test]
fn reports_of_two_ranges_are_confirmed(rt: HostRuntime) -> Result<(), Fail> {
    confirmed_is_exact();
    let kept = two_passes(rt.alloc())?;
    assert!(rt; crate::check(rt.alloc(), &kept) == Ok(()));
    for (digits, want) in [
        (
            b"544d5232010000000000000000000003000102030405060708090a0b0c0d0e0f8000000000000010000000020000000100000002000000050000000100000000000000010000000000000006eedfa14f0d28e925053a944c0e8371364d3e8fd9f480e034056da29c33bf97ab".as_slice(),
            Confirmed::Yes,
        ),
        (
            b"544d5232040000000000000000000004000102030405060708090a0b0c0d0e0f800000000000001000000002000000010000000200000005000000010000000000000008000000000000000d1585345380794a9bf1e7c4a00fd7430a0fadee0dbf22fba2cf405566de25c41f",
            Confirmed::Yes,
        ),
        (
            b"544d5232040000000000000000000004000102030405060708090a0b0c0d0e0f800000000000001000000002000000010000000200000005000000010000000000000001000000000000000d553ab9166c48e8a93805a804116d76187894c79f4ce86a4af729641a2eaa49ee",
            Confirmed::NoPass,
        ),
        (
            b"544d5232010000000000000000000003000102030405060708090a0b0c0d0e0f800000000000001000000002000000010000000200000005000000010000000000000008000000000000000dbdd29f25f1398f253058cbb4215ade373e383d9d52ffcfe6b5c644d5e2386d6c",
            Confirmed::NoPass,
        ),
    ] {
        let found = told(&rt, &kept, digits)?;
        assert!(rt; found == want);
    }
    Ok(())
}

// The value at a place, where the place and the access are there.
fn value(index: &Index, place: u64, addr: u32, width: Width) -> Result<u32, Fail> {
    let kept = index.chronicle();
    if place > kept.length() || !kept.world().geometry().fits(addr, width) {
        return Err("no such place".into());
    }
    Ok(index.value_at(place, addr, width))
}

// Byte by byte, the value at a place is what memory there has.
fn expect_bytes(
    rt: &(impl Abort + Alloc<A = Global>),
    index: &Index,
    place: u64,
) -> Result<(), Fail> {
    let kept = index.chronicle();
    if place > kept.length() {
        return Err("no such place".into());
    }
    let size = kept.world().geometry().byte_count() as usize;
    let mut memory = vec![in rt.alloc(); 0u8; size]?;
    index.memory_at(place, &mut memory);
    for k in [0u32, 1, 2, 3, 48, 108, 109, 110, 111] {
        let byte = *memory.get(k as usize).ok_or("no byte")?;
        let found = value(index, place, 0x8000_0000 + k, Width::Byte)?;
        assert_eq!(rt; found, u32::from(byte), "at {place}");
    }
    Ok(())
}

// Stores on both sides of the second checkpoint, the last two of which lie in memory only in part.
fn stores_at_a_checkpoint(alloc: Global) -> Result<Chronicle, Fail> {
    let mut entries = Vec::with_capacity(alloc, 65_540)?;
    for _ in 0..65_534 {
        entries.push(by(0, Act::Tick))?;
    }
    for (addr, width, value) in [
        (0x8000_0000, Width::Word, 0x0403_0201),
        (0x8000_0001, Width::Byte, 0x22),
        (0x8000_0002, Width::Half, 0x4433),
        (0x8000_006e, Width::Word, 0xbbaa_9988),
        (0x7fff_fffe, Width::Word, 0xddcc_bbaa),
    ] {
        entries.push(by(1, store(addr, width, value)))?;
    }
    Ok(Chronicle::new(two_ranges(alloc)?, entries))
}

#[test]
fn memory_is_told_at_any_place(rt: HostRuntime) -> Result<(), Fail> {
    let kept = stores_at_a_checkpoint(rt.alloc())?;
    let index = Index::new(rt.alloc(), &kept)?;
    for (place, first, last) in [
        (0, 0xa5a5_a5a5, 0xa5a5_a5a5),
        (65_534, 0xa5a5_a5a5, 0xa5a5_a5a5),
        (65_535, 0x0403_0201, 0xa5a5_a5a5),
        (65_536, 0x0403_2201, 0xa5a5_a5a5),
        (65_537, 0x4433_2201, 0xa5a5_a5a5),
        (65_538, 0x4433_2201, 0x9988_a5a5),
        (65_539, 0x4433_ddcc, 0x9988_a5a5),
    ] {
        let found = value(&index, place, 0x8000_0000, Width::Word)?;
        assert_eq!(rt; found, first, "at {place}");
        let found = value(&index, place, 0x8000_006c, Width::Word)?;
        assert_eq!(rt; found, last, "at {place}");
        expect_bytes(&rt, &index, place)?;
    }
    let half = value(&index, 65_539, 0x8000_006e, Width::Half)?;
    assert_eq!(rt; half, 0x9988);
    Ok(())
}
