//! Applications that fit beside one another, and those that don't.

ghost use Rattle.std.specs.Prelude.{◌≡◌, ◌+◌, ◌^◌, ◌≤◌, length, IfOk, IsOk};
ghost use Rattle.elf32.specs.Files.{elf_of};

use super::*;
use block_memory::Geometry;
use elf32::{read, write};
use executable::{Program, Segment};
use std::alloc::Global;
use std::test::Fail;

// A header, a segment of 8 bytes that takes 16 at 0x80000000, the stack marker that usual linkers write, and the
// 8 bytes.
const MARKED: &[u8] =
    b"\x7f\x45\x4c\x46\x01\x01\x01\x00\x00\x00\x00\x00\x00\x00\x00\x00\x02\x00\xf3\x00\x01\x00\x00\x00\x00\x00\x00\x80\x34\x00\x00\x00\x00\x00\x00\x00\x00\x00\x00\x00\x34\x00\x20\x00\x02\x00\x00\x00\x00\x00\x00\x00\x01\x00\x00\x00\x74\x00\x00\x00\x00\x00\x00\x80\x00\x00\x00\x80\x08\x00\x00\x00\x10\x00\x00\x00\x07\x00\x00\x00\x01\x00\x00\x00\x51\xe5\x74\x64\x00\x00\x00\x00\x00\x00\x00\x00\x00\x00\x00\x00\x00\x00\x00\x00\x00\x00\x00\x00\x06\x00\x00\x00\x10\x00\x00\x00\x01\x02\x03\x04\x05\x06\x07\x08";

const SIXTEEN: &[u8] = b"0123456789abcdef";

// Four blocks of 16 bytes at 0x80000000.
fn memory() -> Result<Geometry, Fail> {
    match Geometry::new(0x8000_0000, 16, 4) {
        Some(geometry) => Ok(geometry),
        None => Err("no geometry".into()),
    }
}

#[test]
fn zeros_up_to_the_size(rt: HostRuntime) -> Result<(), Fail> {
    let Ok(_) = read(MARKED) else {
        return Err("a fault".into());
    };
    let files = [AppFile::new(Vec::from_slice(rt.alloc(), MARKED)?)];
    let placed = place(rt.alloc(), &memory()?, &files)?;
    assert_eq!(rt; placed.image.len(), 64);
    let (front, rest) = placed.image.as_slice().split_at(8);
    assert_eq!(rt; front, b"\x01\x02\x03\x04\x05\x06\x07\x08".as_slice());
    assert!(rt; rest.iter().all(|byte| *byte == 0));
    assert_eq!(rt; placed.entries.as_slice(), [0x8000_0000].as_slice());
    Ok(())
}

#[test]
fn no_application(rt: HostRuntime) -> Result<(), Fail> {
    let placed = place(rt.alloc(), &memory()?, &[])?;
    assert_eq!(rt; placed.image.len(), 64);
    assert!(rt; placed.image.as_slice().iter().all(|byte| *byte == 0));
    assert!(rt; placed.entries.is_empty());
    Ok(())
}

// The file of an application with the sixteen bytes at an address.
fn application(alloc: Global, addr: u32, entry: u32) -> Result<AppFile, Fail>
    ensures { IfOk result (λ file. IsOk (elf_of file)) }
{
    let mut program = Program::new(alloc, entry);
    let bytes = Vec::from_slice(alloc, SIXTEEN)?;
    program.push(Segment::new(addr.min(0xffff_0000), bytes))?;
    let file = write(alloc, &program)?;
    Ok(AppFile::new(file))
}

#[test]
fn two_that_touch(rt: HostRuntime) -> Result<(), Fail> {
    let first = application(rt.alloc(), 0x8000_0000, 0x8000_0000)?;
    let second = application(rt.alloc(), 0x8000_0010, 0x8000_003c)?;
    let files = [first, second];
    let placed = place(rt.alloc(), &memory()?, &files)?;
    assert_eq!(rt; placed.image.len(), 64);
    let (front, rest) = placed.image.as_slice().split_at(32);
    assert_eq!(rt; front, b"0123456789abcdef0123456789abcdef".as_slice());
    assert!(rt; rest.iter().all(|byte| *byte == 0));
    assert_eq!(rt;
        placed.entries.as_slice(),
        [0x8000_0000, 0x8000_003c].as_slice()
    );
    Ok(())
}

#[test]
fn eight_files_fill_memory(rt: HostRuntime) -> Result<(), Fail> {
    let alloc = rt.alloc();
    let Some(memory) = Geometry::new(0x8000_0000, 16, 8) else {
        return Err("no geometry".into());
    };
    let files = [
        application(alloc, 0x8000_0070, 0x8000_0000)?,
        application(alloc, 0x8000_0000, 0x8000_0010)?,
        application(alloc, 0x8000_0060, 0x8000_0020)?,
        application(alloc, 0x8000_0010, 0x8000_0030)?,
        application(alloc, 0x8000_0050, 0x8000_0040)?,
        application(alloc, 0x8000_0020, 0x8000_0050)?,
        application(alloc, 0x8000_0040, 0x8000_0060)?,
        application(alloc, 0x8000_0030, 0x8000_007c)?,
    ];
    let placed = place(alloc, &memory, &files)?;
    assert_eq!(rt;
        placed.image.as_slice(),
        b"0123456789abcdef0123456789abcdef0123456789abcdef0123456789abcdef0123456789abcdef0123456789abcdef0123456789abcdef0123456789abcdef".as_slice()
    );
    assert_eq!(rt;
        placed.entries.as_slice(),
        [
            0x8000_0000,
            0x8000_0010,
            0x8000_0020,
            0x8000_0030,
            0x8000_0040,
            0x8000_0050,
            0x8000_0060,
            0x8000_007c,
        ]
        .as_slice()
    );
    Ok(())
}

// Why two applications, each by its address and its entry, can't be placed.
fn fault_of(
    alloc: Global,
    first: (u32, u32),
    second: (u32, u32),
) -> Result<Option<PlaceFault>, Fail> {
    let one = application(alloc, first.0, first.1)?;
    let other = application(alloc, second.0, second.1)?;
    let files = [one, other];
    match place(alloc, &memory()?, &files) {
        Ok(_) => Ok(None),
        Err(fault) => Ok(Some(fault)),
    }
}

#[test]
fn the_first_test_that_fails(rt: HostRuntime) -> Result<(), Fail> {
    let (base, end) = (0x8000_0000, 0x8000_0040);
    let overlap = PlaceFault::Overlap {
        app: 2,
        segment: 0,
        with_app: 1,
        with_segment: 0,
    };
    let table: [((u32, u32), (u32, u32), Option<PlaceFault>); 8] = [
        ((base, base), (base + 16, base + 16), None),
        ((base, base), (base + 15, base + 16), Some(overlap)),
        ((base + 16, base), (base + 1, base), Some(overlap)),
        (
            (base, base),
            (end - 15, base),
            Some(PlaceFault::OutsideMemory { app: 2, segment: 0 }),
        ),
        (
            (base - 1, end),
            (base - 1, base),
            Some(PlaceFault::OutsideMemory { app: 1, segment: 0 }),
        ),
        (
            (base, base + 2),
            (base, base),
            Some(PlaceFault::EntryOutside { app: 1 }),
        ),
        (
            (base, end),
            (base, base),
            Some(PlaceFault::EntryOutside { app: 1 }),
        ),
        (
            (base, base),
            (base + 48, end),
            Some(PlaceFault::EntryOutside { app: 2 }),
        ),
    ];
    for (first, second, fault) in table {
        let found = fault_of(rt.alloc(), first, second)?;
        assert_eq!(rt; found, fault, "at {first:?} and {second:?}");
    }
    Ok(())
}
