//! Files whose bytes another program made, and the broken ones.

ghost use Rattle.std.specs.Prelude.{◌+◌, ◌≤◌, length};

use super::*;
use executable::{Program, Segment};
use std::alloc::Global;
use std::test::Fail;

// A header, a segment of 8 bytes that takes 16 at 0x80000000, the stack marker that usual linkers write, and the
// 8 bytes.
const MARKED: &[u8] =
    b"\x7f\x45\x4c\x46\x01\x01\x01\x00\x00\x00\x00\x00\x00\x00\x00\x00\x02\x00\xf3\x00\x01\x00\x00\x00\x00\x00\x00\x80\x34\x00\x00\x00\x00\x00\x00\x00\x00\x00\x00\x00\x34\x00\x20\x00\x02\x00\x00\x00\x00\x00\x00\x00\x01\x00\x00\x00\x74\x00\x00\x00\x00\x00\x00\x80\x00\x00\x00\x80\x08\x00\x00\x00\x10\x00\x00\x00\x07\x00\x00\x00\x01\x00\x00\x00\x51\xe5\x74\x64\x00\x00\x00\x00\x00\x00\x00\x00\x00\x00\x00\x00\x00\x00\x00\x00\x00\x00\x00\x00\x06\x00\x00\x00\x10\x00\x00\x00\x01\x02\x03\x04\x05\x06\x07\x08";

// The words 12346537, fff50513 and 00000073 at 0x80000000.
const THREE_WORDS: &[u8] =
    b"\x7f\x45\x4c\x46\x01\x01\x01\x00\x00\x00\x00\x00\x00\x00\x00\x00\x02\x00\xf3\x00\x01\x00\x00\x00\x00\x00\x00\x80\x34\x00\x00\x00\x00\x00\x00\x00\x00\x00\x00\x00\x34\x00\x20\x00\x01\x00\x00\x00\x00\x00\x00\x00\x01\x00\x00\x00\x54\x00\x00\x00\x00\x00\x00\x80\x00\x00\x00\x80\x0c\x00\x00\x00\x0c\x00\x00\x00\x07\x00\x00\x00\x01\x00\x00\x00\x37\x65\x34\x12\x13\x05\xf5\xff\x73\x00\x00\x00";

// The bytes `abc` at 0x80000000, no bytes at 0x90000000, the byte `z` at 0xffffffff; entry 0x80000004.
const THREE_SEGMENTS: &[u8] =
    b"\x7f\x45\x4c\x46\x01\x01\x01\x00\x00\x00\x00\x00\x00\x00\x00\x00\x02\x00\xf3\x00\x01\x00\x00\x00\x04\x00\x00\x80\x34\x00\x00\x00\x00\x00\x00\x00\x00\x00\x00\x00\x34\x00\x20\x00\x03\x00\x00\x00\x00\x00\x00\x00\x01\x00\x00\x00\x94\x00\x00\x00\x00\x00\x00\x80\x00\x00\x00\x80\x03\x00\x00\x00\x03\x00\x00\x00\x07\x00\x00\x00\x01\x00\x00\x00\x01\x00\x00\x00\x97\x00\x00\x00\x00\x00\x00\x90\x00\x00\x00\x90\x00\x00\x00\x00\x00\x00\x00\x00\x07\x00\x00\x00\x01\x00\x00\x00\x01\x00\x00\x00\x97\x00\x00\x00\xff\xff\xff\xff\xff\xff\xff\xff\x01\x00\x00\x00\x01\x00\x00\x00\x07\x00\x00\x00\x01\x00\x00\x00\x61\x62\x63\x7a";

#[test]
fn a_file_with_a_stack_marker(rt: HostRuntime) -> Result<(), Fail> {
    let elf = read(MARKED)?;
    assert_eq!(rt; elf.entry(), 0x8000_0000);
    assert_eq!(rt; elf.count(), 1);
    let part = elf.segment(0);
    assert_eq!(rt; part.addr, 0x8000_0000);
    assert_eq!(rt; part.size, 16);
    assert_eq!(rt; part.bytes, b"\x01\x02\x03\x04\x05\x06\x07\x08".as_slice());
    Ok(())
}

// The fault's number of the first `len` bytes of the marked file with `put` at a place; 0 where there is none.
fn number_of(alloc: Global, len: usize, place: usize, put: &[u8]) -> Result<u32, Fail> {
    let mut file = Vec::from_slice(alloc, MARKED)?;
    file.truncate(len);
    for (k, byte) in put.iter().enumerate() {
        if let Some(old) = file.get_mut(place.saturating_add(k)) {
            *old = *byte;
        }
    }
    match read(&file) {
        Ok(_) => Ok(0),
        Err(fault) => Ok(fault.number()),
    }
}

#[test]
fn each_fault_and_the_first_of_two(rt: HostRuntime) -> Result<(), Fail> {
    let table: [(usize, usize, &[u8], u32); 24] = [
        (124, 0, b"", 0),
        (123, 0, b"", 9),
        (51, 0, b"", 1),
        (51, 0, b"\x7e", 1),
        (0, 0, b"", 1),
        (124, 0, b"\x7e", 2),
        (124, 3, b"\x47\x02", 2),
        (124, 4, b"\x02", 3),
        (124, 5, b"\x02", 3),
        (124, 6, b"\x00", 3),
        (124, 16, b"\x03", 4),
        (124, 20, b"\x02", 4),
        (124, 18, b"\x3e\x00", 5),
        (124, 36, b"\x01", 6),
        (124, 36, b"\xfe\xff\xff\xff", 0),
        (124, 42, b"\x21", 7),
        (124, 44, b"\x00", 7),
        (124, 44, b"\x41", 7),
        (124, 28, b"\xf0\xff\xff\xff", 7),
        (115, 0, b"", 7),
        (124, 84, b"\x03\x00\x00\x00", 8),
        (123, 84, b"\x02\x00\x00\x00", 8),
        (124, 68, b"\x09\x00\x00\x00\x08", 9),
        (124, 60, b"\xf8\xff\xff\xff", 9),
    ];
    for (len, place, put, number) in table {
        let found = number_of(rt.alloc(), len, place, put)?;
        assert_eq!(rt; found, number, "of {len} bytes with {put:?} at {place}");
    }
    Ok(())
}

#[test]
fn headers_that_name_no_byte(rt: HostRuntime) -> Result<(), Fail> {
    // No byte of the segment is in the file, which may then begin anywhere.
    let mut file = Vec::from_slice(rt.alloc(), MARKED)?;
    assert_eq!(rt; file.len(), 124);
    file[57] = 1;
    file[68] = 0;
    let elf = read(&file)?;
    assert_eq!(rt; elf.count(), 1);
    assert_eq!(rt; elf.segment(0).size, 16);
    assert!(rt; elf.segment(0).bytes.is_empty());

    // No header is to be loaded.
    file[52] = 6;
    let elf = read(&file)?;
    assert_eq!(rt; elf.count(), 0);
    assert_eq!(rt; elf.entry(), 0x8000_0000);
    Ok(())
}

#[test]
fn three_words_are_written(rt: HostRuntime) -> Result<(), Fail> {
    let code = Vec::from_slice(rt.alloc(), &THREE_WORDS[84..96])?;
    let mut program = Program::new(rt.alloc(), 0x8000_0000);
    program.push(Segment::new(0x8000_0000, code))?;
    let file = write(rt.alloc(), &program)?;
    assert_eq!(rt; file.as_slice(), THREE_WORDS);
    Ok(())
}

#[test]
fn three_segments_are_written_and_read(rt: HostRuntime) -> Result<(), Fail> {
    let first = Vec::from_slice(rt.alloc(), b"abc")?;
    let last = Vec::from_slice(rt.alloc(), b"z")?;
    let mut program = Program::new(rt.alloc(), 0x8000_0004);
    program.push(Segment::new(0x8000_0000, first))?;
    program.push(Segment::new(0x9000_0000, Vec::new(rt.alloc())))?;
    program.push(Segment::new(0xffff_ffff, last))?;
    let file = write(rt.alloc(), &program)?;
    assert_eq!(rt; file.as_slice(), THREE_SEGMENTS);

    let elf = read(&file)?;
    assert_eq!(rt; elf.entry(), 0x8000_0004);
    assert_eq!(rt; elf.count(), 2);
    assert_eq!(rt; elf.segment(0).bytes, b"abc".as_slice());
    assert_eq!(rt; elf.segment(1).addr, 0xffff_ffff);
    assert_eq!(rt; elf.segment(1).bytes, b"z".as_slice());
    Ok(())
}
