//! Listings whose words come from the RISC-V manual's formats, and whose lines from the listing's form.

use super::*;
use elf32::{read, write};
use rv_asm::assemble;
use std::alloc::Global;
use std::process::Abort;
use std::test::Fail;

// The ELF header up to the number of program headers, which begin at 52.
const HEADER: &[u8] =
    b"\x7f\x45\x4c\x46\x01\x01\x01\x00\x00\x00\x00\x00\x00\x00\x00\x00\x02\x00\xf3\x00\x01\x00\x00\x00\x00\x00\x00\x80\x34\x00\x00\x00\x00\x00\x00\x00\x00\x00\x00\x00\x34\x00\x20\x00";

// A segment of a file: its header's type, its address, its size in memory and the file's bytes.
type Part<'a> = (u32, u32, u32, &'a [u8]);

// Type PT_LOAD, and one that isn't loaded.
const LOAD: u32 = 1;

const PHDR: u32 = 6;

fn put_words(file: &mut Vec<u8>, words: &[u32]) -> Result<(), Fail> {
    for word in words {
        file.extend_from_slice(&word.to_le_bytes())?;
    }
    Ok(())
}

// The ELF file of these segments.
fn file_of(alloc: Global, parts: &[Part<'_>]) -> Result<Vec<u8>, Fail> {
    let mut file = Vec::from_slice(alloc, HEADER)?;
    let count = (parts.len() % 64) as u8;
    file.extend_from_slice(&[count, 0, 0, 0, 0, 0, 0, 0])?;
    let mut offset = 52 + 32 * u32::from(count);
    for (kind, addr, size, bytes) in parts {
        let len = (bytes.len() % 0x1000) as u32;
        put_words(&mut file, &[*kind, offset, *addr, *addr, len, *size, 7, 1])?;
        offset = offset.wrapping_add(len);
    }
    for (_, _, _, bytes) in parts {
        file.extend_from_slice(bytes)?;
    }
    Ok(file)
}

// The number of the segments that such a file loads, and its listing.
fn listing_of(alloc: Global, parts: &[Part<'_>]) -> Result<(u32, Vec<u8>), Fail> {
    let file = file_of(alloc, parts)?;
    let count = read(&file)?.count();
    let mut listing = Listing::new(file)?;
    let mut text = Vec::new(alloc);
    let mut piece = [0u8; 100];
    for _ in 0..100 {
        let told = listing.next(&mut piece);
        text.extend_from_slice(&piece[..told])?;
    }
    Ok((count, text))
}

// The bytes that a listing tells, and how often it is asked for so many of them.
fn told(rt: &impl Abort, listing: &mut Listing, piece: &mut [u8], want: &[u8]) -> usize {
    let mut rest = want;
    let mut calls = 0usize;
    for _ in 0..want.len() {
        let count = listing.next(piece);
        if count == 0 {
            break;
        }
        assert!(rt; count <= rest.len());
        assert!(rt; piece[..count] == rest[..count]);
        rest = &rest[count..];
        calls = calls.wrapping_add(1);
    }
    assert!(rt; rest.is_empty());
    assert!(rt; listing.next(piece) == 0);
    calls
}

// However few bytes are asked for at once, the pieces are the listing.
#[test]
fn pieces_are_the_listing(rt: HostRuntime) -> Result<(), Fail> {
    let code = b"\x93\x00\x50\x00\x37\x01\x00\x80\xaa".as_slice();
    let want =
        b"80000000 00500093 addi x1, x0, 5\n80000004 80000137 lui x2, 0x80000\n80000008 aa .byte 0xaa\n".as_slice();
    let parts = [(LOAD, 0x8000_0000, 16, code)];
    let mut one = Listing::new(file_of(rt.alloc(), &parts)?)?;
    assert!(rt; told(&rt, &mut one, &mut [0u8; 1], want) == want.len());
    let mut seven = Listing::new(file_of(rt.alloc(), &parts)?)?;
    told(&rt, &mut seven, &mut [0u8; 7], want);
    let mut all = Listing::new(file_of(rt.alloc(), &parts)?)?;
    assert!(rt; told(&rt, &mut all, &mut [0u8; 200], want) == 1);
    assert!(rt; Listing::new(Vec::new(rt.alloc())).is_err());
    Ok(())
}

// 64 segments and 1 MiB, assembled, written, read back and listed: each word is one line of 35 bytes.
#[test]
fn the_largest_executable(rt: HostRuntime) -> Result<(), Fail> {
    let mut text = Vec::new(rt.alloc());
    text.extend_from_slice(b".entry a\n".as_slice())?;
    for k in 0..64u32 {
        let line = format!(in rt.alloc(); ".segment {}\n.space 16384\n", k * 16384)?;
        text.extend_from_slice(line.as_str().as_bytes())?;
    }
    text.extend_from_slice(b"a:\n".as_slice())?;
    let Ok(program) = assemble(rt.alloc(), &text) else {
        return Err("the text is refused".into());
    };
    let file = write(rt.alloc(), &program)?;
    assert!(rt; read(&file)?.count() == 64);
    let mut listing = Listing::new(file)?;
    let mut piece = [0u8; 4096];
    let mut length = 0usize;
    for _ in 0..10_000 {
        length = length.wrapping_add(listing.next(&mut piece));
    }
    assert!(rt; length == 262_144 * 35);
    Ok(())
}

#[test]
fn four_words(rt: HostRuntime) -> Result<(), Fail> {
    let code = b"\x93\x00\x50\x00\x37\x01\x00\x80\x23\x20\x11\x00\x73\x00\x00\x00".as_slice();
    let (count, text) = listing_of(rt.alloc(), &[(LOAD, 0x8000_0000, 16, code)])?;
    let want =
        b"80000000 00500093 addi x1, x0, 5\n80000004 80000137 lui x2, 0x80000\n80000008 00112023 sw x1, 0(x2)\n8000000c 00000073 ecall\n".as_slice();
    assert_eq!(rt; count, 1);
    assert_eq!(rt; text.as_slice(), want);
    Ok(())
}

#[test]
fn words_and_single_bytes(rt: HostRuntime) -> Result<(), Fail> {
    let table: [(u32, &[u8], &[u8]); 7] = [
        // from an odd address, and one byte too many
        (
            0x8000_0001,
            b"\xaa\xbb\xcc\x13\x00\x00\x00\xff",
            b"80000001 aa .byte 0xaa\n80000002 bb .byte 0xbb\n80000003 cc .byte 0xcc\n80000004 00000013 addi x0, x0, 0\n80000008 ff .byte 0xff\n",
        ),
        // three bytes too few for the last word
        (
            0x1000,
            b"\x73\x00\x10\x00\x01\x02\x03",
            b"00001000 00100073 ebreak\n00001004 01 .byte 0x01\n00001005 02 .byte 0x02\n00001006 03 .byte 0x03\n",
        ),
        // four bytes that are no word
        (
            0x1002,
            b"\x13\x00\x00\x00",
            b"00001002 13 .byte 0x13\n00001003 00 .byte 0x00\n00001004 00 .byte 0x00\n00001005 00 .byte 0x00\n",
        ),
        // the last addresses
        (
            0xffff_fffb,
            b"\x0a\x73\x00\x00\x00",
            b"fffffffb 0a .byte 0x0a\nfffffffc 00000073 ecall\n",
        ),
        // no instruction of RV32IM: all zeros, all ones, fence.i, and mul x1, x2, x3 with another funct7
        (
            0,
            b"\x00\x00\x00\x00\xff\xff\xff\xff\x0f\x10\x00\x00\xb3\x00\x31\x04",
            b"00000000 00000000 .word 0x00000000\n00000004 ffffffff .word 0xffffffff\n00000008 0000100f .word 0x0000100f\n0000000c 043100b3 .word 0x043100b3\n",
        ),
        // the full fence, and that of reads and writes
        (
            0xabcd_ef00,
            b"\x0f\x00\xf0\x0f\x0f\x00\x30\x03",
            b"abcdef00 0ff0000f fence\nabcdef04 0330000f .word 0x0330000f\n",
        ),
        // numbers below zero, and one instruction of most formats
        (
            0x100,
            b"\xef\xf0\xdf\xff\x63\x04\x05\x00\x67\x80\x00\x00\x83\x42\xf3\xff\x93\x51\xf2\x41\xb3\x00\x31\x40\x97\xff\xff\xff\x23\x00\xf1\x80",
            b"00000100 ffdff0ef jal x1, -4\n00000104 00050463 beq x10, x0, 8\n00000108 00008067 jalr x0, 0(x1)\n0000010c fff34283 lbu x5, -1(x6)\n00000110 41f25193 srai x3, x4, 31\n00000114 403100b3 sub x1, x2, x3\n00000118 ffffff97 auipc x31, 0xfffff\n0000011c 80f10023 sb x15, -2048(x2)\n",
        ),
    ];
    for (addr, bytes, want) in table {
        let size = (bytes.len() % 0x1000) as u32;
        let (_, text) = listing_of(rt.alloc(), &[(LOAD, addr, size, bytes)])?;
        assert_eq!(rt; text.as_slice(), want, "at {addr}");
    }
    Ok(())
}

#[test]
fn segments_in_their_order(rt: HostRuntime) -> Result<(), Fail> {
    // Each segment has its own words: the last byte of the first one and the first three of the third are none. The
    // second has no byte in the file, the fourth isn't loaded, and the fifth takes more memory than it has bytes.
    let parts: [Part<'_>; 5] = [
        (LOAD, 0x2000, 5, b"\x73\x00\x00\x00\x93".as_slice()),
        (LOAD, 0x9000, 16, b"".as_slice()),
        (LOAD, 0x1001, 7, b"\x00\x50\x00\x73\x00\x10\x00".as_slice()),
        (PHDR, 0x5000, 4, b"\x73\x00\x00\x00".as_slice()),
        (LOAD, 0x3000, 64, b"\x73\x00\x00\x00\x01\x02".as_slice()),
    ];
    let want =
        b"00002000 00000073 ecall\n00002004 93 .byte 0x93\n00001001 00 .byte 0x00\n00001002 50 .byte 0x50\n00001003 00 .byte 0x00\n00001004 00100073 ebreak\n00003000 00000073 ecall\n00003004 01 .byte 0x01\n00003005 02 .byte 0x02\n".as_slice();
    let (count, text) = listing_of(rt.alloc(), &parts)?;
    assert_eq!(rt; count, 4);
    assert_eq!(rt; text.as_slice(), want);
    Ok(())
}

#[test]
fn nothing_is_listed(rt: HostRuntime) -> Result<(), Fail> {
    let (count, text) = listing_of(
        rt.alloc(),
        &[(PHDR, 0x5000, 4, b"\x73\x00\x00\x00".as_slice())],
    )?;
    assert_eq!(rt; count, 0);
    assert!(rt; text.is_empty());

    let (count, text) = listing_of(rt.alloc(), &[(LOAD, 0x5000, 4, b"".as_slice())])?;
    assert_eq!(rt; count, 1);
    assert!(rt; text.is_empty());
    Ok(())
}
