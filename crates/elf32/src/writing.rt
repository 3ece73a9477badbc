//! Writing an ELF file.

ghost use Rattle.std.specs.Prelude.{◌≡◌, ◌+◌, ◌^◌, ◌<◌, ◌≤◌, ◌++◌, length, OnOk, IfOk, Ok};
ghost use Rattle.std.specs.List.{flat_map};
ghost use Rattle.elf32.specs.Fields.{half, word};
ghost use Rattle.elf32.specs.Files.{elf_of};
ghost use Rattle.elf32.specs.Written.{elf_header, segment_header, segment_headers, contents, elf_bytes, loaded};
ghost use Rattle.executable.specs.Writable.{total_size, IsWritable};

use crate::headers::{HEADER_BYTES, LOAD, PROGRAM_HEADER_BYTES, RISCV};
use byteorder::{ByteOrder, LittleEndian};
use executable::{Program, Segment};
use std::alloc::{AllocError, Global};

/// The first 16 bytes of a file, e_ident: the magic bytes, 32 bits, little-endian, version 1.
const IDENTITY: &[u8] = &[0x7f, 0x45, 0x4c, 0x46, 1, 1, 1, 0, 0, 0, 0, 0, 0, 0, 0, 0];

/// Appends numbers of two bytes.
#[tactic(auto, unfolding(crate::specs::Fields::half))]
fn put_half(out: &mut Vec<u8>, value: u16) -> Result<(), AllocError>
    ensures { OnOk result (out.new.items ≡ out.old.items ++ half value) }
{
    let mut bytes = [0; 2];
    LittleEndian::write_u16(&mut bytes, value);
    out.extend_from_slice(&bytes)
}

/// Appends a number of four bytes.
#[tactic(auto, unfolding(crate::specs::Fields::word))]
fn put_word(out: &mut Vec<u8>, value: u32) -> Result<(), AllocError>
    ensures { OnOk result (out.new.items ≡ out.old.items ++ word value) }
{
    let mut bytes = [0; 4];
    LittleEndian::write_u32(&mut bytes, value);
    out.extend_from_slice(&bytes)
}

/// Appends numbers of two bytes each.
fn put_halves(out: &mut Vec<u8>, values: &[u16]) -> Result<(), AllocError>
    ensures { OnOk result (out.new.items ≡ out.old.items ++ flat_map half values.now) }
{
    for value in values {
        put_half(out, *value)?;
    }
    Ok(())
}

/// Appends numbers of four bytes each.
fn put_words(out: &mut Vec<u8>, values: &[u32]) -> Result<(), AllocError>
    ensures { OnOk result (out.new.items ≡ out.old.items ++ flat_map word values.now) }
{
    for value in values {
        put_word(out, *value)?;
    }
    Ok(())
}

/// Appends the ELF header: the identity; type and machine; version, entry, the program headers' place, no sections, no
/// flags; the sizes of both headers, the number of program headers, no sections.
#[tactic(auto, unfolding(crate::specs::Written::elf_header))]
fn put_elf_header(out: &mut Vec<u8>, entry: u32, count: u16) -> Result<(), AllocError>
    ensures { OnOk result (out.new.items ≡ out.old.items ++ elf_header entry count) }
{
    out.extend_from_slice(IDENTITY)?;
    put_halves(out, &[2, RISCV])?;
    put_words(out, &[1, entry, HEADER_BYTES as u32, 0, 0])?;
    let sizes = [HEADER_BYTES, PROGRAM_HEADER_BYTES, count, 0, 0, 0];
    put_halves(out, &sizes)
}

/// Appends the program header of a segment whose bytes stand at this offset: to be loaded, all its bytes, readable,
/// writable and executable.
#[tactic(auto, unfolding(crate::specs::Written::segment_header))]
fn put_segment_header(out: &mut Vec<u8>, offset: u32, segment: &Segment) -> Result<(), AllocError>
    requires { length segment.now.bytes < 2 ^ 32 }
    ensures { OnOk result (out.new.items ≡ out.old.items ++ segment_header offset segment.now) }
{
    let size = segment.bytes.len() as u32;
    put_words(
        out,
        &[LOAD, offset, segment.addr, segment.addr, size, size, 7, 1],
    )
}

/// Appends the program headers of segments whose bytes begin at this offset.
fn put_segment_headers(
    out: &mut Vec<u8>,
    start: u32,
    segments: &[Segment],
) -> Result<(), AllocError>
    requires { start + total_size segments.now < 2 ^ 32 }
    ensures { OnOk result (out.new.items ≡ out.old.items ++ segment_headers start segments.now) }
{
    let mut offset = start;
    for segment in segments {
        put_segment_header(out, offset, segment)?;
        offset += segment.bytes.len() as u32;
    }
    Ok(())
}

/// Appends the segments' bytes.
fn put_contents(out: &mut Vec<u8>, segments: &[Segment]) -> Result<(), AllocError>
    ensures { OnOk result (out.new.items ≡ out.old.items ++ contents segments.now) }
{
    for segment in segments {
        out.extend_from_slice(segment.bytes.as_slice())?;
    }
    Ok(())
}

/// The three parts of the file, one after the other.
#[tactic(auto, unfolding(crate::specs::Written::elf_bytes))]
fn file_of(alloc: Global, program: &Program) -> Result<Vec<u8>, AllocError>
    requires { IsWritable program.now }
    ensures layout { IfOk result (λ file. file.items ≡ elf_bytes program.now) }
    ensures entry { IfOk result (λ _. program.now.entry < 2 ^ 32) }
{
    let segments = program.segments.as_slice();
    let count = segments.len();
    let mut out = Vec::new(alloc);
    put_elf_header(&mut out, program.entry, count as u16)?;
    put_segment_headers(
        &mut out,
        HEADER_BYTES as u32 + PROGRAM_HEADER_BYTES as u32 * count as u32,
        segments,
    )?;
    put_contents(&mut out, segments)?;
    Ok(out)
}

/// The ELF file of a program of 1 to 64 segments of at most 1,048,576 bytes together, each of which ends at `2^32` at
/// most. The file breaks no rule, and has the program's entry and its segments that aren't empty.
pub fn write(alloc: Global, program: &Program) -> Result<Vec<u8>, AllocError>
    requires { IsWritable program.now }
    ensures layout { IfOk result (λ file. file.items ≡ elf_bytes program.now) }
    ensures read_back { IfOk result (λ file. elf_of file.items ≡ Ok (loaded program.now)) }
{
    let file = file_of(alloc, program)?;
    Ok(file)
}
