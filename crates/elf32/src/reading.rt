//! Reading an ELF file over its bytes.

ghost use Rattle.std.specs.Prelude.{◌≡◌, ◌<◌, ◌≤◌, false, length, take, drop, slice_get, Some};
ghost use Rattle.elf32.specs.Files.{elf_of, loaded_headers, is_out_of_range};
ghost use Rattle.elf32.specs.Sound.{IsElf};

use crate::faults::ElfFault;
use crate::headers::{ProgramHeader, first_broken_rule, header, header_count, word_at};
use std::marker::Model;

/// A segment of a file, over the file's bytes.
#[derive(Clone, Copy, Debug)]
pub struct Part<'a> {
    /// The address of the first byte.
    pub addr: u32,
    /// How many bytes of memory the segment takes; at least 1.
    pub size: u32,
    /// The bytes that it begins with, at most `size`. The others are zeros.
    pub bytes: &'a [u8],
}

/// An executable over the bytes of its file, which break no rule. Clauses see it as the `Executable` of
/// `specs/Files.antt`.
#[derive(Drop)]
pub struct Elf<'a> {
    bytes: &'a [u8],
}

impl<'a> Model for Elf<'a> {
    ghost use Rattle.elf32.specs.Files.{Executable, executable};
    ghost use Rattle.elf32.specs.Sound.{IsElf};

    ghost Value = { Executable };

    ghost view = { λ e. executable e.bytes.now };

    ghost invariant = { λ e. IsElf e.bytes.now };
}

/// How many segments the file loads.
fn count_loaded(bytes: &[u8]) -> u32
    requires { IsElf bytes.now }
    ensures value { result ≡ length (loaded_headers bytes.now) }
    ensures few { result ≤ 64 }
{
    let mut count = 0;
    for k in 0..header_count(bytes) {
        if header(bytes, k).is_loaded() {
            count += 1;
        }
    }
    count
}

/// The header of the segment with this number among those that the file loads.
fn loaded_header(bytes: &[u8], number: u32) -> ProgramHeader
    requires file { IsElf bytes.now }
    requires within { number < length (loaded_headers bytes.now) }
    ensures value { slice_get (loaded_headers bytes.now) number ≡ Some result }
    ensures load { result.p_type ≡ 1 }
    ensures some { 0 < result.p_memsz }
    ensures in_range { is_out_of_range bytes.now result ≡ false }
{
    let mut seen = 0;
    for k in 0..header_count(bytes) {
        let header = header(bytes, k);
        if header.is_loaded() {
            if seen == number {
                return header;
            }
            seen += 1;
        }
    }
    unreachable!()
}

/// The bytes that the file has for a segment.
fn bytes_of<'a>(bytes: &'a [u8], header: &ProgramHeader) -> &'a [u8]
    requires load { header.now.p_type ≡ 1 }
    requires in_range { is_out_of_range bytes.now header.now ≡ false }
    ensures { result.now ≡ take header.now.p_filesz (drop header.now.p_offset bytes.now) }
{
    if header.p_filesz == 0 {
        return &[];
    }
    let (_, rest) = bytes.split_at(header.p_offset as usize);
    let (front, _) = rest.split_at(header.p_filesz as usize);
    front
}

impl<'a> Elf<'a> {
    ghost use Rattle.std.specs.Prelude.{◌≡◌, ◌<◌, ◌≤◌, length, slice_get, Some};
    ghost use Rattle.elf32.specs.Files.{FileSegment};
    ghost use Rattle.elf32.specs.Sound.{IsInRange};

    /// The address of the first instruction.
    #[tactic(auto, unfolding(crate::specs::Files::executable))]
    pub fn entry(&self) -> u32
        ensures { result ≡ self.now.entry }
    {
        word_at(self.bytes, 24)
    }

    /// How many segments the file loads: its headers of type PT_LOAD that take memory.
    #[tactic(auto, unfolding(crate::specs::Files::executable))]
    pub fn count(&self) -> u32
        ensures value { result ≡ length self.now.segments }
        ensures few { result ≤ 64 }
    {
        count_loaded(self.bytes)
    }

    /// A segment by its number, from 0 in the order of the file.
    #[tactic(auto, unfolding(crate::specs::Files::executable))]
    pub fn segment(&self, k: u32) -> Part<'_>
        requires { k < length self.now.segments }
        ensures value { let part : FileSegment = record { addr = result.addr; size = result.size; bytes = result.bytes.now } in
            slice_get self.now.segments k ≡ Some part }
        ensures in_range { IsInRange (record { addr = result.addr; size = result.size; bytes = result.bytes.now }) }
    {
        let header = loaded_header(self.bytes, k);
        Part {
            addr: header.p_vaddr,
            size: header.p_memsz,
            bytes: bytes_of(self.bytes, &header),
        }
    }
}

/// The executable that the bytes are, or the first rule that they break. It takes no memory.
#[tactic(auto, unfolding(crate::specs::Files::elf_of))]
pub fn read(bytes: &[u8]) -> Result<Elf<'_>, ElfFault>
    ensures { result ≡ elf_of bytes.now }
{
    match first_broken_rule(bytes) {
        Some(fault) => Err(fault),
        None => Ok(Elf { bytes }),
    }
}
