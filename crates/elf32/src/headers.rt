//! The fields of an ELF file, and the rules that they keep.

ghost use Rattle.std.specs.Prelude.{◌≡◌, ℕ, ◌+◌, ◌*◌, ◌^◌, ◌<◌, ◌≤◌, ◌==◌, not, length, IsTrue};
ghost use Rattle.std.specs.List.{list_any};
ghost use Rattle.elf32.specs.Fields.{half_at, word_at};
ghost use Rattle.elf32.specs.Files.{e_phoff, e_phnum, e_entry, header, headers, has_magic, has_class, has_kind, is_compressed, has_table, is_dynamic, is_out_of_range, is_loaded, first_broken_rule};

use crate::faults::ElfFault;
use byteorder::{ByteOrder, LittleEndian};

/// The bytes of the ELF header (Elf32_Ehdr), after which `write` puts the program headers.
pub const HEADER_BYTES: u16 = 52;

/// The bytes of a program header (Elf32_Phdr).
pub const PROGRAM_HEADER_BYTES: u16 = 32;

/// The most program headers of a file.
const MOST_HEADERS: u16 = 64;

/// EM_RISCV (RISC-V ELF psABI).
pub const RISCV: u16 = 243;

/// PT_LOAD, PT_DYNAMIC and PT_INTERP: the types of program headers that are looked at.
pub const LOAD: u32 = 1;

const DYNAMIC: u32 = 2;

const INTERPRETER: u32 = 3;

/// The fields of a program header that are looked at, by the standard's names (Elf32_Phdr).
#[derive(Clone, Copy)]
pub struct ProgramHeader {
    /// What the header describes.
    pub p_type: u32,
    /// Where the segment's bytes begin in the file.
    pub p_offset: u32,
    /// The address of the segment's first byte.
    pub p_vaddr: u32,
    /// How many bytes the file has for the segment.
    pub p_filesz: u32,
    /// How many bytes of memory the segment takes.
    pub p_memsz: u32,
}

/// The number of two bytes at a place.
#[tactic(auto, unfolding(crate::specs::Fields::half_at))]
pub fn half_at(bytes: &[u8], place: usize) -> u16
    requires { place + 2 ≤ length bytes.now }
    ensures { result ≡ half_at bytes.now place }
{
    let (_, rest) = bytes.split_at(place);
    LittleEndian::read_u16(rest)
}

/// The number of four bytes at a place.
#[tactic(auto, unfolding(crate::specs::Fields::word_at))]
pub fn word_at(bytes: &[u8], place: usize) -> u32
    requires { place + 4 ≤ length bytes.now }
    ensures { result ≡ word_at bytes.now place }
{
    let (_, rest) = bytes.split_at(place);
    LittleEndian::read_u32(rest)
}

/// The number of program headers.
pub fn header_count(bytes: &[u8]) -> u16
    requires { 52 ≤ length bytes.now }
    ensures { result ≡ e_phnum bytes.now }
{
    half_at(bytes, 44)
}

/// A program header of the table, from 0.
#[tactic(auto, unfolding(crate::specs::Files::header))]
pub fn header(bytes: &[u8], k: u16) -> ProgramHeader
    requires long { 52 ≤ length bytes.now }
    requires within { e_phoff bytes.now + 32 * (k + 1) ≤ length bytes.now }
    ensures { result ≡ header bytes.now k }
{
    let place = word_at(bytes, 28) as usize + 32 * k as usize;
    ProgramHeader {
        p_type: word_at(bytes, place),
        p_offset: word_at(bytes, place + 4),
        p_vaddr: word_at(bytes, place + 8),
        p_filesz: word_at(bytes, place + 16),
        p_memsz: word_at(bytes, place + 20),
    }
}

impl ProgramHeader {
    ghost use Rattle.std.specs.Prelude.{◌≡◌};
    ghost use Rattle.elf32.specs.Files.{is_dynamic, is_loaded};

    /// It asks for a dynamic linker.
    fn is_dynamic(&self) -> bool
        ensures { result ≡ is_dynamic self.now }
    {
        self.p_type == DYNAMIC || self.p_type == INTERPRETER
    }

    /// It is a segment to be loaded that takes memory.
    pub fn is_loaded(&self) -> bool
        ensures { result ≡ is_loaded self.now }
    {
        self.p_type == LOAD && self.p_memsz != 0
    }
}

/// The header is a segment to be loaded that has no place in memory or no bytes in the file.
fn is_out_of_range(bytes: &[u8], header: &ProgramHeader) -> bool
    ensures { result ≡ is_out_of_range bytes.now header.now }
{
    let file_end = u64::from(header.p_offset) + u64::from(header.p_filesz);
    let end = u64::from(header.p_vaddr) + u64::from(header.p_memsz);
    header.p_type == LOAD
        && (header.p_memsz < header.p_filesz
            || (header.p_filesz > 0 && (bytes.len() as u64) < file_end)
            || end > 1 << 32)
}

fn has_magic(bytes: &[u8]) -> bool
    requires { 52 ≤ length bytes.now }
    ensures { result ≡ has_magic bytes.now }
{
    bytes[0] == 0x7f && bytes[1] == b'E' && bytes[2] == b'L' && bytes[3] == b'F'
}

fn has_class(bytes: &[u8]) -> bool
    requires { 52 ≤ length bytes.now }
    ensures { result ≡ has_class bytes.now }
{
    bytes[4] == 1 && bytes[5] == 1 && bytes[6] == 1
}

fn has_kind(bytes: &[u8]) -> bool
    requires { 52 ≤ length bytes.now }
    ensures { result ≡ has_kind bytes.now }
{
    half_at(bytes, 16) == 2 && word_at(bytes, 20) == 1
}

fn is_compressed(bytes: &[u8]) -> bool
    requires { 52 ≤ length bytes.now }
    ensures { result ≡ is_compressed bytes.now }
{
    word_at(bytes, 36) % 2 == 1
}

fn has_table(bytes: &[u8]) -> bool
    requires { 52 ≤ length bytes.now }
    ensures { result ≡ has_table bytes.now }
{
    let count = header_count(bytes);
    let end = u64::from(word_at(bytes, 28)) + 32 * u64::from(count);
    half_at(bytes, 42) == PROGRAM_HEADER_BYTES
        && count >= 1
        && count <= MOST_HEADERS
        && end <= bytes.len() as u64
}

/// A program header asks for a dynamic linker.
fn has_dynamic(bytes: &[u8]) -> bool
    requires long { 52 ≤ length bytes.now }
    requires table { e_phoff bytes.now + 32 * e_phnum bytes.now ≤ length bytes.now }
    ensures { result ≡ list_any is_dynamic (headers bytes.now) }
{
    for k in 0..header_count(bytes) {
        if header(bytes, k).is_dynamic() {
            return true;
        }
    }
    false
}

/// A segment to be loaded is out of range.
fn has_out_of_range(bytes: &[u8]) -> bool
    requires long { 52 ≤ length bytes.now }
    requires table { e_phoff bytes.now + 32 * e_phnum bytes.now ≤ length bytes.now }
    ensures { result ≡ list_any (is_out_of_range bytes.now) (headers bytes.now) }
{
    for k in 0..header_count(bytes) {
        if is_out_of_range(bytes, &header(bytes, k)) {
            return true;
        }
    }
    false
}

/// The first rule that the bytes break.
#[tactic(auto, unfolding(crate::specs::Files::first_broken_rule))]
pub fn first_broken_rule(bytes: &[u8]) -> Option<ElfFault>
    ensures { result ≡ first_broken_rule bytes.now }
{
    if bytes.len() < HEADER_BYTES as usize {
        return Some(ElfFault::Short);
    }
    if !has_magic(bytes) {
        return Some(ElfFault::Magic);
    }
    if !has_class(bytes) {
        return Some(ElfFault::Class);
    }
    if !has_kind(bytes) {
        return Some(ElfFault::Kind);
    }
    if half_at(bytes, 18) != RISCV {
        return Some(ElfFault::Machine);
    }
    if is_compressed(bytes) {
        return Some(ElfFault::Compressed);
    }
    if !has_table(bytes) {
        return Some(ElfFault::ProgramTable);
    }
    if has_dynamic(bytes) {
        return Some(ElfFault::Dynamic);
    }
    if has_out_of_range(bytes) {
        return Some(ElfFault::SegmentRange);
    }
    None
}
