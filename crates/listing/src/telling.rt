// A listing that is told part by part.

ghost use Rattle.std.specs.Prelude.{◌≡◌, ◌++◌, ◌<◌, ◌≤◌, [], take, length};
ghost use Rattle.std.specs.Result.{result_map_both};
ghost use Rattle.elf32.specs.Files.{elf_of};
ghost use Rattle.listing.specs.Listing.{listing_of};
ghost use Rattle.listing.specs.Left.{listing_left};

use crate::cursor::{Cursor, start, tell, tell_rest};
use elf32::{ElfFault, read};

/// The listing of an ELF file, told part by part. It takes no memory beside the file's bytes.
///
/// For each segment in the file's order, a word at an address divisible by 4 whose four bytes the file has within this
/// segment is a line `ADDRESS WORD TEXT`, and each other byte is a line `ADDRESS BB .byte 0xBB`. ADDRESS and WORD are
/// eight lower-case hexadecimal digits and BB two; each line ends with one LF. TEXT is what `rv_asm::put_text` writes of
/// the word. Memory past the file's bytes has no line.
#[derive(Drop)]
pub struct Listing {
    file: Vec<u8>,
    cursor: Cursor,
}

impl Listing {
    /// The listing of the executable that a file is, before its first line; or the first rule that the file breaks.
    pub fn new(file: Vec<u8>) -> Result<Listing, ElfFault>
        ensures { result_map_both listing_left (λ fault. fault) result ≡ result_map_both (λ elf. listing_of elf.segments) (λ fault. fault) (elf_of file.items) }
    {
        let _elf = read(file.as_slice())?;
        Ok(Listing {
            file,
            cursor: start(),
        })
    }

    /// Moves the first bytes that are still to come into the front of `into`, and gives their number: 0 only where
    /// `into` is empty or no byte is to come.
    pub fn next(&mut self, into: &mut [u8]) -> usize
        ensures bound { result ≤ length into.new }
        ensures front { listing_left self.old ≡ take result into.new ++ listing_left self.new }
        ensures end { result ≡ 0 → 0 < length into.new → listing_left self.old ≡ [] }
    {
        match read(self.file.as_slice()) {
            Ok(elf) => tell(&mut self.cursor, &elf, into),
            Err(_) => tell_rest(&mut self.cursor, into),
        }
    }
}
