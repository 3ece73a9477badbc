//! Laws about files, each a contract with nothing to run: the definitions on a small file, and where the fields of
//! what is written stand.

ghost use Rattle.std.specs.Prelude.{◌≡◌, ℕ, ◌+◌, ◌^◌, ◌<◌, List, [], ◌∷◌, ◌++◌, length, Ok, Err};
ghost use Rattle.executable.specs.declared.Program.{Program};
ghost use Rattle.executable.specs.declared.Segment.{Segment};
ghost use Rattle.elf32.specs.declared.faults.ElfFault.TheVariants.{Short, SegmentRange};
ghost use Rattle.elf32.specs.Files.{FileSegment, Executable, elf_of};
ghost use Rattle.elf32.specs.Written.{HasHeader, HasSegment, contents_start, elf_bytes};
ghost use Rattle.executable.specs.Writable.{IsWritable, total_size};
ghost use Rattle.elf32.specs.Worked.{marked_file, cut_file};

/// A file of 124 bytes with a stack marker is read as its one segment; without its last byte the segment has a byte
/// past the file; a file of 51 bytes is too short.
pub fn small_files()
    ensures whole { let segment : FileSegment = record { addr = 0x80000000; size = 16; bytes = 1 ∷ 2 ∷ 3 ∷ 4 ∷ 5 ∷ 6 ∷ 7 ∷ 8 ∷ [] } in
        let found : Executable = record { entry = 0x80000000; segments = segment ∷ [] } in
        elf_of marked_file ≡ Ok found }
    ensures cut { elf_of (cut_file 123) ≡ Err SegmentRange }
    ensures short { elf_of (cut_file 51) ≡ Err Short }
{}

/// The fields of a written file stand at the standard's places, and its segments' bytes one after the other behind
/// the program headers.
pub fn fields_by_place()
    ensures size { (p : Program) → IsWritable p → p.entry < 2 ^ 32
        → length (elf_bytes p) ≡ contents_start p + total_size p.segments }
    ensures header { (p : Program) → IsWritable p → p.entry < 2 ^ 32
        → HasHeader (elf_bytes p) p.entry (length p.segments) }
    ensures segment { (p : Program) (before : List Segment) (s : Segment) (after : List Segment) → IsWritable p → p.entry < 2 ^ 32
        → p.segments ≡ before ++ s ∷ after → HasSegment (elf_bytes p) (length before) (contents_start p + total_size before) s }
{}
