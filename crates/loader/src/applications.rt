//! Placing all applications.

ghost use Rattle.std.specs.Prelude.{◌≡◌, ◌≤◌, true, length, All, IfOk, IsOk};
ghost use Rattle.elf32.specs.Files.{elf_of};
ghost use Rattle.loader.specs.Placing.{AnswersPlacing, Holds, placed, tests, segments, is_entry};

use crate::faults::PlaceFault;
use crate::files::AppFile;
use crate::placed::Placed;
use crate::placing::Placing;
use block_memory::Geometry;
use elf32::read;
use listed::{Bytes, Items};
use std::alloc::Global;

/// Places applications, at most 8 whose files are sound ELF files: memory has each segment's bytes at its address,
/// zeros up to its size, and zeros elsewhere. It refuses with the first test that fails, or for want of memory.
pub fn place(alloc: Global, geometry: &Geometry, files: &[AppFile]) -> Result<Placed, PlaceFault>
    requires few { length files.now ≤ 8 }
    requires sound { All (λ file. IsOk (elf_of file)) files.now }
    ensures answer { AnswersPlacing result (placed geometry.now files.now) }
    ensures image { IfOk result (λ given. Holds geometry.now given.image (segments (tests files.now))) }
    ensures count { IfOk result (λ given. length given.entries ≡ length files.now) }
    ensures entries { IfOk result (λ given. All (λ entry. is_entry geometry.now entry ≡ true) given.entries) }
{
    let Ok(mut placing) = Placing::new(alloc, geometry) else {
        return Err(PlaceFault::Memory);
    };
    for (k, file) in files.iter().enumerate() {
        let Ok(elf) = read(file.bytes()) else {
            unreachable!()
        };
        placing.application(geometry, k as u32 + 1, &elf)?;
    }
    let Placing { image, entries, .. } = placing;
    Ok(Placed {
        image: Bytes::from_vec(image),
        entries: Items::from_vec(entries),
    })
}
