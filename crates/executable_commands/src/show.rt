//! The command `show`: the listing of an executable is to be printed.

ghost use Rattle.std.specs.Prelude.{◌≡◌};
ghost use Rattle.att_base.specs.Files.{IsName};
ghost use Rattle.elf32.specs.Files.{elf_of};
ghost use Rattle.command_plans.specs.Answered.{Gives, Reads};
ghost use Rattle.executable_commands.specs.Plans.{checked_listing, show_plan};
ghost use Rattle.listing.specs.Left.{listing_left};

use att_base::Files;
use command_plans::{FileParts, INPUT_LIMIT, Output, Parts, Stop, bad_line, read_file};
use listing::Listing;
use std::alloc::Global;

/// A listing that goes to standard output part by part.
#[derive(Drop)]
pub struct Listed {
    listing: Listing,
}

impl Parts for Listed {
    ghost told = { λ s. listing_left s.listing };

    fn next(&mut self, into: &mut [u8]) -> usize {
        self.listing.next(into)
    }
}

// The listing of an ELF file. It wants memory only for the line of a bad one.
fn show_output<B: FileParts + Drop>(
    alloc: Global,
    name: &str,
    file: Vec<u8>,
) -> Result<Output<Listed, B>, Stop>
    ensures { Gives (λ o. o) (checked_listing name.now (elf_of file.items)) result }
{
    match Listing::new(file) {
        Ok(listing) => Ok(Output::told(alloc, Listed { listing })),
        Err(fault) => {
            let line = bad_line(alloc, name, "elf", u64::from(fault.number()), &[])?;
            Err(Stop::Bad(line))
        }
    }
}

/// The output of `show`: the executable is read, and its listing is told part by part. Nothing is written here, and no
/// file is changed. No memory is wanted beside the file's bytes.
pub fn prepare_show<F: Files, B: FileParts + Drop>(
    alloc: Global,
    files: &mut F,
    elf: &str,
) -> Result<Output<Listed, B>, Stop>
    requires { IsName elf.now }
    ensures { Reads (λ o. o) (show_plan elf.now) result (F.shows files.old) (F.shows files.new) }
{
    let bytes = read_file(alloc, files, elf, INPUT_LIMIT)?;
    show_output(alloc, elf, bytes)
}
