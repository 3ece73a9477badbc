//! Keys.

ghost use Rattle.att_base.specs.Files.{IsName};
ghost use Rattle.command_plans.specs.Answered.{Gives, Reads};
ghost use Rattle.input_files.specs.InputFiles.{KeyIn, checked_key};

use att_base::Files;
use command_plans::{INPUT_LIMIT, Stop, bad_line, read_file};
use std::alloc::Global;

/// The most bytes of a key.
const KEY_BYTES: usize = 1024;

// The key, if it has as many bytes as a key may have.
#[tactic(auto, unfolding(crate::specs::InputFiles::checked_key))]
fn checked_key(alloc: Global, name: &str, bytes: Vec<u8>) -> Result<Vec<u8>, Stop>
    ensures { Gives (λ v. v.items) (checked_key name.now bytes.items) result }
{
    if bytes.is_empty() || bytes.len() > KEY_BYTES {
        let line = bad_line(alloc, name, "key", 1, &[])?;
        return Err(Stop::Bad(line));
    }
    Ok(bytes)
}

/// The key in the file of this name, of 1 to 1,024 bytes.
pub fn read_key<F: Files>(alloc: Global, files: &mut F, name: &str) -> Result<Vec<u8>, Stop>
    requires { IsName name.now }
    ensures { Reads (λ v. v.items) (KeyIn name.now) result (F.shows files.old) (F.shows files.new) }
{
    let bytes = read_file(alloc, files, name, INPUT_LIMIT)?;
    checked_key(alloc, name, bytes)
}
