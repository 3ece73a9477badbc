//! What no clause says: that the call succeeds with ample memory, and what is written then.

use super::*;
use att_base::{MemFiles, NamedFile};
use command_plans::{NoParts, Output, Stop};
use std::alloc::{AllocError, Global};
use std::process::Abort;
use std::test::Fail;

// A device of four blocks of 16 bytes.
const DEVICE: &str =
    "base = 0x80000000\nblock = 16\nblocks = 4\nfirst = 0\nattested = 4\nkey = \"none\"\nlast = 0\ncap = 16\ntrace = \"t\"\n[[app]]\nfile = \"a.elf\"\nconsole = \"a\"\nstack = 0\nfuel = 1\n";

// An executable of the twelve bytes at its end, at 0x80000014.
const WORDS: [u8; 96] =
    *b"\x7f\x45\x4c\x46\x01\x01\x01\x00\x00\x00\x00\x00\x00\x00\x00\x00\x02\x00\xf3\x00\x01\x00\x00\x00\x14\x00\x00\x80\x34\x00\x00\x00\x00\x00\x00\x00\x00\x00\x00\x00\x34\x00\x20\x00\x01\x00\x00\x00\x00\x00\x00\x00\x01\x00\x00\x00\x54\x00\x00\x00\x14\x00\x00\x80\x14\x00\x00\x80\x0c\x00\x00\x00\x0c\x00\x00\x00\x07\x00\x00\x00\x01\x00\x00\x00\x37\x65\x34\x12\x13\x05\xf5\xff\x73\x00\x00\x00";

// A file more.
fn put(
    alloc: Global,
    list: &mut Vec<NamedFile>,
    name: &str,
    bytes: &[u8],
) -> Result<(), AllocError> {
    let file = NamedFile::copied(alloc, name, bytes)?;
    list.push(file)?;
    Ok(())
}

fn files_of(alloc: Global, device: &str) -> Result<MemFiles, AllocError> {
    let mut list = Vec::new(alloc);
    put(alloc, &mut list, "dev", device.as_bytes())?;
    put(alloc, &mut list, "a.elf", &WORDS)?;
    put(alloc, &mut list, "out", b"old")?;
    Ok(MemFiles::new(alloc, list, Vec::new(alloc)))
}

// The image of such a device whose attested blocks are given so is these bytes.
fn expect_image(rt: &impl Abort, alloc: Global, attested: &str, want: &[u8]) -> Result<(), Fail> {
    let device = DEVICE.replace(alloc, "first = 0\nattested = 4", attested)?;
    let mut files = files_of(alloc, device.as_str())?;
    let prepared: Result<Output<NoParts, NoParts>, Stop> = prepare_image(
        alloc, &mut files, "dev", "out",
    );
    let Ok(output) = prepared else {
        return Err("no output".into());
    };
    for file in output.files() {
        file.write_to(alloc, &mut files)?;
    }
    assert_eq!(rt; files.bytes_of("out"), Some(want), "{attested}");
    Ok(())
}

#[test]
fn the_attested_bytes_are_written(rt: HostRuntime) -> Result<(), Fail> {
    let alloc = rt.alloc();
    let mut memory = [0; 64];
    memory[20..32].copy_from_slice(&WORDS[84..]);
    expect_image(&rt, alloc, "first = 0\nattested = 4", &memory)?;
    expect_image(&rt, alloc, "first = 1\nattested = 2", &memory[16..48])?;
    expect_image(&rt, alloc, "ranges = [[1, 1], [3, 1]]", &memory[16..48])?;
    expect_image(&rt, alloc, "ranges = [[0, 1], [2, 2]]", &[0; 48])?;
    Ok(())
}

#[test]
fn nothing_is_written_of_what_is_bad(rt: HostRuntime) -> Result<(), Fail> {
    let alloc = rt.alloc();
    let device = DEVICE.replace(alloc, "blocks = 4", "blocks = 1")?;
    let device = device.replace(alloc, "attested = 4", "attested = 1")?;
    let mut files = files_of(alloc, device.as_str())?;
    let prepared: Result<Output<NoParts, NoParts>, Stop> = prepare_image(
        alloc, &mut files, "dev", "out",
    );
    let Err(Stop::Bad(line)) = prepared else {
        return Err("an output".into());
    };
    assert_eq!(rt; line.as_str(), "attest: bad input dev place 1 1 0\n");
    assert_eq!(rt; files.bytes_of("out"), Some(b"old".as_slice()));
    Ok(())
}
