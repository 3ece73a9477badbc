//! What no clause says of `run`: that it succeeds with ample memory, and what is written then, in whatever order threads
//! come. Files are those of a program that shares no code with this one.

use crate::prepare_run;
use crate::trace_parts::TraceParts;
use att_base::{MemFiles, MemSink, NamedFile, NoGate};
use command_plans::{Ending, NoParts, Output, Stop};
use std::alloc::{Alloc, AllocError, Global};
use std::process::Abort;
use std::sync::Wait;
use std::test::Fail;
use std::thread::Threads;

// An application that adds 1 to the word at 0x80002000, a thousand times: lui t0, 0x80002; addi t1, x0, 1000; then lw t2,
// 0(t0); addi t2, t2, 1; sw t2, 0(t0); addi t1, t1, -1; bne t1, x0, -16; and then addi a7, x0, 93; addi a0, t2, 0; ecall.
// It stands at 0x80000000.
const COUNTER: [u8; 124] =
    *b"\x7f\x45\x4c\x46\x01\x01\x01\x00\x00\x00\x00\x00\x00\x00\x00\x00\x02\x00\xf3\x00\x01\x00\x00\x00\x00\x00\x00\x80\x34\x00\x00\x00\x00\x00\x00\x00\x00\x00\x00\x00\x34\x00\x20\x00\x01\x00\x00\x00\x00\x00\x00\x00\x01\x00\x00\x00\x54\x00\x00\x00\x00\x00\x00\x80\x00\x00\x00\x80\x28\x00\x00\x00\x28\x00\x00\x00\x07\x00\x00\x00\x01\x00\x00\x00\xb7\x22\x00\x80\x13\x03\x80\x3e\x83\xa3\x02\x00\x93\x83\x13\x00\x23\xa0\x72\x00\x13\x03\xf3\xff\xe3\x18\x03\xfe\x93\x08\xd0\x05\x13\x85\x03\x00\x73\x00\x00\x00";

// Two of them, in a memory of 64 blocks of 256 bytes.
const DEVICE: &str =
    "base = 0x80000000\nblock = 256\nblocks = 64\nfirst = 0\nattested = 16\nkey = \"key.bin\"\nlast = 0\ncap = 200000\ntrace = \"trace.txt\"\nimages = [\"code.img\"]\n[[app]]\nfile = \"a.elf\"\nconsole = \"a.out\"\nstack = 0x80002800\nfuel = 10000\n[[app]]\nfile = \"b.elf\"\nconsole = \"b.out\"\nstack = 0x80003800\nfuel = 10000\n[[challenge]]\nfile = \"c1.bin\"\nreport = \"r1.bin\"\nnote = \"n1.bin\"\n[[challenge]]\nfile = \"c2.bin\"\nreport = \"r2.bin\"\nnote = \"n2.bin\"\n[[challenge]]\nfile = \"c3.bin\"\nreport = \"r3.bin\"\nnote = \"n3.bin\"\n";

// dec, counter 1, after 100 ticks
const DEC: &[u8] =
    b"\x54\x4d\x43\x31\x03\x00\x00\x00\x00\x00\x00\x64\x00\x00\x00\x00\x00\x00\x00\x00\x00\x00\x00\x01\x00\x01\x02\x03\x04\x05\x06\x07\x08\x09\x0a\x0b\x0c\x0d\x0e\x0f\xba\x6d\x3f\x52\xc6\x23\xa1\x2e\x2a\x23\x8a\x32\xe8\x72\x72\xe7\x97\xc1\xf4\x13\x34\xb1\xee\xb2\x14\xdc\xd6\xaa\x73\x19\x3c\x6e";

// inc, counter 2, after 100 ticks
const INC: &[u8] =
    b"\x54\x4d\x43\x31\x04\x00\x00\x00\x00\x00\x00\x64\x00\x00\x00\x00\x00\x00\x00\x00\x00\x00\x00\x02\x00\x01\x02\x03\x04\x05\x06\x07\x08\x09\x0a\x0b\x0c\x0d\x0e\x0f\x6f\xfc\x66\x97\x8e\xb5\xfd\xc8\x28\xe8\x00\x19\x2e\x77\x60\x1d\x4b\x66\x06\xf1\xc4\xcf\x8a\x35\xc5\xad\xc1\xd5\x12\x84\xf1\xed";

// all-ext, counter 3, after 100 ticks, held for 50
const ALL_EXT: &[u8] =
    b"\x54\x4d\x43\x31\x02\x00\x00\x00\x00\x00\x00\x64\x00\x00\x00\x32\x00\x00\x00\x00\x00\x00\x00\x03\x00\x01\x02\x03\x04\x05\x06\x07\x08\x09\x0a\x0b\x0c\x0d\x0e\x0f\x03\xc1\x4d\x50\x27\xab\xad\xe7\x97\x95\xc8\x0a\x79\xdb\x7b\x67\x44\x88\x2d\xde\x2b\xe5\x89\xf8\x64\xac\xc2\xb3\x2b\x76\xa6\xe4";

// What each line begins with; the rest of a report and of a release says where in the history they stand.
const LINES: [&str; 9] = [
    "app 1 exit 1000",
    "app 2 exit 1000",
    "challenge 1 report ",
    "verdict 1 accepted code.img",
    "challenge 2 report ",
    "verdict 2 accepted code.img",
    "challenge 3 report ",
    "verdict 3 accepted code.img",
    "release 3 ",
];

type Prepared = Output<NoParts, TraceParts>;

fn put(
    alloc: Global,
    list: &mut Vec<NamedFile>,
    name: &str,
    bytes: &[u8],
) -> Result<(), AllocError> {
    let file = NamedFile::copied(alloc, name, bytes)?;
    list.push(file)?;
    Ok(())
}

// The second application: it stands at 0x80000400, and its word is at 0x80003000.
fn second_counter() -> [u8; 124] {
    let mut bytes = COUNTER;
    for place in [25, 61, 65] {
        bytes[place] = 0x04;
    }
    bytes[85] = 0x32;
    bytes
}

// The files of a device with this device file, its key and this known image.
fn files_of(alloc: Global, device: &str, key: &[u8], image: &[u8]) -> Result<MemFiles, AllocError> {
    let mut list = Vec::new(alloc);
    put(alloc, &mut list, "dev", device.as_bytes())?;
    put(alloc, &mut list, "key.bin", key)?;
    put(alloc, &mut list, "a.elf", &COUNTER)?;
    put(alloc, &mut list, "b.elf", &second_counter())?;
    put(alloc, &mut list, "c1.bin", DEC)?;
    put(alloc, &mut list, "c2.bin", INC)?;
    put(alloc, &mut list, "c3.bin", ALL_EXT)?;
    put(alloc, &mut list, "code.img", image)?;
    Ok(MemFiles::new(alloc, list, Vec::new(alloc)))
}

// The attested blocks as they begin, where they are the first so many bytes of these: the code of both.
fn code() -> [u8; 4096] {
    let mut image = [0; 4096];
    let second = second_counter();
    image[..40].copy_from_slice(&COUNTER[84..]);
    image[1024..1064].copy_from_slice(&second[84..]);
    image
}

// The output of `run`, over these files.
fn prepared<R: Threads + Wait + Sync + Alloc<A = Global>>(
    rt: &R,
    files: &mut MemFiles,
) -> Result<Prepared, Stop> {
    prepare_run(rt.alloc(), files, "dev", rt, &NoGate)
}

// The device runs, and the output of it is written: what is printed, and how the command ends.
fn written<R: Threads + Wait + Sync + Alloc<A = Global>>(
    rt: &R,
    files: &mut MemFiles,
) -> Result<(String, Ending), Fail> {
    let alloc = rt.alloc();
    let Ok(mut output) = prepared(rt, files) else {
        return Err("no output".into());
    };
    for file in output.files() {
        file.write_to(alloc, files)?;
    }
    let mut out = MemSink::new(alloc, 4096, 4096, Vec::new(alloc))?;
    output.put_out(&mut out)?;
    let text = String::from_str(alloc, std::str::from_utf8(out.held())?)?;
    Ok((text, output.ending()))
}

// Each line begins as is wanted, and the one behind them is the number of entries.
fn expect_lines(rt: &impl Abort, text: &str, entries: &str) {
    let mut place = 0;
    let mut counted = false;
    for line in text.lines() {
        if place < LINES.len() {
            assert!(rt; line.starts_with(LINES[place]), "{line}");
            place += 1;
        } else {
            assert_eq!(rt; line, entries);
            counted = true;
        }
    }
    assert!(rt; counted, "{text}");
}

// The file of this name has so many bytes; it isn't there where none are awaited.
fn expect_length(rt: &impl Abort, files: &MemFiles, name: &str, length: Option<usize>) {
    assert_eq!(rt;
        files.bytes_of(name).map(|bytes| bytes.len()),
        length,
        "{name}"
    );
}

// Three reports of so many bytes, each accepted, a note of the extended form alone, and so many entries.
fn expect_run<R: Threads + Wait + Sync + Abort + Alloc<A = Global>>(
    rt: &R,
    device: &str,
    image: &[u8],
    report: usize,
    entries: &str,
) -> Result<(), Fail> {
    let mut files = files_of(rt.alloc(), device, b"key", image)?;
    let (text, ending) = written(rt, &mut files)?;
    assert_eq!(rt; ending, Ending::Accepted);
    expect_lines(rt, text.as_str(), entries);
    for name in ["a.out", "b.out"] {
        expect_length(rt, &files, name, Some(0));
    }
    for name in ["r1.bin", "r2.bin", "r3.bin"] {
        expect_length(rt, &files, name, Some(report));
    }
    expect_length(rt, &files, "n1.bin", None);
    expect_length(rt, &files, "n2.bin", None);
    expect_length(rt, &files, "n3.bin", Some(72));
    Ok(())
}

#[test]
fn two_counters_are_measured_as_they_run(rt: HostRuntime) -> Result<(), Fail> {
    let image = code();
    let apart = DEVICE.replace(
        rt.alloc(),
        "first = 0\nattested = 16",
        "ranges = [[0, 8], [12, 4]]",
    )?;
    let front = &image[..3072];
    for _ in 0..5 {
        expect_run(&rt, DEVICE, &image, 96, "entries 14415")?;
        expect_run(&rt, apart.as_str(), front, 108, "entries 14403")?;
    }
    Ok(())
}

#[test]
fn a_full_history_stops_all(rt: HostRuntime) -> Result<(), Fail> {
    let alloc = rt.alloc();
    let device = DEVICE.replace(alloc, "cap = 200000", "cap = 1000")?;
    let mut files = files_of(alloc, device.as_str(), b"key", &code())?;
    let (text, ending) = written(&rt, &mut files)?;
    assert_eq!(rt; ending, Ending::Full(1000));
    assert!(rt;
        text.as_str()
            .starts_with("app 1 stopped\napp 2 stopped\nchallenge 1 ")
    );
    assert!(rt; text.as_str().ends_with("\nentries 1000\n"));
    Ok(())
}

// The command stops over these files: with this line, or where none is given since a file isn't there.
fn expect_stop<R: Threads + Wait + Sync + Abort + Alloc<A = Global>>(
    rt: &R,
    files: &mut MemFiles,
    line: &str,
) -> Result<(), Fail> {
    match prepared(rt, files) {
        Err(Stop::Bad(said)) => assert_eq!(rt; said.as_str(), line),
        Err(Stop::Absent) => assert!(rt; line.is_empty(), "{line}"),
        Err(Stop::Fault | Stop::Memory) => return Err("another stop".into()),
        Ok(_) => return Err("an output".into()),
    }
    Ok(())
}

#[test]
fn nothing_runs_of_what_is_bad(rt: HostRuntime) -> Result<(), Fail> {
    let alloc = rt.alloc();
    let image = code();
    let mut none = MemFiles::new(alloc, Vec::new(alloc), Vec::new(alloc));
    expect_stop(&rt, &mut none, "")?;
    for (old, new, line) in [
        (
            "block = 256",
            "block = 24",
            "attest: bad input dev device 3\n",
        ),
        ("key.bin", "absent.bin", ""),
        ("b.elf", "key.bin", "attest: bad input key.bin elf 1\n"),
        ("b.elf", "a.elf", "attest: bad input dev place 2 2 0 1 0\n"),
        ("c3.bin", "absent.bin", ""),
        ("[\"code.img\"]", "[\"absent.img\"]", ""),
    ] {
        let device = DEVICE.replace(alloc, old, new)?;
        let mut files = files_of(alloc, device.as_str(), b"key", &image)?;
        expect_stop(&rt, &mut files, line)?;
    }
    let mut files = files_of(alloc, DEVICE, b"", &image)?;
    expect_stop(&rt, &mut files, "attest: bad input key.bin key 1\n")?;
    let mut files = files_of(alloc, DEVICE, b"key", &image[1..])?;
    expect_stop(&rt, &mut files, "attest: bad input code.img image 1\n")
}
