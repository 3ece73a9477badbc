//! What no clause says of `sched`: that it succeeds with ample memory, and what is written then. Tags and files are those
//! of a program that shares no code with this one.

use crate::prepare_sched;
use crate::trace_parts::TraceParts;
use att_base::{MemFiles, MemSink, NamedFile};
use command_plans::{Ending, NoParts, Output, Stop};
use std::alloc::{AllocError, Global};
use std::process::Abort;
use std::test::Fail;

// sw x2, 0(x2), addi a7, x0, 93 and ecall: at 0x80000000 and at 0x80000010.
pub const FIRST: &[u8] =
    b"\x7f\x45\x4c\x46\x01\x01\x01\x00\x00\x00\x00\x00\x00\x00\x00\x00\x02\x00\xf3\x00\x01\x00\x00\x00\x00\x00\x00\x80\x34\x00\x00\x00\x00\x00\x00\x00\x00\x00\x00\x00\x34\x00\x20\x00\x01\x00\x00\x00\x00\x00\x00\x00\x01\x00\x00\x00\x54\x00\x00\x00\x00\x00\x00\x80\x00\x00\x00\x80\x0c\x00\x00\x00\x0c\x00\x00\x00\x07\x00\x00\x00\x01\x00\x00\x00\x23\x20\x21\x00\x93\x08\xd0\x05\x73\x00\x00\x00";

const SECOND: &[u8] =
    b"\x7f\x45\x4c\x46\x01\x01\x01\x00\x00\x00\x00\x00\x00\x00\x00\x00\x02\x00\xf3\x00\x01\x00\x00\x00\x10\x00\x00\x80\x34\x00\x00\x00\x00\x00\x00\x00\x00\x00\x00\x00\x34\x00\x20\x00\x01\x00\x00\x00\x00\x00\x00\x00\x01\x00\x00\x00\x54\x00\x00\x00\x10\x00\x00\x80\x10\x00\x00\x80\x0c\x00\x00\x00\x0c\x00\x00\x00\x07\x00\x00\x00\x01\x00\x00\x00\x23\x20\x21\x00\x93\x08\xd0\x05\x73\x00\x00\x00";

// sw x1, 0(x2), at 0x80000000
const STORE: &[u8] =
    b"\x7f\x45\x4c\x46\x01\x01\x01\x00\x00\x00\x00\x00\x00\x00\x00\x00\x02\x00\xf3\x00\x01\x00\x00\x00\x00\x00\x00\x80\x34\x00\x00\x00\x00\x00\x00\x00\x00\x00\x00\x00\x34\x00\x20\x00\x01\x00\x00\x00\x00\x00\x00\x00\x01\x00\x00\x00\x54\x00\x00\x00\x00\x00\x00\x80\x00\x00\x00\x80\x04\x00\x00\x00\x04\x00\x00\x00\x07\x00\x00\x00\x01\x00\x00\x00\x23\x20\x11\x00";

// All four blocks of 16 bytes as they begin, and once the second application has stored its stack pointer.
const OLD: &[u8] =
    b"\x23\x20\x21\x00\x93\x08\xd0\x05\x73\x00\x00\x00\x00\x00\x00\x00\x23\x20\x21\x00\x93\x08\xd0\x05\x73\x00\x00\x00\x00\x00\x00\x00\x00\x00\x00\x00\x00\x00\x00\x00\x00\x00\x00\x00\x00\x00\x00\x00\x00\x00\x00\x00\x00\x00\x00\x00\x00\x00\x00\x00\x00\x00\x00\x00";

const END: &[u8] =
    b"\x23\x20\x21\x00\x93\x08\xd0\x05\x73\x00\x00\x00\x00\x00\x00\x00\x23\x20\x21\x00\x93\x08\xd0\x05\x73\x00\x00\x00\x00\x00\x00\x00\x00\x00\x00\x00\x00\x00\x00\x00\x00\x00\x00\x00\x00\x00\x00\x00\x00\x00\x00\x00\x34\x00\x00\x80\x00\x00\x00\x00\x00\x00\x00\x00";

pub const TWO_APPS: &str =
    "base = 0x80000000\nblock = 16\nblocks = 4\nfirst = 0\nattested = 4\nkey = \"key\"\nlast = 0\ncap = 100\ntrace = \"t\"\nimages = [\"old.img\", \"end.img\"]\n[[app]]\nfile = \"a.elf\"\nconsole = \"a.out\"\nstack = 0x80000030\nfuel = 3\n[[app]]\nfile = \"b.elf\"\nconsole = \"b.out\"\nstack = 0x80000034\nfuel = 3\n[[challenge]]\nfile = \"c1\"\nreport = \"r1\"\nnote = \"n1\"\n";

// inc, counter 1
pub const INC: &[u8] =
    b"\x54\x4d\x43\x31\x04\x00\x00\x00\x00\x00\x00\x00\x00\x00\x00\x00\x00\x00\x00\x00\x00\x00\x00\x01\x00\x01\x02\x03\x04\x05\x06\x07\x08\x09\x0a\x0b\x0c\x0d\x0e\x0f\xca\x64\x4b\x29\xd4\x00\x6a\xe2\x2a\xff\xbf\x62\x4a\x3a\x59\x34\xe7\x3e\xab\x61\xa8\xa7\x26\xb0\x9d\xfc\x83\xe1\xd6\x1e\x9f\xde";

pub const TRACE: &str =
    "TMT1\nmemory 80000000 16 4\nattest 0 4\ncap 100\n232021009308d0057300000000000000232021009308d0057300000000000000\n0000000000000000000000000000000000000000000000000000000000000000\n0 start 4 1\n2 f 80000010 00212023\n2 s4 80000034 80000034\n0 copy 0\n0 copy 1\n0 copy 2\n0 copy 3\n1 f 80000000 00212023\n0 end\n1 s4 80000030 80000030\n2 f 80000014 05d00893\n1 f 80000004 05d00893\n2 f 80000018 00000073\n1 f 80000008 00000073\nend 14\n";

pub const REPORT: &[u8] =
    b"\x54\x4d\x52\x31\x04\x00\x00\x00\x00\x00\x00\x00\x00\x00\x00\x01\x00\x01\x02\x03\x04\x05\x06\x07\x08\x09\x0a\x0b\x0c\x0d\x0e\x0f\x80\x00\x00\x00\x00\x00\x00\x10\x00\x00\x00\x00\x00\x00\x00\x04\x00\x00\x00\x00\x00\x00\x00\x01\x00\x00\x00\x00\x00\x00\x00\x09\x16\x6f\xe7\x0f\xd9\xc4\x41\x63\x32\xab\xe2\x14\x37\x42\xec\x7a\x2b\x38\x42\x80\x4c\x53\xae\x4d\x9a\x51\x46\x2b\xc2\x27\x0b\x9d";

const LINES: &str =
    "app 1 exit 0\napp 2 exit 0\nwaits 1 1\nwaits 2 0\nchallenge 1 report 1 9 166fe70fd9c4416332abe2143742ec7a2b3842804c53ae4d9a51462bc2270b9d\nverdict 1 accepted end.img\nentries 14\n";

// One application, whose history fills.
const ONE_APP: &str =
    "base = 0x80000000\nblock = 16\nblocks = 4\nfirst = 0\nattested = 4\nkey = \"key\"\nlast = 0\ncap = 16\ntrace = \"t\"\n[[app]]\nfile = \"a.elf\"\nconsole = \"a.out\"\nstack = 0x80000030\nfuel = 1\n[[challenge]]\nfile = \"c1\"\nreport = \"r1\"\nnote = \"n1\"\n";

// all, counter 1, after 12 ticks
const LATE: &[u8] =
    b"\x54\x4d\x43\x31\x01\x00\x00\x00\x00\x00\x00\x0c\x00\x00\x00\x00\x00\x00\x00\x00\x00\x00\x00\x01\x00\x01\x02\x03\x04\x05\x06\x07\x08\x09\x0a\x0b\x0c\x0d\x0e\x0f\x19\xa5\x72\xef\x31\x89\x49\xda\x98\x56\xe0\x09\xe5\x84\x11\x59\x20\xbe\xd5\x47\x3b\xf6\x75\xae\xca\x0a\x30\x53\xb2\xfe\x28\x34";

const CUT_LINES: &str = "app 1 stopped\nwaits 1 4\nchallenge 1 stopped\nentries 16\n";

const CUT_TRACE: &[u8] =
    b"TMT1\nmemory 80000000 16 4\nattest 0 4\ncap 16\n2320110000000000000000000000000000000000000000000000000000000000\n0000000000000000000000000000000000000000000000000000000000000000\n0 tick\n0 tick\n0 tick\n0 tick\n0 tick\n0 tick\n0 tick\n0 tick\n0 tick\n0 tick\n0 tick\n0 tick\n0 start 1 1\n0 copy 0\n1 f 80000000 00112023\n0 copy 1\nend 16\n";

// Four challenges, of which one is served: no challenge, one with another MAC, inc-ext with counter 5 and one tick to hold
// for, and all with counter 1.
const FOUR: &str =
    "base = 0x80000000\nblock = 16\nblocks = 4\nfirst = 0\nattested = 4\nkey = \"key\"\nlast = 0\ncap = 100\ntrace = \"t\"\nimages = [\"end.img\"]\n[[app]]\nfile = \"a.elf\"\nconsole = \"a.out\"\nstack = 0x80000030\nfuel = 3\n[[app]]\nfile = \"b.elf\"\nconsole = \"b.out\"\nstack = 0x80000034\nfuel = 3\n[[challenge]]\nfile = \"c1\"\nreport = \"r1\"\nnote = \"n1\"\n[[challenge]]\nfile = \"c2\"\nreport = \"r2\"\nnote = \"n2\"\n[[challenge]]\nfile = \"c3\"\nreport = \"r3\"\nnote = \"n3\"\n[[challenge]]\nfile = \"c4\"\nreport = \"r4\"\nnote = \"n4\"\n";

const CHANGED: &[u8] =
    b"\x54\x4d\x43\x31\x01\x00\x00\x00\x00\x00\x00\x00\x00\x00\x00\x00\x00\x00\x00\x00\x00\x00\x00\x01\x00\x01\x02\x03\x04\x05\x06\x07\x08\x09\x0a\x0b\x0c\x0d\x0e\x0f\x3e\x04\x66\xd6\x07\x7a\x38\x20\xf6\x55\x03\xff\xef\x8d\xeb\x47\x71\x7b\x68\x02\x74\x3c\xf0\x3f\xb6\x91\x77\xa2\x78\x00\x32\x13";

const HELD: &[u8] =
    b"\x54\x4d\x43\x31\x05\x00\x00\x00\x00\x00\x00\x00\x00\x00\x00\x01\x00\x00\x00\x00\x00\x00\x00\x05\x00\x01\x02\x03\x04\x05\x06\x07\x08\x09\x0a\x0b\x0c\x0d\x0e\x0f\xa5\xe4\xc0\xb7\xbb\x96\xe0\x5a\xcd\x8b\x85\x00\xc1\x89\xb2\x96\xb1\x28\x7a\xca\xd3\x2c\x7f\x02\xf7\x4b\xa4\x48\x2b\x31\x3f\x79";

const EARLY: &[u8] =
    b"\x54\x4d\x43\x31\x01\x00\x00\x00\x00\x00\x00\x00\x00\x00\x00\x00\x00\x00\x00\x00\x00\x00\x00\x01\x00\x01\x02\x03\x04\x05\x06\x07\x08\x09\x0a\x0b\x0c\x0d\x0e\x0f\x3e\x04\x66\xd6\x07\x7a\x38\x20\xf6\x55\x03\xff\xef\x8d\xeb\x47\x71\x7b\x68\x02\x74\x3c\xf0\x3f\xb6\x91\x77\xa2\x78\x00\x32\x12";

const HELD_REPORT: &[u8] =
    b"\x54\x4d\x52\x31\x05\x00\x00\x00\x00\x00\x00\x00\x00\x00\x00\x05\x00\x01\x02\x03\x04\x05\x06\x07\x08\x09\x0a\x0b\x0c\x0d\x0e\x0f\x80\x00\x00\x00\x00\x00\x00\x10\x00\x00\x00\x00\x00\x00\x00\x04\x00\x00\x00\x00\x00\x00\x00\x01\x00\x00\x00\x00\x00\x00\x00\x06\xd9\xbe\x8d\xf0\xc4\xaa\xe3\xa5\x12\x73\xf8\x10\x93\x62\x0b\xbe\x7f\x59\x58\x4c\x6f\xe3\x5f\x48\x3d\x55\x82\x25\xd5\xda\xd9\x64";

const HELD_NOTE: &[u8] =
    b"\x54\x4d\x4e\x31\x00\x00\x00\x00\x00\x00\x00\x00\x00\x00\x00\x05\x00\x00\x00\x00\x00\x00\x00\x01\x00\x00\x00\x00\x00\x00\x00\x06\x00\x00\x00\x00\x00\x00\x00\x08\x6a\x3e\xce\x04\x79\x70\xb2\x2a\xc7\xc7\xb2\x3d\xc4\x1c\x12\xa0\x5e\x36\xfb\xb8\x4c\xbf\x4f\xaa\x73\x03\x53\xc0\x38\xf4\xab\x15";

const REFUSED_LINES: &str =
    "app 1 exit 0\napp 2 exit 0\nwaits 1 0\nwaits 2 0\nchallenge 1 refused malformed\nchallenge 2 refused badmac\nchallenge 3 report 1 6 d9be8df0c4aae3a51273f81093620bbe7f59584c6fe35f483d558225d5dad964\nverdict 3 rejected 5\nrelease 3 8\nchallenge 4 refused stale 5\nentries 16\n";

pub type Prepared = Output<NoParts, TraceParts>;

pub fn put(
    alloc: Global,
    list: &mut Vec<NamedFile>,
    name: &str,
    bytes: &[u8],
) -> Result<(), AllocError> {
    let file = NamedFile::copied(alloc, name, bytes)?;
    list.push(file)?;
    Ok(())
}

// The files that each of the tests reads beside its challenges.
pub fn common(alloc: Global, device: &str, schedule: &str) -> Result<Vec<NamedFile>, AllocError> {
    let mut list = Vec::new(alloc);
    put(alloc, &mut list, "dev", device.as_bytes())?;
    put(alloc, &mut list, "s", schedule.as_bytes())?;
    put(alloc, &mut list, "key", b"key")?;
    put(alloc, &mut list, "b.elf", SECOND)?;
    put(alloc, &mut list, "old.img", OLD)?;
    put(alloc, &mut list, "end.img", END)?;
    Ok(list)
}

fn prepared(alloc: Global, files: &mut MemFiles) -> Result<Prepared, Fail> {
    match prepare_sched(alloc, files, "dev", "s") {
        Ok(output) => Ok(output),
        Err(Stop::Bad(line)) => Err(line.as_str().into()),
        Err(_) => Err("no output".into()),
    }
}

// What is printed and how the command ends; the files are written.
fn expect(
    rt: &impl Abort,
    alloc: Global,
    files: &mut MemFiles,
    lines: &str,
    ending: Ending,
) -> Result<(), Fail> {
    let mut output = prepared(alloc, files)?;
    for file in output.files() {
        file.write_to(alloc, files)?;
    }
    let mut out = MemSink::new(alloc, 4096, 4096, Vec::new(alloc))?;
    output.put_out(&mut out)?;
    assert_eq!(rt; std::str::from_utf8(out.held())?, lines);
    assert_eq!(rt; output.ending(), ending);
    Ok(())
}

// The file of this name holds these bytes.
fn expect_bytes(rt: &impl Abort, files: &MemFiles, name: &str, want: &[u8]) {
    assert_eq!(rt; files.bytes_of(name), Some(want), "{name}");
}

// There is no file of this name.
fn expect_none(rt: &impl Abort, files: &MemFiles, name: &str) {
    assert!(rt; files.bytes_of(name).is_none(), "{name}");
}

#[test]
fn a_store_waits_for_its_block(rt: HostRuntime) -> Result<(), Fail> {
    let alloc = rt.alloc();
    let mut list = common(alloc, TWO_APPS, "0 1\n2 2\n0 4\n1 2\n0 1\n")?;
    put(alloc, &mut list, "a.elf", FIRST)?;
    put(alloc, &mut list, "c1", INC)?;
    let mut files = MemFiles::new(alloc, list, Vec::new(alloc));
    expect(&rt, alloc, &mut files, LINES, Ending::Accepted)?;
    expect_bytes(&rt, &files, "t", TRACE.as_bytes());
    expect_bytes(&rt, &files, "a.out", b"");
    expect_bytes(&rt, &files, "r1", REPORT);
    expect_none(&rt, &files, "n1");
    Ok(())
}

#[test]
fn a_full_history_cuts_all_short(rt: HostRuntime) -> Result<(), Fail> {
    let alloc = rt.alloc();
    let mut list = common(alloc, ONE_APP, "0 14\n1 5\n0 2\n")?;
    put(alloc, &mut list, "a.elf", STORE)?;
    put(alloc, &mut list, "c1", LATE)?;
    let mut files = MemFiles::new(alloc, list, Vec::new(alloc));
    expect(&rt, alloc, &mut files, CUT_LINES, Ending::Full(16))?;
    expect_bytes(&rt, &files, "t", CUT_TRACE);
    expect_none(&rt, &files, "r1");
    Ok(())
}

#[test]
fn refusals_and_verdicts_are_told(rt: HostRuntime) -> Result<(), Fail> {
    let alloc = rt.alloc();
    let mut list = common(alloc, FOUR, "0 20\n")?;
    put(alloc, &mut list, "a.elf", FIRST)?;
    put(alloc, &mut list, "c1", b"")?;
    put(alloc, &mut list, "c2", CHANGED)?;
    put(alloc, &mut list, "c3", HELD)?;
    put(alloc, &mut list, "c4", EARLY)?;
    let mut files = MemFiles::new(alloc, list, Vec::new(alloc));
    expect(&rt, alloc, &mut files, REFUSED_LINES, Ending::Refused)?;
    expect_bytes(&rt, &files, "r3", HELD_REPORT);
    expect_bytes(&rt, &files, "n3", HELD_NOTE);
    expect_none(&rt, &files, "r4");
    Ok(())
}
