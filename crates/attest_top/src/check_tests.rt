// What no clause says of `check` and of `gen`: what they print with ample memory, of the trace and the report of a device's run
// too, and which words are theirs. Numbers and tags are those of programs that share no code with this one.

use super::*;
use crate::gate_tests::{STORED_TRACE, carry_out, expect_printed, expect_stores, no_files, write};
use att_base::{Files, MemSink, MemSource, NoGate, Words};
use std::alloc::{Alloc, AllocError, Global};
use std::process::Abort;
use std::sync::Wait;
use std::test::Fail;
use std::thread::Threads;

// What `gen 1` prints.
pub const FIRST_RUN: &str =
    "app 1 exit 0\napp 2 exit 0\napp 3 exit 0\napp 4 exit 0\napp 5 exit 0\napp 6 exit 0\napp 7 exit 0\napp 8 exit 0\nwaits 1 107\nwaits 2 273\nwaits 3 146\nwaits 4 134\nwaits 5 0\nwaits 6 0\nwaits 7 0\nwaits 8 0\nchallenge 1 report 1135 1311 37edf5af55bc1fa37c679b3e589f9f8fc99040500835afc29e86deb15233302f\nconfirmed 1\nchallenge 2 report 2181 2633 f1ee44521fbf4f9aa6070e7391f913ba7831eb5367d415e1d38d81c446037d0b\nconfirmed 2\nrelease 2 2780\nchallenge 3 report 3292 3634 ec9e2b681e91f1192ad3bab7d5d8528eab31c101dba7843d4925f7d53da4d53a\nconfirmed 3\nchallenge 4 report 4038 4271 d856a59a11ff63462aeb5545e259c4aa67f5f3cfdaee7055f21f7a6f8c23c7b7\nconfirmed 4\nchallenge 5 report 4579 5066 f83a9c29099c514d51d0be609b3a121d2dc4ddc734bbdc47884bc9b381e43c08\nconfirmed 5\nrelease 5 5185\nentries 95132\n";

// A trace without entries, and the first lines of one.
const NO_ENTRIES: &str =
    "TMT1\nmemory 80000000 16 1\nattest 0 1\ncap 1\n00000000000000000000000000000000\nend 0\n";

// The text with one part of it exchanged.
fn exchanged(alloc: Global, text: &str, old: &str, new: &str) -> Result<String, AllocError> {
    text.replace(alloc, old, new)
}

// The trace and the report of the two applications that store; and texts that aren't legal, or no traces.
pub fn expect_checks<R: Threads + Wait + Sync + Abort + Alloc<A = Global>, F: Files>(
    rt: &R,
    files: &mut F,
    folder: &str,
) -> Result<(), Fail> {
    let alloc = rt.alloc();
    let (old, new) = ("2 f 80000010 00212023", "2 f 80000010 00212024");
    let broken = exchanged(alloc, STORED_TRACE, old, new)?;
    let endless = exchanged(alloc, STORED_TRACE, "end 14\n", "")?;
    write(rt, files, folder, "broken", broken.as_str())?;
    write(rt, files, folder, "endless", endless.as_str())?;
    write(rt, files, folder, "still", NO_ENTRIES)?;
    write(rt, files, folder, "empty", "")?;
    let both = "legal 14\nrefused @key.bin 1\nconfirmed @r1\n";
    let unended = "attest: bad input @endless trace 21\n";
    let empty = "attest: bad input @empty trace 1\n";
    for (line, want) in [
        ("check @trace @key.bin", (Status::Good, "legal 14\n", "")),
        (
            "check @trace @key.bin @r1",
            (Status::Good, "legal 14\nconfirmed @r1\n", ""),
        ),
        (
            "check @trace @key.bin @key.bin @r1",
            (Status::Rejected, both, ""),
        ),
        (
            "check @trace @a.elf @r1",
            (Status::Rejected, "legal 14\nrefused @r1 4\n", ""),
        ),
        (
            "check @broken @key.bin @r1",
            (Status::Rejected, "broken 2 rule 3\n", ""),
        ),
        ("check @still @key.bin", (Status::Good, "legal 0\n", "")),
        ("check @empty @none", (Status::BadInput, "", empty)),
        ("check @endless @key.bin", (Status::BadInput, "", unended)),
        (
            "check @trace @key.bin @none",
            (Status::OutsideFault, "", "attest: outside fault\n"),
        ),
    ] {
        expect_printed(rt, files, folder, line, want)?;
    }
    Ok(())
}

#[test]
fn checks_of_a_run(rt: HostRuntime) -> Result<(), Fail> {
    let mut files = no_files(rt.alloc());
    expect_stores(&rt, &mut files, "")?;
    expect_checks(&rt, &mut files, "")
}

#[test]
fn the_run_of_1(rt: HostRuntime) -> Result<(), Fail> {
    let mut files = no_files(rt.alloc());
    for _ in 0..2 {
        expect_printed(&rt, &mut files, "", "gen 1", (Status::Good, FIRST_RUN, ""))?;
    }
    Ok(())
}

// `check` with so many names of reports, all the same.
fn check_of(
    rt: &impl Alloc<A = Global>,
    files: &mut impl Files,
    count: usize,
    name: &str,
) -> Result<Status, AllocError> {
    let alloc = rt.alloc();
    let mut words = Words::new(alloc);
    for word in ["check", "trace", "key.bin"] {
        words.push(word)?;
    }
    for _ in 0..count {
        words.push(name)?;
    }
    let mut input = MemSource::new(Vec::new(alloc), 16, Vec::new(alloc));
    let mut out = MemSink::new(alloc, 4096, 4096, Vec::new(alloc))?;
    let mut err = MemSink::new(alloc, 4096, 4096, Vec::new(alloc))?;
    let status = attest_still(alloc, &words, files, &mut input, &mut out, &mut err);
    Ok(status)
}

#[test]
fn up_to_64_names(rt: HostRuntime) -> Result<(), Fail> {
    let mut files = no_files(rt.alloc());
    expect_stores(&rt, &mut files, "")?;
    for count in 0..68 {
        let want = if count > 64 {
            Status::Usage
        } else {
            Status::Good
        };
        let status = check_of(&rt, &mut files, count, "r1")?;
        assert_eq!(rt; status, want, "{count}");
    }
    let long = "n".repeat(rt.alloc(), 256)?;
    for name in ["", long.as_str()] {
        let status = check_of(&rt, &mut files, 1, name)?;
        assert_eq!(rt; status, Status::Usage);
    }
    Ok(())
}

#[test]
fn other_words(rt: HostRuntime) -> Result<(), Fail> {
    let mut files = no_files(rt.alloc());
    for line in [
        "check",
        "check a",
        "check  b",
        "check a ",
        "checks a b",
        "gen",
        "gen ",
        "gen a",
        "gen 01",
        "gen +1",
        "gen 18446744073709551616",
        "gen 1 1",
    ] {
        let ended = carry_out(&rt, &mut files, "", line, &NoGate)?;
        assert_eq!(rt; ended.status, Status::Usage, "{line}");
    }
    let ended = carry_out(&rt, &mut files, "", "check a b", &NoGate)?;
    assert_eq!(rt; ended.status, Status::OutsideFault);
    Ok(())
}
