//! What no clause says: that the commands succeed with ample memory, and what is printed then. The numbers and the tags are
//! those of a program that shares no code with this one.

use crate::{prepare_check, prepare_gen};
use att_base::{MemFiles, MemSink, NamedFile};
use chronicle::Width;
use command_plans::{Ending, NoParts, Output, Stop};
use generated::{Generated, generate};
use listed::Text;
use sched::run_schedule;
use std::alloc::{AllocError, Global};
use std::process::Abort;
use std::test::Fail;
use trace::Index;

const FIRST_RUN: &str =
    "app 1 exit 0\napp 2 exit 0\napp 3 exit 0\napp 4 exit 0\napp 5 exit 0\napp 6 exit 0\napp 7 exit 0\napp 8 exit 0\nwaits 1 107\nwaits 2 273\nwaits 3 146\nwaits 4 134\nwaits 5 0\nwaits 6 0\nwaits 7 0\nwaits 8 0\nchallenge 1 report 1135 1311 37edf5af55bc1fa37c679b3e589f9f8fc99040500835afc29e86deb15233302f\nconfirmed 1\nchallenge 2 report 2181 2633 f1ee44521fbf4f9aa6070e7391f913ba7831eb5367d415e1d38d81c446037d0b\nconfirmed 2\nrelease 2 2780\nchallenge 3 report 3292 3634 ec9e2b681e91f1192ad3bab7d5d8528eab31c101dba7843d4925f7d53da4d53a\nconfirmed 3\nchallenge 4 report 4038 4271 d856a59a11ff63462aeb5545e259c4aa67f5f3cfdaee7055f21f7a6f8c23c7b7\nconfirmed 4\nchallenge 5 report 4579 5066 f83a9c29099c514d51d0be609b3a121d2dc4ddc734bbdc47884bc9b381e43c08\nconfirmed 5\nrelease 5 5185\nentries 95132\n";

#[test]
fn the_run_of_1_twice(rt: HostRuntime) -> Result<(), Fail> {
    let alloc = rt.alloc();
    for _ in 0..2 {
        let mut output: Prepared = match prepare_gen(alloc, 1) {
            Ok(output) => output,
            Err(_) => return Err("no output".into()),
        };
        let mut out = MemSink::new(alloc, 4096, 4096, Vec::new(alloc))?;
        output.put_out(&mut out)?;
        assert_eq!(rt; std::str::from_utf8(out.held())?, FIRST_RUN);
        assert_eq!(rt; output.ending(), Ending::Accepted);
    }
    Ok(())
}

// Where the applications of the run of 1 count, and how far.
const WORDS: [(u32, u32); 8] = [
    (0x8000_3600, 1153),
    (0x8000_1c00, 1870),
    (0x8000_3a00, 1795),
    (0x8000_2a00, 1902),
    (0x8000_a900, 1746),
    (0x8000_bb00, 1802),
    (0x8000_7c00, 1400),
    (0x8000_ba00, 1812),
];

// The word at this address, at the end of the history, by itself and in all of memory.
fn expect_word(
    rt: &impl Abort,
    index: &Index<'_>,
    memory: &[u8],
    addr: u32,
    count: u32,
) -> Result<(), Fail> {
    let chronicle = index.chronicle();
    let geometry = chronicle.world().geometry();
    if !geometry.fits(addr, Width::Word) {
        return Err("outside memory".into());
    }
    let value = index.value_at(chronicle.length(), addr, Width::Word);
    assert_eq!(rt; value, count);
    let from = addr.wrapping_sub(geometry.base()) as usize;
    match memory.get(from..from + 4) {
        Some(bytes) => assert!(rt; bytes == count.to_le_bytes().as_slice()),
        None => return Err("outside memory".into()),
    }
    Ok(())
}

#[test]
fn words_at_the_end_of_the_run_of_1(rt: HostRuntime) -> Result<(), Fail> {
    let Generated { device, schedule } = generate(rt.alloc(), 1)?;
    let outcome = run_schedule(device, schedule.as_slice());
    let index = Index::new(rt.alloc(), &outcome.chronicle)?;
    let size = outcome.chronicle.world().geometry().byte_count();
    let mut memory = vec![in rt.alloc(); 0u8; size as usize]?;
    index.memory_at(outcome.chronicle.length(), &mut memory);
    for (addr, count) in WORDS {
        expect_word(&rt, &index, &memory, addr, count)?;
    }
    Ok(())
}

// Four blocks of 16 bytes, all attested, two applications, and one measurement.
const TRACE: &str =
    "TMT1\nmemory 80000000 16 4\nattest 0 4\ncap 100\n232021009308d0057300000000000000232021009308d0057300000000000000\n0000000000000000000000000000000000000000000000000000000000000000\n0 start 4 1\n2 f 80000010 00212023\n2 s4 80000034 80000034\n0 copy 0\n0 copy 1\n0 copy 2\n0 copy 3\n1 f 80000000 00212023\n0 end\n1 s4 80000030 80000030\n2 f 80000014 05d00893\n1 f 80000004 05d00893\n2 f 80000018 00000073\n1 f 80000008 00000073\nend 14\n";

// The report of that measurement under the key "key".
const REPORT: &[u8] =
    b"\x54\x4d\x52\x31\x04\x00\x00\x00\x00\x00\x00\x00\x00\x00\x00\x01\x00\x01\x02\x03\x04\x05\x06\x07\x08\x09\x0a\x0b\x0c\x0d\x0e\x0f\x80\x00\x00\x00\x00\x00\x00\x10\x00\x00\x00\x00\x00\x00\x00\x04\x00\x00\x00\x00\x00\x00\x00\x01\x00\x00\x00\x00\x00\x00\x00\x09\x16\x6f\xe7\x0f\xd9\xc4\x41\x63\x32\xab\xe2\x14\x37\x42\xec\x7a\x2b\x38\x42\x80\x4c\x53\xae\x4d\x9a\x51\x46\x2b\xc2\x27\x0b\x9d";

type Prepared = Output<NoParts, NoParts>;

fn put(
    alloc: Global,
    files: &mut Vec<NamedFile>,
    name: &str,
    bytes: &[u8],
) -> Result<(), AllocError> {
    files.push(NamedFile::copied(alloc, name, bytes)?)?;
    Ok(())
}

// The text with one part of it exchanged.
fn exchanged(alloc: Global, text: &str, old: &str, new: &str) -> Result<String, Fail> {
    let Some((front, back)) = text.split_once(old) else {
        return Err("no such part".into());
    };
    let mut changed = String::from_str(alloc, front)?;
    changed.push_str(new)?;
    changed.push_str(back)?;
    Ok(changed)
}

// What `check` prepares of the trace `t` under the key `key` and, where it is asked to, of the report `r1.bin`.
fn prepared(alloc: Global, files: &mut MemFiles, has_report: bool) -> Result<Prepared, Stop> {
    if !has_report {
        return prepare_check(alloc, files, "t", "key", &[]);
    }
    match Text::from_str(alloc, "r1.bin") {
        Ok(name) => prepare_check(alloc, files, "t", "key", &[name]),
        Err(_) => Err(Stop::Memory),
    }
}

// What is printed, and how the command ends, where the trace file has this text and the report's file these bytes; or the line
// of a bad one. No bytes: no report is named.
fn expect_check(
    rt: &impl Abort,
    alloc: Global,
    text: &str,
    report: &[u8],
    want: &str,
    ending: Option<Ending>,
) -> Result<(), Fail> {
    let mut list = Vec::new(alloc);
    put(alloc, &mut list, "t", text.as_bytes())?;
    put(alloc, &mut list, "key", b"key")?;
    put(alloc, &mut list, "r1.bin", report)?;
    let mut files = MemFiles::new(alloc, list, Vec::new(alloc));
    match prepared(alloc, &mut files, !report.is_empty()) {
        Ok(output) => {
            let mut output = output;
            let mut out = MemSink::new(alloc, 4096, 4096, Vec::new(alloc))?;
            output.put_out(&mut out)?;
            assert_eq!(rt; std::str::from_utf8(out.held())?, want);
            assert!(rt; Some(output.ending()) == ending);
        }
        Err(Stop::Bad(line)) => {
            assert_eq!(rt; line.as_str(), want);
            assert!(rt; ending.is_none());
        }
        Err(_) => return Err("no output".into()),
    }
    Ok(())
}

const CONFIRMED: &str = "legal 14\nconfirmed r1.bin\n";

#[test]
fn a_trace_and_its_report(rt: HostRuntime) -> Result<(), Fail> {
    let alloc = rt.alloc();
    let legal = Some(Ending::Accepted);
    expect_check(&rt, alloc, TRACE, b"", "legal 14\n", legal)?;
    expect_check(&rt, alloc, TRACE, REPORT, CONFIRMED, legal)
}

#[test]
fn a_trace_that_breaks_a_rule(rt: HostRuntime) -> Result<(), Fail> {
    let alloc = rt.alloc();
    let text = exchanged(
        alloc,
        TRACE,
        "2 f 80000010 00212023",
        "2 f 80000010 00212024",
    )?;
    let broken = "broken 2 rule 3\n";
    expect_check(
        &rt,
        alloc,
        text.as_str(),
        REPORT,
        broken,
        Some(Ending::Refused),
    )
}

#[test]
fn texts_that_are_no_traces(rt: HostRuntime) -> Result<(), Fail> {
    let alloc = rt.alloc();
    let endless = exchanged(alloc, TRACE, "end 14\n", "")?;
    let pair = exchanged(alloc, TRACE, "TMT1", "TMT2")?;
    let none = "attest: bad input t trace 1\n";
    expect_check(&rt, alloc, "", b"", none, None)?;
    let line = "attest: bad input t trace 21\n";
    expect_check(&rt, alloc, endless.as_str(), b"", line, None)?;
    let line = "attest: bad input t trace 3\n";
    expect_check(&rt, alloc, pair.as_str(), b"", line, None)
}

// The report with another byte at one place, and what it is told.
const OTHERS: [(usize, u8, &str); 4] = [
    (5, 1, "legal 14\nrefused r1.bin 1\n"),
    (39, 0x20, "legal 14\nrefused r1.bin 2\n"),
    (15, 2, "legal 14\nrefused r1.bin 3\n"),
    (95, 0, "legal 14\nrefused r1.bin 4\n"),
];

#[test]
fn reports_that_are_refused(rt: HostRuntime) -> Result<(), Fail> {
    let alloc = rt.alloc();
    for (place, byte, lines) in OTHERS {
        let mut report = [0; 96];
        report.copy_from_slice(REPORT);
        report[place] = byte;
        expect_check(&rt, alloc, TRACE, &report, lines, Some(Ending::Refused))?;
    }
    Ok(())
}
