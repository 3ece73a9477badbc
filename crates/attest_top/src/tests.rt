// What no clause says: that each command succeeds with ample memory, and what it prints there; and that behind a call that
// fails nothing is tried again. Tags, MACs and files are those of programs that share no code with this one.
ghost use Rattle.std.specs.Prelude.{◌≤◌};

use super::*;
use crate::check_tests::FIRST_RUN;
use crate::gate_tests::STORED_TRACE;
use att_base::{MemFiles, MemSink, MemSource, NamedFile, NoGate, Words};
use std::alloc::{AllocError, Global};
use std::process::Abort;
use std::sync::Wait;
use std::test::Fail;
use std::thread::Threads;

const FAULT: &str = "attest: outside fault\n";

// The number of a call that is never made.
const NEVER: u64 = 1_000_000;

// A script that fills its history.
const FILLS: &str =
    "memory 80000000 16 4 7\nattest 0 4\nkey 6b6579\nstart all 7 000102030405060708090a0b0c0d0e0f\ncopy\ncopy\ncopy\ncopy\nend\ntick\ntick\n";

const FILLS_OUT: &str =
    "1 start\n2 copy 0\n3 copy 1\n4 copy 2\n5 copy 3\n6 end 01f92e63122daaa5ace2ac8ec1073612262c1c4783e5e050ded70df31e70d1ec\n7 tick\nfull 7\n";

// An assembler text of two lines, its three words being 12346537, fff50513 and 00000073, and its file.
const TWO_LINES: &str = ".segment 0x80000000\n.entry main\nmain: li a0, 0x12345FFF\necall\n";

const THREE_WORDS: &[u8] =
    b"\x7f\x45\x4c\x46\x01\x01\x01\x00\x00\x00\x00\x00\x00\x00\x00\x00\x02\x00\xf3\x00\x01\x00\x00\x00\x00\x00\x00\x80\x34\x00\x00\x00\x00\x00\x00\x00\x00\x00\x00\x00\x34\x00\x20\x00\x01\x00\x00\x00\x00\x00\x00\x00\x01\x00\x00\x00\x54\x00\x00\x00\x00\x00\x00\x80\x00\x00\x00\x80\x0c\x00\x00\x00\x0c\x00\x00\x00\x07\x00\x00\x00\x01\x00\x00\x00\x37\x65\x34\x12\x13\x05\xf5\xff\x73\x00\x00\x00";

// The challenge `all-ext 0 2 9` under the key `key`, the report on it of 64 zero bytes that began at 1 and ended at 6, and
// the note on its release at 9.
const SENT: &[u8] =
    b"TMC1\x02\x00\x00\x00\x00\x00\x00\x00\x00\x00\x00\x02\x00\x00\x00\x00\x00\x00\x00\x09\x00\x01\x02\x03\x04\x05\x06\x07\x08\x09\x0a\x0b\x0c\x0d\x0e\x0f\x36\x7b\xc9\x02\x0c\x12\xa8\x97\xf2\xd1\x88\x16\x7a\xc7\x7f\xcc\x5f\x47\xb1\x58\xc7\x0c\x15\xc7\xad\x61\xf6\x4b\xfe\x87\x74\x84";

const REPORT: &[u8] =
    b"TMR1\x02\x00\x00\x00\x00\x00\x00\x00\x00\x00\x00\x09\x00\x01\x02\x03\x04\x05\x06\x07\x08\x09\x0a\x0b\x0c\x0d\x0e\x0f\x80\x00\x00\x00\x00\x00\x00\x10\x00\x00\x00\x00\x00\x00\x00\x04\x00\x00\x00\x00\x00\x00\x00\x01\x00\x00\x00\x00\x00\x00\x00\x06\x55\xfa\x8d\x83\x81\xbd\x4f\x06\x88\x9e\xda\x50\xa2\x86\x80\xf6\xd3\x38\xef\x59\x72\x62\xc0\x13\xca\xd0\xdd\xd1\xc7\x9a\xe1\x2d";

// The report of the run of two applications that store.
const TOLD: &[u8] =
    b"\x54\x4d\x52\x31\x04\x00\x00\x00\x00\x00\x00\x00\x00\x00\x00\x01\x00\x01\x02\x03\x04\x05\x06\x07\x08\x09\x0a\x0b\x0c\x0d\x0e\x0f\x80\x00\x00\x00\x00\x00\x00\x10\x00\x00\x00\x00\x00\x00\x00\x04\x00\x00\x00\x00\x00\x00\x00\x01\x00\x00\x00\x00\x00\x00\x00\x09\x16\x6f\xe7\x0f\xd9\xc4\x41\x63\x32\xab\xe2\x14\x37\x42\xec\x7a\x2b\x38\x42\x80\x4c\x53\xae\x4d\x9a\x51\x46\x2b\xc2\x27\x0b\x9d";

const NOTE: &[u8] =
    b"TMN1\x00\x00\x00\x00\x00\x00\x00\x00\x00\x00\x00\x09\x00\x00\x00\x00\x00\x00\x00\x01\x00\x00\x00\x00\x00\x00\x00\x06\x00\x00\x00\x00\x00\x00\x00\x09\x48\xea\xd7\x1f\xac\x3e\x02\x41\xdf\x7e\x31\x90\xd5\x04\xd2\x72\x2d\x5d\x51\x99\x21\x61\x25\x98\x4d\xdb\x11\x1f\x73\xb0\x8e\x0c";

const VERIFIER: &str =
    "base = 0x80000000\nblock = 16\nblocks = 4\nfirst = 0\nattested = 4\nlast = 8\nkey = \"key.bin\"\nchallenge = \"sent\"\nimages = [\"other.img\", \"good.img\"]\n";

// A device that runs the executable of the two lines; its first and its third block are attested.
const DEVICE: &str =
    "base = 0x80000000\nblock = 16\nblocks = 4\nranges = [[0, 1], [2, 1]]\nkey = \"none\"\nlast = 0\ncap = 16\ntrace = \"trace\"\n[[app]]\nfile = \"words.elf\"\nconsole = \"console\"\nstack = 0\nfuel = 1\n";

// A device with the same application, for one instruction; its trace is `main.elf`.
const RUN: &str =
    "base = 0x80000000\nblock = 16\nblocks = 4\nfirst = 0\nattested = 4\nkey = \"key.bin\"\nlast = 0\ncap = 16\ntrace = \"main.elf\"\n[[app]]\nfile = \"words.elf\"\nconsole = \"console\"\nstack = 0\nfuel = 1\n";

// A command: its words, the status, and what goes to standard output and standard error where nothing fails; how many files
// it reads, the name that it writes first (none: `-`), and how many bytes it has then, and after the first piece.
#[derive(Clone, Copy)]
struct Case {
    line: &'static str,
    status: Status,
    printed: &'static str,
    said: &'static str,
    reads: u64,
    name: &'static str,
    count: usize,
    first: usize,
}

const CASES: [Case; 8] = [
    Case {
        line: "script",
        status: Status::Full,
        printed: FILLS_OUT,
        said: "attest: full at 7\n",
        reads: 0,
        name: "-",
        count: 0,
        first: 0,
    },
    Case {
        line: "asm main.s main.elf",
        status: Status::Good,
        printed: "entry 80000000 segments 1 bytes 12\n",
        said: "",
        reads: 1,
        name: "main.elf",
        count: 96,
        first: 96,
    },
    Case {
        line: "show words.elf",
        status: Status::Good,
        printed: "80000000 12346537 lui x10, 0x12346\n80000004 fff50513 addi x10, x10, -1\n80000008 00000073 ecall\n",
        said: "",
        reads: 1,
        name: "-",
        count: 0,
        first: 0,
    },
    Case {
        line: "image device main.elf",
        status: Status::Good,
        printed: "",
        said: "",
        reads: 2,
        name: "main.elf",
        count: 32,
        first: 32,
    },
    Case {
        line: "sched run schedule",
        status: Status::Good,
        printed: "app 1 fuel\nwaits 1 0\nentries 1\n",
        said: "",
        reads: 4,
        name: "main.elf",
        count: 202,
        first: 174,
    },
    Case {
        line: "challenge key.bin dec 100 0 7 000102030405060708090A0b0c0d0e0f main.elf",
        status: Status::Good,
        printed: "challenge 7 f9d56578882220d2e36fd63bcb3b79acc4819532a417eb3356f62cdea4f1bc02\n",
        said: "",
        reads: 1,
        name: "main.elf",
        count: 72,
        first: 72,
    },
    Case {
        line: "verify verifier report note",
        status: Status::Good,
        printed: "verdict accepted good.img\nnote accepted 9\n",
        said: "",
        reads: 7,
        name: "-",
        count: 0,
        first: 0,
    },
    Case {
        line: "check history key.bin told report",
        status: Status::Rejected,
        printed: "legal 14\nconfirmed told\nrefused report 3\n",
        said: "",
        reads: 4,
        name: "-",
        count: 0,
        first: 0,
    },
];

// What prints the run of a device that is drawn from 1.
const GENERATED: Case = Case {
    line: "gen 1",
    status: Status::Good,
    printed: FIRST_RUN,
    said: "",
    reads: 0,
    name: "-",
    count: 0,
    first: 0,
};

// The calls that fail: on files, standard input, standard output and standard error, all of whose calls move 16 bytes.
#[derive(Clone, Copy)]
struct Fails {
    files: u64,
    input: u64,
    out: u64,
    err: u64,
}

const NONE: Fails = Fails {
    files: NEVER,
    input: NEVER,
    out: NEVER,
    err: NEVER,
};

// The files that the commands read, and one that holds `old`.
fn files_of(alloc: Global, fails: u64) -> Result<MemFiles, AllocError> {
    let mut list = Vec::new(alloc);
    for (name, bytes) in [
        ("main.s", TWO_LINES.as_bytes()),
        ("words.elf", THREE_WORDS),
        ("key.bin", b"key"),
        ("sent", SENT),
        ("report", REPORT),
        ("history", STORED_TRACE.as_bytes()),
        ("told", TOLD),
        ("note", NOTE),
        ("other.img", &[b'a'; 64]),
        ("good.img", &[0; 64]),
        ("verifier", VERIFIER.as_bytes()),
        ("device", DEVICE.as_bytes()),
        ("run", RUN.as_bytes()),
        ("schedule", b"1 1\n"),
        ("main.elf", b"old"),
    ] {
        list.push(NamedFile::copied(alloc, name, bytes)?)?;
    }
    Ok(MemFiles::new(alloc, list, [fails].to_vec(alloc)?))
}

fn sink(alloc: Global, fails: u64) -> Result<MemSink, AllocError> {
    MemSink::new(alloc, 4096, 16, [fails].to_vec(alloc)?)
}

// Carries the command out, and compares the status, what standard output and standard error hold, and how many bytes of
// the file that is written there are: None where it is as it was.
fn expect<R: Threads + Wait + Sync + Abort>(
    rt: &R,
    alloc: Global,
    case: Case,
    fails: Fails,
    want: (Status, &str, &str),
    count: Option<usize>,
) -> Result<(), AllocError> {
    let mut words = Words::new(alloc);
    for word in case.line.split(' ') {
        words.push(word)?;
    }
    let text = FILLS.as_bytes().to_vec(alloc)?;
    let mut input = MemSource::new(text, 16, [fails.input].to_vec(alloc)?);
    let mut files = files_of(alloc, fails.files)?;
    let mut out = sink(alloc, fails.out)?;
    let mut err = sink(alloc, fails.err)?;
    let status = attest(
        rt, alloc, &words, &mut files, &mut input, &mut out, &mut err, &NoGate,
    );
    let line = case.line;
    assert_eq!(rt; status, want.0, "in {line}");
    assert_eq!(rt; out.held(), want.1.as_bytes(), "in {line}");
    assert_eq!(rt; err.held(), want.2.as_bytes(), "in {line}");
    let held = files.bytes_of("main.elf");
    match count {
        None => assert_eq!(rt; held, Some(b"old".as_slice()), "in {line}"),
        Some(count) => assert_eq!(rt; held.map(|bytes| bytes.len()), Some(count), "in {line}"),
    }
    Ok(())
}

// The first bytes of a text, 16 for each call.
fn front(text: &str, calls: u64) -> &str {
    text.get(..(calls as usize).saturating_mul(16))
        .unwrap_or(text)
}

fn written(case: Case) -> Option<usize> {
    if case.name == "-" {
        None
    } else {
        Some(case.count)
    }
}

#[test]
fn each_command_prints(rt: HostRuntime) -> Result<(), Fail> {
    let alloc = rt.alloc();
    for case in CASES {
        let want = (case.status, case.printed, case.said);
        expect(&rt, alloc, case, NONE, want, written(case))?;
    }
    let want = (Status::Good, FIRST_RUN, "");
    expect(&rt, alloc, GENERATED, NONE, want, None)?;
    Ok(())
}

// Each call on files fails in turn, the reads, the clearing, and the first append, which has written half of its piece; and then
// standard error fails at its second call.
fn expect_file_faults<R: Threads + Wait + Sync + Abort>(
    rt: &R,
    alloc: Global,
    case: Case,
) -> Result<(), AllocError> {
    let writes = if case.name == "-" { 0 } else { 2 };
    for call in 0..case.reads.saturating_add(writes) {
        let count = if call > case.reads {
            Some(case.first / 2)
        } else {
            None
        };
        for (err, said) in [(NEVER, FAULT), (1, front(FAULT, 1))] {
            let fails = Fails {
                files: call,
                input: NEVER,
                out: NEVER,
                err,
            };
            let want = (Status::OutsideFault, "", said);
            expect(rt, alloc, case, fails, want, count)?;
        }
    }
    Ok(())
}

// Each call on standard output fails in turn, and each on standard error.
fn expect_stream_faults<R: Threads + Wait + Sync + Abort>(
    rt: &R,
    alloc: Global,
    case: Case,
) -> Result<(), AllocError> {
    for call in 0..10 {
        if front(case.printed, call).len() < case.printed.len() {
            let fails = Fails {
                files: NEVER,
                input: NEVER,
                out: call,
                err: NEVER,
            };
            let want = (Status::OutsideFault, front(case.printed, call), FAULT);
            expect(rt, alloc, case, fails, want, written(case))?;
        }
        if front(case.said, call).len() < case.said.len() {
            let fails = Fails {
                files: NEVER,
                input: NEVER,
                out: NEVER,
                err: call,
            };
            let want = (Status::OutsideFault, case.printed, front(case.said, call));
            expect(rt, alloc, case, fails, want, written(case))?;
        }
    }
    Ok(())
}

#[test]
fn behind_a_fault_nothing_is_tried_again(rt: HostRuntime) -> Result<(), Fail> {
    let alloc = rt.alloc();
    for case in CASES {
        expect_file_faults(&rt, alloc, case)?;
        expect_stream_faults(&rt, alloc, case)?;
    }
    let fails = Fails {
        files: NEVER,
        input: NEVER,
        out: 1,
        err: NEVER,
    };
    let want = (Status::OutsideFault, front(FIRST_RUN, 1), FAULT);
    expect(&rt, alloc, GENERATED, fails, want, None)?;
    // The ninth call finds the end of the input.
    for call in 0..9 {
        let fails = Fails {
            files: NEVER,
            input: call,
            out: NEVER,
            err: NEVER,
        };
        let want = (Status::OutsideFault, "", FAULT);
        expect(&rt, alloc, CASES[0], fails, want, None)?;
    }
    Ok(())
}
