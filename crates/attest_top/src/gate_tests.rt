// What no clause says of `run`: that a device runs through `attest` with ample memory, on threads that run at once, with
// no lock held while a block is hashed, and over real files.

use super::*;
use crate::check_tests::expect_checks;
use att_base::{
    Files, Gate, MADE_COPY, MemFiles, MemSink, MemSource, NoGate, Spot, StdFiles, Words,
    write_whole,
};
use std::alloc::{Alloc, AllocError, Global};
use std::process::Abort;
use std::sync::Wait;
use std::sync::atomic::{AtomicU64, Ordering};
use std::test::Fail;
use std::thread::{Threads, yield_now};
use std::{env, fs};

// An application that adds 1 to a word of its own, a thousand times; its code stands at 0x80000000 or at 0x80000400.
const COUNTER: &str =
    ".segment 0x80000000\n.entry main\nmain: lui t0, 0x80002\nli t1, 1000\nloop: lw t2, 0(t0)\naddi t2, t2, 1\nsw t2, 0(t0)\naddi t1, t1, -1\nbnez t1, loop\nli a7, 93\nmv a0, t2\necall\n";

const SECOND: &str =
    ".segment 0x80000400\n.entry main\nmain: lui t0, 0x80003\nli t1, 1000\nloop: lw t2, 0(t0)\naddi t2, t2, 1\nsw t2, 0(t0)\naddi t1, t1, -1\nbnez t1, loop\nli a7, 93\nmv a0, t2\necall\n";

// Two of them under three challenges; each `@` stands for the folder of the files.
const COUNTERS: &str =
    "base = 0x80000000\nblock = 256\nblocks = 64\nfirst = 0\nattested = 16\nkey = \"@key.bin\"\nlast = 0\ncap = 200000\ntrace = \"@trace\"\nimages = [\"@code.img\"]\n[[app]]\nfile = \"@a.elf\"\nconsole = \"@a.out\"\nstack = 0x80002800\nfuel = 10000\n[[app]]\nfile = \"@b.elf\"\nconsole = \"@b.out\"\nstack = 0x80003800\nfuel = 10000\n[[challenge]]\nfile = \"@c1\"\nreport = \"@r1\"\nnote = \"@n1\"\n[[challenge]]\nfile = \"@c2\"\nreport = \"@r2\"\nnote = \"@n2\"\n[[challenge]]\nfile = \"@c3\"\nreport = \"@r3\"\nnote = \"@n3\"\n";

// What makes their files.
const MAKES: &str =
    "asm @a.s @a.elf/asm @b.s @b.elf/image @device @code.img/challenge @key.bin dec 100 0 1 000102030405060708090a0b0c0d0e0f @c1/challenge @key.bin inc 100 0 2 000102030405060708090a0b0c0d0e0f @c2/challenge @key.bin all-ext 100 50 3 000102030405060708090a0b0c0d0e0f @c3";

// What the lines of their run begin with, whatever the order in which the actors come.
const RUN_LINES: &str =
    "app 1 exit 1000/app 2 exit 1000/challenge 1 report /verdict 1 accepted @code.img/challenge 2 report /verdict 2 accepted @code.img/challenge 3 report /verdict 3 accepted @code.img/release 3 /entries 14415";

// How often a gate's actors look for one another, all together.
const TURNS: u64 = 50_000_000;

// What has come of a command: its status, and what standard output and standard error hold.
#[derive(Drop)]
pub struct Ended {
    pub status: Status,
    pub out: MemSink,
    pub err: MemSink,
}

// The words of a line, where each `@` is the folder.
fn words_of(alloc: Global, line: &str, folder: &str) -> Result<Words, AllocError> {
    let mut words = Words::new(alloc);
    for word in line.split(' ') {
        let word = word.replace(alloc, "@", folder)?;
        words.push(word.as_str())?;
    }
    Ok(words)
}

// Carries out a command line.
pub fn carry_out<R: Threads + Wait + Sync + Alloc<A = Global>, F: Files, G: Gate + Sync>(
    rt: &R,
    files: &mut F,
    folder: &str,
    line: &str,
    gate: &G,
) -> Result<Ended, AllocError> {
    let alloc = rt.alloc();
    let words = words_of(alloc, line, folder)?;
    let mut input = MemSource::new(Vec::new(alloc), 16, Vec::new(alloc));
    let mut out = MemSink::new(alloc, 4096, 4096, Vec::new(alloc))?;
    let mut err = MemSink::new(alloc, 4096, 4096, Vec::new(alloc))?;
    let status = attest(
        rt, alloc, &words, files, &mut input, &mut out, &mut err, gate,
    );
    Ok(Ended { status, out, err })
}

// Writes a file of the folder.
pub fn write_bytes<F: Files>(
    rt: &(impl Abort + Alloc<A = Global>),
    files: &mut F,
    folder: &str,
    name: &str,
    bytes: &[u8],
) -> Result<(), Fail> {
    let path = format!(in rt.alloc(); "{folder}{name}")?;
    let path = path.as_str();
    assert!(rt; !path.is_empty() && path.len() <= 255);
    write_whole(rt.alloc(), files, path, bytes).map_err(|_| "not written".into())
}

// Writes a text, in which each `@` is the folder.
pub fn write<F: Files>(
    rt: &(impl Abort + Alloc<A = Global>),
    files: &mut F,
    folder: &str,
    name: &str,
    text: &str,
) -> Result<(), Fail> {
    let text = text.replace(rt.alloc(), "@", folder)?;
    write_bytes(rt, files, folder, name, text.as_bytes())
}

// A command ends with this status.
fn expect_status<R: Threads + Wait + Sync + Abort + Alloc<A = Global>, F: Files>(
    rt: &R,
    files: &mut F,
    folder: &str,
    line: &str,
    want: Status,
) -> Result<(), Fail> {
    let ended = carry_out(rt, files, folder, line, &NoGate)?;
    assert_eq!(rt; ended.status, want, "{line}");
    Ok(())
}

// Writes the device of two counters with all the files that it names.
fn make_counters<R: Threads + Wait + Sync + Abort + Alloc<A = Global>, F: Files>(
    rt: &R,
    files: &mut F,
    folder: &str,
) -> Result<(), Fail> {
    write(rt, files, folder, "a.s", COUNTER)?;
    write(rt, files, folder, "b.s", SECOND)?;
    write(rt, files, folder, "key.bin", "key")?;
    write(rt, files, folder, "device", COUNTERS)?;
    for line in MAKES.split('/') {
        expect_status(rt, files, folder, line, Status::Good)?;
    }
    Ok(())
}

// Runs the device of two counters under the gate, and looks at its lines.
fn run_counters<R: Threads + Wait + Sync + Abort + Alloc<A = Global>, F: Files, G: Gate + Sync>(
    rt: &R,
    files: &mut F,
    folder: &str,
    gate: &G,
) -> Result<(), Fail> {
    let ended = carry_out(rt, files, folder, "run @device", gate)?;
    assert!(rt; ended.err.held().is_empty());
    assert_eq!(rt; ended.status, Status::Good);
    let text = std::str::from_utf8(ended.out.held())?;
    let mut lines = text.lines();
    for want in RUN_LINES.split('/') {
        let want = want.replace(rt.alloc(), "@", folder)?;
        let Some(line) = lines.next() else {
            return Err("too few lines".into());
        };
        assert!(rt; line.starts_with(want.as_str()), "{line}");
    }
    assert!(rt; lines.next().is_none());
    Ok(())
}

pub fn no_files(alloc: Global) -> MemFiles {
    MemFiles::new(alloc, Vec::new(alloc), Vec::new(alloc))
}

// A gate that counts how often it is asked to wait.
#[derive(Drop)]
struct Patience {
    turns: AtomicU64,
}

impl Patience {
    fn new() -> Patience {
        Patience {
            turns: AtomicU64::new(0),
        }
    }

    // Waits until the count is reached, or all turns are used up.
    fn wait_for(&self, seen: &AtomicU64, count: u64) {
        for _ in 0..TURNS {
            if seen.load(Ordering::SeqCst) >= count {
                return;
            }
            if self.turns.fetch_add(1, Ordering::SeqCst) >= TURNS {
                return;
            }
            yield_now();
        }
    }

    fn is_left(&self) -> bool {
        self.turns.load(Ordering::SeqCst) < TURNS
    }
}

// Each application waits after its first entry for the measurer's first Copy, where the measurer waits until an
// application's second entry was made. That application waits there for a further Copy and for the other's second entry.
#[derive(Drop)]
struct TwoAtOnce {
    patience: Patience,
    copies: AtomicU64,
    first: AtomicU64,
    second: AtomicU64,
    // the applications that have made their second entry
    later: AtomicU64,
}

impl TwoAtOnce {
    fn made_by_app(&self, count: u64) {
        if count == 1 {
            self.patience.wait_for(&self.copies, 1);
        }
        if count == 2 {
            self.later.fetch_add(1, Ordering::SeqCst);
            self.patience.wait_for(&self.later, 2);
            self.patience.wait_for(&self.copies, 2);
        }
    }
}

// One more is counted; how many there are then.
fn count(seen: &AtomicU64) -> u64 {
    seen.fetch_add(1, Ordering::SeqCst).saturating_add(1)
}

impl Gate for TwoAtOnce {
    fn at(&self, actor: u32, spot: Spot) {
        let Spot::Made { kind, place: _ } = spot else {
            return;
        };
        match actor {
            0 if kind == MADE_COPY => {
                count(&self.copies);
                self.patience.wait_for(&self.later, 1);
            }
            0 => {}
            1 => self.made_by_app(count(&self.first)),
            _ => self.made_by_app(count(&self.second)),
        }
    }
}

#[test]
fn two_at_once(rt: HostRuntime) -> Result<(), Fail> {
    let mut files = no_files(rt.alloc());
    make_counters(&rt, &mut files, "")?;
    let gate = TwoAtOnce {
        patience: Patience::new(),
        copies: AtomicU64::new(0),
        first: AtomicU64::new(0),
        second: AtomicU64::new(0),
        later: AtomicU64::new(0),
    };
    run_counters(&rt, &mut files, "", &gate)?;
    assert!(rt; gate.patience.is_left());
    Ok(())
}

// Each application waits after its first entry until the measurer is about to hash block 0, where the measurer waits
// until an application's second entry was made.
#[derive(Drop)]
struct HashOutside {
    patience: Patience,
    hashing: AtomicU64,
    first: AtomicU64,
    second: AtomicU64,
    later: AtomicU64,
}

impl HashOutside {
    fn made_by_app(&self, count: u64) {
        if count == 1 {
            self.patience.wait_for(&self.hashing, 1);
        }
        if count == 2 {
            self.later.fetch_add(1, Ordering::SeqCst);
        }
    }
}

impl Gate for HashOutside {
    fn at(&self, actor: u32, spot: Spot) {
        match (actor, spot) {
            (0, Spot::Hashing { block: 0 }) => {
                count(&self.hashing);
                self.patience.wait_for(&self.later, 1);
            }
            (1, Spot::Made { kind: _, place: _ }) => self.made_by_app(count(&self.first)),
            (2, Spot::Made { kind: _, place: _ }) => self.made_by_app(count(&self.second)),
            _ => {}
        }
    }
}

#[test]
fn hash_outside(rt: HostRuntime) -> Result<(), Fail> {
    let mut files = no_files(rt.alloc());
    make_counters(&rt, &mut files, "")?;
    let gate = HashOutside {
        patience: Patience::new(),
        hashing: AtomicU64::new(0),
        first: AtomicU64::new(0),
        second: AtomicU64::new(0),
        later: AtomicU64::new(0),
    };
    run_counters(&rt, &mut files, "", &gate)?;
    assert!(rt; gate.patience.is_left());
    Ok(())
}

// The two other calls carry out their own words and no others.
#[test]
fn each_call_has_its_own_words(rt: HostRuntime) -> Result<(), Fail> {
    let alloc = rt.alloc();
    let mut files = no_files(alloc);
    make_counters(&rt, &mut files, "")?;
    for (line, by_run, by_still) in [
        ("run", Status::Usage, Status::Usage),
        ("run device", Status::Good, Status::Usage),
        ("run device device", Status::Usage, Status::Usage),
        ("image device code.img", Status::Usage, Status::Good),
    ] {
        let words = words_of(alloc, line, "")?;
        let mut input = MemSource::new(Vec::new(alloc), 16, Vec::new(alloc));
        let mut out = MemSink::new(alloc, 4096, 4096, Vec::new(alloc))?;
        let mut err = MemSink::new(alloc, 4096, 4096, Vec::new(alloc))?;
        let status = attest_run(
            &rt, alloc, &words, &mut files, &mut input, &mut out, &mut err, &NoGate,
        );
        assert_eq!(rt; status, by_run, "{line}");
        let status = attest_still(alloc, &words, &mut files, &mut input, &mut out, &mut err);
        assert_eq!(rt; status, by_still, "{line}");
    }
    Ok(())
}

// Two applications that store their stack pointers and exit: sw x2, 0(x2), addi a7, x0, 93 and ecall.
const FIRST_STORE: &str =
    ".segment 0x80000000\n.entry main\nmain: sw sp, 0(sp)\nli a7, 93\necall\n";

const SECOND_STORE: &str =
    ".segment 0x80000010\n.entry main\nmain: sw sp, 0(sp)\nli a7, 93\necall\n";

// A device that runs both, all of whose blocks are attested.
const STORES: &str =
    "base = 0x80000000\nblock = 16\nblocks = 4\nfirst = 0\nattested = 4\nkey = \"@key.bin\"\nlast = 0\ncap = 100\ntrace = \"@trace\"\nimages = [\"@end.img\"]\n[[app]]\nfile = \"@a.elf\"\nconsole = \"@a.out\"\nstack = 0x80000030\nfuel = 3\n[[app]]\nfile = \"@b.elf\"\nconsole = \"@b.out\"\nstack = 0x80000034\nfuel = 3\n[[challenge]]\nfile = \"@c1\"\nreport = \"@r1\"\nnote = \"@n1\"\n";

const TURNS_OF_STORES: &str = "0 1\n2 2\n0 4\n1 2\n0 1\n";

// All of its memory at the measurement's End: the second application has stored its stack pointer.
const END_IMAGE: &[u8] =
    b"\x23\x20\x21\x00\x93\x08\xd0\x05\x73\x00\x00\x00\x00\x00\x00\x00\x23\x20\x21\x00\x93\x08\xd0\x05\x73\x00\x00\x00\x00\x00\x00\x00\x00\x00\x00\x00\x00\x00\x00\x00\x00\x00\x00\x00\x00\x00\x00\x00\x00\x00\x00\x00\x34\x00\x00\x80\x00\x00\x00\x00\x00\x00\x00\x00";

// What `sched` prints of it.
const STORED: &str =
    "app 1 exit 0\napp 2 exit 0\nwaits 1 1\nwaits 2 0\nchallenge 1 report 1 9 166fe70fd9c4416332abe2143742ec7a2b3842804c53ae4d9a51462bc2270b9d\nverdict 1 accepted @end.img\nentries 14\n";

pub const STORED_TRACE: &str =
    "TMT1\nmemory 80000000 16 4\nattest 0 4\ncap 100\n232021009308d0057300000000000000232021009308d0057300000000000000\n0000000000000000000000000000000000000000000000000000000000000000\n0 start 4 1\n2 f 80000010 00212023\n2 s4 80000034 80000034\n0 copy 0\n0 copy 1\n0 copy 2\n0 copy 3\n1 f 80000000 00212023\n0 end\n1 s4 80000030 80000030\n2 f 80000014 05d00893\n1 f 80000004 05d00893\n2 f 80000018 00000073\n1 f 80000008 00000073\nend 14\n";

// A command ends with this status and prints this on standard output and standard error.
pub fn expect_printed<R: Threads + Wait + Sync + Abort + Alloc<A = Global>, F: Files>(
    rt: &R,
    files: &mut F,
    folder: &str,
    line: &str,
    want: (Status, &str, &str),
) -> Result<(), Fail> {
    let ended = carry_out(rt, files, folder, line, &NoGate)?;
    let printed = want.1.replace(rt.alloc(), "@", folder)?;
    let said = want.2.replace(rt.alloc(), "@", folder)?;
    assert_eq!(rt;
        std::str::from_utf8(ended.err.held())?,
        said.as_str(),
        "{line}"
    );
    assert_eq!(rt;
        std::str::from_utf8(ended.out.held())?,
        printed.as_str(),
        "{line}"
    );
    assert_eq!(rt; ended.status, want.0, "{line}");
    Ok(())
}

// A file of the folder has these bytes.
fn expect_file<F: Files>(
    rt: &(impl Abort + Alloc<A = Global>),
    files: &mut F,
    folder: &str,
    name: &str,
    want: &[u8],
) -> Result<(), Fail> {
    let path = format!(in rt.alloc(); "{folder}{name}")?;
    let path = path.as_str();
    assert!(rt; !path.is_empty() && path.len() <= 255);
    let Ok(bytes) = files.read(rt.alloc(), path, 4096) else {
        return Err("not read".into());
    };
    assert_eq!(rt; bytes.as_slice(), want, "{name}");
    Ok(())
}

// An assembler text and its executable, and a text that is refused; an executable of 12 bytes of code and its listing.
fn expect_executables<R: Threads + Wait + Sync + Abort + Alloc<A = Global>, F: Files>(
    rt: &R,
    files: &mut F,
    folder: &str,
) -> Result<(), Fail> {
    let two = ".segment 0x80000000\n.entry main\nmain: li a0, 0x12345FFF\necall\n";
    let wide = ".segment 0x80000000\n.entry main\naddi x1, x0, 2048\n";
    let entry = "entry 80000000 segments 1 bytes 12\n";
    let listing =
        "80000000 12346537 lui x10, 0x12346\n80000004 fff50513 addi x10, x10, -1\n80000008 00000073 ecall\n";
    write(rt, files, folder, "two.s", two)?;
    write(rt, files, folder, "wide.s", wide)?;
    for (line, want) in [
        ("asm @two.s @two.elf", (Status::Good, entry, "")),
        ("show @two.elf", (Status::Good, listing, "")),
        (
            "asm @wide.s @two.elf",
            (Status::BadInput, "", "attest: bad input @wide.s asm 3 6\n"),
        ),
        (
            "show @none",
            (Status::OutsideFault, "", "attest: outside fault\n"),
        ),
    ] {
        expect_printed(rt, files, folder, line, want)?;
    }
    Ok(())
}

// Two applications under a schedule.
pub fn expect_stores<R: Threads + Wait + Sync + Abort + Alloc<A = Global>, F: Files>(
    rt: &R,
    files: &mut F,
    folder: &str,
) -> Result<(), Fail> {
    write(rt, files, folder, "a.s", FIRST_STORE)?;
    write(rt, files, folder, "b.s", SECOND_STORE)?;
    write(rt, files, folder, "key.bin", "key")?;
    write(rt, files, folder, "device", STORES)?;
    write(rt, files, folder, "turns", TURNS_OF_STORES)?;
    for line in [
        "asm @a.s @a.elf",
        "asm @b.s @b.elf",
        "challenge @key.bin inc 0 0 1 000102030405060708090a0b0c0d0e0f @c1",
    ] {
        expect_status(rt, files, folder, line, Status::Good)?;
    }
    write_bytes(rt, files, folder, "end.img", END_IMAGE)?;
    let want = (Status::Good, STORED, "");
    expect_printed(rt, files, folder, "sched @device @turns", want)?;
    expect_file(rt, files, folder, "trace", STORED_TRACE.as_bytes())?;
    expect_file(rt, files, folder, "a.out", b"")
}

// The path of a new folder, with a slash behind it.
fn new_folder(rt: &HostRuntime) -> Result<String, Fail> {
    let alloc = rt.alloc();
    let temporary = env::temp_dir(rt)?;
    for number in 0..1000 {
        let path = format!(in alloc; "{}/attest_top_{number}", temporary.as_str())?;
        if fs::create_dir(rt, path.as_str()).is_ok() {
            return Ok(format!(in alloc; "{path}/")?);
        }
    }
    Err(Fail::from("no new folder"))
}

// Over files of the system each command reads the files that it names and no further one: a folder, say, would be a fault.
#[test]
fn real_files(rt: HostRuntime) -> Result<(), Fail> {
    let folder = new_folder(&rt)?;
    let folder = folder.as_str();
    let mut files = StdFiles::new(&rt);
    expect_executables(&rt, &mut files, folder)?;
    expect_stores(&rt, &mut files, folder)?;
    expect_checks(&rt, &mut files, folder)?;
    make_counters(&rt, &mut files, folder)?;
    run_counters(&rt, &mut files, folder, &NoGate)?;
    fs::remove_dir_all(&rt, folder)?;
    Ok(())
}
