//! What no clause says: that the calls succeed with ample memory, and where the first thing that is wrong is told.

ghost use Rattle.challenge.specs.Challenges.{IsChallenge};

use super::*;
use att_base::{MemFiles, NamedFile};
use challenge::{Challenge, Discipline};
use command_plans::Stop;
use std::alloc::{AllocError, Global};
use std::process::Abort;
use std::test::Fail;

// Four blocks of 16 bytes, of which the second and the last are attested; two applications and five challenges.
const DEVICE: &str =
    "base = 0x80000000\nblock = 16\nblocks = 4\nranges = [[1, 1], [3, 1]]\nkey = \"key\"\nlast = 4\ncap = 200\ntrace = \"t\"\nimages = [\"img\"]\n[[app]]\nfile = \"a.elf\"\nconsole = \"a\"\nstack = 0\nfuel = 9\n[[app]]\nfile = \"b.elf\"\nconsole = \"b\"\nstack = 0\nfuel = 9\n[[challenge]]\nfile = \"c5\"\nreport = \"r1\"\nnote = \"n1\"\n[[challenge]]\nfile = \"key\"\nreport = \"r2\"\nnote = \"n2\"\n[[challenge]]\nfile = \"c6.bad\"\nreport = \"r3\"\nnote = \"n3\"\n[[challenge]]\nfile = \"c5\"\nreport = \"r4\"\nnote = \"n4\"\n[[challenge]]\nfile = \"c6\"\nreport = \"r5\"\nnote = \"n5\"\n";

// An executable of twelve bytes at 0x80000000, where it begins.
const WORDS: [u8; 96] =
    *b"\x7f\x45\x4c\x46\x01\x01\x01\x00\x00\x00\x00\x00\x00\x00\x00\x00\x02\x00\xf3\x00\x01\x00\x00\x00\x00\x00\x00\x80\x34\x00\x00\x00\x00\x00\x00\x00\x00\x00\x00\x00\x34\x00\x20\x00\x01\x00\x00\x00\x00\x00\x00\x00\x01\x00\x00\x00\x54\x00\x00\x00\x00\x00\x00\x80\x00\x00\x00\x80\x0c\x00\x00\x00\x0c\x00\x00\x00\x07\x00\x00\x00\x01\x00\x00\x00\x37\x65\x34\x12\x13\x05\xf5\xff\x73\x00\x00\x00";

// The same at 0x80000000 and so many bytes, which begins at 0x80000000 and so many.
fn words_at(addr: u8, entry: u8) -> [u8; 96] {
    let mut file = WORDS;
    file[24] = entry;
    file[60] = addr;
    file
}

// A challenge with this counter.
fn asked(counter: u64) -> Challenge
    ensures { IsChallenge result }
{
    Challenge {
        discipline: Discipline::Inc,
        lead: 1,
        hold: 0,
        counter,
        nonce: [7; 16],
    }
}

// A file more.
fn put(
    alloc: Global,
    list: &mut Vec<NamedFile>,
    name: &str,
    bytes: &[u8],
) -> Result<(), AllocError> {
    let file = NamedFile::copied(alloc, name, bytes)?;
    list.push(file)?;
    Ok(())
}

// The challenges, of which the second and the last have the counter 6.
fn put_challenges(alloc: Global, list: &mut Vec<NamedFile>) -> Result<(), AllocError> {
    put(alloc, list, "c5", &challenge::write(&asked(5), b"key"))?;
    put(alloc, list, "c6", &challenge::write(&asked(6), b"key"))?;
    put(alloc, list, "c6.bad", &challenge::write(&asked(6), b"no"))
}

// The device file and the files that it names, and some others.
fn files_of(alloc: Global, device: &str) -> Result<MemFiles, AllocError> {
    let mut list = Vec::new(alloc);
    put(alloc, &mut list, "dev", device.as_bytes())?;
    put_challenges(alloc, &mut list)?;
    for (name, addr, entry) in [
        ("a.elf", 0, 0),
        ("b.elf", 16, 20),
        ("over", 4, 0),
        ("past", 60, 0),
        ("odd", 16, 62),
    ] {
        put(alloc, &mut list, name, &words_at(addr, entry))?;
    }
    for (name, text) in [
        ("key", "key"),
        ("none", ""),
        ("img", "0123456789abcdef0123456789abcdef"),
        ("plan", "0 5\n2 1\n"),
        ("plan.bad", "0 5\n3 1\n"),
    ] {
        put(alloc, &mut list, name, text.as_bytes())?;
    }
    Ok(MemFiles::new(alloc, list, Vec::new(alloc)))
}

fn setup(alloc: Global) -> Result<SetupFiles, Fail> {
    let mut files = files_of(alloc, DEVICE)?;
    match read_setup(alloc, &mut files, "dev") {
        Ok(setup) => Ok(setup),
        Err(_) => Err("a file isn't read".into()),
    }
}

#[test]
fn all_files_are_read(rt: HostRuntime) -> Result<(), Fail> {
    let setup = setup(rt.alloc())?;
    assert_eq!(rt; setup.key.as_slice(), b"key".as_slice());
    assert_eq!(rt;
        setup.placed.entries.as_slice(),
        [0x8000_0000, 0x8000_0014].as_slice()
    );
    assert_eq!(rt; (setup.placed.image.len(), setup.images.len()), (64, 1));
    let image = setup.placed.image.as_slice();
    assert_eq!(rt; image.get(16..28), WORDS.get(84..));
    assert_eq!(rt; image.get(12..16), Some([0; 4].as_slice()));
    Ok(())
}

#[test]
fn challenges_are_admitted_in_order(rt: HostRuntime) -> Result<(), Fail> {
    let setup = setup(rt.alloc())?;
    let want = [
        Admission::Admitted {
            challenge: asked(5),
            last: 4,
        },
        Admission::Malformed,
        Admission::BadMac,
        Admission::Stale { last: 5 },
        Admission::Admitted {
            challenge: asked(6),
            last: 5,
        },
    ];
    assert_eq!(rt; setup.admissions.as_slice(), want.as_slice());
    Ok(())
}

// What is said of a device file in which a text stands in place of another, and of a schedule.
fn said(alloc: Global, text: &str, other: &str, schedule: &str) -> Result<String, Fail> {
    if schedule.is_empty() || schedule.len() > 255 {
        return Err("no name".into());
    }
    let text = text.replace(alloc, "\\n", "\n")?;
    let device = DEVICE.replace(alloc, text.as_str(), other)?;
    let mut files = files_of(alloc, device.as_str())?;
    let line = match read_scheduled(alloc, &mut files, "dev", schedule) {
        Ok(read) => format!(in alloc; "{} runs\n", read.schedule.len())?,
        Err(Stop::Bad(line)) => line,
        Err(Stop::Absent) => String::from_str(alloc, "absent\n")?,
        Err(Stop::Fault) | Err(Stop::Memory) => return Err("the outside failed".into()),
    };
    Ok(line)
}

// Each row: a text of the device file, what stands in its place, the schedule, and what is said: the first thing that is
// wrong in the order in which files are read.
const ROWS: &str = "cap = 200|cap = 200|plan|2 runs
cap = 200|cap = 1|nowhere|attest: bad input dev device 9
cap = 200|cap = 200|plan.bad|attest: bad input plan.bad schedule 2
key = \"key\"|key = \"none\"|nowhere|absent
key = \"key\"|key = \"none\"|plan|attest: bad input none key 1
a.elf|nowhere|plan|absent
a.elf|c5|plan|attest: bad input c5 elf 2
b.elf|none|plan|attest: bad input none elf 1
b.elf|over|plan|attest: bad input dev place 2 2 0 1 0
b.elf|past|plan|attest: bad input dev place 1 2 0
b.elf|odd|plan|attest: bad input dev place 3 2
c6.bad|nowhere|plan|absent
images = [\"img\"]|images = [\"img\", \"img\"]|plan|attest: bad input img image 2
images = [\"img\"]|images = [\"plan\"]|plan|attest: bad input plan image 1
images = [\"img\"]|images = [\"nowhere\"]|plan|absent";

fn expect_row(rt: &impl Abort, alloc: Global, row: &str) -> Result<(), Fail> {
    let mut parts = row.split('|');
    let text = parts.next().ok_or("no text")?;
    let other = parts.next().ok_or("nothing else")?;
    let schedule = parts.next().ok_or("no schedule")?;
    let said = said(alloc, text, other, schedule)?;
    let said = said.as_str();
    assert_eq!(rt; said.strip_suffix('\n'), parts.next(), "{row}");
    Ok(())
}

#[test]
fn the_first_thing_that_is_wrong_is_told(rt: HostRuntime) -> Result<(), Fail> {
    for row in ROWS.split('\n') {
        expect_row(&rt, rt.alloc(), row)?;
    }
    Ok(())
}
