ghost use Rattle.std.specs.Prelude.{◌≡◌, ◌+◌, ◌<◌, length, IfOk};

use super::*;
use block_memory::Geometry;
use challenge::{Challenge, Discipline};
use chronicle::Shape;
use image_set::ImageSet;
use lock_plan::{Range, Ranges};
use report::Report;
use std::alloc::Global;
use std::process::Abort;
use std::test::Fail;

const KEY: &[u8] = b"key";

const NONCE: [u8; 16] = [0, 1, 2, 3, 4, 5, 6, 7, 8, 9, 10, 11, 12, 13, 14, 15];

// Blocks 0 to 3 of 16 bytes.
fn shape() -> Result<Shape, Fail> {
    let ranges = Ranges::new(&[Range {
        first: 0,
        attested: 4,
    }])
    .ok_or("no ranges")?;
    Ok(Shape {
        base: 0x8000_0000,
        size: 16,
        ranges,
    })
}

const CHALLENGE: Challenge = Challenge {
    discipline: Discipline::All,
    lead: 0,
    hold: 0,
    counter: 7,
    nonce: NONCE,
};

// The right report on 64 zero bytes: the head, the places 1 and 6, and a tag from another implementation.
const REPORT: [u8; 96] =
    *b"\x54\x4d\x52\x31\x01\x00\x00\x00\x00\x00\x00\x00\x00\x00\x00\x07\x00\x01\x02\x03\x04\x05\x06\x07\x08\x09\x0a\x0b\x0c\x0d\x0e\x0f\x80\x00\x00\x00\x00\x00\x00\x10\x00\x00\x00\x00\x00\x00\x00\x04\x00\x00\x00\x00\x00\x00\x00\x01\x00\x00\x00\x00\x00\x00\x00\x06\x01\xf9\x2e\x63\x12\x2d\xaa\xa5\xac\xe2\xac\x8e\xc1\x07\x36\x12\x26\x2c\x1c\x47\x83\xe5\xe0\x50\xde\xd7\x0d\xf3\x1e\x70\xd1\xec";

// The tag of a report in All-Lock-Ext with counter 11, and the note on its release, from another
// implementation.
const HELD_TAG: [u8; 32] =
    *b"\x5a\xa5\x95\xa1\x2f\x2d\xec\x3a\xa0\x1b\xfb\x77\xd7\x19\x80\xdd\xb4\x6b\x63\x6d\x37\xa0\x57\xa4\x87\x68\xf8\xd6\x09\x0e\x14\xef";

const NOTE: [u8; 72] =
    *b"\x54\x4d\x4e\x31\x00\x00\x00\x00\x00\x00\x00\x00\x00\x00\x00\x0b\x00\x00\x00\x00\x00\x00\x00\x01\x00\x00\x00\x00\x00\x00\x00\x06\x00\x00\x00\x00\x00\x00\x00\x09\x48\x75\xfc\xbd\xe6\x7b\x4b\x67\x0f\x04\xf3\xda\xa0\xdc\xf7\x98\x06\xc0\x90\xeb\x63\x47\x24\x8f\xf5\x39\x92\xb9\xe8\x54\x71\x96";

fn held_report() -> Result<Report, Fail> {
    Ok(Report {
        discipline: Discipline::AllExt,
        counter: 11,
        nonce: NONCE,
        shape: shape()?,
        start: 1,
        end: 6,
        tag: HELD_TAG,
    })
}

fn add(set: &mut ImageSet, alloc: Global, name: &str, byte: u8) -> Result<(), Fail>
    requires { length set.old.images < 100 }
    ensures { IfOk result (λ _. (set.new.shape ≡ set.old.shape) × (length set.new.images ≡ length set.old.images + 1)) }
{
    let bytes = vec![in alloc; byte; 64]?;
    match set.add(name, bytes) {
        Ok(_) => Ok(()),
        Err(_) => Err("no image".into()),
    }
}

// Three images, of which the last two have zeros alone.
fn images(alloc: Global) -> Result<ImageSet, Fail>
    ensures { IfOk result (λ set. length set.images ≡ 3) }
{
    let mut set = ImageSet::new(alloc, shape()?);
    add(&mut set, alloc, "other.img", 1)?;
    add(&mut set, alloc, "good.img", 0)?;
    add(&mut set, alloc, "again.img", 0)?;
    Ok(set)
}

#[test]
fn the_right_report_is_accepted_once(rt: HostRuntime) -> Result<(), Fail> {
    let set = images(rt.alloc())?;
    let mut verifier = Verifier::new(KEY, CHALLENGE, 6, set.shape());
    let verdict = verifier.judge(&REPORT, &set);
    assert_eq!(rt; verdict, Verdict::Accepted { position: 1 });
    assert_eq!(rt; set.name(1), "good.img");
    assert_eq!(rt; verifier.last(), 7);
    let again = verifier.judge(&REPORT, &set);
    assert_eq!(rt; again, Verdict::Stale { last: 7 });
    assert_eq!(rt; verifier.last(), 7);
    Ok(())
}

// The verdict on the report where the byte at this place has these bits turned.
fn expect_turned(rt: &impl Abort, set: &ImageSet, place: usize, bits: u8, verdict: Verdict) {
    let mut report = REPORT;
    if let Some(byte) = report.get_mut(place) {
        *byte ^= bits;
    }
    let mut verifier = Verifier::new(KEY, CHALLENGE, 6, set.shape());
    assert_eq!(rt; verifier.judge(&report, set), verdict, "byte {place}");
    assert_eq!(rt; verifier.last(), 6, "byte {place}");
}

#[test]
fn each_change_of_a_report_is_seen(rt: HostRuntime) -> Result<(), Fail> {
    let set = images(rt.alloc())?;
    let places = [
        // The tag's first bit, End one entry early, the word, the discipline, a reserved byte.
        (64usize, 0x80u8, Verdict::UnknownMemory),
        (63, 3, Verdict::Malformed),
        (3, 1, Verdict::Malformed),
        (4, 2, Verdict::WrongChallenge),
        (7, 1, Verdict::Malformed),
        // The counter, the nonce, the base, the first block, fewer blocks.
        (15, 8, Verdict::WrongChallenge),
        (31, 1, Verdict::WrongChallenge),
        (32, 0x80, Verdict::WrongShape),
        (43, 1, Verdict::WrongShape),
        (47, 6, Verdict::WrongShape),
    ];
    for (place, bits, verdict) in places {
        expect_turned(&rt, &set, place, bits, verdict);
    }
    Ok(())
}

#[test]
fn other_lengths_keys_and_counters(rt: HostRuntime) -> Result<(), Fail> {
    let set = images(rt.alloc())?;
    let mut verifier = Verifier::new(KEY, CHALLENGE, 6, set.shape());
    assert_eq!(rt; verifier.judge(&REPORT[..95], &set), Verdict::Malformed);
    assert_eq!(rt; verifier.judge(&[], &set), Verdict::Malformed);
    assert_eq!(rt; verifier.last(), 6);
    let mut equal = Verifier::new(KEY, CHALLENGE, 7, set.shape());
    assert_eq!(rt; equal.judge(&REPORT, &set), Verdict::Stale { last: 7 });
    let mut greatest = Verifier::new(KEY, CHALLENGE, u64::MAX, set.shape());
    assert_eq!(rt;
        greatest.judge(&REPORT, &set),
        Verdict::Stale { last: u64::MAX }
    );
    let mut stranger = Verifier::new(b"kez", CHALLENGE, 6, set.shape());
    assert_eq!(rt; stranger.judge(&REPORT, &set), Verdict::UnknownMemory);
    let empty = ImageSet::new(rt.alloc(), set.shape());
    assert_eq!(rt; verifier.judge(&REPORT, &empty), Verdict::UnknownMemory);
    Ok(())
}

// The verdict on the note where the byte at this place has these bits turned.
fn expect_note(rt: &impl Abort, place: usize, bits: u8, verdict: NoteVerdict) -> Result<(), Fail> {
    let mut note = NOTE;
    if let Some(byte) = note.get_mut(place) {
        *byte ^= bits;
    }
    let verifier = Verifier::new(KEY, CHALLENGE, 6, shape()?);
    assert_eq!(rt;
        verifier.judge_note(&note, &held_report()?),
        verdict,
        "byte {place}"
    );
    Ok(())
}

#[test]
fn notes_are_on_one_report(rt: HostRuntime) -> Result<(), Fail> {
    // A place past the end changes nothing.
    for (place, bits, verdict) in [
        (72usize, 1u8, NoteVerdict::Accepted { release: 9 }),
        (3, 1, NoteVerdict::Malformed),
        (15, 1, NoteVerdict::WrongReport),
        (23, 3, NoteVerdict::WrongReport),
        (31, 1, NoteVerdict::WrongReport),
        (39, 1, NoteVerdict::WrongTag),
        (71, 1, NoteVerdict::WrongTag),
    ] {
        expect_note(&rt, place, bits, verdict)?;
    }
    let verifier = Verifier::new(KEY, CHALLENGE, 6, shape()?);
    let mut report = held_report()?;
    report.discipline = Discipline::All;
    assert_eq!(rt;
        verifier.judge_note(&NOTE, &report),
        NoteVerdict::WrongReport
    );
    Ok(())
}

const FILE: &str =
    "base = 0x80000000\nblock = 256\nblocks = 64\nfirst = 0\nattested = 16\nkey = \"key.bin\"\nlast = 5\nchallenge = \"c1.bin\"\nimages = [\"code.img\", \"old.img\"]\n";

#[test]
fn a_verifier_file_is_read(rt: HostRuntime) -> Result<(), Fail> {
    let plan = match read_verifier(rt.alloc(), FILE.as_bytes()) {
        Ok(plan) => plan,
        Err(_) => return Err("refused".into()),
    };
    assert_eq!(rt; Some(plan.geometry), Geometry::new(0x8000_0000, 256, 64));
    assert_eq!(rt; plan.ranges.count(), 1);
    assert_eq!(rt;
        plan.ranges.range(0),
        Range {
            first: 0,
            attested: 16
        }
    );
    assert_eq!(rt; plan.key.as_str(), "key.bin");
    assert_eq!(rt; plan.last, 5);
    assert_eq!(rt; plan.challenge.as_str(), "c1.bin");
    assert_eq!(rt; plan.images.len(), 2);
    let names = plan.images.as_slice();
    let last = names.last().ok_or("no image")?;
    assert_eq!(rt; last.as_str(), "old.img");
    Ok(())
}

// Each row: the rule that fails, a text of the file, and what stands in its place. 0: the file is read.
const ROWS: &str = "1|base = 0x80000000|base
5|first = 0\\nattested = 16|ranges = [[0, 8], [8, 4]]
6|first = 0|first = 0\\nranges = [[0, 8], [12, 4]]
8|last = 5|last = -1
8|last = 5\\nchallenge = \"c1.bin\"|last = -1
9|challenge = \"c1.bin\"|challenge = 1
9|challenge = \"c1.bin\"\\nimages = [\"code.img\", \"old.img\"]|images = []
10|images = [\"code.img\", \"old.img\"]|images = []
10|images = [\"code.img\", \"old.img\"]|images = [\"code.img\", \"\"]
0|images = [\"code.img\", \"old.img\"]|images = [\"code.img\"]
0|first = 0\\nattested = 16|ranges = [[0, 8], [12, 4]]
0|last = 5|last = 5\\ncap = \"none\"";

#[test]
fn each_rule_is_named_by_its_number(rt: HostRuntime) -> Result<(), Fail> {
    for row in ROWS.split('\n') {
        let mut parts = row.split('|');
        let rule = parts.next().ok_or("no rule")?;
        let text = parts
            .next()
            .ok_or("no text")?
            .replace(rt.alloc(), "\\n", "\n")?;
        let other = parts
            .next()
            .ok_or("nothing else")?
            .replace(rt.alloc(), "\\n", "\n")?;
        let file = FILE.replace(rt.alloc(), text.as_str(), other.as_str())?;
        let found = match read_verifier(rt.alloc(), file.as_bytes()) {
            Ok(_) => 0,
            Err(DeviceFault::Rule(number)) => number,
            Err(DeviceFault::Memory) => 99,
        };
        let found = found.to_string(rt.alloc())?;
        assert_eq!(rt; found.as_str(), rule, "{row}");
    }
    Ok(())
}

#[test]
fn at_most_64_images(rt: HostRuntime) -> Result<(), Fail> {
    for (count, rule) in [(64u32, None), (65, Some(DeviceFault::Rule(10)))] {
        let mut images = String::from_str(rt.alloc(), "images = [")?;
        for _ in 0..count {
            images.push_str("'i', ")?;
        }
        images.push_str("]")?;
        let file = FILE.replace(
            rt.alloc(),
            "images = [\"code.img\", \"old.img\"]",
            images.as_str(),
        )?;
        assert_eq!(rt; read_verifier(rt.alloc(), file.as_bytes()).err(), rule);
    }
    Ok(())
}
