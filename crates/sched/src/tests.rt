//! Devices under schedules, and what each run comes to. The tags are those of another program's HMAC-SHA-256.

ghost use Rattle.std.specs.Prelude.{◌≡◌, ◌%◌, All, IfOk};
ghost use Rattle.device.specs.Turns.{first_state};

use super::*;
use app_thread::{AppRun, Ending, RunEnd};
use challenge::{Challenge, Discipline};
use chronicle::{Act, Entry, Width, World};
use device::{Device, Outcome, PassEnd};
use device_config::read_device;
use listed::{Bytes, Items};
use loader::Placed;
use report::{Note, Report};
use std::alloc::Global;
use std::process::Abort;
use std::test::Fail;

const NONCE: [u8; 16] = [0, 1, 2, 3, 4, 5, 6, 7, 8, 9, 10, 11, 12, 13, 14, 15];

// Four blocks of 16 bytes, all attested, and two applications, which store into the last block.
const TWO: &str =
    "base = 0x80000000\nblock = 16\nblocks = 4\nfirst = 0\nattested = 4\nkey = \"k\"\nlast = 0\ncap = 100\ntrace = \"t\"\nimages = []\n[[app]]\nfile = \"a\"\nconsole = \"a.out\"\nstack = 0x80000030\nfuel = 3\n[[app]]\nfile = \"b\"\nconsole = \"b.out\"\nstack = 0x80000034\nfuel = 3\n[[challenge]]\nfile = \"c\"\nreport = \"r\"\nnote = \"n\"\n";

// The same, but the second application stores into the first block.
const APART: &str =
    "base = 0x80000000\nblock = 16\nblocks = 4\nfirst = 0\nattested = 4\nkey = \"k\"\nlast = 0\ncap = 100\ntrace = \"t\"\nimages = []\n[[app]]\nfile = \"a\"\nconsole = \"a.out\"\nstack = 0x80000030\nfuel = 3\n[[app]]\nfile = \"b\"\nconsole = \"b.out\"\nstack = 0x80000000\nfuel = 3\n[[challenge]]\nfile = \"c\"\nreport = \"r\"\nnote = \"n\"\n";

// One application that may fetch once, in a history of 16 entries.
const SHORT: &str =
    "base = 0x80000000\nblock = 16\nblocks = 4\nfirst = 0\nattested = 4\nkey = \"k\"\nlast = 0\ncap = 16\ntrace = \"t\"\nimages = []\n[[app]]\nfile = \"a\"\nconsole = \"a.out\"\nstack = 0x80000030\nfuel = 1\n[[challenge]]\nfile = \"c\"\nreport = \"r\"\nnote = \"n\"\n";

// sw x2, 0(x2); addi x17, x0, 93; ecall
const STORES: &[u8] = b"\x23\x20\x21\x00\x93\x08\xd0\x05\x73\x00\x00\x00";

// sw x1, 0(x2)
const STORES_ZERO: &[u8] = b"\x23\x20\x11\x00";

fn challenge(discipline: Discipline, lead: u32, hold: u32, counter: u64) -> Challenge {
    Challenge {
        discipline,
        lead,
        hold,
        counter,
        nonce: NONCE,
    }
}

// The device of a device file, over this memory, with the key "key" and one challenge.
fn device_of(alloc: Global, file: &str, placed: Placed, asked: Challenge) -> Result<Device, Fail>
    requires aligned { All (λ entry. entry % 4 ≡ 0) placed.entries }
    ensures fresh { IfOk result (λ device. device.state ≡ first_state device.setup) }
{
    let Ok(plan) = read_device(alloc, file.as_bytes()) else {
        return Err("no device file".into());
    };
    let image = Vec::from_slice(alloc, placed.image.as_slice())?;
    if World::new(plan.geometry, plan.ranges, image, plan.cap).is_none() {
        return Err("no world".into());
    }
    if placed.entries.len() != plan.apps.len() {
        return Err("no address".into());
    }
    if !asked.is_valid() {
        return Err("no challenge".into());
    }
    let key = Vec::from_slice(alloc, b"key")?;
    let admitted = vec![in alloc; asked]?;
    Ok(Device::make(alloc, &plan, placed, key, admitted)?)
}

// Two applications at the first two blocks.
fn two_applications(alloc: Global, file: &str, asked: Challenge) -> Result<Device, Fail>
    ensures fresh { IfOk result (λ device. device.state ≡ first_state device.setup) }
{
    let mut image = vec![in alloc; 0u8; 64]?;
    image[..12].copy_from_slice(STORES);
    image[16..28].copy_from_slice(STORES);
    let entries = vec![in alloc; 0x8000_0000u32, 0x8000_0010]?;
    let placed = Placed {
        image: Bytes::from_vec(image),
        entries: Items::from_vec(entries),
    };
    device_of(alloc, file, placed, asked)
}

// One application at the first block.
fn one_application(alloc: Global, asked: Challenge) -> Result<Device, Fail>
    ensures fresh { IfOk result (λ device. device.state ≡ first_state device.setup) }
{
    let mut image = vec![in alloc; 0u8; 64]?;
    image[..4].copy_from_slice(STORES_ZERO);
    let entries = vec![in alloc; 0x8000_0000u32]?;
    let placed = Placed {
        image: Bytes::from_vec(image),
        entries: Items::from_vec(entries),
    };
    device_of(alloc, SHORT, placed, asked)
}

// The run of a fresh device under the schedule that a text says.
fn run_under(alloc: Global, device: Device, text: &[u8]) -> Result<Outcome, Fail>
    requires fresh { device.state ≡ first_state device.setup }
{
    let Ok(schedule) = read_schedule(alloc, text, device.actors() - 1) else {
        return Err("no schedule".into());
    };
    Ok(run_schedule(device, schedule.as_slice()))
}

// A digit for each entry: its actor.
fn actors(entries: &[Entry]) -> [u8; 20] {
    let mut digits = [b'.'; 20];
    for (digit, entry) in digits.iter_mut().zip(entries) {
        *digit = b"012345678"[(entry.actor % 9) as usize];
    }
    digits
}

// A letter for each entry, a Copy by its block.
fn acts(entries: &[Entry]) -> [u8; 20] {
    let mut letters = [b'.'; 20];
    for (letter, entry) in letters.iter_mut().zip(entries) {
        *letter = match entry.act {
            Act::Fetch { .. } => b'f',
            Act::Load { .. } => b'l',
            Act::Store { .. } => b's',
            Act::Start { .. } => b'S',
            Act::Copy { block } => b"01234567"[(block % 8) as usize],
            Act::End => b'E',
            Act::Tick => b'T',
            Act::Release => b'R',
        };
    }
    letters
}

fn fetch(actor: u32, addr: u32, value: u32) -> Entry {
    let act = Act::Fetch { addr, value };
    Entry { actor, act }
}

fn store(actor: u32, addr: u32, value: u32) -> Entry {
    let width = Width::Word;
    let act = Act::Store { addr, width, value };
    Entry { actor, act }
}

fn step(act: Act) -> Entry {
    Entry { actor: 0, act }
}

// The application has ended with status 0, and has waited so.
fn expect_ended(
    rt: &impl Abort,
    outcome: &Outcome,
    app: usize,
    waits: u64,
    waited: Option<u64>,
) -> Result<(), Fail> {
    let end = outcome.apps.get(app).ok_or("no such application")?;
    let exit = RunEnd::Ended(Ending::Exit(0));
    let run = AppRun {
        end: exit,
        waits,
        waited,
    };
    assert_eq!(rt; end.run, run);
    assert!(rt; end.console.is_empty());
    Ok(())
}

// The tag in hexadecimal digits.
fn tag(digits: &str) -> Result<[u8; 32], Fail> {
    let mut bytes = [0u8; 32];
    hex::decode_to_slice(digits.as_bytes(), &mut bytes).map_err(|_| "no tag")?;
    Ok(bytes)
}

// The report on the challenge, with Start and End at these places.
fn report(outcome: &Outcome, asked: &Challenge, start: u64, end: u64, tag: [u8; 32]) -> Report {
    let nonce = asked.nonce;
    Report {
        discipline: asked.discipline,
        counter: asked.counter,
        nonce,
        shape: outcome.chronicle.world().shape(),
        start,
        end,
        tag,
    }
}

// The one measurement has come to this report, and to this note.
fn expect_done(
    rt: &impl Abort,
    outcome: &Outcome,
    report: Report,
    note: Option<Note>,
) -> Result<(), Fail> {
    assert_eq!(rt; outcome.passes.len(), 1);
    let pass = outcome.passes.get(0).ok_or("no measurement")?;
    assert_eq!(rt; *pass, PassEnd::Done { report, note });
    Ok(())
}

#[test]
fn turns_are_taken_in_the_order_of_the_schedule(rt: HostRuntime) -> Result<(), Fail> {
    let asked = challenge(Discipline::Inc, 0, 0, 1);
    let device = two_applications(rt.alloc(), TWO, asked)?;
    let outcome = run_under(rt.alloc(), device, b"0 1\n2 2\n0 4\n1 2\n0 1\n")?;
    let discipline = Discipline::Inc;
    let history = [
        step(Act::Start {
            discipline,
            counter: 1,
        }),
        fetch(2, 0x8000_0010, 0x0021_2023),
        store(2, 0x8000_0034, 0x8000_0034),
        step(Act::Copy { block: 0 }),
        step(Act::Copy { block: 1 }),
        step(Act::Copy { block: 2 }),
        step(Act::Copy { block: 3 }),
        fetch(1, 0x8000_0000, 0x0021_2023),
        step(Act::End),
        store(1, 0x8000_0030, 0x8000_0030),
        fetch(2, 0x8000_0014, 0x05d0_0893),
        fetch(1, 0x8000_0004, 0x05d0_0893),
        fetch(2, 0x8000_0018, 0x0000_0073),
        fetch(1, 0x8000_0008, 0x0000_0073),
    ];
    assert_eq!(rt; outcome.chronicle.entries(), history.as_slice());
    expect_ended(&rt, &outcome, 0, 1, Some(8))?;
    expect_ended(&rt, &outcome, 1, 0, None)?;
    let digest = tag("166fe70fd9c4416332abe2143742ec7a2b3842804c53ae4d9a51462bc2270b9d")?;
    let report = report(&outcome, &asked, 1, 9, digest);
    expect_done(&rt, &outcome, report, None)
}

#[test]
fn a_full_history_stops_the_actors(rt: HostRuntime) -> Result<(), Fail> {
    let asked = challenge(Discipline::All, 12, 0, 1);
    let device = one_application(rt.alloc(), asked)?;
    let outcome = run_under(rt.alloc(), device, b"0 14\n1 5\n0 2\n")?;
    let entries = outcome.chronicle.entries();
    assert_eq!(rt; &actors(entries), b"0000000000000010....");
    assert_eq!(rt; &acts(entries), b"TTTTTTTTTTTTS0f1....");
    assert_eq!(rt; outcome.apps.len(), 1);
    let end = outcome.apps.get(0).ok_or("no application")?;
    let full = RunEnd::Full { place: 16 };
    let run = AppRun {
        end: full,
        waits: 4,
        waited: Some(15),
    };
    assert_eq!(rt; end.run, run);
    let pass = outcome.passes.get(0).ok_or("no measurement")?;
    assert_eq!(rt; *pass, PassEnd::Full { report: None });
    Ok(())
}

#[test]
fn rounds_alone_run_a_device_to_its_end(rt: HostRuntime) -> Result<(), Fail> {
    let asked = challenge(Discipline::Inc, 0, 0, 1);
    let device = two_applications(rt.alloc(), TWO, asked)?;
    let outcome = run_under(rt.alloc(), device, b"")?;
    let entries = outcome.chronicle.entries();
    assert_eq!(rt; &actors(entries), b"01201201201200......");
    assert_eq!(rt; &acts(entries), b"Sff0ss1ff2ff3E......");
    expect_ended(&rt, &outcome, 0, 0, None)?;
    expect_ended(&rt, &outcome, 1, 0, None)?;
    let digest = tag("6413314557c22dfd06677b62d1505da6c09178c40e4ed3469bdd1ecc27dbc19a")?;
    let report = report(&outcome, &asked, 1, 14, digest);
    expect_done(&rt, &outcome, report, None)
}

/// What the run under a discipline comes to, by the actors and acts of its history. Of the waits the last place is told,
/// and of a note the place of Release; 0 where there is none.
#[derive(Clone, Copy)]
struct Row {
    discipline: Discipline,
    actors: [u8; 20],
    acts: [u8; 20],
    first: (u64, u64),
    second: (u64, u64),
    end: u64,
    tag: &'static str,
    release: u64,
    note: &'static str,
}

const ROWS: [Row; 5] = [
    Row {
        discipline: Discipline::All,
        actors: *b"100002000121212.....",
        acts: *b"fTS01f23Essffff.....",
        first: (6, 8),
        second: (3, 8),
        end: 9,
        tag: "8c6fade35d2e529e1b3e402a7bae33ea130dfe65212a3062abc393a7fea6fa0d",
        release: 0,
        note: "",
    },
    Row {
        discipline: Discipline::AllExt,
        actors: *b"100002000000121212..",
        acts: *b"fTS01f23ETTRssffff..",
        first: (9, 11),
        second: (6, 11),
        end: 9,
        tag: "3a5fd0abf6934329bcf1fbbd370436fc5138a629d65e3a651e751b2e2e4c3bbb",
        release: 12,
        note: "f74bac06bc669538498f6c71a446e385638faac2271540ee4aee80a5fc8413f1",
    },
    Row {
        discipline: Discipline::Dec,
        actors: *b"100002202012011.....",
        acts: *b"fTS01fs2f3sfEff.....",
        first: (5, 7),
        second: (0, 0),
        end: 13,
        tag: "d68a79c9a28936d275681a6f5b831349523c91707f573950a8ad86763b95de2f",
        release: 0,
        note: "",
    },
    Row {
        discipline: Discipline::Inc,
        actors: *b"100111002000222.....",
        acts: *b"fTSsff01f23Esff.....",
        first: (0, 0),
        second: (3, 11),
        end: 12,
        tag: "86b554d82e7bf7fd4e23230df6ed43dd44dad437cea7b4bdee745a75e584a861",
        release: 0,
        note: "",
    },
    Row {
        discipline: Discipline::IncExt,
        actors: *b"100111002000000222..",
        acts: *b"fTSsff01f23ETTRsff..",
        first: (0, 0),
        second: (6, 14),
        end: 12,
        tag: "e192e2e509a8a2e8cf0f6bc97cd756ea999bfdbcf8db54b3381e2009c3887f8c",
        release: 15,
        note: "a61a0b0c9a64928cab2979c31b89dfc35921152435aaf3d2453ca97759dc5689",
    },
];

fn some_place(place: u64) -> Option<u64> {
    if place == 0 { None } else { Some(place) }
}

// The note of a row whose pass is released.
fn note_of(row: &Row) -> Result<Option<Note>, Fail> {
    if row.release == 0 {
        return Ok(None);
    }
    Ok(Some(Note {
        counter: 7,
        start: 3,
        end: row.end,
        release: row.release,
        tag: tag(row.note)?,
    }))
}

fn expect_row(rt: &(impl Abort + Alloc<A = Global>), row: &Row) -> Result<(), Fail> {
    let hold = if row.release == 0 { 0 } else { 2 };
    let asked = challenge(row.discipline, 1, hold, 7);
    let device = two_applications(rt.alloc(), APART, asked)?;
    let schedule = b"1 1\n0 2\n1 3\n0 2\n2 2\n1 2\n0 1\n2 1\n".as_slice();
    let outcome = run_under(rt.alloc(), device, schedule)?;
    let entries = outcome.chronicle.entries();
    assert_eq!(rt; actors(entries), row.actors);
    assert_eq!(rt; acts(entries), row.acts);
    expect_ended(rt, &outcome, 0, row.first.0, some_place(row.first.1))?;
    expect_ended(rt, &outcome, 1, row.second.0, some_place(row.second.1))?;
    let report = report(&outcome, &asked, 3, row.end, tag(row.tag)?);
    expect_done(rt, &outcome, report, note_of(row)?)
}

#[test]
fn stores_wait_as_the_discipline_says(rt: HostRuntime) -> Result<(), Fail> {
    for row in &ROWS {
        expect_row(&rt, row)?;
    }
    Ok(())
}
