//! Runs whose answers were found by hand.

ghost use Rattle.std.specs.Prelude.{◌≡◌, ◌%◌, IsTrue, IfOk, All};
ghost use Rattle.challenge.specs.Challenges.{IsChallenge};
ghost use Rattle.device.specs.Turns.{first_state};

use super::*;
use block_memory::Geometry;
use challenge::Challenge;
use chronicle::{Act, Discipline, Entry, Width, World};
use listed::{Bytes, Items, Text};
use loader::Placed;
use lock_plan::{Range, Ranges};
use std::alloc::Global;
use std::process::Abort;
use std::test::Fail;

mod on_threads;

const BASE: u32 = 0x8000_0000;

/// sw x2, 0(x2); addi a7, x0, 93; ecall; and a word of zeros.
const PROGRAM: [u8; 16] = [
    0x23, 0x20, 0x21, 0x00, 0x93, 0x08, 0xd0, 0x05, 0x73, 0x00, 0x00, 0x00, 0x00, 0x00, 0x00, 0x00,
];

/// sw x1, 0(x2)
const STORE: [u8; 4] = [0x23, 0x20, 0x11, 0x00];

fn no_name(alloc: Global) -> Result<Text, Fail> {
    Ok(Text::from_str(alloc, "")?)
}

/// An application that begins with this stack pointer.
fn app(alloc: Global, stack: u32, fuel: u64) -> Result<AppPlan, Fail> {
    Ok(AppPlan {
        file: no_name(alloc)?,
        console: no_name(alloc)?,
        stack,
        fuel,
    })
}

/// Four blocks of 16 bytes, all attested.
fn plan(alloc: Global, apps: Vec<AppPlan>, cap: u64) -> Result<DevicePlan, Fail> {
    let all = Range {
        first: 0,
        attested: 4,
    };
    Ok(DevicePlan {
        geometry: Geometry::new(BASE, 16, 4).ok_or("no geometry")?,
        ranges: Ranges::new(&[all]).ok_or("no ranges")?,
        key: no_name(alloc)?,
        last: 0,
        cap,
        trace: no_name(alloc)?,
        images: Items::new(alloc),
        apps: Items::from_vec(apps),
        challenges: Items::new(alloc),
    })
}

fn challenge(discipline: Discipline, lead: u8) -> Challenge
    ensures { IsChallenge result }
{
    Challenge {
        discipline,
        lead: u32::from(lead),
        hold: 0,
        counter: 1,
        nonce: [0; 16],
    }
}

/// The addresses are those of words.
fn are_words(entries: &[u32]) -> bool
    ensures { IsTrue result → All (λ entry. entry % 4 ≡ 0) entries.now }
{
    for entry in entries {
        if entry % 4 != 0 {
            return false;
        }
    }
    true
}

/// The device of this plan, with one challenge.
fn device(
    alloc: Global,
    plan: &DevicePlan,
    image: Vec<u8>,
    entries: Vec<u32>,
    challenge: Challenge,
) -> Result<Device, Fail>
    requires { IsChallenge challenge }
    ensures { IfOk result (λ made. made.state ≡ first_state made.setup) }
{
    let copy = Vec::from_slice(alloc, &image)?;
    let Some(_) = World::new(plan.geometry, plan.ranges, copy, plan.cap) else {
        return Err("no world".into());
    };
    if plan.apps.is_empty() || plan.apps.len() > 8 || entries.len() != plan.apps.len() {
        return Err("no such applications".into());
    }
    if !are_words(&entries) {
        return Err("no such addresses".into());
    }
    let placed = Placed {
        image: Bytes::from_vec(image),
        entries: Items::from_vec(entries),
    };
    let admitted = vec![in alloc; challenge]?;
    Ok(Device::make(alloc, plan, placed, Vec::new(alloc), admitted)?)
}

/// Takes these turns, and compares each answer with the one that is awaited.
fn play(rt: &impl Abort, device: &mut Device, turns: &[(u32, Stepped)]) {
    for (actor, awaited) in turns {
        if *actor < device.actors() {
            assert_eq!(rt; device.step(*actor), *awaited);
        }
    }
}

/// What the run has come to, if all actors are done.
fn finished(device: Device) -> Result<Outcome, Fail> {
    if !device.all_over() {
        return Err("not over".into());
    }
    Ok(device.finish())
}

/// How an application ended, and how it waited.
fn expect_app(rt: &impl Abort, outcome: &Outcome, k: usize, awaited: AppRun) {
    let Some(end) = outcome.apps.get(k) else {
        assert!(rt; false);
        return;
    };
    assert_eq!(rt; end.run, awaited);
    assert!(rt; end.console.is_empty());
}

fn fetch(actor: u32, offset: u8, value: u32) -> Entry {
    let addr = BASE + u32::from(offset);
    let act = Act::Fetch { addr, value };
    Entry { actor, act }
}

/// sw x2, 0(x2)
fn store(actor: u32, offset: u8) -> Entry {
    let addr = BASE + u32::from(offset);
    let act = Act::Store {
        addr,
        width: Width::Word,
        value: addr,
    };
    Entry { actor, act }
}

fn measurer(act: Act) -> Entry {
    Entry { actor: 0, act }
}

/// Two applications under a challenge that locks what it has copied: the first one's store waits once.
#[test]
fn a_store_waits_for_end(rt: HostRuntime) -> Result<(), Fail> {
    let alloc = rt.alloc();
    let apps = vec![in alloc; app(alloc, BASE + 48, 3)?, app(alloc, BASE + 52, 3)?]?;
    let mut image = vec![in alloc; 0u8; 64]?;
    image[..16].copy_from_slice(&PROGRAM);
    image[16..32].copy_from_slice(&PROGRAM);
    let inc = challenge(Discipline::Inc, 0);
    let plan = plan(alloc, apps, 100)?;
    let mut device = device(alloc, &plan, image, vec![in alloc; BASE, BASE + 16]?, inc)?;
    assert_eq!(rt; device.actors(), 3);
    let again = Stepped::Again { place: 8 };
    let made = |place| Stepped::Made { place };
    let turns = [
        (0, made(1)),
        (2, made(2)),
        (2, made(3)),
        (0, made(4)),
        (0, made(5)),
        (0, made(6)),
        (0, made(7)),
        (1, made(8)),
        (1, again),
        (0, made(9)),
        (0, Stepped::Over),
        (1, made(10)),
        (2, made(11)),
        (0, Stepped::Over),
        (1, made(12)),
        (2, made(13)),
        (0, Stepped::Over),
        (1, made(14)),
        (2, Stepped::Over),
        (0, Stepped::Over),
        (1, Stepped::Over),
        (2, Stepped::Over),
    ];
    play(&rt, &mut device, &turns);
    let outcome = finished(device)?;
    let start = Act::Start {
        discipline: Discipline::Inc,
        counter: 1,
    };
    let entries = [
        measurer(start),
        fetch(2, 16, 0x0021_2023),
        store(2, 52),
        measurer(Act::Copy { block: 0 }),
        measurer(Act::Copy { block: 1 }),
        measurer(Act::Copy { block: 2 }),
        measurer(Act::Copy { block: 3 }),
        fetch(1, 0, 0x0021_2023),
        measurer(Act::End),
        store(1, 48),
        fetch(2, 20, 0x05d0_0893),
        fetch(1, 4, 0x05d0_0893),
        fetch(2, 24, 0x0000_0073),
        fetch(1, 8, 0x0000_0073),
    ];
    assert_eq!(rt; outcome.chronicle.entries(), entries.as_slice());
    let end = RunEnd::Ended(Ending::Exit(0));
    let waited = Some(8);
    expect_app(
        &rt,
        &outcome,
        0,
        AppRun {
            end,
            waits: 1,
            waited,
        },
    );
    let waited = None;
    expect_app(
        &rt,
        &outcome,
        1,
        AppRun {
            end,
            waits: 0,
            waited,
        },
    );
    let Some(PassEnd::Done { report, note: None }) = outcome.passes.get(0) else {
        return Err("not measured".into());
    };
    assert_eq!(rt; (report.start, report.end), (1, 9));
    Ok(())
}

/// A history that fills while the measurer copies: the measurer and the application are stopped.
#[test]
fn a_history_fills(rt: HostRuntime) -> Result<(), Fail> {
    let alloc = rt.alloc();
    let apps = vec![in alloc; app(alloc, BASE + 48, 1)?]?;
    let mut image = vec![in alloc; 0u8; 64]?;
    image[..4].copy_from_slice(&STORE);
    let all = challenge(Discipline::All, 12);
    let plan = plan(alloc, apps, 16)?;
    let mut device = device(alloc, &plan, image, vec![in alloc; BASE]?, all)?;
    for place in 1..15 {
        play(&rt, &mut device, &[(0, Stepped::Made { place })]);
    }
    let again = (1, Stepped::Again { place: 15 });
    let full = Stepped::Full { place: 16 };
    let turns = [
        (1, Stepped::Made { place: 15 }),
        again,
        again,
        again,
        again,
        (0, Stepped::Made { place: 16 }),
        (0, full),
        (0, Stepped::Over),
        (1, full),
        (1, Stepped::Over),
    ];
    play(&rt, &mut device, &turns);
    assert_eq!(rt; device.length(), 16);
    let outcome = finished(device)?;
    let end = RunEnd::Full { place: 16 };
    let waited = Some(15);
    expect_app(
        &rt,
        &outcome,
        0,
        AppRun {
            end,
            waits: 4,
            waited,
        },
    );
    let cut = PassEnd::Full { report: None };
    assert_eq!(rt; outcome.passes.get(0), Some(&cut));
    Ok(())
}
