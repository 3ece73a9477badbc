//! Small programs over a core alone: turn by turn, and with the measurer's steps between.

ghost use Rattle.std.specs.Prelude.{◌≡◌, ◌%◌, IfOk};

use super::*;
use crate::busy::{Busy, step_over};
use att_base::{Gate, Spot};
use chronicle::{Geometry, MemPort, World};
use lock_plan::{Range, Ranges};
use mem_core::{Direct, MemCore};
use std::alloc::Global;
use std::cell::RefCell;
use std::process::Abort;
use std::sync::Wait;
use std::test::Fail;

const BASE: u32 = 0x8000_0000;

/// sw x2, 0(x2); addi a7, x0, 93; ecall; lw x1, 0(x2); and a word that is no instruction.
const PROGRAM: [u8; 20] = [
    0x23, 0x20, 0x21, 0x00, 0x93, 0x08, 0xd0, 0x05, 0x73, 0x00, 0x00, 0x00, 0x83, 0x20, 0x01, 0x00,
    0x00, 0x00, 0x00, 0x00,
];

/// Four blocks of 16 bytes with the program at their start, the last two of them attested.
fn core_of(rt: &impl Alloc<A = Global>, cap: u64) -> Result<MemCore, Fail> {
    let alloc = rt.alloc();
    let geometry = Geometry::new(BASE, 16, 4).ok_or("no geometry")?;
    let last_two = Range {
        first: 2,
        attested: 2,
    };
    let ranges = Ranges::new(&[last_two]).ok_or("no ranges")?;
    let mut image = vec![in alloc; 0u8; 64]?;
    image[..20].copy_from_slice(&PROGRAM);
    let world = World::new(geometry, ranges, image, cap).ok_or("no world")?;
    Ok(MemCore::new(alloc, world)?)
}

/// An application over the core's memory, with its stack in the last block.
fn app_over(core: &MemCore, entry: u32, fuel: u64) -> App
    requires { entry % 4 ≡ 0 }
    ensures { result.now.core.layout ≡ core.now.world.layout }
{
    App::new(core.world().geometry(), entry, BASE + 48, fuel)
}

/// One turn, as application 1.
fn turn_over(core: &mut MemCore, app: &mut App) -> Turn
    requires { app.old.now.core.layout ≡ core.old.world.layout }
    ensures { app.new.now.core.layout ≡ core.new.world.layout }
{
    app.turn(&mut Direct::new(core, 1))
}

/// Takes a turn for each that is awaited; None stands for a step of the measurer.
fn play(rt: &impl Abort, core: &mut MemCore, app: &mut App, events: &[Option<Turn>])
    requires { app.old.now.core.layout ≡ core.old.world.layout }
{
    for awaited in events {
        match *awaited {
            Some(turn) => assert_eq!(rt; turn_over(core, app), turn),
            None => assert!(rt; step_over(core).is_some()),
        }
    }
}

fn made(kind: u32, place: u64) -> Option<Turn> {
    Some(Turn::Made { kind, place })
}

fn full(place: u64) -> Option<Turn> {
    Some(Turn::Full { place })
}

fn over(ending: Ending) -> Option<Turn> {
    Some(Turn::Over(ending))
}

/// A store is asked again as long as its block is locked, and made once.
#[test]
fn turns_of_a_program(rt: HostRuntime) -> Result<(), Fail> {
    let exit = over(Ending::Exit(0));
    let again = |place| Some(Turn::Again { place });
    let turns = [
        made(1, 1),
        None,
        again(2),
        again(2),
        None,
        None,
        again(4),
        None,
        made(3, 6),
        made(1, 7),
        made(1, 8),
        exit,
        exit,
    ];
    let mut core = core_of(&rt, 1000)?;
    let mut app = app_over(&core, BASE, 3);
    play(&rt, &mut core, &mut app, &turns);
    assert_eq!(rt; core.length(), 8);
    assert_eq!(rt; app.next(), CoreWant::Ended(Ending::Exit(0)));
    assert!(rt; app.console().is_empty());
    Ok(())
}

/// A load and then a word that is no instruction; the last fetch; a full history before a store and before a fetch.
#[test]
fn turns_that_end(rt: HostRuntime) -> Result<(), Fail> {
    let trap = over(Ending::Trap(TrapKind::Illegal, BASE + 16));
    let fuel = over(Ending::Fuel);
    let cases: [(u64, u64, u8, &[Option<Turn>]); 5] = [
        (9, 9, 12, &[made(1, 1), made(2, 2), made(1, 3), trap]),
        (9, 1, 0, &[made(1, 1), made(3, 2), fuel, fuel]),
        (9, 0, 0, &[fuel]),
        (1, 9, 0, &[made(1, 1), full(1), full(1)]),
        (2, 9, 0, &[made(1, 1), made(3, 2), full(2), full(2)]),
    ];
    for (cap, fuel, offset, turns) in cases {
        let mut core = core_of(&rt, cap)?;
        let mut app = app_over(&core, BASE + u32::from(offset) / 4 * 4, fuel);
        play(&rt, &mut core, &mut app, turns);
    }
    Ok(())
}

/// A gate that keeps what it is told of an application: a kind or 9, and a place.
#[derive(Drop)]
struct Recorder {
    spots: RefCell<Vec<(u32, u64)>>,
}

impl Gate for Recorder {
    fn at(&self, actor: u32, spot: Spot) {
        let told = match spot {
            Spot::Made { kind, place } => (kind, place),
            Spot::Waits { place } => (9, place),
            Spot::Hashing { block } => (0, u64::from(block)),
        };
        if actor == 1
            && let Ok(mut spots) = self.spots.try_borrow_mut()
        {
            let _ = spots.push(told);
        }
    }
}

/// A whole run over the core alone.
fn run_alone<G: Gate, R: Wait>(rt: &R, core: &mut MemCore, app: &mut App, gate: &G) -> AppRun
    requires { app.old.now.core.layout ≡ core.old.world.layout }
{
    run_app(rt, &mut Direct::new(core, 1), app, gate)
}

/// A whole run with a step of the measurer before each access.
fn run_busy<G: Gate, R: Wait>(rt: &R, core: &mut MemCore, app: &mut App, gate: &G) -> AppRun
    requires { app.old.now.core.layout ≡ core.old.world.layout }
{
    run_app(rt, &mut Busy { core }, app, gate)
}

fn ended(ending: Ending, waits: u64, waited: Option<u64>) -> AppRun {
    AppRun {
        end: RunEnd::Ended(ending),
        waits,
        waited,
    }
}

/// What the gate is told of a run, and how the run went.
#[test]
fn runs_over_a_core(rt: HostRuntime) -> Result<(), Fail> {
    let trap = Ending::Trap(TrapKind::Illegal, BASE + 16);
    let full = |place| AppRun {
        end: RunEnd::Full { place },
        waits: 0,
        waited: None,
    };
    let cases: [(u64, u64, u8, AppRun, &[(u32, u64)]); 5] = [
        (
            9,
            3,
            0,
            ended(Ending::Exit(0), 0, None),
            &[(1, 1), (3, 2), (1, 3), (1, 4)],
        ),
        (9, 9, 12, ended(trap, 0, None), &[(1, 1), (2, 2), (1, 3)]),
        (
            9,
            2,
            0,
            ended(Ending::Fuel, 0, None),
            &[(1, 1), (3, 2), (1, 3)],
        ),
        (1, 9, 0, full(1), &[(1, 1)]),
        (2, 9, 0, full(2), &[(1, 1), (3, 2)]),
    ];
    for (cap, fuel, offset, run, told) in cases {
        let mut core = core_of(&rt, cap)?;
        let mut app = app_over(&core, BASE + u32::from(offset) / 4 * 4, fuel);
        let gate = Recorder {
            spots: RefCell::new(Vec::new(rt.alloc())),
        };
        assert_eq!(rt; run_alone(&rt, &mut core, &mut app, &gate), run);
        assert_eq!(rt; gate.spots.into_inner().as_slice(), told);
    }
    Ok(())
}

/// A store that waits twice is made once, and the last time counts.
#[test]
fn a_store_waits_for_a_pass(rt: HostRuntime) -> Result<(), Fail> {
    let mut core = core_of(&rt, 1000)?;
    let mut app = app_over(&core, BASE, 3);
    let gate = Recorder {
        spots: RefCell::new(Vec::new(rt.alloc())),
    };
    let run = ended(Ending::Exit(0), 2, Some(4));
    assert_eq!(rt; run_busy(&rt, &mut core, &mut app, &gate), run);
    let told: [(u32, u64); 6] = [(1, 2), (9, 3), (9, 4), (3, 6), (1, 8), (1, 10)];
    assert_eq!(rt; gate.spots.into_inner().as_slice(), told.as_slice());
    assert_eq!(rt; Busy { core: &mut core }.actor(), 1);
    Ok(())
}
