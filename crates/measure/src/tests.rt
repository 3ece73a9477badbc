//! Measurements over a core alone, and with stores between the measuring steps. The tags are those of another
//! program's HMAC-SHA-256.

ghost use Rattle.std.specs.Prelude.{◌≡◌, ℕ, false, List, [], ◌∷◌};
ghost use Rattle.std.specs.Option.{IfSome};
ghost use Rattle.measure.specs.Measured.{HasMeasured};
ghost use Rattle.measure.specs.Stepping.{Stands, is_over};

use super::*;
use crate::busy::{Busy, disturb};
use crate::hashing::{Taker, hash_block};
use att_base::{Gate, NoGate, Spot};
use block_memory::Geometry;
use challenge::{Challenge, Discipline};
use chronicle::{Act, Shape, Step, World};
use lock_plan::{PlanStep, Range, Ranges};
use mem_core::{Direct, MemCore};
use report::{Note, Report, write_report};
use std::alloc::Global;
use std::cell::{Cell, RefCell};
use std::process::Abort;
use std::test::Fail;

const BASE: u32 = 0x8000_0000;

const NONCE: [u8; 16] = [0, 1, 2, 3, 4, 5, 6, 7, 8, 9, 10, 11, 12, 13, 14, 15];

// The tag in hexadecimal digits.
fn tag(digits: &str) -> Result<[u8; 32], Fail> {
    let mut bytes = [0u8; 32];
    hex::decode_to_slice(digits.as_bytes(), &mut bytes).map_err(|_| "no tag")?;
    Ok(bytes)
}

// So many blocks from the first on.
fn first_blocks(attested: u32) -> Result<Ranges, Fail> {
    let all = Range { first: 0, attested };
    Ok(Ranges::new(&[all]).ok_or("no ranges")?)
}

// Blocks 1, 2 and 5.
fn two_ranges() -> Result<Ranges, Fail> {
    let first = Range {
        first: 1,
        attested: 2,
    };
    let second = Range {
        first: 5,
        attested: 1,
    };
    Ok(Ranges::new(&[first, second]).ok_or("no ranges")?)
}

// A core over 8 blocks of 16 zero bytes from BASE on.
fn core_of(rt: &impl Alloc<A = Global>, ranges: Ranges, cap: u64) -> Result<MemCore, Fail> {
    let alloc = rt.alloc();
    let geometry = Geometry::new(BASE, 16, 8).ok_or("no geometry")?;
    let image = vec![in alloc; 0u8; 128]?;
    let world = World::new(geometry, ranges, image, cap).ok_or("no world")?;
    Ok(MemCore::new(alloc, world)?)
}

fn challenge(discipline: Discipline, lead: u32, hold: u32, counter: u64) -> Challenge {
    Challenge {
        discipline,
        lead,
        hold,
        counter,
        nonce: NONCE,
    }
}

fn report(challenge: &Challenge, ranges: Ranges, start: u64, end: u64, tag: [u8; 32]) -> Report {
    let nonce = challenge.nonce;
    Report {
        discipline: challenge.discipline,
        counter: challenge.counter,
        nonce,
        shape: Shape {
            base: BASE,
            size: 16,
            ranges,
        },
        start,
        end,
        tag,
    }
}

/// Measures over the core alone, if the challenge is valid and no pass is open. What the measurement says is then
/// a fact of the core's own history.
fn measure_alone<G: Gate>(core: &mut MemCore, challenge: &Challenge, gate: &G) -> Option<Measured>
    ensures measured { IfSome result (λ m. (key : List ℕ) → key ≡ 107 ∷ 101 ∷ 121 ∷ []
        → HasMeasured key core.old.world challenge.now core.old.history core.new.history m) }
{
    let mut buffer = [0u8; 16];
    if !challenge.is_valid() || core.next() != PlanStep::Start {
        return None;
    }
    if core.world().geometry().size() != 16 {
        return None;
    }
    Some(measure(
        &mut Direct::new(core, 0),
        b"key",
        challenge,
        &mut buffer,
        gate,
    ))
}

/// The same with an application that stores a word at this address before each step.
fn measure_busy<G: Gate>(
    core: &mut MemCore,
    addr: u32,
    challenge: &Challenge,
    gate: &G,
) -> Option<Measured> {
    let mut buffer = [0u8; 16];
    if !challenge.is_valid() || core.next() != PlanStep::Start {
        return None;
    }
    if core.world().geometry().size() != 16 {
        return None;
    }
    let mut port = Busy::new(core, addr);
    Some(measure(&mut port, b"key", challenge, &mut buffer, gate))
}

// One store of the application, and one turn of the measurer.
fn store_and_turn<G: Gate>(
    core: &mut MemCore,
    measuring: &mut Measuring,
    _challenge: &Challenge,
    addr: u32,
    value: u32,
    buffer: &mut [u8; 16],
    gate: &G,
) -> Step
    requires more { is_over measuring.old ≡ false }
    requires room { core.old.world.layout.size ≡ 16 }
    requires stands { Stands (107 ∷ 101 ∷ 121 ∷ []) core.old.world _challenge.now [] core.old.history measuring.old }
    ensures world { core.new.world ≡ core.old.world }
    ensures stands { Stands (107 ∷ 101 ∷ 121 ∷ []) core.new.world _challenge.now [] core.new.history measuring.new }
{
    measuring_stands();
    disturb(core, addr, value);
    measuring.turn(&mut Direct::new(core, 0), b"key", buffer, gate)
}

/// The same by turns, with the application's stores between them, from an empty history on.
fn measure_by_turns<G: Gate>(
    core: &mut MemCore,
    addr: u32,
    challenge: &Challenge,
    gate: &G,
) -> Option<Measured> {
    let mut buffer = [0u8; 16];
    if !challenge.is_valid() || core.length() != 0 {
        return None;
    }
    if core.world().geometry().size() != 16 {
        return None;
    }
    let mut measuring = Measuring::new(challenge);
    'turning: for value in 1..100 {
        if measuring.is_over() {
            break 'turning;
        }
        store_and_turn(
            core,
            &mut measuring,
            challenge,
            addr,
            value,
            &mut buffer,
            gate,
        );
    }
    let report = measuring.report()?;
    let note = measuring.note();
    Some(Measured::Done { report, note })
}

// The acts in order, a Copy by its block, others by a letter.
fn letters(core: MemCore) -> [u8; 12] {
    let kept = core.into_chronicle();
    let mut letters = [b'.'; 12];
    for (letter, entry) in letters.iter_mut().zip(kept.entries()) {
        *letter = match entry.act {
            Act::Fetch { .. } => b'f',
            Act::Load { .. } => b'l',
            Act::Store { .. } => b's',
            Act::Start { .. } => b'S',
            Act::Copy { block } => b"01234567"[(block % 8) as usize],
            Act::End => b'E',
            Act::Tick => b'T',
            Act::Release => b'R',
        };
    }
    letters
}

/// A gate that keeps what it is told: a kind with its place, or 0 and a block that is hashed.
#[derive(Drop)]
struct Recorder {
    spots: RefCell<Vec<(u32, u64)>>,
}

impl Gate for Recorder {
    fn at(&self, actor: u32, spot: Spot) {
        let told = match spot {
            Spot::Made { kind, place } => (kind, place),
            Spot::Waits { place } => (9, place),
            Spot::Hashing { block } => (0, u64::from(block)),
        };
        if actor == 0
            && let Ok(mut spots) = self.spots.try_borrow_mut()
        {
            let _ = spots.push(told);
        }
    }
}

#[test]
fn a_pass_over_two_ranges(rt: HostRuntime) -> Result<(), Fail> {
    let asked = challenge(Discipline::Dec, 0, 0, 1);
    let ranges = two_ranges()?;
    let mut core = core_of(&rt, ranges, 100)?;
    let gate = Recorder {
        spots: RefCell::new(Vec::new(rt.alloc())),
    };
    let digest = tag("fe4e39823f710934d142ef8969ed02993785dad6383d7f0acd1eed89b62c2bb9")?;
    let expected = report(&asked, ranges, 1, 5, digest);
    assert_eq!(rt;
        measure_alone(&mut core, &asked, &gate),
        Some(Measured::Done {
            report: expected,
            note: None,
        })
    );
    assert_eq!(rt; &letters(core), b"S125E.......");
    if expected.is_valid() {
        assert_eq!(rt; write_report(&expected).as_slice().len(), 108);
    }
    let spots = gate.spots.into_inner();
    let told: [(u32, u64); 8] = [
        (4, 1),
        (5, 2),
        (0, 1),
        (5, 3),
        (0, 2),
        (5, 4),
        (0, 5),
        (6, 5),
    ];
    assert_eq!(rt; spots.as_slice(), told.as_slice());
    Ok(())
}

/// Whoever looks on while a block is hashed: each thing that comes adds a digit.
#[derive(Drop)]
struct Onlooker {
    steps: Cell<u32>,
}

impl Gate for Onlooker {
    fn at(&self, _actor: u32, _spot: Spot) {
        self.steps
            .set(self.steps.get().wrapping_mul(10).wrapping_add(1));
    }
}

/// A taker that shows the onlooker that it takes something in.
#[derive(Drop)]
struct Shown<'a> {
    onlooker: &'a Onlooker,
}

impl Taker for Shown<'_> {
    ghost takes = { λ old new piece. Unit {0} };

    fn take(&mut self, _piece: &[u8]) {
        let steps = &self.onlooker.steps;
        steps.set(steps.get().wrapping_mul(10).wrapping_add(2));
    }
}

#[test]
fn a_block_is_hashed_after_the_gate_was_told(rt: HostRuntime) {
    let onlooker = Onlooker {
        steps: Cell::new(0),
    };
    hash_block(
        &mut Shown {
            onlooker: &onlooker,
        },
        3,
        b"bytes",
        &onlooker,
    );
    assert_eq!(rt; onlooker.steps.get(), 12);
}

#[test]
fn a_full_history_ends_the_program_early(rt: HostRuntime) -> Result<(), Fail> {
    let ranges = first_blocks(4)?;
    let asked = challenge(Discipline::Dec, 1, 0, 8);
    let mut core = core_of(&rt, ranges, 4)?;
    assert_eq!(rt;
        measure_alone(&mut core, &asked, &NoGate),
        Some(Measured::Full {
            place: 4,
            report: None,
        })
    );
    assert_eq!(rt; &letters(core), b"TS01........");

    let held = challenge(Discipline::AllExt, 0, 2, 11);
    let mut core = core_of(&rt, ranges, 7)?;
    let digest = tag("5aa595a12f2dec3aa01bfb77d71980ddb46b636d37a057a48768f8d6090e14ef")?;
    assert_eq!(rt;
        measure_alone(&mut core, &held, &NoGate),
        Some(Measured::Full {
            place: 7,
            report: Some(report(&held, ranges, 1, 6, digest)),
        })
    );
    assert_eq!(rt; &letters(core), b"S0123ET.....");
    Ok(())
}

#[test]
fn a_gate_is_told_of_no_refused_entry(rt: HostRuntime) -> Result<(), Fail> {
    let ranges = first_blocks(1)?;
    let asked = challenge(Discipline::AllExt, 1, 1, 11);
    let whole: [(u32, u64); 7] = [(7, 1), (4, 2), (5, 3), (0, 0), (6, 4), (7, 5), (8, 6)];
    for (cap, count) in [(1, 1), (2, 2), (3, 4), (4, 5), (5, 6), (6, 7)] {
        let told = Recorder {
            spots: RefCell::new(Vec::new(rt.alloc())),
        };
        let told_by_turns = Recorder {
            spots: RefCell::new(Vec::new(rt.alloc())),
        };
        let mut one = core_of(&rt, ranges, cap)?;
        let _ = measure_alone(&mut one, &asked, &told);
        // The address lies outside memory, so no store comes between.
        let mut other = core_of(&rt, ranges, cap)?;
        let _ = measure_by_turns(&mut other, 0, &asked, &told_by_turns);
        let spots = told.spots.into_inner();
        assert_eq!(rt; Some(spots.as_slice()), whole.get(..count), "of {cap}");
        assert_eq!(rt;
            told_by_turns.spots.into_inner().as_slice(),
            spots.as_slice()
        );
    }
    Ok(())
}

#[test]
fn stores_between_the_steps_change_no_instant(rt: HostRuntime) -> Result<(), Fail> {
    let ranges = first_blocks(4)?;

    // the last block holds 1 at Start, and is stored into again once it is copied
    let dec = challenge(Discipline::Dec, 0, 0, 8);
    let mut core = core_of(&rt, ranges, 100)?;
    let digest = tag("4f126a0e02a3d13d5d2c243199989efd230d331c28f3469b7448f4f0f8889a8b")?;
    assert_eq!(rt;
        measure_busy(&mut core, BASE + 48, &dec, &NoGate),
        Some(Measured::Done {
            report: report(&dec, ranges, 2, 8, digest),
            note: None,
        })
    );
    assert_eq!(rt; &letters(core), b"sS0123sE....");

    // it holds 5 when it is copied, and is locked from then on until End
    let inc = challenge(Discipline::Inc, 0, 0, 9);
    let mut core = core_of(&rt, ranges, 100)?;
    let digest = tag("691acf3b00ae130e138cd6a3666fcc02915c8c4ef307665b54bd9257f041b609")?;
    assert_eq!(rt;
        measure_busy(&mut core, BASE + 48, &inc, &NoGate),
        Some(Measured::Done {
            report: report(&inc, ranges, 2, 11, digest),
            note: None,
        })
    );
    assert_eq!(rt; &letters(core), b"sSs0s1s2s3E.");
    Ok(())
}

#[test]
fn stores_wait_until_release(rt: HostRuntime) -> Result<(), Fail> {
    let ranges = first_blocks(4)?;
    let asked = challenge(Discipline::AllExt, 0, 0, 11);
    let mut core = core_of(&rt, ranges, 100)?;
    let digest = tag("008ee6c580b2eefc50f80be1cf65d6b1a634fb802cd94dee87386d5571e62f9a")?;
    let released = tag("5d4160189dae2c1c01a57ccb3a456da24ef018d8eaa52271d120447d0e75f457")?;
    assert_eq!(rt;
        measure_busy(&mut core, BASE + 48, &asked, &NoGate),
        Some(Measured::Done {
            report: report(&asked, ranges, 2, 7, digest),
            note: Some(Note {
                counter: 11,
                start: 2,
                end: 7,
                release: 8,
                tag: released,
            }),
        })
    );
    assert_eq!(rt; &letters(core), b"sS0123ER....");
    Ok(())
}

#[test]
fn turns_make_the_same_measurement(rt: HostRuntime) -> Result<(), Fail> {
    use Discipline::{All, AllExt, Dec, Inc, IncExt};
    let ranges = two_ranges()?;
    for (discipline, hold) in [(All, 0), (AllExt, 2), (Dec, 0), (Inc, 0), (IncExt, 1)] {
        let asked = challenge(discipline, 1, hold, 8);
        let mut one = core_of(&rt, ranges, 100)?;
        let mut other = core_of(&rt, ranges, 100)?;
        let told = Recorder {
            spots: RefCell::new(Vec::new(rt.alloc())),
        };
        let told_by_turns = Recorder {
            spots: RefCell::new(Vec::new(rt.alloc())),
        };
        let whole = measure_busy(&mut one, BASE + 80, &asked, &told);
        assert!(rt; whole.is_some());
        assert_eq!(rt;
            measure_by_turns(&mut other, BASE + 80, &asked, &told_by_turns),
            whole
        );
        assert_eq!(rt;
            told_by_turns.spots.into_inner().as_slice(),
            told.spots.into_inner().as_slice()
        );
        assert_eq!(rt; letters(other), letters(one));
    }
    Ok(())
}

#[test]
fn the_machine_wants_the_program(rt: HostRuntime) -> Result<(), Fail> {
    use PassWant::{Copy, End, Over, Release, Start, Tick};
    let shape = Shape {
        base: BASE,
        size: 16,
        ranges: two_ranges()?,
    };
    let asked = challenge(Discipline::AllExt, 2, 1, 1);
    let mut wants = [Over; 10];
    if asked.is_valid() {
        let mut machine = PassMachine::new(&asked, &shape);
        for (step, want) in wants.iter_mut().enumerate() {
            if machine.is_over() {
                break;
            }
            *want = machine.want();
            machine.told(7 + step as u64);
        }
        assert_eq!(rt; (machine.start(), machine.end()), (9, 13));
    }
    assert_eq!(rt;
        wants,
        [
            Tick,
            Tick,
            Start,
            Copy(1),
            Copy(2),
            Copy(5),
            End,
            Tick,
            Release,
            Over
        ]
    );
    Ok(())
}
