//! What a core's owner learns of it after a run over any port, and events whose answers were found by hand.

ghost use Rattle.std.specs.Prelude.{◌≡◌, ◌^◌, ◌<◌, IsTrue, length, reverse};
ghost use Rattle.history.specs.declared.events.Act.TheVariants as act;
ghost use Rattle.history.specs.declared.events.Width.TheVariants.{Word};
ghost use Rattle.history.specs.Layout.{fits, is_aligned};
ghost use Rattle.history.specs.Pass.{pass_after};
ghost use Rattle.history.specs.Legal.{IsLegal, actor_fits, in_range, in_order};
ghost use Rattle.chronicle.specs.Ports.{HasStepped, IsApplication, IsMeasurer, KeepsPort, entry_by};
ghost use Rattle.mem_core.specs.Wants.{act_wanted, StoresWithin};

use super::*;
use block_memory::aligned;
use chronicle::{
    Act, BlockPort, Chronicled, Discipline, Entry, Geometry, MemPort, Read, Step, Stored, Width,
    World,
};
use lock_plan::{PlanStep, Range, Ranges};
use std::alloc::Global;
use std::process::Abort;
use std::test::Fail;

/// Lets time go by, over any port of the measurer.
fn wait_once<P: BlockPort>(port: &mut P) -> Step
    requires { IsMeasurer (P.low port.old) (P.high port.old) }
    ensures port { KeepsPort (P.owner port.old) (P.owner port.new) (P.world port.old) (P.world port.new)
        (P.low port.old) (P.low port.new) (P.high port.old) (P.high port.new) }
    ensures legal { IsLegal (P.world port.old) (P.seen port.new) }
    ensures answer { HasStepped (P.world port.old) (P.low port.old) (P.high port.old)
        (P.seen port.old) (P.seen port.new) act.Tick result }
{
    port.tick()
}

/// The owner of the core learns what the port has seen: the run's clauses speak of the core's history.
fn owner_learns(core: &mut MemCore) -> Step
    ensures world { core.new.world ≡ core.old.world }
    ensures legal { IsLegal core.new.world core.new.history }
    ensures answer { HasStepped core.old.world 0 1 core.old.history core.new.history act.Tick result }
{
    let mut port = Direct::new(core, 0);
    wait_once(&mut port)
}

/// How many entries any value that keeps a history has.
fn count_of<T: Chronicled>(kept: &T) -> u64
    ensures { result ≡ length (T.history kept.now) }
{
    kept.length()
}

/// An event that is asked for, and what is awaited of it.
#[derive(Clone, Copy)]
enum Event {
    /// A want of this actor.
    Act(u32, Want),
    /// A copy of this block, and the first and last byte that the buffer then has.
    Copy(u32, u8, u8),
}

/// The want may be asked now: its actor and its address fit, and it is in order.
fn may_ask(core: &MemCore, actor: u32, want: Want) -> bool
    ensures { IsTrue result
        → IsTrue (actor_fits (entry_by actor (act_wanted want 0)))
        × IsTrue (in_range core.now.world (act_wanted want 0))
        × StoresWithin want
        × IsTrue (in_order core.now.world (pass_after (reverse core.now.history)) (act_wanted want 0)) }
{
    let geometry = core.world().geometry();
    let application = actor >= 1 && actor <= 8;
    match want {
        Want::Fetch { addr } => {
            application && geometry.fits(addr, Width::Word) && aligned(addr, Width::Word)
        }
        Want::Load { addr, width } => {
            application && geometry.fits(addr, width) && aligned(addr, width)
        }
        Want::Store { addr, width, value } => {
            application && geometry.fits(addr, width) && aligned(addr, width) && small(width, value)
        }
        Want::Start { .. } => actor == 0 && core.next() == PlanStep::Start,
        Want::End => actor == 0 && core.next() == PlanStep::End,
        Want::Tick => actor == 0,
        Want::Release => actor == 0 && core.next() == PlanStep::Release,
    }
}

/// The value has no more than the width's bytes.
fn small(width: Width, value: u32) -> bool
    ensures { IsTrue result → StoresWithin (Want.Store 0 width value) }
{
    match width {
        Width::Byte => value < 256,
        Width::Half => value < 65536,
        Width::Word => true,
    }
}

/// Asks for the event, if it may be asked.
fn ask(core: &mut MemCore, actor: u32, want: Want) -> Option<Answer>
    ensures { core.new.world ≡ core.old.world }
{
    if !may_ask(core, actor, want) {
        return None;
    }
    Some(core.act(actor, want))
}

/// Copies the block, if it comes next.
fn ask_copy(core: &mut MemCore, block: u32, into: &mut [u8]) -> Option<Answer>
    ensures { core.new.world ≡ core.old.world }
{
    if core.next() != PlanStep::Copy(block)
        || core.world().geometry().size() as usize != into.len()
    {
        return None;
    }
    Some(core.copy(block, into))
}

/// Makes the events, and compares each answer with the one that is awaited.
fn play(rt: &impl Abort, core: &mut MemCore, events: &[(Event, Answer)]) {
    for (asked, awaited) in events {
        let mut buffer = [9u8; 16];
        match *asked {
            Event::Act(actor, want) => {
                assert_eq!(rt; ask(core, actor, want), Some(*awaited));
            }
            Event::Copy(block, first, last) => {
                assert_eq!(rt; ask_copy(core, block, &mut buffer), Some(*awaited));
                assert_eq!(rt; (buffer[0], buffer[15]), (first, last));
            }
        }
    }
}

/// What is asked and answered, in short.
fn begin(discipline: Discipline) -> Event {
    let counter = 8;
    Event::Act(
        0,
        Want::Start {
            discipline,
            counter,
        },
    )
}

fn put(addr: u32, width: Width, value: u32) -> Event {
    Event::Act(1, Want::Store { addr, width, value })
}

fn get(addr: u32, width: Width) -> Event {
    Event::Act(8, Want::Load { addr, width })
}

fn fetch(addr: u32) -> Event {
    Event::Act(2, Want::Fetch { addr })
}

fn step(want: Want) -> Event {
    Event::Act(0, want)
}

fn done(place: u64) -> Answer {
    Answer::Done { value: 0, place }
}

fn read(value: u32, place: u64) -> Answer {
    Answer::Done { value, place }
}

fn again(place: u64) -> Answer {
    Answer::Again { place }
}

fn full(place: u64) -> Answer {
    Answer::Full { place }
}

/// A core over eight blocks of 16 zero bytes from 0x80000000 on, of which blocks 1, 2 and 5 are attested.
fn core_of(rt: &impl Alloc<A = Global>, cap: u64) -> Result<MemCore, Fail> {
    let alloc = rt.alloc();
    let geometry = Geometry::new(0x8000_0000, 16, 8).ok_or("no geometry")?;
    let list = [
        Range {
            first: 1,
            attested: 2,
        },
        Range {
            first: 5,
            attested: 1,
        },
    ];
    let ranges = Ranges::new(&list).ok_or("no ranges")?;
    let image = vec![in alloc; 0u8; geometry.byte_count() as usize]?;
    let world = World::new(geometry, ranges, image, cap).ok_or("no world")?;
    Ok(MemCore::new(alloc, world)?)
}

/// A store before, in and after a pass: a locked block is Again, and no other, least of all one between two ranges. An
/// extended discipline holds its locks past End, until Release.
#[test]
fn a_pass_goes_over_two_ranges(rt: HostRuntime) -> Result<(), Fail> {
    let first = 0x8000_0010;
    let last = 0x8000_0050;
    let dec = [
        (put(0x8000_0020, Width::Word, 7), done(1)),
        (begin(Discipline::Dec), done(2)),
        (put(0x8000_0030, Width::Byte, 1), done(3)),
        (Event::Copy(1, 0, 0), done(4)),
        (put(first, Width::Word, 0x1111_1111), done(5)),
        (put(last, Width::Word, 0x2222_2222), again(5)),
        (Event::Copy(2, 7, 0), done(6)),
        (Event::Copy(5, 0, 0), done(7)),
        (put(last, Width::Word, 0x2222_2222), done(8)),
        (step(Want::End), done(9)),
        (get(first, Width::Word), read(0x1111_1111, 10)),
    ];
    let inc_ext = [
        (put(first, Width::Half, 0x0201), done(1)),
        (begin(Discipline::IncExt), done(2)),
        (put(first, Width::Byte, 4), done(3)),
        (Event::Copy(1, 4, 0), done(4)),
        (put(first, Width::Byte, 5), again(4)),
        (put(last, Width::Byte, 9), done(5)),
        (Event::Copy(2, 0, 0), done(6)),
        (Event::Copy(5, 9, 0), done(7)),
        (step(Want::End), done(8)),
        (put(first, Width::Byte, 5), again(8)),
        (step(Want::Release), done(9)),
        (put(first, Width::Byte, 5), done(10)),
        (fetch(first), read(0x0205, 11)),
    ];
    for events in [dec.as_slice(), inc_ext.as_slice()] {
        let mut core = core_of(&rt, 1000)?;
        play(&rt, &mut core, events);
        assert_eq!(rt; count_of(&core), core.length());
    }
    Ok(())
}

/// A full history is Full before it is Again.
#[test]
fn a_history_has_its_cap(rt: HostRuntime) -> Result<(), Fail> {
    let mut core = core_of(&rt, 3)?;
    let three_entries = [
        (step(Want::Tick), done(1)),
        (begin(Discipline::All), done(2)),
        (put(0x8000_0010, Width::Byte, 1), again(2)),
        (step(Want::Tick), done(3)),
        (put(0x8000_0010, Width::Byte, 1), full(3)),
        (step(Want::Tick), full(3)),
        (Event::Copy(1, 9, 9), full(3)),
    ];
    play(&rt, &mut core, &three_entries);

    let kept = core.into_chronicle();
    let ticks = Entry {
        actor: 0,
        act: Act::Tick,
    };
    assert_eq!(rt; kept.length(), 3);
    assert_eq!(rt; kept.entries().last(), Some(&ticks));
    Ok(())
}

/// The next step of the measurer, by its port. None where the buffer isn't as long as a block.
fn take_next(core: &mut MemCore, into: &mut [u8]) -> Option<Step>
    ensures { core.new.world ≡ core.old.world }
{
    if core.world().geometry().size() as usize != into.len() {
        return None;
    }
    Some(match core.next() {
        PlanStep::Start => Direct::new(core, 0).start(Discipline::AllExt, 1),
        PlanStep::Copy(block) => Direct::new(core, 0).copy(block, into),
        PlanStep::End => Direct::new(core, 0).end(),
        PlanStep::Release => Direct::new(core, 0).release(),
    })
}

/// One of each access over any port of an application.
fn access_word<P: MemPort>(port: &mut P, addr: u32) -> (u32, Read, Stored, Read)
    requires actor { IsApplication (P.low port.old) (P.high port.old) }
    requires fits { IsTrue (fits (P.world port.old).layout addr Word) }
    requires aligned { IsTrue (is_aligned addr Word) }
    ensures legal { IsLegal (P.world port.old) (P.seen port.new) }
{
    let fetched = port.fetch(addr);
    let stored = port.store(addr, Width::Word, 0x0102_0304);
    (port.actor(), fetched, stored, port.load(addr, Width::Word))
}

/// The same over a core, if the address fits.
fn access_core(core: &mut MemCore, addr: u32) -> Option<(u32, Read, Stored, Read)> {
    if !core.world().geometry().fits(addr, Width::Word) || !aligned(addr, Width::Word) {
        return None;
    }
    Some(access_word(&mut Direct::new(core, 8), addr))
}

#[test]
fn both_ports_work_over_one_core(rt: HostRuntime) -> Result<(), Fail> {
    let mut core = core_of(&rt, 20)?;
    let mut buffer = [6u8; 16];
    for place in 1..=6 {
        assert_eq!(rt;
            take_next(&mut core, &mut buffer),
            Some(Step::Done { place })
        );
    }
    assert_eq!(rt; buffer, [0u8; 16]);
    assert_eq!(rt;
        wait_once(&mut Direct::new(&mut core, 0)),
        Step::Done { place: 7 }
    );
    assert_eq!(rt; owner_learns(&mut core), Step::Done { place: 8 });
    let accessed = access_core(&mut core, 0x8000_0000).ok_or("no access")?;
    let read = |value, place| Read::Done { value, place };
    assert_eq!(rt; accessed.0, 8);
    assert_eq!(rt; accessed.1, read(0, 9));
    assert_eq!(rt; accessed.2, Stored::Done { place: 10 });
    assert_eq!(rt; accessed.3, read(0x0102_0304, 11));
    Ok(())
}
