//! Two ports on one thread, and on two.

ghost use Rattle.std.specs.Prelude.{◌≡◌, [], ◌∷◌, IfOk, IfSome, IsTrue, length};
ghost use Rattle.std.specs.Thread.{IsSync};
ghost use Rattle.history.specs.declared.events.Width.TheVariants.{Byte, Word};
ghost use Rattle.history.specs.declared.ranges.Range.{Range};
ghost use Rattle.history.specs.Layout.{fits};
ghost use Rattle.chronicle.specs.Ports.{IsApplication, IsMeasurer, OthersFollow};

use super::*;
use chronicle::{
    Act, BlockPort, Discipline, Entry, Geometry, MemPort, Range, Ranges, Read, Step, Stored, Width,
    World, answers_move_the_plan, order_by_plan,
};
use mem_core::MemCore;
use std::alloc::{AllocError, Global};
use std::sync::Wait;
use std::test::Fail;
use std::thread::{Threads, join};

/// The answers of a pass over one block, and of a store into it in the pass and after it.
#[derive(Clone, Copy)]
struct Row {
    steps: [Step; 3],
    stores: [Stored; 2],
}

/// Plays the row by any two ports. None where the history fills.
fn play<P: BlockPort, Q: MemPort>(
    measurer: &mut P,
    application: &mut Q,
    into: &mut [u8],
) -> Option<Row>
    requires measurer { IsMeasurer (P.low measurer.old) (P.high measurer.old) }
    requires application { IsApplication (Q.low application.old) (Q.high application.old) }
    requires none { P.seen measurer.old ≡ [] }
    requires one { let block : Range = record { first = 0; attested = 1 } in
        (P.world measurer.old).ranges ≡ block ∷ [] }
    requires room { length into.old ≡ (P.world measurer.old).layout.size }
    requires fits { IsTrue (fits (Q.world application.old).layout 2147483648 Byte) }
    ensures measurer { (P.owner measurer.new ≡ P.owner measurer.old)
        × (P.low measurer.new ≡ P.low measurer.old) × (P.high measurer.new ≡ P.high measurer.old) }
    ensures application { (Q.owner application.new ≡ Q.owner application.old)
        × (Q.low application.new ≡ Q.low application.old)
        × (Q.high application.new ≡ Q.high application.old) }
{
    answers_move_the_plan();
    order_by_plan();
    let started = measurer.start(Discipline::All, 8);
    let first = application.store(0x8000_0000, Width::Byte, 1);
    let Step::Done { .. } = started else {
        return None;
    };
    let copied = measurer.copy(0, into);
    let Step::Done { .. } = copied else {
        return None;
    };
    let ended = measurer.end();
    let second = application.store(0x8000_0000, Width::Byte, 1);
    Some(Row {
        steps: [started, copied, ended],
        stores: [first, second],
    })
}

/// Plays the row by two ports over one memory, and closes it.
fn play_shared<R: Wait>(
    rt: &R,
    memory: SharedMem,
    pass: Pass,
    into: &mut [u8],
) -> (Option<Row>, MemCore)
    requires cell { pass.cell ≡ memory }
    requires two { (pass.low ≡ 0) × (pass.high ≡ 2) × (memory.actors ≡ 2) }
    requires none { pass.seen ≡ [] }
    requires one { let block : Range = record { first = 0; attested = 1 } in
        memory.world.ranges ≡ block ∷ [] }
    requires room { length into.old ≡ memory.world.layout.size }
    requires fits { IsTrue (fits memory.world.layout 2147483648 Byte) }
    ensures { result.1.world ≡ memory.world }
{
    let mut first = pass;
    let second = memory.split(&mut first, 1);
    let mut measurer = Port::new(&memory, first, rt);
    let mut application = Port::new(&memory, second, rt);
    let row = play(&mut measurer, &mut application, into);
    let whole = memory.join(measurer.into_pass(), application.into_pass());
    (row, memory.close(whole))
}

/// Lets time go by so often. The places of the first and the last entry, and how many were made.
fn tick_often<P: BlockPort>(port: &mut P, times: u32) -> (u64, u64, u32)
    requires { IsMeasurer (P.low port.old) (P.high port.old) }
    ensures { (P.owner port.new ≡ P.owner port.old) × (P.low port.new ≡ P.low port.old)
        × (P.high port.new ≡ P.high port.old) }
{
    let mut first = 0;
    let mut last = 0;
    let mut made = 0;
    for _ in 0..times {
        if let Step::Done { place } = port.tick() {
            last = place;
            if made == 0 {
                first = place;
            }
            made += 1;
        }
    }
    (first, last, made)
}

/// The same with fetches.
fn fetch_often<P: MemPort>(port: &mut P, times: u32) -> (u64, u64, u32)
    requires actor { IsApplication (P.low port.old) (P.high port.old) }
    requires fits { IsTrue (fits (P.world port.old).layout 2147483648 Word) }
    ensures { (P.owner port.new ≡ P.owner port.old) × (P.low port.new ≡ P.low port.old)
        × (P.high port.new ≡ P.high port.old) }
{
    let mut first = 0;
    let mut last = 0;
    let mut made = 0;
    for _ in 0..times {
        if let Read::Done { place, .. } = port.fetch(0x8000_0000) {
            last = place;
            if made == 0 {
                first = place;
            }
            made += 1;
        }
    }
    (first, last, made)
}

/// What each thread had seen begins the closed history.
fn close_both(memory: SharedMem, left: Pass, right: Pass) -> MemCore
    requires left { (left.cell ≡ memory) × (left.low ≡ 0) }
    requires right { (right.cell ≡ memory) × (right.low ≡ left.high) × (right.high ≡ memory.actors) }
    ensures left { OthersFollow left.low left.high left.seen result.history }
    ensures right { OthersFollow right.low right.high right.seen result.history }
{
    let whole = memory.join(left, right);
    memory.close(whole)
}

/// One thread ticks, and one fetches.
fn tick_and_fetch<R: Threads + Wait + Sync>(
    rt: &R,
    memory: SharedMem,
    pass: Pass,
    times: u32,
) -> ((u64, u64, u32), (u64, u64, u32), MemCore)
    requires cell { pass.cell ≡ memory }
    requires two { (pass.low ≡ 0) × (pass.high ≡ 2) × (memory.actors ≡ 2) }
    requires fits { IsTrue (fits memory.world.layout 2147483648 Word) }
{
    let mut first = pass;
    let second = memory.split(&mut first, 1);
    let shared = &memory;
    let measurer = move || -> ((u64, u64, u32), Pass)
        requires { IsSync R.row × (first.cell ≡ shared.now) × (first.low ≡ 0) × (first.high ≡ 1) }
        ensures { (result.1.cell ≡ first.cell) × (result.1.low ≡ 0) × (result.1.high ≡ 1) }
    {
        let mut port = Port::new(shared, first, rt);
        let places = tick_often(&mut port, times);
        (places, port.into_pass())
    };
    let application = move || -> ((u64, u64, u32), Pass)
        requires { IsSync R.row × (second.cell ≡ shared.now) × (second.low ≡ 1) × (second.high ≡ 2)
            × IsTrue (fits shared.now.world.layout 2147483648 Word) }
        ensures { (result.1.cell ≡ second.cell) × (result.1.low ≡ 1) × (result.1.high ≡ 2) }
    {
        let mut port = Port::new(shared, second, rt);
        let places = fetch_often(&mut port, times);
        (places, port.into_pass())
    };
    let ((ticks, left), (fetches, right)) = join(rt, measurer, application);
    let core = close_both(memory, left, right);
    (ticks, fetches, core)
}

/// A memory of four blocks of 16 zero bytes from 0x80000000 on, of which the first is attested.
fn zeros(alloc: Global, cap: u64) -> Result<Option<World>, AllocError>
    ensures { let block : Range = record { first = 0; attested = 1 } in
        IfOk result (λ made. IfSome made (λ w. (w.ranges ≡ block ∷ [])
        × (w.layout.size ≡ 16) × IsTrue (fits w.layout 2147483648 Byte)
        × IsTrue (fits w.layout 2147483648 Word))) }
{
    let Some(geometry) = Geometry::new(0x8000_0000, 16, 4) else {
        return Ok(None);
    };
    if !geometry.fits(0x8000_0000, Width::Byte) || !geometry.fits(0x8000_0000, Width::Word) {
        return Ok(None);
    }
    let image = vec![in alloc; 0u8; 64]?;
    let block = Range {
        first: 0,
        attested: 1,
    };
    let Some(ranges) = Ranges::new(&[block]) else {
        return Ok(None);
    };
    match World::new(geometry, ranges, image, cap) {
        Some(world) => Ok(Some(world)),
        None => Ok(None),
    }
}

/// A measurement of one block beside an application whose store has to wait for its end.
#[test]
fn two_ports_on_one_thread(rt: HostRuntime) -> Result<(), Fail> {
    let alloc = rt.alloc();
    let Some(world) = zeros(alloc, 1000)? else {
        return Err("no world".into());
    };
    let core = MemCore::new(alloc, world)?;
    let Ok((memory, pass)) = SharedMem::new(alloc, core, 2) else {
        return Err("no memory".into());
    };
    let mut buffer = [9u8; 16];
    let (row, core) = play_shared(&rt, memory, pass, &mut buffer);
    let row = row.ok_or("the history filled")?;
    let done = |place| Step::Done { place };
    assert_eq!(rt; row.steps, [done(1), done(2), done(3)]);
    assert_eq!(rt;
        row.stores,
        [Stored::Again { place: 1 }, Stored::Done { place: 4 }]
    );
    assert_eq!(rt; buffer, [0u8; 16]);
    let entry = |actor, act| Entry { actor, act };
    let kept = core.into_chronicle();
    assert_eq!(rt;
        kept.entries(),
        [
            entry(
                0,
                Act::Start {
                    discipline: Discipline::All,
                    counter: 8
                }
            ),
            entry(0, Act::Copy { block: 0 }),
            entry(0, Act::End),
            entry(
                1,
                Act::Store {
                    addr: 0x8000_0000,
                    width: Width::Byte,
                    value: 1
                }
            ),
        ]
        .as_slice()
    );
    Ok(())
}

/// A thousand Ticks beside a thousand Fetches fill a history of two thousand entries.
#[test]
fn two_ports_on_two_threads(rt: HostRuntime) -> Result<(), Fail> {
    let alloc = rt.alloc();
    let Some(world) = zeros(alloc, 2000)? else {
        return Err("no world".into());
    };
    let core = MemCore::new(alloc, world)?;
    let Ok((memory, pass)) = SharedMem::new(alloc, core, 2) else {
        return Err("no memory".into());
    };
    let (ticks, fetches, core) = tick_and_fetch(&rt, memory, pass, 1000);
    let kept = core.into_chronicle();
    assert_eq!(rt; kept.length(), 2000);
    for ((first, last, made), actor) in [(ticks, 0u32), (fetches, 1)] {
        assert_eq!(rt; made, 1000);
        let own = kept.entries().iter().filter(|entry| entry.actor == actor);
        assert_eq!(rt; own.count(), 1000);
        for place in [first, last] {
            let entry = kept
                .entries()
                .get(place.saturating_sub(1) as usize)
                .ok_or("no entry")?;
            assert_eq!(rt; entry.actor, actor);
        }
    }
    Ok(())
}
