//! A diary behind a cell: turns on one thread, and on nine.

ghost use Rattle.std.specs.Prelude.{◌≡◌, ◌<◌, ◌∷◌, [], ◌++◌, IfOk, MatchBool};
ghost use Rattle.std.specs.Thread.{IsSync};
ghost use Rattle.history.specs.declared.events.Act.TheVariants as act;
ghost use Rattle.chronicle.specs.Ports.{OthersFollow, entry_by};

use super::*;
use chronicle::{Act, Chronicled, Entry, Geometry, Range, Ranges, World};
use std::alloc::{AllocError, Global};
use std::hint::spin_loop;
use std::sync::Wait;
use std::test::Fail;
use std::thread::{Threads, join};

/// What nine threads do.
#[derive(Clone, Copy, Drop)]
struct Work {
    /// How many turns each makes.
    turns: u32,
    /// For how many pauses actor 0 holds each of its turns.
    hold: u32,
    /// For how many pauses each other actor waits before its first turn.
    late: u32,
}

/// A list of entries of a world. It needn't be legal.
#[derive(Drop)]
struct Diary {
    world: World,
    entries: Vec<Entry>,
}

impl Chronicled for Diary {
    ghost world = { λ d. d.world };

    ghost history = { λ d. d.entries.items };

    fn length(&self) -> u64 {
        self.entries.len() as u64
    }
}

impl Diary {
    /// Writes an entry of this actor. False where there is no memory.
    fn note(&mut self, actor: u32) -> bool
        ensures world { self.new.world ≡ self.old.world }
        ensures entry { MatchBool result
            (self.new.entries.items ≡ self.old.entries.items ++ entry_by actor act.Tick ∷ [])
            (self.new.entries.items ≡ self.old.entries.items) }
    {
        let act = Act::Tick;
        match self.entries.push(Entry { actor, act }) {
            Ok(()) => true,
            Err(_) => false,
        }
    }
}

/// Lets time go by.
fn wait_for(pauses: u32) {
    for _ in 0..pauses {
        spin_loop();
    }
}

/// One turn, in which the first actor of the pass writes an entry and then holds the turn for so many pauses.
fn note_once<R: Wait>(rt: &R, cell: &TurnCell<Diary>, pass: Pass, pauses: u32) -> Pass
    requires { pass.cell ≡ cell.now }
    ensures { (result.cell ≡ pass.cell) × (result.low ≡ pass.low) × (result.high ≡ pass.high) }
{
    let actor = pass.low();
    let mut turn = cell.enter(rt, pass);
    let _noted = turn.value().note(actor);
    wait_for(pauses);
    cell.leave(turn)
}

/// The turns of one actor.
fn note_often<R: Wait>(rt: &R, cell: &TurnCell<Diary>, pass: Pass, work: Work) -> Pass
    requires { pass.cell ≡ cell.now }
    ensures { (result.cell ≡ pass.cell) × (result.low ≡ pass.low) × (result.high ≡ pass.high) }
{
    let is_first = pass.low() == 0;
    wait_for(if is_first { 0 } else { work.late });
    let mut pass = pass;
    for _ in 0..work.turns {
        pass = note_once(rt, cell, pass, if is_first { work.hold } else { 0 });
    }
    pass
}

/// The turns of all actors of a range, each in a thread of its own.
fn note_all<R: Threads + Wait + Sync>(
    rt: &R,
    cell: &TurnCell<Diary>,
    pass: Pass,
    work: Work,
) -> Pass
    requires sync { IsSync R.row }
    requires cell { pass.cell ≡ cell.now }
    requires some { pass.low < pass.high }
    ensures { (result.cell ≡ pass.cell) × (result.low ≡ pass.low) × (result.high ≡ pass.high) }
{
    let count = pass.high() - pass.low();
    if count == 1 {
        return note_often(rt, cell, pass, work);
    }
    let middle = pass.low() + count / 2;
    let mut first = pass;
    let second = cell.split(&mut first, middle);
    let lower = move || -> Pass
        requires { IsSync R.row × (first.cell ≡ cell.now) × (first.low < first.high) }
        ensures { (result.cell ≡ first.cell) × (result.low ≡ first.low) × (result.high ≡ first.high) }
    { note_all(rt, cell, first, work) };
    let upper = move || -> Pass
        requires { IsSync R.row × (second.cell ≡ cell.now) × (second.low < second.high) }
        ensures { (result.cell ≡ second.cell) × (result.low ≡ second.low) × (result.high ≡ second.high) }
    { note_all(rt, cell, second, work) };
    let (left, right) = join(rt, lower, upper);
    cell.join(left, right)
}

/// The end of two passes' turns: what each had seen begins the diary.
fn close_both(cell: TurnCell<Diary>, left: Pass, right: Pass) -> Diary
    requires left { (left.cell ≡ cell) × (left.low ≡ 0) }
    requires right { (right.cell ≡ cell) × (right.low ≡ left.high) × (right.high ≡ cell.actors) }
    ensures left { OthersFollow left.low left.high left.seen result.entries.items }
    ensures right { OthersFollow right.low right.high right.seen result.entries.items }
{
    let whole = cell.join(left, right);
    cell.close(whole)
}

/// An empty diary of a small world.
fn empty_diary(rt: &impl Alloc<A = Global>) -> Result<Diary, Fail>
    ensures { IfOk result (λ diary. diary.entries.items ≡ []) }
{
    let geometry = Geometry::new(0x1000, 16, 1).ok_or("no geometry")?;
    let image = vec![in rt.alloc(); 0u8; 16]?;
    let block = Range {
        first: 0,
        attested: 1,
    };
    let ranges = Ranges::new(&[block]).ok_or("no ranges")?;
    let world = World::new(geometry, ranges, image, 4_000_000).ok_or("no world")?;
    let entries = Vec::new(rt.alloc());
    Ok(Diary { world, entries })
}

/// The actors of the entries, in their order.
fn actors_of(alloc: Global, diary: &Diary) -> Result<Vec<u32>, AllocError> {
    diary.entries.iter().map(|entry| entry.actor).collect(alloc)
}

#[test]
fn turns_follow_one_another(rt: HostRuntime) -> Result<(), Fail> {
    let alloc = rt.alloc();
    let Ok((cell, mut first)) = TurnCell::new(alloc, empty_diary(&rt)?, 3) else {
        return Err("no memory".into());
    };
    assert_eq!(rt; (first.low(), first.high()), (0, 3));
    let mut second = cell.split(&mut first, 1);
    let third = cell.split(&mut second, 2);
    assert_eq!(rt; (first.low(), first.high()), (0, 1));
    assert_eq!(rt; (second.low(), second.high()), (1, 2));
    assert_eq!(rt; (third.low(), third.high()), (2, 3));

    let third = note_once(&rt, &cell, third, 0);
    let first = note_once(&rt, &cell, first, 0);
    let turn = cell.enter(&rt, second);
    assert_eq!(rt; turn.peek().length(), 2);
    let second = cell.leave(turn);
    let third = note_once(&rt, &cell, third, 0);

    let upper = cell.join(second, third);
    assert_eq!(rt; (upper.low(), upper.high()), (1, 3));
    let upper = note_once(&rt, &cell, upper, 0);
    let diary = close_both(cell, first, upper);
    assert_eq!(rt;
        actors_of(alloc, &diary)?.as_slice(),
        [2, 0, 2, 1].as_slice()
    );
    Ok(())
}

/// The diary that nine threads write, of which each does so much.
fn written_by_nine<R: Alloc<A = Global> + Threads + Wait + Sync>(
    rt: &R,
    work: Work,
) -> Result<Diary, Fail>
    requires { IsSync R.row }
{
    let alloc = rt.alloc();
    let Ok((cell, whole)) = TurnCell::new(alloc, empty_diary(rt)?, 9) else {
        return Err("no memory".into());
    };
    let whole = note_all(rt, &cell, whole, work);
    Ok(cell.close(whole))
}

/// How many entries of the diary are by this actor.
fn count_of(diary: &Diary, actor: u32) -> usize {
    diary
        .entries
        .iter()
        .filter(|entry| entry.actor == actor)
        .count()
}

/// One of them holds its turn again and again for longer than others wait before they sleep.
#[test]
fn nine_threads_write_one_diary(rt: HostRuntime) -> Result<(), Fail> {
    let work = Work {
        turns: 200,
        hold: 50_000,
        late: 0,
    };
    let diary = written_by_nine(&rt, work)?;
    for actor in 0..9u32 {
        assert_eq!(rt; count_of(&diary, actor), 200);
    }
    Ok(())
}

/// One turn each: while actor 0 holds its turn all others fall asleep. Whoever is woken makes its only turn, and
/// has to wake the next, since nobody else comes who would.
#[test]
fn each_that_sleeps_is_woken(rt: HostRuntime) -> Result<(), Fail> {
    let work = Work {
        turns: 1,
        hold: 2_000_000,
        late: 100_000,
    };
    let diary = written_by_nine(&rt, work)?;
    for actor in 0..9u32 {
        assert_eq!(rt; count_of(&diary, actor), 1);
    }
    Ok(())
}
