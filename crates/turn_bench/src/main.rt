//! Times nothing itself: makes so many turns by so many threads, and prints how many entries there are then.
//!
//! Each line of standard input is a run, `JOB THREADS TURNS`, with the turns of each thread. A JOB is one of
//! - `bare`: no lock: one actor's accesses at the core itself;
//! - `mix`: each thread is an application; of seven turns five are Fetches, one is a Load and one a Store;
//! - `fetches`: each thread is an application; all turns are Fetches;
//! - `ticks`: the first thread is the measurer, whose turns are Ticks, and the others fetch.
#![tactic(auto)]

ghost use Rattle.std.specs.Prelude.{◌≡◌, ◌+◌, ◌<◌, ◌≤◌, false, IfOk, IfSome, IsTrue};
ghost use Rattle.std.specs.Thread.{IsSync};
ghost use Rattle.history.specs.declared.events.Width.TheVariants.{Word};
ghost use Rattle.history.specs.Layout.{fits};
ghost use Rattle.chronicle.specs.Ports.{IsApplication, IsMeasurer};

use anyhow::{Context, bail};
use chronicle::{BlockPort, Geometry, MemPort, Range, Ranges, Width, World};
use mem_core::{Direct, MemCore};
use shared_mem::{Pass, Port, SharedMem};
use std::alloc::{AllocError, Global};
use std::sync::Wait;
use std::thread::{Threads, join};

/// Where applications fetch, load and store.
const ADDR: u32 = 0x8000_0000;

/// The accesses of a mix.
const MIX: u32 = 7;

/// The most actors: the measurer and eight applications.
const ACTORS: u32 = 9;

/// What the threads do.
#[derive(Clone, Copy, PartialEq, Eq)]
enum Job {
    Bare,
    Mix,
    Fetches,
    Ticks,
}

/// Ticks so often.
fn tick_often<P: BlockPort>(port: &mut P, turns: u32)
    requires { IsMeasurer (P.low port.old) (P.high port.old) }
    ensures { (P.owner port.new ≡ P.owner port.old) × (P.low port.new ≡ P.low port.old)
        × (P.high port.new ≡ P.high port.old) }
{
    for _ in 0..turns {
        let _step = port.tick();
    }
}

/// Fetches one word so often.
fn fetch_often<P: MemPort>(port: &mut P, turns: u32)
    requires actor { IsApplication (P.low port.old) (P.high port.old) }
    requires fits { IsTrue (fits (P.world port.old).layout ADDR Word) }
    ensures { (P.owner port.new ≡ P.owner port.old) × (P.low port.new ≡ P.low port.old)
        × (P.high port.new ≡ P.high port.old) × (P.world port.new ≡ P.world port.old) }
{
    for _ in 0..turns {
        let _read = port.fetch(ADDR);
    }
}

/// Five Fetches, a Load and a Store, so often.
fn mix_often<P: MemPort>(port: &mut P, rounds: u32)
    requires actor { IsApplication (P.low port.old) (P.high port.old) }
    requires fits { IsTrue (fits (P.world port.old).layout ADDR Word) }
    ensures { (P.owner port.new ≡ P.owner port.old) × (P.low port.new ≡ P.low port.old)
        × (P.high port.new ≡ P.high port.old) × (P.world port.new ≡ P.world port.old) }
{
    for round in 0..rounds {
        fetch_often(port, 5);
        let _read = port.load(ADDR, Width::Word);
        let _stored = port.store(ADDR, Width::Word, round);
    }
}

/// The turns of one actor.
fn run_one<R: Wait>(rt: &R, memory: &SharedMem, pass: Pass, turns: u32, is_mix: bool) -> Pass
    requires cell { pass.cell ≡ memory.now }
    requires one { (pass.high ≡ pass.low + 1) × (pass.low ≤ 8) }
    requires fits { IsTrue (fits memory.now.world.layout ADDR Word) }
    ensures { (result.cell ≡ pass.cell) × (result.low ≡ pass.low) × (result.high ≡ pass.high) }
{
    let is_measurer = pass.low() == 0;
    let mut port = Port::new(memory, pass, rt);
    if is_measurer {
        tick_often(&mut port, turns);
        return port.into_pass();
    }
    if is_mix {
        mix_often(&mut port, turns / MIX);
        return port.into_pass();
    }
    fetch_often(&mut port, turns);
    port.into_pass()
}

/// The turns of all actors of a range, each in a thread of its own.
fn run_all<R: Threads + Wait + Sync>(
    rt: &R,
    memory: &SharedMem,
    pass: Pass,
    turns: u32,
    is_mix: bool,
) -> Pass
    requires sync { IsSync R.row }
    requires cell { pass.cell ≡ memory.now }
    requires some { (pass.low < pass.high) × (pass.high ≤ 9) }
    requires fits { IsTrue (fits memory.now.world.layout ADDR Word) }
    ensures { (result.cell ≡ pass.cell) × (result.low ≡ pass.low) × (result.high ≡ pass.high) }
{
    let count = pass.high() - pass.low();
    if count == 1 {
        return run_one(rt, memory, pass, turns, is_mix);
    }
    let middle = pass.low() + count / 2;
    let mut first = pass;
    let second = memory.split(&mut first, middle);
    let lower = move || -> Pass
        requires { IsSync R.row × (first.cell ≡ memory.now) × (first.low < first.high) × (first.high ≤ 9)
            × IsTrue (fits memory.now.world.layout ADDR Word) }
        ensures { (result.cell ≡ first.cell) × (result.low ≡ first.low) × (result.high ≡ first.high) }
    { run_all(rt, memory, first, turns, is_mix) };
    let upper = move || -> Pass
        requires { IsSync R.row × (second.cell ≡ memory.now) × (second.low < second.high)
            × (second.high ≤ 9) × IsTrue (fits memory.now.world.layout ADDR Word) }
        ensures { (result.cell ≡ second.cell) × (result.low ≡ second.low)
            × (result.high ≡ second.high) }
    { run_all(rt, memory, second, turns, is_mix) };
    let (left, right) = join(rt, lower, upper);
    memory.join(left, right)
}

/// A small memory with room for so many entries. None where the numbers are no world's.
fn world_of(alloc: Global, cap: u64) -> Result<Option<World>, AllocError>
    ensures { IfOk result (λ made. IfSome made (λ w. IsTrue (fits w.layout ADDR Word))) }
{
    let Some(geometry) = Geometry::new(ADDR, 16, 4) else {
        return Ok(None);
    };
    if !geometry.fits(ADDR, Width::Word) {
        return Ok(None);
    }
    let image = vec![in alloc; 0u8; 64]?;
    let blocks = Range {
        first: 0,
        attested: 4,
    };
    let Some(ranges) = Ranges::new(&[blocks]) else {
        return Ok(None);
    };
    match World::new(geometry, ranges, image, cap) {
        Some(world) => Ok(Some(world)),
        None => Ok(None),
    }
}

/// Runs actors 0 to `actors` - 1, or 1 to `actors` - 1, and says how many entries there are then.
fn entries_of<R: Threads + Wait + Sync>(
    rt: &R,
    memory: SharedMem,
    pass: Pass,
    turns: u32,
    measurer: bool,
    is_mix: bool,
) -> u64
    requires sync { IsSync R.row }
    requires cell { (pass.cell ≡ memory) × (pass.low ≡ 0) × (pass.high ≡ memory.actors) }
    requires some { (1 ≤ memory.actors) × (memory.actors ≤ 9) }
    requires two { measurer ≡ false → 2 ≤ memory.actors }
    requires fits { IsTrue (fits memory.world.layout ADDR Word) }
{
    if measurer {
        let whole = run_all(rt, &memory, pass, turns, is_mix);
        return memory.close(whole).length();
    }
    let mut first = pass;
    let applications = memory.split(&mut first, 1);
    let applications = run_all(rt, &memory, applications, turns, is_mix);
    let whole = memory.join(first, applications);
    memory.close(whole).length()
}

/// What is asked for: the job, the threads, and the turns of each.
fn asked(line: &str) -> Option<(Job, u32, u32)> {
    let mut words = line.split_whitespace();
    let job = match words.next()? {
        "bare" => Job::Bare,
        "mix" => Job::Mix,
        "fetches" => Job::Fetches,
        "ticks" => Job::Ticks,
        _ => return None,
    };
    let threads = words.next()?.parse::<u32>().ok()?;
    let turns = words.next()?.parse::<u32>().ok()?;
    Some((job, threads, turns))
}

/// Makes one line's run, and says how many entries there are then.
fn run_line<R: Threads + Wait + Alloc<A = Global> + Sync>(rt: &R, line: &str) -> anyhow::Result<u64>
    requires { IsSync R.row }
{
    let alloc = rt.alloc();
    let (job, threads, turns) = asked(line).context("JOB THREADS TURNS")?;
    let first = if job == Job::Ticks { 0 } else { 1 };
    if threads == 0 || threads > ACTORS - first {
        bail!("at least one thread, and at most nine actors");
    }
    let cap = u64::from(threads) * u64::from(turns);
    let Some(world) = world_of(alloc, cap)? else {
        bail!("at most 4,000,000 turns");
    };
    let mut core = MemCore::new(alloc, world)?;
    if job == Job::Bare {
        mix_often(&mut Direct::new(&mut core, 1), turns / MIX);
        return Ok(core.length());
    }
    let Ok((memory, pass)) = SharedMem::new(alloc, core, first + threads) else {
        bail!("no memory");
    };
    Ok(entries_of(rt, memory, pass, turns, first == 0, job == Job::Mix))
}

fn main(rt: HostRuntime) -> anyhow::Result<()> {
    for line in rt.lines(rt.alloc()) {
        let line = line?;
        let entries = run_line(&rt, line.as_str())?;
        println!(rt; "{line}: {entries} entries")?;
    }
    Ok(())
}
