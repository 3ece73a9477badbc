//! The applications of a device on threads: each runs over a port of its own.

ghost use Rattle.std.specs.Prelude.{◌≡◌, List, IfSome, IsSomeAnd};
ghost use Rattle.std.specs.Thread.{IsSync};
ghost use Rattle.history.specs.declared.events.Entry.{Entry};
ghost use Rattle.history.specs.Layout.{Setting};
ghost use Rattle.history.specs.Legal.{IsLegal};
ghost use Rattle.rv_core.specs.Runs.{ProgramState};
ghost use Rattle.chronicle.specs.Ports.{IsApplication, KeepsPort};
ghost use Rattle.app_thread.specs.WholeRuns.{EndsRun};
ghost use Rattle.device.specs.Threads.{HasComeToEnd, HasRunAs, HasRunRange, MayRunRange};

use crate::slots::Slot;
use crate::tallies::Tally;
use app_thread::{RunEnd, run_app, runs_compose};
use att_base::Gate;
use chronicle::MemPort;
use shared_mem::{Pass, Port, SharedMem};
use std::sync::Wait;
use std::thread::{Threads, join_mut};

// Whether a full history stopped the run.
fn is_stop(end: RunEnd) -> bool
    ensures { (w : Setting) (history : List Entry) (at : ProgramState)
        → EndsRun w history at end → HasComeToEnd w history at result }
{
    match end {
        RunEnd::Ended(_) => false,
        RunEnd::Full { .. } => true,
    }
}

// Runs an application over its port.
fn run_over<P: MemPort, G: Gate, R: Wait>(rt: &R, port: &mut P, slot: &mut Slot, gate: &G)
    requires actor { IsApplication (P.low port.old) (P.high port.old) }
    requires layout { slot.old.app.now.core.layout ≡ (P.world port.old).layout }
    ensures port { KeepsPort (P.owner port.old) (P.owner port.new) (P.world port.old) (P.world port.new)
        (P.low port.old) (P.low port.new) (P.high port.old) (P.high port.new) }
    ensures legal { IsLegal (P.world port.old) (P.seen port.old) → IsLegal (P.world port.old) (P.seen port.new) }
    ensures run { HasRunAs (P.world port.old) (P.low port.old) (P.seen port.old) (P.seen port.new) slot.old slot.new }
{
    let run = run_app(rt, port, &mut slot.app, gate);
    slot.tally = Tally {
        stopped: is_stop(run.end),
        waits: run.waits,
        waited: run.waited,
    };
}

// Runs an application over the pass of its actor.
fn run_single<G: Gate, R: Wait>(
    rt: &R,
    memory: &SharedMem,
    pass: Pass,
    slot: &mut Slot,
    gate: &G,
) -> Pass
    requires cell { pass.cell ≡ memory.now }
    requires actor { IsApplication pass.low pass.high }
    requires layout { slot.old.app.now.core.layout ≡ memory.now.world.layout }
    ensures pass { result ≡ record pass { seen = result.seen } }
    ensures legal { IsLegal memory.now.world pass.seen → IsLegal memory.now.world result.seen }
    ensures run { HasRunAs memory.now.world pass.low pass.seen result.seen slot.old slot.new }
{
    let mut port = Port::new(memory, pass, rt);
    run_over(rt, &mut port, slot, gate);
    port.into_pass()
}

/// Runs the applications of a range of actors at once, each over a port of its own, until each of them has ended or the
/// history is full. The pass is that of all of them, and is given back with all that was seen.
///
/// The range is halved until one actor is left. Where no thread can be made, a half runs after the other. This takes no
/// memory. It may wait for ever, where a block stays locked.
pub fn run_range<R: Threads + Wait + Sync, G: Gate + Sync>(
    rt: &R,
    memory: &SharedMem,
    pass: Pass,
    slots: &mut [Slot],
    gate: &G,
) -> Pass
    requires sync { IsSync R.row × IsSync G.row }
    requires range { MayRunRange memory.now pass slots.old }
    ensures run { HasRunRange memory.now pass result slots.old slots.new }
{
    if slots.len() == 1 {
        return run_single(rt, memory, pass, &mut slots[0], gate);
    }
    runs_compose();
    let half = slots.len() / 2;
    let middle = pass.low() + half as u32;
    let mut first = pass;
    let second = memory.split(&mut first, middle);
    let (mut lower, mut upper) = (Some(first), Some(second));
    let (front, back) = slots.split_at_mut(half);
    let (left, right) = join_mut(
        rt,
        &mut || -> Pass
            requires { IsSync R.row × IsSync G.row × IsSomeAnd lower (λ p. MayRunRange memory.now p front.now) }
            ensures { IfSome lower.entry (λ p. HasRunRange memory.entry.now p result front.entry.now front.exit.now) }
        {
            match lower.take() {
                Some(pass) => run_range(rt, memory, pass, front, gate),
                None => unreachable!(),
            }
        },
        &mut || -> Pass
            requires { IsSync R.row × IsSync G.row × IsSomeAnd upper (λ p. MayRunRange memory.now p back.now) }
            ensures { IfSome upper.entry (λ p. HasRunRange memory.entry.now p result back.entry.now back.exit.now) }
        {
            match upper.take() {
                Some(pass) => run_range(rt, memory, pass, back, gate),
                None => unreachable!(),
            }
        },
    );
    memory.join(left, right)
}
