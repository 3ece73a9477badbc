//! All actors of a device on threads.

ghost use Rattle.std.specs.Prelude.{◌≡◌, IfSome, IsSomeAnd, length};
ghost use Rattle.std.specs.Thread.{IsSync};
ghost use Rattle.device.specs.Threads.{HasRunAll, HasRunRange, HasServed, MayRunAll, MayRunRange, MayServe};

use crate::passes::Passes;
use crate::ranges::run_range;
use crate::serving::serve;
use crate::slots::Slot;
use app_thread::runs_compose;
use att_base::Gate;
use chronicle::{BlockPort, own_entries};
use measure::{measured_stays, measuring_stands};
use shared_mem::{Pass, Port, SharedMem};
use std::sync::Wait;
use std::thread::{Threads, join_mut};

// Serves the measurements over the measurer's pass.
fn serve_pass<G: Gate, R: Wait>(
    rt: &R,
    memory: &SharedMem,
    pass: Pass,
    passes: &mut Passes,
    key: &[u8],
    buffer: &mut [u8],
    gate: &G,
) -> Pass
    requires ready { MayServe memory.now pass key.now passes.old }
    requires room { length buffer.old ≡ memory.now.world.layout.size }
    ensures served { HasServed memory.now pass result key.now passes.old passes.new }
    ensures room { length buffer.new ≡ length buffer.old }
{
    let mut port = Port::new(memory, pass, rt);
    let _shape = port.shape();
    serve(rt, &mut port, passes, key, buffer, gate);
    port.into_pass()
}

/// Runs the measurer and all applications at once, each over a port of its own.
pub(crate) fn run_all<R: Threads + Wait + Sync, G: Gate + Sync>(
    rt: &R,
    memory: &SharedMem,
    pass: Pass,
    slots: &mut [Slot],
    passes: &mut Passes,
    key: &[u8],
    buffer: &mut [u8],
    gate: &G,
) -> Pass
    requires ready { MayRunAll memory.now pass key.now slots.old passes.old }
    requires room { length buffer.old ≡ memory.now.world.layout.size }
    ensures ran { HasRunAll memory.now pass result key.now slots.old slots.new passes.old passes.new }
    ensures room { length buffer.new ≡ length buffer.old }
{
    runs_compose();
    own_entries();
    measured_stays();
    measuring_stands();
    let mut first = pass;
    let second = memory.split(&mut first, 1);
    let (mut lower, mut upper) = (Some(first), Some(second));
    let (left, right) = join_mut(
        rt,
        &mut || -> Pass
            requires { IsSync R.row × IsSync G.row
                × IsSomeAnd lower (λ p. MayServe memory.now p key.now passes.now)
                × (length buffer.now ≡ memory.now.world.layout.size) }
            ensures served { IfSome lower.entry
                (λ p. HasServed memory.entry.now p result key.entry.now passes.entry.now passes.exit.now) }
            ensures room { length buffer.exit.now ≡ length buffer.entry.now }
        {
            match lower.take() {
                Some(pass) => serve_pass(rt, memory, pass, passes, key, buffer, gate),
                None => unreachable!(),
            }
        },
        &mut || -> Pass
            requires { IsSync R.row × IsSync G.row
                × IsSomeAnd upper (λ p. MayRunRange memory.now p slots.now) }
            ensures { IfSome upper.entry
                (λ p. HasRunRange memory.entry.now p result slots.entry.now slots.exit.now) }
        {
            match upper.take() {
                Some(pass) => run_range(rt, memory, pass, slots, gate),
                None => unreachable!(),
            }
        },
    );
    memory.join(left, right)
}
