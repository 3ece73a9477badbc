//! The measurer of a device over a port of its own.

ghost use Rattle.std.specs.Prelude.{◌≡◌, Bool, false, IsTrue, length, is_none, ◌||◌};
ghost use Rattle.history.specs.Layout.{IsSetting};
ghost use Rattle.history.specs.Legal.{IsLegal};
ghost use Rattle.chronicle.specs.Ports.{IsMeasurer, KeepsPort};
ghost use Rattle.device.specs.Keeping.{IsMeasuring};

use crate::passes::Passes;
use att_base::Gate;
use chronicle::{BlockPort, Step};
use measure::measured_stays;
use std::sync::Wait;

// The next step of the measurement under way: one call of the port.
fn serve_step<P: BlockPort, G: Gate>(
    port: &mut P,
    passes: &mut Passes,
    key: &[u8],
    buffer: &mut [u8],
    gate: &G,
)
    requires actor { IsMeasurer (P.low port.old) (P.high port.old) }
    requires stands { IsMeasuring key.now (P.world port.old) (P.seen port.old) passes.old }
    requires going { passes.old.tally.stopped ≡ false }
    requires room { length buffer.old ≡ (P.world port.old).layout.size }
    ensures port { KeepsPort (P.owner port.old) (P.owner port.new) (P.world port.old) (P.world port.new)
        (P.low port.old) (P.low port.new) (P.high port.old) (P.high port.new) }
    ensures room { length buffer.new ≡ length buffer.old }
    ensures challenges { passes.new.challenges ≡ passes.old.challenges }
    ensures legal { IsLegal (P.world port.old) (P.seen port.old) → IsLegal (P.world port.old) (P.seen port.new) }
    ensures stands { IsMeasuring key.now (P.world port.old) (P.seen port.new) passes.new }
{
    measured_stays();
    let Some(measuring) = &mut passes.under_way else {
        return;
    };
    match measuring.turn(port, key, buffer, gate) {
        Step::Done { .. } => passes.settle(),
        Step::Full { .. } => passes.tally.stopped = true,
    }
}

/// Makes the measurer's programs for its challenges over the port, one after the other, until all are made or the
/// history is full.
///
/// The port has to be the measurer's, and the buffer as long as a block. The gate is told of each entry, and before
/// each block is hashed, always between two calls of the port. What comes of each challenge is kept in room that was
/// reserved. This takes no memory, and waits only where the port or the gate does.
pub fn serve<P: BlockPort, G: Gate, R: Wait>(
    rt: &R,
    port: &mut P,
    passes: &mut Passes,
    key: &[u8],
    buffer: &mut [u8],
    gate: &G,
)
    requires actor { IsMeasurer (P.low port.old) (P.high port.old) }
    requires stands { IsMeasuring key.now (P.world port.old) (P.seen port.old) passes.old }
    requires room { length buffer.old ≡ (P.world port.old).layout.size }
    ensures port { KeepsPort (P.owner port.old) (P.owner port.new) (P.world port.old) (P.world port.new)
        (P.low port.old) (P.low port.new) (P.high port.old) (P.high port.new) }
    ensures room { length buffer.new ≡ length buffer.old }
    ensures challenges { passes.new.challenges ≡ passes.old.challenges }
    ensures legal { IsLegal (P.world port.old) (P.seen port.old) → IsLegal (P.world port.old) (P.seen port.new) }
    ensures stands { IsMeasuring key.now (P.world port.old) (P.seen port.new) passes.new }
    ensures done { IsTrue (passes.new.tally.stopped || is_none passes.new.under_way) }
{
    'serving: for _ in rt.forever() {
        if passes.tally.stopped || passes.under_way.is_none() {
            return;
        }
        serve_step(port, passes, key, buffer, gate);
    }
    unreachable!()
}
