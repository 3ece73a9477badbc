//! A measurement over any port.

ghost use Rattle.std.specs.Prelude.{◌≡◌, IsTrue, length, reverse};
ghost use Rattle.history.specs.declared.events.Act.TheVariants as act;
ghost use Rattle.history.specs.Pass.{pass_after};
ghost use Rattle.history.specs.Layout.{IsSetting};
ghost use Rattle.history.specs.Legal.{IsLegal, in_order};
ghost use Rattle.challenge.specs.Challenges.{IsChallenge};
ghost use Rattle.chronicle.specs.Worlds.{shape_of};
ghost use Rattle.chronicle.specs.Ports.{IsMeasurer, KeepsPort};
ghost use Rattle.measure.specs.Measured.{HasMeasured};
ghost use Rattle.measure.specs.Passing.{HasAttested};

use crate::laws;
use crate::measured::Measured;
use crate::passing::{
    Attested, Begun, Closed, Part, begin, close, copy_blocks, end_pass, tick_for,
};
use att_base::Gate;
use challenge::Challenge;
use chronicle::{BlockPort, Shape};

// The pass from Start to End.
fn attest<P: BlockPort, G: Gate>(
    port: &mut P,
    key: &[u8],
    challenge: &Challenge,
    shape: &Shape,
    buffer: &mut [u8],
    gate: &G,
) -> Attested
    requires actor { IsMeasurer (P.low port.old) (P.high port.old) }
    requires shape { shape.now ≡ shape_of (P.world port.old) }
    requires setting { IsSetting (P.world port.old) }
    requires room { length buffer.old ≡ (P.world port.old).layout.size }
    requires order { IsTrue (in_order (P.world port.old) (pass_after (reverse (P.seen port.old)))
        (act.Start challenge.now.discipline challenge.now.counter)) }
    ensures port { KeepsPort (P.owner port.old) (P.owner port.new) (P.world port.old) (P.world port.new)
        (P.low port.old) (P.low port.new) (P.high port.old) (P.high port.new) }
    ensures attested { HasAttested key.now (P.world port.old) challenge.now (P.seen port.old) (P.seen port.new) result }
{
    laws::answers_make();
    let mut passing = match begin(port, key, challenge, shape, gate) {
        Begun::Made { passing } => passing,
        Begun::Full { place } => return Attested::Full { place },
    };
    match copy_blocks(port, &mut passing, buffer, gate) {
        Part::Made => {}
        Part::Full { place } => return Attested::Full { place },
    }
    end_pass(port, passing, gate)
}

/// Measures: makes the measurer's program for the challenge over the port, and reports.
///
/// The port has to be the measurer's, without an open pass, the challenge valid, and the buffer as long as a
/// block. Each block is hashed after the port's call has returned, from the buffer, so a lock is never held while
/// hashing. The gate is told of each entry, and before each block is hashed. This takes no memory.
///
/// Whatever others make between its steps, the report's tag is the keyed digest of the attested memory as it
/// stood at every instant of the pass in the history that the port has seen. The call waits only where the port
/// or the gate does.
pub fn measure<P: BlockPort, G: Gate>(
    port: &mut P,
    key: &[u8],
    challenge: &Challenge,
    buffer: &mut [u8],
    gate: &G,
) -> Measured
    requires actor { IsMeasurer (P.low port.old) (P.high port.old) }
    requires valid { IsChallenge challenge.now }
    requires order { IsTrue (in_order (P.world port.old) (pass_after (reverse (P.seen port.old)))
        (act.Start challenge.now.discipline challenge.now.counter)) }
    requires room { length buffer.old ≡ (P.world port.old).layout.size }
    ensures port { KeepsPort (P.owner port.old) (P.owner port.new) (P.world port.old) (P.world port.new)
        (P.low port.old) (P.low port.new) (P.high port.old) (P.high port.new) }
    ensures setting { IsSetting (P.world port.new) }
    ensures legal { IsLegal (P.world port.new) (P.seen port.new) }
    ensures measured { HasMeasured key.now (P.world port.old) challenge.now (P.seen port.old) (P.seen port.new) result }
{
    laws::answers_make();
    laws::reports_stand();
    let shape = port.shape();
    match tick_for(port, challenge.lead, gate) {
        Part::Made => {}
        Part::Full { place } => {
            return Measured::Full {
                place,
                report: None,
            };
        }
    }
    let report = match attest(port, key, challenge, &shape, buffer, gate) {
        Attested::Ended { report } => report,
        Attested::Full { place } => {
            return Measured::Full {
                place,
                report: None,
            };
        }
    };
    match close(port, key, challenge, &report, gate) {
        Closed::Over => Measured::Done { report, note: None },
        Closed::Released { note } => Measured::Done {
            report,
            note: Some(note),
        },
        Closed::Full { place } => Measured::Full {
            place,
            report: Some(report),
        },
    }
}
