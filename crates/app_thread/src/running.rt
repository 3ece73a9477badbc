//! The whole run of an application.

ghost use Rattle.std.specs.Prelude.{◌≡◌, IfNone, IfSome};
ghost use Rattle.history.specs.Legal.{IsLegal};
ghost use Rattle.chronicle.specs.Ports.{IsApplication, KeepsPort};
ghost use Rattle.app_thread.specs.WholeRuns.{EndsRun, GoesOn, HasRun, HasWaited};

use crate::apps::App;
use crate::ends::{AppRun, RunEnd};
use crate::laws;
use crate::turns::Turn;
use crate::waiting::{Waits, give_way};
use att_base::{Gate, Spot};
use chronicle::MemPort;
use std::sync::Wait;

/// What came of one access: an entry, or the end of the run; and how often it waited.
#[derive(Clone, Copy)]
struct Passage {
    end: Option<RunEnd>,
    waits: Waits,
}

// Makes the access that comes next, if there is one: a store whose block is locked is asked again, until it is made or
// the history is full, and lets others go first.
fn pass_on<P: MemPort, G: Gate, R: Wait>(rt: &R, port: &mut P, app: &mut App, gate: &G) -> Passage
    requires actor { IsApplication (P.low port.old) (P.high port.old) }
    requires layout { app.old.now.core.layout ≡ (P.world port.old).layout }
    ensures port { KeepsPort (P.owner port.old) (P.owner port.new) (P.world port.old) (P.world port.new)
        (P.low port.old) (P.low port.new) (P.high port.old) (P.high port.new) }
    ensures layout { app.new.now.core.layout ≡ app.old.now.core.layout }
    ensures legal { IsLegal (P.world port.old) (P.seen port.old) → IsLegal (P.world port.old) (P.seen port.new) }
    ensures gone { GoesOn (P.low port.old) (P.high port.old) (P.seen port.old) (P.seen port.new) app.old app.new }
    ensures end { IfSome result.end (λ ending. EndsRun (P.world port.old) (P.seen port.new) app.new ending) }
    ensures waits { HasWaited (P.world port.old) (P.low port.old) (P.high port.old) (P.seen port.old) (P.seen port.new)
        app.old result.waits.count result.waits.last }
{
    laws::runs_compose();
    let actor = port.actor();
    let mut waits = Waits::none();
    let mut pause = 1;
    'asking: for _ in rt.forever() {
        match app.turn(port) {
            Turn::Again { place } => {
                gate.at(actor, Spot::Waits { place });
                waits = waits.and(Waits::one(place));
                pause = give_way(pause);
            }
            Turn::Made { kind, place } => {
                gate.at(actor, Spot::Made { kind, place });
                return Passage { end: None, waits };
            }
            Turn::Over(ending) => {
                return Passage {
                    end: Some(RunEnd::Ended(ending)),
                    waits,
                };
            }
            Turn::Full { place } => {
                return Passage {
                    end: Some(RunEnd::Full { place }),
                    waits,
                };
            }
        }
    }
    unreachable!()
}

/// Runs the application over the port until it has ended or the history is full.
///
/// The gate is told of each entry once it is made, and each time that a store finds its block locked, always between
/// two calls of the port. Such a store is asked again after others were let go first. This may wait for ever, where a
/// block stays locked.
pub fn run_app<P: MemPort, G: Gate, R: Wait>(
    rt: &R,
    port: &mut P,
    app: &mut App,
    gate: &G,
) -> AppRun
    requires actor { IsApplication (P.low port.old) (P.high port.old) }
    requires layout { app.old.now.core.layout ≡ (P.world port.old).layout }
    ensures port { KeepsPort (P.owner port.old) (P.owner port.new) (P.world port.old) (P.world port.new)
        (P.low port.old) (P.low port.new) (P.high port.old) (P.high port.new) }
    ensures layout { app.new.now.core.layout ≡ app.old.now.core.layout }
    ensures legal { IsLegal (P.world port.old) (P.seen port.old) → IsLegal (P.world port.old) (P.seen port.new) }
    ensures run { HasRun (P.world port.old) (P.low port.old) (P.high port.old) (P.seen port.old) (P.seen port.new)
        app.old app.new result.end }
    ensures waits { HasWaited (P.world port.old) (P.low port.old) (P.high port.old) (P.seen port.old) (P.seen port.new)
        app.old result.waits result.waited }
{
    laws::runs_compose();
    let mut waits = Waits::none();
    'running: for _ in rt.forever() {
        let passage = pass_on(rt, port, app, gate);
        waits = waits.and(passage.waits);
        if let Some(end) = passage.end {
            return AppRun {
                end,
                waits: waits.count,
                waited: waits.last,
            };
        }
    }
    unreachable!()
}
