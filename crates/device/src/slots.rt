//! An application of a device: where it stands, and what its turns have come to.

ghost use Rattle.std.specs.Prelude.{◌≡◌, ◌+◌, ◌≤◌, ◌||◌, List, is_none};
ghost use Rattle.history.specs.declared.events.Entry.{Entry};
ghost use Rattle.history.specs.Layout.{Setting};
ghost use Rattle.rv_core.specs.Runs.{AppProgram, IsBegunRun, next_access};
ghost use Rattle.app_thread.specs.Turns.{HasTurned, TurnsAlone};
ghost use Rattle.device.specs.Runs.{act_now, entries_of};
ghost use Rattle.device.specs.Turns.{actor_at, own_answer, own_turn};

use crate::tallies::{Stepped, Tally};
use app_thread::{App, CoreWant, Turn, turns_go_on};
use chronicle::one_entry_more;
use mem_core::{Direct, MemCore};

/// An application of a device.
#[derive(Drop)]
pub struct Slot {
    /// Where it stands.
    pub app: App,
    /// Where it began: the address of its first instruction.
    pub entry: u32,
    /// The stack pointer that it began with.
    pub stack: u32,
    /// How many instructions it may run at most.
    pub fuel: u64,
    /// What its turns have come to.
    pub tally: Tally,
    /// Room for what it has printed, when the run is over.
    pub console: Vec<u8>,
}

// A turn of the application over the core: nobody else makes an entry in it.
#[inline(always)]
fn turn_over(app: &mut App, core: &mut MemCore, actor: u32) -> Turn
    requires actor { (1 ≤ actor) × (actor ≤ 8) }
    requires layout { app.old.now.core.layout ≡ core.old.world.layout }
    ensures world { core.new.world ≡ core.old.world }
    ensures layout { app.new.now.core.layout ≡ app.old.now.core.layout }
    ensures turned { HasTurned core.old.world actor (actor + 1) core.old.history core.new.history app.old app.new result }
    ensures alone { TurnsAlone actor core.old.history core.new.history app.old app.new result }
{
    let mut port = Direct::new(core, actor);
    app.turn(&mut port)
}

impl Slot {
    /// Whether the application is done: it was stopped, or has ended.
    pub fn is_done(&self) -> bool
        ensures { (w : Setting) (history : List Entry)
            → result ≡ (self.now.tally.stopped || is_none (act_now w history (next_access self.now.app))) }
    {
        self.tally.stopped || matches!(self.app.next(), CoreWant::Ended(_))
    }

    /// One turn of the application, as this actor: its next entry, a wait for a lock, a stop at a full history, or
    /// nothing where it is over or was stopped. It takes no memory.
    #[inline(always)]
    pub fn turn(&mut self, core: &mut MemCore, actor: u32) -> Stepped
        requires actor { (1 ≤ actor) × (actor ≤ 8) }
        requires layout { self.old.app.now.core.layout ≡ core.old.world.layout }
        ensures world { core.new.world ≡ core.old.world }
        ensures layout { self.new.app.now.core.layout ≡ self.old.app.now.core.layout }
        ensures rest { self.new ≡ record self.old { app = self.new.app; tally = self.new.tally } }
        ensures state { actor_at core.new.history self.new.tally
            ≡ own_turn core.old.world actor (act_now core.old.world core.old.history (next_access self.old.app))
            (actor_at core.old.history self.old.tally) }
        ensures answer { result
            ≡ own_answer core.old.world (act_now core.old.world core.old.history (next_access self.old.app))
            (actor_at core.old.history self.old.tally) }
        ensures run { (start : AppProgram) → IsBegunRun start (entries_of core.old.history actor) self.old.app
            → IsBegunRun start (entries_of core.new.history actor) self.new.app }
    {
        turns_go_on();
        one_entry_more();
        if self.tally.stopped {
            return Stepped::Over;
        }
        match turn_over(&mut self.app, core, actor) {
            Turn::Over(_) => Stepped::Over,
            Turn::Made { place, .. } => Stepped::Made { place },
            Turn::Again { place } => {
                self.tally.waits = self.tally.waits.saturating_add(1);
                self.tally.waited = Some(place);
                Stepped::Again { place }
            }
            Turn::Full { place } => {
                self.tally.stopped = true;
                Stepped::Full { place }
            }
        }
    }
}
