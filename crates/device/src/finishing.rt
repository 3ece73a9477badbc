//! What the parts of a device have come to when all actors are done.

ghost use Rattle.std.specs.Prelude.{◌≡◌, ◌-◌, ◌<◌, ◌≤◌, ◌∷◌, ◌++◌, [], length, map, replicate, All, IsSome, vec_capacity};
ghost use Rattle.device.specs.declared.outcomes.PassEnd.TheVariants as pass;
ghost use Rattle.device.specs.Keeping.{HasConsoleRoom, end_of_slot, ends_at_last};

use crate::outcomes::{AppEnd, PassEnd, end_of_run};
use crate::passes::Passes;
use crate::slots::Slot;
use app_thread::AppRun;
use listed::Bytes;
use report::Report;

// What an application has come to, in a history of so many entries.
fn end_of(slot: Slot, place: u64) -> AppEnd
    requires { HasConsoleRoom slot }
    ensures { result ≡ end_of_slot place slot }
{
    let Slot {
        app,
        tally,
        mut console,
        entry: _,
        stack: _,
        fuel: _,
    } = slot;
    let Ok(()) = console.extend_from_slice(app.console()) else {
        unreachable!()
    };
    let run = AppRun {
        end: end_of_run(app.next(), place),
        waits: tally.waits,
        waited: tally.waited,
    };
    AppEnd {
        run,
        console: Bytes::from_vec(console),
    }
}

/// What the applications have come to, in a history of so many entries. The room for it is reserved.
pub fn ends_of(slots: Vec<Slot>, mut apps: Vec<AppEnd>, place: u64) -> Vec<AppEnd>
    requires consoles { All HasConsoleRoom slots.items }
    requires empty { apps.items ≡ [] }
    requires room { length slots.items ≤ vec_capacity apps }
    ensures { result.items ≡ map (end_of_slot place) slots.items }
{
    for slot in slots {
        apps.push_reserved(end_of(slot, place));
    }
    apps
}

// Says of the next challenge that its measurement met a full history, and of those after it, up to so many, that theirs
// were not begun.
fn cut_short(mut ends: Vec<PassEnd>, report: Option<Report>, count: usize) -> Vec<PassEnd>
    requires some { length ends.items < count }
    requires room { count ≤ vec_capacity ends }
    ensures { let first = ends.items ++ pass.Full report ∷ [] in
        result.items ≡ first ++ replicate (count - length first) pass.NotStarted }
{
    ends.push_reserved(PassEnd::Full { report });
    for _ in ends.len()..count {
        ends.push_reserved(PassEnd::NotStarted);
    }
    ends
}

/// What the measurements have come to at last. The room for it is reserved.
pub fn passes_at_last(passes: Passes) -> Vec<PassEnd>
    requires room { length passes.challenges.items ≤ vec_capacity passes.ends }
    requires under_way { IsSome passes.under_way → length passes.ends.items < length passes.challenges.items }
    ensures { result.items ≡ ends_at_last passes }
{
    let Passes {
        challenges,
        mut ends,
        under_way,
        tally: _,
    } = passes;
    if let Some(measuring) = under_way {
        return cut_short(ends, measuring.report(), challenges.len());
    }
    ends
}
