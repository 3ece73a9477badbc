//! Reading a schedule, line by line.

ghost use Rattle.std.specs.Prelude.{◌≡◌, ◌+◌, ◌<◌, ◌≤◌, IfOk, IfSome};
ghost use Rattle.schedule_text.specs.Lines.{number_between, run_on_line};
ghost use Rattle.schedule_text.specs.Schedules.{AnswersSchedule, IsRun, IsSchedule, next_run, schedule_of};

use listed::Items;
use std::alloc::Global;
use text_readers::{Words, cut_at, plain_decimal, words_in};
use thiserror::Error;

/// The most lines of a schedule.
const MOST_LINES: usize = 10_000;

/// The most turns of a line.
const MOST_TURNS: u64 = 1_000_000;

/// The most turns of a schedule.
const MOST_IN_ALL: u64 = 16_000_000;

/// So many turns of one actor.
#[derive(Clone, Copy, Debug, PartialEq, Eq)]
pub struct Run {
    /// The actor: 0 is the measurer, and the applications are counted from 1.
    pub actor: u32,
    /// How many turns it takes, 1 to 1,000,000.
    pub turns: u32,
}

/// The runs of a schedule in order, at most 10,000.
pub type Schedule = Items<Run>;

/// Why a schedule was refused.
#[derive(Clone, Copy, Debug, PartialEq, Eq, Error)]
pub enum ScheduleFault {
    /// The first line at which the text leaves the grammar, counted from 1. A last line without its end, and
    /// a line that passes a limit, are such.
    #[error("line {0} is no line of a schedule")]
    Line(u64),
    /// Memory ran out. It may come at any time.
    #[error("out of memory")]
    Memory,
}

// The number from low to high that the word is in decimal digits, with no zero in front.
#[tactic(auto, unfolding(crate::specs::Lines::number_between))]
fn number_between(low: u64, high: u64, word: &[u8]) -> Option<u64>
    ensures value { result ≡ number_between low high word.now }
    ensures low { IfSome result (λ n. low ≤ n) }
    ensures high { IfSome result (λ n. n ≤ high) }
{
    match plain_decimal(word) {
        Some(number) if low <= number && number <= high => Some(number),
        _ => None,
    }
}

// The run that a line says, of an actor up to this one.
#[tactic(auto, unfolding(crate::specs::Lines::run_on_line))]
fn run_on_line(last: u32, line: &[u8]) -> Option<Run>
    ensures value { result ≡ run_on_line last line.now }
    ensures run { IfSome result (IsRun last) }
{
    let Words::Two(actor, turns) = words_in(line) else {
        return None;
    };
    let actor = number_between(0, u64::from(last), actor)? as u32;
    let turns = number_between(1, MOST_TURNS, turns)? as u32;
    Some(Run { actor, turns })
}

// The run that the next line says, if after so many lines and turns there is room for it.
#[tactic(auto, unfolding(crate::specs::Schedules::next_run))]
fn next_run(last: u32, lines: usize, turns: u64, line: &[u8]) -> Option<Run>
    requires { turns ≤ 16000000 }
    ensures value { result ≡ next_run last lines turns line.now }
    ensures run { IfSome result (IsRun last) }
    ensures lines { IfSome result (λ run. lines < 10000) }
    ensures turns { IfSome result (λ run. turns + run.turns ≤ 16000000) }
{
    match run_on_line(last, line) {
        Some(run) if lines < MOST_LINES && turns + u64::from(run.turns) <= MOST_IN_ALL => Some(run),
        _ => None,
    }
}

/// Reads a schedule for the actors from 0, the measurer, to `apps`, the last application. A refusal names the
/// first line at which the text leaves the grammar, counted from 1. Time grows with the text's length alone.
#[tactic(auto, unfolding(crate::specs::Schedules::schedule_of))]
pub fn read_schedule(alloc: Global, bytes: &[u8], apps: u32) -> Result<Schedule, ScheduleFault>
    ensures file { AnswersSchedule (schedule_of apps bytes.now) result }
    ensures schedule { IfOk result (IsSchedule apps) }
{
    let mut runs = Items::new(alloc);
    let mut turns = 0u64;
    let mut rest = bytes;
    while let Some((line, more)) = cut_at(b'\n', rest) {
        let number = runs.len() as u64 + 1;
        let Some(run) = next_run(apps, runs.len(), turns, line) else {
            return Err(ScheduleFault::Line(number));
        };
        let Ok(()) = runs.push(run) else {
            return Err(ScheduleFault::Memory);
        };
        turns += u64::from(run.turns);
        rest = more;
    }
    if !rest.is_empty() {
        return Err(ScheduleFault::Line(runs.len() as u64 + 1));
    }
    Ok(runs)
}
