//! Whether a report is one on a pass of a recorded history.

ghost use Rattle.std.specs.Prelude.{◌≡◌, ℕ, ◌++◌, ◌<◌, ◌↔◌, ◌&&◌, ◌==◌, IsTrue, List, length, reverse, Some, option_map};
ghost use Rattle.history.specs.declared.events.Entry.{Entry};
ghost use Rattle.history.specs.Layout.{IsSetting, Setting, byte_count};
ghost use Rattle.history.specs.Legal.{IsLegal};
ghost use Rattle.history.specs.Memory.{Memory, attested_bytes, block_bytes, bytes_from};
ghost use Rattle.history.specs.Instants.{IsInstant, ReleasesAt, is_newest};
ghost use Rattle.history.specs.Pass.{is_end, is_extended, pass_after};
ghost use Rattle.hmac256.specs.States.{StandsFor};
ghost use Rattle.report.specs.declared.Report.{Report};
ghost use Rattle.report.specs.Reports.{asked_of, report_in};
ghost use Rattle.report.specs.Tags.{report_tag};
ghost use Rattle.trace.specs.Confirm.{IsConfirmed, IsOnPass, confirmed, is_opening_of, names_pass, opened_at, opening_of, told_place};

use crate::index::Index;
use chronicle::{Act, Discipline, Entry, World, copied_is_memory, places_of_a_history};
use history::blocks_in_order;
use hmac256::Hmac;
use report::{Report, begun_tag, read_report, same_shape, tail};

/// What a report is told: the first of these cases.
#[derive(Clone, Copy, Debug, PartialEq, Eq)]
pub enum Confirmed {
    /// The bytes are no report.
    Malformed,
    /// The attested blocks lie elsewhere than in the world.
    WrongShape,
    /// No pass of this discipline and counter has its Start and its End at the report's places.
    NoPass,
    /// The tag isn't that of the attested memory: of Start's where the discipline locks from Start on, else of End's.
    WrongTag,
    /// The report is one on a pass of the history.
    Yes,
}

/// How a pass was opened: its discipline and counter, and the place of its Start.
#[derive(Clone, Copy, Debug, PartialEq, Eq)]
pub struct Opening {
    pub discipline: Discipline,
    pub counter: u64,
    pub place: u64,
}

// The pass that this act opens at a place.
fn opened_at(act: &Act, place: u64) -> Option<Opening>
    ensures { result ≡ opened_at place act.now }
{
    match *act {
        Act::Start {
            discipline,
            counter,
        } => Some(Opening {
            discipline,
            counter,
            place,
        }),
        Act::Fetch { .. } | Act::Load { .. } | Act::Store { .. } => None,
        Act::Copy { .. } | Act::End | Act::Tick | Act::Release => None,
    }
}

// How the last pass was opened, by looking back to its Start.
fn last_opening(entries: &[Entry]) -> Option<Opening>
    ensures { result ≡ option_map opening_of (pass_after (reverse entries.now)) }
{
    places_of_a_history();
    let mut place = entries.len();
    while place > 0 {
        let opening = opened_at(&entries[place - 1].act, place as u64);
        if opening.is_some() {
            return opening;
        }
        place -= 1;
    }
    None
}

// The last of these entries is an End.
fn end_with_end(entries: &[Entry]) -> bool
    ensures { result ≡ is_newest is_end (reverse entries.now) }
{
    match entries.last() {
        Some(entry) => entry.act == Act::End,
        None => false,
    }
}

// It is the Start that the report names.
fn is_opening_of(report: &Report, opening: Option<Opening>) -> bool
    ensures { result ≡ is_opening_of report.now opening }
{
    match opening {
        None => false,
        Some(opening) => {
            opening.discipline.code() == report.discipline.code()
                && opening.counter == report.counter
                && opening.place == report.start
        }
    }
}

// The history has the pass that the report names. It looks back from the report's End to the last Start.
fn names_pass(entries: &[Entry], report: &Report) -> bool
    ensures { result ≡ names_pass entries.now report.now }
{
    if report.end > entries.len() as u64 {
        return false;
    }
    let before = &entries[..report.end as usize];
    end_with_end(before) && is_opening_of(report, last_opening(before))
}

// The place whose memory is looked at.
fn told_place(report: &Report) -> u64
    ensures { result ≡ told_place report.now }
{
    match report.discipline {
        Discipline::All | Discipline::AllExt | Discipline::Dec => report.start,
        Discipline::Inc | Discipline::IncExt => report.end,
    }
}

// The bytes of a block of a memory.
fn block_of<'m>(world: &World, memory: &'m [u8], block: u32) -> &'m [u8]
    requires whole { length memory.now ≡ byte_count world.now.layout }
    requires block { block < world.now.layout.blocks }
    ensures { (m : Memory) → memory.now ≡ bytes_from m world.now.layout.base (byte_count world.now.layout)
        → result.now ≡ block_bytes world.now m block }
{
    let size = world.geometry().size() as usize;
    let from = size * block as usize;
    &memory[from..from + size]
}

// Takes in the attested blocks of a memory, by rising address.
fn hash_attested(hmac: &mut Hmac, world: &World, memory: &[u8])
    requires { length memory.now ≡ byte_count world.now.layout }
    ensures { (key text : List ℕ) (m : Memory) → StandsFor hmac.old key text
        → memory.now ≡ bytes_from m world.now.layout.base (byte_count world.now.layout)
        → StandsFor hmac.new key (text ++ attested_bytes world.now m) }
{
    blocks_in_order();
    let ranges = world.ranges();
    'hashing: for index in 0..ranges.total() {
        hmac.update(block_of(world, memory, ranges.block(index)));
    }
}

// The tag of a report with these fields over a memory.
#[tactic(auto, unfolding(report::specs::Tags::report_tag))]
fn tag_over(key: &[u8], report: &Report, world: &World, memory: &[u8]) -> [u8; 32]
    requires { length memory.now ≡ byte_count world.now.layout }
    ensures { (m : Memory) → memory.now ≡ bytes_from m world.now.layout.base (byte_count world.now.layout)
        → result ≡ report_tag key.now (asked_of report.now) report.now.shape (attested_bytes world.now m) report.now.start report.now.end }
{
    let mut hmac = begun_tag(key, report);
    hash_attested(&mut hmac, world, memory);
    hmac.update(&tail(report.start, report.end));
    hmac.finish()
}

impl<'a> Index<'a> {
    ghost use Rattle.std.specs.Prelude.{◌≡◌, ◌≤◌, length};
    ghost use Rattle.history.specs.Layout.{IsSetting, byte_count};
    ghost use Rattle.history.specs.Legal.{IsLegal};
    ghost use Rattle.trace.specs.Confirm.{Tells, confirmed, confirmed_report};

    // What the report is told.
    #[tactic(auto, unfolding(crate::specs::Confirm::confirmed_report))]
    fn confirm_report(&self, key: &[u8], report: &Report, buffer: &mut [u8]) -> Confirmed
        requires order { report.now.start ≤ report.now.end }
        requires room { length buffer.old ≡ byte_count self.now.world.layout }
        ensures answer { result ≡ confirmed_report key.now self.now.world self.now.entries report.now }
        ensures setting { IsSetting self.now.world }
    {
        let chronicle = self.chronicle();
        let world = chronicle.world();
        if !same_shape(&report.shape, &world.shape()) {
            return Confirmed::WrongShape;
        }
        if !names_pass(chronicle.entries(), report) {
            return Confirmed::NoPass;
        }
        self.memory_at(told_place(report), buffer);
        if tag_over(key, report, world, buffer) != report.tag {
            return Confirmed::WrongTag;
        }
        Confirmed::Yes
    }

    /// Whether these are the bytes of a report on a pass of the history, under this key: the first of five cases. The
    /// buffer is as long as memory, and is room to work in: what it had is lost.
    #[tactic(auto, unfolding(crate::specs::Confirm::confirmed))]
    pub fn confirm(&self, key: &[u8], report: &[u8], buffer: &mut [u8]) -> Confirmed
        requires room { length buffer.old ≡ byte_count self.now.world.layout }
        ensures answer { result ≡ confirmed key.now self.now.world self.now.entries report.now }
        // In a legal history, Yes says the tag of each of the pass's instants.
        ensures tells { IsLegal self.now.world self.now.entries → result ≡ Confirmed.Yes
            → Tells key.now self.now.world self.now.entries report.now }
    {
        copied_is_memory();
        match read_report(report) {
            Some(report) => self.confirm_report(key, &report, buffer),
            None => Confirmed::Malformed,
        }
    }
}

/// Yes says exactly that the report is on a pass of the history. In a legal history it says more: the tag is that of the
/// attested memory at each instant of the pass. And a report with this promise is told Yes, where the pass has an instant.
#[tactic(auto, unfolding(crate::specs::Confirm::confirmed))]
pub fn confirmed_is_exact()
    ensures yes { (key : List ℕ) (w : Setting) (history : List Entry) (bytes : List ℕ) (r : Report)
        → report_in bytes ≡ Some r → (confirmed key w history bytes ≡ Confirmed.Yes) ↔ IsOnPass key w history r }
    ensures instants { (key : List ℕ) (w : Setting) (history : List Entry) (r : Report)
        → IsSetting w → IsLegal w history → IsOnPass key w history r → IsConfirmed key w history r }
    ensures told { (key : List ℕ) (w : Setting) (history : List Entry) (r : Report) (place release : ℕ)
        → IsConfirmed key w history r → (IsTrue (is_extended r.discipline) → ReleasesAt history r.discipline r.counter r.start release)
        → IsInstant r.discipline r.start r.end release place → IsOnPass key w history r }
{
    copied_is_memory();
}
