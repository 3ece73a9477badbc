//! The parts of a pass: what each makes of the history, and what is known after it.

ghost use Rattle.std.specs.Prelude.{◌≡◌, ℕ, ◌+◌, ◌<◌, true, IsTrue, List, [], ◌∷◌, ◌++◌, length, reverse, replicate};
ghost use Rattle.history.specs.declared.events.Act.TheVariants as act;
ghost use Rattle.history.specs.Attested.{attested_block, attested_blocks, total};
ghost use Rattle.history.specs.Layout.{IsSetting};
ghost use Rattle.history.specs.Pass.{pass_after};
ghost use Rattle.history.specs.Legal.{IsLegal, in_order};
ghost use Rattle.history.specs.Copied.{copied_bytes};
ghost use Rattle.hmac256.specs.States.{StandsFor};
ghost use Rattle.challenge.specs.Challenges.{asked_by};
ghost use Rattle.chronicle.specs.Worlds.{shape_of};
ghost use Rattle.chronicle.specs.Ports.{IsMeasurer, KeepsPort};
ghost use Rattle.report.specs.Tags.{head_bytes, report_tag};
ghost use Rattle.measure.specs.Program.{copies};
ghost use Rattle.measure.specs.Passing.{HasBegun, HasClosed, HasCopiedBlocks, HasTicked, IsEnded, IsPassing, IsUnderWay, report_with};

use crate::hashing::{MEASURER, hash_block};
use crate::laws;
use att_base::{Gate, MADE_COPY, MADE_END, MADE_RELEASE, MADE_START, MADE_TICK, Spot};
use challenge::Challenge;
use chronicle::{BlockPort, Shape, Step};
use history::blocks_in_order;
use hmac256::Hmac;
use report::{Note, Report, head, note_on, tail};

/// How a part of the program went.
#[derive(Clone, Copy, Debug, PartialEq, Eq)]
pub enum Part {
    /// Its entries were made.
    Made,
    /// The history filled, at this place.
    Full { place: u64 },
}

/// A pass between its Start and its End: what it is for, the running digest, and the place of Start.
#[derive(Drop)]
pub struct Passing {
    pub challenge: Challenge,
    pub shape: Shape,
    pub hmac: Hmac,
    pub start: u64,
}

/// How Start went.
#[derive(Drop)]
pub enum Begun {
    Made { passing: Passing },
    Full { place: u64 },
}

/// How a pass went, from Start to End.
#[derive(Clone, Copy, Debug, PartialEq, Eq)]
pub enum Attested {
    Ended { report: Report },
    Full { place: u64 },
}

/// How the end of the program went.
#[derive(Clone, Copy, Debug, PartialEq, Eq)]
pub enum Closed {
    /// Nothing comes after End in this discipline.
    Over,
    /// Release was made, and here is the note on it.
    Released { note: Note },
    /// The history filled, at this place.
    Full { place: u64 },
}

fn made(kind: u32, place: u64) -> Spot {
    Spot::Made { kind, place }
}

/// Lets time go by, so many Ticks.
pub fn tick_for<P: BlockPort, G: Gate>(port: &mut P, count: u32, gate: &G) -> Part
    requires actor { IsMeasurer (P.low port.old) (P.high port.old) }
    ensures port { KeepsPort (P.owner port.old) (P.owner port.new) (P.world port.old) (P.world port.new)
        (P.low port.old) (P.low port.new) (P.high port.old) (P.high port.new) }
    ensures ticked { HasTicked (P.world port.old) (P.seen port.old) (P.seen port.new) (replicate count act.Tick) result }
{
    laws::answers_make();
    laws::answers_keep();
    'ticking: for _ in 0..count {
        match port.tick() {
            Step::Done { place } => gate.at(MEASURER, made(MADE_TICK, place)),
            Step::Full { place } => return Part::Full { place },
        }
    }
    Part::Made
}

/// The pass whose Start has this place: its digest has taken in the report's head.
pub fn passing_from(key: &[u8], challenge: &Challenge, shape: &Shape, start: u64) -> Passing
    ensures challenge { result.challenge ≡ challenge.now }
    ensures shape { result.shape ≡ shape.now }
    ensures start { result.start ≡ start }
    ensures digest { StandsFor result.hmac key.now (head_bytes (asked_by challenge.now) shape.now) }
{
    let mut hmac = Hmac::new(key);
    hmac.update(head(challenge, shape).as_slice());
    Passing {
        challenge: *challenge,
        shape: *shape,
        hmac,
        start,
    }
}

/// Begins the pass of the challenge.
pub fn begin<P: BlockPort, G: Gate>(
    port: &mut P,
    key: &[u8],
    challenge: &Challenge,
    shape: &Shape,
    gate: &G,
) -> Begun
    requires actor { IsMeasurer (P.low port.old) (P.high port.old) }
    requires shape { shape.now ≡ shape_of (P.world port.old) }
    requires order { IsTrue (in_order (P.world port.old) (pass_after (reverse (P.seen port.old)))
        (act.Start challenge.now.discipline challenge.now.counter)) }
    ensures port { KeepsPort (P.owner port.old) (P.owner port.new) (P.world port.old) (P.world port.new)
        (P.low port.old) (P.low port.new) (P.high port.old) (P.high port.new) }
    ensures begun { HasBegun key.now (P.world port.old) challenge.now (P.seen port.old) (P.seen port.new) result }
{
    laws::answers_make();
    laws::steps_of_a_pass();
    let start = match port.start(challenge.discipline, challenge.counter) {
        Step::Done { place } => place,
        Step::Full { place } => return Begun::Full { place },
    };
    gate.at(MEASURER, made(MADE_START, start));
    Begun::Made {
        passing: passing_from(key, challenge, shape, start),
    }
}

// Copies the attested block with this index, and takes it into the digest once the port's call has returned.
fn copy_block<P: BlockPort, G: Gate>(
    port: &mut P,
    passing: &mut Passing,
    index: u32,
    buffer: &mut [u8],
    gate: &G,
) -> Part
    requires actor { IsMeasurer (P.low port.old) (P.high port.old) }
    requires passing { IsPassing (P.world port.old) (P.seen port.old) index passing.old }
    requires index { index < total (P.world port.old).ranges }
    requires setting { IsSetting (P.world port.old) }
    requires room { length buffer.old ≡ (P.world port.old).layout.size }
    ensures port { KeepsPort (P.owner port.old) (P.owner port.new) (P.world port.old) (P.world port.new)
        (P.low port.old) (P.low port.new) (P.high port.old) (P.high port.new) }
    ensures room { length buffer.new ≡ length buffer.old }
    ensures copied { HasCopiedBlocks (P.world port.old) (P.seen port.old) (P.seen port.new) passing.old passing.new
        (act.Copy (attested_block (P.world port.old).ranges index) ∷ []) (index + 1) result }
{
    laws::answers_make();
    laws::steps_of_a_pass();
    let block = passing.shape.ranges.block(index);
    match port.copy(block, buffer) {
        Step::Done { place } => gate.at(MEASURER, made(MADE_COPY, place)),
        Step::Full { place } => return Part::Full { place },
    }
    hash_block(&mut passing.hmac, block, buffer, gate);
    Part::Made
}

/// Copies each attested block in ascending order, and takes it into the digest.
pub fn copy_blocks<P: BlockPort, G: Gate>(
    port: &mut P,
    passing: &mut Passing,
    buffer: &mut [u8],
    gate: &G,
) -> Part
    requires actor { IsMeasurer (P.low port.old) (P.high port.old) }
    requires passing { IsPassing (P.world port.old) (P.seen port.old) 0 passing.old }
    requires setting { IsSetting (P.world port.old) }
    requires legal { IsLegal (P.world port.old) (P.seen port.old) }
    requires room { length buffer.old ≡ (P.world port.old).layout.size }
    ensures port { KeepsPort (P.owner port.old) (P.owner port.new) (P.world port.old) (P.world port.new)
        (P.low port.old) (P.low port.new) (P.high port.old) (P.high port.new) }
    ensures copied { HasCopiedBlocks (P.world port.old) (P.seen port.old) (P.seen port.new) passing.old passing.new
        (copies (attested_blocks (P.world port.old).ranges)) (total (P.world port.old).ranges) result }
{
    laws::answers_make();
    blocks_in_order();
    'copying: for index in 0..passing.shape.ranges.total() {
        match copy_block(port, passing, index, buffer, gate) {
            Part::Made => {}
            Part::Full { place } => return Part::Full { place },
        }
    }
    Part::Made
}

/// The report on a pass whose End has this place: its digest takes in the places of Start and End last.
#[tactic(auto, unfolding(report::specs::Tags::report_tag))]
pub fn report_at(passing: Passing, end: u64) -> Report
    ensures report { result ≡ report_with passing end result.tag }
    ensures tag { (key text : List ℕ)
        → StandsFor passing.hmac key (head_bytes (asked_by passing.challenge) passing.shape ++ text)
        → result.tag ≡ report_tag key (asked_by passing.challenge) passing.shape text passing.start end }
{
    let Passing {
        challenge,
        shape,
        mut hmac,
        start,
    } = passing;
    hmac.update(&tail(start, end));
    let nonce = challenge.nonce;
    let tag = hmac.finish();
    Report {
        discipline: challenge.discipline,
        counter: challenge.counter,
        nonce,
        shape,
        start,
        end,
        tag,
    }
}

/// Ends the pass, and reports on it.
pub fn end_pass<P: BlockPort, G: Gate>(port: &mut P, passing: Passing, gate: &G) -> Attested
    requires actor { IsMeasurer (P.low port.old) (P.high port.old) }
    requires passing { IsPassing (P.world port.old) (P.seen port.old) (total (P.world port.old).ranges) passing }
    ensures port { KeepsPort (P.owner port.old) (P.owner port.new) (P.world port.old) (P.world port.new)
        (P.low port.old) (P.low port.new) (P.high port.old) (P.high port.new) }
    ensures ended { (key : List ℕ)
        → StandsFor passing.hmac key (head_bytes (asked_by passing.challenge) passing.shape ++ copied_bytes (P.world port.old) (reverse (P.seen port.old)))
        → IsEnded key (P.world port.old) passing (P.seen port.old) (P.seen port.new) result }
{
    laws::answers_make();
    laws::steps_of_a_pass();
    let end = match port.end() {
        Step::Done { place } => place,
        Step::Full { place } => return Attested::Full { place },
    };
    gate.at(MEASURER, made(MADE_END, end));
    Attested::Ended {
        report: report_at(passing, end),
    }
}

/// What comes after End: in an extended discipline the Ticks to hold for, and Release, with a note on it.
pub fn close<P: BlockPort, G: Gate>(
    port: &mut P,
    key: &[u8],
    challenge: &Challenge,
    report: &Report,
    gate: &G,
) -> Closed
    requires actor { IsMeasurer (P.low port.old) (P.high port.old) }
    requires legal { IsLegal (P.world port.old) (P.seen port.old) }
    requires under_way { IsUnderWay (P.world port.old) (P.seen port.old) challenge.now report.now.start (total (P.world port.old).ranges) true }
    ensures port { KeepsPort (P.owner port.old) (P.owner port.new) (P.world port.old) (P.world port.new)
        (P.low port.old) (P.low port.new) (P.high port.old) (P.high port.new) }
    ensures closed { HasClosed key.now (P.world port.old) challenge.now report.now (P.seen port.old) (P.seen port.new) result }
{
    laws::answers_make();
    laws::steps_of_a_pass();
    if !challenge.discipline.extended() {
        return Closed::Over;
    }
    match tick_for(port, challenge.hold, gate) {
        Part::Made => {}
        Part::Full { place } => return Closed::Full { place },
    }
    let place = match port.release() {
        Step::Done { place } => place,
        Step::Full { place } => return Closed::Full { place },
    };
    gate.at(MEASURER, made(MADE_RELEASE, place));
    Closed::Released {
        note: note_on(key, report, place),
    }
}
