//! The run of a script.

ghost use Rattle.std.specs.Prelude.{◌≡◌, ◌^◌, ◌<◌, ℕ, List, [], ◌++◌, length, codes, All, IsTrue, IfOk, OnOk};
ghost use Rattle.std.specs.Fmt.{decimal};
ghost use Rattle.history.specs.Layout.{width_bytes};
ghost use Rattle.script.specs.declared.steps.Step.{Step as AStep};
ghost use Rattle.script.specs.Measuring.{may_come};
ghost use Rattle.script.specs.Attested.{FitsWidth, MayComeAll};
ghost use Rattle.script.specs.Steps.{meets_full};
ghost use Rattle.script.specs.Printed.{line, value_digits, nonce_with, steps_printed, printed};
ghost use Rattle.script.specs.Running.{StepRan, IsTaggedBy, end_text, is_end_full, past_of};
ghost use Rattle.history.specs.Pass.{pass_after};
ghost use Rattle.script.specs.Steps.{next_block};
ghost use Rattle.script.specs.Tagging.{IsTagging};

use crate::lines::{say_bytes, say_number, say_step, say_total};
use crate::tagger::Tagger;
use crate::{Script, Step};
use chronicle::{
    BlockPort, Discipline, MemPort, Read, Step as Done, Stored, Width, one_entry_more,
};
use lock_plan::PlanStep;
use mem_core::{Direct, MemCore};
use std::alloc::{AllocError, Global};

/// What a script prints, and whether its history filled.
#[derive(Drop)]
pub struct Printed {
    pub text: Vec<u8>,
    pub is_full: bool,
}

/// The measurer, as entries number actors.
const MEASURER: u32 = 0;

/// The one application of a script.
const APPLICATION: u32 = 1;

/// How a step of a script ended. A place is a number of entries.
#[derive(Clone, Copy, Debug, PartialEq, Eq)]
pub enum StepEnd {
    /// It made its entry, and its line is printed.
    Made,
    /// A store has to wait.
    Waits { place: u64 },
    /// The history is full.
    Full { place: u64 },
}

// A value that was loaded, in two digits for each byte.
fn say_value(out: &mut Vec<u8>, place: u64, width: Width, value: u32) -> Result<(), AllocError>
    requires { value < 256 ^ width_bytes width }
    ensures { OnOk result (out.new.items ≡ out.old.items ++ line (decimal place ++ (codes " load " ++ value_digits width value))) }
{
    match width {
        Width::Byte => say_bytes(out, place, b" load ", &[value as u8]),
        Width::Half => say_bytes(out, place, b" load ", &(value as u16).to_be_bytes()),
        Width::Word => say_bytes(out, place, b" load ", &value.to_be_bytes()),
    }
}

fn load(
    core: &mut MemCore,
    out: &mut Vec<u8>,
    width: Width,
    addr: u32,
) -> Result<StepEnd, AllocError>
    requires { IsTrue (may_come core.old.world (past_of core.old) (AStep.Load width addr)) }
    ensures { (key nonce : List ℕ) → IfOk result (StepRan key nonce core.old core.new (AStep.Load width addr) out.old.items out.new.items) }
{
    one_entry_more();
    match Direct::new(core, APPLICATION).load(addr, width) {
        Read::Done { value, place } => {
            say_value(out, place, width, value)?;
            Ok(StepEnd::Made)
        }
        Read::Full { place } => Ok(StepEnd::Full { place }),
    }
}

fn store(
    core: &mut MemCore,
    out: &mut Vec<u8>,
    width: Width,
    addr: u32,
    value: u32,
) -> Result<StepEnd, AllocError>
    requires may { IsTrue (may_come core.old.world (past_of core.old) (AStep.Store width addr value)) }
    requires small { value < 256 ^ width_bytes width }
    ensures { (key nonce : List ℕ) → IfOk result (StepRan key nonce core.old core.new (AStep.Store width addr value) out.old.items out.new.items) }
{
    one_entry_more();
    match Direct::new(core, APPLICATION).store(addr, width, value) {
        Stored::Done { place } => {
            say_step(out, place, b" store")?;
            Ok(StepEnd::Made)
        }
        Stored::Again { place } => Ok(StepEnd::Waits { place }),
        Stored::Full { place } => Ok(StepEnd::Full { place }),
    }
}

fn tick(core: &mut MemCore, out: &mut Vec<u8>) -> Result<StepEnd, AllocError>
    ensures { (key nonce : List ℕ) → IfOk result (StepRan key nonce core.old core.new AStep.Tick out.old.items out.new.items) }
{
    one_entry_more();
    match Direct::new(core, MEASURER).tick() {
        Done::Done { place } => {
            say_step(out, place, b" tick")?;
            Ok(StepEnd::Made)
        }
        Done::Full { place } => Ok(StepEnd::Full { place }),
    }
}

fn start(
    core: &mut MemCore,
    tagger: &mut Tagger,
    out: &mut Vec<u8>,
    discipline: Discipline,
    counter: u64,
    nonce: &[u8; 16],
) -> Result<StepEnd, AllocError>
    requires { IsTrue (may_come core.old.world (past_of core.old) (AStep.Start discipline counter nonce.now)) }
    ensures ran { (key old : List ℕ) → IfOk result (StepRan key old core.old core.new (AStep.Start discipline counter nonce.now) out.old.items out.new.items) }
    ensures tagging { (key old : List ℕ) → IsTagging core.old.world key old (past_of core.old) tagger.old
        → IfOk result (IsTaggedBy core.old.world key old nonce.now (past_of core.old) (AStep.Start discipline counter nonce.now) tagger.new) }
{
    one_entry_more();
    let shape = core.world().shape();
    match Direct::new(core, MEASURER).start(discipline, counter) {
        Done::Done { place } => {
            tagger.started(discipline, counter, nonce, &shape, place);
            say_step(out, place, b" start")?;
            Ok(StepEnd::Made)
        }
        Done::Full { place } => Ok(StepEnd::Full { place }),
    }
}

fn copy(
    core: &mut MemCore,
    tagger: &mut Tagger,
    buffer: &mut [u8],
    out: &mut Vec<u8>,
    block: u32,
) -> Result<StepEnd, AllocError>
    requires may { IsTrue (may_come core.old.world (past_of core.old) AStep.Copy) }
    requires next { block ≡ next_block core.old.world (pass_after (past_of core.old)) }
    requires room { length buffer.old ≡ core.old.world.layout.size }
    ensures ran { (key nonce : List ℕ) → IfOk result (StepRan key nonce core.old core.new AStep.Copy out.old.items out.new.items) }
    ensures tagging { (key nonce : List ℕ) → IsTagging core.old.world key nonce (past_of core.old) tagger.old
        → IfOk result (IsTaggedBy core.old.world key nonce nonce (past_of core.old) AStep.Copy tagger.new) }
{
    one_entry_more();
    match Direct::new(core, MEASURER).copy(block, buffer) {
        Done::Done { place } => {
            tagger.copied(buffer);
            say_number(out, place, b" copy ", u64::from(block))?;
            Ok(StepEnd::Made)
        }
        Done::Full { place } => Ok(StepEnd::Full { place }),
    }
}

fn end(core: &mut MemCore, tagger: &mut Tagger, out: &mut Vec<u8>) -> Result<StepEnd, AllocError>
    requires { IsTrue (may_come core.old.world (past_of core.old) AStep.End) }
    ensures ran { (key nonce : List ℕ) → IsTagging core.old.world key nonce (past_of core.old) tagger.old
        → IfOk result (StepRan key nonce core.old core.new AStep.End out.old.items out.new.items) }
    ensures tagging { (key nonce : List ℕ) → IsTagging core.old.world key nonce (past_of core.old) tagger.old
        → IfOk result (IsTaggedBy core.old.world key nonce nonce (past_of core.old) AStep.End tagger.new) }
{
    one_entry_more();
    match Direct::new(core, MEASURER).end() {
        Done::Done { place } => {
            let tag = tagger.ended(place);
            say_bytes(out, place, b" end ", &tag)?;
            Ok(StepEnd::Made)
        }
        Done::Full { place } => Ok(StepEnd::Full { place }),
    }
}

fn release(core: &mut MemCore, tagger: &Tagger, out: &mut Vec<u8>) -> Result<StepEnd, AllocError>
    requires { IsTrue (may_come core.old.world (past_of core.old) AStep.Release) }
    ensures { (key nonce : List ℕ) → IsTagging core.old.world key nonce (past_of core.old) tagger.now
        → IfOk result (StepRan key nonce core.old core.new AStep.Release out.old.items out.new.items) }
{
    one_entry_more();
    match Direct::new(core, MEASURER).release() {
        Done::Done { place } => {
            let tag = tagger.released(place);
            say_bytes(out, place, b" release ", &tag)?;
            Ok(StepEnd::Made)
        }
        Done::Full { place } => Ok(StepEnd::Full { place }),
    }
}

// One step of a script.
fn take_step(
    core: &mut MemCore,
    tagger: &mut Tagger,
    buffer: &mut [u8],
    out: &mut Vec<u8>,
    step: &Step,
) -> Result<StepEnd, AllocError>
    requires may { IsTrue (may_come core.old.world (past_of core.old) step.now) }
    requires within { FitsWidth step.now }
    requires room { length buffer.old ≡ core.old.world.layout.size }
    ensures ran { (key nonce : List ℕ) → IsTagging core.old.world key nonce (past_of core.old) tagger.old
        → IfOk result (StepRan key nonce core.old core.new step.now out.old.items out.new.items) }
    ensures tagging { (key nonce : List ℕ) → IsTagging core.old.world key nonce (past_of core.old) tagger.old
        → IfOk result (IsTaggedBy core.old.world key nonce (nonce_with nonce step.now) (past_of core.old) step.now tagger.new) }
{
    match *step {
        Step::Load { width, addr } => load(core, out, width, addr),
        Step::Store { width, addr, value } => store(core, out, width, addr, value),
        Step::Start {
            discipline,
            counter,
            nonce,
        } => { start(core, tagger, out, discipline, counter, &nonce) }
        Step::Copy => match core.next() {
            PlanStep::Copy(block) => copy(core, tagger, buffer, out, block),
            PlanStep::Start | PlanStep::End | PlanStep::Release => unreachable!(),
        },
        Step::End => end(core, tagger, out),
        Step::Tick => tick(core, out),
        Step::Release => release(core, tagger, out),
    }
}

// What is left to print of a step that made no entry; true where the history is full.
fn say_end(out: &mut Vec<u8>, end: StepEnd) -> Result<bool, AllocError>
    ensures text { OnOk result (out.new.items ≡ out.old.items ++ end_text end) }
    ensures full { IfOk result (λ full. full ≡ is_end_full end) }
{
    match end {
        StepEnd::Made => Ok(false),
        StepEnd::Waits { place } => {
            say_total(out, b"again ", place)?;
            Ok(false)
        }
        StepEnd::Full { place } => {
            say_total(out, b"full ", place)?;
            Ok(true)
        }
    }
}

// All steps of a script, from an empty history on; true where the history fills.
fn take_steps(
    core: &mut MemCore,
    tagger: &mut Tagger,
    buffer: &mut [u8],
    out: &mut Vec<u8>,
    steps: &[Step],
) -> Result<bool, AllocError>
    requires empty { core.old.history ≡ [] }
    requires begun { (nonce : List ℕ) → IsTagging core.old.world tagger.old.key.items nonce [] tagger.old }
    requires ordered { MayComeAll core.old.world [] steps.now }
    requires within { All FitsWidth steps.now }
    requires room { length buffer.old ≡ core.old.world.layout.size }
    ensures text { OnOk result (out.new.items ≡ out.old.items ++ steps_printed core.old.world tagger.old.key.items [] [] steps.now) }
    ensures full { IfOk result (λ full. full ≡ meets_full core.old.world [] steps.now) }
{
    for step in steps {
        let end = take_step(core, tagger, buffer, out, step)?;
        if say_end(out, end)? {
            return Ok(true);
        }
    }
    say_total(out, b"entries ", core.length())?;
    Ok(false)
}

/// Runs a script. Only want of memory refuses it.
pub fn run(alloc: Global, script: Script) -> Result<Printed, AllocError>
    ensures text { IfOk result (λ p. p.text.items ≡ printed script) }
    ensures full { IfOk result (λ p. p.is_full ≡ meets_full script.setting [] script.steps) }
{
    let (world, key, steps) = script.into_parts();
    let size = world.geometry().size() as usize;
    let mut core = MemCore::new(alloc, world)?;
    let mut tagger = Tagger::new(key);
    let mut buffer = vec![in alloc; 0; size]?;
    let mut text = Vec::new(alloc);
    let is_full = take_steps(&mut core, &mut tagger, &mut buffer, &mut text, &steps)?;
    Ok(Printed { text, is_full })
}
