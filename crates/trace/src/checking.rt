//! Whether a history is legal, entry by entry.

ghost use Rattle.std.specs.Prelude.{◌≡◌, ℕ, ◌^◌, ◌%◌, ◌<◌, ◌&&◌, nat_lt, not, if◌then◌else◌, IsTrue, List, ◌∷◌, length, OnOk, IfErr};
ghost use Rattle.history.specs.declared.events.Entry.{Entry};
ghost use Rattle.history.specs.Attested.{IsRanges};
ghost use Rattle.history.specs.declared.ranges.Range.{Range};
ghost use Rattle.history.specs.Layout.{Setting, fits, is_aligned, width_bytes};
ghost use Rattle.history.specs.Pass.{pass_after};
ghost use Rattle.history.specs.Legal.{IsLegal, actor_fits, in_range, in_order};
ghost use Rattle.history.specs.Broken.{broken_rule};
ghost use Rattle.block_memory.specs.Bytes.{IsMemoryOf};
ghost use Rattle.lock_plan.specs.Plans.{plan_after};
ghost use Rattle.trace.specs.Checking.{HasReplayed, TellsBreak, act_rule, read_rule, store_rule};

use block_memory::{BlockMemory, aligned, reads_keep_memory};
use chronicle::{Act, Chronicle, Entry, Width, World, broken_is_exact, places_of_a_history};
use history::blocks_in_order;
use lock_plan::{Plan, PlanStep, order_gives_next_step};
use std::alloc::Global;

/// Why a history isn't found legal.
#[derive(Clone, Copy, Debug, PartialEq, Eq)]
pub enum CheckFault {
    /// The first entry that breaks a rule, counted from 1, and the least rule that it breaks: 1 actor, 2 range,
    /// 3 value, 4 locked, 5 order, 6 cap.
    Broken { place: u64, rule: u32 },
    /// There is no memory for the check.
    Memory,
}

// Applications are 1 to 8, the measurer is 0.
fn actor_fits(entry: &Entry) -> bool
    ensures { result ≡ actor_fits entry.now }
{
    match entry.act {
        Act::Fetch { .. } | Act::Load { .. } | Act::Store { .. } => {
            1 <= entry.actor && entry.actor <= 8
        }
        Act::Start { .. } | Act::Copy { .. } | Act::End | Act::Tick | Act::Release => {
            entry.actor == 0
        }
    }
}

// The access lies in memory and is aligned.
fn access_fits(world: &World, addr: u32, width: Width) -> bool
    ensures { result ≡ (fits world.now.layout addr width && is_aligned addr width) }
{
    world.geometry().fits(addr, width) && aligned(addr, width)
}

fn read_rule(
    world: &World,
    memory: &BlockMemory,
    addr: u32,
    width: Width,
    value: u32,
) -> Option<u32>
    requires { memory.now.layout ≡ world.now.layout }
    ensures { (past : List Entry) → IsMemoryOf world.now past memory.now
        → result ≡ read_rule world.now past addr width value }
{
    if !access_fits(world, addr, width) {
        return Some(2);
    }
    if value != memory.load(addr, width) {
        return Some(3);
    }
    None
}

fn store_rule(world: &World, plan: &Plan, addr: u32, width: Width) -> Option<u32>
    ensures { (past : List Entry) → plan.now ≡ plan_after world.now.ranges past
        → result ≡ store_rule world.now past addr width }
{
    if !access_fits(world, addr, width) {
        return Some(2);
    }
    match world.geometry().block_of(addr) {
        Some(block) if plan.is_locked(block) => Some(4),
        _ => None,
    }
}

// Whether the plan allows the act next.
fn is_in_order(plan: &Plan, act: &Act) -> bool
    ensures { (w : Setting) (past : List Entry) → plan.now ≡ plan_after w.ranges past
        → result ≡ in_order w (pass_after past) act.now }
{
    match *act {
        Act::Start { .. } => plan.next() == PlanStep::Start,
        Act::Copy { block } => plan.next() == PlanStep::Copy(block),
        Act::End => plan.next() == PlanStep::End,
        Act::Release => plan.next() == PlanStep::Release,
        Act::Fetch { .. } | Act::Load { .. } | Act::Store { .. } | Act::Tick => true,
    }
}

// The least rule that the act breaks, of those from its range to the order of a measurement.
fn act_rule(world: &World, memory: &BlockMemory, plan: &Plan, act: &Act) -> Option<u32>
    requires { memory.now.layout ≡ world.now.layout }
    ensures { (past : List Entry) → HasReplayed world.now past memory.now plan.now
        → result ≡ act_rule world.now past act.now }
{
    match *act {
        Act::Fetch { addr, value } => read_rule(world, memory, addr, Width::Word, value),
        Act::Load { addr, width, value } => read_rule(world, memory, addr, width, value),
        Act::Store { addr, width, .. } => store_rule(world, plan, addr, width),
        Act::Start { .. } | Act::Copy { .. } | Act::End | Act::Tick | Act::Release => {
            if is_in_order(plan, act) {
                None
            } else {
                Some(5)
            }
        }
    }
}

// The least rule that the entry breaks after so many entries.
fn rule_of(
    world: &World,
    memory: &BlockMemory,
    plan: &Plan,
    entry: &Entry,
    count: u64,
) -> Option<u32>
    requires { memory.now.layout ≡ world.now.layout }
    ensures { (past : List Entry) → HasReplayed world.now past memory.now plan.now → length past ≡ count
        → result ≡ broken_rule world.now past entry.now }
{
    if !actor_fits(entry) {
        return Some(1);
    }
    if let Some(rule) = act_rule(world, memory, plan, &entry.act) {
        return Some(rule);
    }
    if count < world.cap() { None } else { Some(6) }
}

// The part of a stored value that fits its width.
fn low_part(width: Width, value: u32) -> u32
    ensures value { result ≡ value % 256 ^ width_bytes width }
    ensures small { result < 256 ^ width_bytes width }
{
    match width {
        Width::Byte => value % 256,
        Width::Half => value % 65_536,
        Width::Word => value,
    }
}

// Memory goes on by an act in its range.
fn replay_memory(memory: &mut BlockMemory, act: &Act)
    requires { (w : Setting) × (w.layout ≡ memory.old.layout) × IsTrue (in_range w act.now) }
    ensures { (w : Setting) (past : List Entry) (actor : ℕ) → IsMemoryOf w past memory.old
        → IsMemoryOf w (record { actor = actor; act = act.now } ∷ past) memory.new }
{
    reads_keep_memory();
    match *act {
        Act::Store { addr, width, value } => memory.store(addr, width, low_part(width, value)),
        Act::Fetch { .. } | Act::Load { .. } => {}
        Act::Start { .. } | Act::Copy { .. } | Act::End | Act::Tick | Act::Release => {}
    }
}

// The plan goes on by an act in order.
fn replay_plan(plan: &mut Plan, act: &Act)
    requires { (w : Setting) × (past : List Entry) × IsRanges w.ranges × (plan.old ≡ plan_after w.ranges past)
        × IsTrue (in_order w (pass_after past) act.now) }
    ensures { (ranges : List Range) (past : List Entry) (actor : ℕ) → plan.old ≡ plan_after ranges past
        → plan.new ≡ plan_after ranges (record { actor = actor; act = act.now } ∷ past) }
{
    order_gives_next_step();
    match *act {
        Act::Start { discipline, .. } => plan.start(discipline),
        Act::Copy { .. } => plan.copied(),
        Act::End => plan.ended(),
        Act::Release => plan.released(),
        Act::Fetch { .. } | Act::Load { .. } | Act::Store { .. } | Act::Tick => {}
    }
}

/// Whether the entries are a legal history of the world. An `Err` of a break names the first entry that breaks a rule, and
/// the least such rule; there is one exactly where the history isn't legal.
pub fn check(alloc: Global, chronicle: &Chronicle) -> Result<(), CheckFault>
    ensures legal { OnOk result (IsLegal chronicle.now.world chronicle.now.entries) }
    ensures broken { IfErr result (TellsBreak chronicle.now.world chronicle.now.entries) }
{
    broken_is_exact();
    places_of_a_history();
    blocks_in_order();
    let world = chronicle.world();
    let Ok(mut memory) = BlockMemory::new(alloc, world.geometry(), world.image()) else {
        return Err(CheckFault::Memory);
    };
    let mut plan = Plan::new(*world.ranges());
    let mut count = 0u64;
    for entry in chronicle.entries() {
        match rule_of(world, &memory, &plan, entry, count) {
            None => {}
            Some(rule) => {
                return Err(CheckFault::Broken {
                    place: count + 1,
                    rule,
                });
            }
        }
        replay_memory(&mut memory, &entry.act);
        replay_plan(&mut plan, &entry.act);
        count += 1;
    }
    Ok(())
}
