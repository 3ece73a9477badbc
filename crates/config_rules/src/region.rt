//! Where memory lies, and which blocks of it are attested.

ghost use Rattle.std.specs.Prelude.{◌≡◌, ◌≤◌, IfOk, IfSome, IsErrOf, codes, Some, None, option_and_then};
ghost use Rattle.toml.specs.Data.{get_member};
ghost use Rattle.toml.specs.View.{items_view, table_view, view};
ghost use Rattle.history.specs.Attested.{IsRanges, last_end};
ghost use Rattle.config_rules.specs.Values.{each_of};
ghost use Rattle.config_rules.specs.Rules.{AnswersByRules, IsRegion, attested_by, block_size, is_absent, memory_layout, range_of, ranges_below, ranges_of_value, region};

use crate::values::{integer_between, number_at, value_at};
use att_base::DeviceFault;
use block_memory::Geometry;
use history::{layouts_are_tested, ranges_are_tested};
use lock_plan::{Range, Ranges};
use toml::{Table, Value};

/// The largest u32, as an integer of a document.
pub const MOST_U32: u64 = 4_294_967_295;

/// The largest number in a range.
const MOST_BLOCKS: u64 = 4096;

/// The most ranges of attested blocks.
const MOST_RANGES: usize = 8;

/// Where memory lies, and which blocks of it are attested.
#[derive(Clone, Copy, Debug, PartialEq, Eq)]
pub struct Region {
    /// Where memory lies.
    pub geometry: Geometry,
    /// The attested blocks, all of them in memory.
    pub ranges: Ranges,
}

// The block's bytes: a power of two from 16 to 65,536.
#[tactic(auto, unfolding(crate::specs::Rules::block_size))]
fn block_size(table: &Table) -> Option<u32>
    ensures { result ≡ block_size (table_view table.now) }
{
    match number_at(table, "block", 16, 65536) {
        Some(size) if size.is_power_of_two() => Some(size as u32),
        _ => None,
    }
}

// The geometry of 1 to 4,096 blocks of this size, from this base on.
#[tactic(auto, unfolding(crate::specs::Rules::memory_layout))]
fn memory_layout(table: &Table, base: u32, size: u32) -> Option<Geometry>
    ensures { result ≡ memory_layout base size (table_view table.now) }
{
    layouts_are_tested();
    match number_at(table, "blocks", 1, 4096) {
        Some(blocks) => Geometry::new(base, size, blocks as u32),
        None => None,
    }
}

// The value as a range: an array of its first block and its number of blocks.
#[tactic(auto, unfolding(crate::specs::Rules::range_of))]
fn range_of(value: &Value) -> Option<Range>
    ensures { result ≡ range_of (view value.now) }
{
    let Some(array) = value.as_array() else {
        return None;
    };
    match array.as_slice() {
        [first, attested] => {
            let Some(first) = integer_between(first, 0, MOST_BLOCKS) else {
                return None;
            };
            let Some(attested) = integer_between(attested, 0, MOST_BLOCKS) else {
                return None;
            };
            Some(Range {
                first: first as u32,
                attested: attested as u32,
            })
        }
        _ => None,
    }
}

// The values, each a range, as a device may have them below this block.
fn ranges_of(values: &[Value], end: u32) -> Option<Ranges>
    ensures { result ≡ option_and_then (ranges_below end) (each_of range_of (items_view values.now)) }
{
    ranges_are_tested();
    if values.len() > MOST_RANGES {
        return None;
    }
    let mut list = [Range {
        first: 0,
        attested: 0,
    }; MOST_RANGES];
    for (place, value) in values.iter().enumerate() {
        let Some(range) = range_of(value) else {
            return None;
        };
        list[place] = range;
    }
    let Some(ranges) = Ranges::new(&list[..values.len()]) else {
        return None;
    };
    if ranges.end() > end {
        return None;
    }
    Some(ranges)
}

// The value as an array of such ranges.
#[tactic(auto, unfolding(crate::specs::Rules::ranges_of_value))]
fn ranges_of_value(value: &Value, end: u32) -> Option<Ranges>
    ensures value { result ≡ ranges_of_value end (view value.now) }
    ensures ranges { IfSome result (λ ranges. IsRanges ranges) }
    ensures inside { IfSome result (λ ranges. last_end ranges ≤ end) }
{
    let Some(array) = value.as_array() else {
        return None;
    };
    ranges_of(array.as_slice(), end)
}

// Nothing stands at this key.
fn is_absent(table: &Table, key: &str) -> bool
    ensures { result ≡ is_absent key.now (table_view table.now) }
{
    value_at(table, key).is_none()
}

// Reads rules 5 and 6 where nothing stands at `ranges`.
#[tactic(auto, unfolding(crate::specs::Rules::attested_by))]
fn read_one_range(table: &Table, blocks: u32) -> Result<Ranges, DeviceFault>
    requires some { 1 ≤ blocks }
    requires few { blocks ≤ 4096 }
    ensures value { AnswersByRules (attested_by blocks (table_view table.now) None) result }
    ensures ranges { IfOk result (λ ranges. IsRanges ranges) }
    ensures inside { IfOk result (λ ranges. last_end ranges ≤ blocks) }
    ensures memory { IsErrOf result DeviceFault.Memory → ⊥ }
{
    let Some(first) = number_at(table, "first", 0, u64::from(blocks - 1)) else {
        return Err(DeviceFault::Rule(5));
    };
    let first = first as u32;
    let Some(attested) = number_at(table, "attested", 1, u64::from(blocks - first)) else {
        return Err(DeviceFault::Rule(6));
    };
    let attested = attested as u32;
    let Some(ranges) = Ranges::new(&[Range { first, attested }]) else {
        unreachable!();
    };
    Ok(ranges)
}

// Reads rules 5 and 6 where this value stands at `ranges`.
#[tactic(auto, unfolding(crate::specs::Rules::attested_by))]
fn read_several_ranges(table: &Table, value: &Value, blocks: u32) -> Result<Ranges, DeviceFault>
    ensures value { AnswersByRules (attested_by blocks (table_view table.now) (Some (view value.now))) result }
    ensures ranges { IfOk result (λ ranges. IsRanges ranges) }
    ensures inside { IfOk result (λ ranges. last_end ranges ≤ blocks) }
    ensures memory { IsErrOf result DeviceFault.Memory → ⊥ }
{
    let Some(ranges) = ranges_of_value(value, blocks) else {
        return Err(DeviceFault::Rule(5));
    };
    if !is_absent(table, "first") || !is_absent(table, "attested") {
        return Err(DeviceFault::Rule(6));
    }
    Ok(ranges)
}

// Reads rules 5 and 6.
fn read_ranges(table: &Table, blocks: u32) -> Result<Ranges, DeviceFault>
    requires some { 1 ≤ blocks }
    requires few { blocks ≤ 4096 }
    ensures value { AnswersByRules (attested_by blocks (table_view table.now) (get_member (codes "ranges") (table_view table.now))) result }
    ensures ranges { IfOk result (λ ranges. IsRanges ranges) }
    ensures inside { IfOk result (λ ranges. last_end ranges ≤ blocks) }
    ensures memory { IsErrOf result DeviceFault.Memory → ⊥ }
{
    match value_at(table, "ranges") {
        None => read_one_range(table, blocks),
        Some(value) => read_several_ranges(table, value, blocks),
    }
}

/// Reads rules 2 to 6.
#[tactic(auto, unfolding(crate::specs::Rules::region))]
pub fn read_region(table: &Table) -> Result<Region, DeviceFault>
    ensures value { AnswersByRules (region (table_view table.now)) result }
    ensures region { IfOk result IsRegion }
    // It takes no memory.
    ensures memory { IsErrOf result DeviceFault.Memory → ⊥ }
{
    let Some(base) = number_at(table, "base", 0, MOST_U32) else {
        return Err(DeviceFault::Rule(2));
    };
    let base = base as u32;
    let Some(size) = block_size(table) else {
        return Err(DeviceFault::Rule(3));
    };
    let Some(geometry) = memory_layout(table, base, size) else {
        return Err(DeviceFault::Rule(4));
    };
    let ranges = read_ranges(table, geometry.blocks())?;
    Ok(Region { geometry, ranges })
}
