//! Up to eight ranges of attested blocks.

ghost use Rattle.std.specs.Prelude.{◌≡◌, ◌&&◌, nat_le, nat_lt, ◌↔◌, IsTrue};
ghost use Rattle.history.specs.Attested.{IsRanges, range_end};

use history::{Range, blocks_in_order, ranges_are_tested};
use std::marker::Model;

/// The most ranges that a device has.
const MOST_RANGES: usize = 8;

/// Every range ends at this block or before it.
const MOST_BLOCKS: u64 = 4096;

/// One to eight ranges by rising address, that neither meet nor touch, below block 4,096.
fn are_ranges(list: &[Range]) -> bool
    ensures { IsTrue result ↔ IsRanges list.now }
{
    if list.is_empty() || list.len() > MOST_RANGES {
        return false;
    }

    // the first block that the next range may begin at
    let mut least = 0;
    for range in list {
        let first = u64::from(range.first);
        if range.attested == 0 || first < least {
            return false;
        }
        least = first + u64::from(range.attested) + 1;
    }
    least <= MOST_BLOCKS + 1
}

/// The block is one of the range's.
fn has_block(range: Range, block: u32) -> bool
    ensures { result ≡ (nat_le range.first block && nat_lt block (range_end range)) }
{
    range.first <= block && block - range.first < range.attested
}

/// The attested blocks: one to eight ranges of them. Clauses see the list of the ranges.
#[derive(Clone, Copy, Debug, PartialEq, Eq)]
pub struct Ranges {
    count: u32,

    // of each range its first block and its number of blocks; places from `count` on have 0
    firsts: [u32; 8],
    sizes: [u32; 8],
}

impl Model for Ranges {
    ghost use Rattle.std.specs.Prelude.{◌≡◌, List, length, map, take};
    ghost use Rattle.history.specs.declared.ranges.Range.{Range};
    ghost use Rattle.history.specs.Attested.{IsRanges};
    ghost use Rattle.lock_plan.specs.Tables.{first_blocks, padded, paired, sizes_of};

    ghost Value = { List Range };

    ghost view = { λ r. take r.count (paired r.firsts r.sizes) };

    ghost invariant = { λ r. let ranges = take r.count (paired r.firsts r.sizes) in
        IsRanges ranges × (length ranges ≡ r.count) × (padded (first_blocks ranges) ≡ r.firsts)
        × (padded (sizes_of ranges) ≡ r.sizes) };

    ghost inverse = { λ l. record { count = length l; firsts = padded (first_blocks l); sizes = padded (sizes_of l) } };
}

impl Ranges {
    ghost use Rattle.std.specs.Prelude.{◌≡◌, ◌<◌, ◌≤◌, IsTrue, Some, IfSome, length, slice_get};
    ghost use Rattle.std.specs.Option.{SomeIff};
    ghost use Rattle.history.specs.Attested.{IsRanges, attested_block, index_of, is_attested, last_end, total};

    /// The blocks of these ranges. None exactly where there aren't one to eight of them, one has no block or
    /// doesn't end below the first block of the next, or the last one ends past block 4,096.
    pub fn new(list: &[Range]) -> Option<Ranges>
        ensures { SomeIff result (IsRanges list.now) list.now }
    {
        if !are_ranges(list) {
            return None;
        }
        let mut firsts = [0; 8];
        let mut sizes = [0; 8];
        for (place, range) in list.iter().enumerate() {
            firsts[place] = range.first;
            sizes[place] = range.attested;
        }
        Some(Ranges {
            count: list.len() as u32,
            firsts,
            sizes,
        })
    }

    /// The number of ranges.
    pub fn count(&self) -> u32
        ensures value { result ≡ length self.now }
        ensures ranges { IsRanges self.now }
    {
        self.count
    }

    /// The range with this number, from 0.
    pub fn range(&self, k: u32) -> Range
        requires { k < length self.now }
        ensures { slice_get self.now k ≡ Some result }
    {
        Range {
            first: self.firsts[k as usize],
            attested: self.sizes[k as usize],
        }
    }

    /// The first block past the last range.
    pub fn end(&self) -> u32
        ensures value { result ≡ last_end self.now }
        ensures ranges { IsRanges self.now }
    {
        let last = self.range(self.count() - 1);
        last.first + last.attested
    }

    /// The number of attested blocks.
    pub fn total(&self) -> u32
        ensures value { result ≡ total self.now }
        ensures ranges { IsRanges self.now }
        ensures few { result ≤ 4096 }
    {
        blocks_in_order();
        let mut total = 0;
        for k in 0..self.count() {
            total += self.range(k).attested;
        }
        total
    }

    /// The attested block with this index: so many attested blocks lie below it.
    pub fn block(&self, index: u32) -> u32
        requires { index < total self.now }
        ensures { result ≡ attested_block self.now index }
    {
        blocks_in_order();
        let mut rest = index;
        for k in 0..self.count() {
            let range = self.range(k);
            if rest < range.attested {
                return range.first + rest;
            }
            rest -= range.attested;
        }
        unreachable!()
    }

    /// The index of an attested block: how many attested blocks lie below it. None exactly where the block isn't
    /// attested.
    pub fn index(&self, block: u32) -> Option<u32>
        ensures value { SomeIff result (IsTrue (is_attested self.now block)) (index_of self.now block) }
        ensures below { IfSome result (λ index. index < total self.now) }
    {
        blocks_in_order();
        let mut below = 0;
        let mut attested = false;
        for k in 0..self.count() {
            let range = self.range(k);
            attested |= has_block(range, block);
            below += block.saturating_sub(range.first).min(range.attested);
        }
        if attested { Some(below) } else { None }
    }
}
