//! What holds of the attested blocks, whatever the ranges of a device.

ghost use Rattle.std.specs.Prelude.{◌≡◌, ℕ, ◌+◌, ◌-◌, ◌<◌, ◌≤◌, ◌&&◌, nat_le, nat_lt, min, IsTrue, List, [], ◌∷◌, ◌++◌, take, sum_by};
ghost use Rattle.std.specs.List.{list_any};
ghost use Rattle.history.specs.Attested.{AreApart, IsRanges, are_ranges, attested_block, attested_blocks, index_of, is_attested, last_end, range_end, total};
ghost use Rattle.history.specs.declared.ranges.Range.{Range};

/// The test of ranges and the fact say the same.
pub fn ranges_are_tested()
    ensures is { (ranges : List Range) → IsTrue (are_ranges ranges) → IsRanges ranges }
    ensures tested { (ranges : List Range) → IsRanges ranges → IsTrue (are_ranges ranges) }
{}

/// The attested blocks by their indexes: an attested block has an index below their number, and is the attested block
/// with that index; each index below their number is that of an attested block, which lies before the end of the last
/// range. And the same said by ranges: a block is attested where a range has it, an index is a sum over the ranges,
/// and so is the number of attested blocks.
pub fn blocks_in_order()
    ensures index { (ranges : List Range) → AreApart ranges → (block : ℕ)
        → IsTrue (is_attested ranges block) → index_of ranges block < total ranges }
    ensures block { (ranges : List Range) → AreApart ranges → (block : ℕ)
        → IsTrue (is_attested ranges block) → attested_block ranges (index_of ranges block) ≡ block }
    ensures attested { (ranges : List Range) → AreApart ranges → (index : ℕ)
        → index < total ranges → IsTrue (is_attested ranges (attested_block ranges index)) }
    ensures indexed { (ranges : List Range) → AreApart ranges → (index : ℕ)
        → index < total ranges → index_of ranges (attested_block ranges index) ≡ index }
    ensures inside { (ranges : List Range) → AreApart ranges → (block : ℕ)
        → IsTrue (is_attested ranges block) → block < last_end ranges }
    ensures next { (ranges : List Range) → AreApart ranges → (index : ℕ)
        → index < total ranges → take (index + 1) (attested_blocks ranges) ≡ take index (attested_blocks ranges) ++ attested_block ranges index ∷ [] }
    ensures by_ranges { (ranges : List Range) (block : ℕ)
        → is_attested ranges block ≡ list_any (λ r. nat_le r.first block && nat_lt block (range_end r)) ranges }
    ensures index_by_ranges { (ranges : List Range) (block : ℕ)
        → index_of ranges block ≡ sum_by (λ r. min r.attested (block - r.first)) ranges }
    ensures total_by_ranges { (ranges : List Range) → total ranges ≡ sum_by (λ r. r.attested) ranges }
    ensures few { (ranges : List Range) → AreApart ranges → total ranges ≤ last_end ranges }
{}
