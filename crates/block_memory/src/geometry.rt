//! Where memory lies, and which accesses it has room for.

ghost use Rattle.std.specs.Prelude.{◌≡◌, ◌↔◌, IsTrue};
ghost use Rattle.history.specs.Layout.{IsBlockSize, is_aligned};

use history::Width;
use std::marker::Model;

/// The most blocks that a memory has.
const MOST_BLOCKS: u32 = 4096;

/// The most bytes that a memory has: 1 MiB.
const MOST_BYTES: u32 = 1_048_576;

/// The size is a power of two from 16 to 65,536.
fn is_block_size(size: u32) -> bool
    ensures { IsTrue result ↔ IsBlockSize size }
{
    for exponent in 4u32..17 {
        if size == 1 << exponent {
            return true;
        }
    }
    false
}

/// The address is divisible by the width's bytes.
pub fn aligned(addr: u32, width: Width) -> bool
    ensures { IsTrue result ↔ IsTrue (is_aligned addr width) }
{
    addr % width.bytes() == 0
}

/// Where memory lies: `blocks` blocks of `size` bytes each, from the address `base` on.
#[derive(Clone, Copy, Debug, PartialEq, Eq)]
pub struct Geometry {
    base: u32,
    size: u32,
    blocks: u32,
}

impl Model for Geometry {
    ghost use Rattle.history.specs.Layout.{Layout, IsLayout};

    ghost Value = { Layout };

    ghost view = { λ g. record { base = g.base; size = g.size; blocks = g.blocks } };

    ghost invariant = { λ g. IsLayout (record { base = g.base; size = g.size; blocks = g.blocks }) };

    ghost inverse = { λ l. record { base = l.base; size = l.size; blocks = l.blocks } };
}

impl Geometry {
    ghost use Rattle.std.specs.Prelude.{◌≡◌, ◌^◌, ◌<◌, ◌≤◌, ◌↔◌, IsTrue, IfSome};
    ghost use Rattle.std.specs.Option.{SomeIff};
    ghost use Rattle.history.specs.Layout.{Layout, IsLayout, byte_count, has_byte, block_of, fits};

    /// The geometry with these numbers. None exactly where the size isn't a power of two from 16 to
    /// 65,536, the blocks aren't 1 to 4,096, the bytes are more than 1 MiB, the base isn't divisible
    /// by the size, or memory reaches past 2^32.
    pub fn new(base: u32, size: u32, blocks: u32) -> Option<Geometry>
        ensures { let layout : Layout = record { base = base; size = size; blocks = blocks } in
            SomeIff result (IsLayout layout) layout }
    {
        if !is_block_size(size) || blocks == 0 || blocks > MOST_BLOCKS {
            return None;
        }
        let bytes = size * blocks;
        if bytes > MOST_BYTES || base % size != 0 || u64::from(base) + u64::from(bytes) > 1 << 32 {
            return None;
        }
        Some(Geometry { base, size, blocks })
    }

    /// The first address of memory.
    pub fn base(&self) -> u32
        ensures value { result ≡ self.now.base }
        ensures layout { IsLayout self.now }
    {
        self.base
    }

    /// The bytes of a block.
    pub fn size(&self) -> u32
        ensures value { result ≡ self.now.size }
        ensures layout { IsLayout self.now }
        ensures least { 16 ≤ result }
        ensures most { result ≤ 65536 }
    {
        self.size
    }

    /// The exponent of the block's size, which is a power of two.
    pub(crate) fn shift(&self) -> u32
        ensures value { self.now.size ≡ 2 ^ result }
        ensures least { 4 ≤ result }
        ensures most { result ≤ 16 }
    {
        for exponent in 4u32..16 {
            if self.size == 1 << exponent {
                return exponent;
            }
        }
        16
    }

    /// The number of blocks.
    pub fn blocks(&self) -> u32
        ensures value { result ≡ self.now.blocks }
        ensures layout { IsLayout self.now }
    {
        self.blocks
    }

    /// The number of bytes in memory.
    pub fn byte_count(&self) -> u32
        ensures value { result ≡ byte_count self.now }
        ensures layout { IsLayout self.now }
    {
        self.size * self.blocks
    }

    /// The number of the block that has the byte at this address, from 0; None exactly where the byte
    /// lies outside memory.
    pub fn block_of(&self, addr: u32) -> Option<u32>
        ensures value { SomeIff result (IsTrue (has_byte self.now addr)) (block_of self.now addr) }
        ensures below { IfSome result (λ block. block < self.now.blocks) }
    {
        if addr < self.base || addr - self.base >= self.byte_count() {
            return None;
        }
        Some((addr - self.base) / self.size)
    }

    /// All bytes of the access lie in memory.
    pub fn fits(&self, addr: u32, width: Width) -> bool
        ensures { IsTrue result ↔ IsTrue (fits self.now addr width) }
    {
        let end = u64::from(addr) + u64::from(width.bytes());
        addr >= self.base && end <= u64::from(self.base) + u64::from(self.byte_count())
    }
}
