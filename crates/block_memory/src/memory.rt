//! The bytes of memory.

ghost use Rattle.std.specs.Prelude.{◌≡◌, ℕ, ◌+◌, ◌-◌, ◌/◌, ◌%◌, ◌^◌, ◌<◌, ◌≤◌, ◌&&◌, nat_le, nat_lt, if◌then◌else◌, length, slice_index};
ghost use Rattle.history.specs.Layout.{width_bytes};

use crate::geometry::Geometry;
use history::Width;
use std::alloc::{AllocError, Global};
use std::marker::Model;

/// Puts `put` into `bytes` from the index `at` on.
fn write_at(bytes: &mut [u8], at: usize, put: &[u8])
    requires { at + length put.now ≤ length bytes.old }
    ensures count { length bytes.new ≡ length bytes.old }
    ensures each { (k : ℕ) → slice_index bytes.new k
        ≡ (if nat_le at k && nat_lt k (at + length put.now) then slice_index put.now (k - at)
        else slice_index bytes.old k) }
{
    bytes[at..at + put.len()].copy_from_slice(put);
}

/// Puts the lowest `width` bytes of the value into `bytes` from the index `at` on, the lowest first.
fn put(bytes: &mut [u8], at: usize, width: Width, value: u32)
    requires room { at + width_bytes width ≤ length bytes.old }
    requires small { value < 256 ^ width_bytes width }
    ensures count { length bytes.new ≡ length bytes.old }
    ensures each { (k : ℕ) → slice_index bytes.new k
        ≡ (if nat_le at k && nat_lt k (at + width_bytes width) then value / 256 ^ (k - at) % 256
        else slice_index bytes.old k) }
{
    match width {
        Width::Byte => bytes[at] = value as u8,
        Width::Half => write_at(bytes, at, &(value as u16).to_le_bytes()),
        Width::Word => write_at(bytes, at, &value.to_le_bytes()),
    }
}

/// So many of the number's lowest bits.
fn low_bits(number: u32, count: u32) -> u32
    requires { count ≤ 16 }
    ensures { result ≡ number % 2 ^ count }
{
    number & ((1 << count) - 1)
}

/// A device's memory: its geometry, and a buffer for each block.
#[derive(Drop)]
pub struct BlockMemory {
    geometry: Geometry,

    // a block has 2 ^ shift bytes
    shift: u32,
    blocks: Vec<Vec<u8>>,
}

impl Model for BlockMemory {
    ghost use Rattle.std.specs.Prelude.{◌≡◌, ◌^◌, ◌≤◌, length, All};
    ghost use Rattle.std.specs.List.{flat_map};
    ghost use Rattle.history.specs.Layout.{byte_count};
    ghost use Rattle.block_memory.specs.Bytes.{Held};

    ghost Value = { Held };

    ghost view = { λ m. record { layout = m.geometry; bytes = flat_map (λ block. block.items) m.blocks.items } };

    ghost invariant = { λ m. (m.geometry.size ≡ 2 ^ m.shift) × (m.shift ≤ 16)
        × (length m.blocks.items ≡ m.geometry.blocks)
        × All (λ block. length block.items ≡ m.geometry.size) m.blocks.items };
}

impl BlockMemory {
    ghost use Rattle.std.specs.Prelude.{◌≡◌, ℕ, ◌+◌, ◌*◌, ◌^◌, ◌<◌, ◌≤◌, List, [], ◌∷◌, length, slice_index, IfOk, IsTrue, unwrap_or};
    ghost use Rattle.history.specs.declared.events.Act.TheVariants.{Store};
    ghost use Rattle.history.specs.declared.events.Entry.{Entry};
    ghost use Rattle.history.specs.Layout.{Setting, byte_count, past_end, fits, is_aligned, block_start, width_bytes};
    ghost use Rattle.history.specs.Memory.{memory_after, value_in, put_at, bytes_from, block_bytes};
    ghost use Rattle.block_memory.specs.Bytes.{memory_of, IsMemoryOf};

    /// The memory with this geometry and these bytes, by rising address.
    pub fn new(alloc: Global, geometry: Geometry, image: &[u8]) -> Result<BlockMemory, AllocError>
        requires { length image.now ≡ byte_count geometry }
        ensures held { IfOk result (λ m. (m.layout ≡ geometry) × (m.bytes ≡ image.now)) }
        ensures history { IfOk result (λ m. (w : Setting) → w.layout ≡ geometry → w.image ≡ image.now
            → IsMemoryOf w [] m) }
    {
        let size = geometry.size() as usize;
        let count = geometry.blocks() as usize;
        let mut blocks = Vec::with_capacity(alloc, count)?;
        for block in 0..count {
            let start = size * block;
            blocks.push(Vec::from_slice(alloc, &image[start..start + size])?)?;
        }
        Ok(BlockMemory {
            geometry,
            shift: geometry.shift(),
            blocks,
        })
    }

    /// Where this memory lies.
    pub fn geometry(&self) -> Geometry
        ensures value { result ≡ self.now.layout }
        ensures whole { length self.now.bytes ≡ byte_count self.now.layout }
    {
        self.geometry
    }

    /// The bytes of the block that the access lies in, from its address on.
    fn from_address(&self, addr: u32, width: Width) -> &[u8]
        requires fits { IsTrue (fits self.now.layout addr width) }
        requires aligned { IsTrue (is_aligned addr width) }
        ensures room { width_bytes width ≤ length result.now }
        ensures bytes { (k : ℕ) → k < width_bytes width
            → slice_index result.now k ≡ memory_of self.now (addr + k) }
    {
        let at = addr - self.geometry.base();
        let offset = low_bits(at, self.shift) as usize;
        let block = &self.blocks[(at >> self.shift) as usize];
        &block[offset..]
    }

    /// The value of `width` bytes at this address, the lowest byte first, filled with zeros.
    pub fn load(&self, addr: u32, width: Width) -> u32
        requires fits { IsTrue (fits self.now.layout addr width) }
        requires aligned { IsTrue (is_aligned addr width) }
        ensures value { result ≡ value_in (memory_of self.now) addr width }
        ensures small { result < 256 ^ width_bytes width }
        ensures history { (w : Setting) (past : List Entry) → IsMemoryOf w past self.now
            → result ≡ value_in (memory_after w past) addr width }
    {
        let bytes = self.from_address(addr, width);
        match width {
            Width::Byte => u32::from(bytes[0]),
            Width::Half => u32::from(u16::from_le_bytes([bytes[0], bytes[1]])),
            Width::Word => u32::from_le_bytes([bytes[0], bytes[1], bytes[2], bytes[3]]),
        }
    }

    /// Puts the lowest `width` bytes of the value at this address, the lowest byte first, and changes
    /// no other byte.
    pub fn store(&mut self, addr: u32, width: Width, value: u32)
        requires fits { IsTrue (fits self.old.layout addr width) }
        requires aligned { IsTrue (is_aligned addr width) }
        requires small { value < 256 ^ width_bytes width }
        ensures layout { self.new.layout ≡ self.old.layout }
        ensures count { length self.new.bytes ≡ length self.old.bytes }
        ensures bytes { (x : ℕ) → self.old.layout.base ≤ x → x < past_end self.old.layout
            → memory_of self.new x
            ≡ unwrap_or (put_at (Store addr width value) x) (memory_of self.old x) }
        ensures history { (w : Setting) (past : List Entry) (actor : ℕ) → IsMemoryOf w past self.old
            → IsMemoryOf w (record { actor = actor; act = Store addr width value } ∷ past) self.new }
    {
        let at = addr - self.geometry.base();
        let offset = low_bits(at, self.shift) as usize;
        let block = &mut self.blocks[(at >> self.shift) as usize];
        put(block, offset, width, value);
    }

    /// Copies the block's bytes, by rising address. Blocks are numbered from 0.
    pub fn copy_block(&self, block: u32, into: &mut [u8])
        requires block { block < self.now.layout.blocks }
        requires room { length into.old ≡ self.now.layout.size }
        ensures bytes { into.new ≡ bytes_from (memory_of self.now)
            (block_start self.now.layout block) self.now.layout.size }
        ensures history { (w : Setting) (past : List Entry) → IsMemoryOf w past self.now
            → into.new ≡ block_bytes w (memory_after w past) block }
    {
        into.copy_from_slice(&self.blocks[block as usize]);
    }
}

/// Threads may share memory.
fn crosses<X: Send + Sync>(_value: &X) {}

fn memory_crosses(memory: &BlockMemory) {
    crosses(memory);
}
