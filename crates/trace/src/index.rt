//! Memory at any place of a recorded history, by copies of it that are kept on the way.

ghost use Rattle.std.specs.Prelude.{◌≡◌, ℕ, ◌+◌, ◌*◌, ◌<◌, ◌≤◌, ◌==◌, List, drop, if◌then◌else◌, length, slice_index, take, unwrap_or, IfOk};
ghost use Rattle.history.specs.declared.events.Act.TheVariants.{Store};
ghost use Rattle.history.specs.Layout.{Setting};
ghost use Rattle.history.specs.Memory.{memory_at, put_at};
ghost use Rattle.trace.specs.Index.{AreCheckpoints, IsWindow, memory_bytes};

use chronicle::{Act, Chronicle, Entry, Width, memory_later};
use std::alloc::{AllocError, Global};
use std::marker::Model;

/// How many entries lie between two copies of memory.
const STRIDE: usize = 65_536;

// Puts a byte at its address, where the window that begins at `low` has it.
fn put_byte(window: &mut [u8], low: u32, addr: u64, byte: u8)
    ensures { (k : ℕ) → k < length window.old
        → slice_index window.new k ≡ (if low + k == addr then byte else slice_index window.old k) }
{
    let low = u64::from(low);
    if addr >= low && addr - low < window.len() as u64 {
        window[(addr - low) as usize] = byte;
    }
}

// Puts a stored value into the window, as far as the window has its bytes.
fn put(window: &mut [u8], low: u32, addr: u32, width: Width, value: u32)
    ensures { (k : ℕ) → k < length window.old
        → slice_index window.new k ≡ unwrap_or (put_at (Store addr width value) (low + k)) (slice_index window.old k) }
{
    let bytes = value.to_le_bytes();
    for k in 0..width.bytes() {
        let byte = bytes[k as usize];
        put_byte(window, low, u64::from(addr) + u64::from(k), byte);
    }
}

// Copies the part of a memory that a window shows.
fn copy_part(window: &mut [u8], memory: &[u8], from: usize)
    requires { from + length window.old ≤ length memory.now }
    ensures { window.new ≡ take (length window.old) (drop from memory.now) }
{
    window.copy_from_slice(&memory[from..from + window.len()]);
}

// The window goes on by an act.
fn replay_act(window: &mut [u8], low: u32, act: &Act)
    ensures { (k : ℕ) → k < length window.old
        → slice_index window.new k ≡ unwrap_or (put_at act.now (low + k)) (slice_index window.old k) }
{
    match *act {
        Act::Store { addr, width, value } => put(window, low, addr, width, value),
        Act::Fetch { .. } | Act::Load { .. } => {}
        Act::Start { .. } | Act::Copy { .. } | Act::End | Act::Tick | Act::Release => {}
    }
}

// The window goes on from one place of the history to a later one.
fn replay(window: &mut [u8], low: u32, entries: &[Entry], from: usize, to: usize)
    requires order { from ≤ to }
    requires within { to ≤ length entries.now }
    ensures { (w : Setting) → IsWindow (memory_at w entries.now from) low window.old
        → IsWindow (memory_at w entries.now to) low window.new }
{
    memory_later();
    for place in from..to {
        replay_act(window, low, &entries[place].act);
    }
}

// The copy of memory that comes next, from the one at a place.
fn next_copy(
    alloc: Global,
    copy: &[u8],
    base: u32,
    entries: &[Entry],
    place: usize,
) -> Result<Vec<u8>, AllocError>
    requires { place + STRIDE ≤ length entries.now }
    ensures { IfOk result (λ next. (w : Setting) → w.layout.base ≡ base
        → copy.now ≡ memory_bytes w entries.now place → next.items ≡ memory_bytes w entries.now (place + STRIDE)) }
{
    let mut next = Vec::from_slice(alloc, copy)?;
    replay(&mut next, base, entries, place, place + STRIDE);
    Ok(next)
}

// The copies of memory that an index keeps.
fn checkpoints(alloc: Global, chronicle: &Chronicle) -> Result<Vec<Vec<u8>>, AllocError>
    ensures { IfOk result (λ copies. AreCheckpoints chronicle.now.world chronicle.now.entries copies.items) }
{
    let world = chronicle.world();
    let entries = chronicle.entries();
    let base = world.geometry().base();
    let count = entries.len() / STRIDE;
    let mut copies = Vec::with_capacity(alloc, count + 1)?;
    copies.push(Vec::from_slice(alloc, world.image())?)?;
    for k in 0..count {
        let next = next_copy(alloc, &copies[k], base, entries, STRIDE * k)?;
        copies.push(next)?;
    }
    Ok(copies)
}

/// A recorded history with copies of its memory: one at place 0 and one at each later place divisible by 65,536, so at
/// most 62 of at most 1 MiB. Clauses see the chronicle. None of its answers wants the history to be legal: a store puts
/// those of its bytes that lie in memory.
#[derive(Drop)]
pub struct Index<'a> {
    chronicle: &'a Chronicle,
    checkpoints: Vec<Vec<u8>>,
}

impl<'a> Model for Index<'a> {
    ghost use Rattle.chronicle.specs.Worlds.{Recorded};
    ghost use Rattle.trace.specs.Index.{AreCheckpoints};

    ghost Value = { Recorded };

    ghost view = { λ i. i.chronicle.now };

    ghost invariant = { λ i. AreCheckpoints i.chronicle.now.world i.chronicle.now.entries i.checkpoints.items };
}

impl<'a> Index<'a> {
    ghost use Rattle.std.specs.Prelude.{◌≡◌, ◌+◌, ◌≤◌, length, IfOk, IsTrue};
    ghost use Rattle.history.specs.Layout.{byte_count, fits, past_end};
    ghost use Rattle.history.specs.Memory.{memory_at, value_in};
    ghost use Rattle.trace.specs.Index.{IsWindow, memory_bytes};

    /// The index of this chronicle. It goes over the entries once. An `Err` is want of memory.
    pub fn new(alloc: Global, chronicle: &'a Chronicle) -> Result<Index<'a>, AllocError>
        ensures { IfOk result (λ index. index ≡ chronicle.now) }
    {
        let checkpoints = checkpoints(alloc, chronicle)?;
        Ok(Index {
            chronicle,
            checkpoints,
        })
    }

    /// The recorded history.
    pub fn chronicle(&self) -> &'a Chronicle
        ensures { result.now ≡ self.now }
    {
        self.chronicle
    }

    // Fills the window that begins at `low` with memory at a place.
    fn window_at(&self, place: u64, low: u32, window: &mut [u8])
        requires place { place ≤ length self.now.entries }
        requires low { self.now.world.layout.base ≤ low }
        requires room { low + length window.old ≤ past_end self.now.world.layout }
        ensures { IsWindow (memory_at self.now.world self.now.entries place) low window.new }
    {
        let chronicle = self.chronicle;
        let place = place as usize;
        let nearest = place / STRIDE;
        let from = (low - chronicle.world().geometry().base()) as usize;
        copy_part(window, &self.checkpoints[nearest], from);
        replay(window, low, chronicle.entries(), STRIDE * nearest, place);
    }

    /// Fills the buffer, which is as long as memory, with memory at a place of the history, by rising address. Place p is
    /// the point after the first p entries.
    pub fn memory_at(&self, place: u64, into: &mut [u8])
        requires place { place ≤ length self.now.entries }
        requires room { length into.old ≡ byte_count self.now.world.layout }
        ensures { into.new ≡ memory_bytes self.now.world self.now.entries place }
    {
        let base = self.chronicle().world().geometry().base();
        self.window_at(place, base, into);
    }

    /// The value of `width` bytes at this address at a place of the history, the lowest byte first, filled with zeros. It
    /// takes no memory.
    pub fn value_at(&self, place: u64, addr: u32, width: Width) -> u32
        requires place { place ≤ length self.now.entries }
        requires fits { IsTrue (fits self.now.world.layout addr width) }
        ensures { result ≡ value_in (memory_at self.now.world self.now.entries place) addr width }
    {
        match width {
            Width::Byte => {
                let mut bytes = [0u8; 1];
                self.window_at(place, addr, &mut bytes);
                u32::from(bytes[0])
            }
            Width::Half => {
                let mut bytes = [0u8; 2];
                self.window_at(place, addr, &mut bytes);
                u32::from(u16::from_le_bytes(bytes))
            }
            Width::Word => {
                let mut bytes = [0u8; 4];
                self.window_at(place, addr, &mut bytes);
                u32::from_le_bytes(bytes)
            }
        }
    }
}
