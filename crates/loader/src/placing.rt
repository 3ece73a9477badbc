//! Placing, test by test.

ghost use Rattle.std.specs.Prelude.{◌≡◌, ℕ, ◌+◌, ◌-◌, ◌≤◌, ◌&&◌, nat_le, nat_lt, if◌then◌else◌, length, replicate, slice_index, None, Some, IfOk};
ghost use Rattle.loader.specs.Placing.{segment_fault, is_entry};

use crate::faults::PlaceFault;
use crate::spans::{Span, first_overlap, is_inside};
use block_memory::{Geometry, Width, aligned};
use elf32::{Elf, Part};
use std::alloc::{AllocError, Global};

/// So many zeros.
fn zeros(alloc: Global, count: u32) -> Result<Vec<u8>, AllocError>
    ensures items { IfOk result (λ v. v.items ≡ replicate count 0) }
    ensures len { IfOk result (λ v. length v.items ≡ count) }
{
    vec![in alloc; 0; count as usize]
}

/// The fault of a segment after the earlier ones.
fn segment_fault(geometry: &Geometry, earlier: &[Span], span: &Span) -> Option<PlaceFault>
    ensures { result ≡ segment_fault geometry.now earlier.now span.now }
{
    if !is_inside(geometry, span) {
        return Some(PlaceFault::OutsideMemory {
            app: span.app,
            segment: span.segment,
        });
    }
    match first_overlap(earlier, span) {
        Some(with) => Some(PlaceFault::Overlap {
            app: span.app,
            segment: span.segment,
            with_app: with.app,
            with_segment: with.segment,
        }),
        None => None,
    }
}

/// The entry is divisible by 4, and its word fits memory.
fn is_entry(geometry: &Geometry, entry: u32) -> bool
    ensures { result ≡ is_entry geometry.now entry }
{
    aligned(entry, Width::Word) && geometry.fits(entry, Width::Word)
}

/// What is placed so far: memory's bytes, where the segments lie, and the entries.
#[derive(Drop)]
pub struct Placing {
    pub image: Vec<u8>,
    pub spans: Vec<Span>,
    pub entries: Vec<u32>,
}

impl Placing {
    ghost use Rattle.std.specs.Prelude.{◌≡◌, ◌<◌, ◌++◌, ◌∷◌, [], List, length, IfOk};
    ghost use Rattle.std.specs.Prelude.{◌+◌, ◌≤◌, IfErr, OnOk};
    ghost use Rattle.history.specs.Layout.{byte_count, past_end};
    ghost use Rattle.elf32.specs.Files.{FileSegment};
    ghost use Rattle.elf32.specs.Sound.{IsInRange};
    ghost use Rattle.loader.specs.Placing.{Test, segment_tests};
    ghost use Rattle.loader.specs.declared.faults.PlaceFault.TheVariants.{Memory};
    ghost use Rattle.loader.specs.Placing.Test.{TrySegment, TryEntry};
    ghost use Rattle.loader.specs.Steps.{Passed, Outcome, Writes};

    /// Nothing is placed: memory is zeros.
    pub fn new(alloc: Global, geometry: &Geometry) -> Result<Placing, AllocError>
        ensures { IfOk result (λ state. Passed geometry.now [] state) }
    {
        let image = zeros(alloc, geometry.byte_count())?;
        Ok(Placing {
            image,
            spans: Vec::new(alloc),
            entries: Vec::new(alloc),
        })
    }

    /// Tries a segment, and places it.
    fn segment(
        &mut self,
        geometry: &Geometry,
        app: u32,
        number: u32,
        part: &Part<'_>,
    ) -> Result<(), PlaceFault>
        requires count { length self.old.image.items ≡ byte_count geometry.now }
        requires in_range { IsInRange (record { addr = part.now.addr; size = part.now.size; bytes = part.now.bytes.now }) }
        ensures kept { length self.new.image.items ≡ length self.old.image.items }
        ensures outcome { (done : List Test) → Passed geometry.now done self.old
            → Outcome geometry.now (done ++ TrySegment app number (record { addr = part.now.addr; size = part.now.size; bytes = part.now.bytes.now }) ∷ []) self.new result }
    {
        let span = Span {
            app,
            segment: number,
            addr: part.addr,
            size: part.size,
        };
        match segment_fault(geometry, &self.spans, &span) {
            Some(fault) => Err(fault),
            None => self.put(geometry, span, part.bytes),
        }
    }

    /// Keeps a segment, and puts its bytes into memory.
    fn put(&mut self, geometry: &Geometry, span: Span, bytes: &[u8]) -> Result<(), PlaceFault>
        requires count { length self.old.image.items ≡ byte_count geometry.now }
        requires low { geometry.now.base ≤ span.addr }
        requires within { span.addr + length bytes.now ≤ past_end geometry.now }
        ensures kept { length self.new.image.items ≡ length self.old.image.items }
        ensures err { IfErr result (λ fault. fault ≡ Memory) }
        ensures spans { OnOk result (self.new.spans.items ≡ self.old.spans.items ++ span ∷ []) }
        ensures entries { OnOk result (self.new.entries.items ≡ self.old.entries.items) }
        ensures image { OnOk result (Writes geometry.now.base span.addr bytes.now self.old.image.items self.new.image.items) }
    {
        let Ok(()) = self.spans.push(span) else {
            return Err(PlaceFault::Memory);
        };
        let at = (span.addr - geometry.base()) as usize;
        self.image[at..at + bytes.len()].copy_from_slice(bytes);
        Ok(())
    }

    /// Tries an application's entry, and keeps it.
    fn entry(&mut self, geometry: &Geometry, app: u32, entry: u32) -> Result<(), PlaceFault>
        ensures kept { length self.new.image.items ≡ length self.old.image.items }
        ensures outcome { (done : List Test) → Passed geometry.now done self.old
            → Outcome geometry.now (done ++ TryEntry app entry ∷ []) self.new result }
    {
        if !is_entry(geometry, entry) {
            return Err(PlaceFault::EntryOutside { app });
        }
        let Ok(()) = self.entries.push(entry) else {
            return Err(PlaceFault::Memory);
        };
        Ok(())
    }

    /// Tries and places an application's segments.
    fn segments(&mut self, geometry: &Geometry, app: u32, elf: &Elf<'_>) -> Result<(), PlaceFault>
        requires count { length self.old.image.items ≡ byte_count geometry.now }
        ensures kept { length self.new.image.items ≡ length self.old.image.items }
        ensures outcome { (done : List Test) → Passed geometry.now done self.old
            → Outcome geometry.now (done ++ segment_tests app 0 elf.now.segments) self.new result }
    {
        for k in 0..elf.count() {
            self.segment(geometry, app, k, &elf.segment(k))?;
        }
        Ok(())
    }

    /// Tries and places an application: its segments, then its entry.
    pub fn application(
        &mut self,
        geometry: &Geometry,
        app: u32,
        elf: &Elf<'_>,
    ) -> Result<(), PlaceFault>
        requires count { length self.old.image.items ≡ byte_count geometry.now }
        ensures kept { length self.new.image.items ≡ length self.old.image.items }
        ensures outcome { (done : List Test) → Passed geometry.now done self.old
            → Outcome geometry.now (done ++ segment_tests app 0 elf.now.segments ++ TryEntry app elf.now.entry ∷ []) self.new result }
    {
        self.segments(geometry, app, elf)?;
        self.entry(geometry, app, elf.entry())
    }
}
