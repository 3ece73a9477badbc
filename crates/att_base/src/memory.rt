// A source and a sink in memory, which move a few bytes a call and fail at chosen calls.
ghost use Rattle.std.specs.Prelude.{◌≡◌, ◌+◌, ◌-◌, ◌^◌, ◌<◌, ◌≤◌, ◌⊎◌, ◌↔◌, min, [], ◌++◌, length, take, drop, Some, Contains, IsTrue, IsErr, IfOk, OnOk, OnErr};
ghost use Rattle.att_base.specs.Faults.{one_more};
ghost use Rattle.att_base.specs.Streams.{put_before, put_after, CountsCall, IsDrained};
ghost use Rattle.att_base.specs.Fakes.{new_source, source_after, source_failed, new_sink, sink_after, sink_failed};

use crate::calls::Calls;
use crate::faults::Failed;
use crate::streams::{Sink, Source};
use std::alloc::{AllocError, Global};
use std::marker::Model;

// Copies the front of `from` to the front of `into`, as much as fits and at most `most` bytes, and gives the number.
fn copy_front(from: &[u8], into: &mut [u8], most: usize) -> usize
    ensures count { result ≡ min most (min (length into.new) (length from.now)) }
    ensures copied { take result into.new ≡ take result from.now }
{
    let count = most.min(into.len().min(from.len()));
    into[..count].copy_from_slice(&from[..count]);
    count
}

/// A source in memory. It tells what is left.
#[derive(Drop)]
pub struct MemSource {
    bytes: Vec<u8>,
    at: usize,
    step: usize,
    calls: Calls,
}

impl Model for MemSource {
    ghost use Rattle.std.specs.Prelude.{◌<◌, ◌≤◌, drop, vec_len};
    ghost use Rattle.att_base.specs.Fakes.{SourceState};

    ghost Value = { SourceState };

    ghost view = { λ s. record {
      left = drop s.at s.bytes.items;
      step = s.step;
      fails = s.calls.fails.items;
      next = s.calls.next;
      faults = s.calls.faults;
    } };

    ghost invariant = { λ s. (0 < s.step) × (s.at ≤ vec_len s.bytes) };
}

impl MemSource {
    /// A source of these bytes. A call moves at most `step` bytes, and the calls whose numbers are in `fails` fail.
    /// Calls are numbered from 0, up to `2^64 - 1`.
    pub fn new(bytes: Vec<u8>, step: usize, fails: Vec<u64>) -> MemSource
        requires { 1 ≤ step }
        ensures { result ≡ new_source bytes.items step fails.items }
    {
        let calls = Calls::new(fails);
        MemSource {
            bytes,
            at: 0,
            step,
            calls,
        }
    }

    /// What is left to read.
    pub fn left(&self) -> &[u8]
        ensures { result.now ≡ self.now.left }
    {
        &self.bytes[self.at..]
    }
}

impl Source for MemSource {
    ghost left = { λ s. Some s.left };

    ghost faults = { λ s. s.faults };

    /// Moves as much as fits, at most `step` bytes. It fails exactly where the call's number is listed.
    fn read(&mut self, into: &mut [u8]) -> Result<usize, Failed>
        ensures bound { IfOk result (λ n. n ≤ length into.new) }
        ensures bytes { IfOk result (λ n. Some self.old.left ≡ put_before (take n into.new) (Some self.new.left)) }
        ensures end { IfOk result (λ n. n ≡ 0 → 0 < length into.new → IsDrained (Some self.old.left)) }
        ensures err { OnErr result (Some self.new.left ≡ Some self.old.left) }
        ensures counted { CountsCall result self.old.faults self.new.faults }
        ensures listed { IsErr result ↔ Contains self.old.fails self.old.next }
        ensures count { IfOk result (λ n. n ≡ min self.old.step (min (length into.new) (length self.old.left))) }
        ensures moved { IfOk result (λ n. self.new ≡ source_after self.old n) }
        ensures failed { OnErr result (self.new ≡ source_failed self.old) }
    {
        if self.calls.begin() {
            return Err(self.calls.fail());
        }
        let count = copy_front(&self.bytes[self.at..], into, self.step);
        self.at += count;
        Ok(count)
    }
}

/// A sink in memory, of a fixed room. It tells what it holds.
#[derive(Drop)]
pub struct MemSink {
    held: Vec<u8>,
    room: usize,
    step: usize,
    calls: Calls,
}

impl Model for MemSink {
    ghost use Rattle.std.specs.Prelude.{◌<◌, ◌≤◌, vec_len, vec_capacity};
    ghost use Rattle.att_base.specs.Fakes.{SinkState};

    ghost Value = { SinkState };

    ghost view = { λ s. record {
      held = s.held.items;
      room = s.room;
      step = s.step;
      fails = s.calls.fails.items;
      next = s.calls.next;
      faults = s.calls.faults;
    } };

    ghost invariant = { λ s. (0 < s.step) × (vec_len s.held ≤ s.room) × (s.room ≤ vec_capacity s.held) };
}

impl MemSink {
    /// An empty sink of this room, which it reserves. A call moves at most `step` bytes. The calls whose numbers are
    /// in `fails` fail, and so does each call while the sink is full. Calls are numbered from 0, up to `2^64 - 1`.
    pub fn new(
        alloc: Global,
        room: usize,
        step: usize,
        fails: Vec<u64>,
    ) -> Result<MemSink, AllocError>
        requires { 1 ≤ step }
        ensures { IfOk result (λ s. s ≡ new_sink room step fails.items) }
    {
        let held = Vec::with_capacity(alloc, room)?;
        let calls = Calls::new(fails);
        Ok(MemSink {
            held,
            room,
            step,
            calls,
        })
    }

    /// What was written.
    pub fn held(&self) -> &[u8]
        ensures { result.now ≡ self.now.held }
    {
        &self.held
    }
}

impl Sink for MemSink {
    ghost held = { λ s. Some s.held };

    ghost faults = { λ s. s.faults };

    /// Appends as much as fits, at most `step` bytes. It fails exactly where the call's number is listed or the sink
    /// is full. It takes no memory.
    fn write(&mut self, piece: &[u8]) -> Result<usize, Failed>
        ensures bound { IfOk result (λ n. n ≤ length piece.now) }
        ensures bytes { IfOk result (λ n. Some self.new.held ≡ put_after (Some self.old.held) (take n piece.now)) }
        ensures progress { IfOk result (λ n. 0 < length piece.now → 0 < n) }
        ensures err { OnErr result (Some self.new.held ≡ Some self.old.held) }
        ensures counted { CountsCall result self.old.faults self.new.faults }
        ensures refused { IsErr result ↔ (Contains self.old.fails self.old.next ⊎ (length self.old.held ≡ self.old.room)) }
        ensures count { IfOk result (λ n.
            n ≡ min self.old.step (min (length piece.now) (self.old.room - length self.old.held))) }
        ensures moved { IfOk result (λ n. self.new ≡ sink_after self.old piece.now n) }
        ensures failed { OnErr result (self.new ≡ sink_failed self.old) }
    {
        if self.calls.begin() {
            return Err(self.calls.fail());
        }
        let room = self.room - self.held.len();
        if room == 0 {
            return Err(self.calls.fail());
        }
        let count = self.step.min(piece.len().min(room));
        let Ok(()) = self.held.extend_from_slice(&piece[..count]) else {
            unreachable!()
        };
        Ok(count)
    }
}
