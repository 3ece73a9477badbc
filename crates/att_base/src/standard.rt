// The real streams: a few lines over what std reads from and writes to.
ghost use Rattle.std.specs.Prelude.{◌≡◌, ℕ, ◌<◌, ◌≤◌, length, take, IfOk, OnOk, OnErr};
ghost use Rattle.att_base.specs.Streams.{put_after, CountsCall, TellsAlike};

use crate::faults::Failed;
use crate::streams::{Sink, Source};
use std::io::{Read, Write};

/// What std reads from, as standard input. It tells what std's reader tells.
///
/// Each error of the reader counts as a fault, and so does a call that was interrupted.
#[derive(Drop)]
pub struct StdSource<R: Read> {
    inner: R,
    faults: u64,
    ghost alike: { TellsAlike R.remaining },
}

impl<R: Read> StdSource<R> {
    /// A source over a reader, with no fault yet. Either each reader of this type tells what is left, or none does.
    pub fn new(inner: R) -> StdSource<R>
        requires { TellsAlike R.remaining }
        ensures left { ⟦<StdSource<R> as Source>⟧.left result ≡ R.remaining inner }
        ensures faults { ⟦<StdSource<R> as Source>⟧.faults result ≡ 0 }
    {
        StdSource { inner, faults: 0 }
    }
}

impl<R: Read> Source for StdSource<R> {
    ghost left = { λ s. R.remaining s.inner };

    ghost faults = { λ s. s.faults };

    fn read(&mut self, into: &mut [u8]) -> Result<usize, Failed> {
        match self.inner.read(into) {
            Ok(count) => Ok(count),
            Err(_) => {
                self.faults = self.faults.saturating_add(1);
                Err(Failed)
            }
        }
    }
}

// One write. To take nothing of a piece that isn't empty counts as a fault, as each error does.
fn write_counted<W: Write>(inner: &mut W, faults: &mut u64, piece: &[u8]) -> Result<usize, Failed>
    requires { TellsAlike W.contents }
    ensures bound { IfOk result (λ n. n ≤ length piece.now) }
    ensures bytes { IfOk result (λ n. W.contents inner.new ≡ put_after (W.contents inner.old) (take n piece.now)) }
    ensures progress { IfOk result (λ n. 0 < length piece.now → 0 < n) }
    ensures err { OnErr result (W.contents inner.new ≡ W.contents inner.old) }
    ensures counted { CountsCall result faults.old faults.new }
{
    match inner.write(piece) {
        Ok(count) if count > 0 || piece.is_empty() => Ok(count),
        _ => {
            *faults = faults.saturating_add(1);
            Err(Failed)
        }
    }
}

/// What std writes to, as standard output. It tells what std's writer tells.
///
/// Each error of the writer counts as a fault, and so does a call that was interrupted, or that took nothing of a
/// piece that isn't empty. It keeps nothing back: what a call took has gone to the writer.
#[derive(Drop)]
pub struct StdSink<W: Write> {
    inner: W,
    faults: u64,
    ghost alike: { TellsAlike W.contents },
}

impl<W: Write> StdSink<W> {
    /// A sink over a writer, with no fault yet. Either each writer of this type tells what it holds, or none does.
    pub fn new(inner: W) -> StdSink<W>
        requires { TellsAlike W.contents }
        ensures held { ⟦<StdSink<W> as Sink>⟧.held result ≡ W.contents inner }
        ensures faults { ⟦<StdSink<W> as Sink>⟧.faults result ≡ 0 }
    {
        StdSink { inner, faults: 0 }
    }
}

impl<W: Write> Sink for StdSink<W> {
    ghost held = { λ s. W.contents s.inner };

    ghost faults = { λ s. s.faults };

    fn write(&mut self, piece: &[u8]) -> Result<usize, Failed> {
        write_counted(&mut self.inner, &mut self.faults, piece)
    }
}

/// What std writes messages to, as standard error. It is in all a `StdSink`, of a type of its own.
#[derive(Drop)]
pub struct StdErr<W: Write> {
    inner: W,
    faults: u64,
    ghost alike: { TellsAlike W.contents },
}

impl<W: Write> StdErr<W> {
    /// A sink over a writer, with no fault yet. Either each writer of this type tells what it holds, or none does.
    pub fn new(inner: W) -> StdErr<W>
        requires { TellsAlike W.contents }
        ensures held { ⟦<StdErr<W> as Sink>⟧.held result ≡ W.contents inner }
        ensures faults { ⟦<StdErr<W> as Sink>⟧.faults result ≡ 0 }
    {
        StdErr { inner, faults: 0 }
    }
}

impl<W: Write> Sink for StdErr<W> {
    ghost held = { λ s. W.contents s.inner };

    ghost faults = { λ s. s.faults };

    fn write(&mut self, piece: &[u8]) -> Result<usize, Failed> {
        write_counted(&mut self.inner, &mut self.faults, piece)
    }
}
