// The real files: a few lines over what std opens by name.
ghost use Rattle.std.specs.Prelude.{◌≡◌, ◌+◌, ◌^◌, ◌<◌, ◌≤◌, ℕ, List, length, Some, None, Ok, Err, IfOk, OnOk, OnErr, IsErrOf};
ghost use Rattle.att_base.specs.Faults.{FaultCountRose};
ghost use Rattle.att_base.specs.Streams.{put_after, AppendsFront, TakesAll, TakesTooMany, TellsAlike};
ghost use Rattle.att_base.specs.Files.{CountsRead, CountsRefusal, CountsWrite};

use crate::by_name::Files;
use crate::faults::{FileFault, ReadFault};
use crate::standard::{StdSink, StdSource};
use crate::streams::{Sink, Source, put_all, take_all};
use std::alloc::Global;
use std::fs::{File, OpenOptions};
use std::io::ErrorKind;
use std::rt;

// Counts a fault.
fn count_fault(faults: &mut u64)
    ensures { FaultCountRose faults.old faults.new }
{
    *faults = faults.saturating_add(1);
}

// Why a file wasn't opened, of which a fault is counted.
fn open_fault(kind: ErrorKind, faults: &mut u64) -> ReadFault
    ensures counted { CountsRefusal result None faults.old faults.new }
    ensures missing { result ≡ ReadFault.Missing → kind ≡ ErrorKind.NotFound }
    ensures absent { kind ≡ ErrorKind.NotFound → result ≡ ReadFault.Missing }
{
    count_fault(faults);
    if kind == ErrorKind::NotFound {
        return ReadFault::Missing;
    }
    ReadFault::Failed
}

// The whole of a file that is open, if it has at most `limit` bytes.
fn read_opened<S: Source>(
    alloc: Global,
    file: &mut S,
    limit: u64,
    faults: &mut u64,
) -> Result<Vec<u8>, ReadFault>
    requires { limit + 1 < 2 ^ 64 }
    ensures ok { IfOk result (λ v. TakesAll (S.left file.old) (S.left file.new) v.items) }
    ensures too_long { IsErrOf result ReadFault.TooLong → TakesTooMany limit (S.left file.old) (S.left file.new) }
    ensures within { IfOk result (λ v. length v.items ≤ limit) }
    ensures counted { CountsRead result None faults.old faults.new }
    ensures missing { IsErrOf result ReadFault.Missing → ⊥ }
{
    match take_all(alloc, file, limit) {
        Ok(bytes) => Ok(bytes),
        Err(ReadFault::TooLong) => Err(ReadFault::TooLong),
        Err(ReadFault::Memory) => Err(ReadFault::Memory),
        Err(ReadFault::Failed) | Err(ReadFault::Missing) => {
            count_fault(faults);
            Err(ReadFault::Failed)
        }
    }
}

// Appends the whole piece to a file that is open at its end.
fn append_opened<K: Sink>(file: &mut K, piece: &[u8], faults: &mut u64) -> Result<(), FileFault>
    ensures ok { OnOk result (K.held file.new ≡ put_after (K.held file.old) piece.now) }
    ensures err { OnErr result (AppendsFront (K.held file.old) (K.held file.new) piece.now) }
    ensures counted { CountsWrite result faults.old faults.new }
{
    match put_all(file, piece) {
        Ok(()) => Ok(()),
        Err(_) => {
            count_fault(faults);
            Err(FileFault::Failed)
        }
    }
}

/// The files of the system. They don't tell what they hold, nor what was asked for.
///
/// Each error of the system counts as a fault, that there is no such file among them, and so does a call that was
/// interrupted, or that took nothing of a piece that isn't empty. A file is opened for each call alone.
#[derive(Drop)]
pub struct StdFiles<R: rt::Files + Drop> {
    rt: R,
    faults: u64,
    ghost alike: { TellsAlike R.File.Read.remaining × TellsAlike R.File.Write.contents },
}

impl<R: rt::Files + Drop> StdFiles<R> {
    /// The files that this runtime opens, with no fault yet. Either each open file tells what it holds, or none does.
    pub fn new(rt: R) -> StdFiles<R>
        requires { TellsAlike R.File.Read.remaining × TellsAlike R.File.Write.contents }
        ensures { ⟦<StdFiles<R> as Files>⟧.shows result ≡ record { held = None; asked = None; faults = 0 } }
    {
        StdFiles { rt, faults: 0 }
    }
}

impl<R: rt::Files + Drop> Files for StdFiles<R> {
    ghost shows = { λ s. record { held = None; asked = None; faults = s.faults } };

    fn read(&mut self, alloc: Global, name: &str, limit: u64) -> Result<Vec<u8>, ReadFault> {
        let file = match File::open(&self.rt, name) {
            Ok(file) => file,
            Err(error) => return Err(open_fault(error.kind(), &mut self.faults)),
        };
        // No vector holds more bytes than the largest limit of `take_all`.
        let limit = limit.min(u64::MAX - 1);
        read_opened(alloc, &mut StdSource::new(file), limit, &mut self.faults)
    }

    fn clear(&mut self, _alloc: Global, name: &str) -> Result<(), FileFault> {
        let Ok(_) = File::create(&self.rt, name) else {
            count_fault(&mut self.faults);
            return Err(FileFault::Failed);
        };
        Ok(())
    }

    fn append(&mut self, _alloc: Global, name: &str, piece: &[u8]) -> Result<(), FileFault> {
        let opened = OpenOptions::new()
            .append(true)
            .create(true)
            .open(&self.rt, name);
        let Ok(file) = opened else {
            count_fault(&mut self.faults);
            return Err(FileFault::Failed);
        };
        append_opened(&mut StdSink::new(file), piece, &mut self.faults)
    }
}
