// What is read and written piece by piece.
ghost use Rattle.std.specs.Prelude.{◌≡◌, ℕ, ◌+◌, ◌^◌, ◌<◌, ◌≤◌, List, ◌++◌, length, take, Option, None, IfOk, OnOk, OnErr, IsErrOf};
ghost use Rattle.att_base.specs.Files.{CountsRead};
ghost use Rattle.att_base.specs.Streams.{put_before, put_after, CountsCall, IsDrained, AppendsPiece, TakesAll, TakesTooMany, TakesFront};

use crate::faults::{Failed, ReadFault};
use std::alloc::{AllocError, Global};

/// Something that bytes are read from, as standard input.
pub trait Source {
    /// What is left to read, or `None` where that isn't told.
    ghost left: { Self → Option (List ℕ) };

    /// How often a call has failed, up to `2^64 - 1`.
    ghost faults: { Self → ℕ };

    /// Moves the first bytes of what is left into the front of `into`, and gives their number: 0 only where `into`
    /// is empty or nothing is left. After `Failed` nothing was taken, and `into` has any bytes.
    fn read(&mut self, into: &mut [u8]) -> Result<usize, Failed>
        ensures bound { IfOk result (λ n. n ≤ length into.new) }
        ensures bytes { IfOk result (λ n. left self.old ≡ put_before (take n into.new) (left self.new)) }
        ensures end { IfOk result (λ n. n ≡ 0 → 0 < length into.new → IsDrained (left self.old)) }
        ensures err { OnErr result (left self.new ≡ left self.old) }
        ensures counted { CountsCall result (faults self.old) (faults self.new) };
}

/// Something that bytes are written to, as standard output.
pub trait Sink {
    /// What is held, or `None` where that isn't told.
    ghost held: { Self → Option (List ℕ) };

    /// How often a call has failed, up to `2^64 - 1`.
    ghost faults: { Self → ℕ };

    /// Appends the first bytes of the piece to what is held, and gives their number: at least 1 where the piece
    /// isn't empty. After `Failed` nothing was appended.
    fn write(&mut self, piece: &[u8]) -> Result<usize, Failed>
        ensures bound { IfOk result (λ n. n ≤ length piece.now) }
        ensures bytes { IfOk result (λ n. held self.new ≡ put_after (held self.old) (take n piece.now)) }
        ensures progress { IfOk result (λ n. 0 < length piece.now → 0 < n) }
        ensures err { OnErr result (held self.new ≡ held self.old) }
        ensures counted { CountsCall result (faults self.old) (faults self.new) };
}

/// Appends the whole piece. After `Failed` a front of it was appended.
pub fn put_all<K: Sink>(sink: &mut K, piece: &[u8]) -> Result<(), Failed>
    ensures puts { AppendsPiece result piece.now (K.held sink.old) (K.held sink.new) (K.faults sink.old) (K.faults sink.new) }
{
    let mut at = 0;
    'writing: while at < piece.len() {
        at += sink.write(&piece[at..])?;
    }
    Ok(())
}

/// The most bytes that `take_all` asks for in one call: 64 KiB.
const PIECE_LEN: usize = 65_536;

// Where the bytes of one call go, kept on the heap.
fn piece_buffer(alloc: Global) -> Result<Vec<u8>, AllocError>
    ensures { IfOk result (λ v. length v.items ≡ 65536) }
{
    vec![in alloc; 0; PIECE_LEN]
}

// Takes all that is left, as `take_all` says, by calls that each ask for as much as the piece has room for.
fn take_by<S: Source>(
    alloc: Global,
    source: &mut S,
    limit: u64,
    piece: &mut [u8],
) -> Result<Vec<u8>, ReadFault>
    requires limit { limit + 1 < 2 ^ 64 }
    requires room { 0 < length piece.old }
    ensures ok { IfOk result (λ v. TakesAll (S.left source.old) (S.left source.new) v.items) }
    ensures within { IfOk result (λ v. length v.items ≤ limit) }
    ensures too_long { IsErrOf result ReadFault.TooLong → TakesTooMany limit (S.left source.old) (S.left source.new) }
    ensures counted { CountsRead result None (S.faults source.old) (S.faults source.new) }
    ensures missing { IsErrOf result ReadFault.Missing → ⊥ }
    ensures front { TakesFront (S.left source.old) (S.left source.new) }
    ensures untold { S.left source.old ≡ None → S.left source.new ≡ None }
{
    let mut bytes = Vec::new(alloc);
    'reading: loop {
        // One byte past the limit shows that there is too much.
        let room = limit as usize - bytes.len();
        let asked = piece.len().min(room + 1);
        let Ok(count) = source.read(&mut piece[..asked]) else {
            return Err(ReadFault::Failed);
        };
        if count == 0 {
            return Ok(bytes);
        }
        if count > room {
            return Err(ReadFault::TooLong);
        }
        let Ok(()) = bytes.extend_from_slice(&piece[..count]) else {
            return Err(ReadFault::Memory);
        };
    }
}

/// Takes all that is left, if that is at most `limit` bytes.
///
/// `TooLong` comes after `limit + 1` bytes were taken. After `Failed` and `Memory` a front of what was left was
/// taken. No more than `limit + 1` bytes are asked for in all, at most 64 KiB in one call; that many are wanted of
/// memory beside the bytes that are given. No call is tried again.
pub fn take_all<S: Source>(alloc: Global, source: &mut S, limit: u64) -> Result<Vec<u8>, ReadFault>
    requires { limit + 1 < 2 ^ 64 }
    ensures ok { IfOk result (λ v. TakesAll (S.left source.old) (S.left source.new) v.items) }
    ensures within { IfOk result (λ v. length v.items ≤ limit) }
    ensures too_long { IsErrOf result ReadFault.TooLong → TakesTooMany limit (S.left source.old) (S.left source.new) }
    ensures counted { CountsRead result None (S.faults source.old) (S.faults source.new) }
    ensures missing { IsErrOf result ReadFault.Missing → ⊥ }
    ensures front { TakesFront (S.left source.old) (S.left source.new) }
    ensures untold { S.left source.old ≡ None → S.left source.new ≡ None }
{
    let Ok(mut piece) = piece_buffer(alloc) else {
        return Err(ReadFault::Memory);
    };
    take_by(alloc, source, limit, &mut piece)
}
