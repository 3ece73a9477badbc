//! Writing what was prepared: standard output and files, in parts.

ghost use Rattle.std.specs.Prelude.{◌≡◌, ◌≤◌, ℕ, List, [], ◌++◌, OnOk, OnErr};
ghost use Rattle.att_base.specs.Streams.{AppendsPiece};
ghost use Rattle.att_base.specs.Files.{IsName, put_under, PutsFront, CountsWrite};
ghost use Rattle.command_plans.specs.Written.{joined, rest_bytes};

use crate::parts::{FileParts, Parts};
use att_base::{Failed, FileFault, Files, Sink, put_all, write_whole};
use std::alloc::Global;

/// The most bytes that go to standard output in one piece, of what is told in parts.
const PIECE_LEN: usize = 4096;

/// Appends all that the parts tell, piece by piece, and leaves nothing to tell. After `Failed` a front of it was appended,
/// and what is still to be told is an end of it. It takes no memory.
pub fn put_parts<K: Sink, P: Parts>(sink: &mut K, parts: &mut P) -> Result<(), Failed>
    ensures puts { AppendsPiece result (P.told parts.old) (K.held sink.old) (K.held sink.new) (K.faults sink.old) (K.faults sink.new) }
    ensures spent { OnOk result (P.told parts.new ≡ []) }
    ensures left { (front : List ℕ) × (P.told parts.old ≡ front ++ P.told parts.new) }
{
    let mut piece = [0; PIECE_LEN];
    'telling: loop {
        let count = parts.next(&mut piece);
        if count == 0 {
            return Ok(());
        }
        put_all(sink, &piece[..count])?;
    }
}

/// Appends all that the rest tells, where there is one, and leaves nothing of it, or after `Failed` an end.
pub fn put_rest<K: Sink, P: Parts>(sink: &mut K, rest: &mut Option<P>) -> Result<(), Failed>
    ensures puts { AppendsPiece result (rest_bytes P.told rest.old) (K.held sink.old) (K.held sink.new) (K.faults sink.old) (K.faults sink.new) }
    ensures spent { OnOk result (rest_bytes P.told rest.new ≡ []) }
    ensures left { (front : List ℕ) × (rest_bytes P.told rest.old ≡ front ++ rest_bytes P.told rest.new) }
{
    match rest {
        None => Ok(()),
        Some(parts) => put_parts(sink, parts),
    }
}

/// Writes a file: the name is cleared, its first bytes are appended in one call, unless there are none, and then each
/// part in a call of its own. After `Failed` and `Memory` the file is as it was, or has a front of the bytes.
pub fn write_parts<F: Files, B: FileParts>(
    alloc: Global,
    files: &mut F,
    name: &str,
    first: &[u8],
    parts: &B,
) -> Result<(), FileFault>
    requires { IsName name.now }
    ensures ok { OnOk result ((F.shows files.new).held ≡ put_under (F.shows files.old).held name.now (first.now ++ joined B.parts parts.now)) }
    ensures err { OnErr result (PutsFront (F.shows files.old).held (F.shows files.new).held name.now (first.now ++ joined B.parts parts.now)) }
    ensures asked { (F.shows files.new).asked ≡ (F.shows files.old).asked }
    ensures counted { CountsWrite result (F.shows files.old).faults (F.shows files.new).faults }
{
    write_whole(alloc, files, name, first)?;
    for k in 0..parts.count() {
        let Ok(part) = parts.part(alloc, k) else {
            return Err(FileFault::Memory);
        };
        files.append(alloc, name, &part)?;
    }
    Ok(())
}
