// What is read and written by name.
ghost use Rattle.std.specs.Prelude.{◌≡◌, ◌≢◌, ℕ, ◌≤◌, ◌⊎◌, List, [], ◌∷◌, length, Option, Some, IfOk, OnOk, OnErr, IsErrOf};
ghost use Rattle.att_base.specs.Files.{Contents, FilesView, IsName, with_name, put_under, add_under, AddsFront, PutsFront, whole_file, ReadsWhole, asked_more, CountsRead, CountsWrite};

use crate::faults::{FileFault, ReadFault};
use std::alloc::Global;

/// The most bytes of a file's name.
pub const NAME_BYTES: usize = 255;

/// Files, which are read and written by name. A name is a text of 1 to 255 bytes.
pub trait Files {
    /// What is held, which names were asked for, and how often a call has failed.
    ghost shows: { Self → FilesView };

    /// The whole file, if it has at most `limit` bytes. No file is changed.
    ///
    /// Where what is held is told, `Missing` comes exactly where nothing has the name, and raises no count, and
    /// `TooLong` exactly where more than `limit` bytes are held; both come before any want of memory. Where it
    /// isn't told, `Missing` counts as a fault. No other answer but `Failed` raises the count.
    fn read(&mut self, alloc: Global, name: &str, limit: u64) -> Result<Vec<u8>, ReadFault>
        requires { IsName name.now }
        ensures reads { (known : Contents) → (shows self.old).held ≡ Some known → ReadsWhole (λ v. v.items) (whole_file limit (known name.now)) result }
        ensures within { IfOk result (λ v. length v.items ≤ limit) }
        ensures same { (shows self.new).held ≡ (shows self.old).held }
        ensures asked { (shows self.new).asked ≡ asked_more (name.now ∷ []) (shows self.old).asked }
        ensures counted { CountsRead result (shows self.old).held (shows self.old).faults (shows self.new).faults };

    /// Leaves the name with no bytes, and makes it where nothing had it. A refusal changes nothing, and only `Failed`
    /// raises the count of faults.
    fn clear(&mut self, alloc: Global, name: &str) -> Result<(), FileFault>
        requires { IsName name.now }
        ensures ok { OnOk result ((shows self.new).held ≡ put_under (shows self.old).held name.now []) }
        ensures err { OnErr result ((shows self.new).held ≡ (shows self.old).held) }
        ensures asked { (shows self.new).asked ≡ (shows self.old).asked }
        ensures counted { CountsWrite result (shows self.old).faults (shows self.new).faults };

    /// Appends the whole piece to the name's bytes, and makes the name where nothing had it. After `Failed` a
    /// front of the piece may have been appended; after `Memory` nothing was. Only `Failed` raises the count.
    fn append(&mut self, alloc: Global, name: &str, piece: &[u8]) -> Result<(), FileFault>
        requires { IsName name.now }
        ensures ok { OnOk result ((shows self.new).held ≡ add_under (shows self.old).held name.now piece.now) }
        ensures err { OnErr result (AddsFront (shows self.old).held (shows self.new).held name.now piece.now) }
        ensures memory { IsErrOf result FileFault.Memory → (shows self.new).held ≡ (shows self.old).held }
        ensures asked { (shows self.new).asked ≡ (shows self.old).asked }
        ensures counted { CountsWrite result (shows self.old).faults (shows self.new).faults };
}

/// The law of what is put under a name: the name has it, and each other name has what it had.
pub fn names_are_apart()
    ensures here { (held : Contents) (name bytes : List ℕ) → with_name held name bytes name ≡ Some bytes }
    ensures others { (held : Contents) (name bytes other : List ℕ) → name ≢ other → with_name held name bytes other ≡ held other }
{}

/// Reads a file whole, if it has at most `limit` bytes, by one call. No file is changed.
pub fn read_whole<F: Files>(
    alloc: Global,
    files: &mut F,
    name: &str,
    limit: u64,
) -> Result<Vec<u8>, ReadFault>
    requires { IsName name.now }
    ensures reads { (known : Contents) → (F.shows files.old).held ≡ Some known → ReadsWhole (λ v. v.items) (whole_file limit (known name.now)) result }
    ensures within { IfOk result (λ v. length v.items ≤ limit) }
    ensures same { (F.shows files.new).held ≡ (F.shows files.old).held }
    ensures asked { (F.shows files.new).asked ≡ asked_more (name.now ∷ []) (F.shows files.old).asked }
    ensures counted { CountsRead result (F.shows files.old).held (F.shows files.old).faults (F.shows files.new).faults }
{
    files.read(alloc, name, limit)
}

/// Writes a file whole: the name is cleared, and then all bytes are appended in one call, unless there are none.
///
/// After `Failed` the file is as it was, or has a front of the bytes; after `Memory` it is as it was, or has none.
/// No other file is changed, and nothing is tried again.
pub fn write_whole<F: Files>(
    alloc: Global,
    files: &mut F,
    name: &str,
    bytes: &[u8],
) -> Result<(), FileFault>
    requires { IsName name.now }
    ensures ok { OnOk result ((F.shows files.new).held ≡ put_under (F.shows files.old).held name.now bytes.now) }
    ensures err { OnErr result (PutsFront (F.shows files.old).held (F.shows files.new).held name.now bytes.now) }
    ensures memory { IsErrOf result FileFault.Memory
        → ((F.shows files.new).held ≡ (F.shows files.old).held) ⊎ ((F.shows files.new).held ≡ put_under (F.shows files.old).held name.now []) }
    ensures asked { (F.shows files.new).asked ≡ (F.shows files.old).asked }
    ensures counted { CountsWrite result (F.shows files.old).faults (F.shows files.new).faults }
{
    files.clear(alloc, name)?;
    if bytes.is_empty() {
        return Ok(());
    }
    files.append(alloc, name, bytes)
}
