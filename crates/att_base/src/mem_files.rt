// Files in memory, which fail at chosen calls.
ghost use Rattle.std.specs.Prelude.{◌≡◌, ℕ, ◌≤◌, ◌<◌, ◌↔◌, List, [], ◌++◌, length, None, Some, Contains, IfOk, OnOk, OnErr, IsErrOf, option_copied, string_bytes};
ghost use Rattle.att_base.specs.Files.{Contents, IsName, put_under, add_under, AddsFront, whole_file, ReadsWhole, CountsRead, CountsWrite};
ghost use Rattle.att_base.specs.FilesInMemory.{held_in, file_index, put_file, add_file, new_files, after_read, after_clear, after_append};

use crate::by_name::Files;
use crate::calls::Calls;
use crate::faults::{FileFault, ReadFault};
use std::alloc::{AllocError, Global};
use std::marker::Model;

/// A file in memory: its name and its bytes.
#[derive(Drop)]
pub struct NamedFile {
    name: String,
    bytes: Vec<u8>,
}

impl Model for NamedFile {
    ghost use Rattle.std.specs.Prelude.{string_bytes};
    ghost use Rattle.att_base.specs.Files.{NamedBytes};

    ghost Value = { NamedBytes };

    ghost view = { λ f. record { name = string_bytes f.name; bytes = f.bytes.items } };
}

impl NamedFile {
    /// A file of this name and these bytes.
    pub fn new(name: String, bytes: Vec<u8>) -> NamedFile
        ensures { result ≡ record { name = string_bytes name; bytes = bytes.items } }
    {
        NamedFile { name, bytes }
    }

    /// A file with copies of this name and these bytes.
    pub fn copied(alloc: Global, name: &str, bytes: &[u8]) -> Result<NamedFile, AllocError>
        ensures { IfOk result (λ f. f ≡ record { name = name.now; bytes = bytes.now }) }
    {
        let name = String::from_str(alloc, name)?;
        let bytes = bytes.to_vec(alloc)?;
        Ok(NamedFile { name, bytes })
    }

    /// The file's name.
    pub fn name(&self) -> &str
        ensures { result.now ≡ self.now.name }
    {
        self.name.as_str()
    }

    /// The file's bytes.
    pub fn bytes(&self) -> &[u8]
        ensures { result.now ≡ self.now.bytes }
    {
        &self.bytes
    }

    fn clear(&mut self)
        ensures { self.new ≡ record self.old { bytes = [] } }
    {
        self.bytes.clear();
    }

    fn append(&mut self, piece: &[u8]) -> Result<(), AllocError>
        ensures ok { OnOk result (self.new ≡ record self.old { bytes = self.old.bytes ++ piece.now }) }
        ensures err { OnErr result (self.new ≡ self.old) }
    {
        self.bytes.extend_from_slice(piece)
    }
}

// The place of the first file of this name, or the number of files where none has it.
fn file_index(files: &[NamedFile], name: &str) -> usize
    ensures { result ≡ file_index files.now name.now }
{
    for (i, file) in files.iter().enumerate() {
        if file.name() == name {
            return i;
        }
    }
    files.len()
}

// Clears the file of this name, or makes it.
fn clear_file(alloc: Global, files: &mut Vec<NamedFile>, name: &str) -> Result<(), AllocError>
    ensures ok { OnOk result (files.new.items ≡ put_file files.old.items name.now []) }
    ensures err { OnErr result (files.new.items ≡ files.old.items) }
{
    let place = file_index(files, name);
    if place < files.len() {
        files[place].clear();
        return Ok(());
    }
    let file = NamedFile::copied(alloc, name, &[])?;
    files.push(file)?;
    Ok(())
}

// Appends to the file of this name, or makes it.
fn append_file(
    alloc: Global,
    files: &mut Vec<NamedFile>,
    name: &str,
    piece: &[u8],
) -> Result<(), AllocError>
    ensures ok { OnOk result (files.new.items ≡ add_file files.old.items name.now piece.now) }
    ensures err { OnErr result (files.new.items ≡ files.old.items) }
{
    let place = file_index(files, name);
    if place < files.len() {
        files[place].append(piece)?;
        return Ok(());
    }
    let file = NamedFile::copied(alloc, name, piece)?;
    files.push(file)?;
    Ok(())
}

/// Files in memory. They tell what they hold.
#[derive(Drop)]
pub struct MemFiles {
    alloc: Global,
    files: Vec<NamedFile>,
    calls: Calls,
}

impl Model for MemFiles {
    ghost use Rattle.att_base.specs.FilesInMemory.{FilesState};

    ghost Value = { FilesState };

    ghost view = { λ s. record {
      files = s.files.items;
      fails = s.calls.fails.items;
      next = s.calls.next;
      faults = s.calls.faults;
    } };
}

impl MemFiles {
    /// These files, whose names all differ; were two the same, the first would be seen. The calls whose numbers
    /// are in `fails` fail. Calls are numbered from 0, all kinds together, up to `2^64 - 1`.
    pub fn new(alloc: Global, files: Vec<NamedFile>, fails: Vec<u64>) -> MemFiles
        ensures { result ≡ new_files files.items fails.items }
    {
        MemFiles {
            alloc,
            files,
            calls: Calls::new(fails),
        }
    }

    /// How many files there are.
    pub fn count(&self) -> usize
        ensures { result ≡ length self.now.files }
    {
        self.files.len()
    }

    /// The bytes of the file of this name; `None` where there is none.
    pub fn bytes_of(&self, name: &str) -> Option<&[u8]>
        ensures { option_copied result ≡ held_in self.now.files name.now }
    {
        let place = file_index(&self.files, name);
        if place < self.files.len() {
            return Some(self.files[place].bytes());
        }
        None
    }
}

impl Files for MemFiles {
    // Which names were asked for isn't told: that would take memory.
    ghost shows = { λ s. record { held = Some (held_in s.files); asked = None; faults = s.faults } };

    /// The whole file. It fails exactly where the call's number is listed.
    fn read(&mut self, alloc: Global, name: &str, limit: u64) -> Result<Vec<u8>, ReadFault>
        ensures reads { (known : Contents) → Some (held_in self.old.files) ≡ Some known → ReadsWhole (λ v. v.items) (whole_file limit (known name.now)) result }
        ensures within { IfOk result (λ v. length v.items ≤ limit) }
        ensures same { Some (held_in self.new.files) ≡ Some (held_in self.old.files) }
        ensures counted { CountsRead result (Some (held_in self.old.files)) self.old.faults self.new.faults }
        ensures answer { ReadsWhole (λ v. v.items) (whole_file limit (held_in self.old.files name.now)) result }
        ensures listed { IsErrOf result ReadFault.Failed ↔ Contains self.old.fails self.old.next }
        ensures leaves { self.new ≡ after_read self.old result }
    {
        if self.calls.begin() {
            let _ = self.calls.fail();
            return Err(ReadFault::Failed);
        }
        match self.bytes_of(name) {
            None => Err(ReadFault::Missing),
            Some(bytes) if bytes.len() as u64 > limit => Err(ReadFault::TooLong),
            Some(bytes) => match bytes.to_vec(alloc) {
                Ok(copy) => Ok(copy),
                Err(_) => Err(ReadFault::Memory),
            },
        }
    }

    /// Clears the name. It fails exactly where the call's number is listed, and wants memory only for a new name.
    fn clear(&mut self, _alloc: Global, name: &str) -> Result<(), FileFault>
        ensures ok { OnOk result (Some (held_in self.new.files) ≡ put_under (Some (held_in self.old.files)) name.now []) }
        ensures err { OnErr result (Some (held_in self.new.files) ≡ Some (held_in self.old.files)) }
        ensures counted { CountsWrite result self.old.faults self.new.faults }
        ensures listed { IsErrOf result FileFault.Failed ↔ Contains self.old.fails self.old.next }
        ensures leaves { self.new ≡ after_clear self.old name.now result }
    {
        if self.calls.begin() {
            let _ = self.calls.fail();
            return Err(FileFault::Failed);
        }
        let Ok(()) = clear_file(self.alloc, &mut self.files, name) else {
            return Err(FileFault::Memory);
        };
        Ok(())
    }

    /// Appends the piece. It fails exactly where the call's number is listed, unless it finds no memory, and
    /// has then appended the first half of the piece, rounded down.
    fn append(&mut self, _alloc: Global, name: &str, piece: &[u8]) -> Result<(), FileFault>
        ensures ok { OnOk result (Some (held_in self.new.files) ≡ add_under (Some (held_in self.old.files)) name.now piece.now) }
        ensures err { OnErr result (AddsFront (Some (held_in self.old.files)) (Some (held_in self.new.files)) name.now piece.now) }
        ensures memory { IsErrOf result FileFault.Memory → Some (held_in self.new.files) ≡ Some (held_in self.old.files) }
        ensures counted { CountsWrite result self.old.faults self.new.faults }
        ensures listed { IsErrOf result FileFault.Failed → Contains self.old.fails self.old.next }
        ensures unlisted { OnOk result (Contains self.old.fails self.old.next → ⊥) }
        ensures leaves { self.new ≡ after_append self.old name.now piece.now result }
    {
        if self.calls.begin() {
            let half = &piece[..piece.len() / 2];
            let Ok(()) = append_file(self.alloc, &mut self.files, name, half) else {
                return Err(FileFault::Memory);
            };
            let _ = self.calls.fail();
            return Err(FileFault::Failed);
        }
        let Ok(()) = append_file(self.alloc, &mut self.files, name, piece) else {
            return Err(FileFault::Memory);
        };
        Ok(())
    }
}
