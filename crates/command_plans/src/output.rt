//! What a command has to write, before anything is written.

ghost use Rattle.std.specs.Prelude.{◌≡◌, ◌≤◌, ℕ, List, [], ◌++◌, All, IfOk, OnOk, OnErr, string_bytes};
ghost use Rattle.att_base.specs.Streams.{AppendsPiece};
ghost use Rattle.att_base.specs.Files.{IsName, put_under, PutsFront, CountsWrite};
ghost use Rattle.command_plans.specs.Lines.{ending_line};
ghost use Rattle.command_plans.specs.Written.{joined};
ghost use Rattle.command_plans.specs.declared.output.Ending.TheVariants.{Accepted};

use crate::lines::ending_line;
use crate::parts::{FileParts, Parts};
use crate::writing::{put_rest, write_parts};
use att_base::{Failed, FileFault, Files, NamedFile, Sink, put_all, write_whole};
use std::alloc::{AllocError, Global};
use std::marker::Model;

/// How a command that writes all it has to ends.
#[derive(Clone, Copy, Debug, PartialEq, Eq)]
pub enum Ending {
    /// Every verdict accepts.
    Accepted,
    /// A verdict doesn't accept.
    Refused,
    /// The history filled at this cap.
    Full(u64),
}

/// A file that is to be written: its first bytes, which for most are all, and then the parts of the rest.
#[derive(Drop)]
pub struct Planned<B: FileParts + Drop> {
    file: NamedFile,
    rest: Option<B>,
}

impl<B: FileParts + Drop> Model for Planned<B> {
    ghost use Rattle.std.specs.Prelude.{◌++◌};
    ghost use Rattle.att_base.specs.Files.{NamedBytes};
    ghost use Rattle.command_plans.specs.Written.{rest_bytes, joined};

    ghost Value = { NamedBytes };

    ghost view = { λ f. record { name = f.file.name; bytes = f.file.bytes ++ rest_bytes (joined B.parts) f.rest } };
}

impl<B: FileParts + Drop> Planned<B> {
    /// A file that is whole.
    pub fn whole(file: NamedFile) -> Planned<B>
        ensures { result ≡ file }
    {
        Planned { file, rest: None }
    }

    /// A file of this name, made part by part. It takes no memory.
    pub fn in_parts(alloc: Global, name: String, parts: B) -> Planned<B>
        ensures { result ≡ record { name = string_bytes name; bytes = joined B.parts parts } }
    {
        Planned {
            file: NamedFile::new(name, Vec::new(alloc)),
            rest: Some(parts),
        }
    }

    /// Writes the file: the name is cleared, and then the bytes are appended, in one call where they are whole. After
    /// `Failed` and `Memory` the file is as it was, or has a front of the bytes. No other file is changed.
    pub fn write_to<F: Files>(&self, alloc: Global, files: &mut F) -> Result<(), FileFault>
        requires { IsName self.now.name }
        ensures ok { OnOk result ((F.shows files.new).held ≡ put_under (F.shows files.old).held self.now.name self.now.bytes) }
        ensures err { OnErr result (PutsFront (F.shows files.old).held (F.shows files.new).held self.now.name self.now.bytes) }
        ensures asked { (F.shows files.new).asked ≡ (F.shows files.old).asked }
        ensures counted { CountsWrite result (F.shows files.old).faults (F.shows files.new).faults }
    {
        match &self.rest {
            None => write_whole(alloc, files, self.file.name(), self.file.bytes()),
            Some(parts) => { write_parts(alloc, files, self.file.name(), self.file.bytes(), parts) }
        }
    }
}

/// What a command writes: its files in order, then standard output, whole or in parts; how it ends, and then the line
/// of that ending to standard error. Clauses see the files, the text on standard output and the ending.
#[derive(Drop)]
pub struct Output<P: Parts + Drop, B: FileParts + Drop> {
    files: Vec<Planned<B>>,
    out: Vec<u8>,
    rest: Option<P>,
    ending: Ending,
    line: String,
}

impl<P: Parts + Drop, B: FileParts + Drop> Model for Output<P, B> {
    ghost use Rattle.std.specs.Prelude.{◌≡◌, ◌++◌, All, string_bytes};
    ghost use Rattle.att_base.specs.Files.{IsName};
    ghost use Rattle.command_plans.specs.Lines.{ending_line};
    ghost use Rattle.command_plans.specs.Written.{Written, rest_bytes};

    ghost Value = { Written };

    ghost view = { λ o. record { files = o.files.items; out = o.out.items ++ rest_bytes P.told o.rest; ending = o.ending } };

    ghost invariant = { λ o. (string_bytes o.line ≡ ending_line o.ending) × All (λ file. IsName file.name) o.files.items };
}

impl<P: Parts + Drop, B: FileParts + Drop> Output<P, B> {
    /// These files and this text on standard output, where every verdict accepts. It takes no memory.
    pub fn accepted(alloc: Global, files: Vec<Planned<B>>, out: Vec<u8>) -> Output<P, B>
        requires { All (λ file. IsName file.name) files.items }
        ensures { result ≡ record { files = files.items; out = out.items; ending = Accepted } }
    {
        Output {
            files,
            out,
            rest: None,
            ending: Ending::Accepted,
            line: String::new(alloc),
        }
    }

    /// No files, and on standard output what the parts tell, where every verdict accepts. It takes no memory.
    pub fn told(alloc: Global, parts: P) -> Output<P, B>
        ensures { result ≡ record { files = []; out = P.told parts; ending = Accepted } }
    {
        Output {
            files: Vec::new(alloc),
            out: Vec::new(alloc),
            rest: Some(parts),
            ending: Ending::Accepted,
            line: String::new(alloc),
        }
    }

    /// These files and this text on standard output, and how the command ends. It wants memory only for the line of a
    /// full history.
    pub fn ended(
        alloc: Global,
        files: Vec<Planned<B>>,
        out: Vec<u8>,
        ending: Ending,
    ) -> Result<Output<P, B>, AllocError>
        requires { All (λ file. IsName file.name) files.items }
        ensures { IfOk result (λ o. o ≡ record { files = files.items; out = out.items; ending = ending }) }
    {
        let line = ending_line(alloc, ending)?;
        Ok(Output {
            files,
            out,
            rest: None,
            ending,
            line,
        })
    }

    /// The files, in the order in which they are written.
    pub fn files(&self) -> &[Planned<B>]
        ensures files { result.now ≡ self.now.files }
        ensures named { All (λ file. IsName file.name) result.now }
    {
        &self.files
    }

    /// How the command ends.
    pub fn ending(&self) -> Ending
        ensures { result ≡ self.now.ending }
    {
        self.ending
    }

    /// What is said on standard error once all is written.
    pub fn line(&self) -> &str
        ensures { result.now ≡ ending_line self.now.ending }
    {
        self.line.as_str()
    }

    /// Appends all that goes to standard output, and leaves nothing of it. After `Failed` a front of it was appended, and an
    /// end of it is left. It takes no memory.
    pub fn put_out<K: Sink>(&mut self, out: &mut K) -> Result<(), Failed>
        ensures puts { AppendsPiece result self.old.out (K.held out.old) (K.held out.new) (K.faults out.old) (K.faults out.new) }
        ensures spent { OnOk result (self.new.out ≡ []) }
        ensures left { (front : List ℕ) × (self.old.out ≡ front ++ self.new.out) }
        ensures files { self.new.files ≡ self.old.files }
        ensures ending { self.new.ending ≡ self.old.ending }
    {
        put_all(out, &self.out)?;
        self.out.clear();
        put_rest(out, &mut self.rest)
    }
}

/// What keeps a command from writing.
#[derive(Drop)]
pub enum Stop {
    /// A file that is read isn't there.
    Absent,
    /// A read failed.
    Fault,
    /// What is read is bad, as this line says.
    Bad(String),
    /// There is no memory.
    Memory,
}

impl From<AllocError> for Stop {
    ghost use Rattle.std.specs.Prelude.{◌≡◌};
    ghost use Rattle.command_plans.specs.declared.output.Stop.TheVariants.{Memory};

    ghost from_gives = { λ _ e. e ≡ Memory };

    fn from(_e: AllocError) -> Stop {
        Stop::Memory
    }
}
