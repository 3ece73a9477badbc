//! What happens to memory, one event at a time.

ghost use Rattle.std.specs.Prelude.{◌≡◌, ◌≢◌, ◌↔◌, IsTrue, IfSome, IfNone};

/// How many bytes an access moves: one, two or four.
#[derive(Clone, Copy, Debug, PartialEq, Eq)]
pub enum Width {
    Byte,
    Half,
    Word,
}

/// When a measurement locks a block, and at which instant its report is the memory.
#[derive(Clone, Copy, Debug, PartialEq, Eq)]
pub enum Discipline {
    /// All-Lock: every attested block from Start to End.
    All,
    /// All-Lock-Ext: every attested block from Start to Release.
    AllExt,
    /// Dec-Lock: a block from Start to its own Copy.
    Dec,
    /// Inc-Lock: a block from its own Copy to End.
    Inc,
    /// Inc-Lock-Ext: a block from its own Copy to Release.
    IncExt,
}

/// One event. Addresses and values are 32-bit words, blocks are numbered from the first of memory.
#[derive(Clone, Copy, Debug, PartialEq, Eq)]
pub enum Act {
    /// An application fetches the instruction word at the address.
    Fetch {
        addr: u32,
        value: u32,
    },
    /// An application loads `width` bytes, the lowest address first; the rest of the value is zero.
    Load {
        addr: u32,
        width: Width,
        value: u32,
    },
    /// An application stores the lowest `width` bytes of the value.
    Store {
        addr: u32,
        width: Width,
        value: u32,
    },
    /// The measurer begins a pass over the attested blocks.
    Start {
        discipline: Discipline,
        counter: u64,
    },
    /// The measurer copies a block, to hash it outside of any lock.
    Copy {
        block: u32,
    },
    /// The measurer ends the pass.
    End,
    /// The measurer lets time go by.
    Tick,
    /// The measurer gives up what an extended discipline still locks after End.
    Release,
}

/// One entry of the history: who acted, and how. Actor 0 is the measurer, 1 to 8 are applications.
#[derive(Clone, Copy, Debug, PartialEq, Eq)]
pub struct Entry {
    pub actor: u32,
    pub act: Act,
}

impl Width {
    ghost use Rattle.history.specs.Layout.{width_bytes};

    /// How many bytes an access of this width moves: 1, 2 or 4.
    pub fn bytes(self) -> u32
        ensures { result ≡ width_bytes self }
    {
        match self {
            Width::Byte => 1,
            Width::Half => 2,
            Width::Word => 4,
        }
    }
}

impl Discipline {
    ghost use Rattle.history.specs.declared.events.Discipline.{Discipline};
    ghost use Rattle.history.specs.Names.{code_of, discipline_of, word_of};
    ghost use Rattle.history.specs.Pass.{is_extended};

    /// The discipline's code in messages and traces, 1 to 5.
    pub fn code(self) -> u8
        ensures { result ≡ code_of self }
    {
        match self {
            Discipline::All => 1,
            Discipline::AllExt => 2,
            Discipline::Dec => 3,
            Discipline::Inc => 4,
            Discipline::IncExt => 5,
        }
    }

    /// The discipline with this code; None where no discipline has it.
    pub fn from_code(code: u8) -> Option<Discipline>
        ensures found { IfSome result (λ discipline. code_of discipline ≡ code) }
        ensures none { IfNone result ((discipline : Discipline) → code_of discipline ≢ code) }
    {
        match code {
            1 => Some(Discipline::All),
            2 => Some(Discipline::AllExt),
            3 => Some(Discipline::Dec),
            4 => Some(Discipline::Inc),
            5 => Some(Discipline::IncExt),
            _ => None,
        }
    }

    /// The discipline with this word, as in `inc-ext`; None where no discipline has it.
    pub fn from_word(word: &str) -> Option<Discipline>
        ensures value { result ≡ discipline_of word.now }
        ensures found { IfSome result (λ discipline. word_of discipline ≡ word.now) }
        ensures none { IfNone result ((discipline : Discipline) → word_of discipline ≢ word.now) }
    {
        Discipline::from_word_bytes(word.as_bytes())
    }

    /// The same, of the word's bytes.
    pub fn from_word_bytes(word: &[u8]) -> Option<Discipline>
        ensures value { result ≡ discipline_of word.now }
        ensures found { IfSome result (λ discipline. word_of discipline ≡ word.now) }
        ensures none { IfNone result ((discipline : Discipline) → word_of discipline ≢ word.now) }
    {
        if word == b"all".as_slice() {
            return Some(Discipline::All);
        }
        if word == b"all-ext".as_slice() {
            return Some(Discipline::AllExt);
        }
        if word == b"dec".as_slice() {
            return Some(Discipline::Dec);
        }
        if word == b"inc".as_slice() {
            return Some(Discipline::Inc);
        }
        if word == b"inc-ext".as_slice() {
            return Some(Discipline::IncExt);
        }
        None
    }

    /// The discipline holds locks after End, until Release.
    pub fn extended(self) -> bool
        ensures { IsTrue result ↔ IsTrue (is_extended self) }
    {
        match self {
            Discipline::All | Discipline::Dec | Discipline::Inc => false,
            Discipline::AllExt | Discipline::IncExt => true,
        }
    }
}
