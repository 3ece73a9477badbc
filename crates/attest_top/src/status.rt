//! How the program ends.

/// The status that the program ends with; its number is the process's.
#[derive(Clone, Copy, Debug, PartialEq, Eq)]
pub enum Status {
    /// All was written, and every verdict accepts.
    Good = 0,
    /// All was written, and a verdict doesn't accept.
    Rejected = 1,
    /// The words are in no form.
    Usage = 2,
    /// An input is too long or leaves its grammar.
    BadInput = 3,
    /// A read or a write of the outside failed.
    OutsideFault = 4,
    /// The history filled; all was written.
    Full = 5,
    /// There was no memory.
    Memory = 6,
}

impl Status {
    ghost use Rattle.std.specs.Prelude.{◌≡◌};
    ghost use Rattle.attest_top.specs.Codes.{exit_code};

    /// The number of the status, 0 to 6.
    pub fn code(self) -> u8
        ensures { result ≡ exit_code self }
    {
        match self {
            Status::Good => 0,
            Status::Rejected => 1,
            Status::Usage => 2,
            Status::BadInput => 3,
            Status::OutsideFault => 4,
            Status::Full => 5,
            Status::Memory => 6,
        }
    }
}
