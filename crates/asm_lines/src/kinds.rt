// The kinds of faults.

ghost use Rattle.std.specs.Prelude.{◌≡◌, ◌≤◌};
ghost use Rattle.asm_lines.specs.Kinds.{number_of_kind, first_kind};
ghost use Rattle.asm_lines.specs.Kinds as spec;

/// The kinds of faults that a text may have.
#[derive(Clone, Copy, Debug, PartialEq, Eq)]
pub enum Kind {
    /// A byte, or the shape of the line.
    Text,
    /// A label that an earlier line has.
    DuplicateLabel,
    /// A first word that is no statement.
    Mnemonic,
    /// The number of operands, or the kind of one.
    Operands,
    /// A name that is no register's.
    Register,
    /// A number's spelling or its size.
    Number,
    /// A number outside its field.
    Range,
    /// A place that can't be, or a second `.entry`.
    Layout,
    /// A label that no line has.
    UnknownLabel,
}

impl Kind {
    /// The number by which a fault is told, 1 to 9.
    pub fn number(self) -> u32
        ensures { result ≡ number_of_kind self }
    {
        match self {
            Kind::Text => 1,
            Kind::Mnemonic => 2,
            Kind::Operands => 3,
            Kind::Register => 4,
            Kind::Number => 5,
            Kind::Range => 6,
            Kind::UnknownLabel => 7,
            Kind::DuplicateLabel => 8,
            Kind::Layout => 9,
        }
    }
}

/// Of two faults of operands the one that is told: the one with the smaller number.
pub fn first_kind(a: Kind, b: Kind) -> Kind
    ensures { result ≡ first_kind a b }
{
    if b.number() < a.number() { b } else { a }
}

/// Both operands, or the first kind of fault that one of them has.
pub fn both<A: Copy, B: Copy>(a: Result<A, Kind>, b: Result<B, Kind>) -> Result<(A, B), Kind>
    ensures { result ≡ spec.both a b }
{
    match a {
        Ok(x) => match b {
            Ok(y) => Ok((x, y)),
            Err(k) => Err(k),
        },
        Err(j) => match b {
            Ok(_) => Err(j),
            Err(k) => Err(first_kind(j, k)),
        },
    }
}
