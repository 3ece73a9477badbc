//! Byte lists of a length that depends on the number of ranges.

ghost use Rattle.std.specs.Prelude.{◌≡◌, ◌+◌, ◌≤◌, ◌++◌, length};
ghost use Rattle.arrayvec.specs.ArrayVec.{array_vec_len};

use arrayvec::ArrayVec;
use std::marker::Model;

/// The most bytes that a report begins with: 44, and 8 for each of 8 ranges.
pub const MOST_HEAD_BYTES: usize = 108;

/// The fewest bytes of a report: those of one whose shape has one range.
pub const LEAST_REPORT_BYTES: usize = 96;

/// The most bytes of a report: those before the places, two places of 8 bytes, a tag of 32.
pub const MOST_REPORT_BYTES: usize = 156;

/// The bytes that a report begins with. Clauses see the list of them.
#[derive(Drop)]
pub struct HeadBytes {
    pub(crate) bytes: ArrayVec<u8, MOST_HEAD_BYTES>,
}

impl Model for HeadBytes {
    ghost use Rattle.std.specs.Prelude.{ℕ, List};

    ghost Value = { List ℕ };

    ghost view = { λ h. h.bytes.items };
}

impl HeadBytes {
    /// The bytes, at most 108.
    pub fn as_slice(&self) -> &[u8]
        ensures value { result.now ≡ self.now }
        ensures few { length result.now ≤ MOST_HEAD_BYTES }
    {
        self.bytes.as_slice()
    }
}

/// The bytes of a report. Clauses see the list of them.
#[derive(Drop)]
pub struct ReportBytes {
    pub(crate) bytes: ArrayVec<u8, MOST_REPORT_BYTES>,
}

impl Model for ReportBytes {
    ghost use Rattle.std.specs.Prelude.{ℕ, List};

    ghost Value = { List ℕ };

    ghost view = { λ r. r.bytes.items };
}

impl ReportBytes {
    /// The bytes, at most 156.
    pub fn as_slice(&self) -> &[u8]
        ensures value { result.now ≡ self.now }
        ensures few { length result.now ≤ MOST_REPORT_BYTES }
    {
        self.bytes.as_slice()
    }
}

/// Puts the piece behind the others. There has to be room for it.
pub fn append<const N: usize>(bytes: &mut ArrayVec<u8, N>, piece: &[u8])
    requires { array_vec_len bytes.old + length piece.now ≤ N }
    ensures { bytes.new.items ≡ bytes.old.items ++ piece.now }
{
    let _ = bytes.try_extend_from_slice(piece);
}
