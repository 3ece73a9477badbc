//! Numbers and codes in messages, the highest byte first.

ghost use Rattle.std.specs.Prelude.{◌≡◌, ◌+◌, ◌≤◌, length};
ghost use Rattle.challenge.specs.Numbers.{u32_at, u64_at, discipline_with};

use history::Discipline;

/// The number of the four bytes at a place of a message.
#[tactic(auto, unfolding(crate::specs::Numbers::u32_at))]
pub fn u32_at(bytes: &[u8], place: usize) -> u32
    requires { place + 4 ≤ length bytes.now }
    ensures { result ≡ u32_at bytes.now place }
{
    let (_, rest) = bytes.split_at(place);
    u32::from_be_bytes([rest[0], rest[1], rest[2], rest[3]])
}

/// The number of the eight bytes at a place of a message.
#[tactic(auto, unfolding(crate::specs::Numbers::u64_at))]
pub fn u64_at(bytes: &[u8], place: usize) -> u64
    requires { place + 8 ≤ length bytes.now }
    ensures { result ≡ u64_at bytes.now place }
{
    let (_, rest) = bytes.split_at(place);
    u64::from_be_bytes([
        rest[0], rest[1], rest[2], rest[3], rest[4], rest[5], rest[6], rest[7],
    ])
}

/// The discipline with this code in messages; None where no discipline has it.
pub fn discipline_with(code: u8) -> Option<Discipline>
    ensures { result ≡ discipline_with code }
{
    Discipline::from_code(code)
}
