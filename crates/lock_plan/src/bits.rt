//! A bit for each index of an attested block.

ghost use Rattle.std.specs.Prelude.{◌≡◌, ℕ, ◌*◌, ◌<◌, ◌==◌, ◌&&◌, true, false, if◌then◌else◌, length, replicate};
ghost use Rattle.history.specs.Locks.{locks};
ghost use Rattle.history.specs.Sliding.{locks_at_start};
ghost use Rattle.lock_plan.specs.Tables.{bit_after_copy, has_bit, outlast_end};

use history::Discipline;

/// 64 words of this value.
pub fn filled(word: u64) -> [u64; 64]
    ensures { result ≡ replicate 64 word }
{
    [word; 64]
}

/// The discipline locks all attested blocks at Start.
fn locks_from_start(discipline: Discipline) -> bool
    ensures { result ≡ locks_at_start discipline }
{
    match discipline {
        Discipline::All | Discipline::AllExt | Discipline::Dec => true,
        Discipline::Inc | Discipline::IncExt => false,
    }
}

/// The locks of a pass that begins: of all indexes or of none.
pub fn at_start(discipline: Discipline) -> [u64; 64]
    ensures { (k : ℕ) → k < 4096 → has_bit result k ≡ locks discipline 0 false false k }
{
    if locks_from_start(discipline) {
        return filled(u64::MAX);
    }
    filled(0)
}

/// The Copy of the block with this index: Dec-Lock gives up its lock, the Inc forms take it, the All forms change none.
pub fn copy(words: &mut [u64], index: u32, discipline: Option<Discipline>)
    requires { index < 64 * length words.old }
    ensures { (k : ℕ) → has_bit words.new k ≡ bit_after_copy discipline index k (has_bit words.old k) }
{
    match discipline {
        Some(Discipline::Dec) => put_bit(words, index, false),
        Some(Discipline::Inc) => put_bit(words, index, true),
        Some(Discipline::IncExt) => put_bit(words, index, true),
        _ => {}
    }
}

/// The locks of a pass with this discipline outlast its End.
fn outlasts(discipline: Option<Discipline>) -> bool
    ensures { result ≡ outlast_end discipline }
{
    match discipline {
        None => false,
        Some(discipline) => discipline.extended(),
    }
}

/// The End of a pass: the locks stay where the discipline is extended, and else there are none.
pub fn end(words: &mut [u64; 64], discipline: Option<Discipline>)
    ensures { (k : ℕ) → k < 4096 → has_bit words.new k ≡ (outlast_end discipline && has_bit words.old k) }
{
    if outlasts(discipline) {
        return;
    }
    *words = filled(0);
}

/// Sets the bit with this index, or clears it.
fn put_bit(words: &mut [u64], index: u32, on: bool)
    requires { index < 64 * length words.old }
    ensures count { length words.new ≡ length words.old }
    ensures bits { (k : ℕ) → has_bit words.new k ≡ (if k == index then on else has_bit words.old k) }
{
    let bit = 1 << (index % 64);
    let word = &mut words[(index / 64) as usize];
    if on {
        *word |= bit;
    } else {
        *word &= !bit;
    }
}

/// The bit with this index is set.
pub fn bit(words: &[u64], index: u32) -> bool
    requires { index < 64 * length words.now }
    ensures { result ≡ has_bit words.now index }
{
    words[(index / 64) as usize] >> (index % 64) & 1 == 1
}
