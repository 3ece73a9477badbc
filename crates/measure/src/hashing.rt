//! How a copied block gets into the digest: the gate is told first.

ghost use Rattle.std.specs.Prelude.{◌≡◌};

use att_base::{Gate, Spot};
use hmac256::Hmac;

/// The measurer, as gates and entries number actors.
pub const MEASURER: u32 = 0;

/// What takes in bytes piece by piece: the running digest of a pass, and in a test whoever looks on.
pub trait Taker {
    ghost use Rattle.std.specs.Prelude.{ℕ, List};

    // from the old taker to the new one with these bytes taken in
    ghost takes: { Self → Self → List ℕ → Type 0 };

    /// Takes in the piece.
    fn take(&mut self, piece: &[u8])
        ensures { Self.takes self.old self.new piece.now };
}

impl Taker for Hmac {
    ghost use Rattle.std.specs.Prelude.{ℕ, List, ◌++◌};
    ghost use Rattle.hmac256.specs.States.{StandsFor};

    ghost takes = { λ old new piece. (key text : List ℕ) → StandsFor old key text → StandsFor new key (text ++ piece) };

    fn take(&mut self, piece: &[u8]) {
        self.update(piece);
    }
}

/// Tells the gate that the block is about to be hashed, and hashes its bytes.
pub fn hash_block<T: Taker, G: Gate>(taker: &mut T, block: u32, bytes: &[u8], gate: &G)
    ensures { T.takes taker.old taker.new bytes.now }
{
    gate.at(MEASURER, Spot::Hashing { block });
    taker.take(bytes);
}
