//! HMAC-SHA-256: the keyed digest of RFC 2104 over SHA-256 (FIPS 180-4). It takes a key and a text
//! of any length, the text piece by piece, and needs no memory beside itself.
//!
//! ```rust
//! use hmac256::Hmac;
//!
//! let mut hmac = Hmac::new(b"key");
//! hmac.update(b"The quick brown fox ");
//! hmac.update(b"jumps over the lazy dog");
//! let tag: [u8; 32] = hmac.finish();
//! ```
#![tactic(auto)]

ghost use Rattle.std.specs.Prelude.{◌≡◌, ◌≤◌, length};
ghost use Rattle.hmac256.specs.Hmac.{hmac, padded_key, xor_each, zero_filled};

use sha2::{Digest, Sha256};

/// The bytes in a block of SHA-256: B of RFC 2104, section 2.
const BLOCK: usize = 64;

/// The byte that the inner pad repeats (RFC 2104, section 2).
const IPAD: u8 = 0x36;

/// The byte that the outer pad repeats (RFC 2104, section 2).
const OPAD: u8 = 0x5c;

/// The bytes, filled with zeros to a block (RFC 2104, section 2, step 1).
fn filled(bytes: &[u8]) -> [u8; BLOCK]
    requires { length bytes.now ≤ BLOCK }
    ensures { result ≡ zero_filled bytes.now }
{
    let mut block = [0u8; BLOCK];
    block[..bytes.len()].copy_from_slice(bytes);
    block
}

/// The key as one block: a key longer than a block is hashed first (RFC 2104, section 2).
fn block_of(key: &[u8]) -> [u8; BLOCK]
    ensures { result ≡ padded_key key.now }
{
    if key.len() > BLOCK {
        return filled(&Sha256::digest(key));
    }
    filled(key)
}

/// The block with each byte XOR `pad`.
fn xored(block: &[u8; BLOCK], pad: u8) -> [u8; BLOCK]
    ensures { result ≡ xor_each block.now pad }
{
    let mut mixed = *block;
    for byte in mixed.iter_mut() {
        *byte ^= pad;
    }
    mixed
}

/// A running HMAC-SHA-256: the two hashers, begun with the key's two blocks. The text that it takes
/// in is hashed at once and not kept.
#[derive(Drop)]
pub struct Hmac {
    inner: Sha256,
    outer: Sha256,
}

impl Hmac {
    ghost use Rattle.std.specs.Prelude.{◌≡◌, ◌++◌, ℕ, List, []};
    ghost use Rattle.hmac256.specs.Hmac.{hmac};
    ghost use Rattle.hmac256.specs.States.{StandsFor};

    /// The digest of the empty text under `key`, which may have any length (RFC 2104, section 2).
    pub fn new(key: &[u8]) -> Hmac
        ensures { StandsFor result key.now [] }
    {
        let block = block_of(key);
        let inner = Sha256::new_with_prefix(&xored(&block, IPAD));
        let outer = Sha256::new_with_prefix(&xored(&block, OPAD));
        Hmac { inner, outer }
    }

    /// Appends `piece` to the text.
    pub fn update(&mut self, piece: &[u8])
        ensures { (key text : List ℕ) → StandsFor self.old key text
            → StandsFor self.new key (text ++ piece.now) }
    {
        self.inner.update(piece);
    }

    /// The 32 bytes of HMAC-SHA-256 of the key and of all that was appended, however it was cut
    /// into pieces (RFC 2104, section 2).
    #[tactic(auto, unfolding(crate::specs::Hmac::hmac))]
    pub fn finish(self) -> [u8; 32]
        ensures { (key text : List ℕ) → StandsFor self key text → result ≡ hmac key text }
    {
        let Hmac { inner, mut outer } = self;
        outer.update(&inner.finalize());
        outer.finalize()
    }
}

/// The HMAC-SHA-256 of `text` under `key`, in one call (RFC 2104, section 2).
pub fn hmac256(key: &[u8], text: &[u8]) -> [u8; 32]
    ensures { result ≡ hmac key.now text.now }
{
    let mut state = Hmac::new(key);
    state.update(text);
    state.finish()
}

#[cfg(test)]
mod tests;
