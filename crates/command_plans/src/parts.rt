//! What is written in parts, so that no more than one part is held at a time.

ghost use Rattle.std.specs.Prelude.{◌≡◌, ◌<◌, ◌≤◌, ℕ, List, [], ◌∷◌, ◌++◌, length, take, slice_get, Some, IfOk};

use std::alloc::{AllocError, Global};

/// Bytes for standard output, front by front. It takes no memory.
pub trait Parts {
    /// The bytes that are still to come.
    ghost told: { Self → List ℕ };

    /// Moves the first bytes that are still to come into the front of `into`, and gives their number: 0 only where
    /// `into` is empty or no byte is to come.
    fn next(&mut self, into: &mut [u8]) -> usize
        ensures bound { result ≤ length into.new }
        ensures front { told self.old ≡ take result into.new ++ told self.new }
        ensures end { result ≡ 0 → 0 < length into.new → told self.old ≡ [] };
}

/// The bytes of a file, made part by part.
pub trait FileParts {
    /// The bytes of each part, in order.
    ghost parts: { Self → List (List ℕ) };

    /// How many parts there are.
    fn count(&self) -> usize
        ensures { result ≡ length (parts self.now) };

    /// The bytes of a part, from 0. It may want memory.
    fn part(&self, alloc: Global, k: usize) -> Result<Vec<u8>, AllocError>
        requires { k < length (parts self.now) }
        ensures { IfOk result (λ v. slice_get (parts self.now) k ≡ Some v.items) };
}

/// No bytes, for what is whole: nothing is to be told, and as a file it is one part that is empty.
#[derive(Clone, Copy, Debug, PartialEq, Eq)]
pub struct NoParts;

impl Parts for NoParts {
    ghost told = { λ _. [] };

    fn next(&mut self, _into: &mut [u8]) -> usize {
        0
    }
}

impl FileParts for NoParts {
    ghost parts = { λ _. [] ∷ [] };

    fn count(&self) -> usize {
        1
    }

    fn part(&self, alloc: Global, _k: usize) -> Result<Vec<u8>, AllocError> {
        Ok(Vec::new(alloc))
    }
}
