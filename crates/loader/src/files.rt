//! An application's file.

use std::marker::Model;

/// An executable file of an application. Clauses see it as the list of its bytes.
#[derive(Debug, Drop)]
pub struct AppFile {
    bytes: Vec<u8>,
}

impl Model for AppFile {
    ghost use Rattle.std.specs.Prelude.{ℕ, List};

    ghost Value = { List ℕ };

    ghost view = { λ f. f.bytes.items };
}

impl AppFile {
    ghost use Rattle.std.specs.Prelude.{◌≡◌};

    /// The file of these bytes. It takes no memory.
    pub fn new(bytes: Vec<u8>) -> AppFile
        ensures { result ≡ bytes.items }
    {
        AppFile { bytes }
    }

    /// The file's bytes.
    pub fn bytes(&self) -> &[u8]
        ensures { result.now ≡ self.now }
    {
        &self.bytes
    }
}
