// Labels, by name.

ghost use Rattle.std.specs.Prelude.{◌≡◌, not, is_some, IfOk, OnOk};
ghost use Rattle.rv_asm.specs.Labels.{Addresses, no_labels, with_address, addresses_in};

use std::alloc::{AllocError, Global};
use std::collections::HashMap;

/// The labels that lines have, with their addresses.
#[derive(Drop)]
pub struct Labels<'a> {
    map: HashMap<&'a [u8], u32>,
}

impl<'a> Labels<'a> {
    /// No labels. It takes no memory.
    pub fn new(alloc: Global) -> Labels<'a>
        ensures { addresses_in result ≡ no_labels }
    {
        Labels {
            map: HashMap::new(alloc),
        }
    }

    /// The address of a label; `None` where the name is no label.
    pub fn address_of(&self, name: &[u8]) -> Option<u32>
        ensures { result ≡ addresses_in self.now name.now }
    {
        self.map.get(name).copied()
    }

    /// Returns a name its address, and says whether it is a new label. One look-up does both.
    pub fn add(&mut self, name: &'a [u8], address: u32) -> Result<bool, AllocError>
        ensures new { IfOk result (λ new. new ≡ not (is_some (addresses_in self.old name.now))) }
        ensures grown { OnOk result (addresses_in self.new ≡ with_address (addresses_in self.old) name.now address) }
    {
        match self.map.insert(name, address) {
            Ok(old) => Ok(old.is_none()),
            Err(_) => Err(AllocError),
        }
    }
}
