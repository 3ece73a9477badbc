// The count of the calls on a fake, and of those that fail.
ghost use Rattle.std.specs.Prelude.{◌≡◌, ◌≤◌, ◌↔◌, Contains, IsTrue};
ghost use Rattle.att_base.specs.Faults.{one_more};

use crate::faults::Failed;

// The calls on one object, numbered from 0: which of them fail, which is next, and how many failed.
#[derive(Drop)]
pub struct Calls {
    pub fails: Vec<u64>,
    pub next: u64,
    pub faults: u64,
}

impl Calls {
    // No call yet, and these fail.
    pub fn new(fails: Vec<u64>) -> Calls
        ensures { result ≡ record { fails = fails; next = 0; faults = 0 } }
    {
        Calls {
            fails,
            next: 0,
            faults: 0,
        }
    }

    // Counts the next call, and says whether it is one that fails.
    pub fn begin(&mut self) -> bool
        ensures listed { IsTrue result ↔ Contains self.old.fails.items self.old.next }
        ensures counted { self.new ≡ record self.old { next = one_more self.old.next } }
    {
        let listed = self.fails.contains(&self.next);
        self.next = self.next.saturating_add(1);
        listed
    }

    // Counts a fault.
    pub fn fail(&mut self) -> Failed
        ensures counted { self.new ≡ record self.old { faults = one_more self.old.faults } }
        ensures later { self.old.faults ≤ self.new.faults }
    {
        self.faults = self.faults.saturating_add(1);
        Failed
    }
}
