//! How often stores wait, and how an application lets others go first.

use std::thread::yield_now;

/// The most times that others are let go first before a store is asked again.
const MOST_PAUSE: u32 = 64;

/// How many stores were answered that their block is locked, and after how many entries the last of them was.
#[derive(Clone, Copy)]
pub struct Waits {
    pub count: u64,
    pub last: Option<u64>,
}

impl Waits {
    ghost use Rattle.std.specs.Prelude.{◌≡◌, ◌↔◌, ℕ, None, Some};

    /// None so far.
    pub fn none() -> Waits
        ensures { (result.count ≡ 0) × (result.last ≡ None) }
    {
        Waits {
            count: 0,
            last: None,
        }
    }

    /// One.
    pub fn one(place: u64) -> Waits
        ensures { (result.count ≡ 1) × (result.last ≡ Some place) }
    {
        Waits {
            count: 1,
            last: Some(place),
        }
    }

    /// These, and later ones.
    pub fn and(self, later: Waits) -> Waits
        ensures none { later.last ≡ None → result.last ≡ self.last }
        ensures last { (place : ℕ) → later.last ≡ Some place → result.last ≡ Some place }
        ensures count { ((self.count ≡ 0) ↔ (self.last ≡ None)) → ((later.count ≡ 0) ↔ (later.last ≡ None))
            → ((result.count ≡ 0) ↔ (result.last ≡ None)) }
    {
        Waits {
            count: self.count.saturating_add(later.count),
            last: later.last.or(self.last),
        }
    }
}

/// Lets others go first so many times, and says how many times to do so next: twice as many, up to a bound.
pub fn give_way(pause: u32) -> u32 {
    for _ in 0..pause {
        yield_now();
    }
    if pause < MOST_PAUSE {
        pause * 2
    } else {
        MOST_PAUSE
    }
}
