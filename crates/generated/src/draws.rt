//! The numbers that a generated run is drawn with.

ghost use Rattle.std.specs.Prelude.{◌≡◌, ◌+◌, ◌<◌, ◌≤◌};
ghost use Rattle.generated.specs.Draws.{draw, next_state, state_after};

/// The multiplier and the increment of Knuth's MMIX.
const MULTIPLIER: u64 = 6_364_136_223_846_793_005;

const INCREMENT: u64 = 1_442_695_040_888_963_407;

/// A generator of numbers.
#[derive(Drop)]
pub struct Draws {
    /// The number that it began with.
    pub seed: u64,
    /// How many numbers were drawn.
    pub count: u32,
    // what the next number is made from
    state: u64,
    ghost follows: { state ≡ state_after seed count },
}

// The state after this one.
fn next_state(state: u64) -> u64
    ensures { result ≡ next_state state }
{
    state.wrapping_mul(MULTIPLIER).wrapping_add(INCREMENT)
}

impl Draws {
    /// The generator that begins with this number.
    #[tactic(auto, unfolding(crate::specs::Draws::state_after))]
    pub fn new(seed: u64) -> Draws
        ensures seed { result.seed ≡ seed }
        ensures count { result.count ≡ 0 }
    {
        Draws {
            seed,
            count: 0,
            state: seed,
        }
    }

    /// The next number below the limit.
    #[tactic(auto, using(crate::proofs::NextDraws::state_more), unfolding(crate::specs::Draws::draw))]
    pub fn below(&mut self, limit: u32) -> u32
        requires limit { 1 ≤ limit }
        requires few { self.old.count < 10000 }
        ensures value { result ≡ draw self.old.seed (self.old.count + 1) limit }
        ensures bound { result < limit }
        ensures seed { self.new.seed ≡ self.old.seed }
        ensures count { self.new.count ≡ self.old.count + 1 }
    {
        let state = next_state(self.state);
        *self = Draws {
            seed: self.seed,
            count: self.count + 1,
            state,
        };
        ((state >> 33) % u64::from(limit)) as u32
    }
}
