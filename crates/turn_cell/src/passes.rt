//! A pass to a cell.

use crate::views::SeatView;
use atomic_table::Badge;
use std::marker::Model;

/// The right to take turns at one cell for a range of actors. There is one pass for each actor at most, and it
/// is spent while its holder is in a turn. Clauses see it as a `Token` of `specs/Cells.antt`: the cell, the
/// entries that its holder has seen, and the range.
///
/// A pass that is let go is lost: its cell can't be closed any more.
#[derive(Drop)]
pub struct Pass {
    pub(crate) badge: Badge<SeatView>,
    pub(crate) low: u32,
    pub(crate) high: u32,
}

impl Model for Pass {
    ghost use Rattle.std.specs.Prelude.{◌≡◌, ◌<◌, [], ◌∷◌};
    ghost use Rattle.turn_cell.specs.declared.views.TurnStage.TheVariants.{Outside};
    ghost use Rattle.turn_cell.specs.Cells.{Token};
    ghost use Rattle.turn_cell.specs.SeatViews.{seat_view_of, token_of};

    ghost Value = { Token };

    ghost view = { λ p. token_of p.badge.table_id p.badge.views };

    ghost invariant = { λ p. let t = token_of p.badge.table_id p.badge.views in
        (p.badge.views ≡ seat_view_of t Outside ∷ []) × (p.low ≡ t.low) × (p.high ≡ t.high) × (t.low < t.high) };
}

impl Pass {
    ghost use Rattle.std.specs.Prelude.{◌≡◌, ◌<◌};

    /// The first actor of the range.
    pub fn low(&self) -> u32
        ensures value { result ≡ self.now.low }
        ensures some { self.now.low < self.now.high }
    {
        self.low
    }

    /// The first actor past the range.
    pub fn high(&self) -> u32
        ensures value { result ≡ self.now.high }
        ensures some { self.now.low < self.now.high }
    {
        self.high
    }
}
