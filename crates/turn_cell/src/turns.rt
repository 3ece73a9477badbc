//! A turn at a cell.

use crate::views::SeatView;
use atomic_table::Seat;
use std::marker::Model;

/// One turn: the value is out of the cell, and nobody else can enter. It has no `Drop`: it has to be spent by
/// `TurnCell::leave`. Clauses see it as an `InTurn` of `specs/Cells.antt`: the pass that entered, with all
/// that was seen then, and the value.
pub struct Turn<T> {
    pub(crate) seat: Seat<Option<Box<T>>, SeatView>,
    pub(crate) value: Box<T>,
    pub(crate) count: u64,
    pub(crate) low: u32,
    pub(crate) high: u32,
}

impl<T> Model for Turn<T> {
    ghost use Rattle.std.specs.Prelude.{◌≡◌, ◌<◌, [], ◌∷◌, None, length};
    ghost use Rattle.turn_cell.specs.declared.views.TurnStage.TheVariants.{Loaded};
    ghost use Rattle.turn_cell.specs.Cells.{InTurn};
    ghost use Rattle.turn_cell.specs.SeatViews.{seat_view_of, token_of};

    ghost Value = { InTurn T };

    ghost view = { λ t. record { pass = token_of t.seat.table_id (t.seat.me.0 ∷ []); value = t.value.value } };

    ghost invariant = { λ t. let pass = token_of t.seat.table_id (t.seat.me.0 ∷ []) in
        (t.seat.me ≡ (seat_view_of pass Loaded, (0, None) ∷ [])) × (t.count ≡ length pass.seen)
        × (t.low ≡ pass.low) × (t.high ≡ pass.high) × (pass.low < pass.high) };
}

impl<T> Turn<T> {
    ghost use Rattle.std.specs.Prelude.{◌≡◌};
    ghost use Rattle.std.specs.Borrow.{sem};
    ghost use Rattle.turn_cell.specs.Lending.{lends_value};

    /// The value, to be changed. At `leave` it may have one entry more, by an actor of the pass's range.
    pub fn value(&mut self) -> &mut T
        ensures* writes_back { sem 𝓛 (lends_value T.row self.entry result) }
        ensures value { result.now ≡ self.old.value }
    {
        self.value.as_mut()
    }

    /// The value, to be read.
    pub fn peek(&self) -> &T
        ensures { result.now ≡ self.now.value }
    {
        self.value.as_ref()
    }
}
