//! The cell's rule, and what each step on the table tells.

ghost use Rattle.std.specs.Prelude.{ℕ};
ghost use Rattle.turn_cell.specs.declared.views.TurnStage.TheVariants.{Outside};
ghost use Rattle.turn_cell.specs.SeatViews.{seat_view, below_cut, above_cut, beside, spent};
ghost use Rattle.turn_cell.specs.Turning.{Turning, of_boxed};
ghost use Rattle.turn_cell.specs.Steps.{takes_turn, loads_value, raises_count, gives_turn, keeps_knowledge, settles_parts};

use crate::views::{Opening, SeatView};
use atomic_table::{Join, Play, Split, TableRule};
use chronicle::Chronicled;
use std::marker::{Brand, PhantomData};

/// The rule of a cell's table.
pub struct Turns<T> {
    of: PhantomData<T>,
}

impl<T: Chronicled> TableRule<Option<Box<T>>, SeatView, Opening<T>> for Turns<T> {
    ghost holds = { λ _. Turning (of_boxed T.world) (of_boxed T.history) };

    ghost first = { λ k. seat_view k.actors (T.world k.value.value) (T.history k.value.value) 0 k.actors Outside };
}

/// Takes the held word, where no one has it.
pub struct Take;

impl<T> Play<Option<T>, SeatView> for Take {
    ghost then = { takes_turn };
}

/// Loads the count, and takes the value.
pub struct Load<T> {
    of: PhantomData<T>,
}

impl<T: Chronicled> Play<Option<Box<T>>, SeatView> for Load<T> {
    ghost then = { loads_value (of_boxed T.world) (of_boxed T.history) };
}

/// Raises the count by the one entry that the value has more.
pub struct Raise<T> {
    of: PhantomData<T>,
}

impl<T: Chronicled> Play<Option<Box<T>>, SeatView> for Raise<T> {
    ghost then = { raises_count (of_boxed T.history) };
}

/// Gives the held word and the value back.
pub struct Give;

impl<T> Play<Option<T>, SeatView> for Give {
    ghost then = { gives_turn };
}

/// Marks that a thread may sleep, or that none does.
pub struct Mark;

impl<T> Play<Option<T>, SeatView> for Mark {
    ghost then = { keeps_knowledge };
}

/// Compares the lists of two seats that were joined.
pub struct Settle;

impl<T> Play<Option<T>, SeatView> for Settle {
    ghost then = { settles_parts };
}

/// Where a range is cut in two. Each call of a program picks it.
pub trait At {
    ghost at: { ℕ };
}

impl At for Brand {
    ghost at = { 0 };
}

/// Cuts a range in two.
pub struct Cut<A> {
    at: PhantomData<A>,
}

impl<A: At> Split<SeatView> for Cut<A> {
    ghost left = { below_cut A.at };

    ghost right = { above_cut A.at };
}

/// Lays the part of one seat beside that of another.
pub struct Glue;

impl Join<SeatView> for Glue {
    ghost both = { beside };

    ghost spent = { spent };
}
