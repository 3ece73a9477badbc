//! The cell: a value behind a lock of one word, with a count of the entries that its history has, and a mark where a
//! thread may sleep.

ghost use Rattle.std.specs.Prelude.{◌≡◌};
ghost use Rattle.std.specs.Slots.{slots_items, slots_len, IsFull};
ghost use Rattle.atomic_table.specs.Table.{Final, Seen};
ghost use Rattle.turn_cell.specs.Turning.{Turning, of_boxed};

use crate::passes::Pass;
use crate::plays::{At, Cut, Give, Glue, Load, Mark, Raise, Settle, Take, Turns};
use crate::turns::Turn;
use crate::views::{Opening, SeatView};
use atomic_table::{Badge, Closed, Seat, Table};
use chronicle::Chronicled;
use std::alloc::{AllocFailed, Global};
use std::hint::spin_loop;
use std::marker::{Brand, Model};
use std::mem;
use std::snapshot::Snapshot;
use std::sync::Wait;

/// The word that is 1 while a turn is held, and 0 else.
const HELD: usize = 0;

/// The word that has the number of entries.
const COUNT: usize = 1;

/// The word that is 1 where a thread may sleep until a turn ends, and 0 where none does. They sleep on this word.
const SLEEPERS: usize = 2;

/// The slot of the value.
const HOME: usize = 0;

/// How often a thread looks at the held word before it sleeps.
const LOOKS: u32 = 40;

/// Between two looks it pauses once at first, then twice as often each time, and at the most two to this power times.
const LONGEST: u32 = 10;

/// There was no memory. The value comes back.
#[derive(Drop)]
pub struct Refused<T> {
    /// What was to be put into the cell.
    pub value: T,
}

/// A value that threads take turns with. Clauses see it as a `Cell` of `specs/Cells.antt`.
#[derive(Drop)]
pub struct TurnCell<T: Chronicled> {
    table: Table<Option<Box<T>>, SeatView, Opening<T>, Turns<T>, Global>,
}

impl<T: Chronicled> Model for TurnCell<T> {
    ghost use Rattle.std.specs.Prelude.{◌≡◌};
    ghost use Rattle.turn_cell.specs.Cells.{Cell};

    ghost Value = { Cell };

    ghost view = { λ c. record {
      id = c.table.shared.table_id;
      actors = c.table.shared.key.actors;
      world = T.world c.table.shared.key.value.value;
    } };

    ghost invariant = { λ c. (c.table.shared.table_id.words ≡ 3) × (c.table.shared.table_id.slots ≡ 1) };
}

impl<T: Chronicled> TurnCell<T> {
    ghost use Rattle.std.specs.Prelude.{◌≡◌, ◌<◌, [], ◌∷◌, None, IsSome, IfSome, IfOk, IfErr, MatchBool, length};
    ghost use Rattle.chronicle.specs.Ports.{OthersFollow};
    ghost use Rattle.turn_cell.specs.declared.views.TurnStage.TheVariants.{Outside, Entered, Loaded};
    ghost use Rattle.turn_cell.specs.Cells.{AddsAtMostOne, AllBelow, longer_list, token};
    ghost use Rattle.turn_cell.specs.SeatViews.{beside, below_cut, merged, above_cut, seeing, seat_view_of, staged, token_at, token_beside};

    /// A cell with this value, for the actors from 0 up to below `hi`, and the pass for all of them. Only want
    /// of memory refuses it.
    pub fn new(alloc: Global, value: T, hi: u32) -> Result<(TurnCell<T>, Pass), Refused<T>>
        requires some { 0 < hi }
        requires below { AllBelow hi (T.history value) }
        ensures ok { IfOk result (λ made. (made.0.actors ≡ hi) × (made.0.world ≡ T.world value)
            × (made.1 ≡ token made.0 (T.history value) 0 hi)) }
        ensures err { IfErr result (λ refused. refused.value ≡ value) }
    {
        let about = Opening {
            value: Snapshot::of(&value),
            actors: hi,
        };
        let count = value.length();
        let boxed = match Box::new(alloc, value) {
            Ok(boxed) => boxed,
            Err(AllocFailed { value }) => return Err(Refused { value }),
        };
        let Ok(mut slots) = Vec::with_capacity(alloc, 1) else {
            let value = Box::into_inner(boxed);
            return Err(Refused { value });
        };
        slots.push_reserved(Some(boxed));
        match Table::new(alloc, &[0, count, 0], slots, &about) {
            Ok((table, seat)) => {
                let pass = Pass {
                    badge: seat.into_badge(),
                    low: 0,
                    high: hi,
                };
                Ok((TurnCell { table }, pass))
            }
            Err(atomic_table::Refused { mut slots }) => {
                let value = Box::into_inner(slots.pop().unwrap().unwrap());
                slots.destroy_empty();
                Err(Refused { value })
            }
        }
    }

    /// Waits until no one is in a turn, and begins one. The value's history begins with all that the pass had
    /// seen; what came since is by actors outside the pass's range.
    pub fn enter<R: Wait>(&self, rt: &R, pass: Pass) -> Turn<T>
        requires { pass.cell ≡ self.now }
        ensures pass { result.pass ≡ record pass { seen = T.history result.value } }
        ensures world { T.world result.value ≡ pass.cell.world }
        ensures seen { OthersFollow pass.low pass.high pass.seen (T.history result.value) }
    {
        let Pass { badge, low, high } = pass;
        let mut seat = badge.into_seat::<Option<Box<T>>>();
        self.take_turn(rt, &mut seat);
        let (count, value) = self.take_value(&mut seat);
        Turn {
            seat,
            value,
            count,
            low,
            high,
        }
    }

    /// Takes the held word, where no other seat has it.
    fn take(&self, seat: &mut Seat<Option<Box<T>>, SeatView>) -> bool
        requires cell { seat.old.table_id ≡ self.now.id }
        requires outside { let t = token_at seat.old.table_id seat.old.me.0 in
            (seat.old.me ≡ (seat_view_of t Outside, [])) × (t.low < t.high) }
        ensures cell { (seat.new.table_id ≡ seat.old.table_id) × (seat.new.id ≡ seat.old.id) }
        ensures taken { MatchBool result (seat.new.me ≡ (staged seat.old.me.0 Entered, []))
            (seat.new.me ≡ seat.old.me) }
    {
        self.table.shared.compare_exchange::<Take>(seat, HELD, 0, 1) == 0
    }

    /// The same, with so many looks at the word before it gives up.
    fn take_soon(&self, seat: &mut Seat<Option<Box<T>>, SeatView>) -> bool
        requires cell { seat.old.table_id ≡ self.now.id }
        requires outside { let t = token_at seat.old.table_id seat.old.me.0 in
            (seat.old.me ≡ (seat_view_of t Outside, [])) × (t.low < t.high) }
        ensures cell { (seat.new.table_id ≡ seat.old.table_id) × (seat.new.id ≡ seat.old.id) }
        ensures taken { MatchBool result (seat.new.me ≡ (staged seat.old.me.0 Entered, []))
            (seat.new.me ≡ seat.old.me) }
    {
        for look in 0..LOOKS {
            if self.table.shared.peek(HELD) == 0 && self.take(seat) {
                return true;
            }
            pause(look);
        }
        false
    }

    /// Marks by a 1 that a thread may sleep, or by a 0 that none does.
    fn mark_sleepers(&self, seat: &mut Seat<Option<Box<T>>, SeatView>, mark: u64)
        requires cell { seat.old.table_id ≡ self.now.id }
        ensures cell { (seat.new.table_id ≡ seat.old.table_id) × (seat.new.id ≡ seat.old.id) }
        ensures same { seat.new.me ≡ seat.old.me }
    {
        self.table.shared.store::<Mark>(seat, SLEEPERS, mark);
    }

    /// Takes the held word. It sleeps while another seat has it. Before it sleeps it sets the mark and then looks
    /// once more: so whoever has the word then finds the mark when the turn ends. Whoever was woken sets the mark
    /// again, since others may sleep still.
    fn take_turn<R: Wait>(&self, rt: &R, seat: &mut Seat<Option<Box<T>>, SeatView>)
        requires cell { seat.old.table_id ≡ self.now.id }
        requires outside { let t = token_at seat.old.table_id seat.old.me.0 in
            (seat.old.me ≡ (seat_view_of t Outside, [])) × (t.low < t.high) }
        ensures cell { (seat.new.table_id ≡ seat.old.table_id) × (seat.new.id ≡ seat.old.id) }
        ensures held { seat.new.me ≡ (staged seat.old.me.0 Entered, []) }
    {
        if self.take_soon(seat) {
            return;
        }
        for _ in rt.forever() {
            self.mark_sleepers(seat, 1);
            if self.take(seat) {
                return;
            }
            self.table.shared.park(rt, SLEEPERS, 1);
            if self.take_soon(seat) {
                self.mark_sleepers(seat, 1);
                return;
            }
        }
        unreachable!()
    }

    /// Loads the count, and takes the value out of its slot.
    fn take_value(&self, seat: &mut Seat<Option<Box<T>>, SeatView>) -> (u64, Box<T>)
        requires cell { seat.old.table_id ≡ self.now.id }
        requires held { seat.old.me ≡ (seat_view_of (token_at seat.old.table_id seat.old.me.0) Entered, []) }
        ensures cell { (seat.new.table_id ≡ seat.old.table_id) × (seat.new.id ≡ seat.old.id) }
        ensures loaded { seat.new.me
            ≡ (seeing seat.old.me.0 (T.history result.1.value) Loaded, (0, None) ∷ []) }
        ensures count { result.0 ≡ length (T.history result.1.value) }
        ensures world { T.world result.1.value ≡ seat.old.me.0.world }
        ensures seen { let mine = seat.old.me.0.mine in
            OthersFollow mine.low mine.high mine.seen (T.history result.1.value) }
    {
        let count = self.table.shared.load::<Load<T>>(seat, COUNT);
        let value = self.table.shared.exchange(seat, HOME, None).unwrap();
        (count, value)
    }

    /// Ends the turn, and wakes a thread where one may sleep. The value has to have the history that it had at
    /// `enter`, or that one and one entry more, by an actor of the pass's range.
    pub fn leave(&self, turn: Turn<T>) -> Pass
        requires cell { turn.pass.cell ≡ self.now }
        requires world { T.world turn.value ≡ turn.pass.cell.world }
        requires adds { AddsAtMostOne turn.pass.low turn.pass.high turn.pass.seen (T.history turn.value) }
        ensures { result ≡ record turn.pass { seen = T.history turn.value } }
    {
        let Turn {
            mut seat,
            value,
            count,
            low,
            high,
        } = turn;
        let now = value.length();
        let home = Some(value);
        self.raise(&mut seat, count, now, &home);
        self.give_turn(&mut seat, home);
        Pass {
            badge: seat.into_badge(),
            low,
            high,
        }
    }

    /// Raises the count, where the value has an entry more.
    fn raise(
        &self,
        seat: &mut Seat<Option<Box<T>>, SeatView>,
        count: u64,
        now: u64,
        home: &Option<Box<T>>,
    )
        requires cell { seat.old.table_id ≡ self.now.id }
        requires some { IsSome home.now }
        requires loaded { let t = token_at seat.old.table_id seat.old.me.0 in
            (seat.old.me ≡ (seat_view_of t Loaded, (0, None) ∷ [])) × (count ≡ length t.seen) }
        requires adds { let t = token_at seat.old.table_id seat.old.me.0 in
            IfSome home.now (λ boxed. (now ≡ length (T.history boxed.value))
            × AddsAtMostOne t.low t.high t.seen (T.history boxed.value)) }
        ensures cell { (seat.new.table_id ≡ seat.old.table_id) × (seat.new.id ≡ seat.old.id) }
        ensures seen { IfSome home.now (λ boxed.
            seat.new.me ≡ (seeing seat.old.me.0 (T.history boxed.value) Loaded, seat.old.me.1)) }
    {
        if now != count {
            let _count = self
                .table
                .shared
                .compare_exchange_with::<Raise<T>>(seat, COUNT, count, now, home);
        }
    }

    /// Puts the value back into its slot, and gives the held word back.
    fn give_turn(&self, seat: &mut Seat<Option<Box<T>>, SeatView>, home: Option<Box<T>>)
        requires cell { seat.old.table_id ≡ self.now.id }
        requires some { IsSome home }
        requires loaded { let t = token_at seat.old.table_id seat.old.me.0 in
            seat.old.me ≡ (seat_view_of t Loaded, (0, None) ∷ []) }
        requires home { let t = token_at seat.old.table_id seat.old.me.0 in
            IfSome home (λ boxed. (T.world boxed.value ≡ t.cell.world) × (T.history boxed.value ≡ t.seen)) }
        ensures cell { (seat.new.table_id ≡ seat.old.table_id) × (seat.new.id ≡ seat.old.id) }
        ensures over { seat.new.me ≡ (staged seat.old.me.0 Outside, []) }
    {
        let empty = self.table.shared.exchange(seat, HOME, home);
        let None = empty else { unreachable!() };
        self.table.shared.store::<Give>(seat, HELD, 0);
        self.wake_sleeper(seat);
    }

    /// Wakes a thread, where one may sleep, and takes the mark away.
    fn wake_sleeper(&self, seat: &mut Seat<Option<Box<T>>, SeatView>)
        requires cell { seat.old.table_id ≡ self.now.id }
        ensures cell { (seat.new.table_id ≡ seat.old.table_id) × (seat.new.id ≡ seat.old.id) }
        ensures same { seat.new.me ≡ seat.old.me }
    {
        if self.table.shared.peek(SLEEPERS) != 0 {
            self.mark_sleepers(seat, 0);
            self.table.shared.wake_one(SLEEPERS);
        }
    }

    /// Cuts the pass's range in two: the pass keeps the actors below `at`, and the new pass has the others.
    /// Both have seen what the pass had.
    pub fn split(&self, pass: &mut Pass, at: u32) -> Pass
        requires cell { pass.old.cell ≡ self.now }
        requires within { (pass.old.low < at) × (at < pass.old.high) }
        ensures left { pass.new ≡ record pass.old { high = at } }
        ensures right { result ≡ record pass.old { low = at } }
    {
        let high = pass.high;
        let mut seat = mem::replace(&mut pass.badge, Badge::blank()).into_seat::<Option<Box<T>>>();
        let other = self.cut::<Brand>(&mut seat, at);
        pass.badge = seat.into_badge();
        pass.high = at;
        Pass {
            badge: other.into_badge(),
            low: at,
            high,
        }
    }

    /// Cuts a seat's range in two.
    fn cut<A: At>(
        &self,
        seat: &mut Seat<Option<Box<T>>, SeatView>,
        at: u32,
    ) -> Seat<Option<Box<T>>, SeatView>
        requires cell { seat.old.table_id ≡ self.now.id }
        requires at { at ≡ A.at }
        requires outside { let t = token_at seat.old.table_id seat.old.me.0 in
            (seat.old.me ≡ (seat_view_of t Outside, [])) × (t.low < at) × (at < t.high) }
        ensures left { (seat.new.table_id ≡ seat.old.table_id) × (seat.new.id ≡ seat.old.id)
            × (seat.new.me ≡ (below_cut at seat.old.me.0, [])) }
        ensures right { (result.table_id ≡ seat.old.table_id) × (result.me ≡ (above_cut at seat.old.me.0, [])) }
    {
        self.table.shared.split_seat::<Cut<A>>(seat)
    }

    /// Makes two passes one again, the left range beginning where the right one ends. It has seen the longer of
    /// the two lists. What that one has more is by actors outside the range of the pass with the shorter.
    pub fn join(&self, left: Pass, right: Pass) -> Pass
        requires left { left.cell ≡ self.now }
        requires right { right.cell ≡ self.now }
        requires meet { left.high ≡ right.low }
        ensures pass { result ≡ record left { seen = longer_list left.seen right.seen; high = right.high } }
        ensures left { OthersFollow left.low left.high left.seen result.seen }
        ensures right { OthersFollow right.low right.high right.seen result.seen }
    {
        let Pass {
            badge,
            low,
            high: _,
        } = left;
        let Pass {
            badge: other,
            low: _,
            high,
        } = right;
        let mut seat = badge.into_seat::<Option<Box<T>>>();
        self.lay_beside(&mut seat, other.into_seat());
        self.settle(&mut seat);
        Pass {
            badge: seat.into_badge(),
            low,
            high,
        }
    }

    /// Takes the part of another seat, which is spent.
    fn lay_beside(
        &self,
        seat: &mut Seat<Option<Box<T>>, SeatView>,
        other: Seat<Option<Box<T>>, SeatView>,
    )
        requires cell { (seat.old.table_id ≡ self.now.id) × (other.table_id ≡ self.now.id) }
        requires left { let t = token_at seat.old.table_id seat.old.me.0 in
            (seat.old.me ≡ (seat_view_of t Outside, [])) × (t.low < t.high) }
        requires right { let t = token_at other.table_id other.me.0 in
            (other.me ≡ (seat_view_of t Outside, [])) × (t.low < t.high) }
        ensures cell { (seat.new.table_id ≡ seat.old.table_id) × (seat.new.id ≡ seat.old.id) }
        ensures both { seat.new.me ≡ (beside seat.old.me.0 other.me.0, []) }
    {
        self.table.shared.join_seat::<Glue>(seat, other);
    }

    /// Makes one part of two that meet, by a look at the table: both lists begin its one history.
    fn settle(&self, seat: &mut Seat<Option<Box<T>>, SeatView>)
        requires cell { seat.old.table_id ≡ self.now.id }
        requires parts { let t = token_at seat.old.table_id seat.old.me.0 in
            let u = token_beside seat.old.table_id seat.old.me.0 in
            (seat.old.me ≡ (beside (seat_view_of t Outside) (seat_view_of u Outside), []))
            × (t.low < t.high) × (u.low < u.high) × (t.high ≡ u.low) }
        ensures cell { (seat.new.table_id ≡ seat.old.table_id) × (seat.new.id ≡ seat.old.id) }
        ensures merged { seat.new.me ≡ (merged seat.old.me.0, []) }
        ensures left { let v = seat.old.me.0 in
            OthersFollow v.mine.low v.mine.high v.mine.seen (longer_list v.mine.seen v.other.seen) }
        ensures right { let v = seat.old.me.0 in
            OthersFollow v.other.low v.other.high v.other.seen (longer_list v.mine.seen v.other.seen) }
    {
        let _count = self.table.shared.load::<Settle>(seat, COUNT);
    }

    /// Gives the value back to whoever has the pass of all actors.
    pub fn close(self, pass: Pass) -> T
        requires cell { pass.cell ≡ self }
        requires all { (pass.low ≡ 0) × (pass.high ≡ pass.cell.actors) }
        ensures world { T.world result ≡ pass.cell.world }
        ensures history { T.history result ≡ pass.seen }
        ensures below { AllBelow pass.cell.actors (T.history result) }
    {
        let TurnCell { table } = self;
        let Pass {
            badge,
            low: _,
            high: _,
        } = pass;
        let mut closed = shut(table, badge.into_seat());
        let boxed = closed.take(HOME).unwrap();
        closed.free();
        Box::into_inner(boxed)
    }
}

/// The table as it is at the end, with what the seat knows of it.
fn shut<T: Chronicled>(
    table: Table<Option<Box<T>>, SeatView, Opening<T>, Turns<T>, Global>,
    seat: Seat<Option<Box<T>>, SeatView>,
) -> Closed<Option<Box<T>>, Global>
    requires { seat.table_id ≡ table.shared.table_id }
    ensures counts { (slots_len result.words ≡ table.shared.table_id.words)
        × (slots_len result.slots ≡ table.shared.table_id.slots) }
    ensures full { IsFull result.words × IsFull result.slots }
    ensures last { Final (Seen (Turning (of_boxed T.world) (of_boxed T.history)) seat.id seat.me.0)
        (slots_items result.words) (slots_items result.slots) }
{
    table.close_with(seat)
}

/// Lets the processor rest for a moment, which is longer the more looks there were.
fn pause(looks: u32) {
    for _ in 0..1u32 << looks.min(LONGEST) {
        spin_loop();
    }
}

/// Threads may share a cell, and hand passes on.
fn crosses<X: Send + Sync>(_value: &X) {}

fn hands_on<X: Send>(_value: &X) {}

fn cell_crosses<T: Chronicled + Send>(cell: &TurnCell<T>, pass: &Pass) {
    crosses(cell);
    hands_on(pass);
}
