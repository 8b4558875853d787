//! The lock and its calls.

ghost use Rattle.std.specs.Prelude.{◌≡◌};

use crate::bells::Bells;
use crate::held::Held;
use crate::kept::Kept;
use crate::rule::{Draw, InTurn, JoinIn, Look, Offer, Opening, PassOn, SplitOff};
use crate::seat::Seat;
use crate::view::View;
use atomic_table::{Refused, Table};
use std::alloc::{AllocError, Global};
use std::snapshot::Snapshot;
use std::sync::Wait;

/// The word that counts the tickets that were drawn.
const DRAWN: usize = 0;

/// The word that has the ticket that is served.
const SERVED: usize = 1;

/// A lock round a value, which the holders of tickets take one after the other.
pub struct Turn<T: Kept> {
    table: Table<Option<T>, Option<View<T, T::Entry>>, Opening<T>, InTurn<T>, Global>,
    bells: Bells,
    ghost sized: { (table.shared.table_id.words ≡ 2) × (table.shared.table_id.slots ≡ 1) },
}

impl<T: Kept> Turn<T> {
    ghost use Rattle.std.specs.Prelude.{◌+◌, ◌-◌, ◌<◌, ◌≤◌, [], ◌++◌, IfOk};
    ghost use Rattle.turn_lock.specs.Entries.{added, longer, AreAll, AreApart, AreAt, Extends};
    ghost use Rattle.turn_lock.specs.Held.{held_value, taken_value};
    ghost use Rattle.turn_lock.specs.Seats.{all_shares, first_value, own, seen, shares_of};
    ghost use Rattle.turn_lock.specs.Seats.{HasTaken, IsFree, IsOf};

    /// A lock round this value, and a seat with all its shares. The lock's name is the value's.
    pub fn new(alloc: Global, value: T, shares: u32) -> Result<(Turn<T>, Seat<T>), AllocError>
    where
        T: Drop,
        requires empty { T.history value ≡ [] }
        requires some { 1 ≤ shares }
        ensures first { IfOk result (λ made. first_value made.0 ≡ value) }
        ensures all_shares { IfOk result (λ made. all_shares made.0 ≡ shares) }
        ensures turn { IfOk result (λ made. IsOf made.0 made.1) }
        ensures free { IfOk result (λ made. IsFree made.1) }
        ensures shares { IfOk result (λ made. shares_of made.1 ≡ shares) }
        ensures seen { IfOk result (λ made. seen made.1 ≡ []) }
        ensures own { IfOk result (λ made. own made.1 ≡ []) }
    {
        let opening = Opening {
            value: Snapshot::of(&value),
            shares: u64::from(shares),
        };
        let bells = Bells::new(alloc)?;
        let mut slots = Vec::with_capacity(alloc, 1)?;
        slots.push_reserved(Some(value));
        match Table::new(alloc, &[0, 0], slots, &opening) {
            Ok((table, inner)) => Ok((Turn { table, bells }, Seat { inner, shares })),
            Err(Refused { slots: _ }) => Err(AllocError),
        }
    }

    /// A seat with some of the shares, which has seen as much and added nothing.
    pub fn split(&self, seat: &mut Seat<T>, shares: u32) -> Seat<T>
        requires turn { IsOf self.now seat.old }
        requires free { IsFree seat.old }
        requires some { 1 ≤ shares }
        requires few { shares < shares_of seat.old }
        ensures turn { IsOf self.now seat.new × IsOf self.now result }
        ensures free { IsFree seat.new × IsFree result }
        ensures left { shares_of seat.new ≡ shares_of seat.old - shares }
        ensures shares { shares_of result ≡ shares }
        ensures seen { (seen seat.new ≡ seen seat.old) × (seen result ≡ seen seat.old) }
        ensures own { (own seat.new ≡ own seat.old) × (own result ≡ []) }
    {
        let shared = &self.table.shared;
        let offer = u64::from(shares);

        // The word stays as it is: the step only tells the view how many shares are to go.
        shared.compare_exchange::<Offer>(&mut seat.inner, DRAWN, offer, offer);
        let inner = shared.split_seat::<SplitOff>(&mut seat.inner);
        seat.shares -= shares;
        Seat { inner, shares }
    }

    /// Waits for the seat's turn, and takes the value out.
    pub fn take<R: Wait>(&self, rt: &R, seat: &mut Seat<T>) -> Held<T>
        requires turn { IsOf self.now seat.old }
        requires free { IsFree seat.old }
        ensures turn { IsOf self.now seat.new }
        ensures taken { HasTaken T.history seat.new (taken_value result) }
        ensures value { held_value result ≡ taken_value result }
        ensures named { T.name (held_value result) ≡ T.name (first_value self.now) }
        ensures grown { Extends (T.history (held_value result)) (seen seat.old) }
        ensures became { T.may_become (first_value self.now) (held_value result) }
        ensures seen { seen seat.new ≡ T.history (held_value result) }
        ensures own { own seat.new ≡ own seat.old }
        ensures shares { shares_of seat.new ≡ shares_of seat.old }
    {
        let shared = &self.table.shared;
        let ticket = shared.fetch_add::<Draw>(&mut seat.inner, DRAWN, 1);
        let mut looks = 0;
        for _ in rt.forever() {
            let heard = self.bells.listen(ticket);
            let served = shared.load::<Look>(&mut seat.inner, SERVED);
            if served == ticket {
                let value = shared.exchange(&mut seat.inner, 0, None).unwrap();
                let taken = Snapshot::of(&value);
                return Held { value, taken };
            }
            self.bells.pause(rt, heard, served, looks);
            looks = looks.saturating_add(1);
        }
        unreachable!()
    }

    /// Puts the value back, and passes the turn on. What was added is the seat's own.
    pub fn give(&self, seat: &mut Seat<T>, held: Held<T>)
        requires turn { IsOf self.now seat.old }
        requires taken { HasTaken T.history seat.old (taken_value held) }
        requires named { T.name (held_value held) ≡ T.name (first_value self.now) }
        requires grown { Extends (T.history (held_value held)) (T.history (taken_value held)) }
        requires becomes { T.may_become (taken_value held) (held_value held) }
        ensures turn { IsOf self.now seat.new }
        ensures free { IsFree seat.new }
        ensures seen { seen seat.new ≡ T.history (held_value held) }
        ensures own { own seat.new ≡ own seat.old
            ++ added (seen seat.old) (T.history (held_value held)) }
        ensures shares { shares_of seat.new ≡ shares_of seat.old }
    {
        let shared = &self.table.shared;
        let Held { value, taken: _ } = held;
        let before = shared.exchange(&mut seat.inner, 0, Some(value));
        let None = before else { unreachable!() };
        let served = shared.fetch_add::<PassOn>(&mut seat.inner, SERVED, 1);
        self.wake(served.wrapping_add(1));
    }

    /// Wakes whoever has this ticket. Where it is not drawn yet, its first look comes later than
    /// this, and finds its turn.
    fn wake(&self, ticket: u64) {
        if self.table.shared.peek(DRAWN) != ticket {
            self.bells.ring(ticket);
        }
    }

    /// The seat takes in the other, and what that one has seen and added.
    pub fn join(&self, seat: &mut Seat<T>, other: Seat<T>)
        requires turn { IsOf self.now seat.old × IsOf self.now other }
        requires free { IsFree seat.old × IsFree other }
        ensures turn { IsOf self.now seat.new }
        ensures free { IsFree seat.new }
        ensures shares { shares_of seat.new ≡ shares_of seat.old + shares_of other }
        ensures seen { seen seat.new ≡ longer (seen seat.old) (seen other) }
        ensures grown { Extends (seen seat.new) (seen seat.old)
            × Extends (seen seat.new) (seen other) }
        ensures own { own seat.new ≡ own seat.old ++ own other }
    {
        let shared = &self.table.shared;
        let Seat { inner, shares } = other;
        shared.join_seat::<JoinIn>(&mut seat.inner, inner);

        // An offer of none, for what it tells of the joined view.
        shared.compare_exchange::<Offer>(&mut seat.inner, DRAWN, 0, 0);
        seat.shares += shares;
    }

    /// Ends the lock, and gives its value.
    pub fn close(self, seat: Seat<T>) -> T
        requires turn { IsOf self seat }
        requires free { IsFree seat }
        requires all_shares { shares_of seat ≡ all_shares self }
        ensures named { T.name result ≡ T.name (first_value self) }
        ensures grown { Extends (T.history result) (seen seat) }
        ensures became { T.may_become (first_value self) result }
        ensures positioned { AreAt (T.history result) (own seat) }
        ensures apart { AreApart (own seat) }
        ensures whole { AreAll (T.history result) (own seat) }
    {
        let Turn { table, bells: _ } = self;
        let Seat { inner, shares: _ } = seat;
        let mut closed = table.close_with(inner);
        let value = closed.take(0).unwrap();
        closed.free();
        value
    }
}
