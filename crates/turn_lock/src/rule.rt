//! The rule of a lock over the kit's table of words and slots, and its steps.

use crate::kept::Kept;
use crate::view::View;
use atomic_table::{Join, Play, Split, TableRule};
use std::marker::PhantomData;
use std::snapshot::Snapshot;

/// What a lock is made with. It is the key of the table's rule.
#[derive(Drop)]
pub(crate) struct Opening<T> {
    pub(crate) value: Snapshot<T>,
    pub(crate) shares: u64,
}

/// The rule, as a type.
pub(crate) struct InTurn<T> {
    marker: PhantomData<T>,
}

impl<T: Kept> TableRule<Option<T>, Option<View<T, T::Entry>>, Opening<T>> for InTurn<T> {
    ghost use Rattle.std.specs.Prelude.{Some};
    ghost use Rattle.turn_lock.specs.Rule.{IsInTurn};
    ghost use Rattle.turn_lock.specs.Steps.{opening_view};

    ghost holds = { λ key. IsInTurn T.name T.history T.may_become key.value.value key.shares };

    ghost first = { λ key. Some (opening_view key.value.value key.shares) };
}

/// Draws a ticket.
pub(crate) struct Draw;

/// Looks at the ticket that is served, and takes the value where it is the seat's.
pub(crate) struct Look;

/// Puts the value back, and passes the turn on.
pub(crate) struct PassOn;

/// Says how many shares the next split gives away.
pub(crate) struct Offer;

/// Splits a seat off.
pub(crate) struct SplitOff;

/// Takes another seat in.
pub(crate) struct JoinIn;

impl<T, E> Play<Option<T>, Option<View<T, E>>> for Draw {
    ghost use Rattle.turn_lock.specs.Steps.{Draws};

    ghost then = { Draws };
}

impl<T: Kept> Play<Option<T>, Option<View<T, T::Entry>>> for Look {
    ghost use Rattle.turn_lock.specs.Steps.{Looks};

    ghost then = { Looks T.name T.history T.may_become };
}

impl<T: Kept> Play<Option<T>, Option<View<T, T::Entry>>> for PassOn {
    ghost use Rattle.turn_lock.specs.Steps.{PassesOn};

    ghost then = { PassesOn T.history };
}

impl<T, E> Play<Option<T>, Option<View<T, E>>> for Offer {
    ghost use Rattle.turn_lock.specs.Steps.{Offers};

    ghost then = { Offers };
}

impl<T, E> Split<Option<View<T, E>>> for SplitOff {
    ghost use Rattle.turn_lock.specs.Steps.{left_of, right_of};

    ghost left = { left_of };

    ghost right = { right_of };
}

impl<T, E> Join<Option<View<T, E>>> for JoinIn {
    ghost use Rattle.std.specs.Prelude.{None};
    ghost use Rattle.turn_lock.specs.Steps.{both_of};

    ghost both = { both_of };

    ghost spent = { None };
}
