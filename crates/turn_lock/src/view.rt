//! What a seat knows. No value of these types is made: they stand in proofs alone.

use std::collections::LinkedList;

/// An entry and its position in the history, from 0.
pub(crate) struct Positioned<E> {
    pub(crate) position: u64,
    pub(crate) entry: E,
}

/// The view of a seat.
pub(crate) struct View<T, E> {
    /// The value that the lock was made with.
    pub(crate) first: T,
    /// The history that the seat has seen.
    pub(crate) seen: LinkedList<E>,
    /// The shorter of the two histories that the last join put together.
    pub(crate) shorter: LinkedList<E>,
    /// The entries that the seat added.
    pub(crate) own: LinkedList<Positioned<E>>,
    pub(crate) shares: u64,
    /// How many of them the next split gives away.
    pub(crate) offer: u64,
    pub(crate) ticket: Option<u64>,
    /// The value that the seat took and has not given back, as it was then.
    pub(crate) held: Option<T>,
}
