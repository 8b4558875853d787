//! A thread's part in a lock.

ghost use Rattle.std.specs.Prelude.{◌≡◌};

use crate::kept::Kept;
use crate::view::View;

/// A thread's part in a lock, with some of the lock's shares. Whoever has all of them can close the
/// lock. It takes no memory but for the count, and can only be joined to another seat or closed.
pub struct Seat<T: Kept> {
    pub(crate) inner: atomic_table::Seat<Option<T>, Option<View<T, T::Entry>>>,
    pub(crate) shares: u32,
}

impl<T: Kept> Seat<T> {
    ghost use Rattle.turn_lock.specs.Seats.{shares_of};

    /// How many of the lock's shares the seat has.
    pub fn shares(&self) -> u32
        ensures { result ≡ shares_of self.now }
    {
        self.shares
    }
}
