//! A value that was taken out of a lock.

ghost use Rattle.std.specs.Prelude.{◌≡◌};
ghost use Rattle.std.specs.Borrow.{sem};

use std::snapshot::Snapshot;

/// A value that was taken out of a lock, and what it was then. It can only be given back.
pub struct Held<T> {
    pub(crate) value: T,
    pub(crate) taken: Snapshot<T>,
}

impl<T> Held<T> {
    ghost use Rattle.turn_lock.specs.Held.{held_value, LendsValue};

    /// The value as it stands.
    pub fn value(&self) -> &T
        ensures { result.now ≡ held_value self.now }
    {
        &self.value
    }

    /// The value, to be changed: what is written through the borrow is the value from then on.
    pub fn value_mut(&mut self) -> &mut T
        ensures* writes_back { sem 𝓛 (LendsValue T.row self.entry result) }
        ensures value { result.now ≡ held_value self.old }
    {
        &mut self.value
    }
}
