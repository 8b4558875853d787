//! What a value under a lock says of itself.

ghost use Rattle.std.specs.Prelude.{◌≡◌, List, length};

/// A value with a name and a history. Who gives it back to the lock has kept the name, and has at
/// most extended the history.
///
/// The three members exist for contracts alone. What a holder may do to the value is `may_become`,
/// between the value that it took and the value that it gives back.
pub trait Kept {
    type Name;

    type Entry;

    ghost name: { Self → Self.Name };

    ghost history: { Self → List Self.Entry };

    ghost may_become: { Self → Self → Type 0 };

    /// How many entries the history has.
    fn entries(&self) -> u64
        ensures { result ≡ length (history self.now) };

    // A holder may leave the value as it is.
    ghost may_stay: { (value : Self) → may_become value value };

    // What two holders may do one after the other, one may do.
    ghost may_go_on: { (first next last : Self) →
        may_become first next → may_become next last → may_become first last };
}
