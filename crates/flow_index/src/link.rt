//! A position or none, in four bytes.

ghost use Rattle.std.specs.Prelude.{ℕ, ◌≡◌, Option, None, Some, IfSome};

use std::marker::Model;

/// A position below 2^32 - 1, or none. Contracts see an optional position.
///
/// An `Option<u32>` takes eight bytes, and chains are mostly of these.
#[derive(Clone, Copy)]
pub(crate) struct Link {
    /// One more than the position; 0 where there is none.
    past: u32,
}

impl Model for Link {
    ghost use Rattle.std.specs.Prelude.{ℕ, Option};
    ghost use Rattle.flow_index.specs.Links.{number_back, number_of, position_in};

    ghost Value = { Option ℕ };

    ghost view = { λ link. position_in link.past };

    ghost inverse = { λ found. record { past = number_of found } };

    ghost inverse_ok = { λ link h. number_back link.past (λ n. record { past = n }) };
}

impl Link {
    pub(crate) fn none() -> Link
        ensures { result ≡ None }
    {
        Link { past: 0 }
    }

    /// The link to a position, if it is below 2^32 - 1.
    pub(crate) fn to(position: usize) -> Option<Link>
        ensures { IfSome result (λ link. link ≡ Some position) }
    {
        let next = position.checked_add(1)?;
        match u32::try_from(next) {
            Ok(past) => Some(Link { past }),
            Err(_) => None,
        }
    }

    pub(crate) fn get(self) -> Option<u32>
        ensures { result ≡ self }
    {
        if self.past == 0 {
            None
        } else {
            Some(self.past - 1)
        }
    }
}
