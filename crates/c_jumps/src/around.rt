//! What is around a statement.

ghost use Rattle.std.specs.Prelude.{◌≡◌, ◌||◌, false, true};

/// Whether a statement stands in a loop, and whether it stands in a `switch`.
#[derive(Clone, Copy)]
pub(crate) struct Around {
    pub(crate) in_loop: bool,
    pub(crate) in_switch: bool,
}

impl Around {
    /// What is around the body of a function.
    pub(crate) fn nothing() -> Around
        ensures { result ≡ record { in_loop = false; in_switch = false } }
    {
        Around {
            in_loop: false,
            in_switch: false,
        }
    }

    /// What is around the body of a loop.
    pub(crate) fn loop_body(self) -> Around
        ensures { result ≡ record self { in_loop = true } }
    {
        Around {
            in_loop: true,
            in_switch: self.in_switch,
        }
    }

    /// What is around the body of a `switch`.
    pub(crate) fn switch_body(self) -> Around
        ensures { result ≡ record self { in_switch = true } }
    {
        Around {
            in_loop: self.in_loop,
            in_switch: true,
        }
    }

    /// Whether `break` may stand there.
    pub(crate) fn may_break(self) -> bool
        ensures { result ≡ (self.in_loop || self.in_switch) }
    {
        self.in_loop || self.in_switch
    }
}
