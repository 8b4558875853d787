//! The rules of expressions, and what they hold in brackets.

ghost use Rattle.std.specs.Prelude.{◌≡◌, ◌-◌};
ghost use Rattle.c_reading.specs.Reads.{Reads};
ghost use Rattle.c_syntax.specs.Scoping.{input_from};

use crate::source::Source;
use c_reading::Stop;
use c_tree::{Assign, InitItem, TypeName};
use std::alloc::Global;

/// Readers of what stands in brackets, where so many levels are left.
pub trait Inner {
    ghost use Rattle.std.specs.Prelude.{ℕ};
    ghost use Rattle.c_syntax.specs.Inner.{InnerReaders};

    /// What each of them reads, by the levels that are left.
    ghost readers: { Self → ℕ → InnerReaders };

    /// Each of them may be called where so many levels are left.
    ghost can_read: { Self → ℕ → Type 0 };

    /// An assignment expression (C11 6.5.16).
    fn assign(&self, alloc: Global, room: usize, source: &mut Source<'_>) -> Result<Assign, Stop>
        requires { can_read self.now room }
        ensures { Reads ((readers self.now room).assign (input_from source.old)) result
            (input_from source.new) };

    /// A type name (6.7.7).
    fn type_name(
        &self,
        alloc: Global,
        room: usize,
        source: &mut Source<'_>,
    ) -> Result<TypeName, Stop>
        requires { can_read self.now room }
        ensures { Reads ((readers self.now room).type_name (input_from source.old)) result
            (input_from source.new) };

    /// An item of an initialiser list (6.7.9).
    fn item(&self, alloc: Global, room: usize, source: &mut Source<'_>) -> Result<InitItem, Stop>
        requires { can_read self.now room }
        ensures { Reads ((readers self.now room).item (input_from source.old)) result
            (input_from source.new) };
}

/// The rules, with the readers of what they hold in brackets.
#[derive(Clone, Copy)]
pub struct Grammar<N> {
    pub alloc: Global,
    /// How many levels are left.
    pub room: usize,
    pub inner: N,
}

impl<N: Inner> Grammar<N> {
    pub(crate) fn deeper(&self) -> usize
        ensures { result ≡ self.now.room - 1 }
    {
        self.room.saturating_sub(1)
    }

    pub(crate) fn inner_assign(&self, source: &mut Source<'_>) -> Result<Assign, Stop>
        requires { N.can_read self.now.inner self.now.room }
        ensures { Reads ((N.readers self.now.inner self.now.room).assign (input_from source.old))
            result (input_from source.new) }
    {
        self.inner.assign(self.alloc, self.room, source)
    }

    pub(crate) fn inner_type_name(&self, source: &mut Source<'_>) -> Result<TypeName, Stop>
        requires { N.can_read self.now.inner self.now.room }
        ensures { Reads ((N.readers self.now.inner self.now.room).type_name (input_from source.old))
            result (input_from source.new) }
    {
        self.inner.type_name(self.alloc, self.room, source)
    }

    pub(crate) fn inner_item(&self, source: &mut Source<'_>) -> Result<InitItem, Stop>
        requires { N.can_read self.now.inner self.now.room }
        ensures { Reads ((N.readers self.now.inner self.now.room).item (input_from source.old))
            result (input_from source.new) }
    {
        self.inner.item(self.alloc, self.room, source)
    }
}
