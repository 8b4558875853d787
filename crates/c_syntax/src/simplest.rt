//! The knot of assignment expressions, with the simplest type names (C11 6.5.16).

ghost use Rattle.std.specs.Prelude.{◌≡◌, ◌-◌};
ghost use Rattle.c_reading.specs.Reads.{Reads};
ghost use Rattle.c_syntax.specs.Scoping.{input_from};
ghost use Rattle.c_syntax.specs.SimplestReaders as spec;

use crate::forms::value_item;
use crate::grammar::{Grammar, Inner};
use crate::source::Source;
use crate::type_name::type_name;
use c_reading::Stop;
use c_tree::{Assign, InitItem, TypeName};
use std::alloc::Global;

/// Type names and items of the simplest kind, with a reader of assignment expressions.
#[derive(Clone, Copy)]
pub(crate) struct Simplest<F> {
    pub(crate) assign: F,
}

impl<F: Fn(Global, usize, &mut Source<'_>) -> Result<Assign, Stop>> Inner for Simplest<F> {
    ghost use Rattle.c_syntax.specs.Nests.{Nests};
    ghost use Rattle.c_syntax.specs.SimplestReaders.{simplest_in};

    ghost readers = { λ it room. simplest_in room };

    ghost can_read = { λ it room. Nests room (F.pre it.assign) (F.post it.assign) };

    fn assign(&self, alloc: Global, room: usize, source: &mut Source<'_>) -> Result<Assign, Stop> {
        (self.assign)(alloc, room, source)
    }

    fn type_name(
        &self,
        alloc: Global,
        room: usize,
        source: &mut Source<'_>,
    ) -> Result<TypeName, Stop> {
        type_name(alloc, room.saturating_sub(1), source)
    }

    #[tactic(auto, unfolding(crate::specs::SimplestReaders::item))]
    fn item(&self, alloc: Global, room: usize, source: &mut Source<'_>) -> Result<InitItem, Stop> {
        let value = (self.assign)(alloc, room, source)?;
        Ok(value_item(alloc, value)?)
    }
}

/// An assignment expression, where fewer levels are left than `room`.
pub(crate) fn assign_in(alloc: Global, room: usize, source: &mut Source<'_>) -> Result<Assign, Stop>
    ensures { Reads (spec.assign room (input_from source.old)) result (input_from source.new) }
{
    if room == 0 {
        return Err(source.refusal());
    }
    Grammar {
        alloc,
        room: room - 1,
        inner: Simplest { assign: assign_in },
    }
    .whole(source)
}
