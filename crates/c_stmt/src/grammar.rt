//! The rules of statements, what they are made of, and what they hold in braces.

ghost use Rattle.std.specs.Prelude.{◌≡◌, ◌-◌};
ghost use Rattle.c_reading.specs.Reads.{Reads};
ghost use Rattle.c_syntax.specs.Scoping.{input_from};

use crate::forms::Ended;
use c_reading::Stop;
use c_syntax::Source;
use c_tree::{Assign, BlockItem, Declaration, Expr};
use std::alloc::Global;

/// Readers of expressions and declarations, where so many levels are left.
pub trait Below {
    ghost use Rattle.c_stmt.specs.Below.{BelowReaders};

    /// What each of them reads.
    ghost readers: { Self → BelowReaders };

    /// An expression (C11 6.5.17).
    fn expr(&self, alloc: Global, room: usize, source: &mut Source<'_>) -> Result<Expr, Stop>
        ensures { Reads ((readers self.now).expr room (input_from source.old)) result
            (input_from source.new) };

    /// A constant expression (6.6).
    fn constant(&self, alloc: Global, room: usize, source: &mut Source<'_>) -> Result<Assign, Stop>
        ensures { Reads ((readers self.now).constant room (input_from source.old)) result
            (input_from source.new) };

    /// A declaration (6.7).
    fn declaration(
        &self,
        alloc: Global,
        room: usize,
        source: &mut Source<'_>,
    ) -> Result<Declaration, Stop>
        ensures { Reads ((readers self.now).declaration room (input_from source.old)) result
            (input_from source.new) };
}

/// Readers of what stands in braces or is a body, where so many levels are left.
pub(crate) trait Inside {
    ghost use Rattle.std.specs.Prelude.{ℕ};
    ghost use Rattle.c_stmt.specs.Below.{InsideReaders};

    /// What each of them reads, by the levels that are left.
    ghost readers: { Self → ℕ → InsideReaders };

    /// Each of them may be called where so many levels are left.
    ghost can_read: { Self → ℕ → Type 0 };

    /// An item of a block (C11 6.8.2).
    fn item(&self, alloc: Global, room: usize, source: &mut Source<'_>) -> Result<BlockItem, Stop>
        requires { can_read self.now room }
        ensures { Reads ((readers self.now room).item (input_from source.old)) result
            (input_from source.new) };

    /// A statement (6.8).
    fn statement(&self, alloc: Global, room: usize, source: &mut Source<'_>) -> Result<Ended, Stop>
        requires { can_read self.now room }
        ensures { Reads ((readers self.now room).statement (input_from source.old)) result
            (input_from source.new) };
}

/// The rules, with the readers of what they are made of and of what they hold in braces.
#[derive(Clone, Copy)]
pub(crate) struct Grammar<B, I> {
    pub(crate) alloc: Global,
    /// How many levels are left.
    pub(crate) room: usize,
    pub(crate) below: B,
    pub(crate) inside: I,
}

impl<B: Below, I: Inside> Grammar<B, I> {
    pub(crate) fn deeper(&self) -> usize
        ensures { result ≡ self.now.room - 1 }
    {
        self.room.saturating_sub(1)
    }

    pub(crate) fn expr(&self, source: &mut Source<'_>) -> Result<Expr, Stop>
        ensures { Reads ((B.readers self.now.below).expr self.now.room (input_from source.old))
            result (input_from source.new) }
    {
        self.below.expr(self.alloc, self.room, source)
    }

    /// An expression in parentheses.
    pub(crate) fn deeper_expr(&self, source: &mut Source<'_>) -> Result<Expr, Stop>
        ensures { Reads
            ((B.readers self.now.below).expr (self.now.room - 1) (input_from source.old))
            result (input_from source.new) }
    {
        self.below.expr(self.alloc, self.deeper(), source)
    }

    pub(crate) fn constant(&self, source: &mut Source<'_>) -> Result<Assign, Stop>
        ensures { Reads ((B.readers self.now.below).constant self.now.room (input_from source.old))
            result (input_from source.new) }
    {
        self.below.constant(self.alloc, self.room, source)
    }

    pub(crate) fn declaration(&self, source: &mut Source<'_>) -> Result<Declaration, Stop>
        ensures { Reads
            ((B.readers self.now.below).declaration self.now.room (input_from source.old))
            result (input_from source.new) }
    {
        self.below.declaration(self.alloc, self.room, source)
    }

    /// A declaration in parentheses.
    pub(crate) fn deeper_declaration(&self, source: &mut Source<'_>) -> Result<Declaration, Stop>
        ensures { Reads
            ((B.readers self.now.below).declaration (self.now.room - 1) (input_from source.old))
            result (input_from source.new) }
    {
        self.below.declaration(self.alloc, self.deeper(), source)
    }

    pub(crate) fn inside_item(&self, source: &mut Source<'_>) -> Result<BlockItem, Stop>
        requires { I.can_read self.now.inside self.now.room }
        ensures { Reads ((I.readers self.now.inside self.now.room).item (input_from source.old))
            result (input_from source.new) }
    {
        self.inside.item(self.alloc, self.room, source)
    }

    pub(crate) fn inside_statement(&self, source: &mut Source<'_>) -> Result<Ended, Stop>
        requires { I.can_read self.now.inside self.now.room }
        ensures { Reads
            ((I.readers self.now.inside self.now.room).statement (input_from source.old))
            result (input_from source.new) }
    {
        self.inside.statement(self.alloc, self.room, source)
    }
}
