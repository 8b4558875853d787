//! The knot: statements, and the items of blocks that they hold (C11 6.8).

ghost use Rattle.std.specs.Prelude.{◌≡◌};
ghost use Rattle.c_reading.specs.Reads.{Reads};
ghost use Rattle.c_syntax.specs.Scoping.{input_from};
ghost use Rattle.c_stmt.specs.Statements as spec;
ghost use Rattle.c_stmt.specs.Statements.{items, nested_in, statements};

use crate::forms::Ended;
use crate::grammar::{Below, Grammar, Inside};
use c_reading::Stop;
use c_syntax::Source;
use c_tree::{Block, BlockItem};
use std::alloc::Global;

/// Readers of both, as values, and what they are made of.
#[derive(Clone, Copy)]
pub(crate) struct Tied<B, F, G> {
    pub(crate) below: B,
    pub(crate) item: F,
    pub(crate) statement: G,
}

impl<B, F, G> Inside for Tied<B, F, G>
where
    B: Below + Copy,
    F: Fn(Global, B, usize, &mut Source<'_>) -> Result<BlockItem, Stop>,
    G: Fn(Global, B, usize, &mut Source<'_>) -> Result<Ended, Stop>,
{
    ghost use Rattle.c_stmt.specs.Statements.{nested_in, readers_of};
    ghost use Rattle.c_stmt.specs.Ties.{Ties};

    ghost readers = { λ it room. readers_of (nested_in (B.readers it.below) room) };

    ghost can_read = { λ it room. Ties (B.readers it.below) it.below room
        (F.pre it.item) (F.post it.item) (G.pre it.statement) (G.post it.statement) };

    fn item(&self, alloc: Global, room: usize, source: &mut Source<'_>) -> Result<BlockItem, Stop> {
        (self.item)(alloc, self.below, room, source)
    }

    fn statement(
        &self,
        alloc: Global,
        room: usize,
        source: &mut Source<'_>,
    ) -> Result<Ended, Stop> {
        (self.statement)(alloc, self.below, room, source)
    }
}

/// An item of a block, where fewer levels are left than `room`.
#[cycle(knot)]
pub(crate) fn item_in<B: Below + Copy>(
    alloc: Global,
    below: B,
    room: usize,
    source: &mut Source<'_>,
) -> Result<BlockItem, Stop>
    ensures { Reads (nested_in (B.readers below) room items (input_from source.old)) result
        (input_from source.new) }
{
    if room == 0 {
        return Err(source.refusal());
    }
    let inside = Tied {
        below,
        item: item_in,
        statement: statement_in,
    };
    Grammar {
        alloc,
        room: room - 1,
        below,
        inside,
    }
    .item(source)
}

/// A statement, where fewer levels are left than `room`.
#[cycle(knot)]
pub(crate) fn statement_in<B: Below + Copy>(
    alloc: Global,
    below: B,
    room: usize,
    source: &mut Source<'_>,
) -> Result<Ended, Stop>
    ensures { Reads (nested_in (B.readers below) room statements (input_from source.old)) result
        (input_from source.new) }
{
    if room == 0 {
        return Err(source.refusal());
    }
    let inside = Tied {
        below,
        item: item_in,
        statement: statement_in,
    };
    Grammar {
        alloc,
        room: room - 1,
        below,
        inside,
    }
    .statement(source)
}

/// Reads a statement (C11 6.8), whose tokens may go so many levels deep from this one on.
///
/// It takes the longest run of tokens that begins a statement. A refusal names the first token that
/// continues no statement, or the first one on a level above 256, where that comes first. Whether
/// the statement ends in an `if` without an `else` is told, since an `else` behind it belongs to
/// that. After a refusal the source is used no more.
pub fn read_statement<B: Below + Copy>(
    alloc: Global,
    below: B,
    room: usize,
    source: &mut Source<'_>,
) -> Result<Ended, Stop>
    ensures { Reads (spec.read_statement (B.readers below) room (input_from source.old)) result
        (input_from source.new) }
{
    let inside = Tied {
        below,
        item: item_in,
        statement: statement_in,
    };
    Grammar {
        alloc,
        room,
        below,
        inside,
    }
    .statement(source)
}

/// Reads a block with its braces (6.8.2), which may stand so many levels deep from this one on. It
/// takes and refuses what a statement does.
pub fn read_block<B: Below + Copy>(
    alloc: Global,
    below: B,
    room: usize,
    source: &mut Source<'_>,
) -> Result<Block, Stop>
    ensures { Reads (spec.read_block (B.readers below) room (input_from source.old)) result
        (input_from source.new) }
{
    let inside = Tied {
        below,
        item: item_in,
        statement: statement_in,
    };
    Grammar {
        alloc,
        room,
        below,
        inside,
    }
    .block(source)
}
