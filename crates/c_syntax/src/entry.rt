//! The public call (C11 6.5.17).

ghost use Rattle.std.specs.Prelude.{◌≡◌, ◌+◌};
ghost use Rattle.c_reading.specs.Reads.{Reads};
ghost use Rattle.reading.specs.Exact.{room_on};
ghost use Rattle.c_reading.specs.Cursors.{input_at};
ghost use Rattle.c_syntax.specs.SimplestReaders as spec;
ghost use Rattle.c_syntax.specs.Scoping.{input_from};

use crate::grammar::Grammar;
use crate::simplest::{Simplest, assign_in};
use crate::source::Source;
use c_reading::{Cursor, Stop};
use c_tree::{Expr, Scopes};
use std::alloc::Global;

/// An expression on the level of the place.
#[tactic(auto, unfolding(crate::specs::SimplestReaders::expr))]
fn expr_from(alloc: Global, source: &mut Source<'_>) -> Result<Expr, Stop>
    ensures { Reads (spec.expr (room_on source.old.cursor.level + 1) (input_from source.old)) result
        (input_from source.new) }
{
    Grammar {
        alloc,
        room: source.cursor.room() + 1,
        inner: Simplest { assign: assign_in },
    }
    .inner_expr(source)
}

/// Reads an expression.
///
/// It takes the longest run of tokens that an expression can spell. A refusal names the first token
/// that continues no expression, or the first one on a level above 256, where that comes first.
/// After a refusal the cursor and the scopes are used no more.
pub fn read_expr(alloc: Global, cursor: &mut Cursor<'_>, scopes: &mut Scopes) -> Result<Expr, Stop>
    ensures { Reads (spec.expr (room_on cursor.old.level + 1) (input_at cursor.old scopes.old))
        result (input_at cursor.new scopes.new) }
{
    let place = std::mem::replace(cursor, Cursor::new(&[], &[], &[]));
    let open = std::mem::replace(scopes, Scopes::new(alloc));
    let mut source = Source {
        cursor: place,
        scopes: open,
    };
    let result = expr_from(alloc, &mut source);
    let Source {
        cursor: place,
        scopes: open,
    } = source;
    *cursor = place;
    *scopes = open;
    result
}
