//! The public calls (C11 6.5.17, 6.7, 6.7.7).

ghost use Rattle.std.specs.Prelude.{◌≡◌, ◌+◌};
ghost use Rattle.c_reading.specs.Cursors.{input_at};
ghost use Rattle.c_reading.specs.Reads.{Reads};
ghost use Rattle.c_parts.specs.PartReaders as spec;
ghost use Rattle.c_syntax.specs.Scoping.{input_from};
ghost use Rattle.reading.specs.Exact.{room_on};

use crate::knot::{Tied, assign_in, group_in, item_in, member_in, param_in, type_name_in};
use c_declarations::declaration;
use c_reading::{Cursor, Stop};
use c_specifiers::Grammar;
use c_syntax::Source;
use c_tree::{Declaration, Expr, Scopes, TypeName};
use std::alloc::Global;

/// An expression on the level of the place.
#[tactic(auto, unfolding(crate::specs::PartReaders::expr))]
fn expr_from(alloc: Global, source: &mut Source<'_>) -> Result<Expr, Stop>
    ensures { Reads (spec.expr (room_on source.old.cursor.level + 1) (input_from source.old)) result
        (input_from source.new) }
{
    let inner = Tied {
        assign: assign_in,
        type_name: type_name_in,
        param: param_in,
        member: member_in,
        group: group_in,
        item: item_in,
    };
    let grammar = c_syntax::Grammar {
        alloc,
        room: source.cursor.room() + 1,
        inner,
    };
    grammar.inner_expr(source)
}

/// A type name on the level of the place.
#[tactic(auto, unfolding(crate::specs::PartReaders::type_name))]
fn type_name_from(alloc: Global, source: &mut Source<'_>) -> Result<TypeName, Stop>
    ensures { Reads (spec.type_name (room_on source.old.cursor.level + 1) (input_from source.old))
        result (input_from source.new) }
{
    let room = source.cursor.room() + 1;
    type_name_in(alloc, room, source)
}

/// A declaration on the level of the place.
#[tactic(auto, unfolding(crate::specs::PartReaders::declaration))]
fn declaration_from(alloc: Global, source: &mut Source<'_>) -> Result<Declaration, Stop>
    ensures { Reads (spec.declaration (room_on source.old.cursor.level) (input_from source.old))
        result (input_from source.new) }
{
    let inside = Tied {
        assign: assign_in,
        type_name: type_name_in,
        param: param_in,
        member: member_in,
        group: group_in,
        item: item_in,
    };
    let grammar = Grammar {
        alloc,
        room: source.cursor.room(),
        inside,
    };
    declaration(&grammar, source)
}

/// The place and its scopes as one value. Empty ones stand in their place meanwhile.
fn taken<'t>(alloc: Global, cursor: &mut Cursor<'t>, scopes: &mut Scopes) -> Source<'t>
    ensures cursor { result.cursor ≡ cursor.old }
    ensures scopes { result.scopes ≡ scopes.old }
{
    Source {
        cursor: std::mem::replace(cursor, Cursor::new(&[], &[], &[])),
        scopes: std::mem::replace(scopes, Scopes::new(alloc)),
    }
}

/// Reads an expression.
///
/// It takes the longest run of tokens that an expression can spell. A refusal names the first token
/// that continues no expression, or the first one on a level above 256, where that comes first.
/// After a refusal the cursor and the scopes are used no more.
pub fn read_expr(alloc: Global, cursor: &mut Cursor<'_>, scopes: &mut Scopes) -> Result<Expr, Stop>
    ensures { Reads (spec.expr (room_on cursor.old.level + 1) (input_at cursor.old scopes.old))
        result (input_at cursor.new scopes.new) }
{
    let mut source = taken(alloc, cursor, scopes);
    let result = expr_from(alloc, &mut source);
    *cursor = source.cursor;
    *scopes = source.scopes;
    result
}

/// Reads a type name, as `read_expr` reads an expression.
pub fn read_type_name(
    alloc: Global,
    cursor: &mut Cursor<'_>,
    scopes: &mut Scopes,
) -> Result<TypeName, Stop>
    ensures { Reads (spec.type_name (room_on cursor.old.level + 1) (input_at cursor.old scopes.old))
        result (input_at cursor.new scopes.new) }
{
    let mut source = taken(alloc, cursor, scopes);
    let result = type_name_from(alloc, &mut source);
    *cursor = source.cursor;
    *scopes = source.scopes;
    result
}

/// Reads a declaration, as `read_expr` reads an expression. Its names are then declared.
pub fn read_declaration(
    alloc: Global,
    cursor: &mut Cursor<'_>,
    scopes: &mut Scopes,
) -> Result<Declaration, Stop>
    ensures { Reads (spec.declaration (room_on cursor.old.level) (input_at cursor.old scopes.old))
        result (input_at cursor.new scopes.new) }
{
    let mut source = taken(alloc, cursor, scopes);
    let result = declaration_from(alloc, &mut source);
    *cursor = source.cursor;
    *scopes = source.scopes;
    result
}
