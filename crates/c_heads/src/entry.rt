//! The head of a function definition (C11 6.9.1).

ghost use Rattle.std.specs.Prelude.{Some, false};
ghost use Rattle.c_heads.specs.Gives.{CanReadDeeper, GivesFunction};
ghost use Rattle.c_heads.specs.HeadReaders as spec;
ghost use Rattle.c_reading.specs.Reads.{Reads};
ghost use Rattle.c_syntax.specs.Scoping.{input_from};

use crate::declarators::function_declarator;
use crate::forms::{Head, NamedHead};
use c_reading::Stop;
use c_specifiers::{Grammar, Inside, Named, Place, Specified, declare};
use c_syntax::Source;
use c_tree::Specs;

#[tactic(auto, unfolding(crate::specs::HeadReaders::undeclared_head))]
pub(crate) fn undeclared_head<'t, N: Inside + Copy>(
    grammar: &Grammar<N>,
    source: &mut Source<'t>,
) -> Result<NamedHead<'t>, Stop>
    requires here { N.can_read grammar.now.inside grammar.now.room }
    requires deeper { CanReadDeeper (N.can_read grammar.now.inside) grammar.now.room }
    ensures { GivesFunction spec.undeclared_head
        grammar.now.room (N.readers grammar.now.inside) source.old result source.new }
{
    let Specified { words, atomic, .. } = grammar.specifiers(Place::Definition, source)?;
    let Named { declarator, name } = function_declarator(grammar, atomic, source)?;
    let specs = Specs { words };
    let head = Head { specs, declarator };
    Ok(NamedHead { head, name })
}

/// Reads the specifiers and the declarator of a function definition (C11 6.9.1), whose name is then
/// declared.
///
/// It leaves two scopes open: that of the function's own parameters, and in it one of what the rest
/// of the declarator declares, the name last. After a refusal the source is used no more.
#[tactic(auto, unfolding(crate::specs::HeadReaders::head_at, crate::specs::HeadReaders::head))]
pub fn function_head<N: Inside + Copy>(
    grammar: &Grammar<N>,
    source: &mut Source<'_>,
) -> Result<Head, Stop>
    requires here { N.can_read grammar.now.inside grammar.now.room }
    requires deeper { CanReadDeeper (N.can_read grammar.now.inside) grammar.now.room }
    ensures { Reads (spec.head (N.readers grammar.now.inside) grammar.now.room
        (input_from source.old)) result (input_from source.new) }
{
    let NamedHead { head, name } = undeclared_head(grammar, source)?;
    declare(&name, false, source)?;
    Ok(head)
}
