//! Declarators of functions, and those that stand in parentheses of them (C11 6.9.1).

ghost use Rattle.std.specs.Prelude.{◌-◌, Some, None, true, false};
ghost use Rattle.c_heads.specs.Gives.{CanReadDeeper, GivesFunction};
ghost use Rattle.c_heads.specs.HeadReaders as spec;
ghost use Rattle.c_reading.specs.Reads.{Reads};
ghost use Rattle.c_syntax.specs.Scoping.{input_from};

use crate::forms::Enclosed;
use crate::functions::{around, enclosed_around, enclosed_name, function_name};
use c_declarators::{Pointing, pointers};
use c_lexer::mark::{MARK_LEFT_PAREN, MARK_RIGHT_PAREN, MARK_STAR};
use c_reading::Stop;
use c_specifiers::{Grammar, Inside, Named};
use c_syntax::Source;

/// A declarator that stands in parentheses, where fewer levels are left than there is room for.
#[cycle(enclosed)]
pub(crate) fn enclosed_in<'t, N: Inside + Copy>(
    grammar: &Grammar<N>,
    source: &mut Source<'t>,
) -> Result<Enclosed<'t>, Stop>
    requires here { N.can_read grammar.now.inside grammar.now.room }
    requires deeper { CanReadDeeper (N.can_read grammar.now.inside) grammar.now.room }
    ensures { Reads (spec.enclosed_in (N.readers grammar.now.inside) grammar.now.room
        (input_from source.old)) result (input_from source.new) }
{
    if grammar.room == 0 {
        return Err(source.refusal());
    }
    let deeper = Grammar {
        alloc: grammar.alloc,
        room: grammar.room - 1,
        inside: grammar.inside,
    };
    enclosed_declarator(&deeper, source)
}

#[cycle(enclosed)]
#[tactic(auto, unfolding(crate::specs::HeadReaders::function_group))]
pub(crate) fn function_group<'t, N: Inside + Copy>(
    grammar: &Grammar<N>,
    pointing: Pointing,
    source: &mut Source<'t>,
) -> Result<Named<'t>, Stop>
    requires here { N.can_read grammar.now.inside grammar.now.room }
    requires deeper { CanReadDeeper (N.can_read grammar.now.inside) grammar.now.room }
    ensures { GivesFunction
        (λ room inner enclosed. spec.function_group room inner enclosed pointing)
        grammar.now.room (N.readers grammar.now.inside) source.old result source.new }
{
    let left = source.expect_mark(MARK_LEFT_PAREN, grammar.deeper())?;
    let inside = enclosed_in(grammar, source)?;
    let right = source.expect_mark(MARK_RIGHT_PAREN, grammar.deeper())?;
    around(grammar, pointing, left, inside, right, source)
}

/// A function, or one in parentheses where no `_Atomic` stands before it.
#[cycle(enclosed)]
#[tactic(auto, unfolding(crate::specs::HeadReaders::function_core))]
pub(crate) fn function_core<'t, N: Inside + Copy>(
    grammar: &Grammar<N>,
    pointing: Pointing,
    source: &mut Source<'t>,
) -> Result<Named<'t>, Stop>
    requires here { N.can_read grammar.now.inside grammar.now.room }
    requires deeper { CanReadDeeper (N.can_read grammar.now.inside) grammar.now.room }
    ensures { GivesFunction (λ room inner enclosed. spec.function_core room inner enclosed pointing)
        grammar.now.room (N.readers grammar.now.inside) source.old result source.new }
{
    if pointing.atomic {
        function_name(grammar, pointing, source)
    } else if source.is_at_any_name() {
        function_name(grammar, pointing, source)
    } else {
        function_group(grammar, pointing, source)
    }
}

#[cycle(enclosed)]
#[tactic(auto, unfolding(crate::specs::HeadReaders::pointed_function))]
pub(crate) fn pointed_function<'t, N: Inside + Copy>(
    grammar: &Grammar<N>,
    source: &mut Source<'t>,
) -> Result<Named<'t>, Stop>
    requires here { N.can_read grammar.now.inside grammar.now.room }
    requires deeper { CanReadDeeper (N.can_read grammar.now.inside) grammar.now.room }
    ensures { GivesFunction spec.pointed_function
        grammar.now.room (N.readers grammar.now.inside) source.old result source.new }
{
    let pointing = pointers(grammar.alloc, grammar.room, source)?;
    function_core(grammar, pointing, source)
}

#[cycle(enclosed)]
#[tactic(auto, unfolding(crate::specs::HeadReaders::enclosed_pointed))]
pub(crate) fn enclosed_pointed<'t, N: Inside + Copy>(
    grammar: &Grammar<N>,
    source: &mut Source<'t>,
) -> Result<Enclosed<'t>, Stop>
    requires here { N.can_read grammar.now.inside grammar.now.room }
    requires deeper { CanReadDeeper (N.can_read grammar.now.inside) grammar.now.room }
    ensures { GivesFunction spec.enclosed_pointed
        grammar.now.room (N.readers grammar.now.inside) source.old result source.new }
{
    let named = pointed_function(grammar, source)?;
    Ok(Enclosed::Function(named))
}

#[cycle(enclosed)]
#[tactic(auto, unfolding(crate::specs::HeadReaders::enclosed_group))]
pub(crate) fn enclosed_group<'t, N: Inside + Copy>(
    grammar: &Grammar<N>,
    source: &mut Source<'t>,
) -> Result<Enclosed<'t>, Stop>
    requires here { N.can_read grammar.now.inside grammar.now.room }
    requires deeper { CanReadDeeper (N.can_read grammar.now.inside) grammar.now.room }
    ensures { GivesFunction spec.enclosed_group
        grammar.now.room (N.readers grammar.now.inside) source.old result source.new }
{
    let left = source.expect_mark(MARK_LEFT_PAREN, grammar.deeper())?;
    let inside = enclosed_in(grammar, source)?;
    let right = source.expect_mark(MARK_RIGHT_PAREN, grammar.deeper())?;
    enclosed_around(grammar, left, inside, right, source)
}

/// A declarator of a function, or a name in parentheses or not.
#[cycle(enclosed)]
#[tactic(auto, unfolding(crate::specs::HeadReaders::enclosed_declarator))]
pub(crate) fn enclosed_declarator<'t, N: Inside + Copy>(
    grammar: &Grammar<N>,
    source: &mut Source<'t>,
) -> Result<Enclosed<'t>, Stop>
    requires here { N.can_read grammar.now.inside grammar.now.room }
    requires deeper { CanReadDeeper (N.can_read grammar.now.inside) grammar.now.room }
    ensures { GivesFunction spec.enclosed_declarator
        grammar.now.room (N.readers grammar.now.inside) source.old result source.new }
{
    if source.is_at_mark(MARK_STAR) {
        enclosed_pointed(grammar, source)
    } else if source.is_at_any_name() {
        enclosed_name(grammar, source)
    } else {
        enclosed_group(grammar, source)
    }
}

/// The declarator of a function definition, behind `_Atomic` or not.
///
/// Two scopes are left open: that of the function's own parameters, and in it one of what the rest
/// of the declarator declares.
#[tactic(auto, unfolding(crate::specs::HeadReaders::function_declarator))]
pub fn function_declarator<'t, N: Inside + Copy>(
    grammar: &Grammar<N>,
    atomic: bool,
    source: &mut Source<'t>,
) -> Result<Named<'t>, Stop>
    requires here { N.can_read grammar.now.inside grammar.now.room }
    requires deeper { CanReadDeeper (N.can_read grammar.now.inside) grammar.now.room }
    ensures { GivesFunction
        (λ room inner enclosed. spec.function_declarator room inner enclosed atomic)
        grammar.now.room (N.readers grammar.now.inside) source.old result source.new }
{
    if source.is_at_mark(MARK_STAR) {
        pointed_function(grammar, source)
    } else {
        function_core(grammar, Pointing::none(grammar.alloc, atomic), source)
    }
}
