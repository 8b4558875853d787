//! Declarators, parameters and type names (C11 6.7.6, 6.7.7).

ghost use Rattle.std.specs.Prelude.{◌-◌, Some, None, true, false};
ghost use Rattle.c_specifiers.specs.Gives.{Gives};
ghost use Rattle.c_declarators.specs.DeclaratorReaders as spec;

use crate::arrays::pointers;
use crate::cores::{name, named_group, other_name, unnamed_core};
use crate::forms::{NamedParam, Pointing, unnamed_of};
use crate::steps::{is_at_abstract, is_at_either, is_at_some_either, is_at_unnamed};
use c_lexer::mark::MARK_STAR;
use c_reading::Stop;
use c_specifiers::{Grammar, Inside, Named, Naming, Place, Specified, declare};
use c_syntax::Source;
use c_tree::{Param, Specs, TypeName};

/// A name, or a group where no `_Atomic` stands before it.
#[tactic(auto, unfolding(crate::specs::DeclaratorReaders::named_core))]
pub(crate) fn named_core<'t, N: Inside>(
    grammar: &Grammar<N>,
    pointing: Pointing,
    source: &mut Source<'t>,
) -> Result<Named<'t>, Stop>
    requires { N.can_read grammar.now.inside grammar.now.room }
    ensures { Gives (λ room inner. spec.named_core room inner pointing)
        grammar.now.room (N.readers grammar.now.inside) source.old result source.new }
{
    if pointing.atomic {
        name(grammar, pointing, source)
    } else if source.is_at_any_name() {
        name(grammar, pointing, source)
    } else {
        named_group(grammar, pointing, source)
    }
}

#[tactic(auto, unfolding(crate::specs::DeclaratorReaders::pointed_name))]
pub(crate) fn pointed_name<'t, N: Inside>(
    grammar: &Grammar<N>,
    source: &mut Source<'t>,
) -> Result<Named<'t>, Stop>
    requires { N.can_read grammar.now.inside grammar.now.room }
    ensures { Gives spec.pointed_name
        grammar.now.room (N.readers grammar.now.inside) source.old result source.new }
{
    let pointing = pointers(grammar.alloc, grammar.room, source)?;
    named_core(grammar, pointing, source)
}

/// A declarator with a name (6.7.6), behind `_Atomic` or not.
#[tactic(auto, unfolding(crate::specs::DeclaratorReaders::declarator))]
pub fn declarator<'t, N: Inside>(
    grammar: &Grammar<N>,
    atomic: bool,
    source: &mut Source<'t>,
) -> Result<Named<'t>, Stop>
    requires { N.can_read grammar.now.inside grammar.now.room }
    ensures { Gives (λ room inner. spec.declarator room inner atomic)
        grammar.now.room (N.readers grammar.now.inside) source.old result source.new }
{
    if source.is_at_mark(MARK_STAR) {
        pointed_name(grammar, source)
    } else {
        named_core(grammar, Pointing::none(grammar.alloc, atomic), source)
    }
}

#[tactic(auto, unfolding(crate::specs::DeclaratorReaders::pointed_abstract))]
pub(crate) fn pointed_abstract<'t, N: Inside>(
    grammar: &Grammar<N>,
    source: &mut Source<'t>,
) -> Result<Named<'t>, Stop>
    requires { N.can_read grammar.now.inside grammar.now.room }
    ensures { Gives spec.pointed_abstract
        grammar.now.room (N.readers grammar.now.inside) source.old result source.new }
{
    let pointing = pointers(grammar.alloc, grammar.room, source)?;
    if is_at_unnamed(pointing.atomic, source) {
        unnamed_core(grammar, Naming::Abstract, pointing, source)
    } else {
        Ok(unnamed_of(grammar.alloc, pointing))
    }
}

/// A declarator without a name that is not empty (6.7.7).
#[tactic(auto, unfolding(crate::specs::DeclaratorReaders::some_abstract))]
pub(crate) fn some_abstract<'t, N: Inside>(
    grammar: &Grammar<N>,
    atomic: bool,
    source: &mut Source<'t>,
) -> Result<Named<'t>, Stop>
    requires { N.can_read grammar.now.inside grammar.now.room }
    ensures { Gives (λ room inner. spec.some_abstract room inner atomic)
        grammar.now.room (N.readers grammar.now.inside) source.old result source.new }
{
    if source.is_at_mark(MARK_STAR) {
        pointed_abstract(grammar, source)
    } else {
        let pointing = Pointing::none(grammar.alloc, atomic);
        unnamed_core(grammar, Naming::Abstract, pointing, source)
    }
}

#[tactic(auto, unfolding(crate::specs::DeclaratorReaders::abstract_declarator))]
pub(crate) fn abstract_declarator<'t, N: Inside>(
    grammar: &Grammar<N>,
    atomic: bool,
    source: &mut Source<'t>,
) -> Result<Named<'t>, Stop>
    requires { N.can_read grammar.now.inside grammar.now.room }
    ensures { Gives (λ room inner. spec.abstract_declarator room inner atomic)
        grammar.now.room (N.readers grammar.now.inside) source.old result source.new }
{
    if is_at_abstract(atomic, source) {
        some_abstract(grammar, atomic, source)
    } else {
        let pointing = Pointing::none(grammar.alloc, atomic);
        Ok(unnamed_of(grammar.alloc, pointing))
    }
}

#[tactic(auto, unfolding(crate::specs::DeclaratorReaders::either_core))]
pub(crate) fn either_core<'t, N: Inside>(
    grammar: &Grammar<N>,
    pointing: Pointing,
    source: &mut Source<'t>,
) -> Result<Named<'t>, Stop>
    requires { N.can_read grammar.now.inside grammar.now.room }
    ensures { Gives (λ room inner. spec.either_core room inner pointing)
        grammar.now.room (N.readers grammar.now.inside) source.old result source.new }
{
    if source.is_at_any_name() {
        name(grammar, pointing, source)
    } else {
        unnamed_core(grammar, Naming::Either, pointing, source)
    }
}

#[tactic(auto, unfolding(crate::specs::DeclaratorReaders::pointed_either))]
pub(crate) fn pointed_either<'t, N: Inside>(
    grammar: &Grammar<N>,
    source: &mut Source<'t>,
) -> Result<Named<'t>, Stop>
    requires { N.can_read grammar.now.inside grammar.now.room }
    ensures { Gives spec.pointed_either
        grammar.now.room (N.readers grammar.now.inside) source.old result source.new }
{
    let pointing = pointers(grammar.alloc, grammar.room, source)?;
    if is_at_either(pointing.atomic, source) {
        either_core(grammar, pointing, source)
    } else {
        Ok(unnamed_of(grammar.alloc, pointing))
    }
}

#[tactic(auto, unfolding(crate::specs::DeclaratorReaders::some_either))]
pub(crate) fn some_either<'t, N: Inside>(
    grammar: &Grammar<N>,
    atomic: bool,
    source: &mut Source<'t>,
) -> Result<Named<'t>, Stop>
    requires { N.can_read grammar.now.inside grammar.now.room }
    ensures { Gives (λ room inner. spec.some_either room inner atomic)
        grammar.now.room (N.readers grammar.now.inside) source.old result source.new }
{
    if source.is_at_mark(MARK_STAR) {
        pointed_either(grammar, source)
    } else {
        either_core(grammar, Pointing::none(grammar.alloc, atomic), source)
    }
}

/// A declarator with a name or without (6.7.6.3).
#[tactic(auto, unfolding(crate::specs::DeclaratorReaders::either))]
pub(crate) fn either<'t, N: Inside>(
    grammar: &Grammar<N>,
    atomic: bool,
    source: &mut Source<'t>,
) -> Result<Named<'t>, Stop>
    requires { N.can_read grammar.now.inside grammar.now.room }
    ensures { Gives (λ room inner. spec.either room inner atomic)
        grammar.now.room (N.readers grammar.now.inside) source.old result source.new }
{
    if is_at_some_either(atomic, source) {
        some_either(grammar, atomic, source)
    } else {
        let pointing = Pointing::none(grammar.alloc, atomic);
        Ok(unnamed_of(grammar.alloc, pointing))
    }
}

/// The same in parentheses, where a typedef name would begin parameters.
#[tactic(auto, unfolding(crate::specs::DeclaratorReaders::grouped_either))]
pub(crate) fn grouped_either<'t, N: Inside>(
    grammar: &Grammar<N>,
    source: &mut Source<'t>,
) -> Result<Named<'t>, Stop>
    requires { N.can_read grammar.now.inside grammar.now.room }
    ensures { Gives spec.grouped_either
        grammar.now.room (N.readers grammar.now.inside) source.old result source.new }
{
    if source.is_at_mark(MARK_STAR) {
        return pointed_either(grammar, source);
    }
    let pointing = Pointing::none(grammar.alloc, false);
    if source.is_at_name() {
        other_name(grammar, pointing, source)
    } else {
        unnamed_core(grammar, Naming::Either, pointing, source)
    }
}

/// A declarator in parentheses.
pub fn grouped<'t, N: Inside>(
    grammar: &Grammar<N>,
    naming: Naming,
    source: &mut Source<'t>,
) -> Result<Named<'t>, Stop>
    requires { N.can_read grammar.now.inside grammar.now.room }
    ensures { Gives (λ room inner. spec.grouped room inner naming)
        grammar.now.room (N.readers grammar.now.inside) source.old result source.new }
{
    match naming {
        Naming::Named => declarator(grammar, false, source),
        Naming::Abstract => some_abstract(grammar, false, source),
        Naming::Either => grouped_either(grammar, source),
    }
}

#[tactic(auto, unfolding(crate::specs::DeclaratorReaders::undeclared_param))]
pub(crate) fn undeclared_param<'t, N: Inside>(
    grammar: &Grammar<N>,
    source: &mut Source<'t>,
) -> Result<NamedParam<'t>, Stop>
    requires { N.can_read grammar.now.inside grammar.now.room }
    ensures { Gives spec.undeclared_param
        grammar.now.room (N.readers grammar.now.inside) source.old result source.new }
{
    let Specified { words, atomic, .. } = grammar.specifiers(Place::Parameter, source)?;
    let Named { declarator, name } = either(grammar, atomic, source)?;
    let specs = Specs { words };
    let param = Param { specs, declarator };
    Ok(NamedParam { param, name })
}

/// A parameter, whose name is declared behind it.
#[tactic(auto, unfolding(crate::specs::DeclaratorReaders::param))]
pub fn param<N: Inside>(grammar: &Grammar<N>, source: &mut Source<'_>) -> Result<Param, Stop>
    requires { N.can_read grammar.now.inside grammar.now.room }
    ensures { Gives spec.param
        grammar.now.room (N.readers grammar.now.inside) source.old result source.new }
{
    let NamedParam { param, name } = undeclared_param(grammar, source)?;
    declare(&name, false, source)?;
    Ok(param)
}

/// A type name (6.7.7).
#[tactic(auto, unfolding(crate::specs::DeclaratorReaders::type_name))]
pub fn type_name<N: Inside>(grammar: &Grammar<N>, source: &mut Source<'_>) -> Result<TypeName, Stop>
    requires { N.can_read grammar.now.inside grammar.now.room }
    ensures { Gives spec.type_name
        grammar.now.room (N.readers grammar.now.inside) source.old result source.new }
{
    let Specified { words, atomic, .. } = grammar.specifiers(Place::Nameless, source)?;
    let Named { declarator, .. } = abstract_declarator(grammar, atomic, source)?;
    let specs = Specs { words };
    Ok(TypeName { specs, declarator })
}
