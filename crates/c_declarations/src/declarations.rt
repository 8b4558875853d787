//! Declarations (C11 6.7).

ghost use Rattle.std.specs.Prelude.{◌-◌, Some, false};
ghost use Rattle.c_specifiers.specs.Gives.{GivesHere};
ghost use Rattle.c_declarations.specs.DeclarationReaders as spec;
ghost use Rattle.c_syntax.specs.declared.forms.AssignForm.TheVariants.{Whole};

use crate::assertions::assertion;
use crate::forms::{Declarators, undefined};
use crate::initialisers::initialiser;
use c_declarators::declarator;
use c_lexer::keyword::KEY_STATIC_ASSERT;
use c_lexer::mark::{MARK_COMMA, MARK_EQUAL, MARK_SEMICOLON};
use c_reading::Stop;
use c_specifiers::{Grammar, Inside, Named, Place, Specified, declare};
use c_syntax::Source;
use c_tree::{Declaration, InitDeclarator, Specs, list_of_one};
use reading::Turn;

/// A declarator, whose name is declared behind it and before its initialiser.
#[tactic(auto, unfolding(crate::specs::DeclarationReaders::declared))]
pub(crate) fn declared<'t, N: Inside>(
    grammar: &Grammar<N>,
    typedef: bool,
    atomic: bool,
    source: &mut Source<'t>,
) -> Result<Named<'t>, Stop>
    requires inside { N.can_read grammar.now.inside grammar.now.room }
    requires value { N.can_read_value grammar.now.inside grammar.now.room }
    ensures { GivesHere (λ room inner value. spec.declared room inner value typedef atomic)
        Whole grammar.now.room (N.readers grammar.now.inside)
        source.old result source.new }
{
    let named = declarator(grammar, atomic, source)?;
    declare(&named.name, typedef, source)?;
    Ok(named)
}

#[tactic(auto, unfolding(crate::specs::DeclarationReaders::initialised))]
pub(crate) fn initialised<N: Inside>(
    grammar: &Grammar<N>,
    named: Named<'_>,
    source: &mut Source<'_>,
) -> Result<InitDeclarator, Stop>
    requires inside { N.can_read grammar.now.inside grammar.now.room }
    requires value { N.can_read_value grammar.now.inside grammar.now.room }
    ensures { GivesHere (λ room inner value. spec.initialised room inner value named.entry)
        Whole grammar.now.room (N.readers grammar.now.inside)
        source.old result source.new }
{
    let equals = source.expect_mark(MARK_EQUAL, grammar.room)?;
    let init = initialiser(grammar, source)?;
    Ok(InitDeclarator {
        declarator: named.declarator,
        init: Some(init),
        marks: list_of_one(grammar.alloc, equals)?,
    })
}

#[tactic(auto, unfolding(crate::specs::DeclarationReaders::init_declarator))]
pub(crate) fn init_declarator<N: Inside>(
    grammar: &Grammar<N>,
    typedef: bool,
    atomic: bool,
    source: &mut Source<'_>,
) -> Result<InitDeclarator, Stop>
    requires inside { N.can_read grammar.now.inside grammar.now.room }
    requires value { N.can_read_value grammar.now.inside grammar.now.room }
    ensures { GivesHere
        (λ room inner value. spec.init_declarator room inner value typedef atomic)
        Whole grammar.now.room (N.readers grammar.now.inside)
        source.old result source.new }
{
    let named = declared(grammar, typedef, atomic, source)?;
    if source.is_at_mark(MARK_EQUAL) {
        initialised(grammar, named, source)
    } else {
        Ok(undefined(grammar.alloc, named.declarator))
    }
}

#[tactic(auto, unfolding(crate::specs::DeclarationReaders::last_declarator))]
pub(crate) fn last_declarator<N: Inside>(
    grammar: &Grammar<N>,
    declarators: Declarators,
    source: &mut Source<'_>,
) -> Result<Turn<Declarators, Declarators>, Stop>
    requires inside { N.can_read grammar.now.inside grammar.now.room }
    requires value { N.can_read_value grammar.now.inside grammar.now.room }
    ensures { GivesHere (λ room inner value. spec.last_declarator room inner value declarators)
        Whole grammar.now.room (N.readers grammar.now.inside)
        source.old result source.new }
{
    let semicolon = source.expect_mark(MARK_SEMICOLON, grammar.room)?;
    Ok(Turn::Done(declarators.to(semicolon)?))
}

#[tactic(auto, unfolding(crate::specs::DeclarationReaders::next_declarator))]
pub(crate) fn next_declarator<N: Inside>(
    grammar: &Grammar<N>,
    typedef: bool,
    declarators: Declarators,
    source: &mut Source<'_>,
) -> Result<Turn<Declarators, Declarators>, Stop>
    requires inside { N.can_read grammar.now.inside grammar.now.room }
    requires value { N.can_read_value grammar.now.inside grammar.now.room }
    ensures { GivesHere
        (λ room inner value. spec.next_declarator room inner value typedef declarators)
        Whole grammar.now.room (N.readers grammar.now.inside)
        source.old result source.new }
{
    let comma = source.expect_mark(MARK_COMMA, grammar.room)?;
    let declarators = declarators.to(comma)?;
    let next = init_declarator(grammar, typedef, false, source)?;
    Ok(Turn::Again(declarators.with(next)?))
}

#[tactic(auto, unfolding(crate::specs::DeclarationReaders::declarator_turn))]
pub(crate) fn declarator_turn<N: Inside>(
    grammar: &Grammar<N>,
    typedef: bool,
    declarators: Declarators,
    source: &mut Source<'_>,
) -> Result<Turn<Declarators, Declarators>, Stop>
    requires inside { N.can_read grammar.now.inside grammar.now.room }
    requires value { N.can_read_value grammar.now.inside grammar.now.room }
    ensures { GivesHere
        (λ room inner value. spec.declarator_turn room inner value typedef declarators)
        Whole grammar.now.room (N.readers grammar.now.inside)
        source.old result source.new }
{
    if source.is_at_mark(MARK_COMMA) {
        next_declarator(grammar, typedef, declarators, source)
    } else {
        last_declarator(grammar, declarators, source)
    }
}

/// The declarators behind the first, and `;`.
pub fn more_declarators<N: Inside>(
    grammar: &Grammar<N>,
    typedef: bool,
    declarators: Declarators,
    source: &mut Source<'_>,
) -> Result<Declarators, Stop>
    requires inside { N.can_read grammar.now.inside grammar.now.room }
    requires value { N.can_read_value grammar.now.inside grammar.now.room }
    ensures { GivesHere
        (λ room inner value. spec.more_declarators room inner value typedef declarators)
        Whole grammar.now.room (N.readers grammar.now.inside)
        source.old result source.new }
{
    let mut declarators = declarators;
    for _turn in 0..source.left() {
        match declarator_turn(grammar, typedef, declarators, source)? {
            Turn::Again(more) => declarators = more,
            Turn::Done(all) => return Ok(all),
        }
    }
    Err(source.refusal())
}

#[tactic(auto, unfolding(crate::specs::DeclarationReaders::some_declarators))]
pub(crate) fn some_declarators<N: Inside>(
    grammar: &Grammar<N>,
    typedef: bool,
    atomic: bool,
    source: &mut Source<'_>,
) -> Result<Declarators, Stop>
    requires inside { N.can_read grammar.now.inside grammar.now.room }
    requires value { N.can_read_value grammar.now.inside grammar.now.room }
    ensures { GivesHere
        (λ room inner value. spec.some_declarators room inner value typedef atomic)
        Whole grammar.now.room (N.readers grammar.now.inside)
        source.old result source.new }
{
    let first = init_declarator(grammar, typedef, atomic, source)?;
    let declarators = Declarators::none(grammar.alloc).with(first)?;
    more_declarators(grammar, typedef, declarators, source)
}

#[tactic(auto, unfolding(crate::specs::DeclarationReaders::no_more_declarators))]
pub(crate) fn no_more_declarators<N: Inside>(
    grammar: &Grammar<N>,
    source: &mut Source<'_>,
) -> Result<Declarators, Stop>
    requires inside { N.can_read grammar.now.inside grammar.now.room }
    requires value { N.can_read_value grammar.now.inside grammar.now.room }
    ensures { GivesHere spec.no_more_declarators Whole
        grammar.now.room (N.readers grammar.now.inside) source.old result source.new }
{
    let semicolon = source.expect_mark(MARK_SEMICOLON, grammar.room)?;
    Ok(Declarators::none(grammar.alloc).to(semicolon)?)
}

#[tactic(auto, unfolding(crate::specs::DeclarationReaders::declarators))]
pub(crate) fn declarators<N: Inside>(
    grammar: &Grammar<N>,
    typedef: bool,
    atomic: bool,
    source: &mut Source<'_>,
) -> Result<Declarators, Stop>
    requires inside { N.can_read grammar.now.inside grammar.now.room }
    requires value { N.can_read_value grammar.now.inside grammar.now.room }
    ensures { GivesHere (λ room inner value. spec.declarators room inner value typedef atomic)
        Whole grammar.now.room (N.readers grammar.now.inside)
        source.old result source.new }
{
    if source.is_at_mark(MARK_SEMICOLON) {
        no_more_declarators(grammar, source)
    } else {
        some_declarators(grammar, typedef, atomic, source)
    }
}

#[tactic(auto, unfolding(crate::specs::DeclarationReaders::names))]
pub(crate) fn names<N: Inside>(
    grammar: &Grammar<N>,
    source: &mut Source<'_>,
) -> Result<Declaration, Stop>
    requires inside { N.can_read grammar.now.inside grammar.now.room }
    requires value { N.can_read_value grammar.now.inside grammar.now.room }
    ensures { GivesHere spec.names Whole
        grammar.now.room (N.readers grammar.now.inside) source.old result source.new }
{
    let Specified {
        words,
        typedef,
        atomic,
    } = grammar.specifiers(Place::Ordinary, source)?;
    let Declarators { list, marks } = declarators(grammar, typedef, atomic, source)?;
    let specs = Specs { words };
    Ok(Declaration::Names { specs, list, marks })
}

/// A declaration (6.7).
#[tactic(auto, unfolding(crate::specs::DeclarationReaders::declaration))]
pub fn declaration<N: Inside>(
    grammar: &Grammar<N>,
    source: &mut Source<'_>,
) -> Result<Declaration, Stop>
    requires inside { N.can_read grammar.now.inside grammar.now.room }
    requires value { N.can_read_value grammar.now.inside grammar.now.room }
    ensures { GivesHere spec.declaration Whole
        grammar.now.room (N.readers grammar.now.inside) source.old result source.new }
{
    if source.is_at_key(KEY_STATIC_ASSERT) {
        assertion(grammar, source)
    } else {
        names(grammar, source)
    }
}
