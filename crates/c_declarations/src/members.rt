//! Members of structures and unions (C11 6.7.2.1).

ghost use Rattle.std.specs.Prelude.{◌-◌, Some, false};
ghost use Rattle.c_specifiers.specs.Gives.{GivesHere};
ghost use Rattle.c_declarations.specs.DeclarationReaders as spec;

use crate::assertions::assertion;
use crate::forms::{Declarators, undefined};
use c_declarators::{Pointing, declarator, unnamed_of};
use c_lexer::keyword::KEY_STATIC_ASSERT;
use c_lexer::mark::{MARK_COLON, MARK_COMMA, MARK_SEMICOLON};
use c_reading::Stop;
use c_specifiers::{Grammar, Inside, Named, Place, Specified};
use c_syntax::{AssignForm, Source};
use c_tree::{Declaration, Declarator, Expr, InitDeclarator, Specs, list_of_one};
use joern_io::Boxed;
use reading::Turn;

/// The width of a declarator (6.7.2.1).
#[tactic(auto, unfolding(crate::specs::DeclarationReaders::bit_field))]
pub(crate) fn bit_field<N: Inside>(
    grammar: &Grammar<N>,
    named: Named<'_>,
    source: &mut Source<'_>,
) -> Result<InitDeclarator, Stop>
    requires inside { N.can_read grammar.now.inside grammar.now.room }
    requires value { N.can_read_value grammar.now.inside grammar.now.room }
    ensures { GivesHere (λ room inner value. spec.bit_field room inner value named.entry)
        AssignForm.Constant grammar.now.room (N.readers grammar.now.inside)
        source.old result source.new }
{
    let colon = source.expect_mark(MARK_COLON, grammar.room)?;
    let width = grammar.value(AssignForm::Constant, source)?;
    let width = Boxed::new(grammar.alloc, Expr::sole(grammar.alloc, width)?)?;
    let Named { declarator, .. } = named;
    let Declarator {
        pointers,
        core,
        suffixes,
        ..
    } = declarator;
    let with_width = Declarator {
        pointers,
        core,
        suffixes,
        width: Some(width),
        marks: list_of_one(grammar.alloc, colon)?,
    };
    Ok(undefined(grammar.alloc, with_width))
}

#[tactic(auto, unfolding(crate::specs::DeclarationReaders::named_member))]
pub(crate) fn named_member<N: Inside>(
    grammar: &Grammar<N>,
    atomic: bool,
    source: &mut Source<'_>,
) -> Result<InitDeclarator, Stop>
    requires inside { N.can_read grammar.now.inside grammar.now.room }
    requires value { N.can_read_value grammar.now.inside grammar.now.room }
    ensures { GivesHere (λ room inner value. spec.named_member room inner value atomic)
        AssignForm.Constant grammar.now.room (N.readers grammar.now.inside)
        source.old result source.new }
{
    let named = declarator(grammar, atomic, source)?;
    if source.is_at_mark(MARK_COLON) {
        bit_field(grammar, named, source)
    } else {
        Ok(undefined(grammar.alloc, named.declarator))
    }
}

/// A member's declarator, behind `_Atomic` or not.
#[tactic(auto, unfolding(crate::specs::DeclarationReaders::member_declarator))]
pub(crate) fn member_declarator<N: Inside>(
    grammar: &Grammar<N>,
    atomic: bool,
    source: &mut Source<'_>,
) -> Result<InitDeclarator, Stop>
    requires inside { N.can_read grammar.now.inside grammar.now.room }
    requires value { N.can_read_value grammar.now.inside grammar.now.room }
    ensures { GivesHere (λ room inner value. spec.member_declarator room inner value atomic)
        AssignForm.Constant grammar.now.room (N.readers grammar.now.inside)
        source.old result source.new }
{
    if source.is_at_mark(MARK_COLON) {
        let nothing = unnamed_of(grammar.alloc, Pointing::none(grammar.alloc, false));
        bit_field(grammar, nothing, source)
    } else {
        named_member(grammar, atomic, source)
    }
}

#[tactic(auto, unfolding(crate::specs::DeclarationReaders::last_member_declarator))]
pub(crate) fn last_member_declarator<N: Inside>(
    grammar: &Grammar<N>,
    declarators: Declarators,
    source: &mut Source<'_>,
) -> Result<Turn<Declarators, Declarators>, Stop>
    requires inside { N.can_read grammar.now.inside grammar.now.room }
    requires value { N.can_read_value grammar.now.inside grammar.now.room }
    ensures { GivesHere
        (λ room inner value. spec.last_member_declarator room inner value declarators)
        AssignForm.Constant grammar.now.room (N.readers grammar.now.inside)
        source.old result source.new }
{
    let semicolon = source.expect_mark(MARK_SEMICOLON, grammar.room)?;
    Ok(Turn::Done(declarators.to(semicolon)?))
}

#[tactic(auto, unfolding(crate::specs::DeclarationReaders::next_member_declarator))]
pub(crate) fn next_member_declarator<N: Inside>(
    grammar: &Grammar<N>,
    declarators: Declarators,
    source: &mut Source<'_>,
) -> Result<Turn<Declarators, Declarators>, Stop>
    requires inside { N.can_read grammar.now.inside grammar.now.room }
    requires value { N.can_read_value grammar.now.inside grammar.now.room }
    ensures { GivesHere
        (λ room inner value. spec.next_member_declarator room inner value declarators)
        AssignForm.Constant grammar.now.room (N.readers grammar.now.inside)
        source.old result source.new }
{
    let comma = source.expect_mark(MARK_COMMA, grammar.room)?;
    let declarators = declarators.to(comma)?;
    let next = member_declarator(grammar, false, source)?;
    Ok(Turn::Again(declarators.with(next)?))
}

#[tactic(auto, unfolding(crate::specs::DeclarationReaders::member_declarator_turn))]
pub(crate) fn member_declarator_turn<N: Inside>(
    grammar: &Grammar<N>,
    declarators: Declarators,
    source: &mut Source<'_>,
) -> Result<Turn<Declarators, Declarators>, Stop>
    requires inside { N.can_read grammar.now.inside grammar.now.room }
    requires value { N.can_read_value grammar.now.inside grammar.now.room }
    ensures { GivesHere
        (λ room inner value. spec.member_declarator_turn room inner value declarators)
        AssignForm.Constant grammar.now.room (N.readers grammar.now.inside)
        source.old result source.new }
{
    if source.is_at_mark(MARK_COMMA) {
        next_member_declarator(grammar, declarators, source)
    } else {
        last_member_declarator(grammar, declarators, source)
    }
}

pub(crate) fn more_member_declarators<N: Inside>(
    grammar: &Grammar<N>,
    declarators: Declarators,
    source: &mut Source<'_>,
) -> Result<Declarators, Stop>
    requires inside { N.can_read grammar.now.inside grammar.now.room }
    requires value { N.can_read_value grammar.now.inside grammar.now.room }
    ensures { GivesHere
        (λ room inner value. spec.more_member_declarators room inner value declarators)
        AssignForm.Constant grammar.now.room (N.readers grammar.now.inside)
        source.old result source.new }
{
    let mut declarators = declarators;
    for _turn in 0..source.left() {
        match member_declarator_turn(grammar, declarators, source)? {
            Turn::Again(more) => declarators = more,
            Turn::Done(all) => return Ok(all),
        }
    }
    Err(source.refusal())
}

#[tactic(auto, unfolding(crate::specs::DeclarationReaders::some_member_declarators))]
pub(crate) fn some_member_declarators<N: Inside>(
    grammar: &Grammar<N>,
    atomic: bool,
    source: &mut Source<'_>,
) -> Result<Declarators, Stop>
    requires inside { N.can_read grammar.now.inside grammar.now.room }
    requires value { N.can_read_value grammar.now.inside grammar.now.room }
    ensures { GivesHere
        (λ room inner value. spec.some_member_declarators room inner value atomic)
        AssignForm.Constant grammar.now.room (N.readers grammar.now.inside)
        source.old result source.new }
{
    let first = member_declarator(grammar, atomic, source)?;
    let declarators = Declarators::none(grammar.alloc).with(first)?;
    more_member_declarators(grammar, declarators, source)
}

#[tactic(auto, unfolding(crate::specs::DeclarationReaders::no_member_declarators))]
pub(crate) fn no_member_declarators<N: Inside>(
    grammar: &Grammar<N>,
    source: &mut Source<'_>,
) -> Result<Declarators, Stop>
    requires inside { N.can_read grammar.now.inside grammar.now.room }
    requires value { N.can_read_value grammar.now.inside grammar.now.room }
    ensures { GivesHere spec.no_member_declarators AssignForm.Constant
        grammar.now.room (N.readers grammar.now.inside) source.old result source.new }
{
    let semicolon = source.expect_mark(MARK_SEMICOLON, grammar.room)?;
    Ok(Declarators::none(grammar.alloc).to(semicolon)?)
}

#[tactic(auto, unfolding(crate::specs::DeclarationReaders::member_declarators))]
pub(crate) fn member_declarators<N: Inside>(
    grammar: &Grammar<N>,
    atomic: bool,
    source: &mut Source<'_>,
) -> Result<Declarators, Stop>
    requires inside { N.can_read grammar.now.inside grammar.now.room }
    requires value { N.can_read_value grammar.now.inside grammar.now.room }
    ensures { GivesHere (λ room inner value. spec.member_declarators room inner value atomic)
        AssignForm.Constant grammar.now.room (N.readers grammar.now.inside)
        source.old result source.new }
{
    if source.is_at_mark(MARK_SEMICOLON) {
        no_member_declarators(grammar, source)
    } else {
        some_member_declarators(grammar, atomic, source)
    }
}

#[tactic(auto, unfolding(crate::specs::DeclarationReaders::members))]
pub(crate) fn members<N: Inside>(
    grammar: &Grammar<N>,
    source: &mut Source<'_>,
) -> Result<Declaration, Stop>
    requires inside { N.can_read grammar.now.inside grammar.now.room }
    requires value { N.can_read_value grammar.now.inside grammar.now.room }
    ensures { GivesHere spec.members AssignForm.Constant
        grammar.now.room (N.readers grammar.now.inside) source.old result source.new }
{
    let Specified { words, atomic, .. } = grammar.specifiers(Place::Member, source)?;
    let Declarators { list, marks } = member_declarators(grammar, atomic, source)?;
    let specs = Specs { words };
    Ok(Declaration::Names { specs, list, marks })
}

/// A declaration of members (6.7.2.1).
#[tactic(auto, unfolding(crate::specs::DeclarationReaders::member))]
pub fn member<N: Inside>(grammar: &Grammar<N>, source: &mut Source<'_>) -> Result<Declaration, Stop>
    requires inside { N.can_read grammar.now.inside grammar.now.room }
    requires value { N.can_read_value grammar.now.inside grammar.now.room }
    ensures { GivesHere spec.member AssignForm.Constant
        grammar.now.room (N.readers grammar.now.inside) source.old result source.new }
{
    if source.is_at_key(KEY_STATIC_ASSERT) {
        assertion(grammar, source)
    } else {
        members(grammar, source)
    }
}
