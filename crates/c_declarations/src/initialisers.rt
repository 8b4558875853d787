//! Initialisers (C11 6.7.9).

ghost use Rattle.std.specs.Prelude.{◌-◌};
ghost use Rattle.c_specifiers.specs.Gives.{Gives, GivesHere};
ghost use Rattle.c_declarations.specs.InitialiserReaders as spec;

use crate::forms::Items;
use crate::steps::is_at_designator;
use c_lexer::mark::{
    MARK_COMMA, MARK_DOT, MARK_EQUAL, MARK_LEFT_BRACE, MARK_LEFT_BRACKET, MARK_RIGHT_BRACE,
    MARK_RIGHT_BRACKET,
};
use c_reading::Stop;
use c_specifiers::{Grammar, Inside};
use c_syntax::{AssignForm, Source};
use c_tree::{Designator, Expr, Init, InitItem, list_of_one, two_marks};
use joern_io::List;
use reading::Turn;

#[tactic(auto, unfolding(crate::specs::InitialiserReaders::last_item))]
pub(crate) fn last_item<N: Inside>(
    grammar: &Grammar<N>,
    items: Items,
    source: &mut Source<'_>,
) -> Result<Turn<Items, Items>, Stop>
    requires { N.can_read grammar.now.inside grammar.now.room }
    ensures { Gives (λ room inner. spec.last_item room inner items)
        grammar.now.room (N.readers grammar.now.inside) source.old result source.new }
{
    let right = source.expect_mark(MARK_RIGHT_BRACE, grammar.deeper())?;
    Ok(Turn::Done(items.to(right)?))
}

#[tactic(auto, unfolding(crate::specs::InitialiserReaders::next_item))]
pub(crate) fn next_item<N: Inside>(
    grammar: &Grammar<N>,
    items: Items,
    source: &mut Source<'_>,
) -> Result<Turn<Items, Items>, Stop>
    requires { N.can_read grammar.now.inside grammar.now.room }
    ensures { Gives (λ room inner. spec.next_item room inner items)
        grammar.now.room (N.readers grammar.now.inside) source.old result source.new }
{
    let item = grammar.inner_item(source)?;
    Ok(Turn::Again(items.with(item)?))
}

#[tactic(auto, unfolding(crate::specs::InitialiserReaders::comma_item))]
pub(crate) fn comma_item<N: Inside>(
    grammar: &Grammar<N>,
    items: Items,
    source: &mut Source<'_>,
) -> Result<Turn<Items, Items>, Stop>
    requires { N.can_read grammar.now.inside grammar.now.room }
    ensures { Gives (λ room inner. spec.comma_item room inner items)
        grammar.now.room (N.readers grammar.now.inside) source.old result source.new }
{
    let comma = source.expect_mark(MARK_COMMA, grammar.deeper())?;
    let items = items.to(comma)?;
    if source.is_at_mark(MARK_RIGHT_BRACE) {
        last_item(grammar, items, source)
    } else {
        next_item(grammar, items, source)
    }
}

#[tactic(auto, unfolding(crate::specs::InitialiserReaders::item_turn))]
pub(crate) fn item_turn<N: Inside>(
    grammar: &Grammar<N>,
    items: Items,
    source: &mut Source<'_>,
) -> Result<Turn<Items, Items>, Stop>
    requires { N.can_read grammar.now.inside grammar.now.room }
    ensures { Gives (λ room inner. spec.item_turn room inner items)
        grammar.now.room (N.readers grammar.now.inside) source.old result source.new }
{
    if source.is_at_mark(MARK_COMMA) {
        comma_item(grammar, items, source)
    } else {
        last_item(grammar, items, source)
    }
}

pub(crate) fn all_items<N: Inside>(
    grammar: &Grammar<N>,
    items: Items,
    source: &mut Source<'_>,
) -> Result<Items, Stop>
    requires { N.can_read grammar.now.inside grammar.now.room }
    ensures { Gives (λ room inner. spec.all_items room inner items)
        grammar.now.room (N.readers grammar.now.inside) source.old result source.new }
{
    let mut items = items;
    for _turn in 0..source.left() {
        match item_turn(grammar, items, source)? {
            Turn::Again(more) => items = more,
            Turn::Done(all) => return Ok(all),
        }
    }
    Err(source.refusal())
}

/// Items in braces, behind these marks.
#[tactic(auto, unfolding(crate::specs::InitialiserReaders::braced))]
pub fn braced<N: Inside>(
    grammar: &Grammar<N>,
    marks: List<u32>,
    source: &mut Source<'_>,
) -> Result<Items, Stop>
    requires { N.can_read grammar.now.inside grammar.now.room }
    ensures { Gives (λ room inner. spec.braced room inner marks)
        grammar.now.room (N.readers grammar.now.inside) source.old result source.new }
{
    let mut marks = marks;
    marks.push(source.expect_mark(MARK_LEFT_BRACE, grammar.deeper())?)?;
    let first = grammar.inner_item(source)?;
    let items = Items {
        list: list_of_one(grammar.alloc, first)?,
        marks,
    };
    all_items(grammar, items, source)
}

#[tactic(auto, unfolding(crate::specs::InitialiserReaders::init_list))]
pub(crate) fn init_list<N: Inside>(
    grammar: &Grammar<N>,
    source: &mut Source<'_>,
) -> Result<Init, Stop>
    requires { N.can_read grammar.now.inside grammar.now.room }
    ensures { Gives spec.init_list
        grammar.now.room (N.readers grammar.now.inside) source.old result source.new }
{
    let Items { list, marks } = braced(grammar, List::new(grammar.alloc), source)?;
    Ok(Init::Items(list, marks))
}

#[tactic(auto, unfolding(crate::specs::InitialiserReaders::index_designator))]
pub(crate) fn index_designator<N: Inside>(
    grammar: &Grammar<N>,
    source: &mut Source<'_>,
) -> Result<Designator, Stop>
    requires { N.can_read grammar.now.inside grammar.now.room }
    ensures { Gives spec.index_designator
        grammar.now.room (N.readers grammar.now.inside) source.old result source.new }
{
    let left = source.expect_mark(MARK_LEFT_BRACKET, grammar.deeper())?;
    let value = grammar.inner_assign(AssignForm::Constant, source)?;
    let right = source.expect_mark(MARK_RIGHT_BRACKET, grammar.deeper())?;
    let value = Expr::sole(grammar.alloc, value)?;
    Ok(Designator::Index(value, two_marks(grammar.alloc, left, right)?))
}

#[tactic(auto, unfolding(crate::specs::InitialiserReaders::field_designator))]
pub(crate) fn field_designator<N: Inside>(
    grammar: &Grammar<N>,
    source: &mut Source<'_>,
) -> Result<Designator, Stop>
    requires { N.can_read grammar.now.inside grammar.now.room }
    ensures { Gives spec.field_designator
        grammar.now.room (N.readers grammar.now.inside) source.old result source.new }
{
    let dot = source.expect_mark(MARK_DOT, grammar.room)?;
    let name = source.expect_any_name(grammar.room)?;
    Ok(Designator::Field(name, list_of_one(grammar.alloc, dot)?))
}

#[tactic(auto, unfolding(crate::specs::InitialiserReaders::one_designator))]
pub(crate) fn one_designator<N: Inside>(
    grammar: &Grammar<N>,
    source: &mut Source<'_>,
) -> Result<Designator, Stop>
    requires { N.can_read grammar.now.inside grammar.now.room }
    ensures { Gives spec.one_designator
        grammar.now.room (N.readers grammar.now.inside) source.old result source.new }
{
    if source.is_at_mark(MARK_LEFT_BRACKET) {
        index_designator(grammar, source)
    } else {
        field_designator(grammar, source)
    }
}

#[tactic(auto, unfolding(crate::specs::InitialiserReaders::more_designators))]
pub(crate) fn more_designators<N: Inside>(
    grammar: &Grammar<N>,
    designators: List<Designator>,
    source: &mut Source<'_>,
) -> Result<List<Designator>, Stop>
    requires { N.can_read grammar.now.inside grammar.now.room }
    ensures { Gives (λ room inner. spec.more_designators room inner designators)
        grammar.now.room (N.readers grammar.now.inside) source.old result source.new }
{
    let mut designators = designators;
    designators.push(one_designator(grammar, source)?)?;
    Ok(designators)
}

pub(crate) fn all_designators<N: Inside>(
    grammar: &Grammar<N>,
    designators: List<Designator>,
    source: &mut Source<'_>,
) -> Result<List<Designator>, Stop>
    requires { N.can_read grammar.now.inside grammar.now.room }
    ensures { Gives (λ room inner. spec.all_designators room inner designators)
        grammar.now.room (N.readers grammar.now.inside) source.old result source.new }
{
    let mut designators = designators;
    for _turn in 0..source.left() {
        if !is_at_designator(source) {
            return Ok(designators);
        }
        designators = more_designators(grammar, designators, source)?;
    }
    Ok(designators)
}

/// One designator or more.
#[tactic(auto, unfolding(crate::specs::InitialiserReaders::designators))]
pub(crate) fn designators<N: Inside>(
    grammar: &Grammar<N>,
    source: &mut Source<'_>,
) -> Result<List<Designator>, Stop>
    requires { N.can_read grammar.now.inside grammar.now.room }
    ensures { Gives spec.designators
        grammar.now.room (N.readers grammar.now.inside) source.old result source.new }
{
    let first = one_designator(grammar, source)?;
    all_designators(grammar, list_of_one(grammar.alloc, first)?, source)
}

#[tactic(auto, unfolding(crate::specs::InitialiserReaders::init_value))]
pub(crate) fn init_value<N: Inside>(
    grammar: &Grammar<N>,
    source: &mut Source<'_>,
) -> Result<Init, Stop>
    requires inside { N.can_read grammar.now.inside grammar.now.room }
    requires value { N.can_read_value grammar.now.inside grammar.now.room }
    ensures { GivesHere spec.init_value AssignForm.Whole
        grammar.now.room (N.readers grammar.now.inside) source.old result source.new }
{
    let assign = grammar.value(AssignForm::Whole, source)?;
    Ok(Init::Value(Expr::sole(grammar.alloc, assign)?))
}

#[tactic(auto, unfolding(crate::specs::InitialiserReaders::initialiser))]
pub(crate) fn initialiser<N: Inside>(
    grammar: &Grammar<N>,
    source: &mut Source<'_>,
) -> Result<Init, Stop>
    requires inside { N.can_read grammar.now.inside grammar.now.room }
    requires value { N.can_read_value grammar.now.inside grammar.now.room }
    ensures { GivesHere spec.initialiser AssignForm.Whole
        grammar.now.room (N.readers grammar.now.inside) source.old result source.new }
{
    if source.is_at_mark(MARK_LEFT_BRACE) {
        init_list(grammar, source)
    } else {
        init_value(grammar, source)
    }
}

#[tactic(auto, unfolding(crate::specs::InitialiserReaders::designated_item))]
pub(crate) fn designated_item<N: Inside>(
    grammar: &Grammar<N>,
    source: &mut Source<'_>,
) -> Result<InitItem, Stop>
    requires inside { N.can_read grammar.now.inside grammar.now.room }
    requires value { N.can_read_value grammar.now.inside grammar.now.room }
    ensures { GivesHere spec.designated_item AssignForm.Whole
        grammar.now.room (N.readers grammar.now.inside) source.old result source.new }
{
    let designators = designators(grammar, source)?;
    let equals = source.expect_mark(MARK_EQUAL, grammar.room)?;
    let init = initialiser(grammar, source)?;
    let marks = list_of_one(grammar.alloc, equals)?;
    Ok(InitItem {
        designators,
        init,
        marks,
    })
}

#[tactic(auto, unfolding(crate::specs::InitialiserReaders::plain_item))]
pub(crate) fn plain_item<N: Inside>(
    grammar: &Grammar<N>,
    source: &mut Source<'_>,
) -> Result<InitItem, Stop>
    requires inside { N.can_read grammar.now.inside grammar.now.room }
    requires value { N.can_read_value grammar.now.inside grammar.now.room }
    ensures { GivesHere spec.plain_item AssignForm.Whole
        grammar.now.room (N.readers grammar.now.inside) source.old result source.new }
{
    let init = initialiser(grammar, source)?;
    Ok(InitItem {
        designators: List::new(grammar.alloc),
        init,
        marks: List::new(grammar.alloc),
    })
}

/// An item of an initialiser list.
#[tactic(auto, unfolding(crate::specs::InitialiserReaders::item))]
pub fn item<N: Inside>(grammar: &Grammar<N>, source: &mut Source<'_>) -> Result<InitItem, Stop>
    requires inside { N.can_read grammar.now.inside grammar.now.room }
    requires value { N.can_read_value grammar.now.inside grammar.now.room }
    ensures { GivesHere spec.item AssignForm.Whole
        grammar.now.room (N.readers grammar.now.inside) source.old result source.new }
{
    if is_at_designator(source) {
        designated_item(grammar, source)
    } else {
        plain_item(grammar, source)
    }
}
