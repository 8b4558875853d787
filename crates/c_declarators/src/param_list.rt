//! Parameter lists (C11 6.7.6.3).

ghost use Rattle.std.specs.Prelude.{◌-◌, Some, None, true, false};
ghost use Rattle.c_specifiers.specs.Gives.{Gives};
ghost use Rattle.c_declarators.specs.DeclaratorReaders as spec;

use crate::forms::Params;
use c_lexer::mark::{MARK_COMMA, MARK_ELLIPSIS, MARK_LEFT_PAREN, MARK_RIGHT_PAREN};
use c_reading::Stop;
use c_specifiers::{Grammar, Inside, enter, leave};
use c_syntax::Source;
use c_tree::{Suffix, list_of_one, two_marks};
use joern_io::List;
use reading::Turn;

#[tactic(auto, unfolding(crate::specs::DeclaratorReaders::no_params))]
pub(crate) fn no_params<N: Inside>(
    grammar: &Grammar<N>,
    left: u32,
    source: &mut Source<'_>,
) -> Result<Suffix, Stop>
    requires { N.can_read grammar.now.inside grammar.now.room }
    ensures { Gives (λ room inner. spec.no_params room inner left)
        grammar.now.room (N.readers grammar.now.inside) source.old result source.new }
{
    let right = source.expect_mark(MARK_RIGHT_PAREN, grammar.deeper())?;
    Ok(Suffix::Params {
        list: List::new(grammar.alloc),
        dots: None,
        marks: two_marks(grammar.alloc, left, right)?,
    })
}

#[tactic(auto, unfolding(crate::specs::DeclaratorReaders::last_param))]
pub(crate) fn last_param<N: Inside>(
    grammar: &Grammar<N>,
    params: Params,
    dots: Option<u32>,
    source: &mut Source<'_>,
) -> Result<Turn<Params, Suffix>, Stop>
    requires { N.can_read grammar.now.inside grammar.now.room }
    ensures { Gives (λ room inner. spec.last_param room inner params dots)
        grammar.now.room (N.readers grammar.now.inside) source.old result source.new }
{
    let right = source.expect_mark(MARK_RIGHT_PAREN, grammar.deeper())?;
    let Params { list, mut marks } = params;
    marks.push(right)?;
    Ok(Turn::Done(Suffix::Params { list, dots, marks }))
}

#[tactic(auto, unfolding(crate::specs::DeclaratorReaders::dots))]
pub(crate) fn dots<N: Inside>(
    grammar: &Grammar<N>,
    params: Params,
    source: &mut Source<'_>,
) -> Result<Turn<Params, Suffix>, Stop>
    requires { N.can_read grammar.now.inside grammar.now.room }
    ensures { Gives (λ room inner. spec.dots room inner params)
        grammar.now.room (N.readers grammar.now.inside) source.old result source.new }
{
    let token = source.expect_mark(MARK_ELLIPSIS, grammar.deeper())?;
    last_param(grammar, params, Some(token), source)
}

#[tactic(auto, unfolding(crate::specs::DeclaratorReaders::next_param))]
pub(crate) fn next_param<N: Inside>(
    grammar: &Grammar<N>,
    params: Params,
    source: &mut Source<'_>,
) -> Result<Turn<Params, Suffix>, Stop>
    requires { N.can_read grammar.now.inside grammar.now.room }
    ensures { Gives (λ room inner. spec.next_param room inner params)
        grammar.now.room (N.readers grammar.now.inside) source.old result source.new }
{
    let param = grammar.inner_param(source)?;
    Ok(Turn::Again(params.with(param)?))
}

#[tactic(auto, unfolding(crate::specs::DeclaratorReaders::comma_param))]
pub(crate) fn comma_param<N: Inside>(
    grammar: &Grammar<N>,
    params: Params,
    source: &mut Source<'_>,
) -> Result<Turn<Params, Suffix>, Stop>
    requires { N.can_read grammar.now.inside grammar.now.room }
    ensures { Gives (λ room inner. spec.comma_param room inner params)
        grammar.now.room (N.readers grammar.now.inside) source.old result source.new }
{
    let comma = source.expect_mark(MARK_COMMA, grammar.deeper())?;
    let params = params.to(comma)?;
    if source.is_at_mark(MARK_ELLIPSIS) {
        dots(grammar, params, source)
    } else {
        next_param(grammar, params, source)
    }
}

#[tactic(auto, unfolding(crate::specs::DeclaratorReaders::param_turn))]
pub(crate) fn param_turn<N: Inside>(
    grammar: &Grammar<N>,
    params: Params,
    source: &mut Source<'_>,
) -> Result<Turn<Params, Suffix>, Stop>
    requires { N.can_read grammar.now.inside grammar.now.room }
    ensures { Gives (λ room inner. spec.param_turn room inner params)
        grammar.now.room (N.readers grammar.now.inside) source.old result source.new }
{
    if source.is_at_mark(MARK_COMMA) {
        comma_param(grammar, params, source)
    } else {
        last_param(grammar, params, None, source)
    }
}

pub(crate) fn all_params<N: Inside>(
    grammar: &Grammar<N>,
    params: Params,
    source: &mut Source<'_>,
) -> Result<Suffix, Stop>
    requires { N.can_read grammar.now.inside grammar.now.room }
    ensures { Gives (λ room inner. spec.all_params room inner params)
        grammar.now.room (N.readers grammar.now.inside) source.old result source.new }
{
    let mut params = params;
    for _turn in 0..source.left() {
        match param_turn(grammar, params, source)? {
            Turn::Again(more) => params = more,
            Turn::Done(all) => return Ok(all),
        }
    }
    Err(source.refusal())
}

#[tactic(auto, unfolding(crate::specs::DeclaratorReaders::some_params))]
pub(crate) fn some_params<N: Inside>(
    grammar: &Grammar<N>,
    left: u32,
    source: &mut Source<'_>,
) -> Result<Suffix, Stop>
    requires { N.can_read grammar.now.inside grammar.now.room }
    ensures { Gives (λ room inner. spec.some_params room inner left)
        grammar.now.room (N.readers grammar.now.inside) source.old result source.new }
{
    let first = grammar.inner_param(source)?;
    let params = Params {
        list: list_of_one(grammar.alloc, first)?,
        marks: list_of_one(grammar.alloc, left)?,
    };
    all_params(grammar, params, source)
}

#[tactic(auto, unfolding(crate::specs::DeclaratorReaders::params_inside))]
pub(crate) fn params_inside<N: Inside>(
    grammar: &Grammar<N>,
    left: u32,
    source: &mut Source<'_>,
) -> Result<Suffix, Stop>
    requires { N.can_read grammar.now.inside grammar.now.room }
    ensures { Gives (λ room inner. spec.params_inside room inner left)
        grammar.now.room (N.readers grammar.now.inside) source.old result source.new }
{
    if source.is_at_mark(MARK_RIGHT_PAREN) {
        no_params(grammar, left, source)
    } else {
        some_params(grammar, left, source)
    }
}

/// 6.7.6.3, behind `(`. The scope of the list stays open.
#[tactic(auto, unfolding(crate::specs::DeclaratorReaders::open_params))]
pub fn open_params<N: Inside>(
    grammar: &Grammar<N>,
    left: u32,
    source: &mut Source<'_>,
) -> Result<Suffix, Stop>
    requires { N.can_read grammar.now.inside grammar.now.room }
    ensures { Gives (λ room inner. spec.open_params room inner left)
        grammar.now.room (N.readers grammar.now.inside) source.old result source.new }
{
    enter(source)?;
    params_inside(grammar, left, source)
}

/// 6.7.6.3, behind `(`. The scope of the list ends with it.
#[tactic(auto, unfolding(crate::specs::DeclaratorReaders::params))]
pub(crate) fn params<N: Inside>(
    grammar: &Grammar<N>,
    left: u32,
    source: &mut Source<'_>,
) -> Result<Suffix, Stop>
    requires { N.can_read grammar.now.inside grammar.now.room }
    ensures { Gives (λ room inner. spec.params room inner left)
        grammar.now.room (N.readers grammar.now.inside) source.old result source.new }
{
    let list = open_params(grammar, left, source)?;
    leave(source);
    Ok(list)
}

#[tactic(auto, unfolding(crate::specs::DeclaratorReaders::params_suffix))]
pub(crate) fn params_suffix<N: Inside>(
    grammar: &Grammar<N>,
    source: &mut Source<'_>,
) -> Result<Suffix, Stop>
    requires { N.can_read grammar.now.inside grammar.now.room }
    ensures { Gives spec.params_suffix
        grammar.now.room (N.readers grammar.now.inside) source.old result source.new }
{
    let left = source.expect_mark(MARK_LEFT_PAREN, grammar.deeper())?;
    params(grammar, left, source)
}
