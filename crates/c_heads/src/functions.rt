//! A function's own parameters, and the names and parentheses before them (C11 6.9.1).

ghost use Rattle.std.specs.Prelude.{◌-◌, Some, None, true, false};
ghost use Rattle.c_specifiers.specs.Gives.{Gives};
ghost use Rattle.c_heads.specs.HeadReaders as spec;

use crate::forms::{Enclosed, group_of};
use c_declarators::{Pointing, all_suffixes, named_of, open_params};
use c_lexer::mark::MARK_LEFT_PAREN;
use c_reading::Stop;
use c_specifiers::{Grammar, Inside, Named, Word, enter, expect_word};
use c_syntax::Source;
use c_tree::{Suffix, list_of_one};
use joern_io::List;

/// Behind `(`. The scope of the list stays open, and in it one begins for the rest.
#[tactic(auto, unfolding(crate::specs::HeadReaders::own_list))]
pub(crate) fn own_list<N: Inside>(
    grammar: &Grammar<N>,
    left: u32,
    source: &mut Source<'_>,
) -> Result<Suffix, Stop>
    requires { N.can_read grammar.now.inside grammar.now.room }
    ensures { Gives (λ room inner. spec.own_list room inner left)
        grammar.now.room (N.readers grammar.now.inside) source.old result source.new }
{
    let list = open_params(grammar, left, source)?;
    enter(source)?;
    Ok(list)
}

#[tactic(auto, unfolding(crate::specs::HeadReaders::own_params))]
pub(crate) fn own_params<N: Inside>(
    grammar: &Grammar<N>,
    source: &mut Source<'_>,
) -> Result<Suffix, Stop>
    requires { N.can_read grammar.now.inside grammar.now.room }
    ensures { Gives spec.own_params
        grammar.now.room (N.readers grammar.now.inside) source.old result source.new }
{
    let left = source.expect_mark(MARK_LEFT_PAREN, grammar.deeper())?;
    own_list(grammar, left, source)
}

/// The function's own parameters, and what is applied behind them.
#[tactic(auto, unfolding(crate::specs::HeadReaders::own_suffixes))]
pub(crate) fn own_suffixes<N: Inside>(
    grammar: &Grammar<N>,
    source: &mut Source<'_>,
) -> Result<List<Suffix>, Stop>
    requires { N.can_read grammar.now.inside grammar.now.room }
    ensures { Gives spec.own_suffixes
        grammar.now.room (N.readers grammar.now.inside) source.old result source.new }
{
    let first = own_params(grammar, source)?;
    all_suffixes(grammar, true, list_of_one(grammar.alloc, first)?, source)
}

#[tactic(auto, unfolding(crate::specs::HeadReaders::function_behind))]
pub(crate) fn function_behind<'t, N: Inside>(
    grammar: &Grammar<N>,
    pointing: Pointing,
    word: Word<'t>,
    source: &mut Source<'t>,
) -> Result<Named<'t>, Stop>
    requires { N.can_read grammar.now.inside grammar.now.room }
    ensures { Gives (λ room inner. spec.function_behind room inner pointing word.entry)
        grammar.now.room (N.readers grammar.now.inside) source.old result source.new }
{
    let suffixes = own_suffixes(grammar, source)?;
    Ok(named_of(grammar.alloc, pointing, word, suffixes))
}

/// The name of a function, and its own parameters.
#[tactic(auto, unfolding(crate::specs::HeadReaders::function_name))]
pub(crate) fn function_name<'t, N: Inside>(
    grammar: &Grammar<N>,
    pointing: Pointing,
    source: &mut Source<'t>,
) -> Result<Named<'t>, Stop>
    requires { N.can_read grammar.now.inside grammar.now.room }
    ensures { Gives (λ room inner. spec.function_name room inner pointing)
        grammar.now.room (N.readers grammar.now.inside) source.old result source.new }
{
    let word = expect_word(grammar.room, source)?;
    function_behind(grammar, pointing, word, source)
}

/// Behind a name in parentheses.
#[tactic(auto, unfolding(crate::specs::HeadReaders::around_bare))]
pub(crate) fn around_bare<'t, N: Inside>(
    grammar: &Grammar<N>,
    pointing: Pointing,
    left: u32,
    inside: Named<'t>,
    right: u32,
    source: &mut Source<'t>,
) -> Result<Named<'t>, Stop>
    requires { N.can_read grammar.now.inside grammar.now.room }
    ensures { Gives (λ room inner. spec.around_bare room inner pointing left inside.entry right)
        grammar.now.room (N.readers grammar.now.inside) source.old result source.new }
{
    let suffixes = own_suffixes(grammar, source)?;
    Ok(group_of(grammar.alloc, pointing, left, inside, right, suffixes)?)
}

/// Behind a function in parentheses.
#[tactic(auto, unfolding(crate::specs::HeadReaders::around_function))]
pub(crate) fn around_function<'t, N: Inside>(
    grammar: &Grammar<N>,
    pointing: Pointing,
    left: u32,
    inside: Named<'t>,
    right: u32,
    source: &mut Source<'t>,
) -> Result<Named<'t>, Stop>
    requires { N.can_read grammar.now.inside grammar.now.room }
    ensures { Gives (λ room inner. spec.around_function room inner pointing left inside.entry right)
        grammar.now.room (N.readers grammar.now.inside) source.old result source.new }
{
    let suffixes = all_suffixes(grammar, true, List::new(grammar.alloc), source)?;
    Ok(group_of(grammar.alloc, pointing, left, inside, right, suffixes)?)
}

/// Behind parentheses.
pub(crate) fn around<'t, N: Inside>(
    grammar: &Grammar<N>,
    pointing: Pointing,
    left: u32,
    inside: Enclosed<'t>,
    right: u32,
    source: &mut Source<'t>,
) -> Result<Named<'t>, Stop>
    requires { N.can_read grammar.now.inside grammar.now.room }
    ensures { Gives (λ room inner. spec.around room inner pointing left inside.entry right)
        grammar.now.room (N.readers grammar.now.inside) source.old result source.new }
{
    match inside {
        Enclosed::Bare(named) => around_bare(grammar, pointing, left, named, right, source),
        Enclosed::Function(named) => around_function(grammar, pointing, left, named, right, source),
    }
}

// ---- The same in parentheses

#[tactic(auto, unfolding(crate::specs::HeadReaders::enclosed_function))]
pub(crate) fn enclosed_function<'t, N: Inside>(
    grammar: &Grammar<N>,
    word: Word<'t>,
    source: &mut Source<'t>,
) -> Result<Enclosed<'t>, Stop>
    requires { N.can_read grammar.now.inside grammar.now.room }
    ensures { Gives (λ room inner. spec.enclosed_function room inner word.entry)
        grammar.now.room (N.readers grammar.now.inside) source.old result source.new }
{
    let pointing = Pointing::none(grammar.alloc, false);
    let named = function_behind(grammar, pointing, word, source)?;
    Ok(Enclosed::Function(named))
}

#[tactic(auto, unfolding(crate::specs::HeadReaders::enclosed_behind))]
pub(crate) fn enclosed_behind<'t, N: Inside>(
    grammar: &Grammar<N>,
    word: Word<'t>,
    source: &mut Source<'t>,
) -> Result<Enclosed<'t>, Stop>
    requires { N.can_read grammar.now.inside grammar.now.room }
    ensures { Gives (λ room inner. spec.enclosed_behind room inner word.entry)
        grammar.now.room (N.readers grammar.now.inside) source.old result source.new }
{
    if source.is_at_mark(MARK_LEFT_PAREN) {
        return enclosed_function(grammar, word, source);
    }
    let pointing = Pointing::none(grammar.alloc, false);
    let named = named_of(grammar.alloc, pointing, word, List::new(grammar.alloc));
    Ok(Enclosed::Bare(named))
}

/// A name, alone or with the function's own parameters.
#[tactic(auto, unfolding(crate::specs::HeadReaders::enclosed_name))]
pub(crate) fn enclosed_name<'t, N: Inside>(
    grammar: &Grammar<N>,
    source: &mut Source<'t>,
) -> Result<Enclosed<'t>, Stop>
    requires { N.can_read grammar.now.inside grammar.now.room }
    ensures { Gives spec.enclosed_name
        grammar.now.room (N.readers grammar.now.inside) source.old result source.new }
{
    let word = expect_word(grammar.room, source)?;
    enclosed_behind(grammar, word, source)
}

#[tactic(auto, unfolding(crate::specs::HeadReaders::function_around_bare))]
pub(crate) fn function_around_bare<'t, N: Inside>(
    grammar: &Grammar<N>,
    left: u32,
    inside: Named<'t>,
    right: u32,
    source: &mut Source<'t>,
) -> Result<Enclosed<'t>, Stop>
    requires { N.can_read grammar.now.inside grammar.now.room }
    ensures { Gives (λ room inner. spec.function_around_bare room inner left inside.entry right)
        grammar.now.room (N.readers grammar.now.inside) source.old result source.new }
{
    let pointing = Pointing::none(grammar.alloc, false);
    let named = around_bare(grammar, pointing, left, inside, right, source)?;
    Ok(Enclosed::Function(named))
}

#[tactic(auto, unfolding(crate::specs::HeadReaders::enclosed_around_bare))]
pub(crate) fn enclosed_around_bare<'t, N: Inside>(
    grammar: &Grammar<N>,
    left: u32,
    inside: Named<'t>,
    right: u32,
    source: &mut Source<'t>,
) -> Result<Enclosed<'t>, Stop>
    requires { N.can_read grammar.now.inside grammar.now.room }
    ensures { Gives (λ room inner. spec.enclosed_around_bare room inner left inside.entry right)
        grammar.now.room (N.readers grammar.now.inside) source.old result source.new }
{
    if source.is_at_mark(MARK_LEFT_PAREN) {
        return function_around_bare(grammar, left, inside, right, source);
    }
    let alloc = grammar.alloc;
    let pointing = Pointing::none(alloc, false);
    let named = group_of(alloc, pointing, left, inside, right, List::new(alloc))?;
    Ok(Enclosed::Bare(named))
}

#[tactic(auto, unfolding(crate::specs::HeadReaders::enclosed_around_function))]
pub(crate) fn enclosed_around_function<'t, N: Inside>(
    grammar: &Grammar<N>,
    left: u32,
    inside: Named<'t>,
    right: u32,
    source: &mut Source<'t>,
) -> Result<Enclosed<'t>, Stop>
    requires { N.can_read grammar.now.inside grammar.now.room }
    ensures { Gives (λ room inner. spec.enclosed_around_function room inner left inside.entry right)
        grammar.now.room (N.readers grammar.now.inside) source.old result source.new }
{
    let pointing = Pointing::none(grammar.alloc, false);
    let named = around_function(grammar, pointing, left, inside, right, source)?;
    Ok(Enclosed::Function(named))
}

/// Behind parentheses that stand in parentheses.
pub(crate) fn enclosed_around<'t, N: Inside>(
    grammar: &Grammar<N>,
    left: u32,
    inside: Enclosed<'t>,
    right: u32,
    source: &mut Source<'t>,
) -> Result<Enclosed<'t>, Stop>
    requires { N.can_read grammar.now.inside grammar.now.room }
    ensures { Gives (λ room inner. spec.enclosed_around room inner left inside.entry right)
        grammar.now.room (N.readers grammar.now.inside) source.old result source.new }
{
    match inside {
        Enclosed::Bare(named) => enclosed_around_bare(grammar, left, named, right, source),
        Enclosed::Function(named) => enclosed_around_function(grammar, left, named, right, source),
    }
}
