//! Suffixes, and what stands behind pointers (C11 6.7.6).

ghost use Rattle.std.specs.Prelude.{◌-◌, Some, None, true, false};
ghost use Rattle.c_specifiers.specs.Gives.{Gives};
ghost use Rattle.c_declarators.specs.DeclaratorReaders as spec;
ghost use Rattle.c_syntax.specs.Sets.{a_name, any_name};

use crate::arrays::array;
use crate::forms::{Pointing, declared_of, named_of};
use crate::param_list::{params, params_suffix};
use crate::steps::{is_at_params, is_at_suffix};
use c_lexer::mark::{MARK_LEFT_BRACKET, MARK_LEFT_PAREN, MARK_RIGHT_PAREN};
use c_reading::Stop;
use c_specifiers::{Grammar, Inside, Named, Naming, expect_other_word, expect_word};
use c_syntax::Source;
use c_tree::{Core, Suffix, list_of_one, two_marks};
use joern_io::{Boxed, List};

#[tactic(auto, unfolding(crate::specs::DeclaratorReaders::one_suffix))]
pub(crate) fn one_suffix<N: Inside>(
    grammar: &Grammar<N>,
    named: bool,
    source: &mut Source<'_>,
) -> Result<Suffix, Stop>
    requires { N.can_read grammar.now.inside grammar.now.room }
    ensures { Gives (λ room inner. spec.one_suffix room inner named)
        grammar.now.room (N.readers grammar.now.inside) source.old result source.new }
{
    if source.is_at_mark(MARK_LEFT_BRACKET) {
        array(grammar, named, source)
    } else {
        params_suffix(grammar, source)
    }
}

#[tactic(auto, unfolding(crate::specs::DeclaratorReaders::more_suffixes))]
pub(crate) fn more_suffixes<N: Inside>(
    grammar: &Grammar<N>,
    named: bool,
    suffixes: List<Suffix>,
    source: &mut Source<'_>,
) -> Result<List<Suffix>, Stop>
    requires { N.can_read grammar.now.inside grammar.now.room }
    ensures { Gives (λ room inner. spec.more_suffixes room inner named suffixes)
        grammar.now.room (N.readers grammar.now.inside) source.old result source.new }
{
    let mut suffixes = suffixes;
    suffixes.push(one_suffix(grammar, named, source)?)?;
    Ok(suffixes)
}

/// Suffixes of a declarator, which has a name or none, behind the first of them (C11 6.7.6).
pub fn all_suffixes<N: Inside>(
    grammar: &Grammar<N>,
    named: bool,
    suffixes: List<Suffix>,
    source: &mut Source<'_>,
) -> Result<List<Suffix>, Stop>
    requires { N.can_read grammar.now.inside grammar.now.room }
    ensures { Gives (λ room inner. spec.all_suffixes room inner named suffixes)
        grammar.now.room (N.readers grammar.now.inside) source.old result source.new }
{
    let mut suffixes = suffixes;
    for _turn in 0..source.left() {
        if !is_at_suffix(source) {
            return Ok(suffixes);
        }
        suffixes = more_suffixes(grammar, named, suffixes, source)?;
    }
    Ok(suffixes)
}

/// A name and its suffixes.
#[tactic(auto, unfolding(crate::specs::DeclaratorReaders::name))]
pub(crate) fn name<'t, N: Inside>(
    grammar: &Grammar<N>,
    pointing: Pointing,
    source: &mut Source<'t>,
) -> Result<Named<'t>, Stop>
    requires { N.can_read grammar.now.inside grammar.now.room }
    ensures { Gives (λ room inner. spec.name room inner any_name pointing)
        grammar.now.room (N.readers grammar.now.inside) source.old result source.new }
{
    let word = expect_word(grammar.room, source)?;
    let suffixes = all_suffixes(grammar, true, List::new(grammar.alloc), source)?;
    Ok(named_of(grammar.alloc, pointing, word, suffixes))
}

/// The same, where the name is no typedef name.
#[tactic(auto, unfolding(crate::specs::DeclaratorReaders::name))]
pub(crate) fn other_name<'t, N: Inside>(
    grammar: &Grammar<N>,
    pointing: Pointing,
    source: &mut Source<'t>,
) -> Result<Named<'t>, Stop>
    requires { N.can_read grammar.now.inside grammar.now.room }
    ensures { Gives (λ room inner. spec.name room inner a_name pointing)
        grammar.now.room (N.readers grammar.now.inside) source.old result source.new }
{
    let word = expect_other_word(grammar.room, source)?;
    let suffixes = all_suffixes(grammar, true, List::new(grammar.alloc), source)?;
    Ok(named_of(grammar.alloc, pointing, word, suffixes))
}

/// A declarator in parentheses, behind `(`.
#[tactic(auto, unfolding(crate::specs::DeclaratorReaders::group))]
pub(crate) fn group<'t, N: Inside>(
    grammar: &Grammar<N>,
    naming: Naming,
    pointing: Pointing,
    left: u32,
    source: &mut Source<'t>,
) -> Result<Named<'t>, Stop>
    requires { N.can_read grammar.now.inside grammar.now.room }
    ensures { Gives (λ room inner. spec.group room inner naming pointing left)
        grammar.now.room (N.readers grammar.now.inside) source.old result source.new }
{
    let Named { declarator, name } = grammar.inner_group(naming, source)?;
    let right = source.expect_mark(MARK_RIGHT_PAREN, grammar.deeper())?;
    let suffixes = all_suffixes(grammar, name.is_some(), List::new(grammar.alloc), source)?;
    let marks = two_marks(grammar.alloc, left, right)?;
    let core = Core::Group(Boxed::new(grammar.alloc, declarator)?, marks);
    Ok(declared_of(grammar.alloc, pointing, core, suffixes, name))
}

#[tactic(auto, unfolding(crate::specs::DeclaratorReaders::named_group))]
pub(crate) fn named_group<'t, N: Inside>(
    grammar: &Grammar<N>,
    pointing: Pointing,
    source: &mut Source<'t>,
) -> Result<Named<'t>, Stop>
    requires { N.can_read grammar.now.inside grammar.now.room }
    ensures { Gives (λ room inner. spec.named_group room inner pointing)
        grammar.now.room (N.readers grammar.now.inside) source.old result source.new }
{
    let left = source.expect_mark(MARK_LEFT_PAREN, grammar.deeper())?;
    group(grammar, Naming::Named, pointing, left, source)
}

#[tactic(auto, unfolding(crate::specs::DeclaratorReaders::array_core))]
pub(crate) fn array_core<'t, N: Inside>(
    grammar: &Grammar<N>,
    pointing: Pointing,
    source: &mut Source<'t>,
) -> Result<Named<'t>, Stop>
    requires { N.can_read grammar.now.inside grammar.now.room }
    ensures { Gives (λ room inner. spec.array_core room inner pointing)
        grammar.now.room (N.readers grammar.now.inside) source.old result source.new }
{
    let first = array(grammar, false, source)?;
    let suffixes = all_suffixes(grammar, false, list_of_one(grammar.alloc, first)?, source)?;
    Ok(declared_of(grammar.alloc, pointing, Core::Empty, suffixes, None))
}

#[tactic(auto, unfolding(crate::specs::DeclaratorReaders::params_core))]
pub(crate) fn params_core<'t, N: Inside>(
    grammar: &Grammar<N>,
    pointing: Pointing,
    left: u32,
    source: &mut Source<'t>,
) -> Result<Named<'t>, Stop>
    requires { N.can_read grammar.now.inside grammar.now.room }
    ensures { Gives (λ room inner. spec.params_core room inner pointing left)
        grammar.now.room (N.readers grammar.now.inside) source.old result source.new }
{
    let first = params(grammar, left, source)?;
    let suffixes = all_suffixes(grammar, false, list_of_one(grammar.alloc, first)?, source)?;
    Ok(declared_of(grammar.alloc, pointing, Core::Empty, suffixes, None))
}

/// A `(` begins parameters or a declarator (6.7.6.3p11).
#[tactic(auto, unfolding(crate::specs::DeclaratorReaders::paren_core))]
pub(crate) fn paren_core<'t, N: Inside>(
    grammar: &Grammar<N>,
    naming: Naming,
    pointing: Pointing,
    source: &mut Source<'t>,
) -> Result<Named<'t>, Stop>
    requires { N.can_read grammar.now.inside grammar.now.room }
    ensures { Gives (λ room inner. spec.paren_core room inner naming pointing)
        grammar.now.room (N.readers grammar.now.inside) source.old result source.new }
{
    let left = source.expect_mark(MARK_LEFT_PAREN, grammar.deeper())?;
    if is_at_params(source) {
        params_core(grammar, pointing, left, source)
    } else {
        group(grammar, naming, pointing, left, source)
    }
}

#[tactic(auto, unfolding(crate::specs::DeclaratorReaders::unnamed_core))]
pub(crate) fn unnamed_core<'t, N: Inside>(
    grammar: &Grammar<N>,
    naming: Naming,
    pointing: Pointing,
    source: &mut Source<'t>,
) -> Result<Named<'t>, Stop>
    requires { N.can_read grammar.now.inside grammar.now.room }
    ensures { Gives (λ room inner. spec.unnamed_core room inner naming pointing)
        grammar.now.room (N.readers grammar.now.inside) source.old result source.new }
{
    if pointing.atomic {
        array_core(grammar, pointing, source)
    } else if source.is_at_mark(MARK_LEFT_PAREN) {
        paren_core(grammar, naming, pointing, source)
    } else {
        array_core(grammar, pointing, source)
    }
}
