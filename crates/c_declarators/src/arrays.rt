//! Qualifiers, pointers and arrays (C11 6.7.3, 6.7.6.1, 6.7.6.2).

ghost use Rattle.std.specs.Prelude.{◌-◌, Some, None, true, false};
ghost use Rattle.c_specifiers.specs.Gives.{Gives};
ghost use Rattle.c_declarators.specs.DeclaratorReaders as spec;
ghost use Rattle.c_reading.specs.Reads.{Reads};
ghost use Rattle.c_syntax.specs.Scoping.{input_from};

use crate::forms::{Pointing, Qualified, size_form};
use crate::steps::is_at_qualifier;
use c_lexer::keyword::{KEY_ATOMIC, KEY_STATIC};
use c_lexer::mark::{MARK_LEFT_BRACKET, MARK_RIGHT_BRACKET, MARK_STAR};
use c_reading::Stop;
use c_specifiers::{Grammar, Inside, expect_plain_qualifier, is_at_plain_qualifier};
use c_syntax::{AssignForm, Source};
use c_tree::{Expr, Pointer, Suffix, two_marks};
use joern_io::List;
use std::alloc::Global;

/// A qualifier other than `_Atomic`.
#[tactic(auto, unfolding(crate::specs::DeclaratorReaders::plain_qualifier))]
fn plain_qualifier(
    qualified: Qualified,
    room: usize,
    source: &mut Source<'_>,
) -> Result<Qualified, Stop>
    ensures { Reads (spec.plain_qualifier room qualified (input_from source.old)) result
        (input_from source.new) }
{
    let key = expect_plain_qualifier(room, source)?;
    Ok(qualified.with(key, false)?)
}

/// `_Atomic` as a qualifier.
#[tactic(auto, unfolding(crate::specs::DeclaratorReaders::atomic_qualifier))]
fn atomic_qualifier(
    qualified: Qualified,
    room: usize,
    source: &mut Source<'_>,
) -> Result<Qualified, Stop>
    ensures { Reads (spec.atomic_qualifier room qualified (input_from source.old)) result
        (input_from source.new) }
{
    let key = source.expect_key(KEY_ATOMIC, room)?;
    Ok(qualified.with(key, true)?)
}

/// A qualifier.
#[tactic(auto, unfolding(crate::specs::DeclaratorReaders::qualifier))]
fn qualifier(qualified: Qualified, room: usize, source: &mut Source<'_>) -> Result<Qualified, Stop>
    ensures { Reads (spec.qualifier room qualified (input_from source.old)) result
        (input_from source.new) }
{
    if is_at_plain_qualifier(source) {
        plain_qualifier(qualified, room, source)
    } else {
        atomic_qualifier(qualified, room, source)
    }
}

/// Further qualifiers.
fn all_qualifiers(
    qualified: Qualified,
    room: usize,
    source: &mut Source<'_>,
) -> Result<Qualified, Stop>
    ensures { Reads (spec.all_qualifiers room qualified (input_from source.old)) result
        (input_from source.new) }
{
    let mut qualified = qualified;
    for _turn in 0..source.left() {
        if !is_at_qualifier(source) {
            return Ok(qualified);
        }
        qualified = qualifier(qualified, room, source)?;
    }
    Ok(qualified)
}

/// One qualifier or more.
#[tactic(auto, unfolding(crate::specs::DeclaratorReaders::qualifiers))]
fn qualifiers(alloc: Global, room: usize, source: &mut Source<'_>) -> Result<Qualified, Stop>
    ensures { Reads (spec.qualifiers room (input_from source.old)) result
        (input_from source.new) }
{
    let first = qualifier(Qualified::none(alloc), room, source)?;
    all_qualifiers(first, room, source)
}

/// A pointer (6.7.6.1).
#[tactic(auto, unfolding(crate::specs::DeclaratorReaders::pointer))]
fn pointer(
    alloc: Global,
    pointing: Pointing,
    room: usize,
    source: &mut Source<'_>,
) -> Result<Pointing, Stop>
    ensures { Reads (spec.pointer room pointing (input_from source.old)) result
        (input_from source.new) }
{
    let mut pointers = pointing.pointers;
    let star = source.expect_mark(MARK_STAR, room)?;
    let Qualified { words, atomic } = all_qualifiers(Qualified::none(alloc), room, source)?;
    pointers.push(Pointer {
        star,
        qualifiers: words,
    })?;
    Ok(Pointing { pointers, atomic })
}

/// Further pointers.
fn all_pointers(
    alloc: Global,
    pointing: Pointing,
    room: usize,
    source: &mut Source<'_>,
) -> Result<Pointing, Stop>
    ensures { Reads (spec.all_pointers room pointing (input_from source.old)) result
        (input_from source.new) }
{
    let mut pointing = pointing;
    for _turn in 0..source.left() {
        if !source.is_at_mark(MARK_STAR) {
            return Ok(pointing);
        }
        pointing = pointer(alloc, pointing, room, source)?;
    }
    Ok(pointing)
}

/// One pointer or more.
#[tactic(auto, unfolding(crate::specs::DeclaratorReaders::pointers))]
pub fn pointers(alloc: Global, room: usize, source: &mut Source<'_>) -> Result<Pointing, Stop>
    ensures { Reads (spec.pointers room (input_from source.old)) result
        (input_from source.new) }
{
    let first = pointer(alloc, Pointing::none(alloc, false), room, source)?;
    all_pointers(alloc, first, room, source)
}

#[tactic(auto, unfolding(crate::specs::DeclaratorReaders::array_end))]
pub(crate) fn array_end<N: Inside>(
    grammar: &Grammar<N>,
    words: List<u32>,
    star: Option<u32>,
    left: u32,
    source: &mut Source<'_>,
) -> Result<Suffix, Stop>
    requires { N.can_read grammar.now.inside grammar.now.room }
    ensures { Gives (λ room inner. spec.array_end room inner words star left)
        grammar.now.room (N.readers grammar.now.inside) source.old result source.new }
{
    let right = source.expect_mark(MARK_RIGHT_BRACKET, grammar.deeper())?;
    Ok(Suffix::Array {
        words,
        size: None,
        star,
        marks: two_marks(grammar.alloc, left, right)?,
    })
}

#[tactic(auto, unfolding(crate::specs::DeclaratorReaders::array_size))]
pub(crate) fn array_size<N: Inside>(
    grammar: &Grammar<N>,
    form: AssignForm,
    words: List<u32>,
    left: u32,
    source: &mut Source<'_>,
) -> Result<Suffix, Stop>
    requires { N.can_read grammar.now.inside grammar.now.room }
    ensures { Gives (λ room inner. spec.array_size room inner form words left)
        grammar.now.room (N.readers grammar.now.inside) source.old result source.new }
{
    let size = grammar.inner_assign(form, source)?;
    let right = source.expect_mark(MARK_RIGHT_BRACKET, grammar.deeper())?;
    Ok(Suffix::Array {
        words,
        size: Some(Expr::sole(grammar.alloc, size)?),
        star: None,
        marks: two_marks(grammar.alloc, left, right)?,
    })
}

/// Behind `*`, which is all that stands there or begins the size.
#[tactic(auto, unfolding(crate::specs::DeclaratorReaders::star_or_size))]
pub(crate) fn star_or_size<N: Inside>(
    grammar: &Grammar<N>,
    words: List<u32>,
    left: u32,
    star: u32,
    source: &mut Source<'_>,
) -> Result<Suffix, Stop>
    requires { N.can_read grammar.now.inside grammar.now.room }
    ensures { Gives (λ room inner. spec.star_or_size room inner words left star)
        grammar.now.room (N.readers grammar.now.inside) source.old result source.new }
{
    if source.is_at_mark(MARK_RIGHT_BRACKET) {
        array_end(grammar, words, Some(star), left, source)
    } else {
        array_size(grammar, AssignForm::Behind(star), words, left, source)
    }
}

#[tactic(auto, unfolding(crate::specs::DeclaratorReaders::starred))]
pub(crate) fn starred<N: Inside>(
    grammar: &Grammar<N>,
    words: List<u32>,
    left: u32,
    source: &mut Source<'_>,
) -> Result<Suffix, Stop>
    requires { N.can_read grammar.now.inside grammar.now.room }
    ensures { Gives (λ room inner. spec.starred room inner words left)
        grammar.now.room (N.readers grammar.now.inside) source.old result source.new }
{
    let star = source.expect_mark(MARK_STAR, grammar.deeper())?;
    star_or_size(grammar, words, left, star, source)
}

#[tactic(auto, unfolding(crate::specs::DeclaratorReaders::starred_size))]
pub(crate) fn starred_size<N: Inside>(
    grammar: &Grammar<N>,
    words: List<u32>,
    left: u32,
    source: &mut Source<'_>,
) -> Result<Suffix, Stop>
    requires { N.can_read grammar.now.inside grammar.now.room }
    ensures { Gives (λ room inner. spec.starred_size room inner words left)
        grammar.now.room (N.readers grammar.now.inside) source.old result source.new }
{
    let star = source.expect_mark(MARK_STAR, grammar.deeper())?;
    array_size(grammar, AssignForm::Behind(star), words, left, source)
}

/// A size, behind `_Atomic` or not.
#[tactic(auto, unfolding(crate::specs::DeclaratorReaders::some_size))]
pub(crate) fn some_size<N: Inside>(
    grammar: &Grammar<N>,
    atomic: bool,
    words: List<u32>,
    left: u32,
    source: &mut Source<'_>,
) -> Result<Suffix, Stop>
    requires { N.can_read grammar.now.inside grammar.now.room }
    ensures { Gives (λ room inner. spec.some_size room inner atomic words left)
        grammar.now.room (N.readers grammar.now.inside) source.old result source.new }
{
    if source.is_at_mark(MARK_STAR) {
        starred_size(grammar, words, left, source)
    } else {
        array_size(grammar, size_form(atomic), words, left, source)
    }
}

/// A size that does not begin with `*`, or nothing.
#[tactic(auto, unfolding(crate::specs::DeclaratorReaders::maybe_size))]
pub(crate) fn maybe_size<N: Inside>(
    grammar: &Grammar<N>,
    atomic: bool,
    words: List<u32>,
    left: u32,
    source: &mut Source<'_>,
) -> Result<Suffix, Stop>
    requires { N.can_read grammar.now.inside grammar.now.room }
    ensures { Gives (λ room inner. spec.maybe_size room inner atomic words left)
        grammar.now.room (N.readers grammar.now.inside) source.old result source.new }
{
    if source.is_at_mark(MARK_RIGHT_BRACKET) {
        array_end(grammar, words, None, left, source)
    } else {
        array_size(grammar, size_form(atomic), words, left, source)
    }
}

/// A size, `*` or nothing.
#[tactic(auto, unfolding(crate::specs::DeclaratorReaders::size_or_star))]
pub(crate) fn size_or_star<N: Inside>(
    grammar: &Grammar<N>,
    atomic: bool,
    words: List<u32>,
    left: u32,
    source: &mut Source<'_>,
) -> Result<Suffix, Stop>
    requires { N.can_read grammar.now.inside grammar.now.room }
    ensures { Gives (λ room inner. spec.size_or_star room inner atomic words left)
        grammar.now.room (N.readers grammar.now.inside) source.old result source.new }
{
    if source.is_at_mark(MARK_STAR) {
        starred(grammar, words, left, source)
    } else {
        maybe_size(grammar, atomic, words, left, source)
    }
}

/// A size or nothing.
#[tactic(auto, unfolding(crate::specs::DeclaratorReaders::size_or_nothing))]
pub(crate) fn size_or_nothing<N: Inside>(
    grammar: &Grammar<N>,
    atomic: bool,
    words: List<u32>,
    left: u32,
    source: &mut Source<'_>,
) -> Result<Suffix, Stop>
    requires { N.can_read grammar.now.inside grammar.now.room }
    ensures { Gives (λ room inner. spec.size_or_nothing room inner atomic words left)
        grammar.now.room (N.readers grammar.now.inside) source.old result source.new }
{
    if source.is_at_mark(MARK_STAR) {
        starred_size(grammar, words, left, source)
    } else {
        maybe_size(grammar, atomic, words, left, source)
    }
}

#[tactic(auto, unfolding(crate::specs::DeclaratorReaders::static_behind))]
pub(crate) fn static_behind<N: Inside>(
    grammar: &Grammar<N>,
    qualified: Qualified,
    left: u32,
    source: &mut Source<'_>,
) -> Result<Suffix, Stop>
    requires { N.can_read grammar.now.inside grammar.now.room }
    ensures { Gives (λ room inner. spec.static_behind room inner qualified left)
        grammar.now.room (N.readers grammar.now.inside) source.old result source.new }
{
    let key = source.expect_key(KEY_STATIC, grammar.deeper())?;
    let Qualified { words, .. } = qualified.with(key, false)?;
    some_size(grammar, false, words, left, source)
}

/// Behind qualifiers, of a declarator with a name or without.
#[tactic(auto, unfolding(crate::specs::DeclaratorReaders::behind_qualifiers))]
pub(crate) fn behind_qualifiers<N: Inside>(
    grammar: &Grammar<N>,
    named: bool,
    qualified: Qualified,
    left: u32,
    source: &mut Source<'_>,
) -> Result<Suffix, Stop>
    requires { N.can_read grammar.now.inside grammar.now.room }
    ensures { Gives (λ room inner. spec.behind_qualifiers room inner named qualified left)
        grammar.now.room (N.readers grammar.now.inside) source.old result source.new }
{
    if source.is_at_key(KEY_STATIC) {
        return static_behind(grammar, qualified, left, source);
    }
    let Qualified { words, atomic } = qualified;
    if named {
        size_or_star(grammar, atomic, words, left, source)
    } else {
        size_or_nothing(grammar, atomic, words, left, source)
    }
}

#[tactic(auto, unfolding(crate::specs::DeclaratorReaders::qualified_array))]
pub(crate) fn qualified_array<N: Inside>(
    grammar: &Grammar<N>,
    named: bool,
    left: u32,
    source: &mut Source<'_>,
) -> Result<Suffix, Stop>
    requires { N.can_read grammar.now.inside grammar.now.room }
    ensures { Gives (λ room inner. spec.qualified_array room inner named left)
        grammar.now.room (N.readers grammar.now.inside) source.old result source.new }
{
    let qualified = qualifiers(grammar.alloc, grammar.deeper(), source)?;
    behind_qualifiers(grammar, named, qualified, left, source)
}

#[tactic(auto, unfolding(crate::specs::DeclaratorReaders::static_words))]
pub(crate) fn static_words<N: Inside>(
    grammar: &Grammar<N>,
    source: &mut Source<'_>,
) -> Result<Qualified, Stop>
    requires { N.can_read grammar.now.inside grammar.now.room }
    ensures { Gives spec.static_words
        grammar.now.room (N.readers grammar.now.inside) source.old result source.new }
{
    let key = source.expect_key(KEY_STATIC, grammar.deeper())?;
    let first = Qualified::none(grammar.alloc).with(key, false)?;
    all_qualifiers(first, grammar.deeper(), source)
}

#[tactic(auto, unfolding(crate::specs::DeclaratorReaders::static_array))]
pub(crate) fn static_array<N: Inside>(
    grammar: &Grammar<N>,
    left: u32,
    source: &mut Source<'_>,
) -> Result<Suffix, Stop>
    requires { N.can_read grammar.now.inside grammar.now.room }
    ensures { Gives (λ room inner. spec.static_array room inner left)
        grammar.now.room (N.readers grammar.now.inside) source.old result source.new }
{
    let Qualified { words, atomic } = static_words(grammar, source)?;
    some_size(grammar, atomic, words, left, source)
}

/// 6.7.6.2.
#[tactic(auto, unfolding(crate::specs::DeclaratorReaders::array))]
pub(crate) fn array<N: Inside>(
    grammar: &Grammar<N>,
    named: bool,
    source: &mut Source<'_>,
) -> Result<Suffix, Stop>
    requires { N.can_read grammar.now.inside grammar.now.room }
    ensures { Gives (λ room inner. spec.array room inner named)
        grammar.now.room (N.readers grammar.now.inside) source.old result source.new }
{
    let left = source.expect_mark(MARK_LEFT_BRACKET, grammar.deeper())?;
    if source.is_at_key(KEY_STATIC) {
        static_array(grammar, left, source)
    } else if is_at_qualifier(source) {
        qualified_array(grammar, named, left, source)
    } else {
        size_or_star(grammar, false, List::new(grammar.alloc), left, source)
    }
}
