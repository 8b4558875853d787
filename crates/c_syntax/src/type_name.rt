//! Type names (C11 6.7.7): for now a typedef name or keywords, and stars.

ghost use Rattle.std.specs.Prelude.{◌≡◌};
ghost use Rattle.c_reading.specs.Reads.{Reads};
ghost use Rattle.c_syntax.specs.Scoping.{input_from};
ghost use Rattle.c_syntax.specs.TypeNameReaders as spec;

use crate::source::Source;
use c_lexer::mark::MARK_STAR;
use c_reading::Stop;
use c_tree::{Core, Declarator, Pointer, Spec, Specs, TypeName, list_of_one};
use joern_io::List;
use std::alloc::Global;

/// A typedef name.
#[tactic(auto, unfolding(crate::specs::TypeNameReaders::named))]
fn named(alloc: Global, room: usize, source: &mut Source<'_>) -> Result<List<Spec>, Stop>
    ensures { Reads (spec.named room (input_from source.old)) result (input_from source.new) }
{
    let name = source.expect_typedef_name(room)?;
    Ok(list_of_one(alloc, Spec::Named(name))?)
}

/// One more keyword.
#[tactic(auto, unfolding(crate::specs::TypeNameReaders::one_more_word))]
fn one_more_word(
    room: usize,
    words: List<Spec>,
    source: &mut Source<'_>,
) -> Result<List<Spec>, Stop>
    ensures { Reads (spec.one_more_word room words (input_from source.old)) result
        (input_from source.new) }
{
    let mut words = words;
    let word = source.expect_basic_type(room)?;
    words.push(Spec::Basic(word))?;
    Ok(words)
}

/// Further keywords.
fn more_words(room: usize, words: List<Spec>, source: &mut Source<'_>) -> Result<List<Spec>, Stop>
    ensures { Reads (spec.more_words room words (input_from source.old)) result
        (input_from source.new) }
{
    let mut words = words;
    for _turn in 0..source.left() {
        if !source.is_at_basic_type() {
            return Ok(words);
        }
        words = one_more_word(room, words, source)?;
    }
    Ok(words)
}

/// Keywords.
#[tactic(auto, unfolding(crate::specs::TypeNameReaders::basic))]
fn basic(alloc: Global, room: usize, source: &mut Source<'_>) -> Result<List<Spec>, Stop>
    ensures { Reads (spec.basic room (input_from source.old)) result (input_from source.new) }
{
    let word = source.expect_basic_type(room)?;
    more_words(room, list_of_one(alloc, Spec::Basic(word))?, source)
}

/// Type specifiers.
#[tactic(auto, unfolding(crate::specs::TypeNameReaders::words))]
fn words(alloc: Global, room: usize, source: &mut Source<'_>) -> Result<List<Spec>, Stop>
    ensures { Reads (spec.words room (input_from source.old)) result (input_from source.new) }
{
    if source.is_at_typedef_name() {
        named(alloc, room, source)
    } else {
        basic(alloc, room, source)
    }
}

/// One more star.
#[tactic(auto, unfolding(crate::specs::TypeNameReaders::one_more_star))]
fn one_more_star(
    alloc: Global,
    room: usize,
    pointers: List<Pointer>,
    source: &mut Source<'_>,
) -> Result<List<Pointer>, Stop>
    ensures { Reads (spec.one_more_star room pointers (input_from source.old)) result
        (input_from source.new) }
{
    let mut pointers = pointers;
    let star = source.expect_mark(MARK_STAR, room)?;
    pointers.push(Pointer {
        star,
        qualifiers: List::new(alloc),
    })?;
    Ok(pointers)
}

/// Stars.
fn stars(alloc: Global, room: usize, source: &mut Source<'_>) -> Result<List<Pointer>, Stop>
    ensures { Reads (spec.stars room (input_from source.old)) result (input_from source.new) }
{
    let mut pointers = List::new(alloc);
    for _turn in 0..source.left() {
        if !source.is_at_mark(MARK_STAR) {
            return Ok(pointers);
        }
        pointers = one_more_star(alloc, room, pointers, source)?;
    }
    Ok(pointers)
}

/// A type name.
#[tactic(auto, unfolding(crate::specs::TypeNameReaders::type_name))]
pub(crate) fn type_name(
    alloc: Global,
    room: usize,
    source: &mut Source<'_>,
) -> Result<TypeName, Stop>
    ensures { Reads (spec.type_name room (input_from source.old)) result (input_from source.new) }
{
    let words = words(alloc, room, source)?;
    let pointers = stars(alloc, room, source)?;
    Ok(TypeName {
        specs: Specs { words },
        declarator: Declarator {
            pointers,
            core: Core::Empty,
            suffixes: List::new(alloc),
            width: None,
            marks: List::new(alloc),
        },
    })
}
