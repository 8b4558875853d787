//! Single tokens, names and scopes in the grammar of declarations (C11 6.7).

ghost use Rattle.std.specs.Prelude.{◌≡◌, Some, Ok};
ghost use Rattle.c_reading.specs.Reads.{Reads};
ghost use Rattle.c_specifiers.specs.DeclarationSets as sets;
ghost use Rattle.c_specifiers.specs.DeclarationSets.{a_function_specifier};
ghost use Rattle.c_specifiers.specs.DeclarationSets.{a_storage_class};
ghost use Rattle.c_specifiers.specs.DeclarationSets.{begins_specifiers};
ghost use Rattle.c_specifiers.specs.DeclarationSteps as step;
ghost use Rattle.c_syntax.specs.Scoping.{input_from, terminal_of};
ghost use Rattle.c_syntax.specs.Sets.{a_name, any_name, a_plain_qualifier, a_record};
ghost use Rattle.c_syntax.specs.Sets.{begins_specifier};
ghost use Rattle.c_syntax.specs.Steps.{expect_among};
ghost use Rattle.reading.specs.Readers.{is_ahead};

use crate::forms::{Place, Word};
use crate::kinds::{
    begins_specifier, begins_word, is_function_specifier, is_plain_qualifier, is_record,
    is_storage_class,
};
use c_reading::Stop;
use c_syntax::Source;

// ---- What is next

/// Whether the next token is a storage-class specifier other than `typedef`.
pub(crate) fn is_at_storage_class(source: &Source<'_>) -> bool
    ensures { result ≡ is_ahead terminal_of a_storage_class (input_from source.now) }
{
    match source.cursor.ahead() {
        Some(kind) => is_storage_class(kind),
        None => false,
    }
}

/// Whether the next token is a function specifier.
pub(crate) fn is_at_function_specifier(source: &Source<'_>) -> bool
    ensures { result ≡ is_ahead terminal_of a_function_specifier (input_from source.now) }
{
    match source.cursor.ahead() {
        Some(kind) => is_function_specifier(kind),
        None => false,
    }
}

/// Whether the next token is a qualifier other than `_Atomic`.
pub fn is_at_plain_qualifier(source: &Source<'_>) -> bool
    ensures { result ≡ is_ahead terminal_of a_plain_qualifier (input_from source.now) }
{
    match source.cursor.ahead() {
        Some(kind) => is_plain_qualifier(kind),
        None => false,
    }
}

/// Whether the next token is `struct` or `union`.
pub(crate) fn is_at_record(source: &Source<'_>) -> bool
    ensures { result ≡ is_ahead terminal_of a_record (input_from source.now) }
{
    match source.cursor.ahead() {
        Some(kind) => is_record(kind),
        None => false,
    }
}

/// Whether the next token begins a type specifier, and is neither a typedef name nor `_Atomic`.
pub(crate) fn is_at_type_specifier(source: &Source<'_>) -> bool
    ensures { result ≡ is_ahead terminal_of begins_specifier (input_from source.now) }
{
    match source.cursor.ahead() {
        Some(kind) => begins_specifier(kind),
        None => false,
    }
}

/// Whether the next token begins a further specifier, behind a type specifier.
pub(crate) fn is_at_more_specifiers(place: Place, source: &Source<'_>) -> bool
    ensures { result ≡ is_ahead terminal_of (sets.begins_word place) (input_from source.now) }
{
    match source.cursor.ahead() {
        Some(kind) => begins_word(place, kind),
        None => false,
    }
}

/// Whether the next token begins specifiers.
pub fn is_at_specifiers(place: Place, source: &Source<'_>) -> bool
    ensures { result ≡ is_ahead terminal_of (begins_specifiers place) (input_from source.now) }
{
    if source.is_at_typedef_name() {
        return true;
    }
    is_at_more_specifiers(place, source)
}

// ---- What is taken

/// Takes a storage-class specifier other than `typedef`.
#[tactic(auto, unfolding(reading::specs::Readers::expect))]
pub(crate) fn expect_storage_class(room: usize, source: &mut Source<'_>) -> Result<u32, Stop>
    ensures { Reads (expect_among a_storage_class room (input_from source.old)) result
        (input_from source.new) }
{
    let may_stand = is_at_storage_class(source);
    source.take_if(may_stand, room)
}

/// Takes a function specifier.
#[tactic(auto, unfolding(reading::specs::Readers::expect))]
pub(crate) fn expect_function_specifier(room: usize, source: &mut Source<'_>) -> Result<u32, Stop>
    ensures { Reads (expect_among a_function_specifier room (input_from source.old)) result
        (input_from source.new) }
{
    let may_stand = is_at_function_specifier(source);
    source.take_if(may_stand, room)
}

/// Takes a qualifier other than `_Atomic`.
#[tactic(auto, unfolding(reading::specs::Readers::expect))]
pub fn expect_plain_qualifier(room: usize, source: &mut Source<'_>) -> Result<u32, Stop>
    ensures { Reads (expect_among a_plain_qualifier room (input_from source.old)) result
        (input_from source.new) }
{
    let may_stand = is_at_plain_qualifier(source);
    source.take_if(may_stand, room)
}

/// Takes `struct` or `union`.
#[tactic(auto, unfolding(reading::specs::Readers::expect))]
pub(crate) fn expect_record(room: usize, source: &mut Source<'_>) -> Result<u32, Stop>
    ensures { Reads (expect_among a_record room (input_from source.old)) result
        (input_from source.new) }
{
    let may_stand = is_at_record(source);
    source.take_if(may_stand, room)
}

/// Takes a word.
pub fn expect_word<'t>(room: usize, source: &mut Source<'t>) -> Result<Word<'t>, Stop>
    ensures { Reads (step.expect_word any_name room (input_from source.old)) result
        (input_from source.new) }
{
    let bytes = source.cursor.spelling();
    let token = source.expect_any_name(room)?;
    Ok(Word { token, bytes })
}

/// Takes a word that is no typedef name.
pub fn expect_other_word<'t>(room: usize, source: &mut Source<'t>) -> Result<Word<'t>, Stop>
    ensures { Reads (step.expect_word a_name room (input_from source.old)) result
        (input_from source.new) }
{
    let bytes = source.cursor.spelling();
    let token = source.expect_name(room)?;
    Ok(Word { token, bytes })
}

// ---- Scopes

/// Declares a name.
#[tactic(auto, unfolding(c_reading::specs::Cursors::input_at))]
pub(crate) fn declare_word(
    word: &Word<'_>,
    typedef: bool,
    source: &mut Source<'_>,
) -> Result<(), Stop>
    ensures { Reads (step.declare (Some word.now) typedef tt (input_from source.old)) result
        (input_from source.new) }
{
    source.scopes.declare(word.bytes, typedef)?;
    Ok(())
}

/// Declares a name, where there is one.
pub fn declare(name: &Option<Word<'_>>, typedef: bool, source: &mut Source<'_>) -> Result<(), Stop>
    ensures { Reads (step.declare name.now typedef tt (input_from source.old)) result
        (input_from source.new) }
{
    match name {
        Some(word) => declare_word(word, typedef, source),
        None => Ok(()),
    }
}

/// Enters a scope.
#[tactic(auto, unfolding(c_reading::specs::Cursors::input_at))]
pub fn enter(source: &mut Source<'_>) -> Result<(), Stop>
    ensures { Reads (step.enter (input_from source.old)) result (input_from source.new) }
{
    source.scopes.enter()?;
    Ok(())
}

/// Leaves the innermost scope.
#[tactic(auto, unfolding(c_reading::specs::Cursors::input_at))]
pub fn leave(source: &mut Source<'_>)
    ensures { step.leave (tt {0}) (input_from source.old) ≡ Ok (tt {0}, input_from source.new) }
{
    source.scopes.leave();
}
