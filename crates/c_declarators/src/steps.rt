//! What stands next in declarators (C11 6.7.6).

ghost use Rattle.std.specs.Prelude.{◌≡◌, ◌∷◌, Some};
ghost use Rattle.c_lexer.specs.declared.mark.TheConstants.{MARK_STAR};
ghost use Rattle.c_reading.specs.Terminals.{mark};
ghost use Rattle.c_specifiers.specs.DeclarationSets as sets;
ghost use Rattle.c_specifiers.specs.DeclarationSets.{a_qualifier};
ghost use Rattle.c_specifiers.specs.DeclarationSets.{begins_params};
ghost use Rattle.c_specifiers.specs.declared.forms.Place.TheVariants.{Parameter};
ghost use Rattle.c_syntax.specs.Scoping.{input_from, terminal_of};
ghost use Rattle.c_syntax.specs.Sets.{begins_specifier};
ghost use Rattle.reading.specs.Readers.{is_ahead};

use crate::kinds::{
    begins_abstract, begins_either, begins_some_either, begins_suffix, begins_unnamed, is_qualifier,
};
use c_lexer::mark::MARK_RIGHT_PAREN;
use c_specifiers::{Place, is_at_specifiers};
use c_syntax::Source;

/// Whether the next token is a qualifier.
pub(crate) fn is_at_qualifier(source: &Source<'_>) -> bool
    ensures { result ≡ is_ahead terminal_of a_qualifier (input_from source.now) }
{
    match source.cursor.ahead() {
        Some(kind) => is_qualifier(kind),
        None => false,
    }
}

/// Whether the next token begins a suffix of a declarator.
pub fn is_at_suffix(source: &Source<'_>) -> bool
    ensures { result ≡ is_ahead terminal_of sets.begins_suffix (input_from source.now) }
{
    match source.cursor.ahead() {
        Some(kind) => begins_suffix(kind),
        None => false,
    }
}

/// Whether the next token is no name and begins what stands behind pointers, or behind `_Atomic`.
pub(crate) fn is_at_unnamed(atomic: bool, source: &Source<'_>) -> bool
    ensures { result ≡ is_ahead terminal_of (sets.begins_unnamed atomic) (input_from source.now) }
{
    match source.cursor.ahead() {
        Some(kind) => begins_unnamed(atomic, kind),
        None => false,
    }
}

/// The same, or a name.
pub(crate) fn is_at_either(atomic: bool, source: &Source<'_>) -> bool
    ensures { result ≡ is_ahead terminal_of (sets.begins_either atomic) (input_from source.now) }
{
    match source.cursor.ahead() {
        Some(kind) => begins_either(atomic, kind),
        None => false,
    }
}

/// Whether the next token begins a declarator without a name.
pub(crate) fn is_at_abstract(atomic: bool, source: &Source<'_>) -> bool
    ensures { result ≡ is_ahead terminal_of (mark MARK_STAR ∷ sets.begins_unnamed atomic)
        (input_from source.now) }
{
    match source.cursor.ahead() {
        Some(kind) => begins_abstract(atomic, kind),
        None => false,
    }
}

/// Whether the next token begins a declarator with a name or without.
pub(crate) fn is_at_some_either(atomic: bool, source: &Source<'_>) -> bool
    ensures { result ≡ is_ahead terminal_of (mark MARK_STAR ∷ sets.begins_either atomic)
        (input_from source.now) }
{
    match source.cursor.ahead() {
        Some(kind) => begins_some_either(atomic, kind),
        None => false,
    }
}

/// Whether the next token stands first in a parameter list behind its `(`.
pub fn is_at_params(source: &Source<'_>) -> bool
    ensures { result ≡ is_ahead terminal_of begins_params (input_from source.now) }
{
    if source.is_at_mark(MARK_RIGHT_PAREN) {
        return true;
    }
    is_at_specifiers(Place::Parameter, source)
}
