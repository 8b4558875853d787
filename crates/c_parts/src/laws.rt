//! What holds of all tokens.

ghost use Rattle.c_parts.specs.ExactParts.{DeclarationsAreExact};
ghost use Rattle.c_parts.specs.ExactParts.{ExpressionsAreExact, TypeNamesAreExact};

/// Expressions are read exactly by their readers.
pub fn law_expressions_are_exact()
    ensures { ExpressionsAreExact }
{}

/// Type names are read exactly by their readers.
pub fn law_type_names_are_exact()
    ensures { TypeNamesAreExact }
{}

/// Declarations are read exactly by their readers.
pub fn law_declarations_are_exact()
    ensures { DeclarationsAreExact }
{}
