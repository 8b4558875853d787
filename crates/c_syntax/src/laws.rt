//! What holds of all tokens.

ghost use Rattle.c_syntax.specs.ExactExpressions.{ExpressionsAreExact};

/// Expressions are read exactly by their readers.
pub fn law_expressions_are_exact()
    ensures { ExpressionsAreExact }
{}
