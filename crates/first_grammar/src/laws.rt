//! What holds of all files.

ghost use Rattle.std.specs.Prelude.{◌≡◌, ℕ, List};
ghost use Rattle.c_lexer.specs.declared.token.Token.{Token};
ghost use Rattle.c_tree.specs.declared.tree.Unit.{Unit};
ghost use Rattle.first_grammar.specs.FirstUnit.{IsFirstUnit};

/// A file has at most one tree of the first grammar.
pub fn law_one_unit()
    ensures { (bytes : List ℕ) (tokens : List Token) (first second : Unit) →
        IsFirstUnit bytes tokens first → IsFirstUnit bytes tokens second → first ≡ second }
{}
