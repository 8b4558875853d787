//! What holds of all trees.

ghost use Rattle.std.specs.Prelude.{◌≡◌, ℕ, Some, length, slice_get};
ghost use Rattle.std.specs.Prelude.{List as list_of};
ghost use Rattle.c_lexer.specs.declared.token.Kind.{Kind};
ghost use Rattle.c_tree.specs.declared.symbol.Symbol.{Symbol};
ghost use Rattle.c_tree.specs.declared.tree.Unit.{Unit};
ghost use Rattle.c_tree.specs.Fits.{Fits, Spells};
ghost use Rattle.c_tree.specs.Spell.{unit_spelling};

/// Where a tree spells tokens, its symbols are as many as they, and symbol i has token i, which is
/// what it wants.
pub fn law_symbol_i_has_token_i()
    ensures as_many { (unit : Unit) (kinds : list_of Kind) → Spells unit kinds →
        length (unit_spelling unit) ≡ length kinds }
    ensures each { (unit : Unit) (kinds : list_of Kind) → Spells unit kinds →
        (i : ℕ) (symbol : Symbol) (kind : Kind) → slice_get (unit_spelling unit) i ≡ Some symbol →
        slice_get kinds i ≡ Some kind → (symbol.token ≡ i) × Fits symbol.want kind }
{}
