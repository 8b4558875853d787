//! Laws of the reading of a text.

ghost use Rattle.std.specs.Prelude.{◌≡◌, ◌≤◌, ◌⊎◌, ℕ, List, Option, length};
ghost use Rattle.std.specs.List.{All};
ghost use Rattle.c_lexer.specs.Directives.{IsMarkerOf};
ghost use Rattle.c_lexer.specs.Entries.{HavePositions};
ghost use Rattle.c_lexer.specs.Keywords.{keywords};
ghost use Rattle.c_lexer.specs.Marks.{marks};
ghost use Rattle.c_lexer.specs.Reading.{AreTokensOf, IsWithin, StopsAt};
ghost use Rattle.c_lexer.specs.declared.token.Token.{Token};

/// A text has one reading: one list of tokens or one stop, and never both.
pub fn law_one_reading()
    ensures some { (bytes : List ℕ) →
        ((tokens : List Token) × AreTokensOf bytes tokens) ⊎ ((at : ℕ) × StopsAt bytes at) }
    ensures one_list { (bytes : List ℕ) (first second : List Token) →
        AreTokensOf bytes first → AreTokensOf bytes second → first ≡ second }
    ensures one_stop { (bytes : List ℕ) (first second : ℕ) →
        StopsAt bytes first → StopsAt bytes second → first ≡ second }
    ensures not_both { (bytes : List ℕ) (tokens : List Token) (at : ℕ) →
        AreTokensOf bytes tokens → ¬ StopsAt bytes at }
{}

/// The tokens of a text stand in it, and it has no more of them than bytes.
pub fn law_within_the_text()
    ensures within { (bytes : List ℕ) (tokens : List Token) → AreTokensOf bytes tokens →
        All (IsWithin bytes) tokens }
    ensures few { (bytes : List ℕ) (tokens : List Token) → AreTokensOf bytes tokens →
        length tokens ≤ length bytes }
{}

/// A line marker has one end, and says one line and one file.
pub fn law_one_marker()
    ensures one { (bytes : List ℕ) (from p q l m : ℕ) (f g : Option (List ℕ)) →
        IsMarkerOf bytes from p l f → IsMarkerOf bytes from q m g →
        (p ≡ q) × (l ≡ m) × (f ≡ g) }
{}

/// The constants of `keyword` and of `mark` name the positions of their spellings.
pub fn law_names()
    ensures keywords { HavePositions keywords }
    ensures marks { HavePositions marks }
{}
