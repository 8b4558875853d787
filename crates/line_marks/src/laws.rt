//! What holds of all lists of tokens.

ghost use Rattle.std.specs.Prelude.{◌≡◌, ◌<◌, ◌≤◌, ◌⊎◌, ℕ, List, length, slice_get, slice_index};
ghost use Rattle.std.specs.List.Sorted.{IsStrictlyIncreasing};
ghost use Rattle.c_lexer.specs.declared.token.Token.{Token};
ghost use Rattle.line_marks.specs.Kept.{AreKept, ArePositionsIn, StopsStripping, items_at};
ghost use Rattle.line_marks.specs.Presumed.{ArePlacesOf};
ghost use Rattle.line_marks.specs.declared.place.Place.{Place};

/// Tokens have one list that is kept or one bad `__attribute__` at which they are refused, and
/// never both.
pub fn law_one_stripping()
    ensures one_list { (tokens : List Token) (first second : List ℕ) →
        AreKept tokens first → AreKept tokens second → first ≡ second }
    ensures one_stop { (tokens : List Token) (first second : ℕ) →
        StopsStripping tokens first → StopsStripping tokens second → first ≡ second }
    ensures some { (tokens : List Token) →
        ((kept : List ℕ) × AreKept tokens kept) ⊎ ((at : ℕ) × StopsStripping tokens at) }
    ensures not_both { (tokens : List Token) (kept : List ℕ) (stop : ℕ) →
        AreKept tokens kept → ¬ StopsStripping tokens stop }
{}

/// The kept positions rise, and each is that of a token. So the kept tokens are the tokens at these
/// positions, one for each, and no more than all tokens.
pub fn law_kept_positions()
    ensures rising { (tokens : List Token) (kept : List ℕ) →
        AreKept tokens kept → IsStrictlyIncreasing kept }
    ensures inside { (tokens : List Token) (kept : List ℕ) →
        AreKept tokens kept → ArePositionsIn tokens kept }
    ensures few { (tokens : List Token) (kept : List ℕ) →
        AreKept tokens kept → length kept ≤ length tokens }
    ensures one_each { (tokens : List Token) (kept : List ℕ) →
        AreKept tokens kept → length (items_at tokens kept) ≡ length kept }
    ensures at { (tokens : List Token) (kept : List ℕ) (number : ℕ) →
        AreKept tokens kept → number < length kept →
        slice_get (items_at tokens kept) number ≡ slice_get tokens (slice_index kept number) }
{}

/// A text has at most one list of places, and one list of files.
pub fn law_one_place()
    ensures places { (bytes : List ℕ) (tokens : List Token) (name : List ℕ)
        (first second : List Place) (files more : List (List ℕ)) →
        ArePlacesOf bytes tokens name first files → ArePlacesOf bytes tokens name second more →
        first ≡ second }
    ensures files { (bytes : List ℕ) (tokens : List Token) (name : List ℕ)
        (first second : List Place) (files more : List (List ℕ)) →
        ArePlacesOf bytes tokens name first files → ArePlacesOf bytes tokens name second more →
        files ≡ more }
{}
