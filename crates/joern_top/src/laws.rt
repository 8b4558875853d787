//! Laws of the run.

ghost use Rattle.std.specs.Prelude.{ℕ, List, ◌≡◌};
ghost use Rattle.joern_io.specs.Held.{Held};
ghost use Rattle.joern_top.specs.declared.status.Status.TheVariants as status;
ghost use Rattle.joern_top.specs.Headline.{CanAnswer};
ghost use Rattle.joern_top.specs.Run.{Outcome, IsOutcome};

use c_lexer::laws::{law_one_marker, law_one_reading};
use first_grammar::laws::law_one_unit;
use line_marks::laws::law_one_stripping;

/// The words and the held files have at most one outcome.
pub fn law_one_outcome()
    ensures one { (words : List (List ℕ)) (held : Held) (o p : Outcome) →
        IsOutcome words held o → IsOutcome words held p → o ≡ p }
{
    law_one_reading();
    law_one_stripping();
    law_one_marker();
    law_one_unit();
}

/// The words and the held files have an outcome: it cannot be that nothing is one.
///
/// That is existence in classical terms. Whether tokens have a tree no definition decides, so that
/// no outcome is named.
pub fn law_some_outcome()
    ensures some { (words : List (List ℕ)) (held : Held) →
        ¬ ((o : Outcome) → ¬ IsOutcome words held o) }
{
    law_one_reading();
    law_one_stripping();
}

/// The outcome is Ok where the words give a command, each of its files is held and within the
/// limit, each source is accepted, and its graph passes no cap.
pub fn law_can_answer()
    ensures ok { (words : List (List ℕ)) (held : Held) (o : Outcome) →
        CanAnswer words held → IsOutcome words held o → o.status ≡ status.Ok }
{
    law_one_reading();
    law_one_stripping();
}
