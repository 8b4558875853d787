//! The entry: from the tokens of a file to its tree.

ghost use Rattle.std.specs.Prelude.{◌≡◌, ◌<◌, ◌^◌, IfOk, IsErrOf, length};
ghost use Rattle.std.specs.List.{All};
ghost use Rattle.c_lexer.specs.Reading.{IsWithin};
ghost use Rattle.c_tree.specs.declared.tree.Unit.{Unit};
ghost use Rattle.line_marks.specs.Kept.{ArePositionsIn, items_at};
ghost use Rattle.first_grammar.specs.FirstUnit.{IsFirstUnit};

use crate::cursor::Cursor;
use crate::names::{function_names, names_differ};
use crate::stop::GrammarStop;
use c_lexer::{SourceText, Token};
use c_tree::Unit;
use std::alloc::Global;

/// The tree of a file of the first grammar, from its tokens and the positions of those that the
/// parser keeps.
///
/// The tree's numbers of tokens count the kept ones. A file has at most one such tree (`laws`). A
/// file that has one is refused for want of memory alone.
pub fn read_unit(
    alloc: Global,
    text: SourceText<'_>,
    tokens: &[Token],
    kept: &[u32],
) -> Result<Unit, GrammarStop>
    requires within { All (IsWithin text.bytes.now) tokens.now }
    requires inside { ArePositionsIn tokens.now kept.now }
    requires few { length kept.now < 2 ^ 32 }
    ensures ok { IfOk result (λ unit.
        IsFirstUnit text.entry.bytes.now (items_at tokens.now kept.now) unit) }
    ensures unbuilt { IsErrOf result GrammarStop.Unbuilt → (unit : Unit) →
        ¬ IsFirstUnit text.entry.bytes.now (items_at tokens.now kept.now) unit }
{
    let items = Cursor::new(alloc, tokens, kept).items()?;
    let names = function_names(alloc, text.bytes, tokens, kept, items.items())?;
    if !names_differ(alloc, &names)? {
        return Err(GrammarStop::Unbuilt);
    }
    Ok(Unit { items })
}
