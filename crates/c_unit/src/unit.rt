//! Whole files (C11 6.9).

ghost use Rattle.std.specs.Prelude.{◌<◌, ◌^◌, length};
ghost use Rattle.std.specs.List.{All};
ghost use Rattle.reading.specs.Exact.{room_on};
ghost use Rattle.c_lexer.specs.Reading.{IsWithin};
ghost use Rattle.line_marks.specs.Kept.{ArePositionsIn};
ghost use Rattle.c_unit.specs.Beginnings.{is_definition_at};
ghost use Rattle.c_unit.specs.Gives.{TakesAll, Tells};
ghost use Rattle.c_unit.specs.Texts.{beginning_of};
ghost use Rattle.c_unit.specs.UnitReaders as spec;

use crate::ahead::is_at_external;
use crate::external::Grammar;
use crate::forms::{External, Items};
use crate::heads::Heads;
use crate::text::Text;
use c_lexer::Token;
use c_reading::Stop;
use c_stmt::Below;
use c_tree::Unit;
use joern_io::List;
use std::alloc::Global;

/// How many levels are left outside of all brackets.
const ROOM: usize = 257;

impl<'t, B: Below + Heads + Copy> Grammar<'t, B> {
    /// External declarations, up to what begins none.
    fn all_items(&self) -> Result<Items<'t>, Stop>
        ensures { TakesAll (spec.all_items (B.readers self.now.below) (B.heads self.now.below)
            self.now.room (is_definition_at self.now.text.tokens.now self.now.text.kept.now)
            (beginning_of self.now.text.bytes.now self.now.text.tokens.now
            self.now.text.kept.now)) result }
    {
        let mut source = self.text.beginning(self.alloc);
        let mut list = List::new(self.alloc);
        let mut definitions = Vec::new(self.alloc);
        for _turn in 0..source.left() {
            if !is_at_external(&source) {
                return Ok(Items { list, source });
            }
            let External {
                item,
                definition,
                source: behind,
            } = self.external(source, &definitions)?;
            list.push(item)?;
            definitions.push(definition)?;
            source = behind;
        }
        Ok(Items { list, source })
    }

    /// The whole file.
    fn file(&self) -> Result<Unit, Stop>
        ensures { Tells (spec.file (B.readers self.now.below) (B.heads self.now.below)
            self.now.room (is_definition_at self.now.text.tokens.now self.now.text.kept.now)
            (beginning_of self.now.text.bytes.now self.now.text.tokens.now
            self.now.text.kept.now)) result }
    {
        let Items { list, source } = self.all_items()?;
        if source.left() == 0 {
            Ok(Unit { items: list })
        } else {
            Err(source.refusal())
        }
    }
}

/// Reads a file (C11 6.9), of which are given the bytes, the tokens, and the positions of those
/// that the parser keeps.
///
/// A refusal names the first token with which the file begins no well formed one, or the end mark,
/// or the first token on a level above 256, where that comes first.
pub fn read_unit<B: Below + Heads + Copy>(
    alloc: Global,
    below: B,
    bytes: &[u8],
    tokens: &[Token],
    kept: &[u32],
) -> Result<Unit, Stop>
    requires within { All (IsWithin bytes.now) tokens.now }
    requires inside { ArePositionsIn tokens.now kept.now }
    requires few { length kept.now < 2 ^ 32 }
    ensures { Tells (spec.file (B.readers below) (B.heads below) (room_on 0)
        (is_definition_at tokens.now kept.now) (beginning_of bytes.now tokens.now kept.now))
        result }
{
    let text = Text {
        bytes,
        tokens,
        kept,
    };
    Grammar {
        alloc,
        room: ROOM,
        below,
        text,
    }
    .file()
}
