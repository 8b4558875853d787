//! The kept tokens of a file.

ghost use Rattle.std.specs.Prelude.{◌<◌, ◌^◌, length};
ghost use Rattle.std.specs.List.{All};
ghost use Rattle.c_lexer.specs.Reading.{IsWithin};
ghost use Rattle.line_marks.specs.Kept.{ArePositionsIn};

use c_lexer::Token;
use c_reading::Cursor;
use c_syntax::Source;
use c_tree::Scopes;
use std::alloc::Global;

/// The bytes of a file, its tokens, and the positions of those that the parser keeps.
#[derive(Clone, Copy, Drop)]
pub(crate) struct Text<'t> {
    pub(crate) bytes: &'t [u8],
    pub(crate) tokens: &'t [Token],
    pub(crate) kept: &'t [u32],
    ghost within: { All (IsWithin bytes.now) tokens.now },
    ghost inside: { ArePositionsIn tokens.now kept.now },
    ghost few: { length kept.now < 2 ^ 32 },
}

impl<'t> Text<'t> {
    ghost use Rattle.std.specs.Prelude.{◌≡◌};
    ghost use Rattle.c_syntax.specs.Scoping.{input_from};
    ghost use Rattle.c_unit.specs.Texts.{beginning_of};

    /// The place before the first kept token, in the file's scope.
    pub(crate) fn beginning(&self, alloc: Global) -> Source<'t>
        ensures { input_from result
            ≡ beginning_of self.now.bytes.now self.now.tokens.now self.now.kept.now }
    {
        Source {
            cursor: Cursor::new(self.bytes, self.tokens, self.kept),
            scopes: Scopes::new(alloc),
        }
    }
}
