//! Static assertions (C11 6.7.10).

ghost use Rattle.std.specs.Prelude.{◌-◌, Some, false};
ghost use Rattle.c_specifiers.specs.Gives.{Gives};
ghost use Rattle.c_declarations.specs.DeclarationReaders as spec;

use crate::forms::assertion_marks;
use c_lexer::keyword::KEY_STATIC_ASSERT;
use c_lexer::mark::{MARK_COMMA, MARK_LEFT_PAREN, MARK_RIGHT_PAREN, MARK_SEMICOLON};
use c_reading::Stop;
use c_specifiers::{Grammar, Inside};
use c_syntax::{AssignForm, Source};
use c_tree::{Declaration, Expr, list_of_one};
use joern_io::List;

#[tactic(auto, unfolding(crate::specs::DeclarationReaders::more_text))]
pub(crate) fn more_text<N: Inside>(
    grammar: &Grammar<N>,
    texts: List<u32>,
    source: &mut Source<'_>,
) -> Result<List<u32>, Stop>
    requires { N.can_read grammar.now.inside grammar.now.room }
    ensures { Gives (λ room inner. spec.more_text room inner texts)
        grammar.now.room (N.readers grammar.now.inside) source.old result source.new }
{
    let mut texts = texts;
    texts.push(source.expect_text(grammar.deeper())?)?;
    Ok(texts)
}

pub(crate) fn more_texts<N: Inside>(
    grammar: &Grammar<N>,
    texts: List<u32>,
    source: &mut Source<'_>,
) -> Result<List<u32>, Stop>
    requires { N.can_read grammar.now.inside grammar.now.room }
    ensures { Gives (λ room inner. spec.more_texts room inner texts)
        grammar.now.room (N.readers grammar.now.inside) source.old result source.new }
{
    let mut texts = texts;
    for _turn in 0..source.left() {
        if !source.is_at_text() {
            return Ok(texts);
        }
        texts = more_text(grammar, texts, source)?;
    }
    Ok(texts)
}

/// String literals, which are one (6.4.5).
#[tactic(auto, unfolding(crate::specs::DeclarationReaders::texts))]
pub(crate) fn texts<N: Inside>(
    grammar: &Grammar<N>,
    source: &mut Source<'_>,
) -> Result<List<u32>, Stop>
    requires { N.can_read grammar.now.inside grammar.now.room }
    ensures { Gives spec.texts
        grammar.now.room (N.readers grammar.now.inside) source.old result source.new }
{
    let text = source.expect_text(grammar.deeper())?;
    more_texts(grammar, list_of_one(grammar.alloc, text)?, source)
}

/// 6.7.10.
#[tactic(auto, unfolding(crate::specs::DeclarationReaders::assertion))]
pub(crate) fn assertion<N: Inside>(
    grammar: &Grammar<N>,
    source: &mut Source<'_>,
) -> Result<Declaration, Stop>
    requires { N.can_read grammar.now.inside grammar.now.room }
    ensures { Gives spec.assertion
        grammar.now.room (N.readers grammar.now.inside) source.old result source.new }
{
    let key = source.expect_key(KEY_STATIC_ASSERT, grammar.room)?;
    let left = source.expect_mark(MARK_LEFT_PAREN, grammar.deeper())?;
    let cond = grammar.inner_assign(AssignForm::Constant, source)?;
    let comma = source.expect_mark(MARK_COMMA, grammar.deeper())?;
    let text = texts(grammar, source)?;
    let right = source.expect_mark(MARK_RIGHT_PAREN, grammar.deeper())?;
    let semicolon = source.expect_mark(MARK_SEMICOLON, grammar.room)?;
    let marks = assertion_marks(grammar.alloc, key, left, comma, right, semicolon)?;
    let cond = Expr::sole(grammar.alloc, cond)?;
    Ok(Declaration::Assert { cond, text, marks })
}
