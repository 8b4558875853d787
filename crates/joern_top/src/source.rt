//! A source, and the stages that it goes through.

ghost use Rattle.std.specs.Prelude.{◌≡◌, ◌≤◌, length, vec_len, IfOk, IfErr};
ghost use Rattle.c_lexer.specs.Reading.{AreTokensOf};
ghost use Rattle.line_marks.specs.Kept.{AreKept, items_at};
ghost use Rattle.first_grammar.specs.FirstUnit.{IsFirstUnit};
ghost use Rattle.joern_top.specs.Source.{IsStrippedTo};
ghost use Rattle.joern_top.specs.Reading.{IsReadSource, IsStopOf};
ghost use Rattle.joern_top.specs.Refusals.{IsRefusedAt};

use crate::refusal::Refusal;
use crate::status::Reason;
use ast_layer::Source;
use c_lexer::laws::law_within_the_text;
use c_lexer::{LexStop, MAX_FILE_BYTES, SourceText, Token, lex};
use c_tree::Unit;
use first_grammar::{GrammarStop, read_unit};
use joern_io::{Bytes, List};
use line_marks::laws::law_kept_positions;
use line_marks::{StripStop, places_of, strip};
use std::alloc::{AllocError, Global};

/// Why a source is not read.
#[derive(Clone, Copy, Debug)]
pub(crate) enum SourceStop {
    /// The rules refuse it.
    Refused(Refusal),
    /// Memory is wanting.
    Memory,
}

impl From<AllocError> for SourceStop {
    ghost use Rattle.std.specs.Prelude.{◌≡◌};
    ghost use Rattle.joern_top.specs.declared.source.SourceStop.TheVariants.{Memory};

    ghost from_gives = { λ _ stop. stop ≡ Memory };

    fn from(_failed: AllocError) -> SourceStop {
        SourceStop::Memory
    }
}

/// Reads a source. The first stage that refuses it decides.
pub(crate) fn read_source(alloc: Global, name: &str, bytes: Vec<u8>) -> Result<Source, SourceStop>
    requires within { vec_len bytes ≤ MAX_FILE_BYTES }
    ensures ok { IfOk result (IsReadSource name.now bytes.items) }
    ensures refused { IfErr result (IsStopOf bytes.items) }
{
    let text = SourceText { bytes: &bytes };
    let tokens = read_tokens(alloc, text)?;
    let kept = keep_tokens(alloc, text, &tokens)?;
    let places = places_of(alloc, text, &tokens, name)?;
    let unit = read_tree(alloc, text, &tokens, &kept)?;
    let name = Vec::from_slice(alloc, name.as_bytes())?;
    law_kept_positions();
    Ok(Source {
        name: Bytes::of(name),
        bytes: Bytes::of(bytes),
        tokens: List::of(tokens),
        kept: List::of(kept),
        places,
        unit,
    })
}

/// The tokens of a text.
fn read_tokens(alloc: Global, text: SourceText<'_>) -> Result<Vec<Token>, SourceStop>
    ensures ok { IfOk result (λ tokens. AreTokensOf text.entry.bytes.now tokens.items) }
    ensures refused { IfErr result (IsStopOf text.entry.bytes.now) }
{
    match lex(alloc, text) {
        Ok(tokens) => Ok(tokens),
        Err(LexStop::BadByte { at }) => Err(refuse(text, at, Reason::Byte)),
        Err(LexStop::Unclosed { at }) => Err(refuse(text, at, Reason::Unclosed)),
        Err(LexStop::Memory) => Err(SourceStop::Memory),
    }
}

/// The positions of the tokens of a text that the parser keeps.
fn keep_tokens(
    alloc: Global,
    text: SourceText<'_>,
    tokens: &[Token],
) -> Result<Vec<u32>, SourceStop>
    requires tokens { AreTokensOf text.bytes.now tokens.now }
    ensures ok { IfOk result (λ kept. AreKept tokens.now kept.items) }
    ensures refused { IfErr result (IsStopOf text.entry.bytes.now) }
{
    law_within_the_text();
    match strip(alloc, tokens) {
        Ok(kept) => Ok(kept),
        Err(StripStop::BadAttribute { token }) => {
            let at = tokens[token as usize].start;
            Err(refuse(text, at, Reason::Attribute))
        }
        Err(StripStop::Memory) => Err(SourceStop::Memory),
    }
}

/// The tree of the kept tokens of a text.
fn read_tree(
    alloc: Global,
    text: SourceText<'_>,
    tokens: &[Token],
    kept: &[u32],
) -> Result<Unit, SourceStop>
    requires stripped { IsStrippedTo text.bytes.now tokens.now kept.now }
    ensures ok { IfOk result (IsFirstUnit text.entry.bytes.now (items_at tokens.now kept.now)) }
    ensures refused { IfErr result (IsStopOf text.entry.bytes.now) }
{
    law_within_the_text();
    law_kept_positions();
    match read_unit(alloc, text, tokens, kept) {
        Ok(unit) => Ok(unit),
        Err(GrammarStop::Unbuilt) => Err(refuse(text, 0, Reason::Unbuilt)),
        Err(GrammarStop::Memory) => Err(SourceStop::Memory),
    }
}

/// The stop at a byte at which the rules refuse the text.
fn refuse(text: SourceText<'_>, at: u32, reason: Reason) -> SourceStop
    requires refused { IsRefusedAt text.bytes.now at reason }
    requires inside { at ≤ length text.bytes.now }
    ensures { IsStopOf text.entry.bytes.now result }
{
    SourceStop::Refused(Refusal::new(text, at, reason))
}
