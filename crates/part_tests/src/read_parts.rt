//! Texts that are read as parts, in scopes that earlier texts left.

use c_lexer::laws::law_within_the_text;
use c_lexer::{SourceText, lex};
use c_parts::{read_declaration, read_expr, read_type_name};
use c_reading::{Cursor, Stop};
use c_tree::Scopes;
use line_marks::laws::law_kept_positions;
use line_marks::strip;
use std::alloc::Global;
use std::test::Fail;

/// What a text is read as.
#[derive(Clone, Copy)]
pub(crate) enum As {
    Expr,
    TypeName,
    Declaration,
    /// Declarations up to the end of the text.
    Declarations,
}

/// How many tokens of a text are read as one part, or why it is not read. The names that it
/// declares stay in the scopes, unless it is not read.
pub(crate) fn read_as(
    alloc: Global,
    part: As,
    bytes: &[u8],
    scopes: &mut Scopes,
) -> Result<Result<u32, Stop>, Fail> {
    law_within_the_text();
    law_kept_positions();
    let text = SourceText::new(bytes).ok_or("the text is too long")?;
    let tokens = lex(alloc, text)?;
    let kept = strip(alloc, &tokens)?;
    let mut cursor = Cursor::new(text.bytes, &tokens, &kept);
    let turns = match part {
        As::Declarations => kept.len(),
        _ => 1,
    };
    for _turn in 0..turns {
        let stop = match part {
            As::Expr => read_expr(alloc, &mut cursor, scopes).err(),
            As::TypeName => read_type_name(alloc, &mut cursor, scopes).err(),
            As::Declaration | As::Declarations => {
                read_declaration(alloc, &mut cursor, scopes).err()
            }
        };
        if let Some(stop) = stop {
            return Ok(Err(stop));
        }
        if cursor.at() as usize == kept.len() {
            break;
        }
    }
    Ok(Ok(cursor.at()))
}

/// What is read of a text behind these declarations.
pub(crate) fn read_behind(
    alloc: Global,
    declarations: &[u8],
    part: As,
    bytes: &[u8],
) -> Result<Result<u32, Stop>, Fail> {
    let mut scopes = Scopes::new(alloc);
    if read_as(alloc, As::Declarations, declarations, &mut scopes)?.is_err() {
        return Err("what stands before is not read".into());
    }
    read_as(alloc, part, bytes, &mut scopes)
}

/// The first piece so many times, the middle, and the last piece as often.
pub(crate) fn nested(
    alloc: Global,
    opening: &[u8],
    count: usize,
    middle: &[u8],
    closing: &[u8],
) -> Result<Vec<u8>, Fail> {
    let mut text = Vec::new(alloc);
    for _level in 0..count {
        text.extend_from_slice(opening)?;
    }
    text.extend_from_slice(middle)?;
    for _level in 0..count {
        text.extend_from_slice(closing)?;
    }
    Ok(text)
}

/// The one text and then the other.
pub(crate) fn joined(alloc: Global, first: &[u8], second: &[u8]) -> Result<Vec<u8>, Fail> {
    let mut text = Vec::new(alloc);
    text.extend_from_slice(first)?;
    text.extend_from_slice(second)?;
    Ok(text)
}
