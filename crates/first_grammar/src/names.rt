//! The names of a file's functions (C11 6.9p3).

ghost use Rattle.std.specs.Prelude.{◌≡◌, ◌≤◌, ◌<◌, ◌↔◌, IfOk, IsTrue, length, map, slice_range};
ghost use Rattle.std.specs.List.{All};
ghost use Rattle.c_lexer.specs.Reading.{IsWithin};
ghost use Rattle.line_marks.specs.Kept.{ArePositionsIn, items_at};
ghost use Rattle.first_grammar.specs.FirstUnit.{Differ, name_of, name_of_core};

use c_lexer::Token;
use c_tree::{Core, Item};
use line_marks::item_at;
use std::alloc::{AllocError, Global};
use std::collections::BTreeSet;

/// The names of the functions, in the order of the source.
pub(crate) fn function_names<'b>(
    alloc: Global,
    bytes: &'b [u8],
    tokens: &[Token],
    kept: &[u32],
    items: &[Item],
) -> Result<Vec<&'b [u8]>, AllocError>
    requires within { All (IsWithin bytes.now) tokens.now }
    requires inside { ArePositionsIn tokens.now kept.now }
    ensures { IfOk result (λ names. map (λ name. name.now) names.items ≡
        map (name_of bytes.entry.now (items_at tokens.now kept.now)) items.now) }
{
    let mut names = Vec::new(alloc);
    for item in items {
        names.push(name_in(bytes, tokens, kept, item))?;
    }
    Ok(names)
}

/// The name of a function, or none where the item is no function.
fn name_in<'b>(bytes: &'b [u8], tokens: &[Token], kept: &[u32], item: &Item) -> &'b [u8]
    requires within { All (IsWithin bytes.now) tokens.now }
    requires inside { ArePositionsIn tokens.now kept.now }
    ensures { result.now ≡ name_of bytes.entry.now (items_at tokens.now kept.now) item.now }
{
    match item {
        Item::Define { declarator, .. } => text_of_core(bytes, tokens, kept, &declarator.core),
        Item::Declare(_) => &[],
    }
}

/// The bytes of the name in the core of a declarator, or none where no name stands there.
fn text_of_core<'b>(bytes: &'b [u8], tokens: &[Token], kept: &[u32], core: &Core) -> &'b [u8]
    requires within { All (IsWithin bytes.now) tokens.now }
    requires inside { ArePositionsIn tokens.now kept.now }
    ensures { result.now ≡ name_of_core bytes.entry.now (items_at tokens.now kept.now) core.now }
{
    match core {
        Core::Name(number) => match item_at(tokens, kept, *number as usize) {
            Some(token) => text(bytes, &token),
            None => &[],
        },
        Core::Group(..) | Core::Empty => &[],
    }
}

/// The bytes of a token.
fn text<'b>(bytes: &'b [u8], token: &Token) -> &'b [u8]
    requires forward { token.now.start ≤ token.now.end }
    requires within { token.now.end ≤ length bytes.now }
    ensures { result.now ≡ slice_range bytes.entry.now token.now.start token.now.end }
{
    &bytes[token.start as usize..token.end as usize]
}

/// Whether no two names are the same.
pub(crate) fn names_differ(alloc: Global, names: &[&[u8]]) -> Result<bool, AllocError>
    ensures { IfOk result (λ differ. IsTrue differ ↔ Differ (map (λ name. name.now) names.now)) }
{
    let mut seen: BTreeSet<&[u8]> = BTreeSet::new(alloc);
    for name in names {
        if !seen.insert(*name)? {
            return Ok(false);
        }
    }
    Ok(true)
}
