//! A source file as the pass reads it: tokens by their numbers, and places.

ghost use Rattle.std.specs.Prelude.{◌≡◌, ◌≤◌, [], length, slice_get, slice_range};
ghost use Rattle.std.specs.Option.{unwrap_or};
ghost use Rattle.std.proofs.Props.{props};
ghost use Rattle.c_lexer.specs.declared.source_text.TheConstants.{MAX_FILE_BYTES};
ghost use Rattle.line_marks.specs.Kept.{ArePositionsIn};

use c_lexer::Token;
use c_tree::Unit;
use joern_io::{Bytes, List};
use line_marks::{Place, Places, item_at};

/// A source file that was read: its name, its bytes, its tokens, those among them that are kept for
/// the parser, the presumed place of each token, and the tree.
///
/// A token's number, by which the tree names it, is its position among the kept ones.
#[derive(Drop)]
pub struct Source {
    /// The name of the file itself.
    pub name: Bytes,
    pub bytes: Bytes,
    /// All tokens of the bytes.
    pub tokens: List<Token>,
    /// The positions of the kept tokens among all, in their order.
    pub kept: List<u32>,
    /// The presumed place of each token, at the token's position among all.
    pub places: Places,
    /// The tree of the kept tokens.
    pub unit: Unit,
    pub ghost within: { length bytes ≤ MAX_FILE_BYTES },
    pub ghost inside: { ArePositionsIn tokens kept } by { Prim.hlevel props },
    pub ghost one_each: { length places.places ≡ length tokens },
}

impl Source {
    ghost use Rattle.std.specs.Option.{option_map};
    ghost use Rattle.ast_layer.specs.Source.{file_of, place_of, presumed_of, token_of};
    ghost use Rattle.ast_layer.specs.Source.{presumed_file_at, presumed_line_at, spelling_at};

    /// The token of this number, if there is one.
    pub(crate) fn token(&self, number: Option<u32>) -> Option<Token>
        ensures { result ≡ token_of (file_of self.now) number }
    {
        match number {
            Some(number) => item_at(self.tokens.items(), self.kept.items(), number as usize),
            None => None,
        }
    }

    /// The place of a token, if there is one.
    fn place(&self, number: Option<u32>) -> Option<Place>
        ensures { option_map (presumed_of self.now.places.files) result ≡
            place_of (file_of self.now) number }
    {
        let places = self.places.places.items();
        match number {
            Some(number) => item_at(places, self.kept.items(), number as usize),
            None => None,
        }
    }

    /// The line of a token, and 0 where there is none.
    pub(crate) fn line(&self, number: Option<u32>) -> u32
        ensures { result ≡ presumed_line_at (file_of self.now) number }
    {
        match self.place(number) {
            Some(place) => place.line,
            None => 0,
        }
    }

    /// The name of the file of a token, and none where there is no token.
    pub(crate) fn filename(&self, number: Option<u32>) -> &[u8]
        ensures { result.now ≡ presumed_file_at (file_of self.now) number }
    {
        match self.place(number) {
            Some(place) => name_at(self.places.files.items(), place.file),
            None => &[],
        }
    }

    /// The bytes of a token, and none where there is no token.
    pub(crate) fn spelling(&self, number: Option<u32>) -> &[u8]
        ensures { result.now ≡ spelling_at (file_of self.now) number }
    {
        match self.token(number) {
            Some(token) => between(self.bytes.items(), token.start as usize, token.end as usize),
            None => &[],
        }
    }
}

/// The name at a position, and none where there is no name.
fn name_at(files: &[Bytes], file: u32) -> &[u8]
    ensures { result.now ≡ unwrap_or (slice_get files.now file) [] }
{
    match files.get(file as usize) {
        Some(name) => name.items(),
        None => &[],
    }
}

/// The bytes between two offsets, as far as there are any.
fn between(bytes: &[u8], start: usize, end: usize) -> &[u8]
    ensures { result.now ≡ slice_range bytes.now start end }
{
    let end = end.min(bytes.len());
    let start = start.min(end);
    &bytes[start..end]
}
