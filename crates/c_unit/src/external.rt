//! External declarations (C11 6.9).
//!
//! A function's own parameters are in scope in the rest of its declarator and those of a
//! declaration are not, so that the same tokens have two readings up to `{` or another mark.
//! The one is tried that the marks ahead tell. Where it stops, the other is tried too, on a
//! source that is read anew up to this place, and the later stop counts.

ghost use Rattle.std.specs.Prelude.{◌≡◌, IfOk, Ok};
ghost use Rattle.reading.specs.Readers.{and_then};
ghost use Rattle.c_reading.specs.Reads.{Reads};
ghost use Rattle.c_syntax.specs.Scoping.{input_from};
ghost use Rattle.c_unit.specs.Beginnings.{is_definition_at};
ghost use Rattle.c_unit.specs.Gives.{GoesTo, Takes};
ghost use Rattle.c_unit.specs.Replays.{replays};
ghost use Rattle.c_unit.specs.Texts.{beginning_of};
ghost use Rattle.c_unit.specs.Tries as told;
ghost use Rattle.c_unit.specs.UnitReaders as spec;

use crate::beginning::is_definition_at;
use crate::forms::{External, Head};
use crate::heads::Heads;
use crate::text::Text;
use c_reading::Stop;
use c_stmt::{Below, read_block};
use c_syntax::Source;
use c_tree::Item;
use std::alloc::Global;

/// What the first reading tells.
#[derive(Drop)]
pub(crate) enum Tried<'t> {
    /// It counts.
    Counts(Result<External<'t>, Stop>),
    /// This token offends it, so that the other is tried.
    Offends(u32),
}

/// What it tells that it gave this.
fn told_by<'t>(first: Result<External<'t>, Stop>) -> Tried<'t>
    ensures { result ≡ told.tried first.entry }
{
    match first {
        Err(Stop::Offends { token }) => Tried::Offends(token),
        first => Tried::Counts(first),
    }
}

/// What the second gives, or the later of both stops.
fn later<'t>(token: u32, second: Result<External<'t>, Stop>) -> Result<External<'t>, Stop>
    ensures { result ≡ told.later_of token second.entry }
{
    match second {
        Err(Stop::Offends { token: other }) => Err(Stop::Offends {
            token: token.max(other),
        }),
        second => second,
    }
}

/// The rules of files, with the readers of what they are made of, and a file.
#[derive(Clone, Copy)]
pub(crate) struct Grammar<'t, B> {
    pub(crate) alloc: Global,
    /// How many levels are left.
    pub(crate) room: usize,
    pub(crate) below: B,
    pub(crate) text: Text<'t>,
}

impl<'t, B: Below + Heads + Copy> Grammar<'t, B> {
    /// A function definition (6.9.1).
    #[tactic(auto, unfolding(crate::specs::UnitReaders::definition))]
    fn definition(&self, source: &mut Source<'_>) -> Result<Item, Stop>
        ensures { Reads (spec.definition (B.readers self.now.below) (B.heads self.now.below)
            self.now.room (input_from source.old)) result (input_from source.new) }
    {
        let Head { specs, declarator } = self.below.head(self.alloc, self.room, source)?;
        let body = read_block(self.alloc, self.below, self.room, source)?;
        let function = Item::Define {
            specs,
            declarator,
            body,
        };
        self.below.end_function(function, source)
    }

    #[tactic(auto, unfolding(crate::specs::UnitReaders::declaration_item))]
    fn declaration_item(&self, source: &mut Source<'_>) -> Result<Item, Stop>
        ensures { Reads (spec.declaration_item (B.readers self.now.below) (B.heads self.now.below)
            self.now.room (input_from source.old)) result (input_from source.new) }
    {
        let declaration = self.below.declaration(self.alloc, self.room, source)?;
        Ok(Item::Declare(declaration))
    }

    /// One of the two.
    fn picked(&self, definition: bool, source: &mut Source<'_>) -> Result<Item, Stop>
        ensures { Reads (spec.picked (B.readers self.now.below) (B.heads self.now.below)
            self.now.room definition (input_from source.old)) result (input_from source.new) }
    {
        if definition {
            self.definition(source)
        } else {
            self.declaration_item(source)
        }
    }

    /// The source behind so many external declarations, by the way in which each is read.
    fn replayed(&self, definitions: &[bool]) -> Result<Source<'t>, Stop>
        ensures { GoesTo (replays (B.readers self.now.below) (B.heads self.now.below)
            self.now.room definitions.now (beginning_of self.now.text.bytes.now
            self.now.text.tokens.now self.now.text.kept.now)) result }
    {
        let mut source = self.text.beginning(self.alloc);
        for definition in definitions {
            let _item = self.picked(*definition, &mut source)?;
        }
        Ok(source)
    }

    /// The external declaration behind these, by the other reading.
    fn again(&self, definition: bool, definitions: &[bool]) -> Result<External<'t>, Stop>
        ensures reads { Takes (and_then (replays (B.readers self.now.below)
            (B.heads self.now.below) self.now.room definitions.now
            (beginning_of self.now.text.bytes.now self.now.text.tokens.now
            self.now.text.kept.now))
            (λ behind. spec.picked (B.readers self.now.below) (B.heads self.now.below)
            self.now.room definition)) result }
        ensures kept { IfOk result (λ taken. taken.definition ≡ definition) }
    {
        let mut source = self.replayed(definitions)?;
        let item = self.picked(definition, &mut source)?;
        Ok(External {
            item,
            definition,
            source,
        })
    }

    /// The external declaration that is next, by this reading.
    fn first(&self, definition: bool, source: Source<'t>) -> Result<External<'t>, Stop>
        ensures reads { Takes (spec.picked (B.readers self.now.below) (B.heads self.now.below)
            self.now.room definition (input_from source.entry)) result }
        ensures kept { IfOk result (λ taken. taken.definition ≡ definition) }
    {
        let mut source = source;
        let item = self.picked(definition, &mut source)?;
        Ok(External {
            item,
            definition,
            source,
        })
    }

    /// An external declaration. It is given how those before it were read.
    pub(crate) fn external(
        &self,
        source: Source<'t>,
        definitions: &[bool],
    ) -> Result<External<'t>, Stop>
        requires { replays (B.readers self.now.below) (B.heads self.now.below) self.now.room
            definitions.now (beginning_of self.now.text.bytes.now self.now.text.tokens.now
            self.now.text.kept.now) ≡ Ok (tt, input_from source) }
        ensures reads { Takes (spec.external (B.readers self.now.below) (B.heads self.now.below)
            self.now.room (is_definition_at self.now.text.tokens.now self.now.text.kept.now)
            (input_from source.entry)) result }
        ensures picks { IfOk result (λ taken. spec.picked (B.readers self.now.below)
            (B.heads self.now.below) self.now.room taken.definition (input_from source.entry)
            ≡ Ok (taken.item, input_from taken.source)) }
    {
        let at = source.cursor.at() as usize;
        let definition = is_definition_at(self.text.tokens, self.text.kept, at);
        match told_by(self.first(definition, source)) {
            Tried::Counts(first) => first,
            Tried::Offends(token) => later(token, self.again(!definition, definitions)),
        }
    }
}
