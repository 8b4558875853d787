//! Functions without parameters (C11 6.9.1).

ghost use Rattle.std.specs.Prelude.{◌≡◌, []};
ghost use Rattle.first_grammar.specs.Reads.{Reads};
ghost use Rattle.first_grammar.specs.Grammar.{BodyAt, FunctionAt, HeadAt, ItemsAt, StatementsAt};

use crate::cursor::Cursor;
use crate::stop::GrammarStop;
use c_lexer::Kind;
use c_lexer::keyword::{KEY_INT, KEY_VOID};
use c_lexer::mark::{MARK_LEFT_BRACE, MARK_LEFT_PAREN, MARK_RIGHT_BRACE, MARK_RIGHT_PAREN};
use c_tree::{Block, BlockItem, Declarator, Item, Specs, two_marks};
use joern_io::List;

/// The tokens of `int NAME(void)`.
#[derive(Clone, Copy, Debug, PartialEq, Eq)]
pub(crate) struct Head {
    pub int: u32,
    pub name: u32,
    pub left: u32,
    pub void: u32,
    pub right: u32,
}

impl<'t> Cursor<'t> {
    /// Functions, up to the end of the file.
    pub(crate) fn items(&mut self) -> Result<List<Item>, GrammarStop>
        ensures { Reads ItemsAt self.old result self.new }
    {
        let mut items = List::new(self.alloc());
        while !self.is_done() {
            items.push(self.function()?)?;
        }
        Ok(items)
    }

    /// `int NAME(void)` and a body.
    fn function(&mut self) -> Result<Item, GrammarStop>
        ensures { Reads FunctionAt self.old result self.new }
    {
        let head = self.head()?;
        let body = self.body()?;
        let specs = Specs::basic(self.alloc(), head.int)?;
        let Head {
            name,
            left,
            void,
            right,
            ..
        } = head;
        let declarator = Declarator::parameterless(self.alloc(), name, left, void, right)?;
        Ok(Item::Define {
            specs,
            declarator,
            body,
        })
    }

    /// `int NAME(void)`.
    fn head(&mut self) -> Result<Head, GrammarStop>
        ensures { Reads HeadAt self.old result self.new }
    {
        let int = self.expect(Kind::Key(KEY_INT))?;
        let name = self.expect(Kind::Word)?;
        let left = self.expect(Kind::Mark(MARK_LEFT_PAREN))?;
        let void = self.expect(Kind::Key(KEY_VOID))?;
        let right = self.expect(Kind::Mark(MARK_RIGHT_PAREN))?;
        Ok(Head {
            int,
            name,
            left,
            void,
            right,
        })
    }

    /// `{`, statements and `}`.
    fn body(&mut self) -> Result<Block, GrammarStop>
        ensures { Reads BodyAt self.old result self.new }
    {
        let open = self.expect(Kind::Mark(MARK_LEFT_BRACE))?;
        let items = self.statements()?;
        let close = self.expect(Kind::Mark(MARK_RIGHT_BRACE))?;
        Ok(Block {
            items,
            marks: two_marks(self.alloc(), open, close)?,
        })
    }

    /// Statements, up to a `}`.
    fn statements(&mut self) -> Result<List<BlockItem>, GrammarStop>
        ensures { Reads StatementsAt self.old result self.new }
    {
        let mut items = List::new(self.alloc());
        while !self.is_at(Kind::Mark(MARK_RIGHT_BRACE)) {
            items.push(self.statement()?)?;
        }
        Ok(items)
    }
}
