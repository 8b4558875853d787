//! Statements of sums and assignments (C11 6.5.6, 6.5.16, 6.8.3).

ghost use Rattle.std.specs.Prelude.{◌≡◌, ◌++◌, ◌∷◌, [], OnOk};
ghost use Rattle.first_grammar.specs.Reads.{Reads};
ghost use Rattle.first_grammar.specs.Grammar.{BegunAt, OperandAt, AddendsAt, StatementAt};

use crate::cursor::Cursor;
use crate::stop::GrammarStop;
use c_lexer::Kind;
use c_lexer::mark::{MARK_EQUAL, MARK_PLUS, MARK_SEMICOLON};
use c_tree::{Assign, BlockItem, Cond, Expr, Prefixed, Stmt, list_of_one};
use joern_io::List;
use std::alloc::{AllocError, Global};

/// Adds an item to a list. The first takes memory for one, since most lists have no more.
fn add<T: Drop>(alloc: Global, list: &mut List<T>, item: T) -> Result<(), AllocError>
    ensures { OnOk result (list.new ≡ list.old ++ item ∷ []) }
{
    if list.items().is_empty() {
        *list = list_of_one(alloc, item)?;
    } else {
        list.push(item)?;
    }
    Ok(())
}

impl<'t> Cursor<'t> {
    /// An expression and `;`.
    pub(crate) fn statement(&mut self) -> Result<BlockItem, GrammarStop>
        ensures { Reads StatementAt self.old result self.new }
    {
        let (targets, first) = self.begin()?;
        let rest = self.addends()?;
        let semicolon = self.expect(Kind::Mark(MARK_SEMICOLON))?;
        let value = Cond::unconditional(self.alloc(), first, rest);
        let expr = Expr::sole(self.alloc(), Assign { targets, value })?;
        let stmt = Stmt::expression(self.alloc(), expr, semicolon)?;
        Ok(BlockItem::Do(stmt))
    }

    /// The targets with their operators, and the operand with which the value begins.
    fn begin(&mut self) -> Result<(List<(Prefixed, u32)>, Prefixed), GrammarStop>
        ensures { Reads BegunAt self.old result self.new }
    {
        let mut targets = List::new(self.alloc());
        let mut operand = self.operand()?;
        while let Some(equal) = self.take_if(Kind::Mark(MARK_EQUAL)) {
            add(self.alloc(), &mut targets, (operand, equal))?;
            operand = self.operand()?;
        }
        Ok((targets, operand))
    }

    /// Each `+` with the operand after it.
    fn addends(&mut self) -> Result<List<(u32, Prefixed)>, GrammarStop>
        ensures { Reads AddendsAt self.old result self.new }
    {
        let mut addends = List::new(self.alloc());
        while let Some(plus) = self.take_if(Kind::Mark(MARK_PLUS)) {
            let operand = self.operand()?;
            add(self.alloc(), &mut addends, (plus, operand))?;
        }
        Ok(addends)
    }

    /// A name or a number.
    fn operand(&mut self) -> Result<Prefixed, GrammarStop>
        ensures { Reads OperandAt self.old result self.new }
    {
        if let Some(name) = self.take_if(Kind::Word) {
            return Ok(Prefixed::name(self.alloc(), name));
        }
        let number = self.expect(Kind::Number)?;
        Ok(Prefixed::literal(self.alloc(), number)?)
    }
}
