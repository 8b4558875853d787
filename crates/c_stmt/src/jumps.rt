//! Jump statements (C11 6.8.6), and expression statements (6.8.3).

ghost use Rattle.c_stmt.specs.Gives.{Gives};
ghost use Rattle.c_stmt.specs.StatementReaders as spec;

use crate::forms::Kinded;
use crate::grammar::{Below, Grammar, Inside};
use c_lexer::keyword::{KEY_BREAK, KEY_CONTINUE, KEY_GOTO, KEY_RETURN};
use c_lexer::mark::MARK_SEMICOLON;
use c_reading::Stop;
use c_syntax::Source;
use c_tree::{StmtKind, list_of_one, two_marks};

impl<B: Below, I: Inside> Grammar<B, I> {
    #[tactic(auto, unfolding(crate::specs::StatementReaders::empty))]
    pub(crate) fn empty(&self, source: &mut Source<'_>) -> Result<Kinded, Stop>
        ensures { Gives spec.empty
            (B.readers self.now.below) self.now.room (I.readers self.now.inside)
            source.old result source.new }
    {
        let semicolon = source.expect_mark(MARK_SEMICOLON, self.room)?;
        Ok(Kinded {
            kind: StmtKind::Empty(list_of_one(self.alloc, semicolon)?),
            dangles: false,
        })
    }

    #[tactic(auto, unfolding(crate::specs::StatementReaders::value))]
    pub(crate) fn value(&self, source: &mut Source<'_>) -> Result<Kinded, Stop>
        ensures { Gives spec.value
            (B.readers self.now.below) self.now.room (I.readers self.now.inside)
            source.old result source.new }
    {
        let expr = self.expr(source)?;
        let semicolon = source.expect_mark(MARK_SEMICOLON, self.room)?;
        Ok(Kinded {
            kind: StmtKind::Value(expr, list_of_one(self.alloc, semicolon)?),
            dangles: false,
        })
    }

    #[tactic(auto, unfolding(crate::specs::StatementReaders::break_))]
    pub(crate) fn break_(&self, source: &mut Source<'_>) -> Result<Kinded, Stop>
        ensures { Gives spec.break_
            (B.readers self.now.below) self.now.room (I.readers self.now.inside)
            source.old result source.new }
    {
        let key = source.expect_key(KEY_BREAK, self.room)?;
        let semicolon = source.expect_mark(MARK_SEMICOLON, self.room)?;
        Ok(Kinded {
            kind: StmtKind::Break(two_marks(self.alloc, key, semicolon)?),
            dangles: false,
        })
    }

    #[tactic(auto, unfolding(crate::specs::StatementReaders::continue_))]
    pub(crate) fn continue_(&self, source: &mut Source<'_>) -> Result<Kinded, Stop>
        ensures { Gives spec.continue_
            (B.readers self.now.below) self.now.room (I.readers self.now.inside)
            source.old result source.new }
    {
        let key = source.expect_key(KEY_CONTINUE, self.room)?;
        let semicolon = source.expect_mark(MARK_SEMICOLON, self.room)?;
        Ok(Kinded {
            kind: StmtKind::Continue(two_marks(self.alloc, key, semicolon)?),
            dangles: false,
        })
    }

    /// Any name may be that of a label (6.2.3).
    #[tactic(auto, unfolding(crate::specs::StatementReaders::goto_))]
    pub(crate) fn goto_(&self, source: &mut Source<'_>) -> Result<Kinded, Stop>
        ensures { Gives spec.goto_
            (B.readers self.now.below) self.now.room (I.readers self.now.inside)
            source.old result source.new }
    {
        let key = source.expect_key(KEY_GOTO, self.room)?;
        let name = source.expect_any_name(self.room)?;
        let semicolon = source.expect_mark(MARK_SEMICOLON, self.room)?;
        Ok(Kinded {
            kind: StmtKind::Goto(name, two_marks(self.alloc, key, semicolon)?),
            dangles: false,
        })
    }

    #[tactic(auto, unfolding(crate::specs::StatementReaders::return_nothing))]
    pub(crate) fn return_nothing(&self, key: u32, source: &mut Source<'_>) -> Result<Kinded, Stop>
        ensures { Gives (λ below room inside. spec.return_nothing below room inside key)
            (B.readers self.now.below) self.now.room (I.readers self.now.inside)
            source.old result source.new }
    {
        let semicolon = source.expect_mark(MARK_SEMICOLON, self.room)?;
        Ok(Kinded {
            kind: StmtKind::Return(None, two_marks(self.alloc, key, semicolon)?),
            dangles: false,
        })
    }

    #[tactic(auto, unfolding(crate::specs::StatementReaders::return_value))]
    pub(crate) fn return_value(&self, key: u32, source: &mut Source<'_>) -> Result<Kinded, Stop>
        ensures { Gives (λ below room inside. spec.return_value below room inside key)
            (B.readers self.now.below) self.now.room (I.readers self.now.inside)
            source.old result source.new }
    {
        let expr = self.expr(source)?;
        let semicolon = source.expect_mark(MARK_SEMICOLON, self.room)?;
        Ok(Kinded {
            kind: StmtKind::Return(Some(expr), two_marks(self.alloc, key, semicolon)?),
            dangles: false,
        })
    }

    #[tactic(auto, unfolding(crate::specs::StatementReaders::return_))]
    pub(crate) fn return_(&self, source: &mut Source<'_>) -> Result<Kinded, Stop>
        ensures { Gives spec.return_
            (B.readers self.now.below) self.now.room (I.readers self.now.inside)
            source.old result source.new }
    {
        let key = source.expect_key(KEY_RETURN, self.room)?;
        if source.is_at_mark(MARK_SEMICOLON) {
            self.return_nothing(key, source)
        } else {
            self.return_value(key, source)
        }
    }
}
