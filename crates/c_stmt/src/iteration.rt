//! Iteration statements (C11 6.8.5).

ghost use Rattle.c_stmt.specs.Gives.{Gives};
ghost use Rattle.c_stmt.specs.StatementReaders as spec;

use crate::ahead::is_at_expr;
use crate::forms::{Arm, Ended, Kinded, MaybeExpr, for_head, for_of, three_marks};
use crate::grammar::{Below, Grammar, Inside};
use crate::scopes::{enter, leave};
use c_lexer::keyword::{KEY_DO, KEY_FOR, KEY_WHILE};
use c_lexer::mark::{MARK_LEFT_PAREN, MARK_RIGHT_PAREN, MARK_SEMICOLON};
use c_reading::Stop;
use c_syntax::Source;
use c_tree::{ForInit, StmtKind, list_of_one};
use joern_io::{Boxed, List};

impl<B: Below, I: Inside> Grammar<B, I> {
    #[tactic(auto, unfolding(crate::specs::StatementReaders::while_inside))]
    pub(crate) fn while_inside(&self, key: u32, source: &mut Source<'_>) -> Result<Kinded, Stop>
        requires { I.can_read self.now.inside self.now.room }
        ensures { Gives (λ below room inside. spec.while_inside below room inside key)
            (B.readers self.now.below) self.now.room (I.readers self.now.inside)
            source.old result source.new }
    {
        let Arm {
            cond,
            body,
            left,
            right,
        } = self.arm(source)?;
        let Ended { stmt, dangles } = body;
        let marks = three_marks(self.alloc, key, left, right)?;
        Ok(Kinded {
            kind: StmtKind::While(cond, Boxed::new(self.alloc, stmt)?, marks),
            dangles,
        })
    }

    /// 6.8.5.1.
    #[tactic(auto, unfolding(crate::specs::StatementReaders::while_))]
    pub(crate) fn while_(&self, source: &mut Source<'_>) -> Result<Kinded, Stop>
        requires { I.can_read self.now.inside self.now.room }
        ensures { Gives spec.while_
            (B.readers self.now.below) self.now.room (I.readers self.now.inside)
            source.old result source.new }
    {
        let key = source.expect_key(KEY_WHILE, self.room)?;
        enter(source)?;
        let kinded = self.while_inside(key, source)?;
        leave(kinded, source)
    }

    #[tactic(auto, unfolding(crate::specs::StatementReaders::do_inside))]
    pub(crate) fn do_inside(&self, key: u32, source: &mut Source<'_>) -> Result<Kinded, Stop>
        requires { I.can_read self.now.inside self.now.room }
        ensures { Gives (λ below room inside. spec.do_inside below room inside key)
            (B.readers self.now.below) self.now.room (I.readers self.now.inside)
            source.old result source.new }
    {
        let Ended { stmt, dangles: _ } = self.body(source)?;
        let again = source.expect_key(KEY_WHILE, self.room)?;
        let left = source.expect_mark(MARK_LEFT_PAREN, self.deeper())?;
        let cond = self.deeper_expr(source)?;
        let right = source.expect_mark(MARK_RIGHT_PAREN, self.deeper())?;
        let semicolon = source.expect_mark(MARK_SEMICOLON, self.room)?;
        let mut marks = Vec::with_capacity(self.alloc, 5)?;
        marks.push(key)?;
        marks.push(again)?;
        marks.push(left)?;
        marks.push(right)?;
        marks.push(semicolon)?;
        Ok(Kinded {
            kind: StmtKind::DoWhile(Boxed::new(self.alloc, stmt)?, cond, List::of(marks)),
            dangles: false,
        })
    }

    /// 6.8.5.2.
    #[tactic(auto, unfolding(crate::specs::StatementReaders::do_))]
    pub(crate) fn do_(&self, source: &mut Source<'_>) -> Result<Kinded, Stop>
        requires { I.can_read self.now.inside self.now.room }
        ensures { Gives spec.do_
            (B.readers self.now.below) self.now.room (I.readers self.now.inside)
            source.old result source.new }
    {
        let key = source.expect_key(KEY_DO, self.room)?;
        enter(source)?;
        let kinded = self.do_inside(key, source)?;
        leave(kinded, source)
    }

    #[tactic(auto, unfolding(crate::specs::StatementReaders::no_init))]
    pub(crate) fn no_init(&self, source: &mut Source<'_>) -> Result<ForInit, Stop>
        ensures { Gives spec.no_init
            (B.readers self.now.below) self.now.room (I.readers self.now.inside)
            source.old result source.new }
    {
        let semicolon = source.expect_mark(MARK_SEMICOLON, self.deeper())?;
        Ok(ForInit::Nothing(list_of_one(self.alloc, semicolon)?))
    }

    #[tactic(auto, unfolding(crate::specs::StatementReaders::value_init))]
    pub(crate) fn value_init(&self, source: &mut Source<'_>) -> Result<ForInit, Stop>
        ensures { Gives spec.value_init
            (B.readers self.now.below) self.now.room (I.readers self.now.inside)
            source.old result source.new }
    {
        let expr = self.deeper_expr(source)?;
        let semicolon = source.expect_mark(MARK_SEMICOLON, self.deeper())?;
        Ok(ForInit::Value(expr, list_of_one(self.alloc, semicolon)?))
    }

    #[tactic(auto, unfolding(crate::specs::StatementReaders::declared_init))]
    pub(crate) fn declared_init(&self, source: &mut Source<'_>) -> Result<ForInit, Stop>
        ensures { Gives spec.declared_init
            (B.readers self.now.below) self.now.room (I.readers self.now.inside)
            source.old result source.new }
    {
        let declaration = self.deeper_declaration(source)?;
        Ok(ForInit::Declare(declaration))
    }

    /// What stands before the second part of a `for`.
    #[tactic(auto, unfolding(crate::specs::StatementReaders::for_init))]
    pub(crate) fn for_init(&self, source: &mut Source<'_>) -> Result<ForInit, Stop>
        ensures { Gives spec.for_init
            (B.readers self.now.below) self.now.room (I.readers self.now.inside)
            source.old result source.new }
    {
        if source.is_at_mark(MARK_SEMICOLON) {
            self.no_init(source)
        } else if is_at_expr(source) {
            self.value_init(source)
        } else {
            self.declared_init(source)
        }
    }

    #[tactic(auto, unfolding(crate::specs::StatementReaders::nothing_to))]
    pub(crate) fn nothing_to(&self, number: u8, source: &mut Source<'_>) -> Result<MaybeExpr, Stop>
        ensures { Gives (λ below room inside. spec.nothing_to below room inside number)
            (B.readers self.now.below) self.now.room (I.readers self.now.inside)
            source.old result source.new }
    {
        let mark = source.expect_mark(number, self.deeper())?;
        Ok(MaybeExpr { expr: None, mark })
    }

    #[tactic(auto, unfolding(crate::specs::StatementReaders::expr_to))]
    pub(crate) fn expr_to(&self, number: u8, source: &mut Source<'_>) -> Result<MaybeExpr, Stop>
        ensures { Gives (λ below room inside. spec.expr_to below room inside number)
            (B.readers self.now.below) self.now.room (I.readers self.now.inside)
            source.old result source.new }
    {
        let expr = Some(self.deeper_expr(source)?);
        let mark = source.expect_mark(number, self.deeper())?;
        Ok(MaybeExpr { expr, mark })
    }

    /// An expression or nothing, up to the mark.
    #[tactic(auto, unfolding(crate::specs::StatementReaders::maybe_to))]
    pub(crate) fn maybe_to(&self, number: u8, source: &mut Source<'_>) -> Result<MaybeExpr, Stop>
        ensures { Gives (λ below room inside. spec.maybe_to below room inside number)
            (B.readers self.now.below) self.now.room (I.readers self.now.inside)
            source.old result source.new }
    {
        if source.is_at_mark(number) {
            self.nothing_to(number, source)
        } else {
            self.expr_to(number, source)
        }
    }

    #[tactic(auto, unfolding(crate::specs::StatementReaders::for_inside))]
    pub(crate) fn for_inside(&self, key: u32, source: &mut Source<'_>) -> Result<Kinded, Stop>
        requires { I.can_read self.now.inside self.now.room }
        ensures { Gives (λ below room inside. spec.for_inside below room inside key)
            (B.readers self.now.below) self.now.room (I.readers self.now.inside)
            source.old result source.new }
    {
        let left = source.expect_mark(MARK_LEFT_PAREN, self.deeper())?;
        let init = self.for_init(source)?;
        let cond = self.maybe_to(MARK_SEMICOLON, source)?;
        let step = self.maybe_to(MARK_RIGHT_PAREN, source)?;
        let body = self.body(source)?;
        let head = for_head(self.alloc, key, left, init, cond, step)?;
        Ok(for_of(self.alloc, head, body)?)
    }

    /// 6.8.5.3.
    #[tactic(auto, unfolding(crate::specs::StatementReaders::for_))]
    pub(crate) fn for_(&self, source: &mut Source<'_>) -> Result<Kinded, Stop>
        requires { I.can_read self.now.inside self.now.room }
        ensures { Gives spec.for_
            (B.readers self.now.below) self.now.room (I.readers self.now.inside)
            source.old result source.new }
    {
        let key = source.expect_key(KEY_FOR, self.room)?;
        enter(source)?;
        let kinded = self.for_inside(key, source)?;
        leave(kinded, source)
    }
}
