//! Selection statements (C11 6.8.4).

ghost use Rattle.c_stmt.specs.Gives.{Gives};
ghost use Rattle.c_stmt.specs.StatementReaders as spec;

use crate::forms::{Arm, Arms, Ended, Kinded, three_marks, without_else};
use crate::grammar::{Below, Grammar, Inside};
use crate::scopes::{enter, leave};
use c_lexer::keyword::{KEY_ELSE, KEY_IF, KEY_SWITCH};
use c_lexer::mark::{MARK_LEFT_PAREN, MARK_RIGHT_PAREN};
use c_reading::Stop;
use c_syntax::Source;
use c_tree::{StmtKind, list_of_one};
use joern_io::{Boxed, List};
use reading::Turn;

impl<B: Below, I: Inside> Grammar<B, I> {
    /// A condition in parentheses, and its body.
    #[tactic(auto, unfolding(crate::specs::StatementReaders::arm))]
    pub(crate) fn arm(&self, source: &mut Source<'_>) -> Result<Arm, Stop>
        requires { I.can_read self.now.inside self.now.room }
        ensures { Gives spec.arm
            (B.readers self.now.below) self.now.room (I.readers self.now.inside)
            source.old result source.new }
    {
        let left = source.expect_mark(MARK_LEFT_PAREN, self.deeper())?;
        let cond = self.deeper_expr(source)?;
        let right = source.expect_mark(MARK_RIGHT_PAREN, self.deeper())?;
        let body = self.body(source)?;
        Ok(Arm {
            cond,
            body,
            left,
            right,
        })
    }

    #[tactic(auto, unfolding(crate::specs::StatementReaders::next_arm))]
    pub(crate) fn next_arm(
        &self,
        arms: Arms,
        other: u32,
        source: &mut Source<'_>,
    ) -> Result<Turn<Arms, Kinded>, Stop>
        ensures { Gives (λ below room inside. spec.next_arm below room inside arms other)
            (B.readers self.now.below) self.now.room (I.readers self.now.inside)
            source.old result source.new }
    {
        let Arms { list, mut marks } = arms;
        let key = source.expect_key(KEY_IF, self.room)?;
        marks.push(other)?;
        marks.push(key)?;
        Ok(Turn::Again(Arms { list, marks }))
    }

    #[tactic(auto, unfolding(crate::specs::StatementReaders::last_body))]
    pub(crate) fn last_body(
        &self,
        arms: Arms,
        other: u32,
        source: &mut Source<'_>,
    ) -> Result<Turn<Arms, Kinded>, Stop>
        requires { I.can_read self.now.inside self.now.room }
        ensures { Gives (λ below room inside. spec.last_body below room inside arms other)
            (B.readers self.now.below) self.now.room (I.readers self.now.inside)
            source.old result source.new }
    {
        let Ended { stmt, dangles } = self.body(source)?;
        let Arms { list, mut marks } = arms;
        marks.push(other)?;
        let other = Some(Boxed::new(self.alloc, stmt)?);
        Ok(Turn::Done(Kinded {
            kind: StmtKind::If {
                arms: list,
                other,
                marks,
            },
            dangles,
        }))
    }

    /// An `if` behind `else` is a further arm.
    #[tactic(auto, unfolding(crate::specs::StatementReaders::else_part))]
    pub(crate) fn else_part(
        &self,
        arms: Arms,
        source: &mut Source<'_>,
    ) -> Result<Turn<Arms, Kinded>, Stop>
        requires { I.can_read self.now.inside self.now.room }
        ensures { Gives (λ below room inside. spec.else_part below room inside arms)
            (B.readers self.now.below) self.now.room (I.readers self.now.inside)
            source.old result source.new }
    {
        let other = source.expect_key(KEY_ELSE, self.room)?;
        if source.is_at_key(KEY_IF) {
            self.next_arm(arms, other, source)
        } else {
            self.last_body(arms, other, source)
        }
    }

    /// Behind a body that ends in an `if` without `else` none stands: it would belong to that (p3).
    pub(crate) fn behind_arm(
        &self,
        dangles: bool,
        arms: Arms,
        source: &mut Source<'_>,
    ) -> Result<Turn<Arms, Kinded>, Stop>
        requires { I.can_read self.now.inside self.now.room }
        ensures { Gives (λ below room inside. spec.behind_arm below room inside dangles arms)
            (B.readers self.now.below) self.now.room (I.readers self.now.inside)
            source.old result source.new }
    {
        if dangles {
            Ok(Turn::Done(without_else(arms)))
        } else if source.is_at_key(KEY_ELSE) {
            self.else_part(arms, source)
        } else {
            Ok(Turn::Done(without_else(arms)))
        }
    }

    #[tactic(auto, unfolding(crate::specs::StatementReaders::arm_turn))]
    pub(crate) fn arm_turn(
        &self,
        arms: Arms,
        source: &mut Source<'_>,
    ) -> Result<Turn<Arms, Kinded>, Stop>
        requires { I.can_read self.now.inside self.now.room }
        ensures { Gives (λ below room inside. spec.arm_turn below room inside arms)
            (B.readers self.now.below) self.now.room (I.readers self.now.inside)
            source.old result source.new }
    {
        let Arm {
            cond,
            body,
            left,
            right,
        } = self.arm(source)?;
        let Ended { stmt, dangles } = body;
        let Arms {
            mut list,
            mut marks,
        } = arms;
        list.push((cond, stmt))?;
        marks.push(left)?;
        marks.push(right)?;
        self.behind_arm(dangles, Arms { list, marks }, source)
    }

    pub(crate) fn all_arms(&self, arms: Arms, source: &mut Source<'_>) -> Result<Kinded, Stop>
        requires { I.can_read self.now.inside self.now.room }
        ensures { Gives (λ below room inside. spec.all_arms below room inside arms)
            (B.readers self.now.below) self.now.room (I.readers self.now.inside)
            source.old result source.new }
    {
        let mut arms = arms;
        for _turn in 0..source.left() {
            match self.arm_turn(arms, source)? {
                Turn::Again(more) => arms = more,
                Turn::Done(all) => return Ok(all),
            }
        }
        Err(source.refusal())
    }

    /// 6.8.4.1.
    #[tactic(auto, unfolding(crate::specs::StatementReaders::if_))]
    pub(crate) fn if_(&self, source: &mut Source<'_>) -> Result<Kinded, Stop>
        requires { I.can_read self.now.inside self.now.room }
        ensures { Gives spec.if_
            (B.readers self.now.below) self.now.room (I.readers self.now.inside)
            source.old result source.new }
    {
        let key = source.expect_key(KEY_IF, self.room)?;
        let list = List::new(self.alloc);
        let marks = list_of_one(self.alloc, key)?;
        enter(source)?;
        let kinded = self.all_arms(Arms { list, marks }, source)?;
        leave(kinded, source)
    }

    #[tactic(auto, unfolding(crate::specs::StatementReaders::switch_inside))]
    pub(crate) fn switch_inside(&self, key: u32, source: &mut Source<'_>) -> Result<Kinded, Stop>
        requires { I.can_read self.now.inside self.now.room }
        ensures { Gives (λ below room inside. spec.switch_inside below room inside key)
            (B.readers self.now.below) self.now.room (I.readers self.now.inside)
            source.old result source.new }
    {
        let Arm {
            cond,
            body,
            left,
            right,
        } = self.arm(source)?;
        let Ended { stmt, dangles } = body;
        let marks = three_marks(self.alloc, key, left, right)?;
        Ok(Kinded {
            kind: StmtKind::Switch(cond, Boxed::new(self.alloc, stmt)?, marks),
            dangles,
        })
    }

    /// 6.8.4.2.
    #[tactic(auto, unfolding(crate::specs::StatementReaders::switch_))]
    pub(crate) fn switch_(&self, source: &mut Source<'_>) -> Result<Kinded, Stop>
        requires { I.can_read self.now.inside self.now.room }
        ensures { Gives spec.switch_
            (B.readers self.now.below) self.now.room (I.readers self.now.inside)
            source.old result source.new }
    {
        let key = source.expect_key(KEY_SWITCH, self.room)?;
        enter(source)?;
        let kinded = self.switch_inside(key, source)?;
        leave(kinded, source)
    }
}
