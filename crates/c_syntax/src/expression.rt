//! Operators, conditions and assignments (C11 6.5.5 to 6.6).

ghost use Rattle.std.specs.Prelude.{◌≡◌, ◌-◌};
ghost use Rattle.c_syntax.specs.ExpressionReaders as spec;
ghost use Rattle.c_syntax.specs.Forms.{is_target};
ghost use Rattle.c_syntax.specs.Gives.{Gives};

use crate::forms::{Arms, Begun, is_target};
use crate::grammar::{Grammar, Inner};
use crate::source::Source;
use c_lexer::mark::{MARK_COLON, MARK_QUESTION};
use c_reading::Stop;
use c_tree::{Arm, Assign, Binary, Cond, Prefixed, two_marks};
use joern_io::List;
use reading::Turn;
use std::alloc::Global;

impl<N: Inner> Grammar<N> {
    #[tactic(auto, unfolding(crate::specs::ExpressionReaders::more_operands))]
    pub(crate) fn more_operands(
        &self,
        rest: List<(u32, Prefixed)>,
        source: &mut Source<'_>,
    ) -> Result<List<(u32, Prefixed)>, Stop>
        requires { N.can_read self.now.inner self.now.room }
        ensures { Gives (λ room inner. spec.more_operands room inner rest)
            self.now.room (N.readers self.now.inner) source.old result source.new }
    {
        let mut rest = rest;
        let op = source.expect_binary(self.room)?;
        let operand = self.prefixed(source)?;
        rest.push((op, operand))?;
        Ok(rest)
    }

    pub(crate) fn all_operands(
        &self,
        source: &mut Source<'_>,
    ) -> Result<List<(u32, Prefixed)>, Stop>
        requires { N.can_read self.now.inner self.now.room }
        ensures { Gives spec.all_operands
            self.now.room (N.readers self.now.inner) source.old result source.new }
    {
        let mut rest = List::new(self.alloc);
        for _turn in 0..source.left() {
            if !source.is_at_binary() {
                return Ok(rest);
            }
            rest = self.more_operands(rest, source)?;
        }
        Ok(rest)
    }

    #[tactic(auto, unfolding(crate::specs::ExpressionReaders::binary))]
    pub(crate) fn binary(&self, first: Prefixed, source: &mut Source<'_>) -> Result<Binary, Stop>
        requires { N.can_read self.now.inner self.now.room }
        ensures { Gives (λ room inner. spec.binary room inner first)
            self.now.room (N.readers self.now.inner) source.old result source.new }
    {
        let rest = self.all_operands(source)?;
        Ok(Binary { first, rest })
    }

    #[tactic(auto, unfolding(crate::specs::ExpressionReaders::more_arms))]
    pub(crate) fn more_arms(&self, arms: Arms, source: &mut Source<'_>) -> Result<Arms, Stop>
        requires { N.can_read self.now.inner self.now.room }
        ensures { Gives (λ room inner. spec.more_arms room inner arms)
            self.now.room (N.readers self.now.inner) source.old result source.new }
    {
        let Arms { mut arms, last } = arms;
        let question = source.expect_mark(MARK_QUESTION, self.room)?;
        let then = self.inner_expr(source)?;
        let colon = source.expect_mark(MARK_COLON, self.deeper())?;
        let first = self.prefixed(source)?;
        let next = self.binary(first, source)?;
        let marks = two_marks(self.alloc, question, colon)?;
        arms.push(Arm {
            test: last,
            then,
            marks,
        })?;
        Ok(Arms { arms, last: next })
    }

    pub(crate) fn all_arms(&self, arms: Arms, source: &mut Source<'_>) -> Result<Arms, Stop>
        requires { N.can_read self.now.inner self.now.room }
        ensures { Gives (λ room inner. spec.all_arms room inner arms)
            self.now.room (N.readers self.now.inner) source.old result source.new }
    {
        let mut arms = arms;
        for _turn in 0..source.left() {
            if !source.is_at_mark(MARK_QUESTION) {
                return Ok(arms);
            }
            arms = self.more_arms(arms, source)?;
        }
        Ok(arms)
    }

    /// An operand and the operator behind it are one more target.
    #[tactic(auto, unfolding(crate::specs::ExpressionReaders::set_target))]
    fn set_target(
        &self,
        targets: List<(Prefixed, u32)>,
        operand: Prefixed,
        source: &mut Source<'_>,
    ) -> Result<Turn<List<(Prefixed, u32)>, Begun>, Stop>
        ensures { Gives (λ room inner. spec.set_target room inner targets operand)
            self.now.room (N.readers self.now.inner) source.old result source.new }
    {
        let mut targets = targets;
        let op = source.expect_assignment(self.room)?;
        targets.push((operand, op))?;
        Ok(Turn::Again(targets))
    }

    /// What an operand is where it stands first: a target, or the first of the value.
    pub(crate) fn target_at(
        &self,
        targets: List<(Prefixed, u32)>,
        operand: Prefixed,
        source: &mut Source<'_>,
    ) -> Result<Turn<List<(Prefixed, u32)>, Begun>, Stop>
        ensures { Gives
            (λ room inner. spec.target_at room inner targets operand (is_target operand))
            self.now.room (N.readers self.now.inner) source.old result source.new }
    {
        if !is_target(&operand) {
            return Ok(Turn::Done(Begun {
                targets,
                first: operand,
            }));
        }
        if source.is_at_assignment() {
            self.set_target(targets, operand, source)
        } else {
            Ok(Turn::Done(Begun {
                targets,
                first: operand,
            }))
        }
    }

    #[tactic(auto, unfolding(crate::specs::ExpressionReaders::target))]
    pub(crate) fn target(
        &self,
        targets: List<(Prefixed, u32)>,
        source: &mut Source<'_>,
    ) -> Result<Turn<List<(Prefixed, u32)>, Begun>, Stop>
        requires { N.can_read self.now.inner self.now.room }
        ensures { Gives (λ room inner. spec.target room inner targets)
            self.now.room (N.readers self.now.inner) source.old result source.new }
    {
        let first = self.prefixed(source)?;
        self.target_at(targets, first, source)
    }

    /// Targets up to the first operand of the value.
    pub(crate) fn targets(
        &self,
        targets: List<(Prefixed, u32)>,
        source: &mut Source<'_>,
    ) -> Result<Begun, Stop>
        requires { N.can_read self.now.inner self.now.room }
        ensures { Gives (λ room inner. spec.targets room inner targets)
            self.now.room (N.readers self.now.inner) source.old result source.new }
    {
        let mut targets = targets;
        for _turn in 0..source.left() {
            match self.target(targets, source)? {
                Turn::Again(more) => targets = more,
                Turn::Done(begun) => return Ok(begun),
            }
        }
        Err(source.refusal())
    }

    /// What follows the targets and the first operand of the value.
    #[tactic(auto, unfolding(crate::specs::ExpressionReaders::rest_of))]
    pub(crate) fn rest_of(&self, begun: Begun, source: &mut Source<'_>) -> Result<Assign, Stop>
        requires { N.can_read self.now.inner self.now.room }
        ensures { Gives (λ room inner. spec.rest_of room inner begun)
            self.now.room (N.readers self.now.inner) source.old result source.new }
    {
        let Begun { targets, first } = begun;
        let last = self.binary(first, source)?;
        let arms = List::new(self.alloc);
        let Arms { arms, last } = self.all_arms(Arms { arms, last }, source)?;
        Ok(Assign {
            targets,
            value: Cond { arms, last },
        })
    }

    /// 6.5.16.
    #[tactic(auto, unfolding(crate::specs::ExpressionReaders::whole))]
    pub(crate) fn whole(&self, source: &mut Source<'_>) -> Result<Assign, Stop>
        requires { N.can_read self.now.inner self.now.room }
        ensures { Gives spec.whole
            self.now.room (N.readers self.now.inner) source.old result source.new }
    {
        let begun = self.targets(List::new(self.alloc), source)?;
        self.rest_of(begun, source)
    }

    /// 6.6.
    #[tactic(auto, unfolding(crate::specs::ExpressionReaders::constant_expr))]
    pub(crate) fn constant_expr(&self, source: &mut Source<'_>) -> Result<Assign, Stop>
        requires { N.can_read self.now.inner self.now.room }
        ensures { Gives spec.constant_expr
            self.now.room (N.readers self.now.inner) source.old result source.new }
    {
        let first = self.prefixed(source)?;
        let targets = List::new(self.alloc);
        self.rest_of(Begun { targets, first }, source)
    }
}
