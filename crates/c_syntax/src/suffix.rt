//! Lists of assignment expressions, and suffixes of operands (C11 6.5.2, 6.5.17).

ghost use Rattle.std.specs.Prelude.{◌≡◌, ◌-◌};
ghost use Rattle.c_reading.specs.Reads.{Reads};
ghost use Rattle.c_syntax.specs.ExpressionReaders as spec;
ghost use Rattle.c_syntax.specs.Gives.{Gives};
ghost use Rattle.c_syntax.specs.Scoping.{input_from};

use crate::forms::Parts;
use crate::grammar::{Grammar, Inner};
use crate::source::Source;
use c_lexer::mark::{
    MARK_ARROW, MARK_COMMA, MARK_DOT, MARK_LEFT_BRACKET, MARK_LEFT_PAREN, MARK_RIGHT_BRACKET,
    MARK_RIGHT_PAREN,
};
use c_reading::Stop;
use c_tree::{Assign, Expr, Post, list_of_one, two_marks};
use joern_io::List;
use std::alloc::Global;

impl<N: Inner> Grammar<N> {
    /// A comma and one more.
    #[tactic(auto, unfolding(crate::specs::ExpressionReaders::more_parts))]
    pub(crate) fn more_parts(&self, parts: Parts, source: &mut Source<'_>) -> Result<Parts, Stop>
        requires { N.can_read self.now.inner self.now.room }
        ensures { Gives (λ room inner. spec.more_parts room inner parts)
            self.now.room (N.readers self.now.inner) source.old result source.new }
    {
        let Parts {
            mut parts,
            mut marks,
        } = parts;
        let comma = source.expect_mark(MARK_COMMA, self.deeper())?;
        let part = self.inner_assign(source)?;
        parts.push(part)?;
        marks.push(comma)?;
        Ok(Parts { parts, marks })
    }

    pub(crate) fn all_parts(&self, parts: Parts, source: &mut Source<'_>) -> Result<Parts, Stop>
        requires { N.can_read self.now.inner self.now.room }
        ensures { Gives (λ room inner. spec.all_parts room inner parts)
            self.now.room (N.readers self.now.inner) source.old result source.new }
    {
        let mut parts = parts;
        for _turn in 0..source.left() {
            if !source.is_at_mark(MARK_COMMA) {
                return Ok(parts);
            }
            parts = self.more_parts(parts, source)?;
        }
        Ok(parts)
    }

    /// One or more, after these marks.
    #[tactic(auto, unfolding(crate::specs::ExpressionReaders::parts))]
    pub(crate) fn parts(&self, marks: List<u32>, source: &mut Source<'_>) -> Result<Parts, Stop>
        requires { N.can_read self.now.inner self.now.room }
        ensures { Gives (λ room inner. spec.parts room inner marks)
            self.now.room (N.readers self.now.inner) source.old result source.new }
    {
        let first = self.inner_assign(source)?;
        let parts = list_of_one(self.alloc, first)?;
        self.all_parts(Parts { parts, marks }, source)
    }

    /// An expression one level deeper (6.5.17).
    #[tactic(auto, unfolding(crate::specs::ExpressionReaders::inner_expr))]
    pub fn inner_expr(&self, source: &mut Source<'_>) -> Result<Expr, Stop>
        requires { N.can_read self.now.inner self.now.room }
        ensures { Gives spec.inner_expr
            self.now.room (N.readers self.now.inner) source.old result source.new }
    {
        let Parts { parts, marks } = self.parts(List::new(self.alloc), source)?;
        Ok(Expr { parts, marks })
    }

    #[tactic(auto, unfolding(crate::specs::ExpressionReaders::index))]
    pub(crate) fn index(&self, source: &mut Source<'_>) -> Result<Post, Stop>
        requires { N.can_read self.now.inner self.now.room }
        ensures { Gives spec.index
            self.now.room (N.readers self.now.inner) source.old result source.new }
    {
        let left = source.expect_mark(MARK_LEFT_BRACKET, self.deeper())?;
        let expr = self.inner_expr(source)?;
        let right = source.expect_mark(MARK_RIGHT_BRACKET, self.deeper())?;
        Ok(Post::Index(expr, two_marks(self.alloc, left, right)?))
    }

    #[tactic(auto, unfolding(crate::specs::ExpressionReaders::no_arguments))]
    pub(crate) fn no_arguments(&self, left: u32, source: &mut Source<'_>) -> Result<Post, Stop>
        requires { N.can_read self.now.inner self.now.room }
        ensures { Gives (λ room inner. spec.no_arguments room inner left)
            self.now.room (N.readers self.now.inner) source.old result source.new }
    {
        let right = source.expect_mark(MARK_RIGHT_PAREN, self.deeper())?;
        let marks = two_marks(self.alloc, left, right)?;
        Ok(Post::Call(List::new(self.alloc), marks))
    }

    #[tactic(auto, unfolding(crate::specs::ExpressionReaders::some_arguments))]
    pub(crate) fn some_arguments(&self, left: u32, source: &mut Source<'_>) -> Result<Post, Stop>
        requires { N.can_read self.now.inner self.now.room }
        ensures { Gives (λ room inner. spec.some_arguments room inner left)
            self.now.room (N.readers self.now.inner) source.old result source.new }
    {
        let Parts { parts, mut marks } = self.parts(list_of_one(self.alloc, left)?, source)?;
        marks.push(source.expect_mark(MARK_RIGHT_PAREN, self.deeper())?)?;
        Ok(Post::Call(parts, marks))
    }

    #[tactic(auto, unfolding(crate::specs::ExpressionReaders::call))]
    pub(crate) fn call(&self, source: &mut Source<'_>) -> Result<Post, Stop>
        requires { N.can_read self.now.inner self.now.room }
        ensures { Gives spec.call
            self.now.room (N.readers self.now.inner) source.old result source.new }
    {
        let left = source.expect_mark(MARK_LEFT_PAREN, self.deeper())?;
        if source.is_at_mark(MARK_RIGHT_PAREN) {
            self.no_arguments(left, source)
        } else {
            self.some_arguments(left, source)
        }
    }

    #[tactic(auto, unfolding(crate::specs::ExpressionReaders::dot))]
    pub(crate) fn dot(&self, source: &mut Source<'_>) -> Result<Post, Stop>
        requires { N.can_read self.now.inner self.now.room }
        ensures { Gives spec.dot
            self.now.room (N.readers self.now.inner) source.old result source.new }
    {
        let mark = source.expect_mark(MARK_DOT, self.room)?;
        let name = source.expect_any_name(self.room)?;
        Ok(Post::Dot(name, list_of_one(self.alloc, mark)?))
    }

    #[tactic(auto, unfolding(crate::specs::ExpressionReaders::arrow))]
    pub(crate) fn arrow(&self, source: &mut Source<'_>) -> Result<Post, Stop>
        requires { N.can_read self.now.inner self.now.room }
        ensures { Gives spec.arrow
            self.now.room (N.readers self.now.inner) source.old result source.new }
    {
        let mark = source.expect_mark(MARK_ARROW, self.room)?;
        let name = source.expect_any_name(self.room)?;
        Ok(Post::Arrow(name, list_of_one(self.alloc, mark)?))
    }

    #[tactic(auto, unfolding(crate::specs::ExpressionReaders::step))]
    pub(crate) fn step(&self, source: &mut Source<'_>) -> Result<Post, Stop>
        requires { N.can_read self.now.inner self.now.room }
        ensures { Gives spec.step
            self.now.room (N.readers self.now.inner) source.old result source.new }
    {
        Ok(Post::Step(source.expect_step(self.room)?))
    }

    /// 6.5.2.
    #[tactic(auto, unfolding(crate::specs::ExpressionReaders::suffix))]
    pub(crate) fn suffix(&self, source: &mut Source<'_>) -> Result<Post, Stop>
        requires { N.can_read self.now.inner self.now.room }
        ensures { Gives spec.suffix
            self.now.room (N.readers self.now.inner) source.old result source.new }
    {
        if source.is_at_mark(MARK_LEFT_BRACKET) {
            self.index(source)
        } else if source.is_at_mark(MARK_LEFT_PAREN) {
            self.call(source)
        } else if source.is_at_mark(MARK_DOT) {
            self.dot(source)
        } else if source.is_at_mark(MARK_ARROW) {
            self.arrow(source)
        } else {
            self.step(source)
        }
    }

    #[tactic(auto, unfolding(crate::specs::ExpressionReaders::more_suffixes))]
    pub(crate) fn more_suffixes(
        &self,
        suffixes: List<Post>,
        source: &mut Source<'_>,
    ) -> Result<List<Post>, Stop>
        requires { N.can_read self.now.inner self.now.room }
        ensures { Gives (λ room inner. spec.more_suffixes room inner suffixes)
            self.now.room (N.readers self.now.inner) source.old result source.new }
    {
        let mut suffixes = suffixes;
        suffixes.push(self.suffix(source)?)?;
        Ok(suffixes)
    }

    pub(crate) fn all_suffixes(&self, source: &mut Source<'_>) -> Result<List<Post>, Stop>
        requires { N.can_read self.now.inner self.now.room }
        ensures { Gives spec.all_suffixes
            self.now.room (N.readers self.now.inner) source.old result source.new }
    {
        let mut suffixes = List::new(self.alloc);
        for _turn in 0..source.left() {
            if !source.is_at_suffix() {
                return Ok(suffixes);
            }
            suffixes = self.more_suffixes(suffixes, source)?;
        }
        Ok(suffixes)
    }
}
