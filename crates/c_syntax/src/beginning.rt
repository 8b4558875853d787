//! Assignment expressions that begin otherwise (C11 6.7.6.2).

ghost use Rattle.std.specs.Prelude.{◌≡◌};
ghost use Rattle.c_syntax.specs.ExpressionReaders as spec;
ghost use Rattle.c_syntax.specs.Forms.{chain_start};
ghost use Rattle.c_syntax.specs.Gives.{Gives};

use crate::forms::{AssignForm, Begun, Chain, Found, Mode};
use crate::grammar::{Grammar, Inner};
use crate::source::Source;
use c_lexer::keyword::{KEY_ALIGNOF, KEY_SIZEOF};
use c_lexer::mark::MARK_LEFT_PAREN;
use c_reading::Stop;
use c_tree::{Assign, Prefix, Prefixed, list_of_one};
use joern_io::List;
use reading::Turn;

impl<N: Inner> Grammar<N> {
    /// An operator other than `*`.
    #[tactic(auto, unfolding(crate::specs::ExpressionReaders::other_operator))]
    pub(crate) fn other_operator(
        &self,
        chain: Chain,
        source: &mut Source<'_>,
    ) -> Result<Turn<Chain, Found>, Stop>
        requires { N.can_read self.now.inner self.now.room }
        ensures { Gives (λ room inner. spec.other_operator room inner chain)
            self.now.room (N.readers self.now.inner) source.old result source.new }
    {
        let op = source.expect_other_unary(self.room)?;
        let mut prefixes = chain.mode.flush(chain.prefixes)?;
        prefixes.push(Prefix::Op(op))?;
        Ok(Turn::Again(Chain {
            prefixes,
            mode: Mode::Cast,
        }))
    }

    /// What begins neither with `*` nor with `(`.
    #[tactic(auto, unfolding(crate::specs::ExpressionReaders::bare_link))]
    pub(crate) fn bare_link(
        &self,
        chain: Chain,
        source: &mut Source<'_>,
    ) -> Result<Turn<Chain, Found>, Stop>
        requires { N.can_read self.now.inner self.now.room }
        ensures { Gives (λ room inner. spec.bare_link room inner chain)
            self.now.room (N.readers self.now.inner) source.old result source.new }
    {
        if source.is_at_other_unary() {
            self.other_operator(chain, source)
        } else if source.is_at_step() {
            self.stepped(chain, source)
        } else if source.is_at_key(KEY_SIZEOF) {
            self.sized(chain, source)
        } else if source.is_at_key(KEY_ALIGNOF) {
            self.aligned(chain, source)
        } else if source.is_at_name() {
            self.name(chain, source)
        } else if source.is_at_constant() {
            self.constant(chain, source)
        } else {
            self.text(chain, source)
        }
    }

    /// What does not begin with `*`.
    #[tactic(auto, unfolding(crate::specs::ExpressionReaders::unstarred_link))]
    pub(crate) fn unstarred_link(
        &self,
        chain: Chain,
        source: &mut Source<'_>,
    ) -> Result<Turn<Chain, Found>, Stop>
        requires { N.can_read self.now.inner self.now.room }
        ensures { Gives (λ room inner. spec.unstarred_link room inner chain)
            self.now.room (N.readers self.now.inner) source.old result source.new }
    {
        if source.is_at_other_unary() {
            self.other_operator(chain, source)
        } else if source.is_at_step() {
            self.stepped(chain, source)
        } else if source.is_at_key(KEY_SIZEOF) {
            self.sized(chain, source)
        } else if source.is_at_key(KEY_ALIGNOF) {
            self.aligned(chain, source)
        } else if source.is_at_mark(MARK_LEFT_PAREN) {
            self.paren(chain, source)
        } else if source.is_at_name() {
            self.name(chain, source)
        } else if source.is_at_constant() {
            self.constant(chain, source)
        } else {
            self.text(chain, source)
        }
    }

    fn start(&self) -> Chain
        ensures { result ≡ chain_start }
    {
        Chain {
            prefixes: List::new(self.alloc),
            mode: Mode::Cast,
        }
    }

    /// What stands first in an expression of the form.
    #[tactic(auto, unfolding(crate::specs::ExpressionReaders::first_link))]
    pub(crate) fn first_link(
        &self,
        form: AssignForm,
        source: &mut Source<'_>,
    ) -> Result<Turn<Chain, Found>, Stop>
        requires { N.can_read self.now.inner self.now.room }
        ensures { Gives (λ room inner. spec.first_link room inner form)
            self.now.room (N.readers self.now.inner) source.old result source.new }
    {
        match form {
            AssignForm::Whole => self.link(self.start(), source),
            AssignForm::Constant => self.link(self.start(), source),
            AssignForm::Unstarred => self.unstarred_link(self.start(), source),
            AssignForm::Bare => self.bare_link(self.start(), source),
            AssignForm::Behind(star) => {
                let chain = Chain {
                    prefixes: list_of_one(self.alloc, Prefix::Op(star))?,
                    mode: Mode::Cast,
                };
                self.link(chain, source)
            }
        }
    }

    #[tactic(auto, unfolding(crate::specs::ExpressionReaders::links_behind))]
    pub(crate) fn links_behind(
        &self,
        turn: Turn<Chain, Found>,
        source: &mut Source<'_>,
    ) -> Result<Found, Stop>
        requires { N.can_read self.now.inner self.now.room }
        ensures { Gives (λ room inner. spec.links_behind room inner turn)
            self.now.room (N.readers self.now.inner) source.old result source.new }
    {
        match turn {
            Turn::Again(chain) => self.links(chain, source),
            Turn::Done(found) => Ok(found),
        }
    }

    #[tactic(auto, unfolding(crate::specs::ExpressionReaders::targets_behind))]
    pub(crate) fn targets_behind(
        &self,
        turn: Turn<List<(Prefixed, u32)>, Begun>,
        source: &mut Source<'_>,
    ) -> Result<Begun, Stop>
        requires { N.can_read self.now.inner self.now.room }
        ensures { Gives (λ room inner. spec.targets_behind room inner turn)
            self.now.room (N.readers self.now.inner) source.old result source.new }
    {
        match turn {
            Turn::Again(targets) => self.targets(targets, source),
            Turn::Done(begun) => Ok(begun),
        }
    }

    #[tactic(auto, unfolding(crate::specs::ExpressionReaders::first_found))]
    fn first_found(&self, form: AssignForm, source: &mut Source<'_>) -> Result<Found, Stop>
        requires { N.can_read self.now.inner self.now.room }
        ensures { Gives (λ room inner. spec.first_found room inner form)
            self.now.room (N.readers self.now.inner) source.old result source.new }
    {
        let turn = self.first_link(form, source)?;
        self.links_behind(turn, source)
    }

    #[tactic(auto, unfolding(crate::specs::ExpressionReaders::first_prefixed))]
    fn first_prefixed(&self, form: AssignForm, source: &mut Source<'_>) -> Result<Prefixed, Stop>
        requires { N.can_read self.now.inner self.now.room }
        ensures { Gives (λ room inner. spec.first_prefixed room inner form)
            self.now.room (N.readers self.now.inner) source.old result source.new }
    {
        let found = self.first_found(form, source)?;
        self.finished(found, source)
    }

    #[tactic(auto, unfolding(crate::specs::ExpressionReaders::first_target))]
    fn first_target(
        &self,
        form: AssignForm,
        source: &mut Source<'_>,
    ) -> Result<Turn<List<(Prefixed, u32)>, Begun>, Stop>
        requires { N.can_read self.now.inner self.now.room }
        ensures { Gives (λ room inner. spec.first_target room inner form)
            self.now.room (N.readers self.now.inner) source.old result source.new }
    {
        let operand = self.first_prefixed(form, source)?;
        self.target_at(List::new(self.alloc), operand, source)
    }

    #[tactic(auto, unfolding(crate::specs::ExpressionReaders::first_targets))]
    fn first_targets(&self, form: AssignForm, source: &mut Source<'_>) -> Result<Begun, Stop>
        requires { N.can_read self.now.inner self.now.room }
        ensures { Gives (λ room inner. spec.first_targets room inner form)
            self.now.room (N.readers self.now.inner) source.old result source.new }
    {
        let turn = self.first_target(form, source)?;
        self.targets_behind(turn, source)
    }

    #[tactic(auto, unfolding(crate::specs::ExpressionReaders::first_assign))]
    fn first_assign(&self, form: AssignForm, source: &mut Source<'_>) -> Result<Assign, Stop>
        requires { N.can_read self.now.inner self.now.room }
        ensures { Gives (λ room inner. spec.first_assign room inner form)
            self.now.room (N.readers self.now.inner) source.old result source.new }
    {
        let begun = self.first_targets(form, source)?;
        self.rest_of(begun, source)
    }

    /// An assignment expression of the form.
    #[tactic(auto, unfolding(crate::specs::ExpressionReaders::formed))]
    pub fn formed(&self, form: AssignForm, source: &mut Source<'_>) -> Result<Assign, Stop>
        requires { N.can_read self.now.inner self.now.room }
        ensures { Gives (λ room inner. spec.formed room inner form)
            self.now.room (N.readers self.now.inner) source.old result source.new }
    {
        match form {
            AssignForm::Whole => self.whole(source),
            AssignForm::Constant => self.constant_expr(source),
            AssignForm::Unstarred | AssignForm::Bare | AssignForm::Behind(_) => {
                self.first_assign(form, source)
            }
        }
    }
}
