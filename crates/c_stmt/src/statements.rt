//! Statements with their labels, and items of blocks (C11 6.8, 6.8.1, 6.8.2).

ghost use Rattle.c_stmt.specs.Gives.{Gives};
ghost use Rattle.c_stmt.specs.StatementReaders as spec;

use crate::ahead::{is_at_plain, is_at_statement_mark, is_before_colon};
use crate::forms::{Ended, Kinded, ended_of};
use crate::grammar::{Below, Grammar, Inside};
use c_lexer::keyword::{
    KEY_BREAK, KEY_CASE, KEY_CONTINUE, KEY_DEFAULT, KEY_DO, KEY_FOR, KEY_GOTO, KEY_IF, KEY_SWITCH,
    KEY_WHILE,
};
use c_lexer::mark::{MARK_COLON, MARK_LEFT_BRACE, MARK_SEMICOLON};
use c_reading::Stop;
use c_syntax::Source;
use c_tree::{BlockItem, Expr, Mark, list_of_one, two_marks};
use joern_io::List;
use reading::Turn;

impl<B: Below, I: Inside> Grammar<B, I> {
    /// What begins with a keyword or a mark of its own.
    #[tactic(auto, unfolding(crate::specs::StatementReaders::kinded))]
    pub(crate) fn kinded(&self, source: &mut Source<'_>) -> Result<Kinded, Stop>
        requires { I.can_read self.now.inside self.now.room }
        ensures { Gives spec.kinded
            (B.readers self.now.below) self.now.room (I.readers self.now.inside)
            source.old result source.new }
    {
        if source.is_at_mark(MARK_SEMICOLON) {
            self.empty(source)
        } else if source.is_at_mark(MARK_LEFT_BRACE) {
            self.braced(source)
        } else if source.is_at_key(KEY_IF) {
            self.if_(source)
        } else if source.is_at_key(KEY_WHILE) {
            self.while_(source)
        } else if source.is_at_key(KEY_DO) {
            self.do_(source)
        } else if source.is_at_key(KEY_FOR) {
            self.for_(source)
        } else if source.is_at_key(KEY_SWITCH) {
            self.switch_(source)
        } else if source.is_at_key(KEY_BREAK) {
            self.break_(source)
        } else if source.is_at_key(KEY_CONTINUE) {
            self.continue_(source)
        } else if source.is_at_key(KEY_GOTO) {
            self.goto_(source)
        } else {
            self.return_(source)
        }
    }

    #[tactic(auto, unfolding(crate::specs::StatementReaders::kinded_turn))]
    pub(crate) fn kinded_turn(
        &self,
        labels: List<Mark>,
        source: &mut Source<'_>,
    ) -> Result<Turn<List<Mark>, Ended>, Stop>
        requires { I.can_read self.now.inside self.now.room }
        ensures { Gives (λ below room inside. spec.kinded_turn below room inside labels)
            (B.readers self.now.below) self.now.room (I.readers self.now.inside)
            source.old result source.new }
    {
        let kinded = self.kinded(source)?;
        Ok(Turn::Done(ended_of(labels, kinded)))
    }

    #[tactic(auto, unfolding(crate::specs::StatementReaders::value_turn))]
    pub(crate) fn value_turn(
        &self,
        labels: List<Mark>,
        source: &mut Source<'_>,
    ) -> Result<Turn<List<Mark>, Ended>, Stop>
        ensures { Gives (λ below room inside. spec.value_turn below room inside labels)
            (B.readers self.now.below) self.now.room (I.readers self.now.inside)
            source.old result source.new }
    {
        let kinded = self.value(source)?;
        Ok(Turn::Done(ended_of(labels, kinded)))
    }

    #[tactic(auto, unfolding(crate::specs::StatementReaders::case_turn))]
    pub(crate) fn case_turn(
        &self,
        labels: List<Mark>,
        source: &mut Source<'_>,
    ) -> Result<Turn<List<Mark>, Ended>, Stop>
        ensures { Gives (λ below room inside. spec.case_turn below room inside labels)
            (B.readers self.now.below) self.now.room (I.readers self.now.inside)
            source.old result source.new }
    {
        let mut labels = labels;
        let key = source.expect_key(KEY_CASE, self.room)?;
        let constant = self.constant(source)?;
        let colon = source.expect_mark(MARK_COLON, self.room)?;
        let expr = Expr::sole(self.alloc, constant)?;
        labels.push(Mark::Case(expr, two_marks(self.alloc, key, colon)?))?;
        Ok(Turn::Again(labels))
    }

    #[tactic(auto, unfolding(crate::specs::StatementReaders::default_turn))]
    pub(crate) fn default_turn(
        &self,
        labels: List<Mark>,
        source: &mut Source<'_>,
    ) -> Result<Turn<List<Mark>, Ended>, Stop>
        ensures { Gives (λ below room inside. spec.default_turn below room inside labels)
            (B.readers self.now.below) self.now.room (I.readers self.now.inside)
            source.old result source.new }
    {
        let mut labels = labels;
        let key = source.expect_key(KEY_DEFAULT, self.room)?;
        let colon = source.expect_mark(MARK_COLON, self.room)?;
        labels.push(Mark::Default(key, list_of_one(self.alloc, colon)?))?;
        Ok(Turn::Again(labels))
    }

    /// Any name may be a label (6.2.3).
    #[tactic(auto, unfolding(crate::specs::StatementReaders::name_turn))]
    pub(crate) fn name_turn(
        &self,
        labels: List<Mark>,
        source: &mut Source<'_>,
    ) -> Result<Turn<List<Mark>, Ended>, Stop>
        ensures { Gives (λ below room inside. spec.name_turn below room inside labels)
            (B.readers self.now.below) self.now.room (I.readers self.now.inside)
            source.old result source.new }
    {
        let mut labels = labels;
        let name = source.expect_any_name(self.room)?;
        let colon = source.expect_mark(MARK_COLON, self.room)?;
        labels.push(Mark::Label(name, list_of_one(self.alloc, colon)?))?;
        Ok(Turn::Again(labels))
    }

    #[tactic(auto, unfolding(crate::specs::StatementReaders::keyed_turn))]
    pub(crate) fn keyed_turn(
        &self,
        labels: List<Mark>,
        source: &mut Source<'_>,
    ) -> Result<Turn<List<Mark>, Ended>, Stop>
        requires { I.can_read self.now.inside self.now.room }
        ensures { Gives (λ below room inside. spec.keyed_turn below room inside labels)
            (B.readers self.now.below) self.now.room (I.readers self.now.inside)
            source.old result source.new }
    {
        if source.is_at_key(KEY_CASE) {
            self.case_turn(labels, source)
        } else if source.is_at_key(KEY_DEFAULT) {
            self.default_turn(labels, source)
        } else {
            self.kinded_turn(labels, source)
        }
    }

    #[tactic(auto, unfolding(crate::specs::StatementReaders::other_turn))]
    pub(crate) fn other_turn(
        &self,
        labels: List<Mark>,
        source: &mut Source<'_>,
    ) -> Result<Turn<List<Mark>, Ended>, Stop>
        requires { I.can_read self.now.inside self.now.room }
        ensures { Gives (λ below room inside. spec.other_turn below room inside labels)
            (B.readers self.now.below) self.now.room (I.readers self.now.inside)
            source.old result source.new }
    {
        if is_at_statement_mark(source) {
            self.keyed_turn(labels, source)
        } else {
            self.value_turn(labels, source)
        }
    }

    /// A label, or what the labels stand before.
    #[tactic(auto, unfolding(crate::specs::StatementReaders::turn))]
    pub(crate) fn turn(
        &self,
        labels: List<Mark>,
        source: &mut Source<'_>,
    ) -> Result<Turn<List<Mark>, Ended>, Stop>
        requires { I.can_read self.now.inside self.now.room }
        ensures { Gives (λ below room inside. spec.turn below room inside labels)
            (B.readers self.now.below) self.now.room (I.readers self.now.inside)
            source.old result source.new }
    {
        if source.is_at_name() {
            if is_before_colon(source) {
                self.name_turn(labels, source)
            } else {
                self.other_turn(labels, source)
            }
        } else if source.is_at_typedef_name() {
            self.name_turn(labels, source)
        } else {
            self.other_turn(labels, source)
        }
    }

    /// 6.8.
    pub(crate) fn statement(&self, source: &mut Source<'_>) -> Result<Ended, Stop>
        requires { I.can_read self.now.inside self.now.room }
        ensures { Gives spec.statement
            (B.readers self.now.below) self.now.room (I.readers self.now.inside)
            source.old result source.new }
    {
        let mut labels = List::new(self.alloc);
        for _turn in 0..source.left() {
            match self.turn(labels, source)? {
                Turn::Again(more) => labels = more,
                Turn::Done(all) => return Ok(all),
            }
        }
        Err(source.refusal())
    }

    #[tactic(auto, unfolding(crate::specs::StatementReaders::statement_item))]
    pub(crate) fn statement_item(&self, source: &mut Source<'_>) -> Result<BlockItem, Stop>
        requires { I.can_read self.now.inside self.now.room }
        ensures { Gives spec.statement_item
            (B.readers self.now.below) self.now.room (I.readers self.now.inside)
            source.old result source.new }
    {
        let Ended { stmt, dangles: _ } = self.statement(source)?;
        Ok(BlockItem::Do(stmt))
    }

    #[tactic(auto, unfolding(crate::specs::StatementReaders::declaration_item))]
    pub(crate) fn declaration_item(&self, source: &mut Source<'_>) -> Result<BlockItem, Stop>
        ensures { Gives spec.declaration_item
            (B.readers self.now.below) self.now.room (I.readers self.now.inside)
            source.old result source.new }
    {
        let declaration = self.declaration(source)?;
        Ok(BlockItem::Declare(declaration))
    }

    /// 6.8.2.
    #[tactic(auto, unfolding(crate::specs::StatementReaders::item))]
    pub(crate) fn item(&self, source: &mut Source<'_>) -> Result<BlockItem, Stop>
        requires { I.can_read self.now.inside self.now.room }
        ensures { Gives spec.item
            (B.readers self.now.below) self.now.room (I.readers self.now.inside)
            source.old result source.new }
    {
        if source.is_at_typedef_name() {
            if is_before_colon(source) {
                self.statement_item(source)
            } else {
                self.declaration_item(source)
            }
        } else if is_at_plain(source) {
            self.statement_item(source)
        } else {
            self.declaration_item(source)
        }
    }
}
