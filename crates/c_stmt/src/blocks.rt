//! Blocks, and bodies of statements (C11 6.8.2, 6.8.4, 6.8.5).

ghost use Rattle.c_stmt.specs.Gives.{Gives};
ghost use Rattle.c_stmt.specs.StatementReaders as spec;

use crate::forms::{BlockItems, Ended, Kinded};
use crate::grammar::{Below, Grammar, Inside};
use crate::scopes::{enter, leave};
use c_lexer::mark::{MARK_LEFT_BRACE, MARK_RIGHT_BRACE};
use c_reading::Stop;
use c_syntax::Source;
use c_tree::{Block, Stmt, StmtKind, list_of_one};
use joern_io::List;
use reading::Turn;

impl<B: Below, I: Inside> Grammar<B, I> {
    #[tactic(auto, unfolding(crate::specs::StatementReaders::last_item))]
    pub(crate) fn last_item(
        &self,
        items: BlockItems,
        source: &mut Source<'_>,
    ) -> Result<Turn<BlockItems, Block>, Stop>
        ensures { Gives (λ below room inside. spec.last_item below room inside items)
            (B.readers self.now.below) self.now.room (I.readers self.now.inside)
            source.old result source.new }
    {
        let BlockItems { list, mut marks } = items;
        marks.push(source.expect_mark(MARK_RIGHT_BRACE, self.deeper())?)?;
        Ok(Turn::Done(Block { items: list, marks }))
    }

    #[tactic(auto, unfolding(crate::specs::StatementReaders::next_item))]
    pub(crate) fn next_item(
        &self,
        items: BlockItems,
        source: &mut Source<'_>,
    ) -> Result<Turn<BlockItems, Block>, Stop>
        requires { I.can_read self.now.inside self.now.room }
        ensures { Gives (λ below room inside. spec.next_item below room inside items)
            (B.readers self.now.below) self.now.room (I.readers self.now.inside)
            source.old result source.new }
    {
        let BlockItems { mut list, marks } = items;
        list.push(self.inside_item(source)?)?;
        Ok(Turn::Again(BlockItems { list, marks }))
    }

    #[tactic(auto, unfolding(crate::specs::StatementReaders::item_turn))]
    pub(crate) fn item_turn(
        &self,
        items: BlockItems,
        source: &mut Source<'_>,
    ) -> Result<Turn<BlockItems, Block>, Stop>
        requires { I.can_read self.now.inside self.now.room }
        ensures { Gives (λ below room inside. spec.item_turn below room inside items)
            (B.readers self.now.below) self.now.room (I.readers self.now.inside)
            source.old result source.new }
    {
        if source.is_at_mark(MARK_RIGHT_BRACE) {
            self.last_item(items, source)
        } else {
            self.next_item(items, source)
        }
    }

    pub(crate) fn all_items(
        &self,
        items: BlockItems,
        source: &mut Source<'_>,
    ) -> Result<Block, Stop>
        requires { I.can_read self.now.inside self.now.room }
        ensures { Gives (λ below room inside. spec.all_items below room inside items)
            (B.readers self.now.below) self.now.room (I.readers self.now.inside)
            source.old result source.new }
    {
        let mut items = items;
        for _turn in 0..source.left() {
            match self.item_turn(items, source)? {
                Turn::Again(more) => items = more,
                Turn::Done(all) => return Ok(all),
            }
        }
        Err(source.refusal())
    }

    /// 6.8.2.
    #[tactic(auto, unfolding(crate::specs::StatementReaders::block))]
    pub(crate) fn block(&self, source: &mut Source<'_>) -> Result<Block, Stop>
        requires { I.can_read self.now.inside self.now.room }
        ensures { Gives spec.block
            (B.readers self.now.below) self.now.room (I.readers self.now.inside)
            source.old result source.new }
    {
        let left = source.expect_mark(MARK_LEFT_BRACE, self.deeper())?;
        let list = List::new(self.alloc);
        let marks = list_of_one(self.alloc, left)?;
        enter(source)?;
        let block = self.all_items(BlockItems { list, marks }, source)?;
        leave(block, source)
    }

    #[tactic(auto, unfolding(crate::specs::StatementReaders::braced))]
    pub(crate) fn braced(&self, source: &mut Source<'_>) -> Result<Kinded, Stop>
        requires { I.can_read self.now.inside self.now.room }
        ensures { Gives spec.braced
            (B.readers self.now.below) self.now.room (I.readers self.now.inside)
            source.old result source.new }
    {
        let block = self.block(source)?;
        Ok(Kinded {
            kind: StmtKind::Braced(block),
            dangles: false,
        })
    }

    /// A body that is no block, which is one level deeper.
    #[tactic(auto, unfolding(crate::specs::StatementReaders::unbraced))]
    pub(crate) fn unbraced(&self, source: &mut Source<'_>) -> Result<Ended, Stop>
        requires { I.can_read self.now.inside self.now.room }
        ensures { Gives spec.unbraced
            (B.readers self.now.below) self.now.room (I.readers self.now.inside)
            source.old result source.new }
    {
        enter(source)?;
        let ended = self.inside_statement(source)?;
        leave(ended, source)
    }

    #[tactic(auto, unfolding(crate::specs::StatementReaders::braced_body))]
    pub(crate) fn braced_body(&self, source: &mut Source<'_>) -> Result<Ended, Stop>
        requires { I.can_read self.now.inside self.now.room }
        ensures { Gives spec.braced_body
            (B.readers self.now.below) self.now.room (I.readers self.now.inside)
            source.old result source.new }
    {
        let Kinded { kind, dangles } = self.braced(source)?;
        let labels = List::new(self.alloc);
        Ok(Ended {
            stmt: Stmt { labels, kind },
            dangles,
        })
    }

    /// A body, which is a scope (6.8.4p3, 6.8.5p5).
    #[tactic(auto, unfolding(crate::specs::StatementReaders::body))]
    pub(crate) fn body(&self, source: &mut Source<'_>) -> Result<Ended, Stop>
        requires { I.can_read self.now.inside self.now.room }
        ensures { Gives spec.body
            (B.readers self.now.below) self.now.room (I.readers self.now.inside)
            source.old result source.new }
    {
        if source.is_at_mark(MARK_LEFT_BRACE) {
            self.braced_body(source)
        } else {
            self.unbraced(source)
        }
    }
}
