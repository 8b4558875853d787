//! The walk over the statements of a function.

ghost use Rattle.std.specs.Prelude.{◌≡◌, OnOk};
ghost use Rattle.c_tree.specs.Jumps.{block_jumps, in_switch};
ghost use Rattle.c_jumps.specs.Walk.{block_item_jumps, stmt_jumps, stmt_kind_jumps, with_part};

use crate::around::Around;
use crate::fault::Jump;
use crate::found::{Found, first_mark};
use c_tree::{Block, BlockItem, Stmt, StmtKind};
use std::alloc::AllocError;

impl Found {
    /// Adds what stands in a block.
    #[cycle(statements)]
    #[tactic(auto, using(crate::proofs::Parts::block_laws))]
    pub(crate) fn block(&mut self, block: &Block, around: Around) -> Result<(), AllocError>
        ensures { OnOk result (self.new ≡ with_part self.old (block_jumps block.now) around) }
    {
        let items = block.items.items();
        for item in items {
            self.block_item(item, around)?;
        }
        Ok(())
    }

    /// Adds what stands in a block item.
    #[cycle(statements)]
    #[tactic(auto, using(crate::proofs::Parts::block_laws))]
    fn block_item(&mut self, item: &BlockItem, around: Around) -> Result<(), AllocError>
        ensures { OnOk result (self.new ≡ with_part self.old (block_item_jumps item.now) around) }
    {
        match item {
            BlockItem::Declare(_) => Ok(()),
            BlockItem::Do(stmt) => self.stmt(stmt, around),
        }
    }

    /// Adds what stands in a statement with its labels.
    #[cycle(statements)]
    #[tactic(auto, using(crate::proofs::Parts::block_laws))]
    fn stmt(&mut self, stmt: &Stmt, around: Around) -> Result<(), AllocError>
        ensures { OnOk result (self.new ≡ with_part self.old (stmt_jumps stmt.now) around) }
    {
        self.labels(stmt.labels.items(), around)?;
        self.kind(&stmt.kind, around)
    }

    /// Adds what stands in a statement without its labels.
    #[cycle(statements)]
    #[tactic(auto, using(crate::proofs::Parts::kind_laws))]
    fn kind(&mut self, kind: &StmtKind, around: Around) -> Result<(), AllocError>
        ensures { OnOk result (self.new ≡ with_part self.old (stmt_kind_jumps kind.now) around) }
    {
        match kind {
            StmtKind::Empty(_) => Ok(()),
            StmtKind::Value(_, _) => Ok(()),
            StmtKind::Braced(block) => self.block(block, around),
            StmtKind::If { arms, other, .. } => {
                let arms = arms.items();
                for arm in arms {
                    self.stmt(&arm.1, around)?;
                }
                match other {
                    Some(other) => self.stmt(other.get(), around),
                    None => Ok(()),
                }
            }
            StmtKind::While(_, body, _) => self.stmt(body.get(), around.loop_body()),
            StmtKind::DoWhile(body, _, _) => self.stmt(body.get(), around.loop_body()),
            StmtKind::For { body, .. } => self.stmt(body.get(), around.loop_body()),
            StmtKind::Switch(_, body, _) => self.switch(body.get(), around),
            StmtKind::Break(marks) => {
                let token = first_mark(marks.items());
                self.stray_unless(around.may_break(), Jump::StrayBreak, token)
            }
            StmtKind::Continue(marks) => {
                let token = first_mark(marks.items());
                self.stray_unless(around.in_loop, Jump::StrayContinue, token)
            }
            StmtKind::Goto(name, _) => self.push_goto(*name),
            StmtKind::Return(_, _) => Ok(()),
        }
    }

    /// Adds what stands in a `switch`.
    #[cycle(statements)]
    fn switch(&mut self, body: &Stmt, around: Around) -> Result<(), AllocError>
        ensures { OnOk result (self.new ≡
            with_part self.old (in_switch (stmt_jumps body.now)) around) }
    {
        let outer = self.defaults_len();
        self.stmt(body, around.switch_body())?;
        self.end_switch(outer)
    }
}
