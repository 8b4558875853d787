//! One level of a file, a block or a statement.

ghost use Rattle.std.specs.Prelude.{◌≡◌, ◌+◌, ◌<◌, ◌≤◌, ◌++◌, OnOk};
ghost use Rattle.std.specs.Option.{option_map};
ghost use Rattle.c_tree.specs.Spell.{block_item_spelling, block_spelling, expr_if};
ghost use Rattle.c_tree.specs.Spell.{expr_spelling, for_init_spelling, if_arm, item_spelling};
ghost use Rattle.c_tree.specs.Spell.{if_arms, if_some, key, label_spelling, mark, other_arms};
ghost use Rattle.c_tree.specs.Spell.{stmt_kind_spelling, stmt_spelling};
ghost use Rattle.c_tree.specs.Walk.{arms_weight, spelled_arms};
ghost use Rattle.c_tree.specs.Weights.{block_item_weight, block_weight, expr_weight};
ghost use Rattle.c_tree.specs.Weights.{for_init_weight, item_weight, label_weight};
ghost use Rattle.c_tree.specs.Weights.{stmt_kind_weight, stmt_weight, weight_if};

use crate::part::Part;
use crate::pending::{Pending, past};
use crate::symbol::Want;
use crate::tree::{Block, BlockItem, Expr, ForInit, Item, Mark, Stmt, StmtKind};
use c_lexer::keyword::{
    KEY_BREAK, KEY_CASE, KEY_CONTINUE, KEY_DEFAULT, KEY_DO, KEY_ELSE, KEY_FOR, KEY_GOTO, KEY_IF,
    KEY_RETURN, KEY_SWITCH, KEY_WHILE,
};
use c_lexer::mark::{
    MARK_COLON, MARK_LEFT_BRACE, MARK_LEFT_PAREN, MARK_RIGHT_BRACE, MARK_RIGHT_PAREN,
    MARK_SEMICOLON,
};
use joern_io::Boxed;
use std::alloc::AllocError;

impl<'t> Pending<'t> {
    /// The specifiers, the declarator and the body of a function, or a declaration.
    #[tactic(auto, using(crate::proofs::Opening::opens_statement))]
    pub(crate) fn open_item(&mut self, item: &'t Item) -> Result<(), AllocError>
        ensures spells { OnOk result (self.new.0 ≡ item_spelling item.now ++ self.old.0) }
        ensures falls { OnOk result (self.new.1 < item_weight item.now + self.old.1) }
    {
        match item {
            Item::Define {
                specs,
                declarator,
                body,
            } => {
                self.open_block(body)?;
                self.open_declarator(declarator)?;
                self.open_specs(specs)
            }
            Item::Declare(declaration) => self.open_declaration(declaration),
        }
    }

    /// The items between braces.
    #[tactic(auto, using(crate::proofs::Opening::opens_statement))]
    fn open_block(&mut self, block: &'t Block) -> Result<(), AllocError>
        ensures spells { OnOk result (self.new.0 ≡ block_spelling block.now ++ self.old.0) }
        ensures falls { OnOk result (self.new.1 < block_weight block.now + self.old.1) }
    {
        let marks = block.marks.items();
        self.push_mark(marks, 1, MARK_RIGHT_BRACE)?;
        self.push_each(block.items.items())?;
        self.push_mark(marks, 0, MARK_LEFT_BRACE)
    }

    /// A declaration or a statement.
    #[tactic(auto, using(crate::proofs::Opening::opens_statement))]
    pub(crate) fn open_block_item(&mut self, item: &'t BlockItem) -> Result<(), AllocError>
        ensures spells { OnOk result (self.new.0 ≡ block_item_spelling item.now ++ self.old.0) }
        ensures falls { OnOk result (self.new.1 < block_item_weight item.now + self.old.1) }
    {
        match item {
            BlockItem::Declare(declaration) => self.open_declaration(declaration),
            BlockItem::Do(stmt) => self.open_stmt(stmt),
        }
    }

    /// The labels, and then the statement.
    #[tactic(auto, using(crate::proofs::Opening::opens_statement))]
    pub(crate) fn open_stmt(&mut self, stmt: &'t Stmt) -> Result<(), AllocError>
        ensures spells { OnOk result (self.new.0 ≡ stmt_spelling stmt.now ++ self.old.0) }
        ensures falls { OnOk result (self.new.1 < stmt_weight stmt.now + self.old.1) }
    {
        self.open_stmt_kind(&stmt.kind)?;
        self.push_each(stmt.labels.items())
    }

    /// A name, a constant expression after `case`, or `default`, and then `:`.
    #[tactic(auto, using(crate::proofs::Opening::opens_statement))]
    pub(crate) fn open_label(&mut self, label: &'t Mark) -> Result<(), AllocError>
        ensures spells { OnOk result (self.new.0 ≡ label_spelling label.now ++ self.old.0) }
        ensures falls { OnOk result (self.new.1 < label_weight label.now + self.old.1) }
    {
        match label {
            Mark::Label(name, marks) => {
                self.push_mark(marks.items(), 0, MARK_COLON)?;
                self.push_token(*name, Want::Word)
            }
            Mark::Case(expr, marks) => {
                let marks = marks.items();
                self.push_mark(marks, 1, MARK_COLON)?;
                self.open_expr(expr)?;
                self.push_key(marks, 0, KEY_CASE)
            }
            Mark::Default(token, marks) => {
                self.push_mark(marks.items(), 0, MARK_COLON)?;
                self.push_token(*token, Want::Key(KEY_DEFAULT))
            }
        }
    }

    /// A statement without its labels.
    #[tactic(auto, using(crate::proofs::Opening::opens_statement))]
    fn open_stmt_kind(&mut self, kind: &'t StmtKind) -> Result<(), AllocError>
        ensures spells { OnOk result (self.new.0 ≡ stmt_kind_spelling kind.now ++ self.old.0) }
        ensures falls { OnOk result (self.new.1 < stmt_kind_weight kind.now + self.old.1) }
    {
        match kind {
            StmtKind::Empty(marks) => self.push_mark(marks.items(), 0, MARK_SEMICOLON),
            StmtKind::Value(expr, marks) => {
                self.push_mark(marks.items(), 0, MARK_SEMICOLON)?;
                self.open_expr(expr)
            }
            StmtKind::Braced(block) => self.open_block(block),
            StmtKind::If { arms, other, marks } => {
                self.open_arms(arms.items(), other, marks.items())
            }
            StmtKind::While(expr, body, marks) => {
                self.push(Part::Stmt(body.get()))?;
                self.open_key_parens(KEY_WHILE, expr, marks.items())
            }
            StmtKind::DoWhile(body, expr, marks) => {
                let marks = marks.items();
                self.push_mark(marks, 4, MARK_SEMICOLON)?;
                self.open_key_parens(KEY_WHILE, expr, past(marks, 1))?;
                self.push(Part::Stmt(body.get()))?;
                self.push_key(marks, 0, KEY_DO)
            }
            StmtKind::For {
                init,
                cond,
                step,
                body,
                marks,
            } => {
                let marks = marks.items();
                self.push(Part::Stmt(body.get()))?;
                self.push_mark(marks, 3, MARK_RIGHT_PAREN)?;
                self.open_expr_if(step)?;
                self.push_mark(marks, 2, MARK_SEMICOLON)?;
                self.open_expr_if(cond)?;
                self.open_for_init(init.get())?;
                self.push_mark(marks, 1, MARK_LEFT_PAREN)?;
                self.push_key(marks, 0, KEY_FOR)
            }
            StmtKind::Switch(expr, body, marks) => {
                self.push(Part::Stmt(body.get()))?;
                self.open_key_parens(KEY_SWITCH, expr, marks.items())
            }
            StmtKind::Break(marks) => self.open_jump(KEY_BREAK, marks.items()),
            StmtKind::Continue(marks) => self.open_jump(KEY_CONTINUE, marks.items()),
            StmtKind::Goto(name, marks) => {
                let marks = marks.items();
                self.push_mark(marks, 1, MARK_SEMICOLON)?;
                self.push_token(*name, Want::Word)?;
                self.push_key(marks, 0, KEY_GOTO)
            }
            StmtKind::Return(expr, marks) => {
                let marks = marks.items();
                self.push_mark(marks, 1, MARK_SEMICOLON)?;
                if let Some(expr) = expr {
                    self.open_expr(expr)?;
                }
                self.push_key(marks, 0, KEY_RETURN)
            }
        }
    }

    /// The conditions of an `if`, with `else` between two of them, and then `else` and the last
    /// part, if any.
    fn open_arms(
        &mut self,
        arms: &'t [(Expr, Stmt)],
        other: &'t Option<Boxed<Stmt>>,
        marks: &'t [u32],
    ) -> Result<(), AllocError>
        ensures spells { OnOk result (self.new.0 ≡ if_arms
            (option_map stmt_spelling other.now) (spelled_arms arms.now) marks.now ++ self.old.0) }
        ensures weighs { OnOk result (self.new.1 ≤ 1 + (arms_weight arms.now +
            (weight_if (option_map stmt_weight other.now) + self.old.1))) }
    {
        match arms.split_first() {
            Some((arm, arms)) => {
                self.push(Part::OtherArms(arms, other, past(marks, 3)))?;
                self.open_arm_of_if(arm, marks)
            }
            None => self.open_else(other, marks),
        }
    }

    /// The conditions of an `if` after the first, each after its `else`, and then `else` and the
    /// last part, if any.
    pub(crate) fn open_other_arms(
        &mut self,
        arms: &'t [(Expr, Stmt)],
        other: &'t Option<Boxed<Stmt>>,
        marks: &'t [u32],
    ) -> Result<(), AllocError>
        ensures spells { OnOk result (self.new.0 ≡ other_arms
            (option_map stmt_spelling other.now) (spelled_arms arms.now) marks.now ++ self.old.0) }
        ensures falls { OnOk result (self.new.1 < 2 + (arms_weight arms.now +
            (weight_if (option_map stmt_weight other.now) + self.old.1))) }
    {
        match arms.split_first() {
            Some((arm, arms)) => {
                self.push(Part::OtherArms(arms, other, past(marks, 4)))?;
                self.open_arm_of_if(arm, past(marks, 1))?;
                self.push_key(marks, 0, KEY_ELSE)
            }
            None => self.open_else(other, marks),
        }
    }

    /// `if`, a condition in parentheses, and what is done where it holds.
    fn open_arm_of_if(&mut self, arm: &'t (Expr, Stmt), marks: &[u32]) -> Result<(), AllocError>
        ensures spells { OnOk result (self.new.0 ≡
            if_arm (arm.now.0, stmt_spelling arm.now.1) marks.now ++ self.old.0) }
        ensures weighs { OnOk result (self.new.1 ≤
            3 + (expr_weight arm.now.0 + (stmt_weight arm.now.1 + self.old.1))) }
    {
        self.push(Part::Stmt(&arm.1))?;
        self.open_key_parens(KEY_IF, &arm.0, marks)
    }

    /// `else` and the last part, if any.
    fn open_else(&mut self, other: &'t Option<Boxed<Stmt>>, marks: &[u32]) -> Result<(), AllocError>
        ensures spells { OnOk result (self.new.0 ≡ key marks.now 0 KEY_ELSE ++
            (if_some (option_map stmt_spelling other.now) ++ self.old.0)) }
        ensures weighs { OnOk result (self.new.1 ≤
            1 + (weight_if (option_map stmt_weight other.now) + self.old.1)) }
    {
        if let Some(stmt) = other {
            self.push(Part::Stmt(stmt.get()))?;
        }
        self.push_key(marks, 0, KEY_ELSE)
    }

    /// The expression, where it is there.
    fn open_expr_if(&mut self, expr: &'t Option<Boxed<Expr>>) -> Result<(), AllocError>
        ensures spells { OnOk result (self.new.0 ≡ expr_if expr.now ++ self.old.0) }
        ensures weighs { OnOk result
            (self.new.1 ≤ weight_if (option_map expr_weight expr.now) + self.old.1) }
    {
        match expr {
            Some(expr) => self.open_expr(expr.get()),
            None => Ok(()),
        }
    }

    /// What stands before the second part of a `for`, with its `;`.
    #[tactic(auto, using(crate::proofs::Opening::opens_statement))]
    fn open_for_init(&mut self, init: &'t ForInit) -> Result<(), AllocError>
        ensures spells { OnOk result (self.new.0 ≡ for_init_spelling init.now ++ self.old.0) }
        ensures falls { OnOk result (self.new.1 < for_init_weight init.now + self.old.1) }
    {
        match init {
            ForInit::Nothing(marks) => self.push_mark(marks.items(), 0, MARK_SEMICOLON),
            ForInit::Value(expr, marks) => {
                self.push_mark(marks.items(), 0, MARK_SEMICOLON)?;
                self.open_expr(expr)
            }
            ForInit::Declare(declaration) => self.open_declaration(declaration),
        }
    }

    /// The keyword of a jump, and `;`.
    fn open_jump(&mut self, number: u8, marks: &[u32]) -> Result<(), AllocError>
        ensures spells { OnOk result (self.new.0 ≡
            key marks.now 0 number ++ (mark marks.now 1 MARK_SEMICOLON ++ self.old.0)) }
        ensures weighs { OnOk result (self.new.1 ≤ 2 + self.old.1) }
    {
        self.push_mark(marks, 1, MARK_SEMICOLON)?;
        self.push_key(marks, 0, number)
    }
}
