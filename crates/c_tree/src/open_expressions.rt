//! One level of an expression.

ghost use Rattle.std.specs.Prelude.{◌≡◌, ◌+◌, ◌<◌, ◌≤◌, ◌++◌, length, OnOk};
ghost use Rattle.c_tree.specs.Spell.{arm_spelling, assign_spelling, base_form_spelling};
ghost use Rattle.c_tree.specs.Spell.{base_spelling, binary_spelling, cond_spelling};
ghost use Rattle.c_tree.specs.Spell.{expr_spelling, in_parens, literal_spelling};
ghost use Rattle.c_tree.specs.Spell.{operand_spelling, post_spelling, prefix_spelling};
ghost use Rattle.c_tree.specs.Spell.{prefixed_spelling, target_spelling};
ghost use Rattle.c_tree.specs.Weights.{arm_weight, assign_weight, base_form_weight, base_weight};
ghost use Rattle.c_tree.specs.Weights.{binary_weight, cond_weight, expr_weight};
ghost use Rattle.c_tree.specs.Weights.{operand_weight, post_weight, prefix_weight};
ghost use Rattle.c_tree.specs.Weights.{prefixed_weight, target_weight};

use crate::pending::{Pending, past, past_commas};
use crate::symbol::{Slot, Want};
use crate::tree::{Arm, Assign, Base, BaseForm, Binary, Cond, Expr, Post, Prefix, Prefixed};
use c_lexer::mark::{
    MARK_ARROW, MARK_COLON, MARK_DOT, MARK_LEFT_BRACKET, MARK_LEFT_PAREN, MARK_QUESTION,
    MARK_RIGHT_BRACKET, MARK_RIGHT_PAREN,
};
use std::alloc::AllocError;

impl<'t> Pending<'t> {
    /// The parts, with a comma between two of them.
    #[tactic(auto, using(crate::proofs::Opening::opens_expression))]
    pub(crate) fn open_expr(&mut self, expr: &'t Expr) -> Result<(), AllocError>
        ensures spells { OnOk result (self.new.0 ≡ expr_spelling expr.now ++ self.old.0) }
        ensures falls { OnOk result (self.new.1 < expr_weight expr.now + self.old.1) }
    {
        self.push_list(expr.parts.items(), expr.marks.items())
    }

    /// The targets, and then the value.
    #[tactic(auto, using(crate::proofs::Opening::opens_expression))]
    pub(crate) fn open_assign(&mut self, assign: &'t Assign) -> Result<(), AllocError>
        ensures spells { OnOk result (self.new.0 ≡ assign_spelling assign.now ++ self.old.0) }
        ensures falls { OnOk result (self.new.1 < assign_weight assign.now + self.old.1) }
    {
        self.open_cond(&assign.value)?;
        self.push_each(assign.targets.items())
    }

    /// What is assigned to, and then the operator.
    #[tactic(auto, using(crate::proofs::Opening::opens_expression))]
    pub(crate) fn open_target(&mut self, target: &'t (Prefixed, u32)) -> Result<(), AllocError>
        ensures spells { OnOk result (self.new.0 ≡ target_spelling target.now ++ self.old.0) }
        ensures falls { OnOk result (self.new.1 < target_weight target.now + self.old.1) }
    {
        self.push_token(target.1, Want::Among(Slot::AssignOp))?;
        self.open_prefixed(&target.0)
    }

    /// The conditions, and then what is taken last.
    #[tactic(auto, using(crate::proofs::Opening::opens_expression))]
    fn open_cond(&mut self, cond: &'t Cond) -> Result<(), AllocError>
        ensures spells { OnOk result (self.new.0 ≡ cond_spelling cond.now ++ self.old.0) }
        ensures falls { OnOk result (self.new.1 < cond_weight cond.now + self.old.1) }
    {
        self.open_binary(&cond.last)?;
        self.push_each(cond.arms.items())
    }

    /// The condition, `?`, what is taken where it holds, and `:`.
    #[tactic(auto, using(crate::proofs::Opening::opens_expression))]
    pub(crate) fn open_arm(&mut self, arm: &'t Arm) -> Result<(), AllocError>
        ensures spells { OnOk result (self.new.0 ≡ arm_spelling arm.now ++ self.old.0) }
        ensures falls { OnOk result (self.new.1 < arm_weight arm.now + self.old.1) }
    {
        let marks = arm.marks.items();
        self.push_mark(marks, 1, MARK_COLON)?;
        self.open_expr(&arm.then)?;
        self.push_mark(marks, 0, MARK_QUESTION)?;
        self.open_binary(&arm.test)
    }

    /// The first operand, and then the others.
    #[tactic(auto, using(crate::proofs::Opening::opens_expression))]
    fn open_binary(&mut self, binary: &'t Binary) -> Result<(), AllocError>
        ensures spells { OnOk result (self.new.0 ≡ binary_spelling binary.now ++ self.old.0) }
        ensures falls { OnOk result (self.new.1 < binary_weight binary.now + self.old.1) }
    {
        self.push_each(binary.rest.items())?;
        self.open_prefixed(&binary.first)
    }

    /// The operator, and then its right operand.
    #[tactic(auto, using(crate::proofs::Opening::opens_expression))]
    pub(crate) fn open_operand(&mut self, operand: &'t (u32, Prefixed)) -> Result<(), AllocError>
        ensures spells { OnOk result (self.new.0 ≡ operand_spelling operand.now ++ self.old.0) }
        ensures falls { OnOk result (self.new.1 < operand_weight operand.now + self.old.1) }
    {
        self.open_prefixed(&operand.1)?;
        self.push_token(operand.0, Want::Among(Slot::BinaryOp))
    }

    /// The operators and casts, and then the operand.
    #[tactic(auto, using(crate::proofs::Opening::opens_expression))]
    fn open_prefixed(&mut self, prefixed: &'t Prefixed) -> Result<(), AllocError>
        ensures spells { OnOk result (self.new.0 ≡ prefixed_spelling prefixed.now ++ self.old.0) }
        ensures falls { OnOk result (self.new.1 < prefixed_weight prefixed.now + self.old.1) }
    {
        self.open_base(&prefixed.base)?;
        self.push_each(prefixed.prefixes.items())
    }

    /// An operator, or a type name in parentheses.
    #[tactic(auto, using(crate::proofs::Opening::opens_expression))]
    pub(crate) fn open_prefix(&mut self, prefix: &'t Prefix) -> Result<(), AllocError>
        ensures spells { OnOk result (self.new.0 ≡ prefix_spelling prefix.now ++ self.old.0) }
        ensures falls { OnOk result (self.new.1 < prefix_weight prefix.now + self.old.1) }
    {
        match prefix {
            Prefix::Op(token) => self.push_token(*token, Want::Among(Slot::PrefixOp)),
            Prefix::Cast(type_name, marks) => {
                self.open_type_in_parens(type_name.get(), marks.items())
            }
        }
    }

    /// What the suffixes are applied to, and then the suffixes.
    #[tactic(auto, using(crate::proofs::Opening::opens_expression))]
    fn open_base(&mut self, base: &'t Base) -> Result<(), AllocError>
        ensures spells { OnOk result (self.new.0 ≡ base_spelling base.now ++ self.old.0) }
        ensures falls { OnOk result (self.new.1 < base_weight base.now + self.old.1) }
    {
        self.push_each(base.suffixes.items())?;
        self.open_base_form(&base.form)
    }

    /// A name, a literal, an expression in parentheses, a compound literal, or the size or the
    /// alignment of a type.
    #[tactic(auto, using(crate::proofs::Opening::opens_expression))]
    fn open_base_form(&mut self, form: &'t BaseForm) -> Result<(), AllocError>
        ensures spells { OnOk result (self.new.0 ≡ base_form_spelling form.now ++ self.old.0) }
        ensures falls { OnOk result (self.new.1 < base_form_weight form.now + self.old.1) }
    {
        match form {
            BaseForm::Name(token) => self.push_token(*token, Want::Word),
            BaseForm::Literal(tokens) => self.open_literal(tokens.items()),
            BaseForm::Group(expr, marks) => self.open_parens(expr.get(), marks.items()),
            BaseForm::Compound(type_name, list, marks) => {
                let marks = marks.items();
                self.push_braced(list.items(), past(marks, 2))?;
                self.open_type_in_parens(type_name.get(), marks)
            }
            BaseForm::SizeType(size, type_name, marks) => {
                self.open_type_in_parens(type_name.get(), marks.items())?;
                self.push_token(*size, Want::Among(Slot::SizeKey))
            }
        }
    }

    /// The token of a constant or a string, or string literals.
    fn open_literal(&mut self, tokens: &[u32]) -> Result<(), AllocError>
        ensures spells { OnOk result (self.new.0 ≡ literal_spelling tokens.now ++ self.old.0) }
        ensures weighs { OnOk result (self.new.1 ≤ length tokens.now + self.old.1) }
    {
        match tokens {
            [token] => self.push_token(*token, Want::Among(Slot::Literal)),
            tokens => self.push_tokens(tokens, Want::Text),
        }
    }

    /// An expression in parentheses.
    pub(crate) fn open_parens(&mut self, expr: &'t Expr, marks: &[u32]) -> Result<(), AllocError>
        ensures spells { OnOk result
            (self.new.0 ≡ in_parens (expr_spelling expr.now) marks.now ++ self.old.0) }
        ensures falls { OnOk result (self.new.1 < 2 + (expr_weight expr.now + self.old.1)) }
    {
        self.push_mark(marks, 1, MARK_RIGHT_PAREN)?;
        self.open_expr(expr)?;
        self.push_mark(marks, 0, MARK_LEFT_PAREN)
    }

    /// A subscript, the arguments of a call, a member, or `++` or `--`.
    #[tactic(auto, using(crate::proofs::Opening::opens_expression))]
    pub(crate) fn open_post(&mut self, post: &'t Post) -> Result<(), AllocError>
        ensures spells { OnOk result (self.new.0 ≡ post_spelling post.now ++ self.old.0) }
        ensures falls { OnOk result (self.new.1 < post_weight post.now + self.old.1) }
    {
        match post {
            Post::Index(expr, marks) => {
                let marks = marks.items();
                self.push_mark(marks, 1, MARK_RIGHT_BRACKET)?;
                self.open_expr(expr)?;
                self.push_mark(marks, 0, MARK_LEFT_BRACKET)
            }
            Post::Call(arguments, marks) => {
                let marks = marks.items();
                let arguments = arguments.items();
                let inside = past(marks, 1);
                self.push_mark(past_commas(inside, arguments.len()), 0, MARK_RIGHT_PAREN)?;
                self.push_list(arguments, inside)?;
                self.push_mark(marks, 0, MARK_LEFT_PAREN)
            }
            Post::Dot(name, marks) => {
                self.push_token(*name, Want::Word)?;
                self.push_mark(marks.items(), 0, MARK_DOT)
            }
            Post::Arrow(name, marks) => {
                self.push_token(*name, Want::Word)?;
                self.push_mark(marks.items(), 0, MARK_ARROW)
            }
            Post::Step(token) => self.push_token(*token, Want::Among(Slot::Step)),
        }
    }
}
