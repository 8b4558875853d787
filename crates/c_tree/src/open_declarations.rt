//! One level of a declaration, its specifiers and its declarators.

ghost use Rattle.std.specs.Prelude.{◌≡◌, ◌+◌, ◌<◌, ◌≤◌, ◌++◌, map, OnOk};
ghost use Rattle.std.specs.Option.{option_map};
ghost use Rattle.c_tree.specs.Spell.{core_spelling, declaration_spelling, declarator_spelling};
ghost use Rattle.c_tree.specs.Spell.{designator_spelling, enumerator_spelling, expr_spelling};
ghost use Rattle.c_tree.specs.Spell.{in_parens, init_declarator_spelling, init_item_spelling};
ghost use Rattle.c_tree.specs.Spell.{init_spelling, key_parens, members, param_spelling};
ghost use Rattle.c_tree.specs.Spell.{params_end, pointer_spelling, spec_spelling};
ghost use Rattle.c_tree.specs.Spell.{specs_spelling, suffix_spelling, type_name_spelling};
ghost use Rattle.c_tree.specs.Weights.{core_weight, declaration_weight, declarator_weight};
ghost use Rattle.c_tree.specs.Weights.{designator_weight, enumerator_weight, expr_weight};
ghost use Rattle.c_tree.specs.Weights.{init_declarator_weight, init_item_weight, init_weight};
ghost use Rattle.c_tree.specs.Weights.{listed, param_weight, pointer_weight, spec_weight};
ghost use Rattle.c_tree.specs.Weights.{specs_weight, suffix_weight, type_name_weight, weight_if};

use crate::part::Part;
use crate::pending::{Pending, past, past_commas};
use crate::symbol::{Slot, Want};
use crate::tree::{
    Core, Declaration, Declarator, Designator, Enumerator, Expr, Init, InitDeclarator, InitItem,
    Param, Pointer, Spec, Specs, Suffix, TypeName,
};
use c_lexer::keyword::{KEY_ALIGNAS, KEY_ATOMIC, KEY_ENUM, KEY_STATIC_ASSERT};
use c_lexer::mark::{
    MARK_COLON, MARK_COMMA, MARK_DOT, MARK_ELLIPSIS, MARK_EQUAL, MARK_LEFT_BRACE,
    MARK_LEFT_BRACKET, MARK_LEFT_PAREN, MARK_RIGHT_BRACE, MARK_RIGHT_BRACKET, MARK_RIGHT_PAREN,
    MARK_SEMICOLON, MARK_STAR,
};
use joern_io::List;
use std::alloc::AllocError;

impl<'t> Pending<'t> {
    /// Specifiers and declarators, or a static assertion.
    #[tactic(auto, using(crate::proofs::Opening::opens_declaration))]
    pub(crate) fn open_declaration(
        &mut self,
        declaration: &'t Declaration,
    ) -> Result<(), AllocError>
        ensures spells { OnOk result
            (self.new.0 ≡ declaration_spelling declaration.now ++ self.old.0) }
        ensures falls { OnOk result (self.new.1 < declaration_weight declaration.now + self.old.1) }
    {
        match declaration {
            Declaration::Names { specs, list, marks } => {
                let list = list.items();
                let marks = marks.items();
                self.push_mark(past_commas(marks, list.len()), 0, MARK_SEMICOLON)?;
                self.push_list(list, marks)?;
                self.open_specs(specs)
            }
            Declaration::Assert { cond, text, marks } => {
                let marks = marks.items();
                self.push_mark(marks, 4, MARK_SEMICOLON)?;
                self.push_mark(marks, 3, MARK_RIGHT_PAREN)?;
                self.push_tokens(text.items(), Want::Text)?;
                self.push_mark(marks, 2, MARK_COMMA)?;
                self.open_expr(cond)?;
                self.push_mark(marks, 1, MARK_LEFT_PAREN)?;
                self.push_key(marks, 0, KEY_STATIC_ASSERT)
            }
        }
    }

    /// The declarator, and then `=` and the initialiser, if any.
    #[tactic(auto, using(crate::proofs::Opening::opens_declaration))]
    pub(crate) fn open_init_declarator(
        &mut self,
        declarator: &'t InitDeclarator,
    ) -> Result<(), AllocError>
        ensures spells { OnOk result
            (self.new.0 ≡ init_declarator_spelling declarator.now ++ self.old.0) }
        ensures falls { OnOk result
            (self.new.1 < init_declarator_weight declarator.now + self.old.1) }
    {
        if let Some(init) = &declarator.init {
            self.open_init(init)?;
            self.push_mark(declarator.marks.items(), 0, MARK_EQUAL)?;
        }
        self.open_declarator(&declarator.declarator)
    }

    /// A value, or a list in braces.
    #[tactic(auto, using(crate::proofs::Opening::opens_declaration))]
    fn open_init(&mut self, init: &'t Init) -> Result<(), AllocError>
        ensures spells { OnOk result (self.new.0 ≡ init_spelling init.now ++ self.old.0) }
        ensures falls { OnOk result (self.new.1 < init_weight init.now + self.old.1) }
    {
        match init {
            Init::Value(expr) => self.open_expr(expr),
            Init::Items(list, marks) => self.push_braced(list.items(), marks.items()),
        }
    }

    /// The designators and `=`, if any, and then the initialiser.
    #[tactic(auto, using(crate::proofs::Opening::opens_declaration))]
    pub(crate) fn open_init_item(&mut self, item: &'t InitItem) -> Result<(), AllocError>
        ensures spells { OnOk result (self.new.0 ≡ init_item_spelling item.now ++ self.old.0) }
        ensures falls { OnOk result (self.new.1 < init_item_weight item.now + self.old.1) }
    {
        self.open_init(&item.init)?;
        self.push_mark(item.marks.items(), 0, MARK_EQUAL)?;
        self.push_each(item.designators.items())
    }

    /// An index in brackets, or a name after `.`.
    #[tactic(auto, using(crate::proofs::Opening::opens_declaration))]
    pub(crate) fn open_designator(&mut self, designator: &'t Designator) -> Result<(), AllocError>
        ensures spells { OnOk result
            (self.new.0 ≡ designator_spelling designator.now ++ self.old.0) }
        ensures falls { OnOk result (self.new.1 < designator_weight designator.now + self.old.1) }
    {
        match designator {
            Designator::Index(expr, marks) => {
                let marks = marks.items();
                self.push_mark(marks, 1, MARK_RIGHT_BRACKET)?;
                self.open_expr(expr)?;
                self.push_mark(marks, 0, MARK_LEFT_BRACKET)
            }
            Designator::Field(name, marks) => {
                self.push_token(*name, Want::Word)?;
                self.push_mark(marks.items(), 0, MARK_DOT)
            }
        }
    }

    /// The specifiers, one after the other.
    #[tactic(auto, using(crate::proofs::Opening::opens_declaration))]
    pub(crate) fn open_specs(&mut self, specs: &'t Specs) -> Result<(), AllocError>
        ensures spells { OnOk result (self.new.0 ≡ specs_spelling specs.now ++ self.old.0) }
        ensures falls { OnOk result (self.new.1 < specs_weight specs.now + self.old.1) }
    {
        self.push_each(specs.words.items())
    }

    /// One keyword or name, an atomic type, an alignment, a record or an enumeration.
    #[tactic(auto, using(crate::proofs::Opening::opens_declaration))]
    pub(crate) fn open_spec(&mut self, spec: &'t Spec) -> Result<(), AllocError>
        ensures spells { OnOk result (self.new.0 ≡ spec_spelling spec.now ++ self.old.0) }
        ensures falls { OnOk result (self.new.1 < spec_weight spec.now + self.old.1) }
    {
        match spec {
            Spec::Storage(token) => self.push_token(*token, Want::Among(Slot::Storage)),
            Spec::Function(token) => self.push_token(*token, Want::Among(Slot::Function)),
            Spec::Qualifier(token) => self.push_token(*token, Want::Among(Slot::Qualifier)),
            Spec::Basic(token) => self.push_token(*token, Want::Among(Slot::Basic)),
            Spec::Named(name) => self.push_token(*name, Want::Word),
            Spec::Atomic(type_name, marks) => {
                let marks = marks.items();
                self.open_type_in_parens(type_name.get(), past(marks, 1))?;
                self.push_key(marks, 0, KEY_ATOMIC)
            }
            Spec::AlignType(type_name, marks) => {
                let marks = marks.items();
                self.open_type_in_parens(type_name.get(), past(marks, 1))?;
                self.push_key(marks, 0, KEY_ALIGNAS)
            }
            Spec::AlignExpr(expr, marks) => self.open_key_parens(KEY_ALIGNAS, expr, marks.items()),
            Spec::Record {
                key,
                tag,
                body,
                marks,
            } => {
                self.open_members(body, marks.items())?;
                self.push_if(*tag, Want::Word)?;
                self.push_token(*key, Want::Among(Slot::RecordKey))
            }
            Spec::Enumeration {
                key,
                tag,
                body,
                marks,
            } => {
                if let Some(list) = body {
                    self.push_braced(list.items(), marks.items())?;
                }
                self.push_if(*tag, Want::Word)?;
                self.push_token(*key, Want::Key(KEY_ENUM))
            }
        }
    }

    /// The declarations of members between braces, where there is a body.
    fn open_members(
        &mut self,
        body: &'t Option<List<Declaration>>,
        marks: &[u32],
    ) -> Result<(), AllocError>
        ensures spells { OnOk result (self.new.0 ≡
            members (option_map (map declaration_spelling) body.now) marks.now ++ self.old.0) }
        ensures weighs { OnOk result (self.new.1 ≤
            2 + (weight_if (option_map listed (option_map (map declaration_weight) body.now)) +
            self.old.1)) }
    {
        if let Some(list) = body {
            self.push_mark(marks, 1, MARK_RIGHT_BRACE)?;
            self.push_each(list.items())?;
            self.push_mark(marks, 0, MARK_LEFT_BRACE)?;
        }
        Ok(())
    }

    /// A keyword, and an expression in parentheses.
    pub(crate) fn open_key_parens(
        &mut self,
        number: u8,
        expr: &'t Expr,
        marks: &[u32],
    ) -> Result<(), AllocError>
        ensures spells { OnOk result
            (self.new.0 ≡ key_parens number (expr_spelling expr.now) marks.now ++ self.old.0) }
        ensures weighs { OnOk result (self.new.1 ≤ 3 + (expr_weight expr.now + self.old.1)) }
    {
        self.open_parens(expr, past(marks, 1))?;
        self.push_key(marks, 0, number)
    }

    /// A type name in parentheses.
    #[tactic(auto, using(crate::proofs::Opening::opens_declaration))]
    pub(crate) fn open_type_in_parens(
        &mut self,
        type_name: &'t TypeName,
        marks: &[u32],
    ) -> Result<(), AllocError>
        ensures spells { OnOk result
            (self.new.0 ≡ in_parens (type_name_spelling type_name.now) marks.now ++ self.old.0) }
        ensures weighs { OnOk result
            (self.new.1 ≤ 2 + (type_name_weight type_name.now + self.old.1)) }
    {
        self.push_mark(marks, 1, MARK_RIGHT_PAREN)?;
        self.open_declarator(&type_name.declarator)?;
        self.open_specs(&type_name.specs)?;
        self.push_mark(marks, 0, MARK_LEFT_PAREN)
    }

    /// The name, and then `=` and the value, if any.
    #[tactic(auto, using(crate::proofs::Opening::opens_declaration))]
    pub(crate) fn open_enumerator(&mut self, enumerator: &'t Enumerator) -> Result<(), AllocError>
        ensures spells { OnOk result
            (self.new.0 ≡ enumerator_spelling enumerator.now ++ self.old.0) }
        ensures falls { OnOk result (self.new.1 < enumerator_weight enumerator.now + self.old.1) }
    {
        if let Some(value) = &enumerator.value {
            self.open_expr(value)?;
            self.push_mark(enumerator.marks.items(), 0, MARK_EQUAL)?;
        }
        self.push_token(enumerator.name, Want::Word)
    }

    /// The pointers, the core, the suffixes, and then `:` and the width, if any.
    #[tactic(auto, using(crate::proofs::Opening::opens_declaration))]
    pub(crate) fn open_declarator(&mut self, declarator: &'t Declarator) -> Result<(), AllocError>
        ensures spells { OnOk result
            (self.new.0 ≡ declarator_spelling declarator.now ++ self.old.0) }
        ensures falls { OnOk result (self.new.1 < declarator_weight declarator.now + self.old.1) }
    {
        if let Some(width) = &declarator.width {
            self.open_expr(width.get())?;
            self.push_mark(declarator.marks.items(), 0, MARK_COLON)?;
        }
        self.push_each(declarator.suffixes.items())?;
        self.open_core(&declarator.core)?;
        self.push_each(declarator.pointers.items())
    }

    /// `*`, and then the qualifiers.
    #[tactic(auto, using(crate::proofs::Opening::opens_declaration))]
    pub(crate) fn open_pointer(&mut self, pointer: &'t Pointer) -> Result<(), AllocError>
        ensures spells { OnOk result (self.new.0 ≡ pointer_spelling pointer.now ++ self.old.0) }
        ensures falls { OnOk result (self.new.1 < pointer_weight pointer.now + self.old.1) }
    {
        self.push_tokens(pointer.qualifiers.items(), Want::Among(Slot::Qualifier))?;
        self.push_token(pointer.star, Want::Mark(MARK_STAR))
    }

    /// The name, a declarator in parentheses, or nothing.
    #[tactic(auto, using(crate::proofs::Opening::opens_declaration))]
    fn open_core(&mut self, core: &'t Core) -> Result<(), AllocError>
        ensures spells { OnOk result (self.new.0 ≡ core_spelling core.now ++ self.old.0) }
        ensures falls { OnOk result (self.new.1 < core_weight core.now + self.old.1) }
    {
        match core {
            Core::Name(name) => self.push_token(*name, Want::Word),
            Core::Group(declarator, marks) => {
                let marks = marks.items();
                self.push_mark(marks, 1, MARK_RIGHT_PAREN)?;
                self.push(Part::Declarator(declarator.get()))?;
                self.push_mark(marks, 0, MARK_LEFT_PAREN)
            }
            Core::Empty => Ok(()),
        }
    }

    /// The size of an array in brackets, or parameters in parentheses.
    #[tactic(auto, using(crate::proofs::Opening::opens_declaration))]
    pub(crate) fn open_suffix(&mut self, suffix: &'t Suffix) -> Result<(), AllocError>
        ensures spells { OnOk result (self.new.0 ≡ suffix_spelling suffix.now ++ self.old.0) }
        ensures falls { OnOk result (self.new.1 < suffix_weight suffix.now + self.old.1) }
    {
        match suffix {
            Suffix::Array {
                words,
                size,
                star,
                marks,
            } => {
                let marks = marks.items();
                self.push_mark(marks, 1, MARK_RIGHT_BRACKET)?;
                self.push_if(*star, Want::Mark(MARK_STAR))?;
                if let Some(size) = size {
                    self.open_expr(size)?;
                }
                self.push_tokens(words.items(), Want::Among(Slot::ArrayWord))?;
                self.push_mark(marks, 0, MARK_LEFT_BRACKET)
            }
            Suffix::Params { list, dots, marks } => {
                let list = list.items();
                let marks = marks.items();
                let inside = past(marks, 1);
                self.push_params_end(*dots, past_commas(inside, list.len()))?;
                self.push_list(list, inside)?;
                self.push_mark(marks, 0, MARK_LEFT_PAREN)
            }
        }
    }

    /// Puts the `)` that ends parameters, after `...` or nothing, before the parts that are left.
    fn push_params_end(&mut self, dots: Option<u32>, marks: &[u32]) -> Result<(), AllocError>
        ensures spells { OnOk result (self.new.0 ≡ params_end dots marks.now ++ self.old.0) }
        ensures weighs { OnOk result (self.new.1 ≤ 3 + self.old.1) }
    {
        match dots {
            Some(dots) => {
                self.push_mark(marks, 1, MARK_RIGHT_PAREN)?;
                self.push_token(dots, Want::Mark(MARK_ELLIPSIS))?;
                self.push_mark(marks, 0, MARK_COMMA)
            }
            None => self.push_mark(marks, 0, MARK_RIGHT_PAREN),
        }
    }

    /// The specifiers, and then the declarator.
    #[tactic(auto, using(crate::proofs::Opening::opens_declaration))]
    pub(crate) fn open_param(&mut self, param: &'t Param) -> Result<(), AllocError>
        ensures spells { OnOk result (self.new.0 ≡ param_spelling param.now ++ self.old.0) }
        ensures falls { OnOk result (self.new.1 < param_weight param.now + self.old.1) }
    {
        self.open_declarator(&param.declarator)?;
        self.open_specs(&param.specs)
    }
}
