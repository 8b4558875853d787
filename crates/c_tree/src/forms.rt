//! Forms of which a tree has many.

ghost use Rattle.std.specs.Prelude.{◌≡◌, [], ◌∷◌, IfOk};
ghost use Rattle.c_tree.specs.Forms.{abstract, assigned, basic, expression_stmt, literal_operand};
ghost use Rattle.c_tree.specs.Forms.{name_operand, parameterless, sole, unconditional};

use crate::tree::{
    Assign, Base, BaseForm, Binary, Cond, Core, Declarator, Expr, Param, Prefixed, Spec, Specs,
    Stmt, StmtKind, Suffix,
};
use joern_io::List;
use std::alloc::{AllocError, Global};

/// A list of one item. It takes the memory for that item alone.
pub fn list_of_one<T: Drop>(alloc: Global, item: T) -> Result<List<T>, AllocError>
    ensures { IfOk result (λ list. list ≡ item ∷ []) }
{
    let mut items = Vec::with_capacity(alloc, 1)?;
    items.push(item)?;
    Ok(List::of(items))
}

/// The marks of a form that has two. They take the memory for two.
pub fn two_marks(alloc: Global, first: u32, second: u32) -> Result<List<u32>, AllocError>
    ensures { IfOk result (λ marks. marks ≡ first ∷ second ∷ []) }
{
    let mut marks = Vec::with_capacity(alloc, 2)?;
    marks.push(first)?;
    marks.push(second)?;
    Ok(List::of(marks))
}

impl Specs {
    /// One type specifier of one keyword, as `int` (C11 6.7.2).
    pub fn basic(alloc: Global, token: u32) -> Result<Specs, AllocError>
        ensures { IfOk result (λ specs. specs ≡ basic token) }
    {
        Ok(Specs {
            words: list_of_one(alloc, Spec::Basic(token))?,
        })
    }
}

impl Declarator {
    /// The declarator of nothing, as in the type name `void` (6.7.7).
    pub fn empty(alloc: Global) -> Declarator
        ensures { result ≡ abstract }
    {
        Declarator {
            pointers: List::new(alloc),
            core: Core::Empty,
            suffixes: List::new(alloc),
            width: None,
            marks: List::new(alloc),
        }
    }

    /// The declarator of a function without parameters, `NAME(void)`, by its tokens (6.7.6.3p10).
    pub fn parameterless(
        alloc: Global,
        name: u32,
        left: u32,
        void: u32,
        right: u32,
    ) -> Result<Declarator, AllocError>
        ensures { IfOk result (λ declarator. declarator ≡ parameterless name left void right) }
    {
        let unnamed = Param {
            specs: Specs::basic(alloc, void)?,
            declarator: Declarator::empty(alloc),
        };
        let params = Suffix::Params {
            list: list_of_one(alloc, unnamed)?,
            dots: None,
            marks: two_marks(alloc, left, right)?,
        };
        Ok(Declarator {
            pointers: List::new(alloc),
            core: Core::Name(name),
            suffixes: list_of_one(alloc, params)?,
            width: None,
            marks: List::new(alloc),
        })
    }
}

impl Prefixed {
    /// An operand that is a name (6.5.1p2).
    pub fn name(alloc: Global, token: u32) -> Prefixed
        ensures { result ≡ name_operand token }
    {
        Prefixed {
            prefixes: List::new(alloc),
            base: Base {
                form: BaseForm::Name(token),
                suffixes: List::new(alloc),
            },
        }
    }

    /// An operand that is one constant or string literal (6.5.1p3, p4).
    pub fn literal(alloc: Global, token: u32) -> Result<Prefixed, AllocError>
        ensures { IfOk result (λ operand. operand ≡ literal_operand token) }
    {
        Ok(Prefixed {
            prefixes: List::new(alloc),
            base: Base {
                form: BaseForm::Literal(list_of_one(alloc, token)?),
                suffixes: List::new(alloc),
            },
        })
    }
}

impl Cond {
    /// Operands joined by binary operators, without a condition (6.5.15).
    pub fn unconditional(alloc: Global, first: Prefixed, rest: List<(u32, Prefixed)>) -> Cond
        ensures { result ≡ unconditional first rest }
    {
        Cond {
            arms: List::new(alloc),
            last: Binary { first, rest },
        }
    }
}

impl Expr {
    /// An expression of one part (6.5.17).
    pub fn sole(alloc: Global, part: Assign) -> Result<Expr, AllocError>
        ensures { IfOk result (λ expr. expr ≡ sole part) }
    {
        Ok(Expr {
            parts: list_of_one(alloc, part)?,
            marks: List::new(alloc),
        })
    }
}

impl Stmt {
    /// An expression statement without labels, by its expression and `;` (6.8.3).
    pub fn expression(alloc: Global, expr: Expr, semicolon: u32) -> Result<Stmt, AllocError>
        ensures { IfOk result (λ stmt. stmt ≡ expression_stmt expr semicolon) }
    {
        Ok(Stmt {
            labels: List::new(alloc),
            kind: StmtKind::Value(expr, list_of_one(alloc, semicolon)?),
        })
    }
}
