//! What the rules of statements hand to each other (C11 6.8).

ghost use Rattle.std.specs.Prelude.{◌≡◌, ◌∷◌, [], IfOk, None};
ghost use Rattle.c_stmt.specs.StatementForms as spec;

use c_tree::{BlockItem, Expr, ForInit, Mark, Stmt, StmtKind};
use joern_io::{Boxed, List};
use std::alloc::{AllocError, Global};

/// A statement without its labels.
#[derive(Drop)]
pub struct Kinded {
    pub kind: StmtKind,
    /// Whether it ends in an `if` without an `else`: one behind it belongs to it (6.8.4.1p3).
    pub dangles: bool,
}

/// A statement.
#[derive(Drop)]
pub struct Ended {
    pub stmt: Stmt,
    /// Whether it ends in an `if` without an `else`.
    pub dangles: bool,
}

/// Items of a block, with the marks around them (6.8.2).
#[derive(Drop)]
pub struct BlockItems {
    pub list: List<BlockItem>,
    pub marks: List<u32>,
}

/// A condition in parentheses, and what is done where it holds (6.8.4.1).
#[derive(Drop)]
pub struct Arm {
    pub cond: Expr,
    pub body: Ended,
    pub left: u32,
    pub right: u32,
}

/// Arms of an `if`, with the marks up to them.
#[derive(Drop)]
pub struct Arms {
    pub list: List<(Expr, Stmt)>,
    pub marks: List<u32>,
}

/// An expression or nothing, and the mark behind it.
#[derive(Drop)]
pub struct MaybeExpr {
    pub expr: Option<Expr>,
    pub mark: u32,
}

/// What stands in the parentheses of a `for` (6.8.5.3).
#[derive(Drop)]
pub struct ForHead {
    pub init: ForInit,
    pub cond: Option<Expr>,
    pub step: Option<Expr>,
    pub marks: List<u32>,
}

/// The marks of a form that has three.
pub(crate) fn three_marks(
    alloc: Global,
    first: u32,
    second: u32,
    third: u32,
) -> Result<List<u32>, AllocError>
    ensures { IfOk result (λ marks. marks ≡ first ∷ second ∷ third ∷ []) }
{
    let mut marks = Vec::with_capacity(alloc, 3)?;
    marks.push(first)?;
    marks.push(second)?;
    marks.push(third)?;
    Ok(List::of(marks))
}

/// A statement behind its labels.
pub(crate) fn ended_of(labels: List<Mark>, kinded: Kinded) -> Ended
    ensures { result ≡ spec.ended_of labels kinded }
{
    let Kinded { kind, dangles } = kinded;
    Ended {
        stmt: Stmt { labels, kind },
        dangles,
    }
}

/// An `if` without an `else`, which dangles.
pub(crate) fn without_else(arms: Arms) -> Kinded
    ensures { result ≡ spec.without_else arms }
{
    let Arms { list, marks } = arms;
    Kinded {
        kind: StmtKind::If {
            arms: list,
            other: None,
            marks,
        },
        dangles: true,
    }
}

/// What stands in the parentheses of a `for`.
pub(crate) fn for_head(
    alloc: Global,
    key: u32,
    left: u32,
    init: ForInit,
    cond: MaybeExpr,
    step: MaybeExpr,
) -> Result<ForHead, AllocError>
    ensures { IfOk result (λ head. head ≡ spec.for_head key left init cond step) }
{
    let mut marks = Vec::with_capacity(alloc, 4)?;
    marks.push(key)?;
    marks.push(left)?;
    marks.push(cond.mark)?;
    marks.push(step.mark)?;
    Ok(ForHead {
        init,
        cond: cond.expr,
        step: step.expr,
        marks: List::of(marks),
    })
}

/// A `for` loop.
pub(crate) fn for_of(alloc: Global, head: ForHead, body: Ended) -> Result<Kinded, AllocError>
    ensures { IfOk result (λ kinded. kinded ≡ spec.for_of head body) }
{
    let ForHead {
        init,
        cond,
        step,
        marks,
    } = head;
    let Ended { stmt, dangles } = body;
    let kind = StmtKind::For {
        init: Boxed::new(alloc, init)?,
        cond: boxed(alloc, cond)?,
        step: boxed(alloc, step)?,
        body: Boxed::new(alloc, stmt)?,
        marks,
    };
    Ok(Kinded { kind, dangles })
}

/// An expression, if there is one, in a box.
fn boxed(alloc: Global, expr: Option<Expr>) -> Result<Option<Boxed<Expr>>, AllocError>
    ensures { IfOk result (λ boxed. boxed ≡ expr) }
{
    match expr {
        Some(expr) => Ok(Some(Boxed::new(alloc, expr)?)),
        None => Ok(None),
    }
}
