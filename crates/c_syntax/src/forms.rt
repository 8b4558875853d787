//! What the rules of expressions hand to each other (C11 6.5).

ghost use Rattle.std.specs.Prelude.{◌≡◌, IfOk};
ghost use Rattle.c_syntax.specs.Forms as spec;

use c_tree::{Arm, Assign, BaseForm, Binary, Expr, Init, InitItem, Prefix, Prefixed};
use joern_io::List;
use std::alloc::{AllocError, AllocFailed, Global};

/// Assignment expressions, with the marks around and between them.
#[derive(Drop)]
pub struct Parts {
    pub(crate) parts: List<Assign>,
    pub(crate) marks: List<u32>,
}

/// Items of an initialiser list, with the marks around and between them.
#[derive(Drop)]
pub struct Items {
    pub(crate) items: List<InitItem>,
    pub(crate) marks: List<u32>,
}

/// The conditions so far, and what stands behind them.
#[derive(Drop)]
pub struct Arms {
    pub(crate) arms: List<Arm>,
    pub(crate) last: Binary,
}

/// The targets so far, and the operand behind them.
#[derive(Drop)]
pub struct Begun {
    pub(crate) targets: List<(Prefixed, u32)>,
    pub(crate) first: Prefixed,
}

/// What a type name in parentheses may be.
#[derive(Clone, Copy, Drop)]
pub enum Mode {
    /// A cast, or the type of a compound literal.
    Cast,
    /// Behind `++` and `--`: the type of a compound literal.
    Literal,
    /// Behind `sizeof`, which is the token: its operand too.
    Size(u32),
}

/// Which assignment expressions may stand at a place.
#[derive(Clone, Copy, Drop)]
pub enum AssignForm {
    /// Each (6.5.16).
    Whole,
    /// Conditional expressions (6.6).
    Constant,
    /// Those that do not begin with `*`.
    Unstarred,
    /// Those that begin neither with `*` nor with `(`.
    Bare,
    /// What stands behind this token, the `*` with which they begin.
    Behind(u32),
}

/// The prefixes so far. A `sizeof` in the mode is not yet one of them.
#[derive(Drop)]
pub struct Chain {
    pub(crate) prefixes: List<Prefix>,
    pub(crate) mode: Mode,
}

/// Prefixes and what stands behind them.
#[derive(Drop)]
pub enum Found {
    /// An operand, which may have suffixes.
    Operand(List<Prefix>, BaseForm),
    /// The size of a type, which has none.
    Sized(List<Prefix>, BaseForm),
}

impl Mode {
    /// The prefixes with a `sizeof` that was left open.
    pub(crate) fn flush(self, prefixes: List<Prefix>) -> Result<List<Prefix>, AllocFailed<Prefix>>
        ensures { IfOk result (λ all. all ≡ spec.flushed self prefixes) }
    {
        let mut prefixes = prefixes;
        match self {
            Mode::Size(key) => prefixes.push(Prefix::Op(key))?,
            Mode::Cast | Mode::Literal => {}
        }
        Ok(prefixes)
    }
}

/// An item of an initialiser list that is one value (6.7.9).
pub(crate) fn value_item(alloc: Global, value: Assign) -> Result<InitItem, AllocError>
    ensures { IfOk result (λ item. item ≡ spec.value_item value) }
{
    Ok(InitItem {
        designators: List::new(alloc),
        init: Init::Value(Expr::sole(alloc, value)?),
        marks: List::new(alloc),
    })
}

/// Whether the operand may be a target: its first prefix is no cast.
pub(crate) fn is_target(operand: &Prefixed) -> bool
    ensures { result ≡ spec.is_target operand.now }
{
    match operand.prefixes.items() {
        [Prefix::Cast(..), ..] => false,
        [] | [Prefix::Op(_), ..] => true,
    }
}
