//! What the rules of files hand to each other (C11 6.9).

use c_syntax::Source;
use c_tree::{Declarator, Item, Specs};
use joern_io::List;

/// What stands before the body of a function definition (6.9.1).
#[derive(Drop)]
pub struct Head {
    pub specs: Specs,
    pub declarator: Declarator,
}

/// An external declaration, and the source behind it.
#[derive(Drop)]
pub(crate) struct External<'t> {
    pub(crate) item: Item,
    /// Whether it was read as a function definition.
    pub(crate) definition: bool,
    pub(crate) source: Source<'t>,
}

/// External declarations, and the source behind them.
#[derive(Drop)]
pub(crate) struct Items<'t> {
    pub(crate) list: List<Item>,
    pub(crate) source: Source<'t>,
}
