//! How a node hangs from its parent.

/// What leads from its parent to a node, besides the AST edge.
#[derive(Clone, Copy, Debug, PartialEq, Eq)]
pub enum Hang {
    /// Nothing.
    Plain,
    /// An ARGUMENT edge, as from a call to what it takes. The node is the argument of this index.
    Argument { index: u32 },
    /// A CONDITION edge, as from a control structure to what it tests.
    Condition,
}
