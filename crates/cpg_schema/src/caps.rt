//! The caps of a graph.

/// How many nodes and edges a graph may have.
#[derive(Clone, Copy, Debug, PartialEq, Eq)]
pub struct Caps {
    pub nodes: u32,
    pub edges: u32,
}
