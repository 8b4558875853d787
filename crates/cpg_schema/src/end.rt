//! The ends of edges that are to be added.

/// An end of an edge that is to be added.
#[derive(Clone, Copy, Debug, PartialEq, Eq)]
pub enum End {
    /// A node of the graph, by its number.
    Old(u32),
    /// A new node, by its number among the new nodes, from 0.
    New(u64),
}
