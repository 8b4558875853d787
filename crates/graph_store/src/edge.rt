//! The edges of a graph.

use cpg_schema::EdgeKind;

/// An edge between two nodes. The variable is the number of a pooled name, and 0, the empty name,
/// except on a `ReachingDef`.
#[derive(Clone, Copy, Debug, PartialEq, Eq)]
pub struct Edge {
    pub from: u32,
    pub kind: EdgeKind,
    pub to: u32,
    pub variable: u32,
}
