//! The rows of a delta. A text is the number of a name of the delta.

ghost use Rattle.std.specs.Prelude.{◌≡◌};
ghost use Rattle.cpg_schema.specs.Deltas.{IsNewEnd};
ghost use Rattle.graph_store.specs.DeltaRows.{plain_end, fresh_row};

use crate::edge::Edge;
use crate::names::NO_NAME;
use cpg_schema::{EdgeKind, End, Key};

/// An end of an edge, with a new node's position in 32 bits.
#[derive(Clone, Copy)]
pub(crate) enum EndRow {
    Old(u32),
    New(u32),
}

impl EndRow {
    pub(crate) fn of(end: End) -> EndRow
        requires { IsNewEnd NO_NAME end }
        ensures { plain_end result ≡ end }
    {
        match end {
            End::Old(node) => EndRow::Old(node),
            End::New(position) => EndRow::New(position as u32),
        }
    }
}

/// An edge that is to be added. The variable is `NO_NAME` for the empty name.
#[derive(Clone, Copy)]
pub(crate) struct NewEdgeRow {
    pub(crate) from: EndRow,
    pub(crate) to: EndRow,
    pub(crate) variable: u32,
    pub(crate) kind: EdgeKind,
}

impl NewEdgeRow {
    /// The row of an edge between two new nodes.
    pub(crate) fn fresh(edge: &Edge) -> NewEdgeRow
        ensures { result ≡ fresh_row edge.now }
    {
        NewEdgeRow {
            from: EndRow::New(edge.from),
            to: EndRow::New(edge.to),
            variable: edge.variable,
            kind: edge.kind,
        }
    }
}

/// The value of a property.
#[derive(Clone, Copy)]
pub(crate) enum ValueRow {
    Text(u32),
    Number(u32),
}

/// A property that is to be set at a node of the graph.
#[derive(Clone, Copy)]
pub(crate) struct SettingRow {
    pub(crate) node: u32,
    pub(crate) key: Key,
    pub(crate) value: ValueRow,
}
