//! Deltas: what is to be added to a graph.

ghost use Rattle.std.specs.Prelude.{◌≡◌, ◌+◌, ◌<◌, ◌≤◌, ◌∷◌, ◌++◌, [], IsTrue, not, length};
ghost use Rattle.std.specs.Prelude.{OnOk, OnErr, IfOk};
ghost use Rattle.cpg_schema.specs.Graph.{bare_node, IsVariableOf};
ghost use Rattle.cpg_schema.specs.Properties.{HasForm, Property, is_number_key};
ghost use Rattle.cpg_schema.specs.Deltas.{IsNewEnd, empty_delta, set_at};
ghost use Rattle.graph_store.specs.Values.{property_of};
ghost use Rattle.graph_store.specs.DeltaRows.{edge_rows};

use crate::delta_row::{EndRow, NewEdgeRow, SettingRow, ValueRow};
use crate::edge::Edge;
use crate::graph::Graph;
use crate::names::{NO_NAME, Names};
use crate::node_row::NodeRow;
use cpg_schema::{EdgeKind, End, Key, Label};
use joern_io::Bytes;
use std::alloc::AllocError;
use std::marker::Model;

/// The value of a property.
#[derive(Debug, Drop)]
pub enum Value {
    Text(Bytes),
    Number(u32),
}

/// What is to be added to a graph: nodes with their properties, edges, and properties of nodes that
/// the graph has. Contracts see the plain delta.
#[derive(Drop)]
pub struct Delta {
    pub(crate) names: Names,
    pub(crate) nodes: Vec<NodeRow>,
    /// The edges that come before the first one from or to a node of the graph. Their ends are
    /// positions of new nodes, so that a graph without nodes can keep them as they are.
    pub(crate) fresh: Vec<Edge>,
    /// The other edges.
    pub(crate) edges: Vec<NewEdgeRow>,
    pub(crate) settings: Vec<SettingRow>,
}

impl Model for Delta {
    ghost use Rattle.cpg_schema.specs.Deltas.{PlainDelta};
    ghost use Rattle.graph_store.specs.DeltaRows.{plain_delta, edge_rows, AreDeltaRows};

    ghost Value = { PlainDelta };

    ghost view = { λ delta. plain_delta delta.names delta.nodes.items
        (edge_rows delta.fresh.items delta.edges.items) delta.settings.items };

    ghost invariant = { λ delta. AreDeltaRows delta.names delta.nodes.items
        (edge_rows delta.fresh.items delta.edges.items) delta.settings.items };
}

impl Delta {
    /// The delta that adds nothing to the graph. Its names are hashed with the graph's key.
    pub fn new(graph: &Graph) -> Delta
        ensures { result ≡ empty_delta }
    {
        let alloc = graph.allocator();
        Delta {
            names: Names::new(alloc, graph.hashes()),
            nodes: Vec::new(alloc),
            fresh: Vec::new(alloc),
            edges: Vec::new(alloc),
            settings: Vec::new(alloc),
        }
    }

    /// How many nodes are to be added.
    pub fn node_count(&self) -> u64
        ensures { result ≡ length self.now.nodes }
    {
        self.nodes.len() as u64
    }

    /// Adds a node without properties. Returns its number among the new nodes.
    #[inline(always)]
    pub fn node(&mut self, label: Label) -> Result<u64, AllocError>
        ensures number { IfOk result (λ number. number ≡ length self.old.nodes) }
        ensures ok { OnOk result (self.new ≡
            record self.old { nodes = self.old.nodes ++ bare_node label ∷ [] }) }
        ensures count { OnOk result (length self.new.nodes ≡ length self.old.nodes + 1) }
        ensures err { OnErr result (self.new ≡ self.old) }
    {
        let number = self.nodes.len();
        if number >= NO_NAME as usize {
            return Err(AllocError);
        }
        self.nodes.push(NodeRow::bare(label))?;
        Ok(number as u64)
    }

    /// Adds an edge.
    #[inline(always)]
    pub fn edge(
        &mut self,
        from: End,
        kind: EdgeKind,
        to: End,
        variable: &[u8],
    ) -> Result<(), AllocError>
        requires from { IsNewEnd (length self.old.nodes) from }
        requires to { IsNewEnd (length self.old.nodes) to }
        requires variable { IsVariableOf kind variable.now }
        ensures ok { OnOk result (self.new ≡ record self.old {
          edges = self.old.edges
              ++ record { from = from; kind = kind; to = to; variable = variable.now } ∷ [];
        }) }
        ensures count { length self.new.nodes ≡ length self.old.nodes }
        ensures err { OnErr result (self.new ≡ self.old) }
    {
        let variable = self.names.variable_of(variable)?;
        let row = NewEdgeRow {
            from: EndRow::of(from),
            to: EndRow::of(to),
            variable,
            kind,
        };
        add_row(&mut self.fresh, &mut self.edges, row)?;
        Ok(())
    }

    /// Sets a property at a node. At a new node it stands in place of one of this key that the
    /// delta set there; at a node of the graph it is kept beside that one, and such a delta fits no
    /// graph.
    pub fn set(&mut self, at: End, key: Key, value: Value) -> Result<(), AllocError>
        requires end { IsNewEnd (length self.old.nodes) at }
        requires form { HasForm key (property_of value) }
        ensures ok { OnOk result (self.new ≡ set_at at key (property_of value) self.old) }
        ensures count { length self.new.nodes ≡ length self.old.nodes }
        ensures err { OnErr result (self.new ≡ self.old) }
    {
        match value {
            Value::Text(text) => self.set_text(at, key, text.items()),
            Value::Number(number) => self.set_number(at, key, number),
        }
    }

    /// Sets a text likewise. A text that the delta has already takes no memory.
    #[inline(always)]
    pub fn set_text(&mut self, at: End, key: Key, value: &[u8]) -> Result<(), AllocError>
        requires end { IsNewEnd (length self.old.nodes) at }
        requires form { IsTrue (not (is_number_key key)) }
        ensures ok { OnOk result (self.new ≡ set_at at key (Property.text value.now) self.old) }
        ensures count { length self.new.nodes ≡ length self.old.nodes }
        ensures err { OnErr result (self.new ≡ self.old) }
    {
        let number = self.names.number_behind_empty(value)?;
        match at {
            End::New(position) => self.nodes[position as usize].set_text(key, number),
            End::Old(node) => self.settings.push(SettingRow {
                node,
                key,
                value: ValueRow::Text(number),
            })?,
        }
        Ok(())
    }

    /// Sets a number likewise.
    #[inline(always)]
    pub fn set_number(&mut self, at: End, key: Key, value: u32) -> Result<(), AllocError>
        requires end { IsNewEnd (length self.old.nodes) at }
        requires form { IsTrue (is_number_key key) }
        ensures ok { OnOk result (self.new ≡ set_at at key (Property.number value) self.old) }
        ensures count { length self.new.nodes ≡ length self.old.nodes }
        ensures err { OnErr result (self.new ≡ self.old) }
    {
        match at {
            End::New(position) => self.nodes[position as usize].set_number(key, value),
            End::Old(node) => self.settings.push(SettingRow {
                node,
                key,
                value: ValueRow::Number(value),
            })?,
        }
        Ok(())
    }
}

/// Adds the row of an edge to those between new nodes, as long as there are no others, or to the
/// others.
#[inline(always)]
fn add_row(
    fresh: &mut Vec<Edge>,
    others: &mut Vec<NewEdgeRow>,
    row: NewEdgeRow,
) -> Result<(), AllocError>
    ensures ok { OnOk result (edge_rows fresh.new.items others.new.items
        ≡ edge_rows fresh.old.items others.old.items ++ row ∷ []) }
    ensures err { OnErr result (edge_rows fresh.new.items others.new.items
        ≡ edge_rows fresh.old.items others.old.items) }
{
    match (row.from, row.to) {
        (EndRow::New(from), EndRow::New(to)) if others.is_empty() => fresh.push(Edge {
            from,
            kind: row.kind,
            to,
            variable: row.variable,
        })?,
        _ => others.push(row)?,
    }
    Ok(())
}
