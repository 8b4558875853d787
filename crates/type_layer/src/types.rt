//! The types of a graph, gathered node by node.

ghost use Rattle.std.specs.Prelude.{◌≡◌, ◌+◌, ◌<◌, Contains, length, option_copied, IfOk, OnOk};
ghost use Rattle.graph_store.specs.Stored.{plain};
ghost use Rattle.type_layer.specs.Gathered.{AddsType, AreGathered};
ghost use Rattle.type_rules.specs.TypeDeltas.{type_delta};
ghost use Rattle.type_rules.specs.Types.{type_at};

use cpg_schema::{EdgeKind, End, Key, Label, allows};
use graph_store::{Delta, Graph};
use name_table::Names;
use std::alloc::{AllocError, Global};

/// The names of the types that some nodes have, and what these nodes add. The number of a type is
/// that of its TYPE among the new nodes.
#[derive(Drop)]
pub(crate) struct Types {
    names: Names,
    delta: Delta,
}

impl Types {
    /// The types of no nodes.
    fn new(alloc: Global, graph: &Graph) -> Types
        ensures { AreGathered (plain graph.now) 0 result }
    {
        Types {
            names: Names::new(alloc),
            delta: Delta::new(graph),
        }
    }

    /// Adds a type that is new, and gives its number.
    fn add(&mut self, alloc: Global, name: &[u8]) -> Result<u32, AllocError>
        requires { ¬ Contains self.old.names name.now }
        ensures { IfOk result (AddsType self.old self.new name.now) }
    {
        let position = self.delta.node(Label::TypeNode)?;
        self.delta.set_text(End::New(position), Key::Name, name)?;
        self.names.add(alloc, name)
    }

    /// Gathers the type of a node behind those of the nodes before it.
    fn gather(&mut self, alloc: Global, graph: &Graph, node: u32) -> Result<(), AllocError>
        requires inside { node < length graph.now.nodes }
        requires before { AreGathered (plain graph.now) node self.old }
        ensures { OnOk result (AreGathered (plain graph.now) (node + 1) self.new) }
    {
        let Some(name) = type_of(graph, node) else {
            return Ok(());
        };
        let number = match self.names.number_of(name) {
            Some(number) => number,
            None => self.add(alloc, name)?,
        };
        let of_type = End::New(u64::from(number));
        self.delta
            .edge(End::Old(node), EdgeKind::EvalType, of_type, b"")
    }
}

/// The type of a node: its TYPE_FULL_NAME, where an EVAL_TYPE may leave its label.
fn type_of(graph: &Graph, node: u32) -> Option<&[u8]>
    requires { node < length graph.now.nodes }
    ensures { option_copied result ≡ type_at (plain graph.now) node }
{
    if allows(EdgeKind::EvalType, graph.node(node), Label::TypeNode) {
        graph.text(node, Key::TypeFullName)
    } else {
        None
    }
}

/// The delta that adds the types of a graph. It takes time linear in the nodes.
pub(crate) fn type_delta(alloc: Global, graph: &Graph) -> Result<Delta, AllocError>
    ensures { IfOk result (λ delta. delta ≡ type_delta (plain graph.now)) }
{
    let mut types = Types::new(alloc, graph);
    for node in 0..graph.len() {
        types.gather(alloc, graph, node)?;
    }
    let Types { names: _, delta } = types;
    Ok(delta)
}
