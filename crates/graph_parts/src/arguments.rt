//! The arguments of a call.

ghost use Rattle.std.specs.Prelude.{◌<◌, length, IfSome};
ghost use Rattle.cpg_schema.specs.Shape.{IsShaped};
ghost use Rattle.graph_store.specs.Stored.{plain};
ghost use Rattle.edge_index.specs.Indexed.{IsIndexOf};
ghost use Rattle.graph_parts.specs.Finds.{Finds};
ghost use Rattle.graph_parts.specs.Parts.{IsArgument};

use crate::above::parent_of;
use crate::node_test::has_index;
use cpg_schema::EdgeKind;
use edge_index::Index;
use graph_store::Graph;
use graph_store::laws::law_stored;

/// Argument `i` of a call: its child with ARGUMENT_INDEX `i` to which an ARGUMENT edge of the call
/// leads, and the least where there are several.
///
/// The arguments are looked at in the order of their numbers up to the one that is found. An
/// operator has at most three, but for an initialiser list.
pub fn argument(graph: &Graph, index: &Index, call: u32, i: u32) -> Option<u32>
    requires shaped { IsShaped (plain graph.now) }
    requires index { IsIndexOf graph.now index.now }
    requires inside { call < length graph.now.nodes }
    ensures argument { Finds (IsArgument (plain graph.now) i call) result }
    ensures within { IfSome result (λ argument. argument < length graph.now.nodes) }
{
    law_stored(graph);
    let arguments = index.out(call, EdgeKind::Argument);
    for edge in arguments {
        if has_index(graph, edge.to, i) && parent_of(graph, index, edge.to) == Some(call) {
            return Some(edge.to);
        }
    }
    None
}
