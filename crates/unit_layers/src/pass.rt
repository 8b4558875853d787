//! The pass that adds what stands for whole files.

use crate::global::count_units;
use crate::ready::UnitsReady;
use crate::unit_nodes::meta_delta;
use graph_delta::{Delta, Pass};
use graph_store::Graph;
use std::alloc::{AllocError, Global};

/// The pass that adds the META_DATA, and for each file its FILE and NAMESPACE_BLOCK, the
/// METHOD_PARAMETER_OUTs, and their AST, SOURCE_FILE, CONTAINS and PARAMETER_LINK edges.
#[derive(Clone, Copy, Debug)]
pub struct UnitPass;

impl Pass for UnitPass {
    type Ready = UnitsReady;

    ghost use Rattle.cpg_schema.specs.Shape.{IsShaped};
    ghost use Rattle.unit_layers.specs.Ready.{IsReady};
    ghost use Rattle.unit_rules.specs.UnitDeltas.{part_delta, unit_parts};
    ghost use Rattle.unit_layers.specs.PassLaws.{parts_fit, parts_shape};

    ghost takes = { λ _ graph. IsShaped graph };

    ghost parts_of = { λ _ graph. unit_parts graph };

    ghost delta_of = { λ _ graph part. part_delta graph part };

    ghost is_ready = { λ _ graph ready. IsReady graph ready };

    fn parts(&self, graph: &Graph) -> u32 {
        count_units(graph) + 1
    }

    fn prepare(&self, alloc: Global, graph: &Graph) -> Result<UnitsReady, AllocError> {
        UnitsReady::of(alloc, graph)
    }

    fn delta(
        &self,
        alloc: Global,
        graph: &Graph,
        ready: &UnitsReady,
        part: u32,
    ) -> Result<Delta, AllocError> {
        if part == 0 {
            meta_delta(alloc, graph)
        } else {
            ready.unit_delta(alloc, graph, part - 1)
        }
    }

    ghost fits = { λ _ start is_graph shaped. parts_fit start is_graph shaped };

    ghost shapes = { λ _ caps start graph is_graph shaped is.
        parts_shape caps start graph is_graph shaped is };
}
