//! The pass that adds the types.

use crate::types::type_delta;
use graph_delta::{Delta, Pass};
use graph_store::Graph;
use std::alloc::{AllocError, Global};

/// The pass that adds a TYPE for each type that a node has, and an EVAL_TYPE edge from each such
/// node to its TYPE.
#[derive(Clone, Copy, Debug)]
pub struct TypePass;

impl Pass for TypePass {
    type Ready = ();

    ghost use Rattle.cpg_schema.specs.Shape.{IsShaped};
    ghost use Rattle.type_rules.specs.TypeDeltas.{part_delta, type_parts};
    ghost use Rattle.type_layer.specs.PassLaws.{parts_fit, parts_shape};

    ghost takes = { λ _ graph. IsShaped graph };

    ghost parts_of = { λ _ _. type_parts };

    ghost delta_of = { λ _ graph part. part_delta graph part };

    ghost is_ready = { λ _ _ _. Unit {0} };

    fn parts(&self, _graph: &Graph) -> u32 {
        1
    }

    fn prepare(&self, _alloc: Global, _graph: &Graph) -> Result<(), AllocError> {
        Ok(())
    }

    fn delta(
        &self,
        alloc: Global,
        graph: &Graph,
        _ready: &(),
        _part: u32,
    ) -> Result<Delta, AllocError> {
        type_delta(alloc, graph)
    }

    ghost fits = { λ _ start _ _. parts_fit start };

    ghost shapes = { λ _ caps start graph _ shaped is. parts_shape caps start graph shaped is };
}
