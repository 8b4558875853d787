//! What serves all parts of a graph.

ghost use Rattle.std.specs.Prelude.{◌≡◌, ◌<◌, suc, length, IfOk};
ghost use Rattle.cpg_schema.specs.Shape.{IsShaped};
ghost use Rattle.graph_store.specs.Stored.{plain};
ghost use Rattle.unit_layers.specs.Ready.{IsReady};
ghost use Rattle.unit_rules.specs.UnitDeltas.{part_delta};
ghost use Rattle.unit_rules.specs.Units.{units};

use crate::global::units;
use crate::trees::Trees;
use crate::unit_edges::{join_members, join_parameters, join_top};
use crate::unit_nodes::{nodes_delta, parameters_of};
use edge_index::{Index, index_of};
use graph_parts::{Places, places_of};
use graph_store::{Delta, Graph};
use std::alloc::{AllocError, Global};

/// The index of a graph, where its nodes stand, its units, and the nodes of each tree.
#[derive(Drop)]
pub struct UnitsReady {
    index: Index,
    places: Places,
    units: Vec<u32>,
    trees: Trees,
}

impl UnitsReady {
    /// What serves all parts of this graph. It takes time linear in its nodes and edges, but for
    /// the sorting of each node's edges.
    pub(crate) fn of(alloc: Global, graph: &Graph) -> Result<UnitsReady, AllocError>
        requires { IsShaped (plain graph.now) }
        ensures { IfOk result (IsReady graph.now) }
    {
        let index = index_of(alloc, graph)?;
        let places = places_of(alloc, graph, &index)?;
        let units = units(alloc, graph, &index)?;
        let trees = Trees::of(alloc, graph, &places)?;
        Ok(UnitsReady {
            index,
            places,
            units,
            trees,
        })
    }

    /// What unit `k` adds.
    pub(crate) fn unit_delta(
        &self,
        alloc: Global,
        graph: &Graph,
        k: u32,
    ) -> Result<Delta, AllocError>
        requires shaped { IsShaped (plain graph.now) }
        requires ready { IsReady graph.now self.now }
        requires inside { k < length (units (plain graph.now)) }
        ensures { IfOk result (λ delta. delta ≡ part_delta (plain graph.now) (suc k)) }
    {
        let unit = self.units[k as usize];
        let members = self.trees.members(alloc, graph, unit)?;
        let parameters = parameters_of(alloc, graph, &members)?;
        let mut delta = nodes_delta(alloc, graph, unit, &parameters)?;
        join_top(&mut delta, unit)?;
        join_members(&mut delta, graph, &self.index, &self.places, &members)?;
        join_parameters(&mut delta, graph, &self.index, &parameters)?;
        Ok(delta)
    }
}
