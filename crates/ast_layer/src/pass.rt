//! The pass that adds the syntax layer.

ghost use Rattle.std.specs.Prelude.{◌≡◌, ◌≤◌, vec_len};
ghost use Rattle.ast_layer.specs.declared.pass.TheConstants.{MAX_SOURCES};

use crate::source::Source;
use graph_delta::{Delta, Pass};
use graph_forest::Planter;
use graph_store::Graph;
use std::alloc::{AllocError, Global};
use std::mem;

/// How many sources a pass has at most.
pub const MAX_SOURCES: usize = 4096;

/// The pass that adds the syntax layer of each source to the empty graph. Contracts see the sources
/// by `sources_of`. Each is a part, and what it adds is the forest of its file.
#[derive(Drop)]
pub struct AstPass {
    sources: Vec<Source>,
    ghost few: { vec_len sources ≤ MAX_SOURCES },
}

impl AstPass {
    ghost use Rattle.ast_layer.specs.Parts.{sources_of};

    /// The pass over these sources. It takes no memory.
    pub fn new(sources: Vec<Source>) -> AstPass
        requires few { vec_len sources ≤ MAX_SOURCES }
        ensures { sources_of result ≡ sources.items }
    {
        AstPass { sources }
    }

    /// Ends the pass, and gives back the memory of its sources but for their trees. A tree is many
    /// small pieces, which a run that ends soon after leaves to the system: to give them back one
    /// by one would take it a tenth of its time.
    pub fn finish(self) {
        for source in self.sources {
            let Source { unit, .. } = source;
            mem::forget(unit);
        }
    }
}

impl Pass for AstPass {
    type Ready = ();

    ghost use Rattle.std.specs.Prelude.{length};
    ghost use Rattle.ast_layer.specs.Parts.{IsEmptyGraph, part_delta, sources_of};
    ghost use Rattle.ast_layer.specs.PassLaws.{parts_fit, parts_shape};

    ghost takes = { λ _ graph. IsEmptyGraph graph };

    ghost parts_of = { λ pass _. length (sources_of pass) };

    ghost delta_of = { λ pass _ part. part_delta (sources_of pass) part };

    ghost is_ready = { λ _ _ _. Unit {0} };

    fn parts(&self, _graph: &Graph) -> u32 {
        self.sources.len() as u32
    }

    fn prepare(&self, _alloc: Global, _graph: &Graph) -> Result<(), AllocError> {
        Ok(())
    }

    fn delta(
        &self,
        alloc: Global,
        graph: &Graph,
        _ready: &(),
        part: u32,
    ) -> Result<Delta, AllocError> {
        let mut planter = Planter::new(alloc, graph);
        self.sources[part as usize].plant(&mut planter)?;
        Ok(planter.finish())
    }

    ghost fits = { λ pass start _ _. parts_fit (sources_of pass) start };

    ghost shapes = { λ pass caps start graph is_graph empty is.
        parts_shape (sources_of pass) caps start graph is_graph empty is };
}
