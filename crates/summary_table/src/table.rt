//! The table in one thread.

ghost use Rattle.std.specs.Prelude.{◌≡◌, ◌<◌, ◌↔◌, IfOk, IsTrue};
ghost use Rattle.std.specs.List.{All};
ghost use Rattle.summary_core.specs.Table.{IsClosed};

use joern_io::List;
use matched_paths::FlowGraph;
use std::alloc::{AllocError, Global};
use std::sync::Arc;
use summary_core::Closed;

/// Whether all starts are vertices, as a table asks. It takes no memory.
pub fn may_be_closed(flow: &FlowGraph, starts: &[u32]) -> bool
    ensures { IsTrue result ↔ All (λ start. start < flow.now.vertices) starts.now }
{
    starts.iter().all(|start| *start < flow.vertices)
}

/// The true pairs of all goals that the starts want, in one thread.
pub fn table_one(
    alloc: Global,
    flow: Arc<FlowGraph>,
    starts: List<u32>,
) -> Result<Closed, AllocError>
    requires { All (λ start. start < flow.value.vertices) starts }
    ensures flow { IfOk result (λ closed. closed.flow ≡ flow.value) }
    ensures starts { IfOk result (λ closed. closed.starts ≡ starts) }
    ensures closed { IfOk result IsClosed }
{
    let closed = Closed::of(alloc, flow, starts)?;
    Ok(closed)
}
