//! A flow graph's edges by their ends, in flat arrays, and which vertices a set of edges leads to, in
//! time linear in edges and vertices.
#![tactic(auto)]

mod bridging;
mod chains;
mod crossing_ways;
mod link;
mod reaching;
mod vertex_set;

pub use bridging::{CrossingIndex, folded_ways};
pub use chains::Chains;
pub use crossing_ways::ways_of;
pub use reaching::reached;
pub use vertex_set::VertexSet;
