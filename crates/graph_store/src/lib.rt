//! The code property graph as it is kept, in rows whose texts are numbers of pooled names, and the
//! deltas that are added to it.
#![tactic(auto)]

mod absorbing;
mod applying;
mod delta;
mod delta_row;
mod edge;
mod graph;
pub mod laws;
mod names;
mod node_row;

pub use absorbing::absorb;
pub use applying::{ApplyStop, apply};
pub use delta::{Delta, Value};
pub use edge::Edge;
pub use graph::Graph;
