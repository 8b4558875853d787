//! What is added to a graph, and passes that make it in parts from the graph as it was.
#![tactic(auto)]

pub mod laws;
mod pass;

pub use cpg_schema::End;
pub use graph_store::{ApplyStop, Delta, Value, absorb, apply};
pub use pass::Pass;
