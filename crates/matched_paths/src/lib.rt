//! Flow graphs, and the paths in which each return goes to its own call (Reps, Horwitz and Sagiv,
//! "Precise interprocedural dataflow analysis via graph reachability", 1995).
#![tactic(auto)]

mod flow_graph;
pub mod laws;

pub use flow_graph::{Crossing, FlowGraph, Pair};
