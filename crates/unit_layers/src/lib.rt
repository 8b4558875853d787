//! The unit layer: what a graph gains for each file.
#![tactic(auto)]

mod global;
mod pass;
mod ready;
mod trees;
mod unit_edges;
mod unit_nodes;

pub use pass::UnitPass;
pub use ready::UnitsReady;
