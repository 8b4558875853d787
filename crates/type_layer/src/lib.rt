//! The type layer: a TYPE for each type of a graph, to which the nodes that have it lead.
#![tactic(auto)]

mod pass;
mod types;

pub use pass::TypePass;
