//! The rules of the unit layer: what a graph is to gain for each file.
#![tactic(auto)]

pub mod laws;
