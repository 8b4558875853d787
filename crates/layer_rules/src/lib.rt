//! The rules of the syntax layer: the nodes and edges that each construct of a C file has.
#![tactic(auto)]

pub mod laws;
