//! The rules of types: what a graph is to gain for the types that its nodes have.
#![tactic(auto)]

pub mod laws;
