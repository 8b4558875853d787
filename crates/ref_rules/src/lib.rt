//! The rules of names: which declaration each name of a graph means.
#![tactic(auto)]

pub mod laws;
