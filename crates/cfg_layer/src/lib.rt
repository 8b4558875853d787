//! Control flow of a graph: which plan each function has, and the edges that this gives (C11 6.5,
//! 6.8, 6.9).
#![tactic(auto)]

pub mod laws;
