//! Runs a pass: the deltas of its parts are made from the graph as it was, and applied in order.
#![tactic(auto)]

mod runner;

pub use runner::run_pass_one;
