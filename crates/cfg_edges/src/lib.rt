//! The edges of a plan as a function of the plan: what says which list a pass adds.
#![tactic(auto)]

pub mod laws;
