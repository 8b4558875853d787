//! What the rules of expressions read are well-formed trees, and these are read (C11 6.5).
#![tactic(auto)]

pub mod laws;
