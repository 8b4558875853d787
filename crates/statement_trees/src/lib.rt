//! What the rules of statements read are well-formed trees, and these are read (C11 6.8).
#![tactic(auto)]

pub mod laws;
