//! What the rules of declarations read are well-formed trees (C11 6.7).
#![tactic(auto)]

pub mod laws;
