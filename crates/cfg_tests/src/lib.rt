//! Tests of control flow across its crates: the edges of whole functions.
#![tactic(auto)]

#[cfg(test)]
mod whole_functions;
