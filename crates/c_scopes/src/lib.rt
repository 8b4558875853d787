//! The open scopes of the names of a C file, and which names are typedef names.
#![tactic(auto)]

pub mod laws;
mod scopes;
#[cfg(test)]
mod tests;

pub use scopes::Scopes;
