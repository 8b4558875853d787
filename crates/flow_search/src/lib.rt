//! Where data flows from some starts, exactly: out of methods and then into methods, each return to
//! its own call.
#![tactic(auto)]

mod search;
#[cfg(test)]
mod tests;

pub use search::{Reached, reach};
