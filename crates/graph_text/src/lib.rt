//! The printed lines of a graph and of a refusal, written through one fixed buffer. No call takes
//! memory.
#![tactic(auto)]

mod digits;
mod graph;
mod line;
mod printer;
mod properties;
mod value;

pub use graph::dump;
pub use line::{LinePart, print_line};
