//! The parts of a graph by the names that passes give them: the parts of a node, the arguments of a
//! call, and what is above a node: its parent, its METHOD, its file.
#![tactic(auto)]

mod above;
mod arguments;
mod children;
pub mod laws;
mod node_test;
mod places;
mod walk;

pub use above::{file_of, nearest_above, parent_of, root_of};
pub use arguments::argument;
pub use children::{child_of, numbered, part};
pub use places::{Places, places_of};
