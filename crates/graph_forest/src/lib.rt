//! Forests: nodes with their children, and how each child hangs from its parent. One definition
//! turns a forest into a delta, and a planter writes that delta down by entering and leaving nodes.
#![tactic(auto)]

mod hang;
pub mod laws;
mod new_node;
mod planter;
mod properties;
mod rank;

pub use hang::Hang;
pub use new_node::NewNode;
pub use planter::Planter;
pub use rank::Rank;
