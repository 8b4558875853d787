//! The index of a graph: the edges of each node, by kind and in order, lent as slices.
#![tactic(auto)]

mod direction;
mod grouping;
mod index;
pub mod laws;
mod row;
mod side;

pub use index::{Index, edges_in_order, index_of};
