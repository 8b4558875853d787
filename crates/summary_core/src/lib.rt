//! The table of summaries: which outs each wanted goal leads to, found by searches that may run in
//! any order.
#![tactic(auto)]

mod agenda;
mod board;
mod claims;
mod closed;
mod found;
mod known;
pub mod laws;
mod marks;
mod mirror;
mod search;
mod task;
mod wanted;

pub use board::Board;
pub use closed::Closed;
pub use found::{Found, Goal};
pub use matched_paths::Pair;
pub use mirror::Mirror;
pub use search::outs;
