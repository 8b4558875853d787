//! The closed table of summaries, made in one thread.
#![tactic(auto)]

mod table;
#[cfg(test)]
mod tests;

pub use table::{may_be_closed, table_one};
