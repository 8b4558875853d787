//! Grammars whose words may declare names, readers of lists of tokens, and when a reader is exact.
#![tactic(auto)]

mod turn;

pub use turn::Turn;
