//! Statements of C, read from kept tokens (C11 6.8).
#![tactic(auto)]

mod ahead;
mod blocks;
mod forms;
mod grammar;
mod iteration;
mod jumps;
mod knot;
mod scopes;
mod selection;
mod statements;

pub use forms::{Arm, Arms, BlockItems, Ended, ForHead, Kinded, MaybeExpr};
pub use grammar::Below;
pub use knot::{read_block, read_statement};
