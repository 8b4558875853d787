//! Faults of jumps, and second definitions of functions, in a file that the syntax accepts (C11
//! 6.8.1, 6.8.4.2, 6.8.6, 6.9).
#![tactic(auto)]

mod around;
mod fault;
mod file;
mod found;
mod kept_tokens;
mod names;
mod statement;

pub use fault::{Blamed, Fault, Jump};
pub use file::first_fault;
