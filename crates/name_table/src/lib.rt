//! Names with their numbers, found by a hash, and never slowly whoever chooses the names.
#![tactic(auto)]

mod names;
mod table;
mod texts;

pub use names::Names;
