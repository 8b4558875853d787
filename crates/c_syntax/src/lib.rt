//! Expressions of C, read from kept tokens (C11 6.5).
#![tactic(auto)]

mod beginning;
mod entry;
mod expression;
mod forms;
mod grammar;
mod kinds;
pub mod laws;
mod operand;
mod simplest;
mod source;
mod suffix;
mod type_name;

pub use entry::read_expr;
pub use forms::{Arms, AssignForm, Begun, Chain, Found, Items, Mode, Parts};
pub use grammar::{Grammar, Inner};
pub use source::Source;
