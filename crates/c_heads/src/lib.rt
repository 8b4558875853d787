//! The head of a function definition, read from kept tokens (C11 6.9.1).
#![tactic(auto)]

mod declarators;
mod entry;
mod forms;
mod functions;

pub use declarators::function_declarator;
pub use entry::function_head;
pub use forms::{Enclosed, Head, NamedHead};
