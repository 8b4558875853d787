//! Expressions, type names and declarations of C, read from kept tokens (C11 6.5, 6.7).
#![tactic(auto)]

mod entry;
mod knot;
pub mod laws;

pub use entry::{read_declaration, read_expr, read_type_name};
