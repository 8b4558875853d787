//! The syntax layer of the code property graph: a pass that adds the tree of each source, as nodes
//! with AST and ARGUMENT edges.
#![tactic(auto)]

mod expressions;
mod files;
mod functions;
mod nodes;
mod operator;
mod pass;
mod source;

pub use pass::{AstPass, MAX_SOURCES};
pub use source::Source;
