//! The schema of the code property graph: labels, property keys, edge kinds and what they join; and
//! in `specs/` the plain graph, what is added to it, and its printed lines.
#![tactic(auto)]

mod caps;
mod edge_kind;
mod end;
mod key;
mod label;
pub mod laws;
mod schema;
#[cfg(test)]
mod tests;

pub use caps::Caps;
pub use edge_kind::EdgeKind;
pub use end::End;
pub use key::Key;
pub use label::Label;
pub use schema::allows;
