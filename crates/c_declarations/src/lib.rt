//! Initialisers, members and declarations of C, read from kept tokens (C11 6.7).
#![tactic(auto)]

mod assertions;
mod declarations;
mod forms;
mod initialisers;
mod members;
mod steps;

pub use declarations::{declaration, more_declarators};
pub use forms::{Declarators, Items};
pub use initialisers::{braced, item};
pub use members::member;
