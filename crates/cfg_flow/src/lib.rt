//! Control flow of a whole function (C11 6.8, 6.9): the edges of a plan, from the parts upwards,
//! by the marks that are met first, those that are met last, and whether a part can be passed, as
//! the positions of a regular expression follow one another (McNaughton and Yamada 1960; Glushkov
//! 1961).
#![tactic(auto)]

mod jumps;
mod order;
mod plan;
mod site;
mod table;
mod work;

pub use plan::{Jump, Plan, Row};
pub use work::flow;
