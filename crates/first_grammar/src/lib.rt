//! The first grammar: files of functions whose statements are sums and assignments (C11 6.5 to
//! 6.9).
#![tactic(auto)]

mod cursor;
mod expressions;
mod functions;
pub mod laws;
mod names;
mod stop;
mod unit;

pub use stop::GrammarStop;
pub use unit::read_unit;
