//! Reading the kept tokens of a C file one by one.
#![tactic(auto)]

mod cursor;
mod spelled;
mod stop;
#[cfg(test)]
mod tests;

pub use cursor::Cursor;
pub use stop::Stop;
