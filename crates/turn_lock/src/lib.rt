//! A ticket lock round one value: what a seat has seen of the value's history it finds again at
//! each take, and each entry that a worker adds stands in the history once.
#![tactic(auto)]

mod bells;
mod held;
mod kept;
#[cfg(test)]
mod roll;
mod rule;
mod seat;
#[cfg(test)]
mod tests;
mod turn;
mod view;

pub use held::Held;
pub use kept::Kept;
pub use seat::Seat;
pub use turn::Turn;
