//! Files of C, read from kept tokens (C11 6.9).
#![tactic(auto)]

mod ahead;
mod beginning;
mod external;
mod forms;
mod heads;
mod text;
mod unit;

pub use forms::Head;
pub use heads::Heads;
pub use unit::read_unit;
