//! Control flow through one construct (C11 6.5, 6.8): its rules, and how its parts are joined.
#![tactic(auto)]

mod arrival;
mod expressions;
mod joined;
mod jumps;
pub mod laws;
mod loops;
mod marks;
mod rule;
mod sequence;
mod statements;
mod summary;

pub use arrival::Arrival;
pub use expressions::{join_call, join_conditional, join_primary, join_short_circuit, join_silent};
pub use joined::Joined;
pub use jumps::{join_goto, join_jump, join_method, join_return};
pub use loops::{join_do, join_endless, join_for, join_while};
pub use marks::Marks;
pub use rule::Rule;
pub use statements::{join_block, join_if, join_jump_target, join_switch, join_switch_default};
pub use summary::Summary;
