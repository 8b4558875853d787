//! Declarators, parameters and type names of C, read from kept tokens (C11 6.7.6, 6.7.7).
#![tactic(auto)]

mod arrays;
mod cores;
mod declarators;
mod forms;
mod kinds;
mod param_list;
mod steps;

pub use arrays::pointers;
pub use cores::all_suffixes;
pub use declarators::{declarator, grouped, param, type_name};
pub use forms::{NamedParam, Params, Pointing, Qualified, declared_of, named_of, unnamed_of};
pub use param_list::open_params;
pub use steps::{is_at_params, is_at_suffix};
