//! Declaration specifiers of C, read from kept tokens (C11 6.7.1 to 6.7.5).
#![tactic(auto)]

mod enumeration;
mod forms;
mod grammar;
mod kinds;
mod modifier;
mod record;
mod specifier;
mod steps;

pub use forms::{Enumerators, Members, Named, NamedEnumerator, Naming, Place, Specified, Word};
pub use grammar::{Grammar, Inside};
pub use steps::{
    declare, enter, expect_other_word, expect_plain_qualifier, expect_word, is_at_plain_qualifier,
    is_at_specifiers, leave,
};
