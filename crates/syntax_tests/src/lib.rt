//! Tests of the syntax of C across its crates: tokens, which are kept, expressions, files and
//! their trees, and what trees spell.
#![tactic(auto)]

#[cfg(test)]
mod first_files;
#[cfg(test)]
mod kept_tokens;
#[cfg(test)]
mod lexed_tokens;
#[cfg(test)]
mod read_expressions;
#[cfg(test)]
mod spelled_trees;
