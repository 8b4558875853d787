//! Tests of expressions, type names and declarations with all that stands in brackets of one
//! another.
#![tactic(auto)]

#[cfg(test)]
mod blamed_tokens;
#[cfg(test)]
mod levels_and_chains;
#[cfg(test)]
mod read_parts;
#[cfg(test)]
mod scopes_of_names;
