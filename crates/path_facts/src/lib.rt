//! Which outs matched paths lead to from each of some goals, found by a work list of facts: that a
//! matched path leads from a goal to a vertex (Reps, Horwitz and Sagiv 1995).
#![tactic(auto)]

mod ground;
mod pair_set;
mod saturating;
mod taking;

pub use saturating::true_pairs;
