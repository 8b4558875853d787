//! Tests of whole runs, over files and a sink in memory.
#![tactic(auto)]

#[cfg(test)]
mod layers;
#[cfg(test)]
mod runs;
