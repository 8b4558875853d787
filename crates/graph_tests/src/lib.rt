//! Tests of the graph across its crates: what it stores, lends and prints, and what its passes add.
#![tactic(auto)]

#[cfg(test)]
mod deltas_under_caps;
#[cfg(test)]
mod indexed_edges;
#[cfg(test)]
mod named_parts;
#[cfg(test)]
mod pass_runs;
#[cfg(test)]
mod planted_forests;
#[cfg(test)]
mod printed_lines;
#[cfg(test)]
mod stored_graphs;
#[cfg(test)]
mod syntax_layers;
#[cfg(test)]
mod type_runs;
#[cfg(test)]
mod unit_runs;
