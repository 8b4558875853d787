//! What a search for one goal gives.

use joern_io::List;

/// A vertex at which an open arrives.
#[derive(Clone, Copy, Debug, PartialEq, Eq)]
pub struct Goal {
    pub vertex: u32,
}

/// What a search from a goal found over the pairs that it saw.
#[derive(Drop)]
pub struct Found {
    /// The outs that it reached, rising.
    pub outs: List<u32>,
    /// The goals of the opens that it met, rising.
    pub asked: List<u32>,
    /// How many pairs it saw.
    pub seen: u64,
}
