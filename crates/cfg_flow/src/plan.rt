//! The plan of one function, as flat lists.

use cfg_rules::Rule;

/// A construct: its rule, and where its parts stand in the list of all parts.
#[derive(Clone, Copy, Debug, PartialEq, Eq)]
pub struct Row {
    /// How control runs through it.
    pub rule: Rule,
    /// The position of its first part.
    pub from: u32,
    /// The position behind its last part.
    pub to: u32,
}

/// A jump that a construct knows of.
#[derive(Clone, Copy, Debug, PartialEq, Eq)]
pub struct Jump {
    /// The number of the construct.
    pub construct: u32,
    /// The mark to which it jumps, or from which it is jumped to.
    pub mark: u32,
}

/// The plan of one function.
///
/// Constructs are numbered from 0, by their position in `rows`, and each before its parts: in the
/// order in which any walk over a tree comes to them. The number of a construct is its mark too.
#[derive(Drop)]
pub struct Plan {
    /// The constructs.
    pub rows: Vec<Row>,
    /// The parts of all constructs, None where a part is left out.
    pub parts: Vec<Option<u32>>,
    /// The METHOD_RETURN: it is the mark of no construct, and any number beyond theirs serves.
    pub method_return: Option<u32>,
    /// From a `goto` to its JUMP_TARGET, and from a `switch` to each of its own, in any order.
    pub targets: Vec<Jump>,
    /// Of a loop or a `switch` each `break` that leaves it, in any order.
    pub breaks: Vec<Jump>,
    /// Of a loop each `continue` that ends its body, in any order.
    pub continues: Vec<Jump>,
}
