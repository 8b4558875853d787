//! The rank of a node among the children of its parent.

ghost use Rattle.std.specs.Prelude.{◌≡◌, ◌-◌, ◌<◌, ◌^◌};
ghost use Rattle.graph_forest.specs.Ranks.{argument, argument_index, child, condition};
ghost use Rattle.graph_forest.specs.Ranks.{pointer_argument};

use crate::hang::Hang;

/// How a node hangs from its parent, and its ORDER among the parent's children, from 1.
#[derive(Clone, Copy, Debug)]
pub struct Rank {
    pub hang: Hang,
    pub order: u32,
}

impl Rank {
    /// The rank of a child that is neither an argument nor a condition.
    pub fn child(order: u32) -> Rank
        ensures { result ≡ child order }
    {
        Rank {
            hang: Hang::Plain,
            order,
        }
    }

    /// The rank of a condition.
    pub fn condition(order: u32) -> Rank
        ensures { result ≡ condition order }
    {
        Rank {
            hang: Hang::Condition,
            order,
        }
    }

    /// The rank of an argument of a call by name, whose children are its arguments.
    pub fn argument(order: u32) -> Rank
        ensures { result ≡ argument order }
    {
        Rank {
            hang: Hang::Argument { index: order },
            order,
        }
    }

    /// The rank of an argument of a call through a pointer. Its argument 0 is the callee, which is
    /// its first child.
    pub fn pointer_argument(index: u32) -> Rank
        requires { index < 2 ^ 32 - 1 }
        ensures { result ≡ pointer_argument index }
    {
        Rank {
            hang: Hang::Argument { index },
            order: index + 1,
        }
    }

    /// The ARGUMENT_INDEX of an argument.
    pub fn argument_index(self) -> Option<u32>
        ensures { result ≡ argument_index self }
    {
        match self.hang {
            Hang::Argument { index } => Some(index),
            Hang::Plain | Hang::Condition => None,
        }
    }
}
