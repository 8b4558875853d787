//! Marked positions, of which the least is at hand.

ghost use Rattle.std.specs.Prelude.{ℕ, ◌≡◌, ◌*◌, ◌<◌, ◌≤◌, ◌↔◌, length};
ghost use Rattle.std.specs.Prelude.{true, IfOk, IsTrue, MatchOption};
ghost use Rattle.summary_core.specs.Marking.{IsLeast, IsMarked, IsParent, IsSettled, IsTree};
ghost use Rattle.summary_core.specs.Marking.{Puts, Settles};

use std::alloc::{AllocError, Global};

/// Which of the positions below a count are marked.
///
/// Node 1 is the root of a tree, below node n are the nodes 2n and 2n + 1, and the leaf of a
/// position is as many nodes behind the count. A node holds the least marked position among the
/// leaves below it, or the count where there is none.
#[derive(Drop)]
pub(crate) struct Marks {
    pub(crate) count: u32,
    nodes: Vec<u32>,
}

/// Makes the nodes above a leaf agree with what is below them.
fn settle(nodes: &mut Vec<u32>, count: usize, leaf: usize)
    requires len { length nodes.old.items ≡ 2 * count }
    requires leaf { (count ≤ leaf) × (leaf < 2 * count) }
    requires others { (node : ℕ) → 1 ≤ node → node < count → ¬ IsParent node leaf →
        IsSettled nodes.old.items node }
    ensures { Settles count nodes.old.items nodes.new.items }
{
    let mut node = leaf;
    while node > 1 {
        let parent = node / 2;
        let least = nodes[2 * parent].min(nodes[2 * parent + 1]);
        nodes[parent] = least;
        node = parent;
    }
}

impl Marks {
    /// All of the positions are marked.
    pub(crate) fn all(alloc: Global, count: u32) -> Result<Marks, AllocError>
        ensures tree { IfOk result IsTree }
        ensures count { IfOk result (λ marks. marks.count ≡ count) }
        ensures marked { IfOk result (λ marks. (position : ℕ) → position < count →
            IsMarked marks position) }
    {
        let len = count as usize;
        let mut nodes = Vec::from_elem(alloc, 0, 2 * len)?;
        for position in 0..count {
            nodes[len + position as usize] = position;
        }
        let mut node = len;
        while node > 1 {
            node -= 1;
            let least = nodes[2 * node].min(nodes[2 * node + 1]);
            nodes[node] = least;
        }
        Ok(Marks { count, nodes })
    }

    /// Marks a position, or takes its mark away.
    pub(crate) fn put(&mut self, position: usize, marked: bool)
        requires tree { IsTree self.old }
        requires below { position < self.old.count }
        ensures { Puts self.old self.new position marked }
    {
        let len = self.count as usize;
        let leaf = len + position;
        self.nodes[leaf] = if marked { position as u32 } else { self.count };
        settle(&mut self.nodes, len, leaf);
    }

    /// The least marked position.
    pub(crate) fn first(&self) -> Option<usize>
        requires { IsTree self.now }
        ensures { IsLeast self.now result }
    {
        if self.count == 0 {
            return None;
        }
        let least = self.nodes[1];
        if least < self.count {
            Some(least as usize)
        } else {
            None
        }
    }
}
