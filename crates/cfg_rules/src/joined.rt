//! What was joined: edges, and first marks of the construct at hand.

ghost use Rattle.std.specs.Prelude.{ℕ, ◌≡◌, ◌++◌, ◌∷◌, [], OnOk, map};
ghost use Rattle.cfg_rules.specs.Sets.{HasEdges, IsLed, marks_of};

use crate::arrival::Arrival;
use crate::marks::Marks;
use crate::summary::Summary;
use std::alloc::AllocError;

/// What was joined so far.
#[derive(Drop)]
pub struct Joined {
    /// The first marks of the construct that is being joined.
    pub first: Marks,
    /// Edges from mark to mark, of all constructs so far.
    pub edges: Vec<(u32, u32)>,
}

fn add_from(edges: &mut Vec<(u32, u32)>, from: u32, to: &[u32]) -> Result<(), AllocError>
    ensures { OnOk result (edges.new.items ≡ edges.old.items ++ map (λ b. (from, b)) to.now) }
{
    for mark in to {
        edges.push((from, *mark))?;
    }
    Ok(())
}

/// An edge from each mark of the one list to each of the other.
fn add_edges(edges: &mut Vec<(u32, u32)>, from: &[u32], to: &[u32]) -> Result<(), AllocError>
    ensures { OnOk result (HasEdges edges.old.items edges.new.items from.now to.now) }
{
    for mark in from {
        add_from(edges, *mark, to)?;
    }
    Ok(())
}

/// Leads control on to each of the marks.
pub(crate) fn lead(to: &[u32], here: &Arrival, out: &mut Joined) -> Result<(), AllocError>
    ensures { OnOk result (IsLed to.now here.now out.old out.new) }
{
    if here.entered {
        out.first.extend_from_slice(to)?;
    }
    add_edges(&mut out.edges, here.marks.as_slice(), to)?;
    Ok(())
}

/// Leads control on into a part.
pub(crate) fn enter(part: &Summary, here: &Arrival, out: &mut Joined) -> Result<(), AllocError>
    ensures { OnOk result (IsLed part.now.first.items here.now out.old out.new) }
{
    let to = part.first.as_slice();
    lead(to, here, out)?;
    Ok(())
}

/// Leads control on to one mark.
pub(crate) fn stop(mark: u32, here: &Arrival, out: &mut Joined) -> Result<(), AllocError>
    ensures { OnOk result (IsLed (mark ∷ []) here.now out.old out.new) }
{
    lead(&[mark], here, out)?;
    Ok(())
}

/// Leads control on to the mark, if there is one.
pub(crate) fn finish(end: Option<u32>, here: &Arrival, out: &mut Joined) -> Result<(), AllocError>
    ensures { OnOk result (IsLed (marks_of end) here.now out.old out.new) }
{
    match end {
        Some(mark) => stop(mark, here, out),
        None => Ok(()),
    }
}
