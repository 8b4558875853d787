//! Parts in order.

ghost use Rattle.std.specs.Prelude.{ℕ, List, IfOk, length};
ghost use Rattle.cfg_rules.specs.Plan.{Construct};
ghost use Rattle.cfg_rules.specs.Sequence.{AreParts, IsChain, SoFar};

use crate::arrival::{Arrival, entry, leave};
use crate::joined::{Joined, enter};
use crate::marks::copied;
use crate::summary::Summary;
use std::alloc::{AllocError, Global};

/// Joins parts one after another, and gives control as the last is left.
pub(crate) fn join_parts(
    alloc: Global,
    parts: &[Summary],
    out: &mut Joined,
) -> Result<Arrival, AllocError>
    ensures { IfOk result (λ next. (plan : List Construct) (x : ℕ) →
        IsChain plan x (length parts.now) → AreParts plan x parts.now →
        SoFar plan x (length parts.now) next out.old out.new) }
{
    let mut here = entry(alloc);
    for part in parts {
        enter(part, &here, out)?;
        let last = copied(&part.last)?;
        here = leave(last, part.passable, here)?;
    }
    Ok(here)
}
