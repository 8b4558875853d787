//! Functions and jumps: where control goes on.

ghost use Rattle.std.specs.Prelude.{ℕ, ◌≡◌, ◌⊎◌, List, IfOk};
ghost use Rattle.cfg_rules.specs.Plan.{Construct, HasRule, end_of};
ghost use Rattle.cfg_rules.specs.Sets.{AreTargets, IsJoined, IsPart};

use crate::arrival::{Arrival, entry, from_mark, left, nowhere};
use crate::joined::{Joined, enter, finish, lead, stop};
use crate::rule::Rule;
use crate::summary::Summary;
use std::alloc::{AllocError, Global};

/// The mark of the function, its body, and its end (6.9.1). In a block the function is passed.
pub fn join_method(
    alloc: Global,
    x: u32,
    body: &Summary,
    end: Option<u32>,
    out: &mut Joined,
) -> Result<Arrival, AllocError>
    ensures { IfOk result (λ next. (plan : List Construct) → HasRule plan x Rule.Method →
        IsPart plan x 0 body.now → end_of plan x ≡ end →
        IsJoined plan x next out.old out.new) }
{
    let start = from_mark(alloc, x)?;
    enter(body, &start, out)?;
    let ended = left(body, &start)?;
    finish(end, &ended, out)?;
    Ok(entry(alloc))
}

/// The mark of a `goto`, and then its label (6.8.6.1).
pub fn join_goto(
    alloc: Global,
    x: u32,
    targets: &[u32],
    out: &mut Joined,
) -> Result<Arrival, AllocError>
    ensures { IfOk result (λ next. (plan : List Construct) → HasRule plan x Rule.Goto →
        AreTargets plan x targets.now → IsJoined plan x next out.old out.new) }
{
    let here = entry(alloc);
    stop(x, &here, out)?;
    let start = from_mark(alloc, x)?;
    lead(targets, &start, out)?;
    Ok(nowhere(alloc))
}

/// The mark of a `break` (6.8.6.3) or a `continue` (6.8.6.2). Where control goes on is joined with
/// the construct that it leaves or whose body it ends.
pub fn join_jump(alloc: Global, x: u32, out: &mut Joined) -> Result<Arrival, AllocError>
    ensures { IfOk result (λ next. (plan : List Construct) →
        (HasRule plan x Rule.Break ⊎ HasRule plan x Rule.Continue) →
        IsJoined plan x next out.old out.new) }
{
    let here = entry(alloc);
    stop(x, &here, out)?;
    Ok(nowhere(alloc))
}

/// The expression, the mark of a `return`, and the end of the function (6.8.6.4).
pub fn join_return(
    alloc: Global,
    x: u32,
    value: &Summary,
    end: Option<u32>,
    out: &mut Joined,
) -> Result<Arrival, AllocError>
    ensures { IfOk result (λ next. (plan : List Construct) → HasRule plan x Rule.Return →
        IsPart plan x 0 value.now → end_of plan x ≡ end →
        IsJoined plan x next out.old out.new) }
{
    let here = entry(alloc);
    enter(value, &here, out)?;
    let ended = left(value, &here)?;
    stop(x, &ended, out)?;
    let start = from_mark(alloc, x)?;
    finish(end, &start, out)?;
    let gone = nowhere(alloc);
    Ok(gone)
}
