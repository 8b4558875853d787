//! Blocks, selections and labelled statements: how their parts are joined.

ghost use Rattle.std.specs.Prelude.{ℕ, List, IfOk};
ghost use Rattle.cfg_rules.specs.Plan.{Construct, HasRule};
ghost use Rattle.cfg_rules.specs.Sets.{AreBreaks, AreTargets, IsJoined, IsPart};
ghost use Rattle.cfg_rules.specs.Sequence.{AreParts};

use crate::arrival::{Arrival, entry, from_mark, from_marks, leave, leave_either, left, past};
use crate::joined::{Joined, enter, lead, stop};
use crate::marks::Marks;
use crate::rule::Rule;
use crate::sequence::join_parts;
use crate::summary::Summary;
use std::alloc::{AllocError, Global};

/// The items in sequence (6.8).
pub fn join_block(alloc: Global, items: &[Summary], out: &mut Joined) -> Result<Arrival, AllocError>
    ensures { IfOk result (λ next. (plan : List Construct) (x : ℕ) → HasRule plan x Rule.Block →
        AreParts plan x items.now → IsJoined plan x next out.old out.new) }
{
    join_parts(alloc, items, out)
}

/// The condition, and one of the two statements (6.8.4.1).
pub fn join_if(
    alloc: Global,
    condition: &Summary,
    chosen: Summary,
    other: Summary,
    out: &mut Joined,
) -> Result<Arrival, AllocError>
    ensures { IfOk result (λ next. (plan : List Construct) (x : ℕ) → HasRule plan x Rule.If →
        IsPart plan x 0 condition.now → IsPart plan x 1 chosen → IsPart plan x 2 other →
        IsJoined plan x next out.old out.new) }
{
    let here = entry(alloc);
    enter(condition, &here, out)?;
    let tested = left(condition, &here)?;
    enter(&chosen, &tested, out)?;
    enter(&other, &tested, out)?;
    leave_either(chosen, other, tested)
}

/// The condition, and then a `case`, or past the body (6.8.4.2).
pub fn join_switch(
    alloc: Global,
    condition: &Summary,
    body: Summary,
    targets: &[u32],
    breaks: Marks,
    out: &mut Joined,
) -> Result<Arrival, AllocError>
    ensures { IfOk result (λ next. (plan : List Construct) (x : ℕ) → HasRule plan x Rule.Switch →
        IsPart plan x 0 condition.now → IsPart plan x 1 body →
        AreTargets plan x targets.now → AreBreaks plan x breaks.items →
        IsJoined plan x next out.old out.new) }
{
    let here = entry(alloc);
    enter(condition, &here, out)?;
    let tested = left(condition, &here)?;
    lead(targets, &tested, out)?;
    let ran = past(tested, body.last)?;
    past(ran, breaks)
}

/// The condition, and then a `case` or the `default` (6.8.4.2).
pub fn join_switch_default(
    alloc: Global,
    condition: &Summary,
    body: Summary,
    targets: &[u32],
    breaks: Marks,
    out: &mut Joined,
) -> Result<Arrival, AllocError>
    ensures { IfOk result (λ next. (plan : List Construct) (x : ℕ) →
        HasRule plan x Rule.SwitchDefault →
        IsPart plan x 0 condition.now → IsPart plan x 1 body →
        AreTargets plan x targets.now → AreBreaks plan x breaks.items →
        IsJoined plan x next out.old out.new) }
{
    let here = entry(alloc);
    enter(condition, &here, out)?;
    let tested = left(condition, &here)?;
    lead(targets, &tested, out)?;
    let ran = from_marks(body.last);
    past(ran, breaks)
}

/// The mark of a label, `case` or `default`, and then the statement (6.8.1).
pub fn join_jump_target(
    alloc: Global,
    x: u32,
    statement: Summary,
    out: &mut Joined,
) -> Result<Arrival, AllocError>
    ensures { IfOk result (λ next. (plan : List Construct) → HasRule plan x Rule.JumpTarget →
        IsPart plan x 1 statement → IsJoined plan x next out.old out.new) }
{
    let here = entry(alloc);
    stop(x, &here, out)?;
    let start = from_mark(alloc, x)?;
    enter(&statement, &start, out)?;
    leave(statement.last, statement.passable, start)
}
