//! Expressions and declarations: how their operands are joined.

ghost use Rattle.std.specs.Prelude.{ℕ, ◌⊎◌, List, IfOk};
ghost use Rattle.cfg_rules.specs.Plan.{Construct, HasRule};
ghost use Rattle.cfg_rules.specs.Sets.{IsJoined, IsPart};
ghost use Rattle.cfg_rules.specs.Sequence.{AreParts};

use crate::arrival::{Arrival, entry, from_mark, leave_either, left, past};
use crate::joined::{Joined, enter, stop};
use crate::marks::copied;
use crate::rule::Rule;
use crate::sequence::join_parts;
use crate::summary::Summary;
use std::alloc::{AllocError, Global};

/// What is passed: declarations and names of types.
pub fn join_silent(alloc: Global, out: &mut Joined) -> Arrival
    ensures { (plan : List Construct) (x : ℕ) → HasRule plan x Rule.Silent →
        IsJoined plan x result out.old out.new }
{
    entry(alloc)
}

/// A mark alone: a name or a constant (6.5.1), `sizeof` and `_Alignof` (6.5.3.4).
pub fn join_primary(alloc: Global, x: u32, out: &mut Joined) -> Result<Arrival, AllocError>
    ensures { IfOk result (λ next. (plan : List Construct) →
        (HasRule plan x Rule.Primary ⊎ HasRule plan x Rule.SizeOf) →
        IsJoined plan x next out.old out.new) }
{
    let here = entry(alloc);
    stop(x, &here, out)?;
    from_mark(alloc, x)
}

/// The operands in order, and then the call or operation (6.5, 6.5.2.2).
pub fn join_call(
    alloc: Global,
    x: u32,
    operands: &[Summary],
    out: &mut Joined,
) -> Result<Arrival, AllocError>
    ensures { IfOk result (λ next. (plan : List Construct) → HasRule plan x Rule.Call →
        AreParts plan x operands.now → IsJoined plan x next out.old out.new) }
{
    let here = join_parts(alloc, operands, out)?;
    stop(x, &here, out)?;
    from_mark(alloc, x)
}

/// The first operand, the second or not, and then `&&` or `||` (6.5.13, 6.5.14).
pub fn join_short_circuit(
    alloc: Global,
    x: u32,
    first: &Summary,
    second: &Summary,
    out: &mut Joined,
) -> Result<Arrival, AllocError>
    ensures { IfOk result (λ next. (plan : List Construct) → HasRule plan x Rule.ShortCircuit →
        IsPart plan x 0 first.now → IsPart plan x 1 second.now →
        IsJoined plan x next out.old out.new) }
{
    let here = entry(alloc);
    enter(first, &here, out)?;
    let tested = left(first, &here)?;
    enter(second, &tested, out)?;
    let last = copied(&second.last)?;
    let ended = past(tested, last)?;
    stop(x, &ended, out)?;
    from_mark(alloc, x)
}

/// The first operand, the second or the third, and then `?:` (6.5.15).
pub fn join_conditional(
    alloc: Global,
    x: u32,
    condition: &Summary,
    chosen: Summary,
    other: Summary,
    out: &mut Joined,
) -> Result<Arrival, AllocError>
    ensures { IfOk result (λ next. (plan : List Construct) → HasRule plan x Rule.Conditional →
        IsPart plan x 0 condition.now → IsPart plan x 1 chosen → IsPart plan x 2 other →
        IsJoined plan x next out.old out.new) }
{
    let here = entry(alloc);
    enter(condition, &here, out)?;
    let tested = left(condition, &here)?;
    enter(&chosen, &tested, out)?;
    enter(&other, &tested, out)?;
    let ended = leave_either(chosen, other, tested)?;
    stop(x, &ended, out)?;
    from_mark(alloc, x)
}
