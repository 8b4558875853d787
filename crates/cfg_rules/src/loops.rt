//! Loops: all arrivals first, and then each is led on once.

ghost use Rattle.std.specs.Prelude.{ℕ, ◌↔◌, List, IfOk, OnOk, IsTrue};
ghost use Rattle.cfg_rules.specs.Plan.{Construct, HasRule};
ghost use Rattle.cfg_rules.specs.Sets.{AreBreaks, IsJoined, IsLedRound, IsPart, IsRing};

use crate::arrival::{Arrival, again, entry, from_marks, left, past};
use crate::joined::{Joined, enter};
use crate::marks::Marks;
use crate::rule::Rule;
use crate::summary::Summary;
use std::alloc::{AllocError, Global};

/// The condition, the body and the condition again, or past (6.8.5.1).
pub fn join_while(
    alloc: Global,
    condition: &Summary,
    body: &Summary,
    breaks: Marks,
    out: &mut Joined,
) -> Result<Arrival, AllocError>
    ensures { IfOk result (λ next. (plan : List Construct) (x : ℕ) → HasRule plan x Rule.While →
        IsPart plan x 0 condition.now → IsPart plan x 1 body.now →
        AreBreaks plan x breaks.items → IsJoined plan x next out.old out.new) }
{
    let here = entry(alloc);
    enter(condition, &here, out)?;
    let once = left(condition, &here)?;
    let ran = left(body, &once)?;
    let tested = again(once, condition.passable, &ran)?;
    enter(condition, &ran, out)?;
    enter(body, &tested, out)?;
    past(tested, breaks)
}

/// The body, the condition, and the body again, or past (6.8.5.2).
pub fn join_do(
    alloc: Global,
    body: &Summary,
    condition: &Summary,
    breaks: Marks,
    out: &mut Joined,
) -> Result<Arrival, AllocError>
    ensures { IfOk result (λ next. (plan : List Construct) (x : ℕ) → HasRule plan x Rule.Do →
        IsPart plan x 0 body.now → IsPart plan x 1 condition.now →
        AreBreaks plan x breaks.items → IsJoined plan x next out.old out.new) }
{
    let here = entry(alloc);
    enter(body, &here, out)?;
    let once = left(body, &here)?;
    let tested = left(condition, &once)?;
    let ran = again(once, body.passable, &tested)?;
    enter(body, &tested, out)?;
    enter(condition, &ran, out)?;
    past(tested, breaks)
}

/// From where control comes out of the condition, the body and the third part of a `for`.
#[derive(Drop)]
struct Ring {
    tested: Arrival,
    ran: Arrival,
    stepped: Arrival,
}

fn pass_both(one: bool, other: bool) -> bool
    ensures { IsTrue result ↔ (IsTrue one × IsTrue other) }
{
    one && other
}

fn go_round(
    set: &Arrival,
    condition: &Summary,
    third: &Summary,
    body: &Summary,
) -> Result<Ring, AllocError>
    ensures { IfOk result (λ ring. IsRing set.now condition.now third.now body.now ring) }
{
    let once = left(condition, set)?;
    let twice = left(body, &once)?;
    let stepped = left(third, &twice)?;
    let tested = again(once, condition.passable, &stepped)?;
    let ran = again(
        twice,
        pass_both(condition.passable, body.passable),
        &stepped,
    )?;
    Ok(Ring {
        tested,
        ran,
        stepped,
    })
}

fn lead_round(
    set: &Arrival,
    ring: &Ring,
    condition: &Summary,
    third: &Summary,
    body: &Summary,
    out: &mut Joined,
) -> Result<(), AllocError>
    ensures { OnOk result (IsLedRound set.now ring.now condition.now third.now body.now
        out.old out.new) }
{
    enter(condition, set, out)?;
    enter(condition, &ring.stepped, out)?;
    enter(body, &ring.tested, out)?;
    enter(third, &ring.ran, out)?;
    Ok(())
}

/// The first part, the second, the body and the third, or past after the second (6.8.5.3).
pub fn join_for(
    alloc: Global,
    first: &Summary,
    condition: &Summary,
    third: &Summary,
    body: &Summary,
    breaks: Marks,
    out: &mut Joined,
) -> Result<Arrival, AllocError>
    ensures { IfOk result (λ next. (plan : List Construct) (x : ℕ) → HasRule plan x Rule.For →
        IsPart plan x 0 first.now → IsPart plan x 1 condition.now →
        IsPart plan x 2 third.now → IsPart plan x 3 body.now →
        AreBreaks plan x breaks.items → IsJoined plan x next out.old out.new) }
{
    let here = entry(alloc);
    enter(first, &here, out)?;
    let set = left(first, &here)?;
    let ring = go_round(&set, condition, third, body)?;
    lead_round(&set, &ring, condition, third, body, out)?;
    past(ring.tested, breaks)
}

/// The same without a second part, which a jump alone leaves (6.8.5.3 p2).
pub fn join_endless(
    alloc: Global,
    first: &Summary,
    condition: &Summary,
    third: &Summary,
    body: &Summary,
    breaks: Marks,
    out: &mut Joined,
) -> Result<Arrival, AllocError>
    ensures { IfOk result (λ next. (plan : List Construct) (x : ℕ) → HasRule plan x Rule.Endless →
        IsPart plan x 0 first.now → IsPart plan x 1 condition.now →
        IsPart plan x 2 third.now → IsPart plan x 3 body.now →
        AreBreaks plan x breaks.items → IsJoined plan x next out.old out.new) }
{
    let here = entry(alloc);
    enter(first, &here, out)?;
    let set = left(first, &here)?;
    let ring = go_round(&set, condition, third, body)?;
    lead_round(&set, &ring, condition, third, body, out)?;
    Ok(from_marks(breaks))
}
