//! From where control comes to a point of a construct.

ghost use Rattle.std.specs.Prelude.{◌≡◌, [], ◌∷◌, IfOk};
ghost use Rattle.cfg_rules.specs.Sets.{AreFrom, IsAgain, IsBoth, IsEntry, IsLeft};
ghost use Rattle.cfg_rules.specs.Sets.{IsLeftByEither, IsPast, IsSame};

use crate::marks::{Marks, copied, union};
use crate::summary::Summary;
use smallvec::SmallVec;
use std::alloc::{AllocError, Global};

/// From where control comes.
#[derive(Drop)]
pub struct Arrival {
    /// The marks in the construct after which it comes.
    pub marks: Marks,
    /// Whether it comes from where the construct was entered, past no mark.
    pub entered: bool,
}

/// Control as a construct is entered.
pub(crate) fn entry(alloc: Global) -> Arrival
    ensures { IsEntry result }
{
    Arrival {
        marks: SmallVec::new(alloc),
        entered: true,
    }
}

/// Control from these marks alone.
pub(crate) fn from_marks(marks: Marks) -> Arrival
    ensures { AreFrom marks.items result }
{
    Arrival {
        marks,
        entered: false,
    }
}

/// Control from nowhere.
pub(crate) fn nowhere(alloc: Global) -> Arrival
    ensures { AreFrom [] result }
{
    from_marks(SmallVec::new(alloc))
}

/// Control from one mark alone.
pub(crate) fn from_mark(alloc: Global, mark: u32) -> Result<Arrival, AllocError>
    ensures { IfOk result (λ next. AreFrom (mark ∷ []) next) }
{
    let mut marks = SmallVec::new(alloc);
    marks.push(mark)?;
    Ok(from_marks(marks))
}

fn copy(here: &Arrival) -> Result<Arrival, AllocError>
    ensures { IfOk result (λ next. IsSame here.now next) }
{
    let marks = copied(&here.marks)?;
    Ok(Arrival {
        marks,
        entered: here.entered,
    })
}

/// Control from two sides.
fn both(there: Arrival, also: Arrival) -> Result<Arrival, AllocError>
    ensures { IfOk result (λ next. IsBoth there also next) }
{
    let marks = union(there.marks, also.marks)?;
    let entered = there.entered || also.entered;
    Ok(Arrival { marks, entered })
}

/// Control from where it came, and from the marks.
pub(crate) fn past(there: Arrival, marks: Marks) -> Result<Arrival, AllocError>
    ensures { IfOk result (λ next. IsPast there marks.items next) }
{
    both(there, from_marks(marks))
}

/// Control as a part with these last marks is left.
pub(crate) fn leave(last: Marks, passable: bool, here: Arrival) -> Result<Arrival, AllocError>
    ensures { IfOk result (λ next. IsLeft last.items passable here next) }
{
    if passable {
        past(here, last)
    } else {
        Ok(from_marks(last))
    }
}

/// Control as a part is left, where the part and the arrival serve again.
pub(crate) fn left(part: &Summary, here: &Arrival) -> Result<Arrival, AllocError>
    ensures { IfOk result (λ next. IsLeft part.now.last.items part.now.passable here.now next) }
{
    let last = copied(&part.last)?;
    if part.passable {
        past(copy(here)?, last)
    } else {
        Ok(from_marks(last))
    }
}

/// Control as one of two parts is left: what passes them counts once.
pub(crate) fn leave_either(
    one: Summary,
    other: Summary,
    here: Arrival,
) -> Result<Arrival, AllocError>
    ensures { IfOk result (λ next. IsLeftByEither one other here next) }
{
    let passable = one.passable || other.passable;
    let next = leave(one.last, passable, here)?;
    past(next, other.last)
}

/// Control that came to a part, or out of it, and what comes round to it where it is passed.
pub(crate) fn again(there: Arrival, passable: bool, round: &Arrival) -> Result<Arrival, AllocError>
    ensures { IfOk result (λ next. IsAgain there passable round.now next) }
{
    if passable {
        both(there, copy(round)?)
    } else {
        Ok(there)
    }
}
