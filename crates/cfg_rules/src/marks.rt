//! Short lists of marks.

ghost use Rattle.std.specs.Prelude.{◌≡◌, ◌++◌, IfOk};
ghost use Rattle.cfg_rules.specs.Sets.{IsUnion};

use smallvec::SmallVec;
use std::alloc::AllocError;

/// Marks: the numbers of nodes. Most lists are short, and need no allocation.
pub type Marks = SmallVec<u32, 2>;

fn extended(mut longer: Marks, shorter: Marks) -> Result<Marks, AllocError>
    ensures { IfOk result (λ all. all.items ≡ longer.items ++ shorter.items) }
{
    longer.extend_from_slice(shorter.as_slice())?;
    Ok(longer)
}

/// The marks of both lists, at the cost of the shorter one.
pub(crate) fn union(a: Marks, b: Marks) -> Result<Marks, AllocError>
    ensures { IfOk result (λ all. IsUnion a.items b.items all.items) }
{
    let all = if a.len() < b.len() {
        extended(b, a)?
    } else {
        extended(a, b)?
    };
    Ok(all)
}

pub(crate) fn copied(marks: &Marks) -> Result<Marks, AllocError>
    ensures { IfOk result (λ copy. copy.items ≡ marks.now.items) }
{
    SmallVec::from_slice(*marks.allocator(), marks.as_slice())
}
