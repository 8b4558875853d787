//! The summaries of constructs that are joined, by their numbers.

ghost use Rattle.std.specs.Prelude.{◌≡◌, ◌<◌, IfOk, Some, length};
ghost use Rattle.cfg_flow.specs.Tables.{IsContinued, IsGap, IsPut, IsTaken, part_in};

use cfg_rules::{Marks, Summary};
use smallvec::SmallVec;
use std::alloc::{AllocError, Global};
use std::mem;

/// A part that is left out: it has no marks, and is passed.
fn gap(alloc: Global) -> Summary
    ensures { IsGap result }
{
    Summary {
        first: SmallVec::new(alloc),
        last: SmallVec::new(alloc),
        passable: true,
    }
}

/// A table of so many constructs, none of which is joined.
pub(crate) fn gaps(alloc: Global, count: usize) -> Result<Vec<Summary>, AllocError>
    ensures { IfOk result (λ table. length table.items ≡ count) }
{
    let mut table = Vec::new(alloc);
    for _ in 0..count {
        table.push(gap(alloc))?;
    }
    Ok(table)
}

/// Takes the summary of a construct out of the table, if it is there.
fn take(alloc: Global, x: usize, table: &mut [Summary]) -> Summary
    ensures taken { IsTaken (Some x) table.old result table.new }
    ensures count { length table.new ≡ length table.old }
{
    if x < table.len() {
        mem::replace(&mut table[x], gap(alloc))
    } else {
        gap(alloc)
    }
}

/// Takes the summary of part `k` out of the table: no construct but the one around it needs it.
pub(crate) fn take_part(
    alloc: Global,
    parts: &[Option<u32>],
    k: usize,
    table: &mut [Summary],
) -> Summary
    ensures taken { IsTaken (part_in parts.now k) table.old result table.new }
    ensures count { length table.new ≡ length table.old }
{
    match parts.get(k) {
        Some(Some(part)) => take(alloc, *part as usize, table),
        _ => gap(alloc),
    }
}

/// Puts the summary of a construct into the table.
pub(crate) fn put(table: &mut [Summary], x: usize, summary: Summary)
    requires { x < length table.old }
    ensures { IsPut x table.old summary table.new }
{
    table[x] = summary;
}

/// The part with the `continue`s that end it among its last marks.
pub(crate) fn continued(mut part: Summary, continues: &Marks) -> Result<Summary, AllocError>
    ensures { IfOk result (λ body. IsContinued part continues.now.items body) }
{
    part.last.extend_from_slice(continues.as_slice())?;
    Ok(part)
}
