//! The flow of a plan, from the parts upwards.

ghost use Rattle.std.specs.Prelude.{◌≡◌, ◌<◌, ◌≤◌, ◌+◌, ◌^◌, [], IfOk, OnOk};
ghost use Rattle.std.specs.Prelude.{Some, length, slice_get, slice_range};
ghost use Rattle.cfg_flow.specs.declared.plan.Plan.{Plan};
ghost use Rattle.cfg_flow.specs.Plans.{HasParts, IsFlat, constructs};
ghost use Rattle.cfg_flow.specs.Edges.{AreFlow};
ghost use Rattle.cfg_flow.specs.Works.{AreJoinedFrom, IsReadOf};

use crate::jumps::{Ahead, in_order};
use crate::order::put_in_order;
use crate::plan;
use crate::plan::Row;
use crate::site::Site;
use crate::table::{gaps, put};
use cfg_rules::{Joined, Marks, Summary};
use smallvec::SmallVec;
use std::alloc::{AllocError, Global};
use std::mem;

/// What is read of a plan.
#[derive(Drop)]
struct Function<'a> {
    alloc: Global,
    rows: &'a [Row],
    parts: &'a [Option<u32>],
    end: Option<u32>,
}

/// How far a plan is joined.
#[derive(Drop)]
struct Work {
    table: Vec<Summary>,
    ahead: Ahead,
    out: Joined,
}

/// Takes the first marks out of what was joined: the next construct begins with none.
fn take_first(alloc: Global, out: &mut Joined) -> Marks
    ensures first { result ≡ out.old.first }
    ensures none { out.new.first.items ≡ [] }
    ensures edges { out.new.edges ≡ out.old.edges }
{
    mem::replace(&mut out.first, SmallVec::new(alloc))
}

/// The number of so many rows, which is theirs unless they are too many.
fn number_of(rows: usize) -> u32
    ensures within { result ≤ rows }
    ensures all { rows < 2 ^ 32 → result ≡ rows }
{
    u32::try_from(rows).unwrap_or(u32::MAX)
}

impl<'a> Function<'a> {
    fn row(&self, x: u32) -> Row
        requires { x < length self.now.rows.now }
        ensures { slice_get self.now.rows.now x ≡ Some result }
    {
        self.rows[x as usize]
    }

    fn parts_of(&self, row: Row) -> &'a [Option<u32>]
        ensures { HasParts row (length self.now.parts.now) →
            result.now ≡ slice_range self.now.parts.now row.from row.to }
    {
        self.parts
            .get(row.from as usize..row.to as usize)
            .unwrap_or(&[])
    }

    /// Joins the construct: those above it are joined.
    fn join(&self, x: u32, work: &mut Work) -> Result<(), AllocError>
        requires inside { x < length self.now.rows.now }
        requires room { length work.old.table.items ≡ length self.now.rows.now }
        ensures room { OnOk result (length work.new.table.items ≡ length self.now.rows.now) }
        ensures joined { OnOk result ((plan : Plan) → IsFlat plan → IsReadOf plan self.now →
            AreJoinedFrom plan (x + 1) work.old → AreJoinedFrom plan x work.new) }
    {
        let row = self.row(x);
        let site = Site {
            alloc: self.alloc,
            x,
            rule: row.rule,
            parts: self.parts_of(row),
            end: self.end,
        };
        let jumps = work.ahead.take(self.alloc, x)?;
        let next = site.join(jumps, &mut work.table, &mut work.out)?;
        let first = take_first(self.alloc, &mut work.out);
        let summary = Summary {
            first,
            last: next.marks,
            passable: next.entered,
        };
        put(&mut work.table, x as usize, summary);
        Ok(())
    }
}

/// The edges of a plan: from mark to mark, rising by from and then by to, each once.
///
/// It takes time linear in the plan and in the edges that the rules demand, but for sorting jumps
/// and edges, which is in n log n; and memory for a summary of each construct.
pub fn flow(alloc: Global, plan: plan::Plan) -> Result<Vec<(u32, u32)>, AllocError>
    ensures { IfOk result (λ edges. IsFlat plan → AreFlow (constructs plan) edges.items) }
{
    let plan::Plan {
        rows,
        parts,
        method_return,
        targets,
        breaks,
        continues,
    } = plan;
    let function = Function {
        alloc,
        rows: rows.as_slice(),
        parts: parts.as_slice(),
        end: method_return,
    };
    let mut work = Work {
        table: gaps(alloc, rows.len())?,
        ahead: Ahead {
            targets: in_order(targets),
            breaks: in_order(breaks),
            continues: in_order(continues),
        },
        out: Joined {
            first: SmallVec::new(alloc),
            edges: Vec::new(alloc),
        },
    };
    for x in (0..number_of(rows.len())).rev() {
        function.join(x, &mut work)?;
    }
    let Work { out, .. } = work;
    let Joined { mut edges, .. } = out;
    put_in_order(&mut edges);
    Ok(edges)
}
