//! The jumps of a plan, by their constructs.

ghost use Rattle.std.specs.Prelude.{ℕ, ◌+◌, List, IfOk, MatchOption, OnOk};
ghost use Rattle.cfg_flow.specs.declared.plan.Jump.{Jump};
ghost use Rattle.cfg_flow.specs.declared.plan.Plan.{Plan};
ghost use Rattle.cfg_flow.specs.Jumping.{AreAhead, AreAllTaken, AreNoneFrom, AreTaken};
ghost use Rattle.cfg_flow.specs.Jumping.{IsAhead, IsLastFrom, IsMarkAdded};

use crate::plan;
use cfg_rules::Marks;
use smallvec::SmallVec;
use std::alloc::{AllocError, Global};

/// The jumps of one construct.
#[derive(Drop)]
pub(crate) struct Jumps {
    /// The JUMP_TARGETs to which it jumps.
    pub targets: Marks,
    /// The `break`s that leave it.
    pub breaks: Marks,
    /// The `continue`s that end its body.
    pub continues: Marks,
}

/// The jumps of the constructs that are still to be joined, those of the next one last.
#[derive(Drop)]
pub(crate) struct Ahead {
    pub targets: Vec<plan::Jump>,
    pub breaks: Vec<plan::Jump>,
    pub continues: Vec<plan::Jump>,
}

/// The jumps in the order of their constructs.
pub(crate) fn in_order(mut jumps: Vec<plan::Jump>) -> Vec<plan::Jump>
    ensures { (x : ℕ) → AreAhead jumps.items x result.items }
{
    jumps.sort_unstable_by_key(|jump| jump.construct);
    jumps
}

/// The last jump, if its construct is `x` or one above it.
fn last_from(jumps: &[plan::Jump], x: u32) -> Option<plan::Jump>
    ensures { MatchOption result (AreNoneFrom x jumps.now) (IsLastFrom x jumps.now) }
{
    match jumps.last() {
        None => None,
        Some(jump) => {
            if jump.construct < x {
                None
            } else {
                Some(*jump)
            }
        }
    }
}

/// Adds the mark of a jump, if it is of the construct.
fn add_mark(marks: &mut Marks, jump: plan::Jump, x: u32) -> Result<(), AllocError>
    ensures { OnOk result (IsMarkAdded x jump marks.old.items marks.new.items) }
{
    if jump.construct == x {
        marks.push(jump.mark)?;
    }
    Ok(())
}

/// Takes the marks of the construct out of the jumps, and passes over those of later ones.
fn take_marks(alloc: Global, ahead: &mut Vec<plan::Jump>, x: u32) -> Result<Marks, AllocError>
    ensures { IfOk result (λ marks. (all : List Jump) → AreAhead all (x + 1) ahead.old.items →
        AreTaken all x marks.items ahead.new.items) }
{
    let mut marks = SmallVec::new(alloc);
    while let Some(jump) = last_from(ahead.as_slice(), x) {
        add_mark(&mut marks, jump, x)?;
        ahead.pop();
    }
    Ok(marks)
}

impl Ahead {
    /// Takes the jumps of the construct out: it comes next.
    pub(crate) fn take(&mut self, alloc: Global, x: u32) -> Result<Jumps, AllocError>
        ensures { IfOk result (λ taken. (plan : Plan) → IsAhead plan (x + 1) self.old →
            AreAllTaken plan x taken self.new) }
    {
        let targets = take_marks(alloc, &mut self.targets, x)?;
        let breaks = take_marks(alloc, &mut self.breaks, x)?;
        let continues = take_marks(alloc, &mut self.continues, x)?;
        Ok(Jumps {
            targets,
            breaks,
            continues,
        })
    }
}
