//! What was found in the statements of a function.

ghost use Rattle.std.specs.Prelude.{◌≡◌, ◌+◌, ◌++◌, ◌∷◌, [], OnOk, drop, length, map, slice_get};
ghost use Rattle.c_tree.specs.Jumps.{stray_unless};
ghost use Rattle.c_jumps.specs.Faults.{fault_of};
ghost use Rattle.c_jumps.specs.Walk.{after_switch, mark_jumps, with_blames, with_default};
ghost use Rattle.c_jumps.specs.Walk.{with_goto, with_label, with_part, with_parts};

use crate::around::Around;
use crate::fault::{Fault, Faults, Jump};
use c_tree::Mark;
use std::alloc::{AllocError, Global};
use std::marker::Model;

/// What was found in the statements of a function: the faults that show at once, the labels, and
/// the names behind `goto`.
#[derive(Drop)]
pub(crate) struct Found {
    faults: Faults,
    /// Each `default` of the innermost `switch`, behind those of the ones around it.
    defaults: Vec<u32>,
    labels: Vec<u32>,
    gotos: Vec<u32>,
}

impl Model for Found {
    ghost use Rattle.c_jumps.specs.Walk.{FoundJumps};

    ghost Value = { FoundJumps };

    ghost view = { λ f. record {
      faults = f.faults;
      defaults = f.defaults.items;
      labels = f.labels.items;
      gotos = f.gotos.items;
    } };
}

impl Found {
    /// These faults, and nothing of the function yet.
    pub(crate) fn new(alloc: Global, faults: Faults) -> Found
        ensures { result ≡ record { faults = faults; defaults = []; labels = []; gotos = [] } }
    {
        Found {
            faults,
            defaults: Vec::new(alloc),
            labels: Vec::new(alloc),
            gotos: Vec::new(alloc),
        }
    }

    /// The faults, the labels, and the names behind `goto`.
    pub(crate) fn into_parts(self) -> (Faults, Vec<u32>, Vec<u32>)
        ensures faults { result.0 ≡ self.faults }
        ensures labels { result.1.items ≡ self.labels }
        ensures gotos { result.2.items ≡ self.gotos }
    {
        let Found {
            faults,
            defaults: _,
            labels,
            gotos,
        } = self;
        (faults, labels, gotos)
    }

    /// How many `default`s there are of the `switch`es around.
    pub(crate) fn defaults_len(&self) -> usize
        ensures { result ≡ length self.now.defaults }
    {
        self.defaults.len()
    }

    /// Adds the fault of a token that may not stand there, where there is a token.
    #[tactic(auto, unfolding(crate::specs::Walk::with_blames))]
    pub(crate) fn stray_unless(
        &mut self,
        may_stand: bool,
        jump: Jump,
        token: Option<u32>,
    ) -> Result<(), AllocError>
        ensures { OnOk result (self.new ≡ with_blames self.old
            (stray_unless may_stand (fault_of (Fault.BadJump jump)) token)) }
    {
        match token {
            Some(token) if !may_stand => self.faults.push(token, Fault::BadJump(jump)),
            _ => Ok(()),
        }
    }

    /// Adds labels.
    pub(crate) fn labels(&mut self, labels: &[Mark], around: Around) -> Result<(), AllocError>
        ensures { OnOk result (self.new ≡
            with_parts self.old (map mark_jumps labels.now) around) }
    {
        for label in labels {
            self.label(label, around)?;
        }
        Ok(())
    }

    /// Adds a label.
    #[tactic(auto, using(crate::proofs::Parts::label_laws))]
    fn label(&mut self, label: &Mark, around: Around) -> Result<(), AllocError>
        ensures { OnOk result (self.new ≡ with_part self.old (mark_jumps label.now) around) }
    {
        match label {
            Mark::Label(name, _) => self.push_label(*name),
            Mark::Case(_, marks) => {
                let case = first_mark(marks.items());
                self.stray_unless(around.in_switch, Jump::StrayCase, case)
            }
            Mark::Default(token, _) => {
                self.stray_unless(around.in_switch, Jump::StrayDefault, Some(*token))?;
                self.push_default(*token)
            }
        }
    }

    /// Adds the name of a label.
    #[tactic(auto, unfolding(crate::specs::Walk::with_label))]
    fn push_label(&mut self, name: u32) -> Result<(), AllocError>
        ensures { OnOk result (self.new ≡ with_label self.old name) }
    {
        self.labels.push(name)?;
        Ok(())
    }

    /// Adds a `default`.
    #[tactic(auto, unfolding(crate::specs::Walk::with_default))]
    fn push_default(&mut self, token: u32) -> Result<(), AllocError>
        ensures { OnOk result (self.new ≡ with_default self.old token) }
    {
        self.defaults.push(token)?;
        Ok(())
    }

    /// Adds the name behind a `goto`.
    #[tactic(auto, unfolding(crate::specs::Walk::with_goto))]
    pub(crate) fn push_goto(&mut self, name: u32) -> Result<(), AllocError>
        ensures { OnOk result (self.new ≡ with_goto self.old name) }
    {
        self.gotos.push(name)?;
        Ok(())
    }

    /// Ends a `switch` before which there were so many `default`s: only the first of its own may
    /// stand there.
    #[tactic(auto, unfolding(crate::specs::Walk::after_switch))]
    pub(crate) fn end_switch(&mut self, outer: usize) -> Result<(), AllocError>
        ensures { OnOk result (self.new ≡ after_switch outer self.old) }
    {
        let seconds = behind(&self.defaults, outer);
        self.faults
            .push_each(seconds, Fault::BadJump(Jump::SecondDefault))?;
        self.defaults.truncate(outer);
        Ok(())
    }
}

/// The tokens behind the one at the position.
fn behind(tokens: &[u32], position: usize) -> &[u32]
    ensures { result.now ≡ drop (position + 1) tokens.entry.now }
{
    if position < tokens.len() {
        &tokens[position + 1..]
    } else {
        &[]
    }
}

/// The first of the marks.
pub(crate) fn first_mark(marks: &[u32]) -> Option<u32>
    ensures { result ≡ slice_get marks.now 0 }
{
    marks.get(0).copied()
}
