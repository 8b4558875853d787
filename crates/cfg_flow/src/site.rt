//! One construct of a plan, joined by its rule.

ghost use Rattle.std.specs.Prelude.{◌≡◌, IfOk, length};
ghost use Rattle.cfg_flow.specs.Steps.{JoinsByParts, JoinsSite, TakesPart, TakesParts};

use crate::jumps::Jumps;
use crate::table::{continued, take_part};
use cfg_rules::{
    Arrival, Joined, Rule, Summary, join_block, join_call, join_conditional, join_do, join_endless,
    join_for, join_goto, join_if, join_jump, join_jump_target, join_method, join_primary,
    join_return, join_short_circuit, join_silent, join_switch, join_switch_default, join_while,
};
use std::alloc::{AllocError, Global};

/// A construct that is joined next.
#[derive(Drop)]
pub(crate) struct Site<'a> {
    pub alloc: Global,
    pub x: u32,
    pub rule: Rule,
    pub parts: &'a [Option<u32>],
    pub end: Option<u32>,
}

impl Site<'_> {
    /// Takes part `k` out of the table.
    fn take(&self, k: usize, table: &mut [Summary]) -> Summary
        ensures { TakesPart self.now k table.old result table.new }
    {
        take_part(self.alloc, self.parts, k, table)
    }

    /// Takes all parts out.
    fn take_all(&self, table: &mut [Summary]) -> Result<Vec<Summary>, AllocError>
        ensures { IfOk result (λ taken.
            TakesParts self.now (length self.now.parts.now) table.old taken.items table.new) }
    {
        let mut taken = Vec::new(self.alloc);
        for k in 0..self.parts.len() {
            taken.push(self.take(k, table))?;
        }
        Ok(taken)
    }

    fn call(&self, table: &mut [Summary], out: &mut Joined) -> Result<Arrival, AllocError>
        requires { self.now.rule ≡ Rule.Call }
        ensures { IfOk result (λ next.
            JoinsByParts self.now table.old next out.old out.new table.new) }
    {
        let operands = self.take_all(table)?;
        join_call(self.alloc, self.x, operands.as_slice(), out)
    }

    fn block(&self, table: &mut [Summary], out: &mut Joined) -> Result<Arrival, AllocError>
        requires { self.now.rule ≡ Rule.Block }
        ensures { IfOk result (λ next.
            JoinsByParts self.now table.old next out.old out.new table.new) }
    {
        let items = self.take_all(table)?;
        join_block(self.alloc, items.as_slice(), out)
    }

    fn short_circuit(&self, table: &mut [Summary], out: &mut Joined) -> Result<Arrival, AllocError>
        requires { self.now.rule ≡ Rule.ShortCircuit }
        ensures { IfOk result (λ next.
            JoinsByParts self.now table.old next out.old out.new table.new) }
    {
        let first = self.take(0, table);
        let second = self.take(1, table);
        join_short_circuit(self.alloc, self.x, &first, &second, out)
    }

    fn conditional(&self, table: &mut [Summary], out: &mut Joined) -> Result<Arrival, AllocError>
        requires { self.now.rule ≡ Rule.Conditional }
        ensures { IfOk result (λ next.
            JoinsByParts self.now table.old next out.old out.new table.new) }
    {
        let condition = self.take(0, table);
        let chosen = self.take(1, table);
        let other = self.take(2, table);
        join_conditional(self.alloc, self.x, &condition, chosen, other, out)
    }

    fn selection(&self, table: &mut [Summary], out: &mut Joined) -> Result<Arrival, AllocError>
        requires { self.now.rule ≡ Rule.If }
        ensures { IfOk result (λ next.
            JoinsByParts self.now table.old next out.old out.new table.new) }
    {
        let condition = self.take(0, table);
        let chosen = self.take(1, table);
        let other = self.take(2, table);
        join_if(self.alloc, &condition, chosen, other, out)
    }

    fn while_loop(
        &self,
        jumps: Jumps,
        table: &mut [Summary],
        out: &mut Joined,
    ) -> Result<Arrival, AllocError>
        requires { self.now.rule ≡ Rule.While }
        ensures { IfOk result (λ next.
            JoinsSite self.now jumps table.old next out.old out.new table.new) }
    {
        let condition = self.take(0, table);
        let body = self.take(1, table);
        let body = continued(body, &jumps.continues)?;
        join_while(self.alloc, &condition, &body, jumps.breaks, out)
    }

    fn do_loop(
        &self,
        jumps: Jumps,
        table: &mut [Summary],
        out: &mut Joined,
    ) -> Result<Arrival, AllocError>
        requires { self.now.rule ≡ Rule.Do }
        ensures { IfOk result (λ next.
            JoinsSite self.now jumps table.old next out.old out.new table.new) }
    {
        let body = self.take(0, table);
        let condition = self.take(1, table);
        let body = continued(body, &jumps.continues)?;
        join_do(self.alloc, &body, &condition, jumps.breaks, out)
    }

    fn for_loop(
        &self,
        jumps: Jumps,
        table: &mut [Summary],
        out: &mut Joined,
    ) -> Result<Arrival, AllocError>
        requires { self.now.rule ≡ Rule.For }
        ensures { IfOk result (λ next.
            JoinsSite self.now jumps table.old next out.old out.new table.new) }
    {
        let first = self.take(0, table);
        let condition = self.take(1, table);
        let third = self.take(2, table);
        let body = self.take(3, table);
        let ended = continued(body, &jumps.continues)?;
        join_for(
            self.alloc,
            &first,
            &condition,
            &third,
            &ended,
            jumps.breaks,
            out,
        )
    }

    fn endless_loop(
        &self,
        jumps: Jumps,
        table: &mut [Summary],
        out: &mut Joined,
    ) -> Result<Arrival, AllocError>
        requires { self.now.rule ≡ Rule.Endless }
        ensures { IfOk result (λ next.
            JoinsSite self.now jumps table.old next out.old out.new table.new) }
    {
        let first = self.take(0, table);
        let condition = self.take(1, table);
        let third = self.take(2, table);
        let body = self.take(3, table);
        let body = continued(body, &jumps.continues)?;
        join_endless(
            self.alloc,
            &first,
            &condition,
            &third,
            &body,
            jumps.breaks,
            out,
        )
    }

    fn switch(
        &self,
        jumps: Jumps,
        table: &mut [Summary],
        out: &mut Joined,
    ) -> Result<Arrival, AllocError>
        requires { self.now.rule ≡ Rule.Switch }
        ensures { IfOk result (λ next.
            JoinsSite self.now jumps table.old next out.old out.new table.new) }
    {
        let condition = self.take(0, table);
        let body = self.take(1, table);
        let Jumps {
            targets,
            breaks,
            continues: _,
        } = jumps;
        join_switch(
            self.alloc,
            &condition,
            body,
            targets.as_slice(),
            breaks,
            out,
        )
    }

    fn switch_default(
        &self,
        jumps: Jumps,
        table: &mut [Summary],
        out: &mut Joined,
    ) -> Result<Arrival, AllocError>
        requires { self.now.rule ≡ Rule.SwitchDefault }
        ensures { IfOk result (λ next.
            JoinsSite self.now jumps table.old next out.old out.new table.new) }
    {
        let condition = self.take(0, table);
        let body = self.take(1, table);
        let Jumps {
            targets,
            breaks,
            continues: _,
        } = jumps;
        join_switch_default(
            self.alloc,
            &condition,
            body,
            targets.as_slice(),
            breaks,
            out,
        )
    }

    fn jump_target(&self, table: &mut [Summary], out: &mut Joined) -> Result<Arrival, AllocError>
        requires { self.now.rule ≡ Rule.JumpTarget }
        ensures { IfOk result (λ next.
            JoinsByParts self.now table.old next out.old out.new table.new) }
    {
        let statement = self.take(1, table);
        join_jump_target(self.alloc, self.x, statement, out)
    }

    fn returning(&self, table: &mut [Summary], out: &mut Joined) -> Result<Arrival, AllocError>
        requires { self.now.rule ≡ Rule.Return }
        ensures { IfOk result (λ next.
            JoinsByParts self.now table.old next out.old out.new table.new) }
    {
        let value = self.take(0, table);
        join_return(self.alloc, self.x, &value, self.end, out)
    }

    fn method(&self, table: &mut [Summary], out: &mut Joined) -> Result<Arrival, AllocError>
        requires { self.now.rule ≡ Rule.Method }
        ensures { IfOk result (λ next.
            JoinsByParts self.now table.old next out.old out.new table.new) }
    {
        let body = self.take(0, table);
        join_method(self.alloc, self.x, &body, self.end, out)
    }

    /// Joins the construct by its rule, and takes its parts out of the table.
    pub(crate) fn join(
        &self,
        jumps: Jumps,
        table: &mut [Summary],
        out: &mut Joined,
    ) -> Result<Arrival, AllocError>
        ensures { IfOk result (λ next.
            JoinsSite self.now jumps table.old next out.old out.new table.new) }
    {
        match self.rule {
            Rule::Silent => Ok(join_silent(self.alloc, out)),
            Rule::Primary | Rule::SizeOf => join_primary(self.alloc, self.x, out),
            Rule::Goto => join_goto(self.alloc, self.x, jumps.targets.as_slice(), out),
            Rule::Break | Rule::Continue => join_jump(self.alloc, self.x, out),
            Rule::Call => self.call(table, out),
            Rule::Block => self.block(table, out),
            Rule::ShortCircuit => self.short_circuit(table, out),
            Rule::Conditional => self.conditional(table, out),
            Rule::If => self.selection(table, out),
            Rule::While => self.while_loop(jumps, table, out),
            Rule::Do => self.do_loop(jumps, table, out),
            Rule::For => self.for_loop(jumps, table, out),
            Rule::Endless => self.endless_loop(jumps, table, out),
            Rule::Switch => self.switch(jumps, table, out),
            Rule::SwitchDefault => self.switch_default(jumps, table, out),
            Rule::JumpTarget => self.jump_target(table, out),
            Rule::Return => self.returning(table, out),
            Rule::Method => self.method(table, out),
        }
    }
}
