//! The board of summaries.

ghost use Rattle.std.specs.Prelude.{◌≡◌, ◌<◌, ◌≤◌, ◌↔◌, ◌++◌, false, true, length, take};
ghost use Rattle.std.specs.Prelude.{IfOk, IsTrue, List, MatchOption, OnErr, OnOk};
ghost use Rattle.std.specs.List.{All, Contains};
ghost use Rattle.matched_paths.specs.declared.flow_graph.Pair.{Pair as PairValue};
ghost use Rattle.summary_core.specs.Searches.{IsFoundOf};
ghost use Rattle.summary_core.specs.Board.{IsClaimable, IsOpening};
ghost use Rattle.summary_core.specs.Events.{Abandons, Claims, FindsNone, Publishes};
ghost use Rattle.summary_core.specs.Events.{Flies, NoneFlies};
ghost use Rattle.summary_core.specs.Table.{IsClosed};

use crate::agenda::{Agenda, Asker};
use crate::claims::{add_pairs, position_of};
use crate::closed::Closed;
use crate::found::{Found, Goal};
use crate::known::Known;
use crate::mirror::Mirror;
use crate::task::{Stamp, Task, tasks_of};
use crate::wanted::wanted_goals;
use joern_io::List as ListOf;
use matched_paths::{FlowGraph, Pair};
use std::alloc::{AllocError, Global};
use std::marker::Model;
use std::sync::Arc;

/// The pairs that were published, and what is known of each wanted goal.
///
/// Contracts see a board as the definitions have it: its flow graph and starts, the history of
/// pairs and the tasks of the wanted goals. What is always so of one, `law_kept` says.
#[derive(Drop)]
pub struct Board {
    flow: Arc<FlowGraph>,
    starts: ListOf<u32>,
    pub(crate) history: Vec<Pair>,
    known: Known,
    tasks: Vec<Task>,
    agenda: Agenda,
}

impl Model for Board {
    ghost use Rattle.summary_core.specs.Board.{BoardState};
    ghost use Rattle.summary_core.specs.Sound.{IsKeptBoard};
    ghost use Rattle.summary_core.specs.Knowing.{KnowsFront};
    ghost use Rattle.summary_core.specs.Agenda.{KeepsAgenda};

    ghost Value = { BoardState };

    ghost view = { λ board. record {
      flow = board.flow.value;
      starts = board.starts;
      history = board.history.items;
      tasks = board.tasks.items;
    } };

    ghost invariant = { λ board. IsKeptBoard (record {
      flow = board.flow.value;
      starts = board.starts;
      history = board.history.items;
      tasks = board.tasks.items;
    }) × KnowsFront board.known board.history.items × KeepsAgenda (record {
      flow = board.flow.value;
      starts = board.starts;
      history = board.history.items;
      tasks = board.tasks.items;
    }) board.agenda };
}

impl Board {
    /// A board without pairs, on which every wanted goal is dirty and none flies.
    pub fn new(
        alloc: Global,
        flow: Arc<FlowGraph>,
        starts: ListOf<u32>,
    ) -> Result<Board, AllocError>
        requires { All (λ start. start < flow.value.vertices) starts }
        ensures { IfOk result (IsOpening flow.value starts) }
    {
        let goals = wanted_goals(alloc, &flow, starts.items())?;
        let tasks = tasks_of(alloc, &goals)?;
        let agenda = Agenda::new(alloc, tasks.len())?;
        Ok(Board {
            flow,
            starts,
            history: Vec::new(alloc),
            known: Known::new(alloc),
            tasks,
            agenda,
        })
    }

    /// Whether the goal is in flight. It takes no memory.
    pub fn in_flight(&self, goal: Goal) -> bool
        ensures { IsTrue result ↔ Flies self.now goal.vertex }
    {
        match position_of(&self.tasks, goal.vertex) {
            Some(position) => self.tasks[position].flies,
            None => false,
        }
    }

    /// Makes the mirror the whole history.
    pub fn copy_tail(&self, mirror: &mut Mirror) -> Result<(), AllocError>
        requires { mirror.old ≡ take (length mirror.old) self.now.history }
        ensures ok { OnOk result (mirror.new ≡ self.now.history) }
        ensures err { OnErr result (mirror.new ≡ mirror.old) }
    {
        let from = mirror.pairs.len();
        mirror.pairs.extend_from_slice(&self.history[from..])
    }

    /// Claims the least goal that is dirty and in no flight, for a search over the mirror; None
    /// where there is none. It takes no memory, and time logarithmic in the wanted goals.
    pub fn claim(&mut self, mirror: &Mirror) -> Option<Goal>
        requires { mirror.now ≡ self.old.history }
        ensures { MatchOption result (FindsNone self.old self.new)
            (λ goal. Claims self.old goal.vertex self.new) }
    {
        let _ = mirror;
        let position = match self.agenda.marks.first() {
            Some(position) => position,
            None => return None,
        };
        self.agenda.marks.put(position, false);
        let task = &mut self.tasks[position];
        task.flies = true;
        Some(Goal { vertex: task.goal })
    }

    /// Publishes what was found from a goal in flight, and ends its flight.
    ///
    /// Where memory is wanting the flight goes on. It takes time linear in what was found, in the
    /// pairs that are new since a publication before, and in the goals that become dirty, each with
    /// a look-up logarithmic in the wanted goals or the pairs.
    pub fn publish(&mut self, goal: Goal, found: Found) -> Result<(), AllocError>
        requires flies { Flies self.old goal.vertex }
        requires seen { found.seen ≤ length self.old.history }
        requires found { IsFoundOf self.old.flow (take found.seen self.old.history)
            goal.vertex found }
        ensures ok { OnOk result (Publishes self.old goal.vertex found self.new) }
        ensures err { OnErr result (self.new ≡ self.old) }
    {
        let Some(position) = position_of(&self.tasks, goal.vertex) else {
            unreachable!()
        };
        let Found { outs, asked, seen } = found;
        self.known.take_up(&self.history)?;
        let asker = Asker {
            task: position,
            seen,
        };
        self.agenda.note(&self.tasks, asker, asked.items())?;
        let from = self.history.len();
        add_pairs(&mut self.history, &self.known, goal.vertex, outs.items())?;
        let stamp = Stamp { seen, asked };
        let stale = self.agenda.is_stale(&self.tasks, &stamp);
        self.agenda.marks.put(position, stale);
        let task = &mut self.tasks[position];
        task.stamp = Some(stamp);
        task.flies = false;
        self.agenda
            .tell(&self.tasks, position, from, self.history.len());
        Ok(())
    }

    /// Ends the flight of a goal. It takes no memory.
    pub fn abandon(&mut self, goal: Goal)
        requires { Flies self.old goal.vertex }
        ensures { Abandons self.old goal.vertex self.new }
    {
        let Some(position) = position_of(&self.tasks, goal.vertex) else {
            unreachable!()
        };
        self.agenda.marks.put(position, true);
        self.tasks[position].flies = false;
    }

    /// The closed table of the flow graph and the starts. It is made anew, and not of the history.
    pub fn finish(self, alloc: Global) -> Result<Closed, AllocError>
        requires { NoneFlies self }
        ensures flow { IfOk result (λ closed. closed.flow ≡ self.flow) }
        ensures starts { IfOk result (λ closed. closed.starts ≡ self.starts) }
        ensures closed { IfOk result IsClosed }
    {
        let Board {
            flow,
            starts,
            history: _,
            known: _,
            tasks: _,
            agenda: _,
        } = self;
        let closed = Closed::of(alloc, flow, starts)?;
        Ok(closed)
    }
}
