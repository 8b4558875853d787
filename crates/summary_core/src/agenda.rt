//! Which tasks are claimable, and who asked for which goal.

ghost use Rattle.std.specs.Prelude.{◌≡◌, ◌<◌, ◌≤◌, ◌↔◌, [], ◌∷◌, ◌++◌};
ghost use Rattle.std.specs.Prelude.{length, map, slice_index_or, slice_set, List};
ghost use Rattle.std.specs.Prelude.{IfOk, IsTrue, OnErr, OnOk};
ghost use Rattle.std.specs.List.{All};
ghost use Rattle.std.specs.List.Sorted.{IsStrictlyIncreasing};
ghost use Rattle.matched_paths.specs.declared.flow_graph.Pair.{Pair as PairValue};
ghost use Rattle.summary_core.specs.Board.{goals_of, IsStale};
ghost use Rattle.summary_core.specs.Marking.{IsTree};
ghost use Rattle.summary_core.specs.Agenda.{HasLater, TellsLatest, IsFresh, IsNoted, IsSearched};
ghost use Rattle.summary_core.specs.Agenda.{lists_of, askers_of, Notes, Tells, Wakes};

use crate::claims::position_of;
use crate::marks::Marks;
use crate::task::{Stamp, Task};
use std::alloc::{AllocError, Global};

/// Who asked for a goal: the position of a task, and how many pairs its search saw.
#[derive(Clone, Copy)]
pub(crate) struct Asker {
    pub task: usize,
    pub seen: u64,
}

/// Which tasks are claimable, and what a pair that is new changes of that.
#[derive(Drop)]
pub(crate) struct Agenda {
    /// The claimable tasks.
    pub(crate) marks: Marks,
    /// For each task, how many pairs there are up to the last one that begins at its goal.
    latest: Vec<u64>,
    /// For each task, who asked for its goal after that pair.
    askers: Vec<Vec<Asker>>,
}

/// So many empty lists.
fn empty_lists(alloc: Global, count: usize) -> Result<Vec<Vec<Asker>>, AllocError>
    ensures len { IfOk result (λ lists. length lists.items ≡ count) }
    ensures empty { IfOk result (λ lists. All (λ list. list.items ≡ []) lists.items) }
{
    let mut lists = Vec::with_capacity(alloc, count)?;
    while lists.len() < count {
        lists.push(Vec::new(alloc))?;
    }
    Ok(lists)
}

/// Adds one who asked to the list at the position.
fn add(lists: &mut Vec<Vec<Asker>>, position: usize, asker: Asker) -> Result<(), AllocError>
    requires { position < length lists.old.items }
    ensures ok { OnOk result (map (λ list. list.items) lists.new.items ≡
        slice_set (map (λ list. list.items) lists.old.items) position
        (slice_index_or (map (λ list. list.items) lists.old.items) position []
        ++ asker ∷ [])) }
    ensures err { OnErr result (map (λ list. list.items) lists.new.items ≡
        map (λ list. list.items) lists.old.items) }
{
    lists[position].push(asker)?;
    Ok(())
}

/// Empties the list at the position, which keeps its memory.
fn empty(lists: &mut Vec<Vec<Asker>>, position: usize)
    requires { position < length lists.old.items }
    ensures { map (λ list. list.items) lists.new.items ≡
        slice_set (map (λ list. list.items) lists.old.items) position [] }
{
    lists[position].clear();
}

/// Whether the task is in no flight, and its stamp's search saw so many pairs.
fn is_searched(task: &Task, seen: u64) -> bool
    ensures { IsTrue result ↔ IsSearched task.now seen }
{
    if task.flies {
        return false;
    }
    match &task.stamp {
        None => false,
        Some(stamp) => stamp.seen == seen,
    }
}

/// Marks each task whose search is one of the askers.
fn wake(marks: &mut Marks, tasks: &[Task], askers: &[Asker])
    requires tree { IsTree marks.old }
    requires count { marks.old.count ≡ length tasks.now }
    requires within { All (λ asker. asker.task < length tasks.now) askers.now }
    ensures { Wakes tasks.now askers.now marks.old marks.new }
{
    for asker in askers {
        if is_searched(&tasks[asker.task], asker.seen) {
            marks.put(asker.task, true);
        }
    }
}

impl Agenda {
    /// Each of so many tasks is claimable, there are no pairs, and nobody asked.
    pub(crate) fn new(alloc: Global, count: usize) -> Result<Agenda, AllocError>
        ensures { IfOk result (IsFresh count) }
    {
        let Ok(positions) = u32::try_from(count) else {
            return Err(AllocError); // There are no more tasks than vertices.
        };
        let marks = Marks::all(alloc, positions)?;
        let latest = Vec::from_elem(alloc, 0, count)?;
        let askers = empty_lists(alloc, count)?;
        Ok(Agenda {
            marks,
            latest,
            askers,
        })
    }

    /// Notes who asked for these goals. Where memory is wanting it is noted at some of them.
    pub(crate) fn note(
        &mut self,
        tasks: &[Task],
        asker: Asker,
        asked: &[u32],
    ) -> Result<(), AllocError>
        requires rise { IsStrictlyIncreasing (goals_of tasks.now) }
        requires lists { length (lists_of self.old) ≡ length tasks.now }
        ensures notes { Notes tasks.now asker asked.now self.old self.new }
        ensures ok { OnOk result (IsNoted tasks.now asker asked.now self.new) }
    {
        for goal in asked {
            if let Some(position) = position_of(tasks, *goal) {
                add(&mut self.askers, position, asker)?;
            }
        }
        Ok(())
    }

    /// Whether a pair that is not among the first so many begins at the goal.
    fn has_later(&self, tasks: &[Task], goal: u32, seen: u64) -> bool
        requires rise { IsStrictlyIncreasing (goals_of tasks.now) }
        requires len { length self.now.latest.items ≡ length tasks.now }
        ensures { (history : List PairValue) →
            TellsLatest history tasks.now self.now.latest.items →
            (IsTrue result ↔ HasLater history goal seen) }
    {
        match position_of(tasks, goal) {
            Some(position) => seen < self.latest[position],
            None => false,
        }
    }

    /// Whether the stamp is stale.
    pub(crate) fn is_stale(&self, tasks: &[Task], stamp: &Stamp) -> bool
        requires rise { IsStrictlyIncreasing (goals_of tasks.now) }
        requires len { length self.now.latest.items ≡ length tasks.now }
        ensures { (history : List PairValue) →
            TellsLatest history tasks.now self.now.latest.items →
            (IsTrue result ↔ IsStale history stamp.now) }
    {
        for goal in stamp.asked.items() {
            if self.has_later(tasks, *goal, stamp.seen) {
                return true;
            }
        }
        false
    }

    /// Tells of the pairs behind the first so many, which begin at the goal of the task at the
    /// position: who asked for it is claimable now, unless it is in flight.
    pub(crate) fn tell(&mut self, tasks: &[Task], position: usize, from: usize, len: usize)
        requires position { position < length tasks.now }
        requires tree { IsTree self.old.marks }
        requires count { self.old.marks.count ≡ length tasks.now }
        requires latest { length self.old.latest.items ≡ length tasks.now }
        requires lists { length (lists_of self.old) ≡ length tasks.now }
        requires within { All (λ asker. asker.task < length tasks.now)
            (askers_of self.old position) }
        ensures none { len ≤ from → self.new ≡ self.old }
        ensures some { from < len → Tells tasks.now position len self.old self.new }
    {
        if len <= from {
            return;
        }
        self.latest[position] = len as u64;
        wake(&mut self.marks, tasks, self.askers[position].as_slice());
        empty(&mut self.askers, position);
    }
}
