//! A wanted goal on a board.

ghost use Rattle.std.specs.Prelude.{◌≡◌, false, IfOk, None};
ghost use Rattle.std.specs.List.{All};
ghost use Rattle.summary_core.specs.Board.{goals_of, IsUntouched};

use joern_io::List;
use std::alloc::{AllocError, Global};

/// When a goal was last published: how many pairs its search saw, and the goals that it asked.
#[derive(Drop)]
pub(crate) struct Stamp {
    pub seen: u64,
    pub asked: List<u32>,
}

/// A wanted goal, its stamp where it has one, and whether it is in flight.
#[derive(Drop)]
pub(crate) struct Task {
    pub goal: u32,
    pub stamp: Option<Stamp>,
    pub flies: bool,
}

impl Task {
    /// A task that nobody has touched.
    pub(crate) fn new(goal: u32) -> Task
        ensures goal { result.goal ≡ goal }
        ensures stamp { result.stamp ≡ None }
        ensures flies { result.flies ≡ false }
    {
        Task {
            goal,
            stamp: None,
            flies: false,
        }
    }
}

/// A task for each of the goals, in their order. Nobody has touched one.
pub(crate) fn tasks_of(alloc: Global, goals: &[u32]) -> Result<Vec<Task>, AllocError>
    ensures goals { IfOk result (λ tasks. goals_of tasks.items ≡ goals.now) }
    ensures untouched { IfOk result (λ tasks. All IsUntouched tasks.items) }
{
    let mut tasks = Vec::new(alloc);
    for goal in goals {
        tasks.push(Task::new(*goal))?;
    }
    Ok(tasks)
}
