//! What a board does with its tasks.

ghost use Rattle.std.specs.Prelude.{◌≡◌, ◌<◌, length, slice_index_or};
ghost use Rattle.std.specs.Prelude.{IfOk, MatchOption, OnErr, OnOk};
ghost use Rattle.std.specs.List.{All};
ghost use Rattle.std.specs.List.Sorted.{IsStrictlyIncreasing};
ghost use Rattle.summary_core.specs.Board.{goals_of};
ghost use Rattle.summary_core.specs.Events.{AddsNew};
ghost use Rattle.summary_core.specs.Knowing.{Knows};

use crate::known::Known;
use crate::task::Task;
use matched_paths::Pair;
use std::alloc::{AllocError, Global};

/// Where the task of the goal stands.
pub(crate) fn position_of(tasks: &[Task], goal: u32) -> Option<usize>
    requires { IsStrictlyIncreasing (goals_of tasks.now) }
    ensures { MatchOption result (All (λ task. ¬ (task.goal ≡ goal)) tasks.now)
        (λ position. (position < length tasks.now)
        × ((d : Task) → (slice_index_or tasks.now position d).goal ≡ goal)) }
{
    match tasks.binary_search_by_key(&goal, |task| task.goal) {
        Ok(position) => Some(position),
        Err(_) => None,
    }
}

/// Adds the pairs of the goal and these outs that do not stand in the history.
pub(crate) fn add_pairs(
    history: &mut Vec<Pair>,
    known: &Known,
    goal: u32,
    outs: &[u32],
) -> Result<(), AllocError>
    requires rise { IsStrictlyIncreasing outs.now }
    requires knows { Knows known.now history.old.items }
    ensures ok { OnOk result (AddsNew history.old.items goal outs.now history.new.items) }
    ensures err { OnErr result (history.new.items ≡ history.old.items) }
{
    let len = history.len();
    for out in outs {
        let pair = Pair { goal, out: *out };
        if !known.has(pair) {
            if let Err(failed) = history.push(pair) {
                history.truncate(len);
                return Err(failed.into());
            }
        }
    }
    Ok(())
}
