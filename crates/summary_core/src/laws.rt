//! The laws of a board.

ghost use Rattle.std.specs.Prelude.{ℕ, ◌≡◌, List};
ghost use Rattle.matched_paths.specs.declared.flow_graph.FlowGraph.{FlowGraph};
ghost use Rattle.summary_core.specs.Board.{BoardState, IsOpening};
ghost use Rattle.summary_core.specs.Events.{Event, Runs};
ghost use Rattle.summary_core.specs.Sound.{HoldsWanted, IsKeptBoard, IsQuiet, IsSound};

use crate::board::Board;

/// Over every list of events from the opening state the board is sound. Where no goal is dirty and
/// none flies, the history holds exactly the true pairs of wanted goals, each once.
pub fn law_runs()
    ensures opening { (flow : FlowGraph) (starts : List ℕ) (board : BoardState) →
        IsOpening flow starts board → IsSound board }
    ensures kept { (board : BoardState) (events : List Event) (after : BoardState) →
        IsSound board → Runs board events after → IsSound after }
    ensures sound { (flow : FlowGraph) (starts : List ℕ) (board : BoardState)
        (events : List Event) (after : BoardState) →
        IsOpening flow starts board → Runs board events after → IsSound after }
    ensures exact { (flow : FlowGraph) (starts : List ℕ) (board : BoardState)
        (events : List Event) (after : BoardState) →
        IsOpening flow starts board → Runs board events after → IsQuiet after →
        HoldsWanted flow starts after.history }
{}

/// The starts of a board are vertices, and it is sound. This does nothing when it runs.
pub fn law_kept(board: &Board)
    ensures { IsKeptBoard board.now }
{
    let _pairs = board.history.len();
}
