//! The laws of matched paths, for all flow graphs.

ghost use Rattle.std.specs.Prelude.{ℕ, ◌↔◌, List};
ghost use Rattle.std.specs.List.{All, Contains};
ghost use Rattle.matched_paths.specs.declared.flow_graph.FlowGraph.{FlowGraph};
ghost use Rattle.matched_paths.specs.declared.flow_graph.Pair.{Pair};
ghost use Rattle.matched_paths.specs.Edges.{HasClose, HasOpen, IsGoal};
ghost use Rattle.matched_paths.specs.Matched.{Flows, IsTruePair, Matched};
ghost use Rattle.matched_paths.specs.Folded.{Folded, HoldsOutsOf, Leads};
ghost use Rattle.matched_paths.specs.Wanted.{IsWanted, IsWantedPair, NeedsWantedAlone};

/// Two matched paths one after the other are one.
pub fn law_concat()
    ensures { (flow : FlowGraph) (a b c : ℕ) →
        Matched flow a b → Matched flow b c → Matched flow a c }
{}

/// An open, a true pair and the close of the same call join matched ends.
pub fn law_bridge()
    ensures { (flow : FlowGraph) (call a b : ℕ) (pair : Pair) → HasOpen flow call a pair.goal →
        IsTruePair flow pair → HasClose flow call pair.out b → Matched flow a b }
{}

/// The matched paths are the paths of flat edges and bridges over true pairs.
pub fn law_fold()
    ensures { (flow : FlowGraph) (a b : ℕ) →
        Matched flow a b ↔ Leads flow (IsTruePair flow) a b }
{}

/// A list of true pairs that holds, for each goal, all outs to which flat edges and bridges over
/// its own pairs lead, is the list of all true pairs.
pub fn law_closed()
    ensures { (flow : FlowGraph) (pairs : List Pair) →
        All (IsTruePair flow) pairs → HoldsOutsOf flow (IsGoal flow) pairs →
        (pair : Pair) → Contains pairs pair ↔ IsTruePair flow pair }
{}

/// The same of the true pairs of wanted goals alone.
pub fn law_wanted()
    ensures { (flow : FlowGraph) (starts : List ℕ) (pairs : List Pair) →
        All (IsWantedPair flow starts) pairs → HoldsOutsOf flow (IsWanted flow starts) pairs →
        (pair : Pair) → Contains pairs pair ↔ IsWantedPair flow starts pair }
{}

/// A flow leads from a vertex to another exactly where a folded path over true pairs does.
pub fn law_flow()
    ensures { (flow : FlowGraph) (a b : ℕ) →
        Flows flow a b ↔ Folded flow (IsTruePair flow) a b }
{}

/// A folded path from a start has bridges over pairs of wanted goals alone.
pub fn law_needed()
    ensures { (flow : FlowGraph) (starts : List ℕ) (a b : ℕ) → Contains starts a →
        (path : Folded flow (IsTruePair flow) a b) → NeedsWantedAlone flow starts path }
{}
