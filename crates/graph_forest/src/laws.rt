//! Laws of forests: how they are planted, what a delta that adds one keeps, and how many nodes and
//! edges it adds.

ghost use Rattle.std.specs.Prelude.{ℕ, ◌≡◌, ◌↔◌, ◌+◌, ◌*◌, ◌<◌, ◌≤◌, length, Ok, Option, Some};
ghost use Rattle.cpg_schema.specs.declared.caps.Caps.{Caps};
ghost use Rattle.cpg_schema.specs.Graph.{PlainGraph, PlainNode};
ghost use Rattle.cpg_schema.specs.Deltas.{PlainDelta, applied};
ghost use Rattle.cpg_schema.specs.Fitting.{Fits, IsGraph, PartsFit};
ghost use Rattle.cpg_schema.specs.Sequence.{seq};
ghost use Rattle.cpg_schema.specs.Shape.{IsShaped};
ghost use Rattle.graph_forest.specs.declared.hang.Hang.{Hang as How};
ghost use Rattle.graph_forest.specs.declared.hang.Hang.TheVariants.{Argument};
ghost use Rattle.graph_forest.specs.declared.rank.Rank.{Rank as Place};
ghost use Rattle.graph_forest.specs.Ranks.{argument_index};
ghost use Rattle.graph_forest.specs.Forest.{Forest, none, beside, branch, planted};
ghost use Rattle.graph_forest.specs.Forest.{nodes_of, edges_of, IsPlanted};
ghost use Rattle.graph_forest.specs.Planting.{Planting, Enters, Leaves, Plants, fresh};

/// What is planted in several steps is planted in one: forests in a row are the forests beside one
/// another; a node that is entered, what is planted below it and a leave are a tree. What was
/// planted from the start on is the delta of the forest.
pub fn law_plants()
    ensures nothing { (planting : Planting) → Plants planting planting none }
    ensures beside { (start middle end : Planting) (first second : Forest) →
        Plants start middle first → Plants middle end second →
        Plants start end (beside first second) }
    ensures branch { (start below filled end : Planting) (hang : How) (node : PlainNode)
        (children : Forest) → Enters start below hang node → Plants below filled children →
        Leaves filled end → Plants start end (branch hang node children) }
    ensures whole { (end : Planting) (forest : Forest) → Plants fresh end forest →
        end.delta ≡ planted forest }
{}

/// A delta that adds an allowed forest fits every graph, and such deltas fit it as parts.
pub fn law_fits()
    ensures delta { (graph : PlainGraph) (delta : PlainDelta) → IsPlanted delta → Fits graph delta }
    ensures parts { (start : PlainGraph) (delta_of : ℕ → PlainDelta) (parts : ℕ) →
        ((part : ℕ) → part < parts → IsPlanted (delta_of part)) → PartsFit start delta_of parts }
{}

/// A shaped graph stays so when an allowed forest is added, and when each part of a pass adds one.
pub fn law_stays_shaped()
    ensures delta { (graph : PlainGraph) (delta : PlainDelta) → IsPlanted delta → IsGraph graph →
        IsShaped graph → IsShaped (applied graph delta) }
    ensures parts { (caps : Caps) (start : PlainGraph) (delta_of : ℕ → PlainDelta) (parts : ℕ) →
        ((part : ℕ) → part < parts → IsPlanted (delta_of part)) → IsGraph start →
        IsShaped start → (graph : PlainGraph) → seq caps start delta_of parts ≡ Ok graph →
        IsShaped graph }
{}

/// A node has an ARGUMENT_INDEX exactly where it hangs as the argument of that index.
pub fn law_argument_index()
    ensures { (rank : Place) (index : ℕ) →
        (argument_index rank ≡ Some index) ↔ (rank.hang ≡ Argument index) }
{}

/// Forests beside one another have the nodes of both, and a forest has at most two edges a node.
pub fn law_sizes()
    ensures beside { (first second : Forest) → length (nodes_of (beside first second))
        ≡ length (nodes_of first) + length (nodes_of second) }
    ensures edges { (parent : Option ℕ) (first : ℕ) (forest : Forest) →
        length (edges_of parent first forest) ≤ 2 * length (nodes_of forest) }
{}
