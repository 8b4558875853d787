//! Laws of the plans of functions, and of what their edges add to a graph.

ghost use Rattle.std.specs.Prelude.{ℕ, ◌≡◌, ◌↔◌, List, Ok, length};
ghost use Rattle.cpg_schema.specs.declared.caps.Caps.{Caps};
ghost use Rattle.cpg_schema.specs.Fitting.{IsGraph, PartsFit};
ghost use Rattle.cpg_schema.specs.Graph.{PlainGraph};
ghost use Rattle.cpg_schema.specs.Sequence.{seq};
ghost use Rattle.cpg_schema.specs.Shape.{IsShaped};
ghost use Rattle.cfg_rules.specs.Member.{IsIn};
ghost use Rattle.cfg_rules.specs.Plan.{Construct, IsPlan};
ghost use Rattle.cfg_layer.specs.Walked.{HasBody};
ghost use Rattle.cfg_layer.specs.Plans.{AreFlowOf, IsPlanOf};
ghost use Rattle.cfg_layer.specs.Planned.{flow_of, plan_of};
ghost use Rattle.cfg_layer.specs.Adds.{methods_of, part_delta};

/// The plan of a function of a shaped graph is a plan: no node is a part twice, and what is jumped
/// to is a JUMP_TARGET.
pub fn law_plan_of_a_function()
    ensures { (graph : PlainGraph) (method : ℕ) (plan : List Construct) → IsShaped graph →
        IsPlanOf graph method plan → IsPlan plan }
{}

/// The plan that is computed is that of the function, and the edges are its flow.
pub fn law_flow_of_a_function()
    ensures plan { (graph : PlainGraph) (method : ℕ) → IsGraph graph → IsShaped graph →
        HasBody graph method → IsPlanOf graph method (plan_of graph method) }
    ensures flow { (graph : PlainGraph) (method : ℕ) → IsGraph graph → IsShaped graph →
        HasBody graph method → AreFlowOf graph method (flow_of graph method) }
{}

/// The functions of a graph are its METHODs with a body. What they add fits it, and leaves it
/// shaped.
pub fn law_flow_fits()
    ensures functions { (graph : PlainGraph) (method : ℕ) →
        IsIn (methods_of graph) method ↔ HasBody graph method }
    ensures fits { (graph : PlainGraph) → IsGraph graph → IsShaped graph →
        PartsFit graph (part_delta graph) (length (methods_of graph)) }
    ensures shapes { (caps : Caps) (start graph : PlainGraph) → IsShaped start →
        seq caps start (part_delta start) (length (methods_of start)) ≡ Ok graph →
        IsShaped graph }
{}
