//! Laws of the edges of plans.

ghost use Rattle.std.specs.Prelude.{ℕ, ◌≡◌, ◌↔◌, List};
ghost use Rattle.cfg_rules.specs.Plan.{Construct};
ghost use Rattle.cfg_rules.specs.Walker.{Flows};
ghost use Rattle.cfg_flow.specs.Edges.{AreFlow};
ghost use Rattle.cfg_edges.specs.Edges.{IsWithin, edges_within};
ghost use Rattle.cfg_edges.specs.Renumbered.{FlowsOver, IsRenumbered};

/// The edges that are computed are those along which control flows.
pub fn law_edges_are_flow()
    ensures { (plan : List Construct) (count : ℕ) → IsWithin count plan →
        AreFlow plan (edges_within count plan) }
{}

/// A plan has no other edges.
pub fn law_one_flow()
    ensures { (plan : List Construct) (one other : List (ℕ × ℕ)) → AreFlow plan one →
        AreFlow plan other → one ≡ other }
{}

/// Where a plan is another by other numbers, control flows in it along the pairs of the other, led
/// over.
pub fn law_renumbered_flow()
    ensures { (count : ℕ) (number : ℕ → ℕ) (from to : List Construct) →
        IsRenumbered count number from to → (a b : ℕ) →
        Flows to a b ↔ FlowsOver number from a b }
{}
