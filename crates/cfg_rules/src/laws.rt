//! The laws of control flow, for all plans.

ghost use Rattle.std.specs.Prelude.{ℕ, ◌≡◌, ◌↔◌, List, [], Some};
ghost use Rattle.cfg_rules.specs.declared.summary.Summary.{Summary};
ghost use Rattle.cfg_rules.specs.declared.arrival.Arrival.{Arrival};
ghost use Rattle.cfg_rules.specs.declared.joined.Joined.{Joined};
ghost use Rattle.cfg_rules.specs.Plan.{Construct, Continues, IsPlan, part};
ghost use Rattle.cfg_rules.specs.Walker.{Flows};
ghost use Rattle.cfg_rules.specs.Joined.{Joins};
ghost use Rattle.cfg_rules.specs.Sets.{IsJoined, IsPart, IsSummary};

/// Control flows from a mark to another exactly where some construct joins them.
pub fn law_flow_is_joined()
    ensures { (plan : List Construct) → IsPlan plan → (a b : ℕ) →
        Flows plan a b ↔ ((x : ℕ) × Joins plan x a b) }
{}

/// Where a construct is joined and there were no first marks before, those that there are now, the
/// marks from which control leaves it, and whether it leaves from the entry, are its summary.
pub fn law_joined_is_summary()
    ensures { (plan : List Construct) (x : ℕ) (next : Arrival) (old new : Joined) →
        old.first.items ≡ [] → IsJoined plan x next old new →
        IsSummary plan x (record {
          first = new.first;
          last = next.marks;
          passable = next.entered;
        }) }
{}

/// The summary of a construct is that of the part that it is, where no `continue` ends that part.
pub fn law_summary_is_part()
    ensures { (plan : List Construct) (x k c : ℕ) (m : Summary) → part plan x k ≡ Some c →
        ((a : ℕ) → ¬ (Continues plan x a k)) → IsSummary plan c m → IsPart plan x k m }
{}
