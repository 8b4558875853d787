//! Edges in order.

ghost use Rattle.std.specs.Prelude.{ℕ, ◌↔◌};
ghost use Rattle.std.specs.List.{Contains};
ghost use Rattle.cfg_flow.specs.Edges.{IsRising};

/// Puts edges in order, each once.
pub(crate) fn put_in_order(edges: &mut Vec<(u32, u32)>)
    ensures rising { IsRising edges.new.items }
    ensures same { (a b : ℕ) → Contains edges.new.items (a, b) ↔ Contains edges.old.items (a, b) }
{
    edges.sort_unstable();
    edges.dedup();
}
