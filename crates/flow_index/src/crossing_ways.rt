//! Crossings without their calls.

ghost use Rattle.std.specs.Prelude.{ℕ, ◌≡◌, ◌↔◌, map, IfOk};
ghost use Rattle.std.specs.List.{Contains};
ghost use Rattle.matched_paths.specs.Edges.{Crosses};

use matched_paths::Crossing;
use std::alloc::{AllocError, Global};

/// The ends of the crossings.
fn ends(alloc: Global, crossings: &[Crossing]) -> Result<Vec<(u32, u32)>, AllocError>
    ensures { IfOk result (λ ways.
        ways.items ≡ map (λ crossing. (crossing.from, crossing.to)) crossings.now) }
{
    crossings
        .iter()
        .map(|crossing| (crossing.from, crossing.to))
        .collect(alloc)
}

/// The ways along which crossings lead, whatever their calls.
pub fn ways_of(alloc: Global, crossings: &[Crossing]) -> Result<Vec<(u32, u32)>, AllocError>
    ensures { IfOk result (λ ways. (a b : ℕ) →
        Contains ways.items (a, b) ↔ Crosses crossings.now a b) }
{
    let ways = ends(alloc, crossings)?;
    Ok(ways)
}
