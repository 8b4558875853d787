//! What a flow graph is.

ghost use Rattle.std.specs.Prelude.{◌≡◌, ◌↔◌, IfSome, IsSome, IsTrue};
ghost use Rattle.std.specs.List.{All};
ghost use Rattle.matched_paths.specs.Ends.{AreWithin, HasEndsAmong, IsAmong};

use joern_io::List;

/// An edge that a call opens or closes: from an argument into the callee, or from the callee back.
#[derive(Clone, Copy, Debug, PartialEq, Eq, PartialOrd, Ord)]
pub struct Crossing {
    /// The number of the call.
    pub call: u32,
    pub from: u32,
    pub to: u32,
}

/// A graph of vertices `0..vertices`, in which data flows along edges of three labels.
#[derive(Drop)]
pub struct FlowGraph {
    pub vertices: u32,
    /// Edges within a method, each from its first vertex to its second.
    pub flat: List<(u32, u32)>,
    /// Edges into a callee.
    pub opens: List<Crossing>,
    /// Edges back from a callee.
    pub closes: List<Crossing>,
    pub ghost within: { AreWithin vertices flat opens closes },
}

/// A goal, at which opens arrive, and an out, from which closes leave: a summary of a callee.
#[derive(Clone, Copy, Debug, PartialEq, Eq, PartialOrd, Ord)]
pub struct Pair {
    pub goal: u32,
    pub out: u32,
}

/// Whether both ends of each edge are below the number of vertices.
fn edges_within(edges: &[(u32, u32)], vertices: u32) -> bool
    ensures { IsTrue result ↔ All (HasEndsAmong vertices) edges.now }
{
    edges
        .iter()
        .all(|(from, to)| *from < vertices && *to < vertices)
}

/// Whether both ends of each crossing are below the number of vertices.
fn crossings_within(crossings: &[Crossing], vertices: u32) -> bool
    ensures { IsTrue result ↔ All (IsAmong vertices) crossings.now }
{
    crossings.iter().all(|crossing| crossing.from < vertices && crossing.to < vertices)
}

impl FlowGraph {
    /// The graph of these edges, if all their ends are vertices.
    pub fn new(
        vertices: u32,
        flat: List<(u32, u32)>,
        opens: List<Crossing>,
        closes: List<Crossing>,
    ) -> Option<FlowGraph>
        ensures vertices { IfSome result (λ flow. flow.vertices ≡ vertices) }
        ensures flat { IfSome result (λ flow. flow.flat ≡ flat) }
        ensures opens { IfSome result (λ flow. flow.opens ≡ opens) }
        ensures closes { IfSome result (λ flow. flow.closes ≡ closes) }
        ensures some { IsSome result ↔ AreWithin vertices flat opens closes }
    {
        if !edges_within(flat.items(), vertices)
            || !crossings_within(opens.items(), vertices)
            || !crossings_within(closes.items(), vertices)
        {
            return None;
        }
        Some(FlowGraph {
            vertices,
            flat,
            opens,
            closes,
        })
    }
}
