//! Laws of the definitions that the contracts cite: calls that do nothing, each with a theorem as its contract.
ghost use Rattle.std.specs.Prelude.{◌<◌, List, ℕ, length};
ghost use Rattle.std.specs.Bool.{Decides};
ghost use Rattle.std.specs.List.{All};
ghost use Rattle.directed_graph.specs.Graph.{Graph, HasEdge, IsClosed, Reached};
ghost use Rattle.directed_graph.specs.Reach.{reaches};

/// The test decides what is reached.
pub fn reaches_decides()
    ensures { (graph : Graph) (starts : List ℕ) (vertex : ℕ) → IsClosed graph → All (λ v. v < length graph) starts
        → Decides (reaches graph starts vertex) (Reached (HasEdge graph) starts vertex) }
{}
