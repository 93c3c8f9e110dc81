// The definitions that an operation reaches.
ghost use Rattle.std.specs.Prelude.{◌≡◌, ◌<◌, [], ◌∷◌, IfOk, OnOk, length};
ghost use Rattle.std.specs.List.{filter, range_with_len};
ghost use Rattle.std.specs.List.Sorted.{IsNonDecreasing, IsPermutation};
ghost use Rattle.directed_graph.specs.Graph.{IsClosed, row_of};
ghost use Rattle.directed_graph.specs.Marks.{AreUnmarked};
ghost use Rattle.directed_graph.specs.Reach.{reaches};

use directed_graph::reach;
use std::alloc::{AllocError, Global};

// The vertex itself and all that edges lead to from it, as they are found. The marks are room for the search, as
// `reach` has them.
pub(crate) fn reached(
    alloc: Global,
    graph: &[Vec<usize>],
    start: usize,
    marks: &mut Vec<bool>,
) -> Result<Vec<usize>, AllocError>
    requires graph { IsClosed graph.now }
    requires start { start < length graph.now }
    requires as_many { length marks.old.items ≡ length graph.now }
    requires unmarked { AreUnmarked marks.old.items }
    ensures as_many { OnOk result (length marks.new.items ≡ length graph.now) }
    ensures unmarked { OnOk result (AreUnmarked marks.new.items) }
    ensures found { IfOk result
        (λ found. IsPermutation found.items
        (filter (reaches graph.now (start ∷ [])) (range_with_len 0 (length graph.now)))) }
{
    let found = reach(alloc, graph, start, marks)?;
    Ok(found)
}

// The numbers in order.
pub(crate) fn in_order(numbers: Vec<usize>) -> Vec<usize>
    ensures same { IsPermutation numbers.items result.items }
    ensures in_order { IsNonDecreasing result.items }
{
    let mut sorted = numbers;
    sorted.sort_unstable();
    sorted
}

// How many edges begin at a vertex.
pub(crate) fn edges(graph: &[Vec<usize>], vertex: usize) -> usize
    requires { vertex < length graph.now }
    ensures { result ≡ length (row_of graph.now vertex) }
{
    let row: &[usize] = &graph[vertex];
    row.len()
}
