// What edges lead to.
ghost use Rattle.std.specs.Prelude.{◌≡◌, ◌<◌, ◌↔◌, ℕ, [], ◌∷◌, false, length, slice_index_or, IfOk, OnOk};
ghost use Rattle.std.specs.List.{All, Contains};
ghost use Rattle.directed_graph.specs.Graph.{HasEdge, IsClosed, Reached, row_of};
ghost use Rattle.directed_graph.specs.Marks.{AreDistinct, AreUnmarked, IsMarked, MarksAll, Unmarks};
ghost use Rattle.directed_graph.specs.Reach.{has_vertex, reaches};

use std::alloc::{AllocError, Global};

// The vertices that the edges of a vertex lead to.
pub(crate) fn row<'g>(graph: &'g [Vec<usize>], vertex: usize) -> &'g [usize]
    requires { vertex < length graph.now }
    ensures { result.now ≡ row_of graph.now vertex }
{
    &graph[vertex]
}

// Marks the vertices of a row, and adds those that had no mark to the vertices found.
fn mark_all(marks: &mut Vec<bool>, found: &mut Vec<usize>, row: &[usize]) -> Result<(), AllocError>
    requires { All (λ vertex. vertex < length marks.old.items) row.now }
    ensures { OnOk result (MarksAll row.now marks.old.items marks.new.items found.old.items found.new.items) }
{
    for vertex in row {
        if !marks[*vertex] {
            found.push(*vertex)?;
            marks[*vertex] = true;
        }
    }
    Ok(())
}

// Finds and marks the starts and all vertices that edges lead to from them.
fn search(
    alloc: Global,
    graph: &[Vec<usize>],
    starts: &[usize],
    marks: &mut Vec<bool>,
) -> Result<Vec<usize>, AllocError>
    requires graph { IsClosed graph.now }
    requires starts { All (λ vertex. vertex < length graph.now) starts.now }
    requires as_many { length marks.old.items ≡ length graph.now }
    requires unmarked { AreUnmarked marks.old.items }
    ensures as_many { OnOk result (length marks.new.items ≡ length graph.now) }
    ensures marked { OnOk result
        ((vertex : ℕ) → IsMarked marks.new.items vertex ↔ Reached (HasEdge graph.now) starts.now vertex) }
    ensures found { IfOk result
        (λ found. (vertex : ℕ) → Contains found.items vertex ↔ Reached (HasEdge graph.now) starts.now vertex) }
    ensures inside { IfOk result (λ found. All (λ vertex. vertex < length graph.now) found.items) }
    ensures distinct { IfOk result (λ found. AreDistinct found.items) }
{
    let mut found = Vec::new(alloc);
    mark_all(marks, &mut found, starts)?;
    let mut next = 0;
    while next < found.len() {
        let vertex = found[next];
        mark_all(marks, &mut found, row(graph, vertex))?;
        next += 1;
    }
    Ok(found)
}

/// Marks each vertex that is one of the starts, or that edges lead to from one of them.
pub fn reached(
    alloc: Global,
    graph: &[Vec<usize>],
    starts: &[usize],
) -> Result<Vec<bool>, AllocError>
    requires graph { IsClosed graph.now }
    requires starts { All (λ vertex. vertex < length graph.now) starts.now }
    ensures as_many { IfOk result (λ marks. length marks.items ≡ length graph.now) }
    ensures marked { IfOk result
        (λ marks. (vertex : ℕ) → slice_index_or marks.items vertex false ≡ reaches graph.now starts.now vertex) }
{
    let mut marks = vec![in alloc; false; graph.len()]?;
    search(alloc, graph, starts, &mut marks)?;
    Ok(marks)
}

// Takes the marks of some vertices away.
fn unmark(marks: &mut Vec<bool>, vertices: &[usize])
    requires { All (λ vertex. vertex < length marks.old.items) vertices.now }
    ensures { Unmarks vertices.now marks.old.items marks.new.items }
{
    for vertex in vertices {
        marks[*vertex] = false;
    }
}

/// The vertex itself and all that edges lead to from it, each once. The marks are room for the search, one for each
/// vertex: all unset before and after, so that a search takes time only for the vertices that it finds.
pub fn reach(
    alloc: Global,
    graph: &[Vec<usize>],
    start: usize,
    marks: &mut Vec<bool>,
) -> Result<Vec<usize>, AllocError>
    requires graph { IsClosed graph.now }
    requires start { start < length graph.now }
    requires as_many { length marks.old.items ≡ length graph.now }
    requires unmarked { AreUnmarked marks.old.items }
    ensures as_many { OnOk result (length marks.new.items ≡ length graph.now) }
    ensures unmarked { OnOk result (AreUnmarked marks.new.items) }
    ensures found { IfOk result
        (λ found. (vertex : ℕ) → has_vertex found.items vertex ≡ reaches graph.now (start ∷ []) vertex) }
    ensures inside { IfOk result (λ found. All (λ vertex. vertex < length graph.now) found.items) }
    ensures distinct { IfOk result (λ found. AreDistinct found.items) }
{
    let found = search(alloc, graph, &[start], marks)?;
    unmark(marks, &found);
    Ok(found)
}
