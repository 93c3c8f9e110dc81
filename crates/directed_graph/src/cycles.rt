// Which vertices are on cycles.
ghost use Rattle.std.specs.Prelude.{◌≡◌, ◌<◌, ℕ, [], ◌∷◌, length, map, IfOk, OnOk, IfSome, IsTrue};
ghost use Rattle.std.specs.List.{range_with_len};
ghost use Rattle.directed_graph.specs.Graph.{HasEdge, IsClosed};
ghost use Rattle.directed_graph.specs.Marks.{AreUnmarked};
ghost use Rattle.directed_graph.specs.Parts.{AreSoundFor, ComesIn, Follows, GoesOut, IsSound};
ghost use Rattle.directed_graph.specs.Reach.{first_return, reaches};

use crate::components::{Edge, Part, components};
use crate::search::{reach, row};
use std::alloc::{AllocError, Global};

// The vertex that an edge leads to.
pub(crate) fn target(graph: &[Vec<usize>], edge: Edge) -> Option<usize>
    ensures { IfSome result (λ to. HasEdge graph.now edge.from to) }
{
    let row = graph.get(edge.from)?;
    Some(*row.get(edge.number)?)
}

// Whether a vertex is its root, or has an edge to a vertex nearer to it.
fn goes_out(graph: &[Vec<usize>], parts: &[Part], vertex: usize) -> bool
    requires { vertex < length parts.now }
    ensures { IsTrue result → GoesOut graph.now parts.now vertex }
{
    let part = parts[vertex];
    if part.root == vertex {
        return true;
    }
    let edge = Edge {
        from: vertex,
        number: part.out,
    };
    let Some(to) = target(graph, edge) else {
        return false;
    };
    match parts.get(to) {
        Some(near) => near.root == part.root && near.to_root < part.to_root,
        None => false,
    }
}

// Whether a vertex is its root, or has an edge from a vertex to which the root is nearer.
fn comes_in(graph: &[Vec<usize>], parts: &[Part], vertex: usize) -> bool
    requires { vertex < length parts.now }
    ensures { IsTrue result → ComesIn graph.now parts.now vertex }
{
    let part = parts[vertex];
    if part.root == vertex {
        return true;
    }
    let Some(to) = target(graph, part.into) else {
        return false;
    };
    match parts.get(part.into.from) {
        Some(near) => to == vertex && near.root == part.root && near.from_root < part.from_root,
        None => false,
    }
}

// Whether a vertex is in a later component than another, or in the same.
fn follows(parts: &[Part], part: Part, to: usize) -> bool
    ensures { IsTrue result → Follows parts.now part to }
{
    match parts.get(to) {
        Some(other) => {
            part.component < other.component
                || (other.component == part.component && other.root == part.root)
        }
        None => false,
    }
}

// Whether all that is known of a vertex is so.
fn is_sound(graph: &[Vec<usize>], parts: &[Part], vertex: usize) -> bool
    requires as_many { length parts.now ≡ length graph.now }
    requires vertex { vertex < length graph.now }
    ensures { IsTrue result → IsSound graph.now parts.now vertex }
{
    let part = parts[vertex];
    for to in row(graph, vertex) {
        if !follows(parts, part, *to) {
            return false;
        }
    }
    goes_out(graph, parts, vertex) && comes_in(graph, parts, vertex)
}

// Whether it is so of all vertices.
fn are_sound(graph: &[Vec<usize>], parts: &[Part]) -> bool
    ensures { IsTrue result → AreSoundFor graph.now parts.now }
{
    if parts.len() != graph.len() {
        return false;
    }
    for vertex in 0..graph.len() {
        if !is_sound(graph, parts, vertex) {
            return false;
        }
    }
    true
}

// Whether an edge leads back to the vertex that it leads from: by the components, if they are sound, and else by a
// search.
fn leads_back(
    alloc: Global,
    graph: &[Vec<usize>],
    parts: &[Part],
    are_sound: bool,
    marks: &mut Vec<bool>,
    vertex: usize,
    other: usize,
) -> Result<bool, AllocError>
    requires closed { IsClosed graph.now }
    requires sound { IsTrue are_sound → AreSoundFor graph.now parts.now }
    requires vertex { vertex < length graph.now }
    requires other { other < length graph.now }
    requires edge { HasEdge graph.now vertex other }
    requires as_many { length marks.old.items ≡ length graph.now }
    requires unmarked { AreUnmarked marks.old.items }
    ensures as_many { OnOk result (length marks.new.items ≡ length graph.now) }
    ensures unmarked { OnOk result (AreUnmarked marks.new.items) }
    ensures back { IfOk result (λ back. back ≡ reaches graph.now (other ∷ []) vertex) }
{
    if are_sound {
        return Ok(parts[vertex].component == parts[other].component);
    }
    let found = reach(alloc, graph, other, marks)?;
    Ok(found.contains(&vertex))
}

// The first edge of a vertex that leads back to it.
fn first_return(
    alloc: Global,
    graph: &[Vec<usize>],
    parts: &[Part],
    are_sound: bool,
    marks: &mut Vec<bool>,
    vertex: usize,
) -> Result<Option<usize>, AllocError>
    requires closed { IsClosed graph.now }
    requires sound { IsTrue are_sound → AreSoundFor graph.now parts.now }
    requires vertex { vertex < length graph.now }
    requires as_many { length marks.old.items ≡ length graph.now }
    requires unmarked { AreUnmarked marks.old.items }
    ensures as_many { OnOk result (length marks.new.items ≡ length graph.now) }
    ensures unmarked { OnOk result (AreUnmarked marks.new.items) }
    ensures first { IfOk result (λ found. found ≡ first_return graph.now vertex) }
{
    for other in row(graph, vertex) {
        if leads_back(alloc, graph, parts, are_sound, marks, vertex, *other)? {
            return Ok(Some(*other));
        }
    }
    Ok(None)
}

/// For each vertex the first one that its edges lead to and from which edges lead back to it: there is one exactly if
/// the vertex is on a cycle.
pub fn returns(alloc: Global, graph: &[Vec<usize>]) -> Result<Vec<Option<usize>>, AllocError>
    requires { IsClosed graph.now }
    ensures { IfOk result (λ found. found.items ≡ map (first_return graph.now) (range_with_len 0 (length graph.now))) }
{
    let parts = components(alloc, graph)?;
    let are_sound = are_sound(graph, &parts);
    let mut marks = vec![in alloc; false; graph.len()]?;
    let mut found = Vec::new(alloc);
    for vertex in 0..graph.len() {
        let other = first_return(alloc, graph, &parts, are_sound, &mut marks, vertex)?;
        found.push(other)?;
    }
    Ok(found)
}
