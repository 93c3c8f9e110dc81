// Strongly connected components by Kosaraju's algorithm, with paths between each vertex and its component's root.
// Nothing is promised of them: `cycles.rt` tests them.
use crate::cycles::target;
use std::alloc::{AllocError, Global};

// An edge: the vertex that it leads from, and its number in that vertex's row.
#[derive(Clone, Copy)]
pub(crate) struct Edge {
    pub(crate) from: usize,
    pub(crate) number: usize,
}

// What is known of a vertex.
#[derive(Clone, Copy)]
pub(crate) struct Part {
    // the component's number, which does not fall along an edge
    pub(crate) component: usize,
    // a vertex of the component
    pub(crate) root: usize,
    // the number of an edge to a vertex nearer to the root, and the distance to the root
    pub(crate) out: usize,
    pub(crate) to_root: usize,
    // an edge from a vertex to which the root is nearer, and the distance from the root
    pub(crate) into: Edge,
    pub(crate) from_root: usize,
}

const FAR: usize = usize::MAX;

// For each vertex the edges that lead to it.
fn edges_into(alloc: Global, graph: &[Vec<usize>]) -> Result<Vec<Vec<Edge>>, AllocError> {
    let mut into = Vec::new(alloc);
    for _ in graph {
        into.push(Vec::new(alloc))?;
    }
    for (from, row) in graph.iter().enumerate() {
        add_edges(&mut into, from, row)?;
    }
    Ok(into)
}

fn add_edges(into: &mut Vec<Vec<Edge>>, from: usize, row: &[usize]) -> Result<(), AllocError> {
    for (number, to) in row.iter().enumerate() {
        if let Some(edges) = into.get_mut(*to) {
            edges.push(Edge { from, number })?;
        }
    }
    Ok(())
}

fn visit(vertex: usize, visited: &mut Vec<bool>, open: &mut Vec<Edge>) -> Result<(), AllocError> {
    if let Some(seen) = visited.get_mut(vertex) {
        if !*seen {
            *seen = true;
            open.push(Edge {
                from: vertex,
                number: 0,
            })?;
        }
    }
    Ok(())
}

// Walks from a vertex to those that were not visited. A vertex is finished when all that its edges lead to are visited.
fn finish(
    graph: &[Vec<usize>],
    root: usize,
    visited: &mut Vec<bool>,
    open: &mut Vec<Edge>,
    finished: &mut Vec<usize>,
) -> Result<(), AllocError> {
    visit(root, visited, open)?;
    for _ in 0..u64::MAX {
        let Some(edge) = open.pop() else {
            break;
        };
        match target(graph, edge) {
            None => finished.push(edge.from)?,
            Some(to) => {
                let number = edge.number.saturating_add(1);
                open.push(Edge { number, ..edge })?;
                visit(to, visited, open)?;
            }
        }
    }
    Ok(())
}

// All vertices in the order in which they are finished.
fn finish_order(alloc: Global, graph: &[Vec<usize>]) -> Result<Vec<usize>, AllocError> {
    let mut visited = vec![in alloc; false; graph.len()]?;
    let mut open = Vec::new(alloc);
    let mut finished = Vec::new(alloc);
    for root in 0..graph.len() {
        finish(graph, root, &mut visited, &mut open, &mut finished)?;
    }
    Ok(finished)
}

// Puts a vertex into a component, if it is in none.
fn assign(
    parts: &mut Vec<Part>,
    open: &mut Vec<usize>,
    vertex: usize,
    found: Part,
) -> Result<(), AllocError> {
    if let Some(part) = parts.get_mut(vertex) {
        if part.to_root == FAR {
            *part = found;
            open.push(vertex)?;
        }
    }
    Ok(())
}

// Puts the vertices from which edges lead to a vertex of a component into it.
fn assign_sources(
    parts: &mut Vec<Part>,
    open: &mut Vec<usize>,
    near: Part,
    edges: &[Edge],
) -> Result<(), AllocError> {
    for edge in edges {
        let found = Part {
            out: edge.number,
            to_root: near.to_root.saturating_add(1),
            ..near
        };
        assign(parts, open, edge.from, found)?;
    }
    Ok(())
}

// The component of a root, unless the root is in one: all from which edges lead to it, and that are in no component
// before.
fn assign_component(
    into: &[Vec<Edge>],
    parts: &mut Vec<Part>,
    open: &mut Vec<usize>,
    component: usize,
    root: usize,
) -> Result<(), AllocError> {
    let edge = Edge {
        from: root,
        number: 0,
    };
    let found = Part {
        component,
        root,
        out: 0,
        to_root: 0,
        into: edge,
        from_root: FAR,
    };
    assign(parts, open, root, found)?;
    for _ in 0..u64::MAX {
        let Some(vertex) = open.pop() else {
            break;
        };
        if let (Some(near), Some(edges)) = (parts.get(vertex).copied(), into.get(vertex)) {
            assign_sources(parts, open, near, edges)?;
        }
    }
    Ok(())
}

// Notes an edge by which a vertex is reached from its component's root, unless it is reached already.
fn reach_by(
    parts: &mut Vec<Part>,
    open: &mut Vec<usize>,
    to: usize,
    near: Part,
    edge: Edge,
) -> Result<(), AllocError> {
    if let Some(part) = parts.get_mut(to) {
        if part.from_root == FAR && part.component == near.component {
            part.into = edge;
            part.from_root = near.from_root.saturating_add(1);
            open.push(to)?;
        }
    }
    Ok(())
}

fn reach_row(
    parts: &mut Vec<Part>,
    open: &mut Vec<usize>,
    from: usize,
    near: Part,
    row: &[usize],
) -> Result<(), AllocError> {
    for (number, to) in row.iter().enumerate() {
        reach_by(parts, open, *to, near, Edge { from, number })?;
    }
    Ok(())
}

// Reaches the vertices of a component from its root.
fn reach_component(
    graph: &[Vec<usize>],
    parts: &mut Vec<Part>,
    open: &mut Vec<usize>,
    root: usize,
) -> Result<(), AllocError> {
    if let Some(part) = parts.get_mut(root) {
        if part.root == root {
            part.from_root = 0;
            open.push(root)?;
        }
    }
    for _ in 0..u64::MAX {
        let Some(vertex) = open.pop() else {
            break;
        };
        if let (Some(near), Some(row)) = (parts.get(vertex).copied(), graph.get(vertex)) {
            reach_row(parts, open, vertex, near, row)?;
        }
    }
    Ok(())
}

// The components of a graph.
pub(crate) fn components(alloc: Global, graph: &[Vec<usize>]) -> Result<Vec<Part>, AllocError> {
    let into = edges_into(alloc, graph)?;
    let mut finished = finish_order(alloc, graph)?;
    let none = Part {
        component: 0,
        root: 0,
        out: 0,
        to_root: FAR,
        into: Edge { from: 0, number: 0 },
        from_root: FAR,
    };
    let mut parts = vec![in alloc; none; graph.len()]?;
    let mut open = Vec::new(alloc);
    for component in 0..graph.len() {
        if let Some(root) = finished.pop() {
            assign_component(&into, &mut parts, &mut open, component, root)?;
        }
    }
    for root in 0..graph.len() {
        reach_component(graph, &mut parts, &mut open, root)?;
    }
    Ok(parts)
}
