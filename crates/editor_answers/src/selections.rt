// What grows around an offset.
ghost use Rattle.std.specs.Prelude.{IfOk, IfSome};
ghost use Rattle.std.specs.List.{All, AllPairs};
ghost use Rattle.editor_answers.specs.Parts.{Encloses, Holds};

use crate::span::{Span, span_of};
use apollo_tree::SyntaxNode;
use std::alloc::{AllocError, Global};

// The part that a leaf is, and the node that the leaf is in.
#[derive(Clone, Copy)]
struct Innermost<'t> {
    span: Span,
    parent: SyntaxNode<'t>,
}

// The leaf that has the byte at an offset.
fn leaf_over<'t>(root: SyntaxNode<'t>, offset: usize) -> Option<Innermost<'t>>
    ensures { IfSome result (λ leaf. Holds offset leaf.span) }
{
    let leaf = root.token_at_offset(offset).right_biased()?;
    let parent = leaf.parent()?;
    let span = span_of(leaf.text_range());
    if span.holds(offset) {
        Some(Innermost { span, parent })
    } else {
        None
    }
}

/// The parts of the text that hold the byte at an offset, from a leaf out to the whole document, each once. It fails
/// only where memory is refused.
pub fn selection(
    alloc: Global,
    root: SyntaxNode<'_>,
    offset: usize,
) -> Result<Vec<Span>, AllocError>
    ensures holds { IfOk result (λ parts. All (Holds offset) parts.items) }
    ensures nests { IfOk result (λ parts. AllPairs (λ part outer. Encloses outer part) parts.items) }
{
    let mut parts: Vec<Span> = Vec::new(alloc);
    let Some(leaf) = leaf_over(root, offset) else {
        return Ok(parts);
    };
    let mut largest = leaf.span;
    parts.push(largest)?;
    for node in leaf.parent.ancestors() {
        let span = span_of(node.text_range());
        if span.is_larger_than(largest) {
            parts.push(span)?;
            largest = span;
        }
    }
    Ok(parts)
}
