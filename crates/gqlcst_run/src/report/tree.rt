// The output of mode tree.
ghost use Rattle.gqlcst_run.specs.Buffering.{PutsAny};

use crate::output_buffer::OutputBuffer;
use crate::report::errors::put_error;
use crate::report::kind_name::kind_name;
use apollo_parser::{BorrowedSyntaxTree, DocumentRoot, IndexedElement, LimitTracker};
use byte_streams::Sink;
use std::alloc::Allocator;

// Four spaces for each of thirty-two levels.
const SPACES: &str =
    "                                                                                                                                ";

// Puts four spaces for each level.
#[tactic(auto, using(crate::proofs::Buffers::any_none, crate::proofs::Buffers::any_then, crate::proofs::Buffers::any_any))]
fn put_indent<W: Sink>(buffer: &mut OutputBuffer, writer: &mut W, level: usize)
    ensures { PutsAny (buffer.old, W.account writer.old) (buffer.new, W.account writer.new) }
{
    let mut left = level;
    while left > 32 {
        buffer.put_str(writer, SPACES);
        left -= 32;
    }
    buffer.put_str(writer, SPACES.get(..4 * left).unwrap_or(""));
}

// Puts the text of a leaf in quotes, and nothing for a node.
#[tactic(auto, using(crate::proofs::Buffers::any_none))]
fn put_leaf<W: Sink>(
    buffer: &mut OutputBuffer,
    writer: &mut W,
    element: IndexedElement,
    source: &str,
)
    ensures { PutsAny (buffer.old, W.account writer.old) (buffer.new, W.account writer.new) }
{
    if element.is_node {
        return;
    }
    let text = source.get(element.start..element.end).unwrap_or("");
    buffer.put_quoted_after(writer, " ", text);
}

// Puts the line of an element: its kind, where it is, and the text of a leaf.
fn put_element<W: Sink>(
    buffer: &mut OutputBuffer,
    writer: &mut W,
    level: usize,
    element: IndexedElement,
    source: &str,
)
    ensures { PutsAny (buffer.old, W.account writer.old) (buffer.new, W.account writer.new) }
{
    put_indent(buffer, writer, level);
    buffer.put_str(writer, "- ");
    buffer.put_str(writer, kind_name(element.kind));
    buffer.put_str(writer, "@");
    buffer.put_range(writer, element.start, "..", element.end);
    put_leaf(buffer, writer, element, source);
    buffer.put_str(writer, "\n");
}

// The parent of an element.
fn parent_of<A: Allocator>(
    tree: &BorrowedSyntaxTree<'_, DocumentRoot, A>,
    index: usize,
) -> Option<usize> {
    tree.element(index)?.parent
}

// The innermost open node, and how many are open.
#[derive(Clone, Copy)]
struct Open {
    node: Option<usize>,
    level: usize,
}

impl Open {
    // Closes nodes until this one is the innermost.
    fn close_to<A: Allocator>(
        &mut self,
        tree: &BorrowedSyntaxTree<'_, DocumentRoot, A>,
        node: Option<usize>,
    ) {
        for _ in 0..self.level {
            let Some(inner) = self.node else {
                return;
            };
            if self.node == node {
                return;
            }
            self.node = parent_of(tree, inner);
            self.level = self.level.saturating_sub(1);
        }
    }

    // Opens a node.
    fn enter(&mut self, node: usize) {
        self.node = Some(node);
        self.level = self.level.saturating_add(1);
    }
}

// Puts a line for each element, in document order.
#[tactic(auto, using(crate::proofs::Buffers::any_none, crate::proofs::Buffers::any_any))]
fn put_elements<A: Allocator, W: Sink>(
    buffer: &mut OutputBuffer,
    writer: &mut W,
    tree: &BorrowedSyntaxTree<'_, DocumentRoot, A>,
    source: &str,
)
    ensures { PutsAny (buffer.old, W.account writer.old) (buffer.new, W.account writer.new) }
{
    let mut open = Open {
        node: None,
        level: 0,
    };
    for index in 0..tree.element_count() {
        let Some(element) = tree.element(index) else {
            return;
        };
        open.close_to(tree, element.parent);
        put_element(buffer, writer, open.level, element, source);
        if element.is_node {
            open.enter(index);
        }
    }
}

// Puts a line for each of the errors.
#[tactic(auto, using(crate::proofs::Buffers::any_none, crate::proofs::Buffers::any_then, crate::proofs::Buffers::any_any))]
fn put_error_lines<A: Allocator, W: Sink>(
    buffer: &mut OutputBuffer,
    writer: &mut W,
    tree: &BorrowedSyntaxTree<'_, DocumentRoot, A>,
)
    ensures { PutsAny (buffer.old, W.account writer.old) (buffer.new, W.account writer.new) }
{
    for error in tree.errors() {
        buffer.put_str(writer, "- ");
        put_error(buffer, writer, error);
        buffer.put_str(writer, "\n");
    }
}

// Puts the printed form of the recursion limit.
fn put_limit<W: Sink>(buffer: &mut OutputBuffer, writer: &mut W, limit: LimitTracker)
    ensures { PutsAny (buffer.old, W.account writer.old) (buffer.new, W.account writer.new) }
{
    buffer.put_str(writer, "recursion limit: ");
    buffer.put_number(writer, limit.limit);
    buffer.put_str(writer, ", high: ");
    buffer.put_number(writer, limit.high);
    buffer.put_str(writer, "\n");
}

/// Puts the printed form of the tree of a text, with its errors and its recursion limit.
#[tactic(auto, using(crate::proofs::Buffers::any_any))]
pub fn put_tree<A: Allocator, W: Sink>(
    buffer: &mut OutputBuffer,
    writer: &mut W,
    tree: &BorrowedSyntaxTree<'_, DocumentRoot, A>,
    source: &str,
)
    ensures { PutsAny (buffer.old, W.account writer.old) (buffer.new, W.account writer.new) }
{
    put_elements(buffer, writer, tree, source);
    put_error_lines(buffer, writer, tree);
    put_limit(buffer, writer, tree.recursion_limit());
}
