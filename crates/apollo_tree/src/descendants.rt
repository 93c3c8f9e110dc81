ghost use Rattle.std.specs.Prelude.{◌≤◌, length};
ghost use Rattle.apollo_tree.specs.Forms.{readable};

use crate::children::SyntaxElement;
use crate::node::{SyntaxNode, Table};

/// A node and all elements below it, leaves too, in document order. It is one walk over the records of a table, which
/// are in that order.
#[derive(Clone, Copy)]
pub struct SyntaxElementDescendants<'t> {
    pub(crate) table: Table<'t>,
    pub(crate) next: usize,
    pub(crate) end: usize,
    ghost order: { next ≤ end },
    ghost inside: { end ≤ length (readable table.records) },
}

impl<'t> Iterator for SyntaxElementDescendants<'t> {
    type Item = SyntaxElement<'t>;

    ghost use Rattle.std.specs.Iterator.{YieldsFirstBy, item_count};
    ghost use Rattle.apollo_tree.specs.Yields.{element_place, rest_descendants};

    ghost next_gives = { YieldsFirstBy element_place rest_descendants };

    ghost remaining = { item_count rest_descendants };

    fn next(&mut self) -> Option<SyntaxElement<'t>> {
        if self.next == self.end {
            return None;
        }
        let table = self.table;
        let index = self.next;
        self.next += 1;
        Some(SyntaxElement::at(table, index, table.record(index).is_node))
    }
}

/// A node and all nodes below it, in document order.
#[derive(Clone, Copy)]
pub struct SyntaxNodeDescendants<'t> {
    pub(crate) elements: SyntaxElementDescendants<'t>,
}

impl<'t> Iterator for SyntaxNodeDescendants<'t> {
    type Item = SyntaxNode<'t>;

    ghost use Rattle.std.specs.Iterator.{YieldsFirstBy, item_count};
    ghost use Rattle.apollo_tree.specs.References.{node_place};
    ghost use Rattle.apollo_tree.specs.Yields.{rest_descendant_nodes};

    ghost next_gives = { YieldsFirstBy node_place rest_descendant_nodes };

    ghost remaining = { item_count rest_descendant_nodes };

    fn next(&mut self) -> Option<SyntaxNode<'t>> {
        while let Some(element) = self.elements.next() {
            if let SyntaxElement::Node(node) = element {
                return Some(node);
            }
        }
        None
    }
}
