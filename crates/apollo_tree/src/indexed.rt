// An element as plain numbers, which refer to other elements by their index in document order.
ghost use Rattle.std.specs.Prelude.{◌≡◌, ◌<◌, length};
ghost use Rattle.apollo_tree.specs.Forms.{readable};
ghost use Rattle.apollo_tree.specs.Indexed.{element_at, indexed};
ghost use Rattle.apollo_tree.specs.References.{table_place, table_tree};

use crate::node::Table;
use document_grammar::SyntaxKind;

/// A node or a leaf of a tree as plain numbers. It borrows nothing, so it can be written into a table or handed to
/// another language.
///
/// An index counts the elements before an element in document order. Those below a node with the index `i` are `i +
/// 1..after_subtree`: the first of them is its first child, and the next child after a child is at that child's own
/// `after_subtree`.
#[derive(Clone, Copy, PartialEq, Eq, Debug)]
pub struct IndexedElement {
    /// The element's kind.
    pub kind: SyntaxKind,
    /// Whether it is a node; else it is a leaf.
    pub is_node: bool,
    /// The byte offset at which its text begins.
    pub start: usize,
    /// The byte offset of the first byte after its text.
    pub end: usize,
    /// The index of the node that it is a child of; `None` for the root.
    pub parent: Option<usize>,
    /// The index of the first element after it and all below it; the number of all elements when there is none.
    pub after_subtree: usize,
}

impl<'t> Table<'t> {
    // The element with an index, in constant time.
    pub(crate) fn element(self, index: usize) -> IndexedElement
        requires { index < length (readable self.records) }
        ensures { result ≡ indexed (table_place self.entry index) }
    {
        let record = self.record(index);
        let after_subtree = index + record.size;
        let parent = match record.to_parent {
            0 => None,
            up => Some(index - up),
        };
        let end = self.start_from(after_subtree);
        IndexedElement {
            kind: record.kind,
            is_node: record.is_node,
            start: record.start,
            end,
            parent,
            after_subtree,
        }
    }

    // The element with an index, if there are more elements than that.
    pub(crate) fn element_at(self, index: usize) -> Option<IndexedElement>
        ensures { result ≡ element_at (table_tree self.entry) index }
    {
        if index < self.element_count() {
            Some(self.element(index))
        } else {
            None
        }
    }
}
