// A tree whose text is at hand elsewhere.
ghost use Rattle.std.specs.Prelude.{◌≡◌, length, IfOk};
ghost use Rattle.document_grammar.specs.Forests.{text};
ghost use Rattle.apollo_tree.specs.Indexed.{element_at};
ghost use Rattle.apollo_tree.specs.Order.{order, text_at};
ghost use Rattle.apollo_tree.specs.References.{node_place, table_tree};

use crate::indexed::IndexedElement;
use crate::node::{SyntaxNode, Table};
use crate::subtree::Subtree;
use crate::table::RecordTable;
use std::alloc::{AllocError, Allocator, Global};
use std::marker::Model;

/// A tree that owns its elements and borrows its text. Its ranges count from 0.
///
/// Contracts see it as a list of one tree, whose root is a node.
#[derive(Drop)]
pub struct BorrowedSubtree<'t, A: Allocator = Global> {
    pub(crate) records: RecordTable<A>,
    pub(crate) text: &'t str,
}

impl<'t, A: Allocator> Model for BorrowedSubtree<'t, A> {
    ghost use Rattle.document_grammar.specs.Forests.{Forest};
    ghost use Rattle.apollo_tree.specs.Codes.{forest_code};

    ghost Value = { Forest };

    ghost coded = { forest_code };

    ghost use Rattle.apollo_tree.specs.Records.{forest};
    ghost use Rattle.apollo_tree.specs.Open.{IsTree};

    ghost view = { λ a. forest a.text.now a.records };

    ghost invariant = { λ a. IsTree (forest a.text.now a.records) a.records a.text.now };
}

impl<'t, A: Allocator> BorrowedSubtree<'t, A> {
    // What references into it read.
    fn table(&self) -> Table<'_>
        ensures { table_tree result ≡ self.now }
    {
        Table {
            records: self.records.as_records(),
            text: self.text,
        }
    }

    /// The root, which is the first element in document order. Its text is the whole tree's.
    pub fn root(&self) -> SyntaxNode<'_>
        ensures place { node_place result ≡ record { whole = self.now; index = 0 } }
        ensures text { text_at (node_place result) ≡ text self.now }
    {
        self.table().root()
    }

    /// How many elements there are, nodes and leaves.
    pub fn element_count(&self) -> usize
        ensures { result ≡ length (order self.now) }
    {
        self.table().element_count()
    }

    /// The element with an index, in constant time. The index counts the elements before it in document order: the root
    /// has 0. `None` where there are no more elements than that.
    pub fn element(&self, index: usize) -> Option<IndexedElement>
        ensures { result ≡ element_at self.now index }
    {
        self.table().element_at(index)
    }

    /// The same tree with a text of its own. It fails only where memory is refused.
    pub fn into_owned(self, alloc: A) -> Result<Subtree<A>, AllocError>
        ensures { IfOk result (λ t. t ≡ self.entry) }
    {
        let BorrowedSubtree { records, text } = self;
        let text = String::from_str(alloc, text)?;
        Ok(Subtree { records, text })
    }
}
