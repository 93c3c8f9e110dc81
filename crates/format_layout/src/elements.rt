// The tree of a document, as the walk reads it.
use apollo_tree::IndexedElement;

/// The elements of a document's tree by their index, which counts the elements before them in document order: the root
/// has 0.
pub trait Elements {
    /// How many there are.
    fn element_count(&self) -> usize;

    /// The element with an index; `None` where there is none.
    fn element(&self, index: usize) -> Option<IndexedElement>;
}
