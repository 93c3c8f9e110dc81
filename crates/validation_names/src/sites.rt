// Documents that are judged together.
use apollo_tree::SyntaxNode;

/// A node of one of several documents.
#[derive(Clone, Copy)]
pub struct Site<'t> {
    /// The number of the document, from 0 on, in the order in which the documents are given.
    pub document: usize,
    pub node: SyntaxNode<'t>,
}
