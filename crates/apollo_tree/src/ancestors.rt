use crate::node::SyntaxNode;

/// A node, its parent, and so on up to the root.
#[derive(Clone, Copy)]
pub struct SyntaxNodeAncestors<'t> {
    pub(crate) next: Option<SyntaxNode<'t>>,
}

impl<'t> Iterator for SyntaxNodeAncestors<'t> {
    type Item = SyntaxNode<'t>;

    ghost use Rattle.std.specs.Iterator.{YieldsFirstBy, item_count};
    ghost use Rattle.apollo_tree.specs.References.{node_place};
    ghost use Rattle.apollo_tree.specs.Yields.{rest_ancestors};

    ghost next_gives = { YieldsFirstBy node_place rest_ancestors };

    ghost remaining = { item_count rest_ancestors };

    fn next(&mut self) -> Option<SyntaxNode<'t>> {
        let node = self.next?;
        self.next = node.parent();
        Some(node)
    }
}
