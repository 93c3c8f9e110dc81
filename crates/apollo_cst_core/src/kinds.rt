// Kinds and children by a list of kinds.
ghost use Rattle.std.specs.Prelude.{◌≡◌, option_map};
ghost use Rattle.std.specs.List.{find, list_any};
ghost use Rattle.document_grammar.specs.Numbers.{is_kind};
ghost use Rattle.apollo_tree.specs.Children.{child_nodes};
ghost use Rattle.apollo_tree.specs.References.{node_place};
ghost use Rattle.apollo_cst_core.specs.Kinds.{is_of_one};

use apollo_tree::{SyntaxKind, SyntaxNode};

/// Whether a kind is one of these.
pub fn is_one_of(kind: SyntaxKind, kinds: &[SyntaxKind]) -> bool
    ensures { result ≡ list_any (λ one. is_kind one kind) kinds.now }
{
    kinds.iter().any(|one| kind.is(*one))
}

/// The first child of one of these kinds.
pub fn child_of<'t>(parent: SyntaxNode<'t>, kinds: &[SyntaxKind]) -> Option<SyntaxNode<'t>>
    ensures { option_map node_place result ≡ find (is_of_one kinds.now) (child_nodes (node_place parent.entry)) }
{
    for child in parent.children() {
        if is_one_of(child.kind(), kinds) {
            return Some(child);
        }
    }
    None
}
