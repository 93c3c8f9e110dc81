// What a node is called.
ghost use Rattle.std.specs.Prelude.{◌≡◌, ◌∷◌, [], option_map};
ghost use Rattle.std.specs.List.{find};
ghost use Rattle.document_grammar.specs.declared.kind.SyntaxKind.TheVariants.{IDENT};
ghost use Rattle.apollo_tree.specs.References.{node_place, token_place};
ghost use Rattle.apollo_cst_core.specs.Kinds.{is_of};
ghost use Rattle.editor_answers.specs.Names.{identifier_at};

use apollo_cst_core::child_of;
use apollo_tree::{SyntaxKind, SyntaxNode, SyntaxToken, TokenAtOffset};

/// What a table has for a kind.
pub(crate) fn found_in<T: Copy>(table: &[(SyntaxKind, T)], kind: SyntaxKind) -> Option<T> {
    for row in table {
        if kind.is(row.0) {
            return Some(row.1);
        }
    }
    None
}

/// The node that names a node.
pub(crate) fn name_of<'t>(node: SyntaxNode<'t>) -> Option<SyntaxNode<'t>> {
    child_of(
        node,
        &[
            SyntaxKind::NAME,
            SyntaxKind::FRAGMENT_NAME,
            SyntaxKind::VARIABLE,
            SyntaxKind::ENUM_VALUE,
            SyntaxKind::OPERATION_TYPE,
        ],
    )
}

/// The type that a node gives.
pub(crate) fn type_of<'t>(node: SyntaxNode<'t>) -> Option<SyntaxNode<'t>> {
    child_of(
        node,
        &[
            SyntaxKind::NAMED_TYPE,
            SyntaxKind::LIST_TYPE,
            SyntaxKind::NON_NULL_TYPE,
            SyntaxKind::TYPE_CONDITION,
        ],
    )
}

// A leaf where it is an identifier.
fn identifier<'t>(leaf: SyntaxToken<'t>) -> Option<SyntaxToken<'t>>
    ensures { option_map token_place result ≡ find (is_of IDENT) (token_place leaf.entry ∷ []) }
{
    if leaf.kind().is(SyntaxKind::IDENT) {
        Some(leaf)
    } else {
        None
    }
}

/// The identifier at a byte offset of a tree's text, or that ends there.
pub fn identifier_at<'t>(root: SyntaxNode<'t>, offset: usize) -> Option<SyntaxToken<'t>>
    ensures { option_map token_place result ≡ identifier_at (node_place root.entry) offset }
{
    match root.token_at_offset(offset) {
        TokenAtOffset::None => None,
        TokenAtOffset::Single(leaf) => identifier(leaf),
        TokenAtOffset::Between(left, right) => identifier(left).or(identifier(right)),
    }
}
