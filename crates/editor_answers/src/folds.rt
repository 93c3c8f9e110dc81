// What an editor may fold.
use crate::span::{Span, span_of};
use apollo_cst_core::{is_one_of, token};
use apollo_tree::{SyntaxKind, SyntaxNode};

const FOLDABLE: [SyntaxKind; 12] = [
    SyntaxKind::SELECTION_SET,
    SyntaxKind::ARGUMENTS,
    SyntaxKind::VARIABLE_DEFINITIONS,
    SyntaxKind::LIST_VALUE,
    SyntaxKind::OBJECT_VALUE,
    SyntaxKind::DESCRIPTION,
    SyntaxKind::FIELDS_DEFINITION,
    SyntaxKind::ARGUMENTS_DEFINITION,
    SyntaxKind::ENUM_VALUES_DEFINITION,
    SyntaxKind::INPUT_FIELDS_DEFINITION,
    SyntaxKind::SCHEMA_DEFINITION,
    SyntaxKind::SCHEMA_EXTENSION,
];

/// The part of a node that may be folded, brackets included: it begins at the node's opening brace, which in a schema
/// comes after other words. `None` where the node may not be folded.
pub fn fold_of(node: SyntaxNode<'_>) -> Option<Span> {
    if !is_one_of(node.kind(), &FOLDABLE) {
        return None;
    }
    let mut span = span_of(node.text_range());
    if let Some(brace) = token(&node, SyntaxKind::L_CURLY) {
        span.start = brace.text_range().start();
    }
    Some(span)
}
