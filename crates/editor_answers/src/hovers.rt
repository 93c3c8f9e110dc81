// What is said of a name.
use crate::labels::identifier_at;
use crate::names::{is_in, meaning_of, named_by};
use crate::span::{Span, span_of};
use crate::usage::definition;
use apollo_cst_core::{child, child_of, is_one_of};
use apollo_cst_executable::Description;
use apollo_tree::{SyntaxKind, SyntaxNode, SyntaxToken};
use std::alloc::{AllocError, Global};

/// What is said of a name.
#[derive(Clone, Copy)]
pub struct Hover<'t> {
    /// Where the name is.
    pub span: Span,
    /// Its definition.
    pub definition: SyntaxNode<'t>,
}

// What names itself where it is defined, beside types, directives and the values of enums.
const DESCRIBED: [SyntaxKind; 2] = [
    SyntaxKind::FIELD_DEFINITION,
    SyntaxKind::INPUT_VALUE_DEFINITION,
];

// The nodes that are a name and no more: their parents are what they name.
const NAMES: [SyntaxKind; 2] = [SyntaxKind::FRAGMENT_NAME, SyntaxKind::VARIABLE];

// The parts of a definition that are in braces.
const IN_BRACES: [SyntaxKind; 4] = [
    SyntaxKind::SELECTION_SET,
    SyntaxKind::FIELDS_DEFINITION,
    SyntaxKind::ENUM_VALUES_DEFINITION,
    SyntaxKind::INPUT_FIELDS_DEFINITION,
];

// The node that defines the fragment, variable, type or directive whose name is at an offset.
fn definition_of<'t>(root: SyntaxNode<'t>, offset: usize) -> Option<SyntaxNode<'t>> {
    let name = definition(root, offset)?;
    let named = named_by(identifier_at(root, name.start)?)?;
    if is_one_of(named.kind(), &NAMES) {
        named.parent()
    } else {
        Some(named)
    }
}

// The definition that describes the name at an offset: of its fragment, variable, type or directive, or the field,
// argument or value that it names.
fn described_by<'t>(
    root: SyntaxNode<'t>,
    leaf: SyntaxToken<'t>,
    offset: usize,
) -> Option<SyntaxNode<'t>> {
    if meaning_of(leaf).is_some() {
        return definition_of(root, offset);
    }
    let named = named_by(leaf)?;
    if is_in(named, SyntaxKind::ENUM_VALUE_DEFINITION) {
        return named.parent();
    }
    if is_one_of(named.kind(), &DESCRIBED) {
        return Some(named);
    }
    None
}

/// The text of a definition without its description and without what is in braces.
pub(crate) fn heading_of<'t>(source: &'t str, node: SyntaxNode<'_>) -> &'t str {
    let mut span = span_of(node.text_range());
    if let Some(description) = child_of(node, &[SyntaxKind::DESCRIPTION]) {
        span.start = description.text_range().end();
    }
    if let Some(braces) = child_of(node, &IN_BRACES) {
        span.end = braces.text_range().start();
    }
    span.text(source).unwrap_or("").trim()
}

/// The value of a definition's description, empty where it has none. It fails only where memory is refused.
pub fn description_of(alloc: Global, node: SyntaxNode<'_>) -> Result<String, AllocError> {
    if let Some(description) = child::<Description<'_>>(&node)
        && let Some(value) = description.string_value()
    {
        return value.to_string_in(alloc);
    }
    Ok(String::new(alloc))
}

/// What the document says of the name at an offset, or that ends there: of a fragment, a variable, a type or a
/// directive by its definition, and of a field, an argument or a value where that is defined. `None` where it says
/// nothing.
pub fn hover_at<'t>(root: SyntaxNode<'t>, offset: usize) -> Option<Hover<'t>> {
    if let Some(leaf) = identifier_at(root, offset)
        && let Some(definition) = described_by(root, leaf, offset)
    {
        return Some(Hover {
            span: span_of(leaf.text_range()),
            definition,
        });
    }
    None
}
