// What is in the outline of a document.
use crate::labels::{found_in, name_of, type_of};
use crate::span::{Span, span_of};
use apollo_cst_core::child_of;
use apollo_tree::{SyntaxElement, SyntaxKind, SyntaxNode, SyntaxToken};

/// What a part of a document is, with the protocol's number.
#[derive(Clone, Copy)]
pub enum SymbolKind {
    /// A schema.
    Namespace = 3,
    /// An object type.
    Class = 5,
    /// An argument, or a field of an input object.
    Property = 7,
    Field = 8,
    Enum = 10,
    Interface = 11,
    /// An operation or a fragment.
    Function = 12,
    Variable = 13,
    EnumMember = 22,
    /// A union or an input object.
    Struct = 23,
    /// A directive.
    Event = 24,
    /// A scalar.
    TypeParameter = 26,
}

/// A definition, or a field, a value, an argument or a variable in one.
#[derive(Clone, Copy)]
pub struct Symbol<'t> {
    pub kind: SymbolKind,
    pub name: &'t str,
    /// The type of a field, an argument or a variable, and the condition of a fragment; else empty.
    pub detail: &'t str,
    pub span: Span,
    /// Where its name is.
    pub name_span: Span,
}

const SYMBOL_KINDS: [(SyntaxKind, SymbolKind); 24] = [
    (SyntaxKind::OPERATION_DEFINITION, SymbolKind::Function),
    (SyntaxKind::FRAGMENT_DEFINITION, SymbolKind::Function),
    (SyntaxKind::FRAGMENT_SPREAD, SymbolKind::Function),
    (SyntaxKind::SCHEMA_DEFINITION, SymbolKind::Namespace),
    (SyntaxKind::SCHEMA_EXTENSION, SymbolKind::Namespace),
    (SyntaxKind::DIRECTIVE_DEFINITION, SymbolKind::Event),
    (
        SyntaxKind::SCALAR_TYPE_DEFINITION,
        SymbolKind::TypeParameter,
    ),
    (SyntaxKind::SCALAR_TYPE_EXTENSION, SymbolKind::TypeParameter),
    (SyntaxKind::OBJECT_TYPE_DEFINITION, SymbolKind::Class),
    (SyntaxKind::OBJECT_TYPE_EXTENSION, SymbolKind::Class),
    (SyntaxKind::INTERFACE_TYPE_DEFINITION, SymbolKind::Interface),
    (SyntaxKind::INTERFACE_TYPE_EXTENSION, SymbolKind::Interface),
    (SyntaxKind::UNION_TYPE_DEFINITION, SymbolKind::Struct),
    (SyntaxKind::UNION_TYPE_EXTENSION, SymbolKind::Struct),
    (SyntaxKind::ENUM_TYPE_DEFINITION, SymbolKind::Enum),
    (SyntaxKind::ENUM_TYPE_EXTENSION, SymbolKind::Enum),
    (SyntaxKind::INPUT_OBJECT_TYPE_DEFINITION, SymbolKind::Struct),
    (SyntaxKind::INPUT_OBJECT_TYPE_EXTENSION, SymbolKind::Struct),
    (SyntaxKind::FIELD, SymbolKind::Field),
    (SyntaxKind::FIELD_DEFINITION, SymbolKind::Field),
    (
        SyntaxKind::ROOT_OPERATION_TYPE_DEFINITION,
        SymbolKind::Field,
    ),
    (SyntaxKind::ENUM_VALUE_DEFINITION, SymbolKind::EnumMember),
    (SyntaxKind::VARIABLE_DEFINITION, SymbolKind::Variable),
    (SyntaxKind::INPUT_VALUE_DEFINITION, SymbolKind::Property),
];

// The first word of a node, unless a brace comes first.
fn first_word<'t>(node: SyntaxNode<'t>) -> Option<SyntaxToken<'t>> {
    for element in node.descendants_with_tokens() {
        if let SyntaxElement::Token(leaf) = element {
            let kind = leaf.kind();
            if kind.is(SyntaxKind::L_CURLY) {
                return None;
            }
            if kind.is(SyntaxKind::IDENT) || kind.keyword().is_some() {
                return Some(leaf);
            }
        }
    }
    None
}

// How a node is called, and where that is: by its name, or by its first word where the name is missing.
fn label_of<'t>(node: SyntaxNode<'t>) -> (&'t str, Span) {
    if let Some(name) = child_of(node, &[SyntaxKind::NAME]).or(name_of(node))
        && !name.text().is_empty()
    {
        return (name.text(), span_of(name.text_range()));
    }
    match first_word(node) {
        Some(leaf) => (leaf.text(), span_of(leaf.text_range())),
        None => ("query", span_of(node.text_range())),
    }
}

// The text of the type that a node gives; empty where it gives none.
fn detail_of<'t>(node: SyntaxNode<'t>) -> &'t str {
    match type_of(node) {
        Some(ty) => ty.text(),
        None => "",
    }
}

/// The symbol of a node. `None` where it has none.
pub fn symbol_of<'t>(node: SyntaxNode<'t>) -> Option<Symbol<'t>> {
    let kind = found_in(&SYMBOL_KINDS, node.kind())?;
    let (name, name_span) = label_of(node);
    Some(Symbol {
        kind,
        name,
        detail: detail_of(node),
        span: span_of(node.text_range()),
        name_span,
    })
}
