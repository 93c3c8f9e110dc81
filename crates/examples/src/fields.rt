// The fields that the types of a schema have.
use apollo_parser::TokenText;
use apollo_parser::cst::{CstNode, Definition, FieldDefinition, SyntaxNode};
use std::alloc::{AllocError, Global};

// The name of the definition or the extension that a node is part of.
fn type_name<'t>(node: SyntaxNode<'t>) -> Option<TokenText<'t>> {
    for outer in node.ancestors() {
        if let Some(definition) = Definition::cast(outer) {
            return Some(definition.name()?.text());
        }
    }
    None
}

// The name and the type of a field, where the node is one and the parser found both.
fn field<'t>(node: SyntaxNode<'t>) -> Option<(TokenText<'t>, &'t str)> {
    let field = FieldDefinition::cast(node)?;
    Some((field.name()?.text(), field.ty()?.syntax().text()))
}

/// A line `Type.field: Type` for each field, in the order of the text.
pub(crate) fn list(alloc: Global, root: SyntaxNode<'_>) -> Result<String, AllocError> {
    let mut list = String::new(alloc);
    for node in root.descendants() {
        if let Some((name, ty)) = field(node) {
            if let Some(owner) = type_name(node) {
                writeln!(list, "{owner}.{name}: {ty}")?;
            }
        }
    }
    Ok(list)
}
