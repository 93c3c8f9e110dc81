// Definitions and values, as the typed tree gives them.
use crate::answers::Answers;
use apollo_parser::SyntaxNode;
use apollo_parser::cst::{CstNode, Definition, Document, IntValue, StringValue};
use std::alloc::Global;

// The description of a definition that may have one.
fn description_of(definition: Definition<'_>) -> Option<StringValue<'_>> {
    let description = match definition {
        Definition::OperationDefinition(node) => node.description(),
        Definition::FragmentDefinition(node) => node.description(),
        Definition::DirectiveDefinition(node) => node.description(),
        Definition::SchemaDefinition(node) => node.description(),
        Definition::ScalarTypeDefinition(node) => node.description(),
        Definition::ObjectTypeDefinition(node) => node.description(),
        Definition::InterfaceTypeDefinition(node) => node.description(),
        Definition::UnionTypeDefinition(node) => node.description(),
        Definition::EnumTypeDefinition(node) => node.description(),
        Definition::InputObjectTypeDefinition(node) => node.description(),
        _ => None,
    };
    description?.string_value()
}

fn put_definition(alloc: Global, found: &mut Answers, definition: Definition<'_>) {
    found.push_text(definition.kind());
    if let Some(name) = definition.name() {
        found.push_text(" ");
        found.push_text(name.text().as_str());
    }
    if definition.is_executable_definition() {
        found.push_text(", executable");
    }
    if definition.is_extension_definition() {
        found.push_text(", an extension");
    }
    if let Some(description) = description_of(definition) {
        found.push_text(", described as ");
        found.made(description.to_string_in(alloc), "");
    }
    found.end_line();
}

/// A line for each definition, with its kind, its name and its description.
pub fn put_definitions(alloc: Global, found: &mut Answers, root: SyntaxNode<'_>) {
    if let Some(document) = Document::cast(root) {
        for definition in document.definitions() {
            put_definition(alloc, found, definition);
        }
    }
}

fn put_value(alloc: Global, found: &mut Answers, node: SyntaxNode<'_>) {
    if let Some(string) = StringValue::cast(node) {
        found.made(string.to_string_in(alloc), "\n");
        return;
    }
    if let Some(integer) = IntValue::cast(node) {
        match i32::try_from(&integer) {
            Ok(number) => found.write(&number, "\n"),
            Err(_) => found.push_text("out of range\n"),
        }
    }
}

/// A line for each string and each integer, with its value.
pub fn put_values(alloc: Global, found: &mut Answers, root: SyntaxNode<'_>) {
    for node in root.descendants() {
        put_value(alloc, found, node);
    }
}
