// The messages about values, in the words of graphql-js 16.
ghost use Rattle.std.specs.Prelude.{◌≡◌, IfOk, option_map, string_bytes};
ghost use Rattle.apollo_tree.specs.References.{node_place};
ghost use Rattle.validation_names.specs.Sites.{as_located};
ghost use Rattle.type_system.specs.Schemas.{types};
ghost use Rattle.query_validation.specs.Contexts.{as_wanted};
ghost use Rattle.query_validation.specs.ValueMessages.{expected_type, is_not_expected, missing_field};
ghost use Rattle.query_validation.specs.ValueMessages.{no_enum_value, no_integer, no_such_field, no_such_value};
ghost use Rattle.query_validation.specs.ValueMessages.{not_expected, not_of_enum};
ghost use Rattle.query_validation.specs.ValueMessages.{not_of_scalar, not_taken, wanted_name, wrong_literal};
ghost use Rattle.query_validation.specs.ValueMessages.{wrong_value};

use crate::contexts::{Wanted, around_of, is_enum, is_input_object, type_name};
use crate::texts::{defined_name, text_of_reference, type_of_definition, type_text};
use apollo_tree::{SyntaxKind, SyntaxNode};
use std::alloc::{AllocError, Global};
use type_system::{Schema, nullable};
use validation_names::{Site, name_at, or_nothing, with_names};

// The name of the type that is wanted.
fn wanted_name<'t>(schema: &Schema<'t>, wanted: &Wanted<'_, '_>) -> &'t str
    ensures { result.now ≡ wanted_name (types schema.now) (as_wanted wanted.now) }
{
    or_nothing(type_name(schema, wanted.type_number))
}

fn not_expected(alloc: Global, of: &str, value: &str) -> Result<String, AllocError>
    ensures { IfOk result (λ text. string_bytes text ≡ not_expected of.now value.now) }
{
    with_names(
        alloc,
        "Expected value of type \"",
        of,
        "\", found ",
        value,
        ".",
    )
}

fn no_such_value(alloc: Global, value: &str, of: &str) -> Result<String, AllocError>
    ensures { IfOk result (λ text. string_bytes text ≡ no_such_value value.now of.now) }
{
    with_names(
        alloc,
        "Value \"",
        value,
        "\" does not exist in \"",
        of,
        "\" enum.",
    )
}

fn no_enum_value(alloc: Global, of: &str, value: &str) -> Result<String, AllocError>
    ensures { IfOk result (λ text. string_bytes text ≡ no_enum_value of.now value.now) }
{
    with_names(
        alloc,
        "Enum \"",
        of,
        "\" cannot represent non-enum value: ",
        value,
        ".",
    )
}

fn not_of_enum(alloc: Global, of: &str, node: &SyntaxNode<'_>) -> Result<String, AllocError>
    ensures { IfOk result (λ text. string_bytes text ≡ not_of_enum of.now (node_place node.now)) }
{
    if node.kind().is(SyntaxKind::ENUM_VALUE) {
        return no_such_value(alloc, node.text(), of);
    }
    no_enum_value(alloc, of, node.text())
}

fn no_integer(node: &SyntaxNode<'_>) -> &'static str
    ensures { result.now ≡ no_integer (node_place node.now) }
{
    if node.kind().is(SyntaxKind::INT_VALUE) {
        return "non 32-bit signed integer value";
    }
    "non-integer value"
}

// What a scalar does not take.
fn not_taken(of: &str, node: &SyntaxNode<'_>) -> &'static str
    ensures { result.now ≡ not_taken of.now (node_place node.now) }
{
    match of {
        "Int" => no_integer(node),
        "Float" => "non numeric value",
        "String" => "a non string value",
        "Boolean" => "a non boolean value",
        _ => "a non-string and non-integer value",
    }
}

fn not_of_scalar(alloc: Global, of: &str, node: &SyntaxNode<'_>) -> Result<String, AllocError>
    ensures { IfOk result (λ text. string_bytes text ≡ not_of_scalar of.now (node_place node.now)) }
{
    let not_taken = not_taken(of, node);
    let mut text = with_names(alloc, "", of, " cannot represent ", not_taken, ": ")?;
    text.push_str(node.text())?;
    Ok(text)
}

// The type that a message says; graphql-js says it without its `!` at a list.
fn expected_type(
    alloc: Global,
    wanted: &Wanted<'_, '_>,
    node: &SyntaxNode<'_>,
) -> Result<String, AllocError>
    ensures { IfOk result (λ text. string_bytes text ≡ expected_type (as_wanted wanted.now) (node_place node.now)) }
{
    if node.kind().is(SyntaxKind::LIST_VALUE) {
        return text_of_reference(alloc, nullable(&wanted.reference));
    }
    type_text(alloc, &wanted.reference)
}

fn is_not_expected(
    alloc: Global,
    schema: &Schema<'_>,
    wanted: &Wanted<'_, '_>,
    node: &SyntaxNode<'_>,
) -> Result<String, AllocError>
    ensures { IfOk result (λ text. string_bytes text
        ≡ is_not_expected (types schema.now) (as_wanted wanted.now) (node_place node.now)) }
{
    if node.kind().is(SyntaxKind::NULL_VALUE) || is_input_object(schema, wanted.type_number) {
        let of = expected_type(alloc, wanted, node)?;
        return not_expected(alloc, of.as_str(), node.text());
    }
    let of = wanted_name(schema, wanted);
    if is_enum(schema, wanted.type_number) {
        return not_of_enum(alloc, of, node);
    }
    not_of_scalar(alloc, of, node)
}

fn no_such_field(alloc: Global, name: &str, of: &str) -> Result<String, AllocError>
    ensures { IfOk result (λ text. string_bytes text ≡ no_such_field name.now of.now) }
{
    with_names(
        alloc,
        "Field \"",
        name,
        "\" is not defined by type \"",
        of,
        "\".",
    )
}

fn missing_field(alloc: Global, of: &str, name: &str, wanted: &str) -> Result<String, AllocError>
    ensures { IfOk result (λ text. string_bytes text ≡ missing_field of.now name.now wanted.now) }
{
    let mut text = with_names(alloc, "Field \"", of, ".", name, "\" of required type \"")?;
    text.push_str(wanted)?;
    text.push_str("\" was not provided.")?;
    Ok(text)
}

fn wrong_literal(
    alloc: Global,
    schema: &Schema<'_>,
    wanted: Option<Wanted<'_, '_>>,
    node: &SyntaxNode<'_>,
    definition: Option<Site<'_>>,
) -> Result<String, AllocError>
    ensures { IfOk result (λ text. string_bytes text
        ≡ wrong_literal (types schema.now) (option_map as_wanted wanted.entry) (node_place node.now)
        (option_map as_located definition.entry)) }
{
    let Some(wanted) = wanted else {
        return Ok(String::new(alloc));
    };
    if node.kind().is(SyntaxKind::OBJECT_VALUE) && is_input_object(schema, wanted.type_number) {
        let of = type_of_definition(alloc, definition)?;
        let name = defined_name(definition);
        return missing_field(alloc, wanted_name(schema, &wanted), name, of.as_str());
    }
    is_not_expected(alloc, schema, &wanted, node)
}

/// The message about a value, or about a field of an input object.
pub(crate) fn wrong_value(
    alloc: Global,
    schema: &Schema<'_>,
    node: &SyntaxNode<'_>,
    definition: Option<Site<'_>>,
) -> Result<String, AllocError>
    ensures { IfOk result (λ text. string_bytes text
        ≡ wrong_value (types schema.now) (node_place node.now) (option_map as_located definition.entry)) }
{
    if node.kind().is(SyntaxKind::OBJECT_FIELD) {
        return no_such_field(alloc, name_at(node), defined_name(definition));
    }
    let around = around_of(alloc, schema, node)?;
    wrong_literal(alloc, schema, around.wanted, node, definition)
}
