// The messages of violations, in the words of graphql-js 16.
ghost use Rattle.std.specs.Prelude.{◌≡◌, IfOk, option_map, string_bytes};
ghost use Rattle.apollo_tree.specs.References.{node_place};
ghost use Rattle.validation_names.specs.Sites.{as_located};
ghost use Rattle.type_system.specs.Schemas.{types};
ghost use Rattle.query_validation.specs.Breaches.{as_breach};
ghost use Rattle.query_validation.specs.Messages.{argument_in, given_to, has_no_fields, lacking_in, lacks_selections};
ghost use Rattle.query_validation.specs.Messages.{message_of, misplaced, missing_argument, name_of_location};
ghost use Rattle.query_validation.specs.Messages.{name_of_owner, not_an_input, repeated_directive, wrong_directive};
ghost use Rattle.query_validation.specs.Messages.{unknown_argument, unknown_field, with_arguments, wrong_condition};
ghost use Rattle.query_validation.specs.Messages.{wrong_leaf, wrong_variable};
ghost use Rattle.query_validation.specs.Texts.{defined_name, type_of_definition};

use crate::rules::{QueryRule, location_at};
use crate::texts::{
    defined_name, name_in, name_of_parent, owner, parent_type, type_of_definition, type_text,
};
use crate::value_messages::wrong_value;
use crate::violations::QueryViolation;
use apollo_tree::{SyntaxKind, SyntaxNode};
use std::alloc::{AllocError, Global};
use type_system::{DirectiveLocation, Schema};
use validation_names::{Site, name_at, with_names};

fn unknown_field(alloc: Global, name: &str, of: &str) -> Result<String, AllocError>
    ensures { IfOk result (λ text. string_bytes text ≡ unknown_field name.now of.now) }
{
    with_names(
        alloc,
        "Cannot query field \"",
        name,
        "\" on type \"",
        of,
        "\".",
    )
}

fn lacks_selections(alloc: Global, name: &str, of: &str) -> Result<String, AllocError>
    ensures { IfOk result (λ text. string_bytes text ≡ lacks_selections name.now of.now) }
{
    let mut text = with_names(
        alloc,
        "Field \"",
        name,
        "\" of type \"",
        of,
        "\" must have a selection of subfields. Did you mean \"",
    )?;
    text.push_str(name)?;
    text.push_str(" { ... }\"?")?;
    Ok(text)
}

fn has_no_fields(alloc: Global, name: &str, of: &str) -> Result<String, AllocError>
    ensures { IfOk result (λ text. string_bytes text ≡ has_no_fields name.now of.now) }
{
    with_names(
        alloc,
        "Field \"",
        name,
        "\" must not have a selection since type \"",
        of,
        "\" has no subfields.",
    )
}

fn wrong_leaf(
    alloc: Global,
    node: &SyntaxNode<'_>,
    definition: Option<Site<'_>>,
) -> Result<String, AllocError>
    ensures { IfOk result (λ text. string_bytes text
        ≡ wrong_leaf (node_place node.now) (type_of_definition (option_map as_located definition.entry))) }
{
    let of = type_of_definition(alloc, definition)?;
    if node.kind().is(SyntaxKind::FIELD) {
        return lacks_selections(alloc, name_at(node), of.as_str());
    }
    has_no_fields(alloc, name_of_parent(node), of.as_str())
}

// What has an argument.
fn with_arguments(
    alloc: Global,
    schema: &Schema<'_>,
    node: &SyntaxNode<'_>,
) -> Result<String, AllocError>
    ensures { IfOk result (λ text. string_bytes text ≡ with_arguments (types schema.now) (node_place node.now)) }
{
    let name = name_at(node);
    if node.kind().is(SyntaxKind::DIRECTIVE) {
        return format!(in alloc; "directive \"@{name}\"");
    }
    let of = parent_type(alloc, schema, node)?;
    with_names(alloc, "field \"", of, ".", name, "\"")
}

fn given_to(
    alloc: Global,
    schema: &Schema<'_>,
    node: Option<SyntaxNode<'_>>,
) -> Result<String, AllocError>
    ensures { IfOk result (λ text.
        string_bytes text ≡ given_to (types schema.now) (option_map node_place node.entry)) }
{
    match node {
        Some(node) => with_arguments(alloc, schema, &node),
        None => Ok(String::new(alloc)),
    }
}

fn unknown_argument(
    alloc: Global,
    schema: &Schema<'_>,
    node: &SyntaxNode<'_>,
) -> Result<String, AllocError>
    ensures { IfOk result (λ text. string_bytes text ≡ unknown_argument (types schema.now) (node_place node.now)) }
{
    let name = name_at(node);
    let given_to = given_to(alloc, schema, owner(node))?;
    with_names(
        alloc,
        "Unknown argument \"",
        name,
        "\" on ",
        given_to.as_str(),
        ".",
    )
}

fn lacking_in(alloc: Global, node: &SyntaxNode<'_>) -> Result<String, AllocError>
    ensures { IfOk result (λ text. string_bytes text ≡ lacking_in (node_place node.now)) }
{
    let name = name_at(node);
    if node.kind().is(SyntaxKind::DIRECTIVE) {
        return format!(in alloc; "Directive \"@{name}\"");
    }
    format!(in alloc; "Field \"{name}\"")
}

fn argument_in(alloc: Global, node: &SyntaxNode<'_>, name: &str) -> Result<String, AllocError>
    ensures { IfOk result (λ text. string_bytes text ≡ argument_in (node_place node.now) name.now) }
{
    let mut text = lacking_in(alloc, node)?;
    text.push_str(" argument \"")?;
    text.push_str(name)?;
    text.push_str("\"")?;
    Ok(text)
}

fn missing_argument(
    alloc: Global,
    node: &SyntaxNode<'_>,
    definition: Option<Site<'_>>,
) -> Result<String, AllocError>
    ensures { IfOk result (λ text. string_bytes text
        ≡ missing_argument (node_place node.now) (defined_name (option_map as_located definition.entry))
        (type_of_definition (option_map as_located definition.entry))) }
{
    let of = type_of_definition(alloc, definition)?;
    let mut text = argument_in(alloc, node, defined_name(definition))?;
    text.push_str(" of type \"")?;
    text.push_str(of.as_str())?;
    text.push_str("\" is required, but it was not provided.")?;
    Ok(text)
}

fn wrong_condition(alloc: Global, fragment: Option<&str>, of: &str) -> Result<String, AllocError>
    ensures { IfOk result (λ text.
        string_bytes text ≡ wrong_condition (option_map (λ n. n.now) fragment.entry) of.now) }
{
    match fragment {
        Some(fragment) => with_names(
            alloc,
            "Fragment \"",
            fragment,
            "\" cannot condition on non composite type \"",
            of,
            "\".",
        ),
        None => format!(in alloc; "Fragment cannot condition on non composite type \"{of}\"."),
    }
}

fn not_an_input(alloc: Global, name: &str, of: &str) -> Result<String, AllocError>
    ensures { IfOk result (λ text. string_bytes text ≡ not_an_input name.now of.now) }
{
    with_names(
        alloc,
        "Variable \"$",
        name,
        "\" cannot be non-input type \"",
        of,
        "\".",
    )
}

fn wrong_variable(alloc: Global, reference: &SyntaxNode<'_>) -> Result<String, AllocError>
    ensures { IfOk result (λ text. string_bytes text ≡ wrong_variable (node_place reference.now)) }
{
    let of = type_text(alloc, reference)?;
    not_an_input(alloc, name_of_parent(reference), of.as_str())
}

fn name_of_location(location: Option<DirectiveLocation>) -> &'static str
    ensures { result.now ≡ name_of_location location }
{
    match location {
        Some(location) => location.name(),
        None => "",
    }
}

fn misplaced(alloc: Global, name: &str, location: &str) -> Result<String, AllocError>
    ensures { IfOk result (λ text. string_bytes text ≡ misplaced name.now location.now) }
{
    with_names(
        alloc,
        "Directive \"@",
        name,
        "\" may not be used on ",
        location,
        ".",
    )
}

fn wrong_directive(
    alloc: Global,
    node: &SyntaxNode<'_>,
    definition: Option<Site<'_>>,
) -> Result<String, AllocError>
    ensures { IfOk result (λ text. string_bytes text
        ≡ wrong_directive (node_place node.now) (option_map as_located definition.entry)) }
{
    let name = name_at(node);
    match definition {
        Some(_) => misplaced(alloc, name, name_of_location(location_at(node))),
        None => format!(in alloc; "Unknown directive \"@{name}\"."),
    }
}

fn repeated_directive(alloc: Global, node: &SyntaxNode<'_>) -> Result<String, AllocError>
    ensures { IfOk result (λ text. string_bytes text ≡ repeated_directive (node_place node.now)) }
{
    let name = name_at(node);
    format!(in alloc; "The directive \"@{name}\" can only be used once at this location.")
}

/// The message of a violation of a rule that needs a schema, in the words of graphql-js 16 with double quotes, but
/// without its suggestions of other names.
pub fn message(
    alloc: Global,
    schema: &Schema<'_>,
    violation: &QueryViolation<'_, '_>,
) -> Result<String, AllocError>
    ensures { IfOk result (λ text. string_bytes text ≡ message_of (types schema.now) (as_breach violation.now)) }
{
    let node = &violation.site.node;
    let name = name_at(node);
    let definition = violation.definition;
    match violation.rule {
        QueryRule::FieldsOnCorrectType => { unknown_field(alloc, name, defined_name(definition)) }
        QueryRule::ScalarLeafs => wrong_leaf(alloc, node, definition),
        QueryRule::KnownArgumentNames => unknown_argument(alloc, schema, node),
        QueryRule::ProvidedRequiredArguments => missing_argument(alloc, node, definition),
        QueryRule::ValuesOfCorrectType => wrong_value(alloc, schema, node, definition),
        QueryRule::KnownTypeNames => format!(in alloc; "Unknown type \"{name}\"."),
        QueryRule::FragmentsOnCompositeTypes => {
            wrong_condition(alloc, name_in(owner(node)), name)
        }
        QueryRule::KnownDirectives => wrong_directive(alloc, node, definition),
        QueryRule::UniqueDirectivesPerLocation => repeated_directive(alloc, node),
        QueryRule::VariablesAreInputTypes => wrong_variable(alloc, node),
    }
}
