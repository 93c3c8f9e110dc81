// The messages of violations, in the words of graphql-js 16.
ghost use Rattle.std.specs.Prelude.{◌≡◌, ◌++◌, IfOk, bytes_eq, codes, option_map, string_bytes};
ghost use Rattle.apollo_tree.specs.References.{node_place};
ghost use Rattle.validation_rules.specs.Violations.{as_breach};
ghost use Rattle.validation_names.specs.OwnNames.{own_name};
ghost use Rattle.document_validation.specs.Messages.{argument, holder, interface, is_schema, member, member_type};
ghost use Rattle.document_validation.specs.Messages.{message_of, name_of_other, never_used, not_defined};
ghost use Rattle.document_validation.specs.Messages.{not_executable, only_once, only_one, owner, with_arguments};
ghost use Rattle.document_validation.specs.Messages.{within_itself};

use apollo_tree::{SyntaxKind, SyntaxNode};
use std::alloc::{AllocError, Allocator};
use validation_names::{name_at, or_nothing, own_name, with_names};
use validation_rules::{Rule, Violation};

fn is_schema(node: &SyntaxNode<'_>) -> bool
    ensures { result ≡ is_schema (node_place node.now) }
{
    let kind = node.kind();
    kind.is(SyntaxKind::SCHEMA_DEFINITION) || kind.is(SyntaxKind::SCHEMA_EXTENSION)
}

fn not_executable<A: Allocator>(
    alloc: A,
    definition: &SyntaxNode<'_>,
) -> Result<String<A>, AllocError>
    ensures { IfOk result (λ text. string_bytes text ≡ not_executable (node_place definition.now)) }
{
    if is_schema(definition) {
        return format!(in alloc; "The schema definition is not executable.");
    }
    let name = name_at(definition);
    format!(in alloc; "The \"{name}\" definition is not executable.")
}

fn only_one<A: Allocator>(alloc: A, noun: &str, name: &str) -> Result<String<A>, AllocError>
    ensures { IfOk result (λ text. string_bytes text ≡ only_one noun.now name.now) }
{
    with_names(
        alloc,
        "There can be only one ",
        noun,
        " named \"",
        name,
        "\".",
    )
}

fn only_one_variable<A: Allocator>(alloc: A, name: &str) -> Result<String<A>, AllocError>
    ensures { IfOk result (λ text. string_bytes text ≡ only_one (codes "variable") (codes "$" ++ name.now)) }
{
    format!(in alloc; "There can be only one variable named \"${name}\".")
}

// A fragment on a cycle, and the one that it spreads.
fn within_itself<A: Allocator>(alloc: A, name: &str, other: &str) -> Result<String<A>, AllocError>
    ensures { IfOk result (λ text. string_bytes text ≡ within_itself name.now other.now) }
{
    if name == other {
        return format!(in alloc; "Cannot spread fragment \"{name}\" within itself.");
    }
    with_names(
        alloc,
        "Cannot spread fragment \"",
        name,
        "\" within itself via \"",
        other,
        "\".",
    )
}

fn not_defined<A: Allocator>(
    alloc: A,
    name: &str,
    operation: Option<&str>,
) -> Result<String<A>, AllocError>
    ensures { IfOk result (λ text. string_bytes text ≡ not_defined name.now (option_map (λ n. n.now) operation.entry)) }
{
    match operation {
        Some(operation) => with_names(
            alloc,
            "Variable \"$",
            name,
            "\" is not defined by operation \"",
            operation,
            "\".",
        ),
        None => format!(in alloc; "Variable \"${name}\" is not defined."),
    }
}

fn never_used<A: Allocator>(
    alloc: A,
    name: &str,
    operation: Option<&str>,
) -> Result<String<A>, AllocError>
    ensures { IfOk result (λ text. string_bytes text ≡ never_used name.now (option_map (λ n. n.now) operation.entry)) }
{
    match operation {
        Some(operation) => with_names(
            alloc,
            "Variable \"$",
            name,
            "\" is never used in operation \"",
            operation,
            "\".",
        ),
        None => format!(in alloc; "Variable \"${name}\" is never used."),
    }
}

fn unused_fragment<A: Allocator>(alloc: A, name: &str) -> Result<String<A>, AllocError>
    ensures { IfOk result (λ text. string_bytes text ≡ codes "Fragment \"" ++ name.now ++ codes "\" is never used.") }
{
    format!(in alloc; "Fragment \"{name}\" is never used.")
}

fn unknown_fragment<A: Allocator>(alloc: A, name: &str) -> Result<String<A>, AllocError>
    ensures { IfOk result (λ text. string_bytes text ≡ codes "Unknown fragment \"" ++ name.now ++ codes "\".") }
{
    format!(in alloc; "Unknown fragment \"{name}\".")
}

// The definition in whose list a node is.
fn owner<'t>(node: &SyntaxNode<'t>) -> Option<SyntaxNode<'t>>
    ensures { option_map node_place result ≡ owner (node_place node.now) }
{
    node.parent()?.parent()
}

// The name of another party.
fn name_of_other<'t>(other: Option<SyntaxNode<'t>>) -> Option<&'t str>
    ensures { option_map (λ n. n.now) result ≡ name_of_other (option_map node_place other.entry) }
{
    own_name(&other?)
}

// The name of that definition.
fn holder<'t>(node: &SyntaxNode<'t>) -> &'t str
    ensures { result.now ≡ holder (node_place node.now) }
{
    or_nothing(name_of_other(owner(node)))
}

// A field or an enum value, as `Type.field`.
fn member<A: Allocator>(alloc: A, node: &SyntaxNode<'_>) -> Result<String<A>, AllocError>
    ensures { IfOk result (λ text. string_bytes text ≡ member (node_place node.now)) }
{
    let mut text = String::from_str(alloc, holder(node))?;
    text.push_str(".")?;
    text.push_str(name_at(node))?;
    Ok(text)
}

// The directive or the field that has an argument, as `@directive` or `Type.field`.
fn with_arguments<A: Allocator>(
    alloc: A,
    node: Option<SyntaxNode<'_>>,
) -> Result<String<A>, AllocError>
    ensures { IfOk result (λ text. string_bytes text ≡ with_arguments (option_map node_place node.entry)) }
{
    let Some(node) = node else {
        return Ok(String::new(alloc));
    };
    if node.kind().is(SyntaxKind::DIRECTIVE_DEFINITION) {
        let name = name_at(&node);
        return format!(in alloc; "@{name}");
    }
    member(alloc, &node)
}

// An argument, as `@directive(argument:)` or `Type.field(argument:)`.
fn argument<A: Allocator + Copy>(alloc: A, node: &SyntaxNode<'_>) -> Result<String<A>, AllocError>
    ensures { IfOk result (λ text. string_bytes text ≡ argument (node_place node.now)) }
{
    let mut text = with_arguments(alloc, owner(node))?;
    text.push_str("(")?;
    text.push_str(name_at(node))?;
    text.push_str(":)")?;
    Ok(text)
}

fn only_once<A: Allocator>(alloc: A, noun: &str, thing: &str) -> Result<String<A>, AllocError>
    ensures { IfOk result (λ text. string_bytes text ≡ only_once noun.now thing.now) }
{
    let mut text = String::from_str(alloc, noun)?;
    text.push_str(" \"")?;
    text.push_str(thing)?;
    text.push_str("\" can only be defined once.")?;
    Ok(text)
}

// A part of a type that is defined twice.
fn member_once<A: Allocator + Copy>(
    alloc: A,
    noun: &str,
    node: &SyntaxNode<'_>,
) -> Result<String<A>, AllocError>
    ensures { IfOk result (λ text. string_bytes text ≡ only_once noun.now (member (node_place node.now))) }
{
    let thing = member(alloc, node)?;
    only_once(alloc, noun, thing.as_str())
}

fn argument_once<A: Allocator + Copy>(
    alloc: A,
    node: &SyntaxNode<'_>,
) -> Result<String<A>, AllocError>
    ensures { IfOk result (λ text. string_bytes text ≡ only_once (codes "Argument") (argument (node_place node.now))) }
{
    let thing = argument(alloc, node)?;
    only_once(alloc, "Argument", thing.as_str())
}

// A type that a union has twice.
fn member_type<A: Allocator>(
    alloc: A,
    definition: &str,
    name: &str,
) -> Result<String<A>, AllocError>
    ensures { IfOk result (λ text. string_bytes text ≡ member_type definition.now name.now) }
{
    with_names(
        alloc,
        "Union type ",
        definition,
        " can only include type ",
        name,
        " once.",
    )
}

// An interface that a type has twice.
fn interface<A: Allocator>(alloc: A, definition: &str, name: &str) -> Result<String<A>, AllocError>
    ensures { IfOk result (λ text. string_bytes text ≡ interface definition.now name.now) }
{
    with_names(
        alloc,
        "Type ",
        definition,
        " can only implement ",
        name,
        " once.",
    )
}

/// The message of a violation, in the words of graphql-js 16 with double quotes. For a fragment that is spread within
/// itself, graphql-js names each fragment on the way; here it is the first.
pub fn message<A: Allocator + Copy>(
    alloc: A,
    violation: &Violation<'_>,
) -> Result<String<A>, AllocError>
    ensures { IfOk result (λ text. string_bytes text ≡ message_of (as_breach violation.now)) }
{
    let node = &violation.site.node;
    let name = name_at(node);
    let other = name_of_other(violation.other.map(|site| site.node));
    match violation.rule {
        Rule::ExecutableDefinitions => not_executable(alloc, node),
        Rule::UniqueOperationNames => only_one(alloc, "operation", name),
        Rule::LoneAnonymousOperation => {
            format!(in alloc; "This anonymous operation must be the only defined operation.")
        }
        Rule::UniqueArgumentNames => only_one(alloc, "argument", name),
        Rule::UniqueFragmentNames => only_one(alloc, "fragment", name),
        Rule::NoUnusedFragments => unused_fragment(alloc, name),
        Rule::KnownFragmentNames => unknown_fragment(alloc, name),
        Rule::NoFragmentCycles => within_itself(alloc, name, or_nothing(other)),
        Rule::UniqueInputFieldNames => only_one(alloc, "input field", name),
        Rule::UniqueVariableNames => only_one_variable(alloc, name),
        Rule::NoUndefinedVariables => not_defined(alloc, name, other),
        Rule::NoUnusedVariables => never_used(alloc, name, other),
        Rule::UniqueFieldDefinitionNames => member_once(alloc, "Field", node),
        Rule::UniqueArgumentDefinitionNames => argument_once(alloc, node),
        Rule::UniqueEnumValueNames => member_once(alloc, "Enum value", node),
        Rule::UniqueUnionMemberTypes => member_type(alloc, holder(node), name),
        Rule::UniqueImplementedInterfaces => interface(alloc, holder(node), name),
    }
}
