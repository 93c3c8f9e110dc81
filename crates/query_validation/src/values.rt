// Whether values are of the types that are wanted (section 5.6).
ghost use Rattle.std.specs.Prelude.{◌≡◌, ◌++◌, ◌&&◌, OnOk, map, option_and_then, option_map};
ghost use Rattle.document_grammar.specs.declared.kind.SyntaxKind.TheVariants.{INT_VALUE};
ghost use Rattle.apollo_cst_core.specs.Kinds.{is_of};
ghost use Rattle.apollo_tree.specs.Order.{text_at};
ghost use Rattle.apollo_tree.specs.References.{node_place};
ghost use Rattle.type_system.specs.Schemas.{types};
ghost use Rattle.validation_names.specs.Sites.{as_located};
ghost use Rattle.query_validation.specs.Breaches.{as_abouts, as_breach, breaches_about};
ghost use Rattle.query_validation.specs.Contexts.{as_context, as_wanted};
ghost use Rattle.query_validation.specs.Rules.{is_32_bits, is_given_fields, is_of_named, is_of_scalar, is_of_type};
ghost use Rattle.query_validation.specs.Rules.{is_value, unknown_input_fields, wrong_literal, wrong_value};
ghost use Rattle.query_validation.specs.Rules.{wrong_values};
ghost use Rattle.query_validation.specs.declared.rules.QueryRule.TheVariants.{ValuesOfCorrectType};

use crate::contexts::{Context, Wanted, is_enum, is_input_object, type_name};
use crate::rules::{QueryRule, add, add_missing, lacks_argument, site_of};
use crate::violations::QueryViolation;
use apollo_cst_core::{CstNode, is_one_of};
use apollo_cst_executable::IntValue;
use apollo_tree::{SyntaxKind, SyntaxNode};
use std::alloc::{AllocError, Global};
use type_system::{Schema, item_type};
use validation_names::{Site, name};

// Values but for variables (section 2.9, *Value*).
const LITERALS: [SyntaxKind; 8] = [
    SyntaxKind::INT_VALUE,
    SyntaxKind::FLOAT_VALUE,
    SyntaxKind::STRING_VALUE,
    SyntaxKind::BOOLEAN_VALUE,
    SyntaxKind::NULL_VALUE,
    SyntaxKind::ENUM_VALUE,
    SyntaxKind::LIST_VALUE,
    SyntaxKind::OBJECT_VALUE,
];

// The literals of the scalar `Float` (section 3.5.2).
const FLOAT_LITERALS: [SyntaxKind; 2] = [SyntaxKind::INT_VALUE, SyntaxKind::FLOAT_VALUE];

// The literals of the scalar `ID` (section 3.5.5).
const ID_LITERALS: [SyntaxKind; 2] = [SyntaxKind::INT_VALUE, SyntaxKind::STRING_VALUE];

// Whether a node is an integer of 32 bits.
fn is_32_bit_integer(node: &SyntaxNode<'_>) -> bool
    ensures { result ≡ (is_of INT_VALUE (node_place node.now) && is_32_bits (text_at (node_place node.now))) }
{
    match IntValue::cast(*node) {
        Some(value) => i32::try_from(value).is_ok(),
        None => false,
    }
}

// Whether a node is a literal of the scalar with a name.
fn is_of_scalar(name: Option<&str>, node: &SyntaxNode<'_>) -> bool
    ensures { result ≡ is_of_scalar (option_map (λ n. n.now) name.entry) (node_place node.now) }
{
    let kind = node.kind();
    match name {
        Some("Int") => is_32_bit_integer(node),
        Some("Float") => is_one_of(kind, &FLOAT_LITERALS),
        Some("String") => kind.is(SyntaxKind::STRING_VALUE),
        Some("Boolean") => kind.is(SyntaxKind::BOOLEAN_VALUE),
        Some("ID") => is_one_of(kind, &ID_LITERALS),
        _ => true,
    }
}

fn value_named<'t>(
    schema: &Schema<'t>,
    number: Option<usize>,
    name: Option<&str>,
) -> Option<Site<'t>>
    ensures { option_map as_located result
        ≡ option_and_then (λ n. option_and_then ((types schema.now).value_named n)
        (option_map (λ s. s.now) name.entry)) number }
{
    schema.value_named(number?, name?)
}

// Whether a node is a value of the enum with a number.
fn is_value(schema: &Schema<'_>, number: Option<usize>, node: &SyntaxNode<'_>) -> bool
    ensures { result ≡ is_value (types schema.now) number (node_place node.now) }
{
    node.kind().is(SyntaxKind::ENUM_VALUE) && value_named(schema, number, name(node)).is_some()
}

// Whether a node is a literal of the input type with a number.
fn is_of_named(schema: &Schema<'_>, number: Option<usize>, node: &SyntaxNode<'_>) -> bool
    ensures { result ≡ is_of_named (types schema.now) number (node_place node.now) }
{
    if is_enum(schema, number) {
        return is_value(schema, number, node);
    }
    if is_input_object(schema, number) {
        return node.kind().is(SyntaxKind::OBJECT_VALUE);
    }
    is_of_scalar(type_name(schema, number), node)
}

// Whether a node is a literal of the type that is wanted.
fn is_of_type(schema: &Schema<'_>, wanted: &Wanted<'_, '_>, node: &SyntaxNode<'_>) -> bool
    ensures { result ≡ is_of_type (types schema.now) (as_wanted wanted.now) (node_place node.now) }
{
    let kind = node.kind();
    if kind.is(SyntaxKind::NULL_VALUE) {
        return !wanted.reference.kind().is(SyntaxKind::NON_NULL_TYPE);
    }
    if kind.is(SyntaxKind::LIST_VALUE) && item_type(&wanted.reference).is_some() {
        return true;
    }
    is_of_named(schema, wanted.type_number, node)
}

fn wrong_literal<'t>(
    schema: &Schema<'t>,
    wanted: Option<Wanted<'_, 't>>,
    node: &SyntaxNode<'_>,
) -> Option<Option<Site<'t>>>
    ensures { as_abouts result
        ≡ wrong_literal (types schema.now) (option_map as_wanted wanted.entry) (node_place node.now) }
{
    let wanted = wanted?;
    if is_of_type(schema, &wanted, node) {
        return None;
    }
    Some(wanted.definition)
}

fn unknown_input_field<'t>(
    around: &Context<'_, 't>,
    node: &SyntaxNode<'_>,
) -> Option<Option<Site<'t>>>
    ensures { as_abouts result ≡ unknown_input_fields (as_context around.now) (node_place node.now) }
{
    if lacks_argument(around.definition, name(node)) {
        return Some(site_of(around.definition));
    }
    None
}

// What a value breaks, or a field of an input object.
fn wrong_value<'t>(
    schema: &Schema<'t>,
    around: &Context<'_, 't>,
    node: &SyntaxNode<'_>,
) -> Option<Option<Site<'t>>>
    ensures { as_abouts result ≡ wrong_value (types schema.now) (as_context around.now) (node_place node.now) }
{
    if node.kind().is(SyntaxKind::OBJECT_FIELD) {
        return unknown_input_field(around, node);
    }
    if is_one_of(node.kind(), &LITERALS) {
        return wrong_literal(schema, around.wanted, node);
    }
    None
}

// Whether a node is an input object that is given its fields.
fn is_given_fields(inside: &Context<'_, '_>, node: &SyntaxNode<'_>) -> bool
    ensures { result ≡ is_given_fields (as_context inside.now) (node_place node.now) }
{
    node.kind().is(SyntaxKind::OBJECT_VALUE) && inside.definition.is_some()
}

// Adds what a value breaks, or a field of an input object, and each field that an input object lacks.
pub(crate) fn add_wrong_values<'d, 't>(
    alloc: Global,
    schema: &Schema<'t>,
    around: &Context<'_, 't>,
    inside: &Context<'_, 't>,
    site: &Site<'d>,
    found: &mut Vec<QueryViolation<'d, 't>>,
) -> Result<(), AllocError>
    ensures { OnOk result (map as_breach found.new.items
        ≡ map as_breach found.old.items
        ++ breaches_about ValuesOfCorrectType (as_located site.now)
        (wrong_values (types schema.now) (as_context around.now) (as_context inside.now) (as_located site.now))) }
{
    let rule = QueryRule::ValuesOfCorrectType;
    if is_given_fields(inside, &site.node) {
        return add_missing(alloc, found, rule, inside, site);
    }
    let broken = wrong_value(schema, around, &site.node);
    add(found, rule, site, broken)
}
