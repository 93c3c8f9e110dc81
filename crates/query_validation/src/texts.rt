// Names and types as messages have them.
ghost use Rattle.std.specs.Prelude.{◌≡◌, ◌++◌, IfOk, OnOk, option_and_then, option_map, string_bytes};
ghost use Rattle.apollo_tree.specs.References.{node_place};
ghost use Rattle.apollo_tree.specs.Yields.{element_place};
ghost use Rattle.validation_names.specs.OwnNames.{own_name};
ghost use Rattle.validation_names.specs.Sites.{Located, as_located};
ghost use Rattle.type_system.specs.Definitions.{type_reference};
ghost use Rattle.type_system.specs.Schemas.{types};
ghost use Rattle.query_validation.specs.Texts.{defined_name, name_of_parent, owner, parent_type, text_of_reference};
ghost use Rattle.query_validation.specs.Texts.{type_of_definition, type_text, type_token};

use crate::contexts::{around_of, type_definition};
use apollo_cst_core::is_one_of;
use apollo_tree::{SyntaxElement, SyntaxKind, SyntaxNode};
use std::alloc::{AllocError, Global};
use type_system::{Schema, type_reference};
use validation_names::{Site, or_nothing, own_name};

// The tokens of a reference to a type (section 2.11).
const TYPE_TOKENS: [SyntaxKind; 4] = [
    SyntaxKind::L_BRACK,
    SyntaxKind::R_BRACK,
    SyntaxKind::BANG,
    SyntaxKind::IDENT,
];

// The text of a token of a type.
fn type_token<'t>(element: &SyntaxElement<'t>) -> &'t str
    ensures { result.now ≡ type_token (element_place element.now) }
{
    if !is_one_of(element.kind(), &TYPE_TOKENS) {
        return "";
    }
    match element {
        SyntaxElement::Node(node) => node.text(),
        SyntaxElement::Token(token) => token.text(),
    }
}

// Writes a reference to a type, without spaces.
fn push_type(text: &mut String, reference: &SyntaxNode<'_>) -> Result<(), AllocError>
    ensures { OnOk result (string_bytes text.new ≡ string_bytes text.old ++ type_text (node_place reference.now)) }
{
    for element in reference.descendants_with_tokens() {
        text.push_str(type_token(&element))?;
    }
    Ok(())
}

pub(crate) fn type_text(alloc: Global, reference: &SyntaxNode<'_>) -> Result<String, AllocError>
    ensures { IfOk result (λ text. string_bytes text ≡ type_text (node_place reference.now)) }
{
    let mut text = String::new(alloc);
    push_type(&mut text, reference)?;
    Ok(text)
}

pub(crate) fn text_of_reference(
    alloc: Global,
    reference: Option<SyntaxNode<'_>>,
) -> Result<String, AllocError>
    ensures { IfOk result (λ text.
        string_bytes text ≡ text_of_reference (option_map node_place reference.entry)) }
{
    match reference {
        Some(reference) => type_text(alloc, &reference),
        None => Ok(String::new(alloc)),
    }
}

// The reference to a type in a definition.
fn reference_in<'t>(definition: Option<Site<'t>>) -> Option<SyntaxNode<'t>>
    ensures { option_map node_place result
        ≡ option_and_then (λ (s : Located). type_reference s.place) (option_map as_located definition.entry) }
{
    type_reference(&definition?.node)
}

pub(crate) fn type_of_definition(
    alloc: Global,
    definition: Option<Site<'_>>,
) -> Result<String, AllocError>
    ensures { IfOk result (λ text.
        string_bytes text ≡ type_of_definition (option_map as_located definition.entry)) }
{
    text_of_reference(alloc, reference_in(definition))
}

pub(crate) fn name_in<'t>(node: Option<SyntaxNode<'t>>) -> Option<&'t str>
    ensures { option_map (λ n. n.now) result ≡ option_and_then own_name (option_map node_place node.entry) }
{
    own_name(&node?)
}

fn name_of_definition<'t>(definition: Option<Site<'t>>) -> Option<&'t str>
    ensures { option_map (λ n. n.now) result
        ≡ option_and_then (λ (s : Located). own_name s.place) (option_map as_located definition.entry) }
{
    own_name(&definition?.node)
}

pub(crate) fn defined_name<'t>(definition: Option<Site<'t>>) -> &'t str
    ensures { result.now ≡ defined_name (option_map as_located definition.entry) }
{
    or_nothing(name_of_definition(definition))
}

pub(crate) fn name_of_parent<'t>(node: &SyntaxNode<'t>) -> &'t str
    ensures { result.now ≡ name_of_parent (node_place node.now) }
{
    or_nothing(name_in(node.parent()))
}

// The node that is two above another: for example the field with an argument.
pub(crate) fn owner<'t>(node: &SyntaxNode<'t>) -> Option<SyntaxNode<'t>>
    ensures { option_map node_place result ≡ owner (node_place node.now) }
{
    node.parent()?.parent()
}

// The name of the type from which a field is selected.
pub(crate) fn parent_type<'t>(
    alloc: Global,
    schema: &Schema<'t>,
    field: &SyntaxNode<'_>,
) -> Result<&'t str, AllocError>
    ensures { IfOk result (λ name. name.now ≡ parent_type (types schema.now) (node_place field.now)) }
{
    let around = around_of(alloc, schema, field)?;
    Ok(defined_name(type_definition(schema, around.parent)))
}
