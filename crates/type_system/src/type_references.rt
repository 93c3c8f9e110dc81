// The types that definitions refer to.
ghost use Rattle.std.specs.Prelude.{◌≡◌, option_map};
ghost use Rattle.std.specs.List.{find};
ghost use Rattle.document_grammar.specs.declared.kind.SyntaxKind.TheVariants.{NAMED_TYPE};
ghost use Rattle.apollo_cst_core.specs.Kinds.{is_of};
ghost use Rattle.apollo_tree.specs.References.{node_place};
ghost use Rattle.validation_names.specs.Sites.{as_located, nodes};
ghost use Rattle.type_system.specs.Definitions.{has_default, is_non_null, is_required, item_type, named_in};
ghost use Rattle.type_system.specs.Definitions.{named_type, nullable, type_reference};

use crate::kinds::TYPE_REFERENCES;
use apollo_cst_core::child_of;
use apollo_tree::{SyntaxKind, SyntaxNode};
use validation_names::{Site, name};

/// The reference to a type in a definition of a field, an argument, an input field or a variable, or in the condition
/// of a fragment: a NAMED_TYPE, LIST_TYPE or NON_NULL_TYPE.
pub fn type_reference<'t>(node: &SyntaxNode<'t>) -> Option<SyntaxNode<'t>>
    ensures { option_map node_place result ≡ type_reference (node_place node.now) }
{
    child_of(*node, &TYPE_REFERENCES)
}

// The first named type at or below a node.
fn first_named_type<'t>(node: &SyntaxNode<'t>) -> Option<SyntaxNode<'t>>
    ensures { option_map node_place result ≡ find (is_of NAMED_TYPE) (nodes (node_place node.now)) }
{
    for part in node.descendants() {
        if part.kind().is(SyntaxKind::NAMED_TYPE) {
            return Some(part);
        }
    }
    None
}

/// The name of the type in a reference, whatever lists and `!` are round it: `Dog` for `[Dog!]!`.
pub fn named_in<'t>(reference: &SyntaxNode<'t>) -> Option<&'t str>
    ensures { option_map (λ n. n.now) result ≡ named_in (node_place reference.now) }
{
    let named = first_named_type(reference)?;
    name(&named)
}

/// The name of the type that a definition refers to: `Dog` for `dogs: [Dog!]!`.
pub fn named_type<'t>(node: &SyntaxNode<'t>) -> Option<&'t str>
    ensures { option_map (λ n. n.now) result ≡ named_type (node_place node.now) }
{
    let reference = type_reference(node)?;
    named_in(&reference)
}

/// A type without its `!`: `[Dog!]` for `[Dog!]!`.
pub fn nullable<'t>(reference: &SyntaxNode<'t>) -> Option<SyntaxNode<'t>>
    ensures { option_map node_place result ≡ nullable (node_place reference.now) }
{
    if reference.kind().is(SyntaxKind::NON_NULL_TYPE) {
        return type_reference(reference);
    }
    Some(*reference)
}

/// The type of the items of a list, whether the list has a `!` or not: `Dog!` for `[Dog!]!`. Other types have none.
pub fn item_type<'t>(reference: &SyntaxNode<'t>) -> Option<SyntaxNode<'t>>
    ensures { option_map node_place result ≡ item_type (node_place reference.now) }
{
    let list = nullable(reference)?;
    if list.kind().is(SyntaxKind::LIST_TYPE) {
        return type_reference(&list);
    }
    None
}

// Whether the type of a definition is non-null.
fn is_non_null(node: &SyntaxNode<'_>) -> bool
    ensures { result ≡ is_non_null (type_reference (node_place node.now)) }
{
    match type_reference(node) {
        Some(reference) => reference.kind().is(SyntaxKind::NON_NULL_TYPE),
        None => false,
    }
}

fn has_default(node: &SyntaxNode<'_>) -> bool
    ensures { result ≡ has_default (node_place node.now) }
{
    child_of(*node, &[SyntaxKind::DEFAULT_VALUE]).is_some()
}

// Whether an argument or an input field has to be given.
pub(crate) fn is_required(site: &Site<'_>) -> bool
    ensures { result ≡ is_required (as_located site.now) }
{
    name(&site.node).is_some() && is_non_null(&site.node) && !has_default(&site.node)
}
