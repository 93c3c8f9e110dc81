// The name that a node defines or mentions, and texts with names.
ghost use Rattle.std.specs.Prelude.{◌≡◌, ◌++◌, IfOk, option_map, string_bytes};
ghost use Rattle.document_grammar.specs.declared.kind.SyntaxKind.TheVariants.{ENUM_VALUE};
ghost use Rattle.apollo_tree.specs.References.{node_place};
ghost use Rattle.validation_names.specs.Mentions.{name_in};
ghost use Rattle.validation_names.specs.OwnNames.{is_about_fragment, name_at, or_nothing, own_name};

use crate::name_mentions::{name, name_of_fragment, name_of_variable};
use apollo_cst_core::{CstNode, child};
use apollo_cst_executable::EnumValue;
use apollo_tree::{SyntaxKind, SyntaxNode};
use std::alloc::{AllocError, Allocator};

fn enum_value_name<'t>(node: &SyntaxNode<'t>) -> Option<&'t str>
    ensures { option_map (λ n. n.now) result ≡ name_in ENUM_VALUE (node_place node.now) }
{
    let value: Option<EnumValue<'t>> = child(node);
    name(value?.syntax())
}

fn is_about_fragment(kind: SyntaxKind) -> bool
    ensures { result ≡ is_about_fragment kind }
{
    kind.is(SyntaxKind::FRAGMENT_DEFINITION) || kind.is(SyntaxKind::FRAGMENT_SPREAD)
}

/// The name that a node defines or mentions: of a fragment in its definition or a spread, of a variable without its
/// `$`, of an enum value, and else the name that the node has as a child.
pub fn own_name<'t>(node: &SyntaxNode<'t>) -> Option<&'t str>
    ensures { option_map (λ n. n.now) result ≡ own_name (node_place node.now) }
{
    let kind = node.kind();
    if is_about_fragment(kind) {
        return name_of_fragment(node);
    }
    if kind.is(SyntaxKind::VARIABLE_DEFINITION) {
        return name_of_variable(node);
    }
    if kind.is(SyntaxKind::ENUM_VALUE_DEFINITION) {
        return enum_value_name(node);
    }
    name(node)
}

/// A name, or nothing where there is none.
pub fn or_nothing<'t>(name: Option<&'t str>) -> &'t str
    ensures { result.now ≡ or_nothing (option_map (λ n. n.now) name.entry) }
{
    match name {
        Some(name) => name,
        None => "",
    }
}

/// The name that a node defines or mentions, or nothing where it has none.
pub fn name_at<'t>(node: &SyntaxNode<'t>) -> &'t str
    ensures { result.now ≡ name_at (node_place node.now) }
{
    or_nothing(own_name(node))
}

/// A text with two names: the words before them, between them and after them. It fails only where memory is refused.
pub fn with_names<A: Allocator>(
    alloc: A,
    before: &str,
    name: &str,
    between: &str,
    other: &str,
    after: &str,
) -> Result<String<A>, AllocError>
    ensures { IfOk result (λ text. string_bytes text ≡ before.now ++ name.now ++ between.now
        ++ other.now ++ after.now) }
{
    let mut text = String::new(alloc);
    text.push_str(before)?;
    text.push_str(name)?;
    text.push_str(between)?;
    text.push_str(other)?;
    text.push_str(after)?;
    Ok(text)
}
