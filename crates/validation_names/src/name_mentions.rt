// The names that definitions mention.
ghost use Rattle.std.specs.Prelude.{◌≡◌, IfOk, map, option_map};
ghost use Rattle.document_grammar.specs.declared.kind.SyntaxKind.TheVariants.{FRAGMENT_NAME, VARIABLE};
ghost use Rattle.apollo_tree.specs.Order.{parent_place};
ghost use Rattle.apollo_tree.specs.References.{node_place};
ghost use Rattle.validation_names.specs.Mentions.{as_named, is_declared, mentioned, mentioned_name, mentions, name_in};
ghost use Rattle.validation_names.specs.Mentions.{name_of};
ghost use Rattle.validation_names.specs.Sites.{as_located};

use crate::sites::Site;
use apollo_cst_core::{CstNode, child};
use apollo_cst_executable::{FragmentName, Name, Variable};
use apollo_tree::{SyntaxKind, SyntaxNode};
use std::alloc::{AllocError, Allocator};

/// How a definition mentions a name.
#[derive(Clone, Copy)]
pub enum MentionKind {
    /// It spreads the fragment of the name: a FRAGMENT_SPREAD.
    Spread,
    /// It declares the variable: a VARIABLE_DEFINITION.
    Declared,
    /// It uses the variable: a VARIABLE that is in no VARIABLE_DEFINITION.
    Used,
}

/// A node that mentions a name.
#[derive(Clone, Copy)]
pub struct Mention<'t> {
    pub site: Site<'t>,
    /// The name, without the `$` of a variable.
    pub name: &'t str,
}

/// The name that a node has as a child.
pub fn name<'t>(node: &SyntaxNode<'t>) -> Option<&'t str>
    ensures { option_map (λ n. n.now) result ≡ name_of (node_place node.now) }
{
    let name: Option<Name<'t>> = child(node);
    Some(name?.text().as_str())
}

/// The fragment's name in a spread or in a definition.
pub fn name_of_fragment<'t>(node: &SyntaxNode<'t>) -> Option<&'t str>
    ensures { option_map (λ n. n.now) result ≡ name_in FRAGMENT_NAME (node_place node.now) }
{
    let fragment: Option<FragmentName<'t>> = child(node);
    name(fragment?.syntax())
}

/// The name of the variable that a definition declares.
pub(crate) fn name_of_variable<'t>(node: &SyntaxNode<'t>) -> Option<&'t str>
    ensures { option_map (λ n. n.now) result ≡ name_in VARIABLE (node_place node.now) }
{
    let variable: Option<Variable<'t>> = child(node);
    name(variable?.syntax())
}

// Whether a variable is the one that its definition declares.
fn is_declared(node: &SyntaxNode<'_>) -> bool
    ensures { result ≡ is_declared (parent_place (node_place node.now)) }
{
    match node.parent() {
        Some(parent) => parent.kind().is(SyntaxKind::VARIABLE_DEFINITION),
        None => false,
    }
}

// The name that a node mentions.
fn mentioned_name<'t>(node: &SyntaxNode<'t>, mention: MentionKind) -> Option<&'t str>
    ensures { option_map (λ n. n.now) result ≡ mentioned_name mention (node_place node.now) }
{
    let kind = node.kind();
    match mention {
        MentionKind::Spread => {
            if kind.is(SyntaxKind::FRAGMENT_SPREAD) {
                return name_of_fragment(node);
            }
        }
        MentionKind::Declared => {
            if kind.is(SyntaxKind::VARIABLE_DEFINITION) {
                return name_of_variable(node);
            }
        }
        MentionKind::Used => {
            if kind.is(SyntaxKind::VARIABLE) && !is_declared(node) {
                return name(node);
            }
        }
    }
    None
}

// The node with the name that it mentions.
fn mentioned<'t>(site: Site<'t>, mention: MentionKind) -> Option<Mention<'t>>
    ensures { option_map as_named result ≡ mentioned mention (as_located site.entry) }
{
    let name = mentioned_name(&site.node, mention)?;
    Some(Mention { site, name })
}

/// The names that a node and those below it mention, in the order of the text.
pub fn mentions<'t, A: Allocator + Copy>(
    alloc: A,
    root: &Site<'t>,
    mention: MentionKind,
) -> Result<Vec<Mention<'t>, A>, AllocError>
    ensures { IfOk result (λ found. map as_named found.items ≡ mentions mention (as_located root.now)) }
{
    let mut found = Vec::new(alloc);
    for node in root.node.descendants() {
        let site = Site {
            document: root.document,
            node,
        };
        if let Some(mention) = mentioned(site, mention) {
            found.push(mention)?;
        }
    }
    Ok(found)
}
