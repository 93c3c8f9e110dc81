// The definitions of documents, and what is in them.
ghost use Rattle.std.specs.Prelude.{◌≡◌, ◌++◌, IfOk, OnOk, map, option_map};
ghost use Rattle.apollo_tree.specs.Children.{child_nodes};
ghost use Rattle.apollo_tree.specs.References.{node_place};
ghost use Rattle.validation_names.specs.Sites.{all_definitions, as_located, located};
ghost use Rattle.type_system.specs.Definitions.{children, is_named, is_root, items, named_as, operation_type};
ghost use Rattle.type_system.specs.Definitions.{operation_word};

use crate::kinds::OperationType;
use apollo_cst_core::{child_of, is_one_of};
use apollo_tree::{SyntaxKind, SyntaxNode};
use std::alloc::{AllocError, Global};
use validation_names::{Site, name, own_name};

// Adds the child nodes of a node.
pub(crate) fn push_children<'t>(
    found: &mut Vec<Site<'t>>,
    document: usize,
    parent: &SyntaxNode<'t>,
) -> Result<(), AllocError>
    ensures { OnOk result (map as_located found.new.items
        ≡ map as_located found.old.items ++ map (located document) (child_nodes (node_place parent.now))) }
{
    for node in parent.children() {
        found.push(Site { document, node })?;
    }
    Ok(())
}

/// The definitions of documents, in order, by the roots of their trees. It fails only where memory is refused.
pub fn all_definitions<'t>(
    alloc: Global,
    documents: &[SyntaxNode<'t>],
) -> Result<Vec<Site<'t>>, AllocError>
    ensures { IfOk result (λ found. map as_located found.items ≡ all_definitions (map node_place documents.now)) }
{
    let mut found = Vec::new(alloc);
    for (number, document) in documents.iter().enumerate() {
        push_children(&mut found, number, document)?;
    }
    Ok(found)
}

/// The child nodes of a node. It fails only where memory is refused.
pub fn children<'t>(alloc: Global, parent: &Site<'t>) -> Result<Vec<Site<'t>>, AllocError>
    ensures { IfOk result (λ found. map as_located found.items ≡ children (as_located parent.now)) }
{
    let mut found = Vec::new(alloc);
    push_children(&mut found, parent.document, &parent.node)?;
    Ok(found)
}

// Adds what is in the blocks of a kind in a definition.
pub(crate) fn push_items<'t>(
    found: &mut Vec<Site<'t>>,
    definition: &Site<'t>,
    block: SyntaxKind,
) -> Result<(), AllocError>
    ensures { OnOk result (map as_located found.new.items
        ≡ map as_located found.old.items ++ items block (as_located definition.now)) }
{
    for child in definition.node.children() {
        if child.kind().is(block) {
            push_children(found, definition.document, &child)?;
        }
    }
    Ok(())
}

/// What is in the blocks of a kind in a definition, in order. For example, the fields of a type are in its
/// FIELDS_DEFINITION. It fails only where memory is refused.
pub fn items<'t>(
    alloc: Global,
    definition: &Site<'t>,
    block: SyntaxKind,
) -> Result<Vec<Site<'t>>, AllocError>
    ensures { IfOk result (λ found. map as_located found.items ≡ items block (as_located definition.now)) }
{
    let mut found = Vec::new(alloc);
    push_items(&mut found, definition, block)?;
    Ok(found)
}

// The name under which a node of one of these kinds defines something.
pub(crate) fn named_as<'t>(site: &Site<'t>, kinds: &[SyntaxKind]) -> Option<&'t str>
    ensures { option_map (λ n. n.now) result ≡ named_as kinds.now (as_located site.now) }
{
    if is_one_of(site.node.kind(), kinds) {
        return name(&site.node);
    }
    None
}

// Whether a node has a name.
pub(crate) fn is_named(site: &Site<'_>, wanted: &str) -> bool
    ensures { result ≡ is_named wanted.now (as_located site.now) }
{
    match own_name(&site.node) {
        Some(other) => other == wanted,
        None => false,
    }
}

// The word of an operation or of a root: `query`, `mutation` or `subscription`.
fn operation_word<'t>(node: &SyntaxNode<'t>) -> Option<&'t str>
    ensures { option_map (λ n. n.now) result ≡ operation_word (node_place node.now) }
{
    let word = child_of(*node, &[SyntaxKind::OPERATION_TYPE])?;
    Some(word.text())
}

/// What an operation does, by its word; without a word it is a query.
pub fn operation_type(node: &SyntaxNode<'_>) -> OperationType
    ensures { result ≡ operation_type (node_place node.now) }
{
    match operation_word(node) {
        Some("mutation") => OperationType::Mutation,
        Some("subscription") => OperationType::Subscription,
        _ => OperationType::Query,
    }
}

// Whether a node gives the root type of such operations.
pub(crate) fn is_root(site: &Site<'_>, operation: OperationType) -> bool
    ensures { result ≡ is_root operation (as_located site.now) }
{
    if !site
        .node
        .kind()
        .is(SyntaxKind::ROOT_OPERATION_TYPE_DEFINITION)
    {
        return false;
    }
    match operation_word(&site.node) {
        Some(word) => word == operation.word(),
        None => false,
    }
}
