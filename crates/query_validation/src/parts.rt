// Parts of nodes that rules need.
ghost use Rattle.std.specs.Prelude.{◌≡◌, IfOk, map, option_map};
ghost use Rattle.apollo_tree.specs.References.{node_place};
ghost use Rattle.validation_names.specs.Sites.{as_located};
ghost use Rattle.type_system.specs.Tables.{AreFirst};
ghost use Rattle.query_validation.specs.Rules.{given, has_selections, is_condition, is_variable};

use apollo_cst_core::child_of;
use apollo_tree::{SyntaxKind, SyntaxNode};
use std::alloc::{AllocError, Global};
use std::collections::BTreeMap;
use type_system::{children, first_by_name, items};
use validation_names::Site;

pub(crate) fn has_selections(node: &SyntaxNode<'_>) -> bool
    ensures { result ≡ has_selections (node_place node.now) }
{
    child_of(*node, &[SyntaxKind::SELECTION_SET]).is_some()
}

// Whether a node is the condition of a fragment.
pub(crate) fn is_condition(node: Option<SyntaxNode<'_>>) -> bool
    ensures { result ≡ is_condition (option_map node_place node.entry) }
{
    match node {
        Some(node) => node.kind().is(SyntaxKind::TYPE_CONDITION),
        None => false,
    }
}

// Whether a node is the definition of a variable.
pub(crate) fn is_variable(node: Option<SyntaxNode<'_>>) -> bool
    ensures { result ≡ is_variable (option_map node_place node.entry) }
{
    match node {
        Some(node) => node.kind().is(SyntaxKind::VARIABLE_DEFINITION),
        None => false,
    }
}

// What a field or a directive is given, or an input object.
fn given<'t>(alloc: Global, site: &Site<'t>) -> Result<Vec<Site<'t>>, AllocError>
    ensures { IfOk result (λ found. map as_located found.items ≡ given (as_located site.now)) }
{
    if site.node.kind().is(SyntaxKind::OBJECT_VALUE) {
        return children(alloc, site);
    }
    items(alloc, site, SyntaxKind::ARGUMENTS)
}

// The same by names.
pub(crate) fn given_by_name<'t>(
    alloc: Global,
    site: &Site<'t>,
) -> Result<BTreeMap<&'t str, Site<'t>>, AllocError>
    ensures { IfOk result (λ entries. AreFirst entries (given (as_located site.now))) }
{
    let found = given(alloc, site)?;
    let entries = first_by_name(alloc, &found)?;
    Ok(entries)
}
