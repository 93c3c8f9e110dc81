// The directives that may be at a place.
ghost use Rattle.std.specs.Prelude.{◌≡◌, IfOk, map, option_map};
ghost use Rattle.std.specs.List.{filter};
ghost use Rattle.apollo_tree.specs.References.{node_place, token_place};
ghost use Rattle.validation_names.specs.Sites.{all_definitions, as_located};
ghost use Rattle.schema_members.specs.Locations.{directive_owner, directives_at, is_directive_for, location_at};

use crate::definitions::Schema;
use apollo_tree::{SyntaxKind, SyntaxNode, SyntaxToken};
use std::alloc::{AllocError, Global};
use type_system::{DirectiveLocation, all_definitions, location_of, may_be_at};
use validation_names::Site;

// The directives of all documents that may be at a location.
fn all_directives<'t>(
    alloc: Global,
    schema: Schema<'_, 't>,
    location: DirectiveLocation,
) -> Result<Vec<Site<'t>>, AllocError>
    ensures { IfOk result (λ found. map as_located found.items
        ≡ filter (is_directive_for location) (all_definitions (map node_place schema.entry.roots.now))) }
{
    let mut found = Vec::new(alloc);
    for definition in &all_definitions(alloc, schema.roots)? {
        let node = &definition.node;
        if node.kind().is(SyntaxKind::DIRECTIVE_DEFINITION) && may_be_at(node, location) {
            found.push(*definition)?;
        }
    }
    Ok(found)
}

// What the directive is on whose name a leaf is: the list of its directives is between them.
fn owner_of<'p>(leaf: SyntaxToken<'p>) -> Option<SyntaxNode<'p>>
    ensures { option_map node_place result ≡ directive_owner (token_place leaf.entry) }
{
    let directive = leaf.parent()?.parent()?;
    if directive.kind().is(SyntaxKind::DIRECTIVE) {
        directive.parent()?.parent()
    } else {
        None
    }
}

// The location of a directive's name.
fn location_at(leaf: SyntaxToken<'_>) -> Option<DirectiveLocation>
    ensures { result ≡ location_at (token_place leaf.entry) }
{
    location_of(&owner_of(leaf)?)
}

/// The directives that may be at the place of a directive's name, a leaf of any tree, in the order of the documents.
/// There are none at another place. It fails only where memory is refused.
pub fn directives_at<'t>(
    alloc: Global,
    schema: Schema<'_, 't>,
    leaf: SyntaxToken<'_>,
) -> Result<Vec<Site<'t>>, AllocError>
    ensures { IfOk result (λ found.
        map as_located found.items ≡ directives_at (map node_place schema.entry.roots.now) (token_place leaf.entry)) }
{
    match location_at(leaf) {
        Some(location) => all_directives(alloc, schema, location),
        None => Ok(Vec::new(alloc)),
    }
}
