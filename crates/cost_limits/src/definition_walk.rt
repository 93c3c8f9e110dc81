// The walk over the nodes of a definition.
ghost use Rattle.std.specs.Prelude.{◌≡◌, ◌<◌, ◌≤◌, ◌++◌, List, OnOk, IfOk};
ghost use Rattle.apollo_tree.specs.References.{node_place};
ghost use Rattle.validation_names.specs.Names.{Name};
ghost use Rattle.validation_names.specs.Sites.{as_located};
ghost use Rattle.cost_limits.specs.Items.{definition_items, field_items, items_inside, other_items, inside};
ghost use Rattle.cost_limits.specs.Collecting.{AreNames, Adds, number_of};

use crate::introspection::{Introspection, is_counted};
use crate::response_names::{is_new, number_of, response_name};
use apollo_tree::{SyntaxKind, SyntaxNode};
use cost_figures::{Item, Span};
use std::alloc::{AllocError, Allocator};
use std::collections::BTreeMap;
use validation_names::{Site, name_of_fragment};

// How many fields of a definition enclose the nodes below one of its nodes.
fn inside(enclosing: usize, node: SyntaxNode<'_>) -> usize
    requires { enclosing < (node_place node).index }
    ensures { result ≡ inside enclosing (node_place node.entry) }
{
    if node.kind().is(SyntaxKind::FIELD) {
        enclosing + 1
    } else {
        enclosing
    }
}

// Adds the items of a field.
fn add_field<A: Allocator + Copy>(
    enclosing: usize,
    is_new: bool,
    found: &mut Vec<Item, A>,
) -> Result<(), AllocError>
    ensures { OnOk result (found.new.items ≡ found.old.items ++ field_items enclosing is_new) }
{
    found.push(Item::Field(enclosing))?;
    if is_new {
        found.push(Item::ResponseName(enclosing))?;
    }
    Ok(())
}

// Adds the item of another node. Most have none.
fn add_other<A: Allocator + Copy>(
    site: &Site<'_>,
    fragments: &BTreeMap<&str, usize, A>,
    enclosing: usize,
    found: &mut Vec<Item, A>,
) -> Result<(), AllocError>
    ensures { OnOk result (found.new.items ≡ found.old.items
        ++ other_items (number_of fragments.now) enclosing (as_located site.now)) }
{
    let kind = site.node.kind();
    if kind.is(SyntaxKind::ALIAS) {
        found.push(Item::Alias)?;
        return Ok(());
    }
    if kind.is(SyntaxKind::DIRECTIVE) {
        found.push(Item::Directive)?;
        return Ok(());
    }
    if kind.is(SyntaxKind::FRAGMENT_SPREAD) {
        let number = number_of(fragments, name_of_fragment(&site.node));
        let range = site.node.text_range();
        let span = Span {
            document: site.document,
            start: range.start(),
            end: range.end(),
        };
        found.push(Item::Spread(enclosing, number, span))?;
        return Ok(());
    }
    Ok(())
}

// Adds the items of a node itself.
fn add<'t, A: Allocator + Copy>(
    site: &Site<'t>,
    fragments: &BTreeMap<&str, usize, A>,
    enclosing: usize,
    names: &mut BTreeMap<&'t str, (), A>,
    found: &mut Vec<Item, A>,
) -> Result<(), AllocError>
    ensures { OnOk result ((seen : List Name) → AreNames names.old seen
        → Adds (number_of fragments.now) enclosing (as_located site.now) seen found.old.items
        found.new.items names.new) }
{
    if site.node.kind().is(SyntaxKind::FIELD) {
        let is_new = is_new(response_name(&site.node), names)?;
        add_field(enclosing, is_new, found)?;
        return Ok(());
    }
    add_other(site, fragments, enclosing, found)?;
    Ok(())
}

// Adds the items of all nodes below a node that count.
fn collect<'t, A: Allocator + Copy>(
    alloc: A,
    site: &Site<'t>,
    fragments: &BTreeMap<&str, usize, A>,
    introspection: Introspection,
    enclosing: usize,
    found: &mut Vec<Item, A>,
) -> Result<(), AllocError>
    requires { enclosing ≤ (node_place site.now.node).index }
    ensures { OnOk result (found.new.items ≡ found.old.items
        ++ items_inside introspection (number_of fragments.now) enclosing (as_located site.now)) }
{
    let mut names: BTreeMap<&'t str, (), A> = BTreeMap::new(alloc);
    for node in site.node.children() {
        let child = Site {
            document: site.document,
            node,
        };
        if is_counted(introspection, &node) {
            add(&child, fragments, enclosing, &mut names, found)?;
            let within = inside(enclosing, node);
            collect(alloc, &child, fragments, introspection, within, found)?;
        }
    }
    Ok(())
}

/// The items of an operation or a fragment, where `fragments` has the number of the first definition of each fragment.
/// A spread of no fragment names the definition with the number `usize::MAX`.
pub fn items<A: Allocator + Copy>(
    alloc: A,
    definition: &Site<'_>,
    fragments: &BTreeMap<&str, usize, A>,
    introspection: Introspection,
) -> Result<Vec<Item, A>, AllocError>
    ensures { IfOk result (λ items. items.items
        ≡ definition_items introspection (number_of fragments.now) (as_located definition.now)) }
{
    let mut found = Vec::new(alloc);
    collect(alloc, definition, fragments, introspection, 0, &mut found)?;
    Ok(found)
}
