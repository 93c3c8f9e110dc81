// Directives that are used again where they may be used once (section 5.7.3).
ghost use Rattle.std.specs.Prelude.{◌≡◌, IfOk, None, OnOk, Some, option_map};
ghost use Rattle.apollo_tree.specs.References.{node_place};
ghost use Rattle.validation_names.specs.Sites.{as_located};
ghost use Rattle.type_system.specs.Definitions.{children};
ghost use Rattle.type_system.specs.Tables.{AreFirst};
ghost use Rattle.query_validation.specs.Contexts.{as_context, as_definition};
ghost use Rattle.query_validation.specs.Repeats.{IsTable};
ghost use Rattle.query_validation.specs.Rules.{comes_before, first_use, is_repeat, is_used_once};

use crate::contexts::Context;
use apollo_tree::{SyntaxKind, SyntaxNode};
use std::alloc::{AllocError, Global};
use std::collections::BTreeMap;
use type_system::{DefinitionWithArguments, children, first_by_name, is_repeatable};
use validation_names::{Site, name};

// The directives at one location, by their names: under each name the first. The table is kept from one directive to
// the next, so a long list is read once.
#[derive(Drop)]
pub(crate) struct DirectiveTable<'d> {
    // The number of the list in its tree. `None` before the first list.
    pub list: Option<usize>,
    pub first: BTreeMap<&'d str, Site<'d>>,
}

// A table of no list.
pub(crate) fn empty_table<'d>(alloc: Global) -> DirectiveTable<'d>
    ensures { result.list ≡ None }
{
    DirectiveTable {
        list: None,
        first: BTreeMap::new(alloc),
    }
}

// The directives of a list, by their names.
fn directives_in<'d>(
    alloc: Global,
    list: &Site<'d>,
) -> Result<BTreeMap<&'d str, Site<'d>>, AllocError>
    ensures { IfOk result (λ entries. AreFirst entries (children (as_located list.now))) }
{
    let directives = children(alloc, list)?;
    let entries = first_by_name(alloc, &directives)?;
    Ok(entries)
}

// Fills the table with the directives of a list, unless it has them.
fn fill<'d>(
    alloc: Global,
    table: &mut DirectiveTable<'d>,
    list: &Site<'d>,
) -> Result<(), AllocError>
    requires { IsTable list.now.document (node_place list.now.node).whole table.old }
    ensures table { OnOk result (IsTable list.now.document (node_place list.now.node).whole table.new) }
    ensures first { OnOk result (AreFirst table.new.first (children (as_located list.now))) }
{
    let index = list.node.index();
    if table.list == Some(index) {
        return Ok(());
    }
    table.first = directives_in(alloc, list)?;
    table.list = Some(index);
    Ok(())
}

// The first directive with the same name at the same location.
fn first_use<'d>(
    alloc: Global,
    table: &mut DirectiveTable<'d>,
    site: &Site<'d>,
) -> Result<Option<Site<'d>>, AllocError>
    requires { IsTable site.now.document (node_place site.now.node).whole table.old }
    ensures table { OnOk result (IsTable site.now.document (node_place site.now.node).whole table.new) }
    ensures first { IfOk result (λ first. option_map as_located first ≡ first_use (as_located site.now)) }
{
    let document = site.document;
    let Some(node) = site.node.parent() else {
        return Ok(None);
    };
    let Some(name) = name(&site.node) else {
        return Ok(None);
    };
    fill(alloc, table, &Site { document, node })?;
    Ok(table.first.get(name).copied())
}

fn comes_before(first: Option<Site<'_>>, node: &SyntaxNode<'_>) -> bool
    ensures { result ≡ comes_before (option_map as_located first.entry) (node_place node.now) }
{
    match first {
        Some(first) => first.node.index() < node.index(),
        None => false,
    }
}

fn is_used_once(definition: Option<&DefinitionWithArguments<'_>>) -> bool
    ensures { result ≡ is_used_once (as_definition definition.entry) }
{
    match definition {
        Some(definition) => !is_repeatable(&definition.definition.site.node),
        None => false,
    }
}

// Whether a node is a directive that was used before at its location, and may be used once, by the context inside it.
pub(crate) fn is_repeat<'d>(
    alloc: Global,
    table: &mut DirectiveTable<'d>,
    inside: &Context<'_, '_>,
    site: &Site<'d>,
) -> Result<bool, AllocError>
    requires { IsTable site.now.document (node_place site.now.node).whole table.old }
    ensures table { OnOk result (IsTable site.now.document (node_place site.now.node).whole table.new) }
    ensures repeat { IfOk result (λ repeat. repeat ≡ is_repeat (as_context inside.now) (as_located site.now)) }
{
    if site.node.kind().is(SyntaxKind::DIRECTIVE) && is_used_once(inside.definition) {
        let first = first_use(alloc, table, site)?;
        return Ok(comes_before(first, &site.node));
    }
    Ok(false)
}
