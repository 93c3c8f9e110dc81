// Tables of definitions by their names: under each name the first.
ghost use Rattle.std.specs.Prelude.{◌≡◌, IfOk, OnOk, map, option_map};
ghost use Rattle.std.specs.List.{filter};
ghost use Rattle.validation_names.specs.Names.{AreFirstNumbers, entry_of};
ghost use Rattle.validation_names.specs.Sites.{as_located};
ghost use Rattle.type_system.specs.Definitions.{is_required, named_as};
ghost use Rattle.type_system.specs.Schemas.{as_typed, as_with_arguments};
ghost use Rattle.type_system.specs.Tables.{AreFirst, AreFirstFields, AreFirstTyped, EntersField, EntersSite};
ghost use Rattle.type_system.specs.Tables.{EntersTyped};
ghost use Rattle.type_system.specs.Types.{typed, with_arguments, with_those};

use crate::definitions::{items, named_as};
use crate::schema::{DefinitionWithArguments, TypedDefinition};
use crate::type_references::{is_required, named_type};
use apollo_tree::SyntaxKind;
use std::alloc::{AllocError, Global};
use std::collections::BTreeMap;
use validation_names::{Site, enter, is_entered, own_name};

/// For each name, the number of the first definition that defines it, of those of some kinds.
pub(crate) fn first_numbers<'t>(
    alloc: Global,
    definitions: &[Site<'t>],
    kinds: &[SyntaxKind],
) -> Result<BTreeMap<&'t str, usize>, AllocError>
    ensures { IfOk result (λ numbers.
        AreFirstNumbers numbers (map (named_as kinds.now) (map as_located definitions.now))) }
{
    let mut numbers: BTreeMap<&'t str, usize> = BTreeMap::new(alloc);
    for (number, definition) in definitions.iter().enumerate() {
        if let Some(name) = named_as(definition, kinds) {
            enter(&mut numbers, name, number)?;
        }
    }
    Ok(numbers)
}

// A definition with the number of its type.
fn typed<'t>(types: &BTreeMap<&'t str, usize>, site: &Site<'t>) -> TypedDefinition<'t>
    ensures { as_typed result ≡ typed (entry_of types.now) (as_located site.now) }
{
    let type_number = match named_type(&site.node) {
        Some(name) => types.get(name).copied(),
        None => None,
    };
    TypedDefinition {
        site: *site,
        type_number,
    }
}

// Enters a definition, if it has a name, and none is entered under it.
fn enter_typed<'t>(
    entries: &mut BTreeMap<&'t str, TypedDefinition<'t>>,
    types: &BTreeMap<&'t str, usize>,
    site: &Site<'t>,
) -> Result<(), AllocError>
    ensures { OnOk result (EntersTyped (entry_of types.now) entries.old entries.new (as_located site.now)) }
{
    if let Some(name) = own_name(&site.node) {
        enter(entries, name, typed(types, site))?;
    }
    Ok(())
}

// The first of some definitions with each name.
fn first_typed<'t>(
    alloc: Global,
    types: &BTreeMap<&'t str, usize>,
    sites: &[Site<'t>],
) -> Result<BTreeMap<&'t str, TypedDefinition<'t>>, AllocError>
    ensures { IfOk result (λ entries.
        AreFirstTyped (entry_of types.now) entries (map as_located sites.now)) }
{
    let mut entries: BTreeMap<&'t str, TypedDefinition<'t>> = BTreeMap::new(alloc);
    for site in sites {
        enter_typed(&mut entries, types, site)?;
    }
    Ok(entries)
}

// Those of some definitions that have to be given.
fn required<'t>(alloc: Global, sites: &[Site<'t>]) -> Result<Vec<Site<'t>>, AllocError>
    ensures { IfOk result (λ found. map as_located found.items ≡ filter is_required (map as_located sites.now)) }
{
    let mut found = Vec::new(alloc);
    for site in sites {
        if is_required(site) {
            found.push(*site)?;
        }
    }
    Ok(found)
}

// A definition with these arguments.
pub(crate) fn with_those<'t>(
    alloc: Global,
    types: &BTreeMap<&'t str, usize>,
    site: &Site<'t>,
    sites: &[Site<'t>],
) -> Result<DefinitionWithArguments<'t>, AllocError>
    ensures { IfOk result (λ d.
        as_with_arguments d ≡ with_those (entry_of types.now) (as_located site.now) (map as_located sites.now)) }
{
    let arguments = first_typed(alloc, types, sites)?;
    let required = required(alloc, sites)?;
    Ok(DefinitionWithArguments {
        definition: typed(types, site),
        arguments,
        required,
    })
}

// A definition with its arguments.
fn with_arguments<'t>(
    alloc: Global,
    types: &BTreeMap<&'t str, usize>,
    site: &Site<'t>,
) -> Result<DefinitionWithArguments<'t>, AllocError>
    ensures { IfOk result (λ d. as_with_arguments d ≡ with_arguments (entry_of types.now) (as_located site.now)) }
{
    let sites = items(alloc, site, SyntaxKind::ARGUMENTS_DEFINITION)?;
    let definition = with_those(alloc, types, site, &sites)?;
    Ok(definition)
}

// Enters a field or a directive, if it has a name, and none is entered under it.
fn enter_field<'t>(
    alloc: Global,
    entries: &mut BTreeMap<&'t str, DefinitionWithArguments<'t>>,
    types: &BTreeMap<&'t str, usize>,
    site: &Site<'t>,
) -> Result<(), AllocError>
    ensures { OnOk result (EntersField (entry_of types.now) entries.old entries.new (as_located site.now)) }
{
    let Some(name) = own_name(&site.node) else {
        return Ok(());
    };
    if is_entered(entries, name) {
        return Ok(());
    }
    let field = with_arguments(alloc, types, site)?;
    entries.insert(name, field)?;
    Ok(())
}

/// The first of some fields or directives with each name.
pub(crate) fn first_fields<'t>(
    alloc: Global,
    types: &BTreeMap<&'t str, usize>,
    sites: &[Site<'t>],
) -> Result<BTreeMap<&'t str, DefinitionWithArguments<'t>>, AllocError>
    ensures { IfOk result (λ entries.
        AreFirstFields (entry_of types.now) entries (map as_located sites.now)) }
{
    let mut entries: BTreeMap<&'t str, DefinitionWithArguments<'t>> = BTreeMap::new(alloc);
    for site in sites {
        enter_field(alloc, &mut entries, types, site)?;
    }
    Ok(entries)
}

// Enters a definition, if it has a name, and none is entered under it.
fn enter_site<'t>(
    entries: &mut BTreeMap<&'t str, Site<'t>>,
    site: &Site<'t>,
) -> Result<(), AllocError>
    ensures { OnOk result (EntersSite entries.old entries.new (as_located site.now)) }
{
    if let Some(name) = own_name(&site.node) {
        enter(entries, name, *site)?;
    }
    Ok(())
}

/// The first of some definitions, or of other nodes with a name, by their names. It fails only where memory is refused.
pub fn first_by_name<'t>(
    alloc: Global,
    sites: &[Site<'t>],
) -> Result<BTreeMap<&'t str, Site<'t>>, AllocError>
    ensures { IfOk result (λ entries. AreFirst entries (map as_located sites.now)) }
{
    let mut entries: BTreeMap<&'t str, Site<'t>> = BTreeMap::new(alloc);
    for site in sites {
        enter_site(&mut entries, site)?;
    }
    Ok(entries)
}
