// The schema that documents define.
ghost use Rattle.std.specs.Prelude.{◌≡◌, ℕ, ◌<◌, IfOk, OnOk, length, map, option_map};
ghost use Rattle.std.specs.Prelude.{if◌then◌else◌, None, Some};
ghost use Rattle.std.specs.List.{filter, find, list_any};
ghost use Rattle.std.specs.Option.{option_or};
ghost use Rattle.document_grammar.specs.declared.kind.SyntaxKind.TheVariants.{FIELDS_DEFINITION, SCHEMA_DEFINITION};
ghost use Rattle.apollo_cst_core.specs.Kinds.{is_of, is_of_one};
ghost use Rattle.apollo_tree.specs.References.{node_place};
ghost use Rattle.validation_names.specs.Names.{entry_of};
ghost use Rattle.validation_names.specs.Sites.{Located, as_located};
ghost use Rattle.type_system.specs.Definitions.{is_root, named_type};
ghost use Rattle.type_system.specs.Rows.{AddsItems, AreOf, AreOfRows, AreParts, AreRows, nothing};
ghost use Rattle.type_system.specs.Tables.{AreFirstFields};
ghost use Rattle.type_system.specs.Schemas.{types};
ghost use Rattle.type_system.specs.Types.{directives_in, given_root, has_schema, is_named_as, items_of, meta_fields};
ghost use Rattle.type_system.specs.Types.{part_of, root_by, roots_in, types_in, types_of};
ghost use Rattle.type_system.specs.declared.kinds.TheConstants.{TYPE_PARTS};

use crate::definitions::{all_definitions, is_root, named_as, push_children, push_items};
use crate::kinds::{DIRECTIVES, OperationType, SCHEMAS, TYPE_PARTS, TYPES};
use crate::schema::{DefinitionWithArguments, Schema, TypeParts};
use crate::standard::{EACH_TYPE, QUERY_ROOT};
use crate::tables::{first_by_name, first_fields, first_numbers, with_those};
use crate::type_references::named_type;
use apollo_cst_core::is_one_of;
use apollo_tree::{SyntaxKind, SyntaxNode};
use std::alloc::{AllocError, Global};
use std::collections::BTreeMap;
use validation_names::Site;

// The number of the type that a definition or an extension is about.
fn part_of(types: &BTreeMap<&str, usize>, site: &Site<'_>) -> Option<usize>
    ensures { result ≡ part_of (entry_of types.now) (as_located site.now) }
{
    let name = named_as(site, &TYPE_PARTS)?;
    types.get(name).copied()
}

// As many empty rows.
fn empty_rows<'t>(alloc: Global, count: usize) -> Result<Vec<Vec<Site<'t>>>, AllocError>
    ensures { IfOk result (λ rows. AreRows (λ _. nothing) count rows.items) }
{
    let mut rows = Vec::new(alloc);
    'filling: while rows.len() < count {
        rows.push(Vec::new(alloc))?;
    }
    Ok(rows)
}

// Adds what a definition or an extension has in blocks of a kind to the row of its type.
fn add_items<'t>(
    rows: &mut Vec<Vec<Site<'t>>>,
    types: &BTreeMap<&'t str, usize>,
    site: &Site<'t>,
    block: SyntaxKind,
) -> Result<(), AllocError>
    ensures { OnOk result (AddsItems (entry_of types.now) block (as_located site.now) rows.old.items rows.new.items) }
{
    if let Some(number) = part_of(types, site) {
        if number < rows.len() {
            let row = &mut rows[number];
            push_items(row, site, block)?;
        }
    }
    Ok(())
}

// For each definition what the type with its number has in blocks of a kind.
fn rows<'t>(
    alloc: Global,
    types: &BTreeMap<&'t str, usize>,
    definitions: &[Site<'t>],
    block: SyntaxKind,
) -> Result<Vec<Vec<Site<'t>>>, AllocError>
    ensures { IfOk result (λ rows.
        AreRows (items_of (entry_of types.now) block (map as_located definitions.now)) (length definitions.now)
        rows.items) }
{
    let mut rows = empty_rows(alloc, definitions.len())?;
    for site in definitions {
        add_items(&mut rows, types, site, block)?;
    }
    Ok(rows)
}

// What a type has.
fn parts_of<'t>(
    alloc: Global,
    types: &BTreeMap<&'t str, usize>,
    site: &Site<'t>,
    fields: &[Site<'t>],
    values: &[Site<'t>],
    inputs: &[Site<'t>],
) -> Result<TypeParts<'t>, AllocError>
    ensures { IfOk result (λ parts.
        AreOf (entry_of types.now) (as_located site.now) (map as_located fields.now) (map as_located values.now)
        (map as_located inputs.now) parts) }
{
    let fields = first_fields(alloc, types, fields)?;
    let values = first_by_name(alloc, values)?;
    let input = with_those(alloc, types, site, inputs)?;
    Ok(TypeParts {
        fields,
        values,
        input,
    })
}

// For each definition what the type with its number has, by the rows of the fields, the values and the input fields.
fn parts_of_rows<'t>(
    alloc: Global,
    types: &BTreeMap<&'t str, usize>,
    definitions: &[Site<'t>],
    fields: &[Vec<Site<'t>>],
    values: &[Vec<Site<'t>>],
    inputs: &[Vec<Site<'t>>],
) -> Result<Vec<TypeParts<'t>>, AllocError>
    requires fields { length fields.now ≡ length definitions.now }
    requires values { length values.now ≡ length definitions.now }
    requires inputs { length inputs.now ≡ length definitions.now }
    ensures { IfOk result (λ parts.
        AreOfRows (entry_of types.now) (map as_located definitions.now) fields.now values.now inputs.now parts.items
        (length definitions.now)) }
{
    let mut parts = Vec::new(alloc);
    for (number, site) in definitions.iter().enumerate() {
        let (fields, values, inputs) = (&fields[number], &values[number], &inputs[number]);
        let own = parts_of(
            alloc,
            types,
            site,
            fields.as_slice(),
            values.as_slice(),
            inputs.as_slice(),
        )?;
        parts.push(own)?;
    }
    Ok(parts)
}

// Whether a definition or an extension is about a name.
fn is_about(site: &Site<'_>, wanted: &str) -> bool
    ensures { result ≡ is_named_as TYPE_PARTS wanted.now (as_located site.now) }
{
    match named_as(site, &TYPE_PARTS) {
        Some(name) => name == wanted,
        None => false,
    }
}

// The fields in the extensions of a name.
fn meta_fields<'t>(
    alloc: Global,
    definitions: &[Site<'t>],
    owner: &str,
) -> Result<Vec<Site<'t>>, AllocError>
    ensures { IfOk result (λ found.
        map as_located found.items ≡ meta_fields (map as_located definitions.now) owner.now) }
{
    let mut found = Vec::new(alloc);
    for site in definitions {
        if is_about(site, owner) {
            push_items(&mut found, site, SyntaxKind::FIELDS_DEFINITION)?;
        }
    }
    Ok(found)
}

fn directives<'t>(alloc: Global, definitions: &[Site<'t>]) -> Result<Vec<Site<'t>>, AllocError>
    ensures { IfOk result (λ found. map as_located found.items ≡ directives_in (map as_located definitions.now)) }
{
    let mut found = Vec::new(alloc);
    for site in definitions {
        if is_one_of(site.node.kind(), &DIRECTIVES) {
            found.push(*site)?;
        }
    }
    Ok(found)
}

// The definitions of root types.
fn roots<'t>(alloc: Global, definitions: &[Site<'t>]) -> Result<Vec<Site<'t>>, AllocError>
    ensures { IfOk result (λ found. map as_located found.items ≡ roots_in (map as_located definitions.now)) }
{
    let mut found = Vec::new(alloc);
    for site in definitions {
        if is_one_of(site.node.kind(), &SCHEMAS) {
            push_children(&mut found, site.document, &site.node)?;
        }
    }
    Ok(found)
}

fn has_schema(definitions: &[Site<'_>]) -> bool
    ensures { result ≡ has_schema (map as_located definitions.now) }
{
    for site in definitions {
        if site.node.kind().is(SyntaxKind::SCHEMA_DEFINITION) {
            return true;
        }
    }
    false
}

// The first of some definitions of root types that is about such operations.
fn find_root<'t>(roots: &[Site<'t>], operation: OperationType) -> Option<Site<'t>>
    ensures { option_map as_located result ≡ find (is_root operation) (map as_located roots.now) }
{
    for site in roots {
        if is_root(site, operation) {
            return Some(*site);
        }
    }
    None
}

// The name of the root type that a schema gives.
fn given_root<'t>(roots: &[Site<'t>], operation: OperationType) -> Option<&'t str>
    ensures { option_map (λ n. n.now) result ≡ given_root (map as_located roots.now) operation }
{
    let root = find_root(roots, operation)?;
    named_type(&root.node)
}

// The number of the root type of operations.
fn root(
    types: &BTreeMap<&str, usize>,
    roots: &[Site<'_>],
    is_given: bool,
    operation: OperationType,
) -> Option<usize>
    ensures { result ≡ root_by (entry_of types.now) (map as_located roots.now) is_given operation }
{
    if let Some(name) = given_root(roots, operation) {
        return types.get(name).copied();
    }
    if is_given {
        return None;
    }
    types.get(operation.default_root_name()).copied()
}

// For each definition what the type with its number has.
fn parts<'t>(
    alloc: Global,
    types: &BTreeMap<&'t str, usize>,
    definitions: &[Site<'t>],
) -> Result<Vec<TypeParts<'t>>, AllocError>
    ensures { IfOk result (λ parts. AreParts (entry_of types.now) (map as_located definitions.now) parts.items) }
{
    let fields = rows(alloc, types, definitions, SyntaxKind::FIELDS_DEFINITION)?;
    let values = rows(
        alloc,
        types,
        definitions,
        SyntaxKind::ENUM_VALUES_DEFINITION,
    )?;
    let inputs = rows(
        alloc,
        types,
        definitions,
        SyntaxKind::INPUT_FIELDS_DEFINITION,
    )?;
    let parts = parts_of_rows(alloc, types, definitions, &fields, &values, &inputs)?;
    Ok(parts)
}

// The table of the fields in the extensions of a name.
fn meta_table<'t>(
    alloc: Global,
    types: &BTreeMap<&'t str, usize>,
    definitions: &[Site<'t>],
    owner: &str,
) -> Result<BTreeMap<&'t str, DefinitionWithArguments<'t>>, AllocError>
    ensures { IfOk result (λ table.
        AreFirstFields (entry_of types.now) table (meta_fields (map as_located definitions.now) owner.now)) }
{
    let found = meta_fields(alloc, definitions, owner)?;
    let table = first_fields(alloc, types, &found)?;
    Ok(table)
}

// The table of the directives.
fn directive_table<'t>(
    alloc: Global,
    types: &BTreeMap<&'t str, usize>,
    definitions: &[Site<'t>],
) -> Result<BTreeMap<&'t str, DefinitionWithArguments<'t>>, AllocError>
    ensures { IfOk result (λ table.
        AreFirstFields (entry_of types.now) table (directives_in (map as_located definitions.now))) }
{
    let found = directives(alloc, definitions)?;
    let table = first_fields(alloc, types, &found)?;
    Ok(table)
}

// The schema that some definitions make.
fn from_definitions<'t>(alloc: Global, definitions: Vec<Site<'t>>) -> Result<Schema<'t>, AllocError>
    ensures { IfOk result (λ schema. types schema ≡ types_in (map as_located definitions.entry.items)) }
{
    let sites = definitions.as_slice();
    let types = first_numbers(alloc, sites, &TYPES)?;
    let parts = parts(alloc, &types, sites)?;
    let each_fields = meta_table(alloc, &types, sites, EACH_TYPE)?;
    let query_fields = meta_table(alloc, &types, sites, QUERY_ROOT)?;
    let directives = directive_table(alloc, &types, sites)?;
    let found = roots(alloc, sites)?;
    let roots = found.as_slice();
    let is_given = has_schema(sites);
    let query = root(&types, roots, is_given, OperationType::Query);
    let mutation = root(&types, roots, is_given, OperationType::Mutation);
    let subscription = root(&types, roots, is_given, OperationType::Subscription);
    Ok(Schema {
        definitions,
        types,
        parts,
        each_fields,
        query_fields,
        directives,
        query,
        mutation,
        subscription,
    })
}

impl<'t> Schema<'t> {
    ghost use Rattle.std.specs.Prelude.{◌≡◌, IfOk, map};
    ghost use Rattle.apollo_tree.specs.References.{node_place};
    ghost use Rattle.type_system.specs.Schemas.{types};
    ghost use Rattle.type_system.specs.Types.{types_of};

    /// What documents define together, by the roots of their trees. The last document is the one of the standard's own
    /// definitions. Each name is looked at once, in n log n comparisons for n names. It fails only where memory is
    /// refused.
    pub fn read(alloc: Global, documents: &[SyntaxNode<'t>]) -> Result<Schema<'t>, AllocError>
        ensures { IfOk result (λ schema. types schema ≡ types_of (map node_place documents.now)) }
    {
        let definitions = all_definitions(alloc, documents)?;
        let schema = from_definitions(alloc, definitions)?;
        Ok(schema)
    }
}
