// The figures of the operations of documents that are judged together.
ghost use Rattle.std.specs.Prelude.{◌≡◌, ◌<◌, map, length, IfOk, IfErr, IfSome, IfNone};
ghost use Rattle.std.specs.List.{filter};
ghost use Rattle.apollo_tree.specs.References.{node_place};
ghost use Rattle.validation_names.specs.Names.{AreFirstNumbers};
ghost use Rattle.validation_names.specs.Definitions.{as_defined, defined, fragment_names};
ghost use Rattle.cost_limits.specs.Measures.{IsFirst, AreDistinct, IsSecond, AreTwins, AreMeasures, IsMeasureError};
ghost use Rattle.cost_limits.specs.Measures.{as_measure, everything, is_measured, items_of, operations};

use crate::definition_walk::items;
use crate::introspection::Introspection;
use apollo_tree::SyntaxNode;
use cost_figures::{Fault, Figures, Item, Span};
use std::alloc::{AllocError, Allocator};
use std::collections::BTreeMap;
use validation_names::{DefinitionKind, ExecutableDefinition, definitions, fragments};

/// What is measured of some documents.
#[derive(Clone, Copy)]
pub struct MeasureOptions {
    /// Whether the fields count that introspect the schema.
    pub introspection: Introspection,
    /// How many of the documents have their operations measured, from the first on, or `None` for all of them. Of the
    /// others only the fragments count, where they are spread.
    pub measured: Option<usize>,
}

impl MeasureOptions {
    /// All operations, with all their fields.
    pub const EVERYTHING: Self = MeasureOptions {
        introspection: Introspection::Counted,
        measured: None,
    };
}

/// An operation, and how large it is.
#[derive(Clone, Copy)]
pub struct OperationFigures<'t> {
    pub operation: ExecutableDefinition<'t>,
    pub figures: Figures,
}

/// Why the operations of some documents have no figures.
#[derive(Clone, Copy)]
pub enum MeasureError<'t> {
    /// Two fragments have one name (GraphQL October 2021, section 5.5.1.1): the first one of the name, and another.
    SameName(ExecutableDefinition<'t>, ExecutableDefinition<'t>),
    /// An operation leads to the spread that is here, which is part of a cycle of fragments (section 5.5.2.2).
    Cycle(Span),
    /// An operation leads to the spread that is here, and there is no fragment of its name (section 5.5.2.1).
    Undefined(Span),
    /// Memory was refused.
    Memory,
}

// The number of an earlier fragment, the first of its name, that has the name of this one.
fn earlier<'t, A: Allocator + Copy>(
    definitions: &[ExecutableDefinition<'t>],
    number: usize,
    fragments: &BTreeMap<&'t str, usize, A>,
) -> Option<usize>
    requires inside { number < length definitions.now }
    requires numbers { AreFirstNumbers fragments.now (fragment_names (map as_defined definitions.now)) }
    ensures some { IfSome result (λ first. IsSecond (fragment_names (map as_defined definitions.now)) first number) }
    ensures none { IfNone result (IsFirst (fragment_names (map as_defined definitions.now)) number) }
{
    let name = definitions[number].fragment_name()?;
    let first = *fragments.get(name)?;
    if first < number { Some(first) } else { None }
}

// The first fragment that has the name of an earlier one, after that one.
fn twins<'t, A: Allocator + Copy>(
    definitions: &[ExecutableDefinition<'t>],
    fragments: &BTreeMap<&'t str, usize, A>,
) -> Option<(ExecutableDefinition<'t>, ExecutableDefinition<'t>)>
    requires { AreFirstNumbers fragments.now (fragment_names (map as_defined definitions.now)) }
    ensures some { IfSome result (λ t. AreTwins (map as_defined definitions.now) (as_defined t.0) (as_defined t.1)) }
    ensures none { IfNone result (AreDistinct (fragment_names (map as_defined definitions.now))) }
{
    for number in 0..definitions.len() {
        if let Some(first) = earlier(definitions, number, fragments) {
            return Some((definitions[first], definitions[number]));
        }
    }
    None
}

// The items of each definition.
fn all_items<'t, A: Allocator + Copy>(
    alloc: A,
    definitions: &[ExecutableDefinition<'t>],
    fragments: &BTreeMap<&'t str, usize, A>,
    introspection: Introspection,
) -> Result<Vec<Vec<Item, A>, A>, AllocError>
    requires { AreFirstNumbers fragments.now (fragment_names (map as_defined definitions.now)) }
    ensures { IfOk result (λ found. map (λ items. items.items) found.items
        ≡ items_of introspection (map as_defined definitions.now)) }
{
    let mut found = Vec::new(alloc);
    for definition in definitions {
        found.push(items(alloc, &definition.site, fragments, introspection)?)?;
    }
    Ok(found)
}

// Whether a definition is an operation that is measured, where this number of documents is.
fn is_measured(definition: &ExecutableDefinition<'_>, measured: Option<usize>) -> bool
    ensures { result ≡ is_measured measured (as_defined definition.now) }
{
    let is_operation = matches!(definition.kind, DefinitionKind::Operation);
    match measured {
        Some(count) => is_operation && definition.site.document < count,
        None => is_operation,
    }
}

// Operations, and their numbers among the definitions.
#[derive(Drop)]
struct OperationList<'t, A: Allocator> {
    operations: Vec<ExecutableDefinition<'t>, A>,
    numbers: Vec<usize, A>,
}

// Those that are measured, where this number of documents is.
fn operations<'t, A: Allocator + Copy>(
    alloc: A,
    definitions: &[ExecutableDefinition<'t>],
    measured: Option<usize>,
) -> Result<OperationList<'t, A>, AllocError>
    ensures operations { IfOk result (λ found. map as_defined found.operations.items
        ≡ filter (is_measured measured) (map as_defined definitions.now)) }
    ensures numbers { IfOk result
        (λ found. found.numbers.items ≡ operations measured 0 (map as_defined definitions.now)) }
{
    let mut operations = Vec::new(alloc);
    let mut numbers = Vec::new(alloc);
    for (number, definition) in definitions.iter().enumerate() {
        if is_measured(definition, measured) {
            operations.push(*definition)?;
            numbers.push(number)?;
        }
    }
    Ok(OperationList {
        operations,
        numbers,
    })
}

// Each operation with its figures.
fn paired<'t, A: Allocator + Copy>(
    alloc: A,
    operations: &[ExecutableDefinition<'t>],
    figures: &[Figures],
) -> Result<Vec<OperationFigures<'t>, A>, AllocError>
    requires { length operations.now ≡ length figures.now }
    ensures operations { IfOk result
        (λ v. map (λ m. m.operation) (map as_measure v.items) ≡ map as_defined operations.now) }
    ensures figures { IfOk result (λ v. map (λ m. m.figures) (map as_measure v.items) ≡ figures.now) }
{
    let mut found = Vec::new(alloc);
    for (number, operation) in operations.iter().enumerate() {
        found.push(OperationFigures {
            operation: *operation,
            figures: figures[number],
        })?;
    }
    Ok(found)
}

// The figures of the operations, where no two fragments have one name.
fn measure_distinct<'t, A: Allocator + Copy>(
    alloc: A,
    definitions: &[ExecutableDefinition<'t>],
    fragments: &BTreeMap<&'t str, usize, A>,
    options: &MeasureOptions,
) -> Result<Vec<OperationFigures<'t>, A>, MeasureError<'t>>
    requires numbers { AreFirstNumbers fragments.now (fragment_names (map as_defined definitions.now)) }
    requires distinct { AreDistinct (fragment_names (map as_defined definitions.now)) }
    ensures figures { IfOk result
        (λ v. AreMeasures options.now (map as_defined definitions.now) (map as_measure v.items)) }
    ensures error { IfErr result (IsMeasureError options.now (map as_defined definitions.now)) }
{
    let Ok(items) = all_items(alloc, definitions, fragments, options.introspection) else {
        return Err(MeasureError::Memory);
    };
    let Ok(found) = operations(alloc, definitions, options.measured) else {
        return Err(MeasureError::Memory);
    };
    let numbers = found.numbers.as_slice();
    match cost_figures::measure(alloc, items.as_slice(), numbers) {
        Ok(figures) => match paired(alloc, found.operations.as_slice(), figures.as_slice()) {
            Ok(measured) => Ok(measured),
            Err(_) => Err(MeasureError::Memory),
        },
        Err(Fault::Cycle(span)) => Err(MeasureError::Cycle(span)),
        Err(Fault::Undefined(span)) => Err(MeasureError::Undefined(span)),
        Err(Fault::Memory) => Err(MeasureError::Memory),
    }
}

/// The figures of the operations of some documents, by the roots of their trees, in order. The trees should have no
/// syntax errors: a field or a fragment without a name counts by these rules too. Fragments are those of all documents
/// together. `options` says which documents have their operations measured, and whether the fields count that
/// introspect the schema.
///
/// Unless memory is refused, there are figures exactly if no two fragments have one name, and no operation that is
/// measured leads to a cycle of fragments or to a spread of no fragment. Fragments that none leads to may have both.
/// Where a field does not count, what is below it leads nowhere. If several errors apply, names come first, and then
/// the first wrong spread, fragments expanded.
pub fn measure<'t, A: Allocator + Copy>(
    alloc: A,
    documents: &[SyntaxNode<'t>],
    options: &MeasureOptions,
) -> Result<Vec<OperationFigures<'t>, A>, MeasureError<'t>>
    ensures figures { IfOk result
        (λ v. AreMeasures options.now (defined (map node_place documents.now)) (map as_measure v.items)) }
    ensures error { IfErr result (IsMeasureError options.now (defined (map node_place documents.now))) }
{
    let Ok(definitions) = definitions(alloc, documents) else {
        return Err(MeasureError::Memory);
    };
    let Ok(fragments) = fragments(alloc, definitions.as_slice()) else {
        return Err(MeasureError::Memory);
    };
    if let Some((first, second)) = twins(definitions.as_slice(), &fragments) {
        return Err(MeasureError::SameName(first, second));
    }
    measure_distinct(alloc, definitions.as_slice(), &fragments, options)
}
