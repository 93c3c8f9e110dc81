// The figures of a document's operations as rows.
ghost use Rattle.std.specs.Prelude.{◌≡◌, [], ◌∷◌, IfErr, IfOk, map};
ghost use Rattle.apollo_tree.specs.References.{node_place};
ghost use Rattle.validation_names.specs.Definitions.{defined};
ghost use Rattle.cost_limits.specs.Measures.{AreMeasures, IsMeasureError, as_measure, everything};
ghost use Rattle.c_validation.specs.Rows.{name_range, operation_row};
ghost use Rattle.c_validation.specs.Outcomes.{MeasureOutcome, fault_counts, no_measures};

use crate::documents::read_document;
use crate::items::write;
use crate::rows::{MeasureCounts, OperationRow, status};
use crate::violation_rows::range_of;
use apollo_cst_core::{CstNode, child};
use apollo_cst_executable::Name;
use apollo_parser::{Limits, SyntaxNode};
use cost_limits::{MeasureError, MeasureOptions, OperationFigures, measure};
use std::alloc::{AllocError, Allocator};

// Where the name of an operation begins and has ended; two zeros where it has none.
fn name_range<'t>(operation: &SyntaxNode<'t>) -> (usize, usize)
    ensures { result ≡ name_range (node_place operation.now) }
{
    let name: Option<Name<'t>> = child(operation);
    match name {
        Some(name) => range_of(Some(*name.syntax())),
        None => range_of(None),
    }
}

fn row_of(measured: &OperationFigures<'_>) -> OperationRow
    ensures { result ≡ operation_row (as_measure measured.now) }
{
    let range = measured.operation.site.node.text_range();
    let (name_start, name_end) = name_range(&measured.operation.site.node);
    let figures = measured.figures;
    OperationRow {
        start: range.start(),
        end: range.end(),
        name_start,
        name_end,
        depth: figures.depth,
        fields: figures.fields,
        root_fields: figures.root_fields,
        aliases: figures.aliases,
        directives: figures.directives,
        height: figures.height,
        distinct_root_fields: figures.distinct_root_fields,
    }
}

fn rows_of<A: Allocator + Copy>(
    alloc: A,
    operations: &[OperationFigures<'_>],
) -> Result<Vec<OperationRow, A>, AllocError>
    ensures { IfOk result (λ rows. rows.items ≡ map operation_row (map as_measure operations.now)) }
{
    let mut rows = Vec::new(alloc);
    for measured in operations {
        rows.push(row_of(measured))?;
    }
    Ok(rows)
}

// The figures of the operations of one document, by the root of its tree.
fn measure_document<'t, A: Allocator + Copy>(
    alloc: A,
    document: &SyntaxNode<'t>,
) -> Result<Vec<OperationFigures<'t>, A>, MeasureError<'t>>
    ensures figures { IfOk result
        (λ v. AreMeasures everything (defined (node_place document.now ∷ [])) (map as_measure v.items)) }
    ensures error { IfErr result (IsMeasureError everything (defined (node_place document.now ∷ []))) }
{
    measure(alloc, &[*document], &MeasureOptions::EVERYTHING)
}

fn refused(status: u32) -> MeasureCounts
    ensures { result ≡ no_measures status }
{
    MeasureCounts {
        operations: 0,
        start: 0,
        end: 0,
        other_start: 0,
        other_end: 0,
        status,
    }
}

// Why there are no figures, with the places of the fault.
fn fault(error: MeasureError<'_>) -> MeasureCounts
    ensures { result ≡ fault_counts error.entry }
{
    match error {
        MeasureError::SameName(first, second) => {
            let range = second.site.node.text_range();
            let other = first.site.node.text_range();
            MeasureCounts {
                start: range.start(),
                end: range.end(),
                other_start: other.start(),
                other_end: other.end(),
                ..refused(status::SAME_NAME)
            }
        }
        MeasureError::Cycle(span) => MeasureCounts {
            start: span.start,
            end: span.end,
            ..refused(status::CYCLE)
        },
        MeasureError::Undefined(span) => MeasureCounts {
            start: span.start,
            end: span.end,
            ..refused(status::UNDEFINED)
        },
        MeasureError::Memory => refused(status::NO_MEMORY),
    }
}

/// Measures the operations of a document with all fragments expanded (GraphQL October 2021, section 2.8), within both
/// limits of the parser. It writes a row for each operation, as far as there is room, and answers how many there are,
/// or why they have no figures.
///
/// What it promises is `MeasureOutcome` in `specs/Outcomes.antt`.
pub fn measure_into<A: Allocator + Copy>(
    alloc: A,
    source: &[u8],
    limits: Limits,
    operations: &mut [OperationRow],
) -> MeasureCounts
    ensures { MeasureOutcome source.now limits.recursion limits.tokens operations.old operations.new result }
{
    let tree = match read_document(alloc, source, limits) {
        Ok(tree) => tree,
        Err(status) => return refused(status),
    };
    let measured = match measure_document(alloc, &tree.root()) {
        Ok(measured) => measured,
        Err(error) => return fault(error),
    };
    let Ok(made) = rows_of(alloc, measured.as_slice()) else {
        return refused(status::NO_MEMORY);
    };
    let rows = made.as_slice();
    write(operations, rows);
    MeasureCounts {
        operations: rows.len(),
        ..refused(status::OK)
    }
}
