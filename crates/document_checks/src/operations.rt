// Checking the operations of a valid document: their figures, and which limits they exceed.
ghost use Rattle.std.specs.Prelude.{◌≡◌, ◌∷◌, [], ◌≢◌, ◌↔◌, ◌<◌, All, IfOk, OnOk, map, true, false, length, option_map};
ghost use Rattle.std.specs.Prelude.{ℕ};
ghost use Rattle.std.specs.List.{filter};
ghost use Rattle.apollo_tree.specs.References.{node_place};
ghost use Rattle.cost_limits.specs.Limits.{IsWithin};
ghost use Rattle.cost_limits.specs.Measures.{as_measure};
ghost use Rattle.cost_limits.specs.declared.measures.MeasureError.TheVariants.{Memory};
ghost use Rattle.document_checks.specs.Checking.{as_asked, has_limits, is_chosen, judged_documents};
ghost use Rattle.document_checks.specs.Documents.{AreClean, AreInside, AreJudged, AreMeasured, IsUnwarned, numbers_of};
ghost use Rattle.document_checks.specs.Passing.{HasWithin, IsThere};

use crate::documents::{Document, text_of};
use crate::report::{Checks, ExceededLimit, Finding, OperationReport, Report};
use apollo_tree::SyntaxNode;
use cost_figures::{Figures, Limit, Span};
use cost_limits::{Exceeded, MeasureError, MeasureOptions, OperationFigures, measure, within};
use std::alloc::{AllocError, Global};

// Whether an operation is the one that is named, or none is named.
fn is_chosen(measured: &OperationFigures<'_>, operation: Option<&str>) -> bool
    ensures { result ≡ is_chosen (option_map (λ n. n.now) operation.entry) (as_measure measured.now) }
{
    let Some(wanted) = operation else {
        return true;
    };
    match measured.operation.operation_name() {
        Some(name) => name == wanted,
        None => false,
    }
}

// The operations that are wanted.
fn chosen<'t>(
    alloc: Global,
    operations: &[OperationFigures<'t>],
    operation: Option<&str>,
) -> Result<Vec<OperationFigures<'t>>, AllocError>
    ensures { IfOk result (λ found. map as_measure found.items
        ≡ filter (is_chosen (option_map (λ n. n.now) operation.entry)) (map as_measure operations.now)) }
{
    let mut found = Vec::new(alloc);
    for measured in operations {
        if is_chosen(measured, operation) {
            found.push(*measured)?;
        }
    }
    Ok(found)
}

// The name of an operation, which is empty where it has none.
fn name_of<'t>(measured: &OperationFigures<'t>) -> &'t str {
    measured.operation.operation_name().unwrap_or("")
}

fn operation_report(
    alloc: Global,
    measured: &OperationFigures<'_>,
) -> Result<OperationReport, AllocError> {
    Ok(OperationReport {
        start: measured.operation.site.node.text_range().start(),
        name: String::from_str(alloc, name_of(measured))?,
        figures: measured.figures,
    })
}

// The words for a limit.
fn words_of(limit: Limit) -> &'static str {
    match limit {
        Limit::Depth => "depth",
        Limit::Fields => "number of fields",
        Limit::RootFields => "number of root fields",
        Limit::Aliases => "number of aliases",
        Limit::Directives => "number of directives",
        Limit::Height => "height",
        Limit::DistinctRootFields => "number of distinct root fields",
    }
}

fn limit_finding(alloc: Global, exceeded: &Exceeded<'_>) -> Result<Finding, AllocError>
    ensures { IfOk result (λ finding. finding.is_warning ≡ false) }
{
    let words = words_of(exceeded.limit);
    let (value, most) = (exceeded.found, exceeded.most);
    let message = format!(in alloc; "The {words} is {value}, and the limit {most}.")?;
    let name = exceeded.operation.operation_name().unwrap_or("");
    let mut finding = Finding::at(exceeded.operation.site.node, "Limits", message);
    finding.operation = Some(String::from_str(alloc, name)?);
    finding.limit = Some(ExceededLimit {
        limit: exceeded.limit,
        value,
        most,
    });
    Ok(finding)
}

// Adds a limit that is exceeded to the report of the operation's text.
fn add_exceeded(
    alloc: Global,
    exceeded: &Exceeded<'_>,
    most: usize,
    report: &mut Report,
) -> Result<(), AllocError>
    ensures passes { OnOk result (report.new.passes ≡ false) }
    ensures found { OnOk result (IsUnwarned report.old → IsUnwarned report.new) }
{
    if !report.has_room(most) {
        report.count_another();
        return Ok(());
    }
    let finding = limit_finding(alloc, exceeded)?;
    report.add(finding)?;
    Ok(())
}

// Adds an operation to the report of its text, and the first limit that it exceeds, if it exceeds one.
fn add_operation(
    alloc: Global,
    measured: &OperationFigures<'_>,
    checks: &Checks<'_>,
    report: &mut Report,
) -> Result<(), AllocError>
    ensures passes { OnOk result ((report.new.passes ≡ true)
        ↔ ((report.old.passes ≡ true) × All (IsWithin checks.now.most) (as_measure measured.now ∷ []))) }
    ensures found { OnOk result (IsUnwarned report.old → IsUnwarned report.new) }
{
    report.operations.push(operation_report(alloc, measured)?)?;
    if let Err(exceeded) = within(&[*measured], &checks.most) {
        add_exceeded(alloc, &exceeded, checks.findings, report)?;
    }
    Ok(())
}

// Adds operations to the reports of their texts.
fn add_operations(
    alloc: Global,
    operations: &[OperationFigures<'_>],
    documents: &[Document<'_>],
    checks: &Checks<'_>,
    reports: &mut [Report],
) -> Result<(), AllocError>
    requires inside { AreInside documents.now (length reports.old) }
    requires passing { AreClean reports.old }
    ensures { OnOk result
        (AreJudged (HasWithin (numbers_of documents.now) checks.now.most (map as_measure operations.now))
        reports.old reports.new) }
{
    for measured in operations {
        let text = text_of(documents, measured.operation.site.document);
        let report = &mut reports[text];
        add_operation(alloc, measured, checks, report)?;
    }
    Ok(())
}

// Whether something is asked of operations: one is named, or a figure is limited.
fn has_limits(checks: &Checks<'_>) -> bool
    ensures { result ≡ has_limits (as_asked checks.now) }
{
    checks.operation.is_some() || Figures::UNLIMITED.first_exceeded(&checks.most).is_some()
}

// What is found where no operation has the name.
fn unknown_operation(alloc: Global, name: &str) -> Result<Finding, AllocError>
    ensures { IfOk result (λ finding. finding.is_warning ≡ false) }
{
    let message = format!(in alloc; "Unknown operation named \"{name}\".")?;
    let mut finding = Finding::of(0, 0, "KnownOperation", message);
    finding.operation = Some(String::from_str(alloc, name)?);
    Ok(finding)
}

// Judges operations that have these figures.
fn judge_figures(
    alloc: Global,
    operations: &[OperationFigures<'_>],
    documents: &[Document<'_>],
    checks: &Checks<'_>,
    reports: &mut [Report],
) -> Result<(), AllocError>
    requires inside { AreInside documents.now (length reports.old) }
    requires passing { AreClean reports.old }
    ensures within { OnOk result (IsThere (as_asked checks.now) (map as_measure operations.now)
        → AreJudged (HasWithin (numbers_of documents.now) checks.now.most
        (filter (is_chosen (as_asked checks.now).operation) (map as_measure operations.now)))
        reports.old reports.new) }
    ensures missing { OnOk result ((¬ IsThere (as_asked checks.now) (map as_measure operations.now))
        → AreJudged (λ text. text ≢ 0) reports.old reports.new) }
{
    let chosen = chosen(alloc, operations, checks.operation)?;
    if checks.operation.is_some() && chosen.is_empty() {
        let finding = unknown_operation(alloc, checks.operation.unwrap_or(""))?;
        reports[0].add(finding)?;
        return Ok(());
    }
    add_operations(alloc, chosen.as_slice(), documents, checks, reports)
}

// The place of an error, and what is wrong there; or memory was refused.
fn fault_of(error: MeasureError<'_>) -> Result<(Span, &'static str), AllocError>
    ensures { OnOk result (error.entry ≢ Memory) }
{
    match error {
        MeasureError::SameName(_, second) => {
            let range = second.site.node.text_range();
            let span = Span {
                document: second.site.document,
                start: range.start(),
                end: range.end(),
            };
            Ok((span, "An earlier fragment has this name."))
        }
        MeasureError::Cycle(span) => Ok((span, "This spread is part of a cycle.")),
        MeasureError::Undefined(span) => Ok((span, "No fragment has this name.")),
        MeasureError::Memory => Err(AllocError),
    }
}

// Adds why operations have no figures to the report of the text where that is, if something is asked of them.
fn add_fault(
    alloc: Global,
    error: MeasureError<'_>,
    documents: &[Document<'_>],
    checks: &Checks<'_>,
    reports: &mut [Report],
) -> Result<(), AllocError>
    requires inside { AreInside documents.now (length reports.old) }
    requires passing { AreClean reports.old }
    ensures memory { OnOk result (error.entry ≢ Memory) }
    ensures failed { OnOk result (has_limits (as_asked checks.now) ≡ true
        → (k : ℕ) × (k < length reports.new) × AreJudged (λ text. text ≢ k) reports.old reports.new) }
    ensures free { OnOk result (has_limits (as_asked checks.now) ≡ false → reports.new ≡ reports.old) }
{
    let (span, words) = fault_of(error)?;
    if !has_limits(checks) {
        return Ok(());
    }
    let message = String::from_str(alloc, words)?;
    let text = text_of(documents, span.document);
    reports[text].add(Finding::of(span.start, span.end, "Limits", message))?;
    Ok(())
}

/// Judges the operations of documents, whose roots are given too. `judged` is how many of them are judged.
pub(crate) fn judge_operations(
    alloc: Global,
    roots: &[SyntaxNode<'_>],
    documents: &[Document<'_>],
    judged: Option<usize>,
    checks: &Checks<'_>,
    reports: &mut [Report],
) -> Result<(), AllocError>
    requires inside { AreInside documents.now (length reports.old) }
    requires passing { AreClean reports.old }
    requires judged { judged ≡ judged_documents checks.now.judged (numbers_of documents.now) }
    ensures { OnOk result
        (AreMeasured (as_asked checks.now) (map node_place roots.now) (numbers_of documents.now)
        reports.old reports.new) }
{
    let options = MeasureOptions {
        introspection: checks.introspection,
        measured: judged,
    };
    match measure(alloc, roots, &options) {
        Ok(operations) => judge_figures(alloc, operations.as_slice(), documents, checks, reports),
        Err(error) => add_fault(alloc, error, documents, checks, reports),
    }
}
