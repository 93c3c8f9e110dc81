// The rules that need the types of a schema.
ghost use Rattle.std.specs.Prelude.{◌≡◌, ◌++◌, List, IfOk, OnOk, false, length, map, take};
ghost use Rattle.apollo_tree.specs.References.{node_place};
ghost use Rattle.validation_names.specs.Sites.{Located};
ghost use Rattle.query_validation.specs.Breaches.{as_breach};
ghost use Rattle.document_checks.specs.Documents.{AreInside, AreJudged, IsUnwarned, numbers_of, root_of};
ghost use Rattle.document_checks.specs.Passing.{IsWithout};
ghost use Rattle.document_checks.specs.Schemas.{AreSchemaSites, judged_of, query_sites};
ghost use Rattle.document_checks.specs.declared.report.Report.{Report};

use crate::documents::{self, Document, documents_before, text_of};
use crate::report::{Checks, Finding, OtherPlace, Report};
use crate::violations::MOST;
use apollo_parser::Parser;
use apollo_tree::SyntaxNode;
use query_validation::{QueryViolation, message, validate};
use std::alloc::{AllocError, Global};
use type_system::{STANDARD, Schema};
use validation_names::Site;

// The first of some items: as many, or all.
fn first<T>(items: &[T], count: usize) -> &[T]
    ensures { result.now ≡ take count items.now }
{
    let (first, _) = items.split_at(count.min(items.len()));
    first
}

// The roots of the documents that are judged.
fn judged_roots<'r, 'd>(roots: &'r [SyntaxNode<'d>], judged: Option<usize>) -> &'r [SyntaxNode<'d>]
    ensures { map node_place result.now ≡ judged_of judged (map node_place roots.now) }
{
    match judged {
        Some(judged) => first(roots, judged),
        None => roots,
    }
}

// The place of a definition in a schema that as many documents make. One of the standard's, which come after them, is
// in no text.
fn place_of_definition(
    definition: Option<Site<'_>>,
    count: usize,
    documents: &[Document<'_>],
) -> Option<OtherPlace> {
    let definition = definition?;
    if count <= definition.document {
        return None;
    }
    let document = documents.get(definition.document)?;
    let range = definition.node.text_range();
    Some(OtherPlace {
        text: document.text,
        start: range.start(),
        end: range.end(),
        words: "defined here",
    })
}

// The finding that a violation is.
fn finding_of(
    alloc: Global,
    schema: &Schema<'_>,
    violation: &QueryViolation<'_, '_>,
    count: usize,
    documents: &[Document<'_>],
) -> Result<Finding, AllocError>
    ensures { IfOk result (λ finding. finding.is_warning ≡ false) }
{
    let text = message(alloc, schema, violation)?;
    let mut finding = Finding::at(violation.site.node, violation.rule.name(), text);
    finding.other = place_of_definition(violation.definition, count, documents);
    Ok(finding)
}

// Adds a violation to the report of its text, or counts it where that has as many findings as are reported. `more` says
// whether there may be still more violations.
fn add_violation(
    alloc: Global,
    schema: &Schema<'_>,
    violation: &QueryViolation<'_, '_>,
    count: usize,
    documents: &[Document<'_>],
    most: usize,
    more: bool,
    report: &mut Report,
) -> Result<(), AllocError>
    ensures passes { OnOk result (report.new.passes ≡ false) }
    ensures found { OnOk result (IsUnwarned report.old → IsUnwarned report.new) }
{
    report.at_least = report.at_least || more;
    if !report.has_room(most) {
        report.count_another();
        return Ok(());
    }
    let finding = finding_of(alloc, schema, violation, count, documents)?;
    report.add(finding)?;
    Ok(())
}

// Adds violations to the reports of their texts, after other places.
fn add_violations(
    alloc: Global,
    schema: &Schema<'_>,
    violations: &[QueryViolation<'_, '_>],
    count: usize,
    documents: &[Document<'_>],
    most: usize,
    reports: &mut [Report],
) -> Result<(), AllocError>
    requires { AreInside documents.now (length reports.old) }
    ensures { OnOk result ((sites : List Located) (begun : List Report)
        → AreJudged (IsWithout (numbers_of documents.now) sites) begun reports.old
        → AreJudged (IsWithout (numbers_of documents.now) (sites ++ query_sites violations.now)) begun reports.new) }
{
    let more = violations.len() >= MOST;
    for violation in violations {
        let text = text_of(documents, violation.site.document);
        let report = &mut reports[text];
        add_violation(
            alloc, schema, violation, count, documents, most, more, report,
        )?;
    }
    Ok(())
}

/// Adds what documents break of the rules that need the types of a schema to the reports of their texts, and tells how
/// many breaches were found. The roots of the documents are given too, and how many of them are judged. Without a
/// schema, there are none.
pub(crate) fn add_by_schema(
    alloc: Global,
    roots: &[SyntaxNode<'_>],
    documents: &[Document<'_>],
    judged: Option<usize>,
    checks: &Checks<'_>,
    reports: &mut [Report],
) -> Result<usize, AllocError>
    requires inside { AreInside documents.now (length reports.old) }
    requires roots { map node_place roots.now ≡ map root_of documents.now }
    ensures { IfOk result (λ count. (found : List Located)
        × AreSchemaSites checks.now.schema judged (map node_place roots.now) (numbers_of documents.now) found
        × (count ≡ length found)
        × ((sites : List Located) (begun : List Report)
        → AreJudged (IsWithout (numbers_of documents.now) sites) begun reports.old
        → AreJudged (IsWithout (numbers_of documents.now) (sites ++ found)) begun reports.new)) }
{
    let Some(texts) = checks.schema else {
        return Ok(0);
    };
    let count = documents_before(documents, texts);
    let standard = Parser::new(STANDARD).parse(alloc)?;
    let mut definitions = documents::roots(alloc, first(documents, count))?;
    definitions.push(standard.root())?;
    let schema = Schema::read(alloc, definitions.as_slice())?;
    let violations = validate(alloc, &schema, judged_roots(roots, judged), MOST)?;
    let violations = violations.as_slice();
    add_violations(
        alloc,
        &schema,
        violations,
        count,
        documents,
        checks.findings,
        reports,
    )?;
    Ok(violations.len())
}
