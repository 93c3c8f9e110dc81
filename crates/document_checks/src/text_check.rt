// Checking texts: their errors, then the rules, then the limits of their operations, and then what is only told.
ghost use Rattle.std.specs.Prelude.{◌≡◌, ◌↔◌, [], All, IfOk, None, OnOk, length, map, true};
ghost use Rattle.std.specs.List.{list_any};
ghost use Rattle.apollo_tree.specs.References.{node_place};
ghost use Rattle.document_checks.specs.declared.report.Report.{Report};
ghost use Rattle.document_checks.specs.Checking.{PassTogether, as_asked, judged_documents, texts_of};
ghost use Rattle.document_checks.specs.Documents.{AreChecked, AreClean, AreInside, AreJudgedTogether, AreWarned};
ghost use Rattle.document_checks.specs.Documents.{numbers_of, root_of};
ghost use Rattle.document_checks.specs.Findings.{AreReports};
ghost use Rattle.document_checks.specs.Passing.{PassEach};
ghost use Rattle.document_checks.specs.Warnings.{WarnEach};

use crate::documents::{Document, Parsed, all_pass, judged_documents, roots};
use crate::operations::judge_operations;
use crate::report::{Checks, Report};
use crate::schema_rules::add_by_schema;
use crate::violations::{MOST, add_validation, add_warnings};
use apollo_tree::SyntaxNode;
use document_validation::{RuleSet, Selection, Validation, ValidationOptions, validate_with};
use std::alloc::{AllocError, Global};

// What is asked of validation: some rules, in the documents that are judged.
fn options(rules: RuleSet, judged: Option<usize>, steps: Option<usize>) -> ValidationOptions
    ensures { result ≡ record {
      selection = record { rules = rules; judged = judged };
      most = 1001;
      steps = steps;
    } }
{
    ValidationOptions {
        selection: Selection { rules, judged },
        most: MOST,
        steps,
    }
}

// Whether a validation found nothing, and is decided, and as many breaches of other rules were found.
fn finds_nothing(validation: &Validation<'_>, others: usize) -> bool
    ensures { (result ≡ true)
        ↔ ((validation.now.violations.items ≡ []) × (validation.now.undecided ≡ None) × (others ≡ 0)) }
{
    validation.violations.is_empty() && validation.undecided.is_none() && others == 0
}

// Judges documents without errors, whose roots are given too: by the rules, also by those that need a schema, and if
// they keep them, by the limits of their operations. `judged` is how many of them are judged.
fn judge_documents(
    alloc: Global,
    roots: &[SyntaxNode<'_>],
    documents: &[Document<'_>],
    judged: Option<usize>,
    checks: &Checks<'_>,
    reports: &mut [Report],
) -> Result<(), AllocError>
    requires inside { AreInside documents.now (length reports.old) }
    requires passing { AreClean reports.old }
    requires judged { judged ≡ judged_documents checks.now.judged (numbers_of documents.now) }
    requires roots { map node_place roots.now ≡ map root_of documents.now }
    ensures { OnOk result
        (AreJudgedTogether (as_asked checks.now) (map node_place roots.now) (numbers_of documents.now)
        reports.old reports.new) }
{
    let options = options(checks.rules, judged, checks.steps);
    let validation = validate_with(alloc, roots, &options)?;
    add_validation(alloc, &validation, documents, checks.findings, reports)?;
    let by_schema = add_by_schema(alloc, roots, documents, judged, checks, reports)?;
    if finds_nothing(&validation, by_schema) {
        judge_operations(alloc, roots, documents, judged, checks, reports)?;
        return Ok(());
    }
    Ok(())
}

// Whether the set has a rule.
fn has_any(rules: &RuleSet) -> bool
    ensures { result ≡ list_any (λ has. has) rules.now.has }
{
    rules.has.iter().any(|has| *has)
}

// Adds the warnings on documents, whose roots are given too. `judged` is how many of them are judged.
fn warn(
    alloc: Global,
    roots: &[SyntaxNode<'_>],
    documents: &[Document<'_>],
    judged: Option<usize>,
    checks: &Checks<'_>,
    reports: &mut [Report],
) -> Result<(), AllocError>
    requires inside { AreInside documents.now (length reports.old) }
    requires judged { judged ≡ judged_documents checks.now.judged (numbers_of documents.now) }
    ensures { OnOk result
        (AreWarned (as_asked checks.now) (map node_place roots.now) (numbers_of documents.now)
        reports.old reports.new) }
{
    if !has_any(&checks.warnings) {
        return Ok(());
    }
    let options = options(checks.warnings, judged, checks.steps);
    let told = validate_with(alloc, roots, &options)?;
    let violations = told.violations.as_slice();
    add_warnings(alloc, violations, documents, checks.findings, reports)?;
    Ok(())
}

// Judges documents without errors, and adds the warnings.
fn judge(
    alloc: Global,
    documents: &[Document<'_>],
    checks: &Checks<'_>,
    reports: &mut [Report],
) -> Result<(), AllocError>
    requires inside { AreInside documents.now (length reports.old) }
    requires passing { AreClean reports.old }
    ensures { OnOk result
        (AreChecked (as_asked checks.now) (map root_of documents.now) (numbers_of documents.now)
        reports.old reports.new) }
{
    let roots = roots(alloc, documents)?;
    let roots = roots.as_slice();
    let judged = judged_documents(documents, checks.judged);
    judge_documents(alloc, roots, documents, judged, checks, reports)?;
    warn(alloc, roots, documents, judged, checks, reports)?;
    Ok(())
}

/// Checks texts together, and gives a report for each. All of them pass exactly if four things hold:
///
/// - Each is a document within the parser's limits, or has no definition.
/// - The documents keep the chosen rules together, in the texts that are judged. If there is a schema, they keep the
///   rules that need its types, too.
/// - That is decided within the steps that validation may take.
/// - Each operation of the texts that are judged is within the limits, or the one that is named, which has to be there.
///   If no operation is named and no figure is limited, they need no figures.
///
/// Rules are judged where no text has errors, and limits where no rule is broken. So a text does not pass where it has
/// errors; or where no text has any, and one of the first 1001 violations is in it, or the operation before which the
/// steps were used up; or where there are none, and an operation in it exceeds a limit. Where the operation that is
/// named is not there, the first text does not pass. Of a text that does not pass there is a finding; if it has errors,
/// the first finding is where its first error is shown. A finding that is not listed is counted.
///
/// Where no text has errors, violations of the rules that are only told follow, as warnings, with which a text passes.
/// So a text that passes has a finding exactly if one of the first 1001 of them is in it. A warning for which there is
/// no room is left out. It fails only where memory is refused.
pub fn check(
    alloc: Global,
    sources: &[&str],
    checks: &Checks<'_>,
) -> Result<Vec<Report>, AllocError>
    ensures judged { IfOk result (λ reports. All (λ (r : Report). r.passes ≡ true) reports.items
        ↔ PassTogether (as_asked checks.now) (texts_of sources.now)) }
    ensures found { IfOk result (λ reports. AreReports checks.now.limits (texts_of sources.now) reports.items) }
    ensures each { IfOk result (λ reports. PassEach (as_asked checks.now) (texts_of sources.now) reports.items) }
    ensures warned { IfOk result (λ reports. WarnEach (as_asked checks.now) (texts_of sources.now) reports.items) }
{
    if sources.is_empty() {
        return Ok(Vec::new(alloc));
    }
    let Parsed {
        documents,
        mut reports,
    } = Parsed::of(alloc, sources, checks)?;
    if !all_pass(reports.as_slice()) {
        return Ok(reports);
    }
    judge(alloc, documents.as_slice(), checks, reports.as_mut_slice())?;
    Ok(reports)
}

/// What checks texts.
pub trait DocumentChecker {
    /// What is found of texts that are judged together, as the function `check` has it.
    fn check(&self, sources: &[&str], checks: &Checks<'_>) -> Result<Vec<Report>, AllocError>
        ensures judged { IfOk result (λ reports. All (λ (r : Report). r.passes ≡ true) reports.items
            ↔ PassTogether (as_asked checks.now) (texts_of sources.now)) }
        ensures found { IfOk result (λ reports. AreReports checks.now.limits (texts_of sources.now) reports.items) }
        ensures each { IfOk result (λ reports. PassEach (as_asked checks.now) (texts_of sources.now) reports.items) }
        ensures warned { IfOk result
            (λ reports. WarnEach (as_asked checks.now) (texts_of sources.now) reports.items) };
}

/// The function `check`, with its memory.
#[derive(Clone, Copy)]
pub struct Checker {
    pub alloc: Global,
}

impl DocumentChecker for Checker {
    fn check(&self, sources: &[&str], checks: &Checks<'_>) -> Result<Vec<Report>, AllocError> {
        check(self.alloc, sources, checks)
    }
}
