// What is said of violations.
ghost use Rattle.std.specs.Prelude.{◌≡◌, ◌≢◌, ◌++◌, ◌∷◌, [], List, IfOk, OnOk, false, length};
ghost use Rattle.validation_names.specs.Sites.{Located, as_located};
ghost use Rattle.document_checks.specs.Documents.{AreClean, AreInside, AreJudged, AreTold, IsFounded, IsUnwarned};
ghost use Rattle.document_checks.specs.Documents.{numbers_of};
ghost use Rattle.document_checks.specs.Passing.{IsWithout, found_sites, violation_sites};
ghost use Rattle.document_checks.specs.declared.report.Report.{Report};

use crate::documents::{Document, text_of};
use crate::report::{Finding, OtherPlace, Report};
use apollo_tree::SyntaxNode;
use document_validation::{Rule, Validation, Violation, message};
use std::alloc::{AllocError, Global};
use validation_names::{Site, name};

/// How many violations are looked for: one more than are reported at most, so that it is known of a thousand whether
/// they are all.
pub(crate) const MOST: usize = 1001;

// What the other party of a violation of a rule is.
fn words_of(rule: Rule) -> &'static str {
    match rule {
        Rule::UniqueArgumentNames | Rule::UniqueInputFieldNames => "first given here",
        Rule::UniqueUnionMemberTypes | Rule::UniqueImplementedInterfaces => "first listed here",
        Rule::LoneAnonymousOperation => "another operation here",
        Rule::NoFragmentCycles => "spread fragment here",
        Rule::NoUndefinedVariables | Rule::NoUnusedVariables => "operation here",
        Rule::UniqueOperationNames
        | Rule::UniqueFragmentNames
        | Rule::UniqueVariableNames
        | Rule::UniqueFieldDefinitionNames
        | Rule::UniqueArgumentDefinitionNames
        | Rule::UniqueEnumValueNames => "first defined here",
        Rule::ExecutableDefinitions | Rule::NoUnusedFragments | Rule::KnownFragmentNames => "here",
    }
}

// The place of the other party, if it is another place.
fn other_place(violation: &Violation<'_>, documents: &[Document<'_>]) -> Option<OtherPlace> {
    let other = violation.other?;
    let range = other.node.text_range();
    let start = violation.site.node.text_range().start();
    if other.document == violation.site.document && range.start() == start {
        return None;
    }
    Some(OtherPlace {
        text: text_of(documents, other.document),
        start: range.start(),
        end: range.end(),
        words: words_of(violation.rule),
    })
}

// The operation that a violation concerns.
fn operation_of<'t>(violation: &Violation<'t>) -> Option<SyntaxNode<'t>> {
    if matches!(
        violation.rule,
        Rule::NoUndefinedVariables | Rule::NoUnusedVariables
    ) {
        violation.other.map(|other| other.node)
    } else {
        None
    }
}

// The finding that a violation is.
fn violation_finding(
    alloc: Global,
    violation: &Violation<'_>,
    documents: &[Document<'_>],
) -> Result<Finding, AllocError>
    ensures { IfOk result (λ finding. finding.is_warning ≡ false) }
{
    let text = message(alloc, violation)?;
    let mut finding = Finding::at(violation.site.node, violation.rule.name(), text);
    finding.other = other_place(violation, documents);
    if let Some(operation) = operation_of(violation) {
        finding.operation = Some(operation_name(alloc, &operation)?);
    }
    Ok(finding)
}

// The name of an operation, which is empty where it has none.
fn operation_name(alloc: Global, operation: &SyntaxNode<'_>) -> Result<String, AllocError> {
    String::from_str(alloc, name(operation).unwrap_or(""))
}

// Adds a violation to the report of its text. Where that has as many findings as are reported, it is counted. It is
// said whether there may be still more.
fn add_violation(
    alloc: Global,
    violation: &Violation<'_>,
    documents: &[Document<'_>],
    most: usize,
    at_least: bool,
    report: &mut Report,
) -> Result<(), AllocError>
    ensures passes { OnOk result (report.new.passes ≡ false) }
    ensures found { OnOk result (IsUnwarned report.old → IsUnwarned report.new) }
{
    report.at_least = at_least;
    if !report.has_room(most) {
        report.count_another();
        return Ok(());
    }
    let finding = violation_finding(alloc, violation, documents)?;
    report.add(finding)?;
    Ok(())
}

// Adds the violations to the reports of their texts, at most `most` findings to each. `at_least` says whether there
// may be still more.
fn add_violations(
    alloc: Global,
    violations: &[Violation<'_>],
    documents: &[Document<'_>],
    most: usize,
    at_least: bool,
    reports: &mut [Report],
) -> Result<(), AllocError>
    requires inside { AreInside documents.now (length reports.old) }
    requires passing { AreClean reports.old }
    ensures { OnOk result (AreJudged (IsWithout (numbers_of documents.now) (violation_sites violations.now))
        reports.old reports.new) }
{
    for violation in violations {
        let text = text_of(documents, violation.site.document);
        let report = &mut reports[text];
        add_violation(alloc, violation, documents, most, at_least, report)?;
    }
    Ok(())
}

// What is found of the operation before which the steps were used up.
fn undecided_finding(alloc: Global, operation: &SyntaxNode<'_>) -> Result<Finding, AllocError>
    ensures { IfOk result (λ finding. finding.is_warning ≡ false) }
{
    let message = match name(operation) {
        Some(name) => format!(in alloc;
            "Too much to validate: the variables of the operation \"{name}\" and of those after it were not judged."
        )?,
        None => format!(in alloc;
            "Too much to validate: the variables of the operation without a name and of those after it were not judged."
        )?,
    };
    let mut finding = Finding::at(*operation, "Steps", message);
    finding.operation = Some(operation_name(alloc, operation)?);
    Ok(finding)
}

// Adds it to the report of its text.
fn add_undecided_to(
    alloc: Global,
    operation: &SyntaxNode<'_>,
    most: usize,
    report: &mut Report,
) -> Result<(), AllocError>
    ensures passes { OnOk result (report.new.passes ≡ false) }
    ensures found { OnOk result (IsUnwarned report.old → IsUnwarned report.new) }
{
    report.at_least = true;
    if !report.has_room(most) {
        report.count_another();
        return Ok(());
    }
    let finding = undecided_finding(alloc, operation)?;
    report.add(finding)?;
    Ok(())
}

// Adds the operation before which the steps were used up to the report of its text, after other places.
fn add_undecided(
    alloc: Global,
    operation: Site<'_>,
    documents: &[Document<'_>],
    most: usize,
    reports: &mut [Report],
) -> Result<(), AllocError>
    requires { AreInside documents.now (length reports.old) }
    ensures { OnOk result ((sites : List Located) (begun : List Report)
        → AreJudged (IsWithout (numbers_of documents.now) sites) begun reports.old
        → AreJudged (IsWithout (numbers_of documents.now) (sites ++ as_located operation.entry ∷ []))
        begun reports.new) }
{
    let text = text_of(documents, operation.document);
    let report = &mut reports[text];
    add_undecided_to(alloc, &operation.node, most, report)?;
    Ok(())
}

/// Adds what a validation found to the reports of their texts, at most `most` findings to each.
pub(crate) fn add_validation(
    alloc: Global,
    validation: &Validation<'_>,
    documents: &[Document<'_>],
    most: usize,
    reports: &mut [Report],
) -> Result<(), AllocError>
    requires inside { AreInside documents.now (length reports.old) }
    requires passing { AreClean reports.old }
    ensures { OnOk result (AreJudged (IsWithout (numbers_of documents.now) (found_sites validation.now))
        reports.old reports.new) }
{
    let violations = validation.violations.as_slice();
    let at_least = violations.len() >= MOST || validation.undecided.is_some();
    add_violations(alloc, violations, documents, most, at_least, reports)?;
    if let Some(operation) = validation.undecided {
        add_undecided(alloc, operation, documents, most, reports)?;
    }
    Ok(())
}

// Adds a violation to the report of its text as a warning, if there is room.
fn add_warning(
    alloc: Global,
    violation: &Violation<'_>,
    documents: &[Document<'_>],
    most: usize,
    report: &mut Report,
) -> Result<(), AllocError>
    ensures passes { OnOk result (report.new.passes ≡ report.old.passes) }
    ensures found { OnOk result (IsFounded report.old → IsFounded report.new) }
    ensures some { OnOk result (report.new.findings.items ≢ []) }
{
    if !report.has_room(most) {
        return Ok(());
    }
    let mut finding = violation_finding(alloc, violation, documents)?;
    finding.is_warning = true;
    report.warn(finding)?;
    Ok(())
}

/// Adds violations to the reports of their texts as warnings, as long as these have at most `most` findings.
pub(crate) fn add_warnings(
    alloc: Global,
    violations: &[Violation<'_>],
    documents: &[Document<'_>],
    most: usize,
    reports: &mut [Report],
) -> Result<(), AllocError>
    requires { AreInside documents.now (length reports.old) }
    ensures { OnOk result
        (AreTold (numbers_of documents.now) (violation_sites violations.now) reports.old reports.new) }
{
    for warning in violations {
        let text = text_of(documents, warning.site.document);
        let report = &mut reports[text];
        add_warning(alloc, warning, documents, most, report)?;
    }
    Ok(())
}
