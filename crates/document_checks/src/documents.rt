// The texts that are judged together: their trees, and their errors.
ghost use Rattle.std.specs.Prelude.{◌≡◌, ◌↔◌, ◌∷◌, ◌++◌, [], ℕ, List, IfOk, MatchBool, OnOk, true, false, map, take};
ghost use Rattle.apollo_parser.specs.Errors.{error_of};
ghost use Rattle.apollo_tree.specs.References.{node_place};
ghost use Rattle.first_errors.specs.Places.{shown_at};
ghost use Rattle.formatter.specs.Within.{HasCommentsAlone};
ghost use Rattle.document_checks.specs.Checking.{judged_documents, texts_of};
ghost use Rattle.document_checks.specs.Documents.{AllPass, AreErrors, AreParsed, numbers_of, root_of, text_of};
ghost use Rattle.document_checks.specs.Schemas.{documents_before};

use crate::report::{Checks, Finding, Report};
use apollo_parser::{BorrowedError, BorrowedSyntaxTree, DocumentRoot, Limits, Parser};
use apollo_tree::SyntaxNode;
use first_errors::{first_errors, for_people, shown_at};
use formatter::{has_no_definitions, stays_within};
use std::alloc::{AllocError, Global};

/// A text that has a definition, or too many tokens to say so.
#[derive(Drop)]
pub(crate) struct Document<'s> {
    /// The number of the text, from 0.
    pub text: usize,
    /// Its parse.
    pub tree: BorrowedSyntaxTree<'s, DocumentRoot, Global>,
}

/// Some texts as they are parsed.
#[derive(Drop)]
pub(crate) struct Parsed<'s> {
    /// Those that have a definition, in order.
    pub documents: Vec<Document<'s>>,
    /// The errors of each text.
    pub reports: Vec<Report>,
}

/// The number of the text that a document is.
pub(crate) fn text_of(documents: &[Document<'_>], number: usize) -> usize
    ensures { result ≡ text_of documents.now number }
{
    match documents.get(number) {
        Some(document) => document.text,
        None => 0,
    }
}

/// How many documents come before a text, by its number.
pub(crate) fn documents_before(documents: &[Document<'_>], text: usize) -> usize
    ensures { result ≡ documents_before text (numbers_of documents.now) }
{
    let mut count = 0;
    for document in documents {
        if document.text < text {
            count += 1;
        }
    }
    count
}

/// How many documents are judged, where this number of texts is.
pub(crate) fn judged_documents(documents: &[Document<'_>], judged: Option<usize>) -> Option<usize>
    ensures { result ≡ judged_documents judged (numbers_of documents.now) }
{
    Some(documents_before(documents, judged?))
}

// An error, in words for people.
fn finding_of(alloc: Global, source: &str, error: &BorrowedError<'_>) -> Result<Finding, AllocError>
    ensures start { IfOk result (λ finding. finding.start ≡ shown_at source.now (error_of error.now)) }
    ensures error { IfOk result (λ finding. finding.is_warning ≡ false) }
{
    let (words, quoted, end) = error.message_parts();
    let (front, rest) = for_people(words);
    let message = format!(in alloc; "{front}{rest}{quoted}{end}")?;
    Ok(Finding::of_error(error, shown_at(source, error), message))
}

// The report of a text that has these errors, by the root of its tree: of each definition the first, in words for
// people.
fn refused(
    alloc: Global,
    source: &str,
    document: &SyntaxNode<'_>,
    errors: &[BorrowedError<'_>],
    most: usize,
) -> Result<Report, AllocError>
    ensures passes { IfOk result (λ report. report.passes ≡ false) }
    ensures errors { IfOk result (λ report. AreErrors report.findings.items) }
    ensures found { IfOk result
        (λ report. take 1 (map (λ finding. finding.start) report.findings.items)
        ≡ map (shown_at source.now) (take 1 (map error_of errors.now))) }
{
    let first = first_errors(alloc, document, errors, most.max(1))?;
    let mut findings = Vec::new(alloc);
    for error in &first.errors {
        findings.push(finding_of(alloc, source, error)?)?;
    }
    Ok(Report::failed(alloc, findings, first.more))
}

// The report on the errors of a text, by its parse.
fn error_report(
    alloc: Global,
    source: &str,
    tree: &BorrowedSyntaxTree<'_, DocumentRoot, Global>,
    most: usize,
) -> Result<Report, AllocError>
    ensures passes { IfOk result (λ report. (report.passes ≡ true) ↔ (tree.now.errors ≡ [])) }
    ensures errors { IfOk result (λ report. AreErrors report.findings.items) }
    ensures nothing { IfOk result (λ report. report.passes ≡ true → report.findings.items ≡ []) }
    ensures found { IfOk result
        (λ report. take 1 (map (λ finding. finding.start) report.findings.items)
        ≡ map (shown_at source.now) (take 1 tree.now.errors)) }
{
    let errors = tree.errors().as_slice();
    if errors.is_empty() {
        return Ok(Report::of_nothing(alloc));
    }
    let report = refused(alloc, source, &tree.root(), errors, most)?;
    Ok(report)
}

// Whether a text has no definition, and is within the token limit.
fn has_comments_alone(source: &str, limits: &Limits) -> bool
    ensures { MatchBool result (HasCommentsAlone limits.now source.now) (¬ HasCommentsAlone limits.now source.now) }
{
    has_no_definitions(source) && stays_within(source, limits.tokens)
}

impl<'s> Parsed<'s> {
    // Adds a text.
    fn add(&mut self, alloc: Global, source: &'s str, checks: &Checks<'_>) -> Result<(), AllocError>
        ensures { OnOk result ((texts : List (List ℕ))
            → AreParsed checks.now.limits texts self.old.documents.items self.old.reports.items
            → AreParsed checks.now.limits (texts ++ source.now ∷ []) self.new.documents.items self.new.reports.items) }
    {
        if has_comments_alone(source, &checks.limits) {
            self.reports.push(Report::of_nothing(alloc))?;
            return Ok(());
        }
        let text = self.reports.len();
        let tree = Parser::within(source, checks.limits).parse_borrowed(alloc)?;
        let report = error_report(alloc, source, &tree, checks.findings)?;
        self.reports.push(report)?;
        self.documents.push(Document { text, tree })?;
        Ok(())
    }

    /// Parses texts.
    pub(crate) fn of(
        alloc: Global,
        sources: &[&'s str],
        checks: &Checks<'_>,
    ) -> Result<Parsed<'s>, AllocError>
        ensures { IfOk result (λ parsed. AreParsed checks.now.limits (texts_of sources.now) parsed.documents.items
            parsed.reports.items) }
    {
        let mut parsed = Parsed {
            documents: Vec::new(alloc),
            reports: Vec::new(alloc),
        };
        for source in sources {
            parsed.add(alloc, source, checks)?;
        }
        Ok(parsed)
    }
}

/// Whether all texts pass.
pub(crate) fn all_pass(reports: &[Report]) -> bool
    ensures { (result ≡ true) ↔ AllPass reports.now }
{
    for report in reports {
        if !report.passes {
            return false;
        }
    }
    true
}

/// The roots of documents.
pub(crate) fn roots<'t>(
    alloc: Global,
    documents: &'t [Document<'_>],
) -> Result<Vec<SyntaxNode<'t>>, AllocError>
    ensures { IfOk result (λ roots. map node_place roots.items ≡ map root_of documents.now) }
{
    let mut roots = Vec::new(alloc);
    for document in documents {
        roots.push(document.tree.root())?;
    }
    Ok(roots)
}
