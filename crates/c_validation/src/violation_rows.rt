// The violations of a document as rows.
ghost use Rattle.std.specs.Prelude.{◌≡◌, IfOk, map, option_map};
ghost use Rattle.apollo_tree.specs.References.{node_place};
ghost use Rattle.validation_rules.specs.Violations.{as_breach};
ghost use Rattle.c_validation.specs.Rows.{messages, range_of, violation_row, violation_rows};
ghost use Rattle.c_validation.specs.Outcomes.{IsReport, ValidationOutcome, counts_of, limit_of, no_violations};

use crate::documents::read_document;
use crate::items::write;
use crate::rows::{ViolationCounts, ViolationRow, status};
use apollo_parser::{Limits, SyntaxNode};
use document_validation::{Selection, ValidationOptions, Violation, message, validate_with};
use std::alloc::{AllocError, Global};

// The rows of violations, their messages one after another, and the operation before which validation ended.
#[derive(Drop)]
struct Report<'t> {
    rows: Vec<ViolationRow>,
    messages: Vec<u8>,
    undecided: Option<SyntaxNode<'t>>,
}

// Where a node begins and has ended; two zeros for none.
pub(crate) fn range_of(node: Option<SyntaxNode<'_>>) -> (usize, usize)
    ensures { result ≡ range_of (option_map node_place node.entry) }
{
    match node {
        Some(node) => {
            let range = node.text_range();
            (range.start(), range.end())
        }
        None => (0, 0),
    }
}

// The row of a violation with these words, where the messages before it have `message` bytes.
fn row_of(violation: &Violation<'_>, message: usize, words: &str) -> ViolationRow
    ensures { result ≡ violation_row message words.now (as_breach violation.now) }
{
    let range = violation.site.node.text_range();
    let (other_start, other_end) = range_of(violation.other.map(|site| site.node));
    ViolationRow {
        start: range.start(),
        end: range.end(),
        other_start,
        other_end,
        message,
        message_length: words.len(),
        rule: violation.rule.number(),
        has_other: u32::from(violation.other.is_some()),
    }
}

fn report_of<'t>(
    alloc: Global,
    violations: &[Violation<'_>],
    undecided: Option<SyntaxNode<'t>>,
) -> Result<Report<'t>, AllocError>
    ensures rows { IfOk result (λ report. report.rows.items ≡ violation_rows 0 (map as_breach violations.now)) }
    ensures messages { IfOk result (λ report. report.messages.items ≡ messages (map as_breach violations.now)) }
    ensures undecided { IfOk result (λ report. report.undecided ≡ undecided.entry) }
{
    let mut rows = Vec::new(alloc);
    let mut messages = Vec::new(alloc);
    for violation in violations {
        let words = message(alloc, violation)?;
        let said = messages.as_slice().len();
        rows.push(row_of(violation, said, words.as_str()))?;
        messages.extend_from_slice(words.as_bytes())?;
    }
    Ok(Report {
        rows,
        messages,
        undecided,
    })
}

// A number of steps as a limit; the greatest number is no limit.
fn limit_of(steps: usize) -> Option<usize>
    ensures { result ≡ limit_of steps }
{
    if steps == usize::MAX {
        None
    } else {
        Some(steps)
    }
}

// What validation finds in a document, by the root of its tree.
fn find_violations<'t>(
    alloc: Global,
    document: &SyntaxNode<'t>,
    most: usize,
    step_limit: usize,
) -> Result<Report<'t>, AllocError>
    ensures { IfOk result (IsReport most (limit_of step_limit) (node_place document.now)) }
{
    let options = ValidationOptions {
        selection: Selection::everything(),
        most,
        steps: limit_of(step_limit),
    };
    let validation = validate_with(alloc, &[*document], &options)?;
    let undecided = validation.undecided.map(|site| site.node);
    let report = report_of(alloc, validation.violations.as_slice(), undecided)?;
    Ok(report)
}

// The counts for a number of violations, bytes of messages, and the operation before which validation ended.
fn counts_of(
    violations: usize,
    message_bytes: usize,
    undecided: Option<SyntaxNode<'_>>,
) -> ViolationCounts
    ensures { result ≡ counts_of violations message_bytes (option_map node_place undecided.entry) }
{
    let status = match undecided {
        Some(_) => status::UNDECIDED,
        None => status::OK,
    };
    let (undecided_start, undecided_end) = range_of(undecided);
    ViolationCounts {
        violations,
        message_bytes,
        undecided_start,
        undecided_end,
        status,
    }
}

fn refused(status: u32) -> ViolationCounts
    ensures { result ≡ no_violations status }
{
    ViolationCounts {
        violations: 0,
        message_bytes: 0,
        undecided_start: 0,
        undecided_end: 0,
        status,
    }
}

/// Validates a document by the rules for its kind (GraphQL October 2021, section 5; of a document of the type system,
/// rules of section 3 on names that one definition has twice), within both limits of the parser. It writes the rows of
/// the violations, at most `most` of them, and the bytes of their messages, each as far as there is room, and answers
/// how much there is.
///
/// The rules on variables take steps (`variable_rules`), and end before the first operation for which none of
/// `step_limit` are left; `usize::MAX` is no limit. Then the status is `UNDECIDED`, and the counts say where that
/// operation is.
///
/// What it promises is `ValidationOutcome` in `specs/Outcomes.antt`.
pub fn validate_into(
    alloc: Global,
    source: &[u8],
    limits: Limits,
    most: usize,
    step_limit: usize,
    violations: &mut [ViolationRow],
    messages: &mut [u8],
) -> ViolationCounts
    ensures { ValidationOutcome source.now limits.recursion limits.tokens most step_limit
        (record { violations = violations.old; messages = messages.old })
        (record { violations = violations.new; messages = messages.new }) result }
{
    let tree = match read_document(alloc, source, limits) {
        Ok(tree) => tree,
        Err(status) => return refused(status),
    };
    let Ok(report) = find_violations(alloc, &tree.root(), most, step_limit) else {
        return refused(status::NO_MEMORY);
    };
    let rows = report.rows.as_slice();
    let said = report.messages.as_slice();
    write(violations, rows);
    write(messages, said);
    counts_of(rows.len(), said.len(), report.undecided)
}
