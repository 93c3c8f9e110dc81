// What is printed for people.
ghost use Rattle.std.specs.Prelude.{◌≡◌, ◌≤◌, ◌++◌, IfOk, length, min, string_bytes};
ghost use Rattle.marked_lines.specs.Places.{BeginsWith, place};
ghost use Rattle.command_lines.specs.declared.gqlcheck.Format.TheVariants.{Text};
ghost use Rattle.gqlcheck_run.specs.Rendering.{BeginsAtFirst};
ghost use Rattle.gqlcheck_run.specs.Titles.{title_of};

use crate::others::Others;
use crate::places::{Part, offset_within, part_between};
use crate::severity::words_before_message;
use crate::tally::words_before;
use document_checks::{Figures, Finding, Limit, OperationReport, OtherPlace, Report};
use line_index::LineIndex;
use marked_lines::{Remark, push_escaped, push_message, push_place};
use std::alloc::{AllocError, Allocator};

// The other place of a finding, in the text of this name, and the line of the text with it marked.
fn push_place_in<'t, A: Allocator>(
    text: &mut String<A>,
    name: &str,
    source: &'t str,
    index: &LineIndex<'_, A>,
    other: OtherPlace,
) -> Result<(), AllocError>
    requires { index.now ≡ source.now }
    ensures { IfOk result (λ _. BeginsWith (string_bytes text.new) (string_bytes text.old)) }
{
    let part = part_between(source, other.start, other.end);
    let remark = Remark {
        offset: part.start,
        message: (other.words, "", "", ""),
        marked: source.get(part.start..part.end).unwrap_or(""),
    };
    push_message(text, name, index, &remark)?;
    Ok(())
}

// The other place, if there is one, in the text of this name or in another.
fn push_other<A: Allocator + Copy>(
    text: &mut String<A>,
    others: &Others<'_, A>,
    name: &str,
    source: &str,
    index: &LineIndex<'_, A>,
    other: Option<OtherPlace>,
) -> Result<(), AllocError>
    requires { index.now ≡ source.now }
    ensures { IfOk result (λ _. BeginsWith (string_bytes text.new) (string_bytes text.old)) }
{
    let Some(other) = other else {
        return Ok(());
    };
    match others.elsewhere(other) {
        Some(input) => {
            let source = input.text.as_str();
            let index = LineIndex::new(others.alloc, source)?;
            push_place_in(text, input.name.as_str(), source, &index, other)
        }
        None => push_place_in(text, name, source, index, other),
    }
}

// A message with its rule, and the line of the text with the part marked that it is about.
fn push_marked<'t, A: Allocator>(
    text: &mut String<A>,
    name: &str,
    source: &'t str,
    index: &LineIndex<'_, A>,
    part: Part,
    message: &'t str,
    rule: &'t str,
) -> Result<(), AllocError>
    requires index { index.now ≡ source.now }
    requires within { part.start ≤ length source.now }
    ensures { IfOk result (λ _. BeginsWith (string_bytes text.new)
        (string_bytes text.old ++ place name.now source.now part.start)) }
{
    let remark = Remark {
        offset: part.start,
        message: (message, " [", rule, "]"),
        marked: source.get(part.start..part.end).unwrap_or(""),
    };
    push_message(text, name, index, &remark)?;
    Ok(())
}

// The finding with its rule, and the line of the text with its place marked; then the same of the other place.
#[tactic(auto, using(marked_lines::proofs::Fronts::begins_through))]
fn push_finding<A: Allocator + Copy>(
    text: &mut String<A>,
    others: &Others<'_, A>,
    name: &str,
    source: &str,
    index: &LineIndex<'_, A>,
    finding: &Finding,
) -> Result<(), AllocError>
    requires { index.now ≡ source.now }
    ensures { IfOk result (λ _. BeginsWith (string_bytes text.new)
        (string_bytes text.old ++ place name.now source.now (min finding.now.start (length source.now)))) }
{
    let part = part_between(source, finding.start, finding.end);
    let front = words_before_message(finding.is_warning);
    let words = finding.message.as_str();
    let message = format!(in others.alloc; "{front}{words}")?;
    push_marked(
        text,
        name,
        source,
        index,
        part,
        message.as_str(),
        finding.rule,
    )?;
    push_other(text, others, name, source, index, finding.other)?;
    Ok(())
}

// How many more findings there are, if there are more.
fn push_more<A: Allocator>(
    text: &mut String<A>,
    name: &str,
    report: &Report,
) -> Result<(), AllocError>
    ensures { IfOk result (λ _. BeginsWith (string_bytes text.new) (string_bytes text.old)) }
{
    if report.more == 0 {
        return Ok(());
    }
    let (words, more) = (words_before(report.at_least), report.more);
    push_escaped(text, name)?;
    writeln!(text, ": and {words}{more} more")?;
    Ok(())
}

// The findings, and how many more there are.
fn findings_text<A: Allocator + Copy>(
    others: &Others<'_, A>,
    name: &str,
    source: &str,
    index: &LineIndex<'_, A>,
    report: &Report,
) -> Result<String<A>, AllocError>
    requires { index.now ≡ source.now }
    ensures { IfOk result (λ text. BeginsAtFirst Text name.now source.now report.now.findings.items
        (string_bytes text)) }
{
    let mut text = String::new(others.alloc);
    for finding in &report.findings {
        push_finding(&mut text, others, name, source, index, finding)?;
    }
    push_more(&mut text, name, report)?;
    Ok(text)
}

// The words for a figure.
fn words_of(limit: Limit) -> &'static str {
    match limit {
        Limit::Depth => "depth",
        Limit::Fields => "fields",
        Limit::RootFields => "root fields",
        Limit::Aliases => "aliases",
        Limit::Directives => "directives",
        Limit::Height => "height",
        Limit::DistinctRootFields => "distinct root fields",
    }
}

// What is put before a figure, by its number from 0.
fn sign_before(index: usize) -> &'static str {
    if index == 0 { ":" } else { "," }
}

/// Each figure, after a colon or a comma.
pub fn push_figures<A: Allocator>(text: &mut String<A>, figures: &Figures) -> Result<(), AllocError>
    ensures { IfOk result (λ _. BeginsWith (string_bytes text.new) (string_bytes text.old)) }
{
    for (index, limit) in Limit::ALL.iter().enumerate() {
        let sign = sign_before(index);
        let words = words_of(*limit);
        let figure = figures.limited_by(*limit);
        write!(text, "{sign} {words} {figure}")?;
    }
    text.push('\n')
}

// The title of an operation of this name, which is empty where it has none.
fn title_of(name: &str) -> &str
    ensures { result.now ≡ title_of name.now }
{
    if name.is_empty() {
        "the operation without a name"
    } else {
        name
    }
}

// A line for each operation: its place, its title and its figures.
fn push_operations<A: Allocator>(
    text: &mut String<A>,
    name: &str,
    source: &str,
    index: &LineIndex<'_, A>,
    operations: &[OperationReport],
) -> Result<(), AllocError>
    requires { index.now ≡ source.now }
    ensures { IfOk result (λ _. BeginsWith (string_bytes text.new) (string_bytes text.old)) }
{
    for operation in operations {
        push_place(text, name, index, offset_within(source, operation.start))?;
        text.push_str(title_of(operation.name.as_str()))?;
        push_figures(text, &operation.figures)?;
    }
    Ok(())
}

/// The report on a text of this name, one of several: for each finding a line `NAME:LINE:COLUMN: MESSAGE`, and below it
/// the line of the text with the place marked; then, if they are wanted, a line with the figures of each operation.
pub fn rendered<A: Allocator + Copy>(
    others: &Others<'_, A>,
    name: &str,
    source: &str,
    report: &Report,
    figures: bool,
) -> Result<Vec<u8, A>, AllocError>
    ensures { IfOk result (λ output. BeginsAtFirst Text name.now source.now report.now.findings.items output.items) }
{
    let index = LineIndex::new(others.alloc, source)?;
    let mut text = findings_text(others, name, source, &index, report)?;
    if figures {
        push_operations(
            &mut text,
            name,
            source,
            &index,
            report.operations.as_slice(),
        )?;
    }
    Ok(text.into_bytes())
}
