// What is printed for other programs: an object of JSON a line.
ghost use Rattle.std.specs.Prelude.{◌≡◌, ◌≤◌, [], IfOk, length, min};
ghost use Rattle.marked_lines.specs.Places.{BeginsWith};
ghost use Rattle.command_lines.specs.declared.gqlcheck.Format.TheVariants.{Json};
ghost use Rattle.gqlcheck_run.specs.JsonLines.{Adds, AddsMembers, place_tokens};
ghost use Rattle.gqlcheck_run.specs.Places.{BeginsWithJson};
ghost use Rattle.gqlcheck_run.specs.Rendering.{BeginsAtFirst};

use crate::json_members::{
    close_object, lines_of, object_writer, open_object, put_end, put_flag, put_number, put_text,
};
use crate::others::Others;
use crate::places::{Part, column_of, line_of, offset_within, part_between};
use crate::severity::severity_of;
use document_checks::{ExceededLimit, Finding, Limit, OperationReport, OtherPlace, Report};
use json::Writer;
use line_index::LineIndex;
use std::alloc::{AllocError, Allocator};

/// The name of a member for a figure.
pub fn key_of(limit: Limit) -> &'static str {
    match limit {
        Limit::Depth => "depth",
        Limit::Fields => "fields",
        Limit::RootFields => "rootFields",
        Limit::Aliases => "aliases",
        Limit::Directives => "directives",
        Limit::Height => "height",
        Limit::DistinctRootFields => "distinctRootFields",
    }
}

// The file, and the line and the column in it.
fn put_position<A: Allocator>(
    out: &mut Writer<A>,
    name: &str,
    source: &str,
    index: &LineIndex<'_, A>,
    offset: usize,
) -> Result<(), AllocError>
    requires index { index.now ≡ source.now }
    requires within { offset ≤ length source.now }
    ensures adds { IfOk result (λ _. Adds (place_tokens name.now source.now offset) out.old out.new) }
    ensures members { IfOk result (λ _. AddsMembers out.old out.new) }
{
    put_text(out, "file", name)?;
    put_number(out, "line", line_of(source, index, offset) as u64)?;
    put_number(out, "column", column_of(source, index, offset) as u64)?;
    Ok(())
}

// Where a part ends, and its byte offsets.
#[tactic(auto, using(crate::proofs::Members::both))]
fn put_extent<A: Allocator>(
    out: &mut Writer<A>,
    source: &str,
    index: &LineIndex<'_, A>,
    part: Part,
) -> Result<(), AllocError>
    requires index { index.now ≡ source.now }
    requires within { part.end ≤ length source.now }
    ensures { IfOk result (λ _. AddsMembers out.old out.new) }
{
    put_end(out, source, index, part)?;
    put_number(out, "offset", part.start as u64)?;
    put_number(out, "endOffset", part.end as u64)?;
    Ok(())
}

// The other place of a finding, in the text of this name.
fn put_place_in<A: Allocator>(
    out: &mut Writer<A>,
    name: &str,
    source: &str,
    index: &LineIndex<'_, A>,
    other: OtherPlace,
) -> Result<(), AllocError>
    requires { index.now ≡ source.now }
    ensures { IfOk result (λ _. AddsMembers out.old out.new) }
{
    let part = part_between(source, other.start, other.end);
    open_object(out, "other")?;
    put_position(out, name, source, index, part.start)?;
    put_extent(out, source, index, part)?;
    put_text(out, "message", other.words)?;
    close_object(out)?;
    Ok(())
}

// The other place, if there is one, in the text of this name or in another.
#[tactic(auto, using(crate::proofs::Members::none))]
fn put_other<A: Allocator + Copy>(
    out: &mut Writer<A>,
    others: &Others<'_, A>,
    name: &str,
    source: &str,
    index: &LineIndex<'_, A>,
    other: Option<OtherPlace>,
) -> Result<(), AllocError>
    requires { index.now ≡ source.now }
    ensures { IfOk result (λ _. AddsMembers out.old out.new) }
{
    let Some(other) = other else {
        return Ok(());
    };
    match others.elsewhere(other) {
        Some(input) => {
            let source = input.text.as_str();
            let index = LineIndex::new(others.alloc, source)?;
            put_place_in(out, input.name.as_str(), source, &index, other)
        }
        None => put_place_in(out, name, source, index, other),
    }
}

// The operation, if the finding concerns one.
#[tactic(auto, using(crate::proofs::Members::none))]
fn put_operation<A: Allocator>(out: &mut Writer<A>, finding: &Finding) -> Result<(), AllocError>
    ensures { IfOk result (λ _. AddsMembers out.old out.new) }
{
    match &finding.operation {
        Some(name) => put_text(out, "operation", name.as_str()),
        None => Ok(()),
    }
}

// The limit, if one is exceeded.
fn put_limit<A: Allocator>(
    out: &mut Writer<A>,
    limit: Option<ExceededLimit>,
) -> Result<(), AllocError>
    ensures { IfOk result (λ _. AddsMembers out.old out.new) }
{
    let Some(exceeded) = limit else {
        return Ok(());
    };
    open_object(out, "limit")?;
    put_text(out, "name", key_of(exceeded.limit))?;
    put_number(out, "value", exceeded.value)?;
    put_number(out, "most", exceeded.most)?;
    close_object(out)?;
    Ok(())
}

// What is found.
fn put_finding<A: Allocator + Copy>(
    out: &mut Writer<A>,
    others: &Others<'_, A>,
    name: &str,
    source: &str,
    index: &LineIndex<'_, A>,
    finding: &Finding,
) -> Result<(), AllocError>
    requires { index.now ≡ source.now }
    ensures { IfOk result (λ _. AddsMembers out.old out.new) }
{
    put_text(out, "rule", finding.rule)?;
    put_text(out, "severity", severity_of(finding.is_warning))?;
    put_text(out, "message", finding.message.as_str())?;
    put_other(out, others, name, source, index, finding.other)?;
    put_operation(out, finding)?;
    put_limit(out, finding.limit)?;
    Ok(())
}

// The line of a finding.
fn finding_line<A: Allocator + Copy>(
    lines: Vec<u8, A>,
    others: &Others<'_, A>,
    name: &str,
    source: &str,
    index: &LineIndex<'_, A>,
    finding: &Finding,
) -> Result<Vec<u8, A>, AllocError>
    requires { index.now ≡ source.now }
    ensures grows { IfOk result (λ it. BeginsWith it.items lines.items) }
    ensures first { IfOk result
        (λ it. lines.items ≡ []
        → BeginsWithJson name.now source.now (min finding.now.start (length source.now)) it.items) }
{
    let part = part_between(source, finding.start, finding.end);
    let mut out = object_writer(lines)?;
    put_position(&mut out, name, source, index, part.start)?;
    put_extent(&mut out, source, index, part)?;
    put_finding(&mut out, others, name, source, index, finding)?;
    lines_of(out)
}

// The line that says how many more findings there are.
fn more_line<A: Allocator>(
    lines: Vec<u8, A>,
    name: &str,
    report: &Report,
) -> Result<Vec<u8, A>, AllocError>
    ensures { IfOk result (λ it. BeginsWith it.items lines.items) }
{
    let mut out = object_writer(lines)?;
    put_text(&mut out, "file", name)?;
    put_number(&mut out, "more", report.more as u64)?;
    put_flag(&mut out, "atLeast", report.at_least)?;
    lines_of(out)
}

fn put_figures<A: Allocator>(
    out: &mut Writer<A>,
    operation: &OperationReport,
) -> Result<(), AllocError>
    ensures { IfOk result (λ _. out.new.before ≡ out.old.before) }
{
    out.key("figures")?;
    out.begin_object()?;
    for limit in &Limit::ALL {
        out.key(key_of(*limit))?;
        out.u64(operation.figures.limited_by(*limit))?;
    }
    out.end_object()
}

// The line of an operation's figures.
fn operation_line<A: Allocator>(
    lines: Vec<u8, A>,
    name: &str,
    source: &str,
    index: &LineIndex<'_, A>,
    operation: &OperationReport,
) -> Result<Vec<u8, A>, AllocError>
    requires { index.now ≡ source.now }
    ensures { IfOk result (λ it. BeginsWith it.items lines.items) }
{
    let start = offset_within(source, operation.start);
    let mut out = object_writer(lines)?;
    put_position(&mut out, name, source, index, start)?;
    put_number(&mut out, "offset", start as u64)?;
    put_text(&mut out, "operation", operation.name.as_str())?;
    put_figures(&mut out, operation)?;
    lines_of(out)
}

// A line for each finding.
fn finding_lines<A: Allocator + Copy>(
    others: &Others<'_, A>,
    name: &str,
    source: &str,
    index: &LineIndex<'_, A>,
    findings: &[Finding],
) -> Result<Vec<u8, A>, AllocError>
    requires { index.now ≡ source.now }
    ensures { IfOk result (λ lines. BeginsAtFirst Json name.now source.now findings.now lines.items) }
{
    let mut lines = Vec::new(others.alloc);
    for finding in findings {
        lines = finding_line(lines, others, name, source, index, finding)?;
    }
    Ok(lines)
}

// Adds a line for the figures of each operation.
fn operation_lines<A: Allocator>(
    lines: Vec<u8, A>,
    name: &str,
    source: &str,
    index: &LineIndex<'_, A>,
    operations: &[OperationReport],
) -> Result<Vec<u8, A>, AllocError>
    requires { index.now ≡ source.now }
    ensures { IfOk result (λ it. BeginsWith it.items lines.items) }
{
    let mut lines = lines;
    for operation in operations {
        lines = operation_line(lines, name, source, index, operation)?;
    }
    Ok(lines)
}

/// The report on a text of this name, one of several: a line for each finding, one with the number of those that are
/// left out, if some are, and, if they are wanted, one for the figures of each operation.
pub fn json_lines<A: Allocator + Copy>(
    others: &Others<'_, A>,
    name: &str,
    source: &str,
    report: &Report,
    figures: bool,
) -> Result<Vec<u8, A>, AllocError>
    ensures { IfOk result (λ output. BeginsAtFirst Json name.now source.now report.now.findings.items output.items) }
{
    let index = LineIndex::new(others.alloc, source)?;
    let mut lines = finding_lines(others, name, source, &index, report.findings.as_slice())?;
    if report.more > 0 {
        lines = more_line(lines, name, report)?;
    }
    if figures {
        let operations = report.operations.as_slice();
        lines = operation_lines(lines, name, source, &index, operations)?;
    }
    Ok(lines)
}
