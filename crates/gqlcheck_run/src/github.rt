// What is printed for GitHub Actions: a workflow command a line.
ghost use Rattle.std.specs.Prelude.{◌≡◌, ◌≤◌, ◌++◌, IfOk, OnOk, length, min, string_bytes};
ghost use Rattle.marked_lines.specs.Places.{BeginsWith, column_number, line_number};
ghost use Rattle.command_lines.specs.declared.gqlcheck.Format.TheVariants.{Github};
ghost use Rattle.gqlcheck_run.specs.GithubCommands.{command_at, data_byte, message_data, position, property};
ghost use Rattle.gqlcheck_run.specs.GithubCommands.{property_byte};
ghost use Rattle.gqlcheck_run.specs.Numbers.{capped};
ghost use Rattle.gqlcheck_run.specs.Rendering.{BeginsAtFirst};

use crate::others::Others;
use crate::places::{column_of, line_of, offset_within, part_between};
use crate::severity::command_of;
use crate::tally::words_before;
use document_checks::{Finding, OtherPlace, Report};
use line_index::LineIndex;
use std::alloc::{AllocError, Allocator};

// Puts a byte of a message, or its escape.
fn push_data_byte<A: Allocator>(lines: &mut Vec<u8, A>, byte: u8) -> Result<(), AllocError>
    ensures { OnOk result (lines.new.items ≡ lines.old.items ++ data_byte byte) }
{
    match byte {
        b'%' => lines.extend_from_slice(b"%25"),
        b'\r' => lines.extend_from_slice(b"%0D"),
        b'\n' => lines.extend_from_slice(b"%0A"),
        _ => {
            lines.push(byte)?;
            Ok(())
        }
    }
}

// The same in a property's value.
fn push_property_byte<A: Allocator>(lines: &mut Vec<u8, A>, byte: u8) -> Result<(), AllocError>
    ensures { OnOk result (lines.new.items ≡ lines.old.items ++ property_byte byte) }
{
    match byte {
        b':' => lines.extend_from_slice(b"%3A"),
        b',' => lines.extend_from_slice(b"%2C"),
        _ => push_data_byte(lines, byte),
    }
}

// Puts a message.
fn push_data<A: Allocator>(lines: &mut Vec<u8, A>, text: &str) -> Result<(), AllocError>
    ensures { OnOk result (lines.new.items ≡ lines.old.items ++ message_data text.now) }
{
    for byte in text.as_bytes() {
        push_data_byte(lines, *byte)?;
    }
    Ok(())
}

// Puts a property's value.
fn push_property<A: Allocator>(lines: &mut Vec<u8, A>, text: &str) -> Result<(), AllocError>
    ensures { OnOk result (lines.new.items ≡ lines.old.items ++ property text.now) }
{
    for byte in text.as_bytes() {
        push_property_byte(lines, *byte)?;
    }
    Ok(())
}

// The line and the column of a finding, as properties between others.
fn position<A: Allocator>(alloc: A, line: usize, column: usize) -> Result<String<A>, AllocError>
    ensures { IfOk result (λ text. string_bytes text ≡ position line column) }
{
    let mut text = String::new(alloc);
    write!(text, ",line={line},col={column},")?;
    Ok(text)
}

// The command for a finding, with its file, its line and its column.
fn push_command_at<A: Allocator + Copy>(
    alloc: A,
    lines: &mut Vec<u8, A>,
    is_warning: bool,
    name: &str,
    line: usize,
    column: usize,
) -> Result<(), AllocError>
    ensures { OnOk result (lines.new.items ≡ lines.old.items ++ command_at is_warning name.now line column) }
{
    lines.extend_from_slice(command_of(is_warning))?;
    push_property(lines, name)?;
    let position = position(alloc, line, column)?;
    lines.extend_from_slice(position.as_bytes())?;
    Ok(())
}

// Where the finding ends, its rule, and its message.
fn push_message<A: Allocator + Copy>(
    alloc: A,
    lines: &mut Vec<u8, A>,
    source: &str,
    index: &LineIndex<'_, A>,
    end: usize,
    finding: &Finding,
) -> Result<(), AllocError>
    requires index { index.now ≡ source.now }
    requires within { end ≤ length source.now }
    ensures { OnOk result (BeginsWith lines.new.items lines.old.items) }
{
    let (line, column) = (line_of(source, index, end), column_of(source, index, end));
    let position = format!(in alloc; "endLine={line},endColumn={column},title=")?;
    lines.extend_from_slice(position.as_bytes())?;
    push_property(lines, finding.rule)?;
    lines.extend_from_slice(b"::")?;
    push_data(lines, finding.message.as_str())?;
    Ok(())
}

// The other place of a finding, in the text of this name, on a line of its own in the message.
fn push_place_in<A: Allocator + Copy>(
    alloc: A,
    lines: &mut Vec<u8, A>,
    name: &str,
    source: &str,
    index: &LineIndex<'_, A>,
    other: OtherPlace,
) -> Result<(), AllocError>
    requires { index.now ≡ source.now }
    ensures { OnOk result (BeginsWith lines.new.items lines.old.items) }
{
    let start = offset_within(source, other.start);
    let (line, column) = (
        line_of(source, index, start),
        column_of(source, index, start),
    );
    let position = format!(in alloc; ":{line}:{column}: ")?;
    lines.extend_from_slice(b"%0A")?;
    push_data(lines, name)?;
    lines.extend_from_slice(position.as_bytes())?;
    push_data(lines, other.words)?;
    Ok(())
}

// The other place, if there is one, in the text of this name or in another.
fn push_other<A: Allocator + Copy>(
    lines: &mut Vec<u8, A>,
    others: &Others<'_, A>,
    name: &str,
    source: &str,
    index: &LineIndex<'_, A>,
    other: Option<OtherPlace>,
) -> Result<(), AllocError>
    requires { index.now ≡ source.now }
    ensures { OnOk result (BeginsWith lines.new.items lines.old.items) }
{
    let Some(other) = other else {
        return Ok(());
    };
    match others.elsewhere(other) {
        Some(input) => {
            let source = input.text.as_str();
            let index = LineIndex::new(others.alloc, source)?;
            push_place_in(
                others.alloc,
                lines,
                input.name.as_str(),
                source,
                &index,
                other,
            )
        }
        None => push_place_in(others.alloc, lines, name, source, index, other),
    }
}

// The line of a finding.
#[tactic(auto, using(marked_lines::proofs::Fronts::begins_through))]
fn push_finding<A: Allocator + Copy>(
    lines: &mut Vec<u8, A>,
    others: &Others<'_, A>,
    name: &str,
    source: &str,
    index: &LineIndex<'_, A>,
    finding: &Finding,
) -> Result<(), AllocError>
    requires { index.now ≡ source.now }
    ensures { OnOk result (let start = min finding.now.start (length source.now) in
        BeginsWith lines.new.items
        (lines.old.items ++ command_at finding.now.is_warning name.now (capped (line_number source.now start))
        (capped (column_number source.now start)))) }
{
    let part = part_between(source, finding.start, finding.end);
    let line = line_of(source, index, part.start);
    let column = column_of(source, index, part.start);
    push_command_at(others.alloc, lines, finding.is_warning, name, line, column)?;
    push_message(others.alloc, lines, source, index, part.end, finding)?;
    push_other(lines, others, name, source, index, finding.other)?;
    lines.push(b'\n')?;
    Ok(())
}

// A notice of how many more findings there are, if there are more.
fn push_more<A: Allocator + Copy>(
    alloc: A,
    lines: &mut Vec<u8, A>,
    name: &str,
    report: &Report,
) -> Result<(), AllocError>
    ensures { OnOk result (BeginsWith lines.new.items lines.old.items) }
{
    if report.more == 0 {
        return Ok(());
    }
    let (words, more) = (words_before(report.at_least), report.more);
    let notice = format!(in alloc; ",title=gqlcheck::and {words}{more} more\n")?;
    lines.extend_from_slice(b"::notice file=")?;
    push_property(lines, name)?;
    lines.extend_from_slice(notice.as_bytes())?;
    Ok(())
}

/// The report on a text of this name, one of several: a command for each finding, and a notice of those that are left
/// out, if some are.
pub fn commands<A: Allocator + Copy>(
    others: &Others<'_, A>,
    name: &str,
    source: &str,
    report: &Report,
) -> Result<Vec<u8, A>, AllocError>
    ensures { IfOk result (λ output. BeginsAtFirst Github name.now source.now report.now.findings.items output.items) }
{
    let index = LineIndex::new(others.alloc, source)?;
    let mut lines = Vec::new(others.alloc);
    for finding in &report.findings {
        push_finding(&mut lines, others, name, source, &index, finding)?;
    }
    push_more(others.alloc, &mut lines, name, report)?;
    Ok(lines)
}
