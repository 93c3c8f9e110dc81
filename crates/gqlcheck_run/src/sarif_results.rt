// The results of a SARIF log (SARIF 2.1.0): one a line.
ghost use Rattle.std.specs.Prelude.{◌≡◌, ◌≤◌, ◌++◌, [], IfOk, codes, length, min, string_bytes};
ghost use Rattle.json.specs.Json.{Members};
ghost use Rattle.marked_lines.specs.Places.{BeginsWith, OfFirst};
ghost use Rattle.command_lines.specs.declared.gqlcheck.Format.TheVariants.{Sarif};
ghost use Rattle.gqlcheck_run.specs.JsonLines.{AddsMember, AddsMembers};
ghost use Rattle.gqlcheck_run.specs.Places.{BeginsWithResult};
ghost use Rattle.gqlcheck_run.specs.Rendering.{BeginsAtFirst};
ghost use Rattle.gqlcheck_run.specs.SarifResults.{artifact_location, artifact_uri, locations, physical_location, plain};
ghost use Rattle.gqlcheck_run.specs.SarifResults.{region, scheme_of, separator};

use crate::json_members::{
    close_list, close_object, lines_of, object_writer, open_list, open_object, put_end, put_number,
    put_text,
};
use crate::others::Others;
use crate::places::{Part, column_of, line_of, part_between};
use crate::severity::severity_of;
use crate::tally::words_before;
use document_checks::{Finding, OtherPlace, Report};
use json::Writer;
use line_index::LineIndex;
use percent_encoding::{AsciiSet, NON_ALPHANUMERIC, ascii_set, percent_encode};
use std::alloc::{AllocError, Allocator};

// The bytes of a path that are escaped: all but the unreserved ones (RFC 3986, section 2.3) and the slash.
const ESCAPED: AsciiSet = ascii_set!(
    NON_ALPHANUMERIC
        .remove(b'-')
        .remove(b'.')
        .remove(b'_')
        .remove(b'~')
        .remove(b'/')
);

// What comes before a path in its URI.
fn scheme_of(path: &[u8]) -> &'static str
    ensures { result.now ≡ scheme_of path.now }
{
    if path.starts_with(b"/") {
        "file://"
    } else {
        ""
    }
}

// A path without `./` before it.
fn plain(path: &[u8]) -> &[u8]
    ensures { result.now ≡ plain path.now }
{
    if path.starts_with(b"./") {
        &path[2..]
    } else {
        path
    }
}

// The URI of a path from the root on, or the reference that another path is.
fn artifact_uri<A: Allocator>(alloc: A, path: &str) -> Result<String<A>, AllocError>
    ensures { IfOk result (λ uri. string_bytes uri ≡ artifact_uri path.now) }
{
    let bytes = path.as_bytes();
    let mut uri = String::from_str(alloc, scheme_of(bytes))?;
    percent_encode(plain(bytes), ESCAPED).append_to(&mut uri)?;
    Ok(uri)
}

// The rest of a region (section 3.30), after its first line and column. The bytes are those of the text as it is read.
#[tactic(auto, using(crate::proofs::Members::both))]
fn put_extent<A: Allocator>(
    out: &mut Writer<A>,
    source: &str,
    index: &LineIndex<'_, A>,
    part: Part,
) -> Result<(), AllocError>
    requires index { index.now ≡ source.now }
    requires in_order { part.start ≤ part.end }
    requires within { part.end ≤ length source.now }
    ensures { IfOk result (λ _. AddsMembers out.old out.new) }
{
    put_end(out, source, index, part)?;
    put_number(out, "byteOffset", part.start as u64)?;
    put_number(out, "byteLength", (part.end - part.start) as u64)?;
    Ok(())
}

// The file at a URI.
fn put_artifact_location<A: Allocator>(out: &mut Writer<A>, uri: &str) -> Result<(), AllocError>
    ensures { IfOk result (λ _. AddsMember (codes "artifactLocation") (artifact_location uri.now) out.old out.new) }
{
    open_object(out, "artifactLocation")?;
    put_text(out, "uri", uri)?;
    close_object(out)?;
    Ok(())
}

// A part of a text.
fn put_region<A: Allocator>(
    out: &mut Writer<A>,
    source: &str,
    index: &LineIndex<'_, A>,
    part: Part,
) -> Result<(), AllocError>
    requires index { index.now ≡ source.now }
    requires in_order { part.start ≤ part.end }
    requires within { part.end ≤ length source.now }
    ensures { IfOk result (λ _. (others : Members)
        × AddsMember (codes "region") (region source.now part.start others) out.old out.new) }
{
    open_object(out, "region")?;
    put_number(out, "startLine", line_of(source, index, part.start) as u64)?;
    put_number(
        out,
        "startColumn",
        column_of(source, index, part.start) as u64,
    )?;
    put_extent(out, source, index, part)?;
    close_object(out)?;
    Ok(())
}

// Both.
fn put_physical_location<A: Allocator>(
    out: &mut Writer<A>,
    uri: &str,
    source: &str,
    index: &LineIndex<'_, A>,
    part: Part,
) -> Result<(), AllocError>
    requires index { index.now ≡ source.now }
    requires in_order { part.start ≤ part.end }
    requires within { part.end ≤ length source.now }
    ensures { IfOk result (λ _. (others : Members)
        × AddsMember (codes "physicalLocation") (physical_location uri.now source.now part.start others)
        out.old out.new) }
{
    open_object(out, "physicalLocation")?;
    put_artifact_location(out, uri)?;
    put_region(out, source, index, part)?;
    close_object(out)?;
    Ok(())
}

// The locations of a result, of which there is one.
fn put_locations<A: Allocator>(
    out: &mut Writer<A>,
    uri: &str,
    source: &str,
    index: &LineIndex<'_, A>,
    part: Part,
) -> Result<(), AllocError>
    requires index { index.now ≡ source.now }
    requires in_order { part.start ≤ part.end }
    requires within { part.end ≤ length source.now }
    ensures { IfOk result (λ _. (others : Members)
        × AddsMember (codes "locations") (locations uri.now source.now part.start others) out.old out.new) }
{
    open_list(out, "locations")?;
    put_physical_location(out, uri, source, index, part)?;
    close_list(out)?;
    Ok(())
}

// A message (section 3.11).
fn put_message<A: Allocator>(out: &mut Writer<A>, text: &str) -> Result<(), AllocError>
    ensures { IfOk result (λ _. AddsMembers out.old out.new) }
{
    open_object(out, "message")?;
    put_text(out, "text", text)?;
    close_object(out)?;
    Ok(())
}

// The other place of a finding, in the file at a URI.
fn put_related_location<A: Allocator>(
    out: &mut Writer<A>,
    uri: &str,
    source: &str,
    index: &LineIndex<'_, A>,
    other: OtherPlace,
) -> Result<(), AllocError>
    requires { index.now ≡ source.now }
    ensures { IfOk result (λ _. AddsMembers out.old out.new) }
{
    let part = part_between(source, other.start, other.end);
    open_list(out, "relatedLocations")?;
    put_physical_location(out, uri, source, index, part)?;
    put_message(out, other.words)?;
    close_list(out)?;
    Ok(())
}

// The other place, if there is one, in that file or in another.
#[tactic(auto, using(crate::proofs::Members::none))]
fn put_related_locations<A: Allocator + Copy>(
    out: &mut Writer<A>,
    others: &Others<'_, A>,
    uri: &str,
    source: &str,
    index: &LineIndex<'_, A>,
    other: Option<OtherPlace>,
) -> Result<(), AllocError>
    requires { index.now ≡ source.now }
    ensures { IfOk result (λ _. AddsMembers out.old out.new) }
{
    let Some(other) = other else {
        return Ok(());
    };
    match others.elsewhere(other) {
        Some(input) => {
            let source = input.text.as_str();
            let index = LineIndex::new(others.alloc, source)?;
            let uri = artifact_uri(others.alloc, input.name.as_str())?;
            put_related_location(out, uri.as_str(), source, &index, other)
        }
        None => put_related_location(out, uri, source, index, other),
    }
}

// The rule, the level and the message of a result.
#[tactic(auto, using(crate::proofs::Members::both))]
fn put_words<A: Allocator>(
    out: &mut Writer<A>,
    rule: &str,
    level: &str,
    message: &str,
) -> Result<(), AllocError>
    ensures { IfOk result (λ _. AddsMembers out.old out.new) }
{
    put_text(out, "ruleId", rule)?;
    put_text(out, "level", level)?;
    put_message(out, message)?;
    Ok(())
}

// The lines, with a comma where another result comes before.
fn separated<A: Allocator>(mut lines: Vec<u8, A>, follows: bool) -> Result<Vec<u8, A>, AllocError>
    ensures { IfOk result (λ it. it.items ≡ lines.items ++ separator follows) }
{
    if follows {
        lines.push(b',')?;
    }
    Ok(lines)
}

// The line of a finding in the file at a URI.
fn finding_line<A: Allocator + Copy>(
    lines: Vec<u8, A>,
    others: &Others<'_, A>,
    follows: bool,
    uri: &str,
    source: &str,
    index: &LineIndex<'_, A>,
    finding: &Finding,
) -> Result<Vec<u8, A>, AllocError>
    requires { index.now ≡ source.now }
    ensures grows { IfOk result (λ it. BeginsWith it.items lines.items) }
    ensures first { IfOk result (λ it. lines.items ≡ []
        → BeginsWithResult uri.now source.now (min finding.now.start (length source.now)) it.items) }
{
    let part = part_between(source, finding.start, finding.end);
    let lines = separated(lines, follows)?;
    let mut out = object_writer(lines)?;
    put_locations(&mut out, uri, source, index, part)?;
    put_words(
        &mut out,
        finding.rule,
        severity_of(finding.is_warning),
        finding.message.as_str(),
    )?;
    put_related_locations(&mut out, others, uri, source, index, finding.other)?;
    lines_of(out)
}

// A line for each finding.
fn finding_lines<A: Allocator + Copy>(
    others: &Others<'_, A>,
    follows: bool,
    uri: &str,
    source: &str,
    index: &LineIndex<'_, A>,
    findings: &[Finding],
) -> Result<Vec<u8, A>, AllocError>
    requires { index.now ≡ source.now }
    ensures { IfOk result (λ lines.
        OfFirst (λ finding. BeginsWithResult uri.now source.now (min finding.start (length source.now)) lines.items)
        findings.now) }
{
    let mut lines = Vec::new(others.alloc);
    let mut follows = follows;
    for finding in findings {
        lines = finding_line(lines, others, follows, uri, source, index, finding)?;
        follows = true;
    }
    Ok(lines)
}

// The line that says how many more findings there are in the file at a URI, at its front.
fn more_line<A: Allocator>(
    lines: Vec<u8, A>,
    uri: &str,
    source: &str,
    index: &LineIndex<'_, A>,
    message: &str,
) -> Result<Vec<u8, A>, AllocError>
    requires { index.now ≡ source.now }
    ensures { IfOk result (λ it. BeginsWith it.items lines.items) }
{
    let part = part_between(source, 0, 0);
    let lines = separated(lines, true)?;
    let mut out = object_writer(lines)?;
    put_locations(&mut out, uri, source, index, part)?;
    put_words(&mut out, "MoreFindings", "note", message)?;
    lines_of(out)
}

// The lines with that one, if there are more.
#[tactic(auto, using(crate::proofs::Beginnings::begins_itself))]
fn with_more<A: Allocator + Copy>(
    alloc: A,
    lines: Vec<u8, A>,
    uri: &str,
    source: &str,
    index: &LineIndex<'_, A>,
    report: &Report,
) -> Result<Vec<u8, A>, AllocError>
    requires { index.now ≡ source.now }
    ensures { IfOk result (λ it. BeginsWith it.items lines.items) }
{
    if report.more == 0 {
        return Ok(lines);
    }
    let (words, more) = (words_before(report.at_least), report.more);
    let message = format!(in alloc; "The text has {words}{more} more findings.")?;
    let lines = more_line(lines, uri, source, index, message.as_str())?;
    Ok(lines)
}

/// The report on a text of this name, one of several: a result for each finding, and one for those that are left out,
/// if some are. If other results come before, each begins with a comma, and else each but the first.
pub fn results<A: Allocator + Copy>(
    others: &Others<'_, A>,
    name: &str,
    source: &str,
    report: &Report,
    follows: bool,
) -> Result<Vec<u8, A>, AllocError>
    ensures { IfOk result (λ output. BeginsAtFirst Sarif name.now source.now report.now.findings.items output.items) }
{
    let index = LineIndex::new(others.alloc, source)?;
    let uri = artifact_uri(others.alloc, name)?;
    let findings = report.findings.as_slice();
    let lines = finding_lines(others, follows, uri.as_str(), source, &index, findings)?;
    let lines = with_more(others.alloc, lines, uri.as_str(), source, &index, report)?;
    Ok(lines)
}
