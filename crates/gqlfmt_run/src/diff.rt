// The changes from one text to another, as a unified diff.
ghost use Rattle.std.specs.Prelude.{◌≡◌, ◌≢◌, ◌≤◌, ◌<◌, [], length, IfOk, string_bytes};
ghost use Rattle.gqlfmt_run.specs.Formatting.{IsDiff};

use crate::edits::{Edit, edits};
use crate::quoted_names::head_name;
use std::alloc::{AllocError, Allocator};

// How many lines are shown before and after an edit.
const CONTEXT: usize = 3;

// The lines of a text, each with its line feed.
fn lines_of<A: Allocator>(alloc: A, text: &str) -> Result<Vec<&str, A>, AllocError> {
    text.split_inclusive('\n').collect(alloc)
}

// A line after a sign.
fn push_line<A: Allocator>(diff: &mut String<A>, sign: char, line: &str) -> Result<(), AllocError> {
    diff.push(sign)?;
    diff.push_str(line)?;
    if line.ends_with('\n') {
        return Ok(());
    }
    diff.push_str("\n\\ No newline at end of file\n")
}

// Lines from an index up to another, each after a sign.
fn push_lines<A: Allocator>(
    diff: &mut String<A>,
    sign: char,
    lines: &[&str],
    start: usize,
    end: usize,
) -> Result<(), AllocError> {
    for line in lines.get(start..end).unwrap_or_default() {
        push_line(diff, sign, line)?;
    }
    Ok(())
}

// The first line of a range, from 1, and how many there are. A range with no lines has the line before it.
fn range(start: usize, end: usize) -> (usize, usize) {
    if start < end {
        (start.saturating_add(1), end.saturating_sub(start))
    } else {
        (start, 0)
    }
}

// The line before a hunk: the ranges of its lines, in the old text and in the new one.
fn push_head<A: Allocator>(
    diff: &mut String<A>,
    first: &Edit,
    last: &Edit,
    start: usize,
    end: usize,
) -> Result<(), AllocError> {
    let lead = first.old_start.saturating_sub(start);
    let tail = end.saturating_sub(last.old_end);
    let (old, old_count) = range(start, end);
    let (new, new_count) = range(
        first.new_start.saturating_sub(lead),
        last.new_end.saturating_add(tail),
    );
    writeln!(diff, "@@ -{old},{old_count} +{new},{new_count} @@")
}

// The lines of one edit, after those from an index on that both texts have.
fn push_edit<A: Allocator>(
    diff: &mut String<A>,
    old: &[&str],
    new: &[&str],
    start: usize,
    edit: &Edit,
) -> Result<(), AllocError> {
    push_lines(diff, ' ', old, start, edit.old_start)?;
    push_lines(diff, '-', old, edit.old_start, edit.old_end)?;
    push_lines(diff, '+', new, edit.new_start, edit.new_end)
}

// The lines of some edits, with those around and between them.
fn push_body<A: Allocator>(
    diff: &mut String<A>,
    old: &[&str],
    new: &[&str],
    hunk: &[Edit],
    start: usize,
    end: usize,
) -> Result<(), AllocError> {
    let mut index = start;
    for edit in hunk {
        push_edit(diff, old, new, index, edit)?;
        index = edit.old_end;
    }
    push_lines(diff, ' ', old, index, end)
}

// One hunk: some edits, with the lines around and between them.
fn push_hunk<A: Allocator>(
    diff: &mut String<A>,
    old: &[&str],
    new: &[&str],
    hunk: &[Edit],
) -> Result<(), AllocError> {
    let (Some(first), Some(last)) = (hunk.first(), hunk.last()) else {
        return Ok(());
    };
    let start = first.old_start.saturating_sub(CONTEXT);
    let end = last.old_end.saturating_add(CONTEXT).min(old.len());
    push_head(diff, first, last, start, end)?;
    push_body(diff, old, new, hunk, start, end)
}

// How many of the edits, at least one, have no more than twice the context between each two.
fn hunk_len(edits: &[Edit]) -> usize
    requires { 0 < length edits.now }
    ensures some { 0 < result }
    ensures within { result ≤ length edits.now }
{
    for i in 1..edits.len() {
        if edits[i].old_start.saturating_sub(edits[i - 1].old_end) > 2 * CONTEXT {
            return i;
        }
    }
    edits.len()
}

// The hunks of some edits, one after the other.
fn hunks_of<A: Allocator>(
    alloc: A,
    old: &[&str],
    new: &[&str],
    edits: &[Edit],
) -> Result<String<A>, AllocError> {
    let mut hunks = String::new(alloc);
    let mut left = edits;
    while !left.is_empty() {
        let (hunk, more) = left.split_at(hunk_len(left));
        push_hunk(&mut hunks, old, new, hunk)?;
        left = more;
    }
    Ok(hunks)
}

// The hunks of the changes from the old text to the new one.
fn changes<A: Allocator + Copy>(alloc: A, old: &str, new: &str) -> Result<String<A>, AllocError> {
    let old = lines_of(alloc, old)?;
    let new = lines_of(alloc, new)?;
    let edits = edits(alloc, old.as_slice(), new.as_slice())?;
    hunks_of(alloc, old.as_slice(), new.as_slice(), edits.as_slice())
}

/// The changes from the old text to the new one, under the name of their file: empty where there are none.
pub fn unified_diff<A: Allocator + Copy>(
    alloc: A,
    name: &str,
    old: &str,
    new: &str,
) -> Result<String<A>, AllocError>
    ensures same { IfOk result (λ diff. old.now ≡ new.now → string_bytes diff ≡ []) }
    ensures other { IfOk result (λ diff. old.now ≢ new.now → IsDiff name.now (string_bytes diff)) }
{
    if old == new {
        return Ok(String::new(alloc));
    }
    let head = head_name(alloc, name)?;
    let hunks = changes(alloc, old, new)?;
    format!(in alloc; "--- {head}\n+++ {head}\n{hunks}")
}
