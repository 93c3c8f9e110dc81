// Where two texts differ.
ghost use Rattle.std.specs.Prelude.{◌≡◌, ◌≢◌, ◌≤◌, ◌<◌, ◌+◌, IfOk, IsTrue, drop, length, take};
ghost use Rattle.std.specs.Str.{IsCharBoundary};
ghost use Rattle.line_index.specs.Positions.{IsCursor};
ghost use Rattle.editor_text.specs.Finding.{AreEdits, IsStep};

use line_index::line_end;
use std::alloc::{AllocError, Global};

/// A text that takes the place of another's part between two byte offsets.
#[derive(Clone, Copy)]
pub(crate) struct Edit<'n> {
    pub start: usize,
    pub end: usize,
    pub text: &'n str,
}

// Clients make each edit on its own, so after this many the last one has all that is left.
const MOST_EDITS: usize = 10_000;

// For each edit in a line some clients write the whole line, so after this many the next one has all that is left of
// the line.
const MOST_IN_A_LINE: usize = 100;

// Whether a cursor may be at a byte offset: beside a character, and not inside a CR LF.
fn is_cursor(text: &str, offset: usize) -> bool
    ensures { IsTrue result → IsCursor text.now offset }
{
    if !text.is_char_boundary(offset) {
        return false;
    }
    let bytes = text.as_bytes();
    if offset == 0 {
        return true;
    }
    bytes[offset - 1] != b'\r' || bytes.get(offset) != Some(&b'\n')
}

// How many bytes both begin with.
fn common_front(old: &[u8], new: &[u8]) -> usize
    ensures old { result ≤ length old.now }
    ensures new { result ≤ length new.now }
    ensures same { take result old.now ≡ take result new.now }
{
    let end = old.len().min(new.len());
    for i in 0..end {
        if old[i] != new[i] {
            return i;
        }
    }
    end
}

// How many bytes both end with, up to a CR LF of the old text, which stays whole.
fn common_end(old: &[u8], new: &[u8]) -> usize
    ensures old { result ≤ length old.now }
    ensures new { result ≤ length new.now }
{
    let end = old.len().min(new.len());
    for i in 0..end {
        let rest = &old[..old.len() - i];
        if rest.ends_with(b"\r\n") || rest.last() != new[..new.len() - i].last() {
            return i;
        }
    }
    end
}

// How many bytes are in front of the next word.
fn filler_len(text: &[u8]) -> usize
    ensures { result ≤ length text.now }
{
    for i in 0..text.len() {
        if !matches!(text[i], b' ' | b'\t' | b'\r' | b'\n' | b',') {
            return i;
        }
    }
    text.len()
}

// How many bytes to take from the front of both texts: what is between two words, or all where the next words differ.
fn gap(old: &[u8], new: &[u8]) -> (usize, usize)
    ensures old { result.0 ≤ length old.now }
    ensures new { result.1 ≤ length new.now }
{
    let (removed, added) = (filler_len(old), filler_len(new));
    if old.get(removed) != new.get(added) {
        return (old.len(), new.len());
    }
    let same = common_end(&old[..removed], &new[..added]);
    (removed - same, added - same)
}

// From two offsets on, how many bytes are the same, up to where both texts may be cut.
fn same_len(old: &str, new: &str, from: usize, to: usize) -> usize
    requires old { IsCursor old.now from }
    requires new { IsCharBoundary new.now to }
    ensures old { IsCursor old.now (from + result) }
    ensures new { IsCharBoundary new.now (to + result) }
    ensures same { take result (drop from old.now) ≡ take result (drop to new.now) }
{
    let most = common_front(&old.as_bytes()[from..], &new.as_bytes()[to..]);
    for k in (1..=most).rev() {
        if is_cursor(old, from + k) && new.is_char_boundary(to + k) {
            return k;
        }
    }
    0
}

// The next edit, by where it starts and ends in the old text and where its text is in the new one.
#[derive(Clone, Copy)]
struct Step {
    start: usize,
    end: usize,
    text_start: usize,
    text_end: usize,
}

// An edit of all that is left.
fn last_step(old: &str, new: &str, from: usize, to: usize) -> Step
    requires old { IsCursor old.now from }
    requires new { IsCharBoundary new.now to }
    requires differ { drop from old.now ≢ drop to new.now }
    ensures { IsStep old.now new.now from to result }
{
    Step {
        start: from,
        end: old.len(),
        text_start: to,
        text_end: new.len(),
    }
}

// The first edit after two offsets.
fn next_step(old: &str, new: &str, from: usize, to: usize) -> Step
    requires old { IsCursor old.now from }
    requires new { IsCharBoundary new.now to }
    requires differ { drop from old.now ≢ drop to new.now }
    ensures { IsStep old.now new.now from to result }
{
    let same = same_len(old, new, from, to);
    let (start, text_start) = (from + same, to + same);
    let (removed, added) = gap(&old.as_bytes()[start..], &new.as_bytes()[text_start..]);
    let (end, text_end) = (start + removed, text_start + added);
    let advances = from < end || to < text_end;
    if advances && is_cursor(old, end) && new.is_char_boundary(text_end) {
        return Step {
            start,
            end,
            text_start,
            text_end,
        };
    }
    last_step(old, new, from, to)
}

// An edit, and those after it that begin before an offset, as one.
fn joined(old: &str, new: &str, from: usize, to: usize, first: Step, end: usize) -> Step
    requires { IsStep old.now new.now from to first }
    ensures { IsStep old.now new.now from to result }
{
    let mut step = first;
    while step.end < end && old[step.end..] != new[step.text_end..] {
        let next = next_step(old, new, step.end, step.text_end);
        if next.start > end {
            return step;
        }
        step = Step {
            end: next.end,
            text_end: next.text_end,
            ..step
        };
    }
    step
}

// The line of the old text that the last edit begins in: where it ends, and how many edits begin in it.
#[derive(Clone, Copy)]
struct EditedLine {
    end: usize,
    edits: usize,
}

impl EditedLine {
    // The line of the next edit.
    fn after(self, old: &str, next: &Step) -> EditedLine
        requires { next.now.start ≤ length old.now }
    {
        if next.start <= self.end {
            EditedLine {
                edits: self.edits.saturating_add(1),
                ..self
            }
        } else {
            EditedLine {
                end: line_end(old.as_bytes(), next.start),
                edits: 1,
            }
        }
    }
}

// The edit after some others.
fn step_after(old: &str, new: &str, from: usize, to: usize, others: usize, line: EditedLine) -> Step
    requires old { IsCursor old.now from }
    requires new { IsCharBoundary new.now to }
    requires differ { drop from old.now ≢ drop to new.now }
    ensures { IsStep old.now new.now from to result }
{
    if others >= MOST_EDITS {
        return last_step(old, new, from, to);
    }
    let step = next_step(old, new, from, to);
    if line.edits < MOST_IN_A_LINE || step.start > line.end {
        return step;
    }
    joined(old, new, from, to, step, line.end)
}

/// The edits that make a text another one, in their order. Where both have the same words, the edits lie between them.
/// It fails only where memory is refused.
pub(crate) fn edits<'n>(alloc: Global, old: &str, new: &'n str) -> Result<Vec<Edit<'n>>, AllocError>
    ensures { IfOk result (λ edits. AreEdits old.now new.now edits.items) }
{
    let mut edits = Vec::new(alloc);
    let (mut from, mut to) = (0, 0);
    let mut line = EditedLine { end: 0, edits: 0 };
    while old[from..] != new[to..] {
        let step = step_after(old, new, from, to, edits.len(), line);
        edits.push(Edit {
            start: step.start,
            end: step.end,
            text: &new[step.text_start..step.text_end],
        })?;
        line = line.after(old, &step);
        from = step.end;
        to = step.text_end;
    }
    Ok(edits)
}
