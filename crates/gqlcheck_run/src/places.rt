// Offsets of a text, and where they are in it.
ghost use Rattle.std.specs.Prelude.{◌≡◌, ◌≤◌, length, min};
ghost use Rattle.marked_lines.specs.Places.{column_number, line_number};
ghost use Rattle.gqlcheck_run.specs.Numbers.{capped};

use line_index::LineIndex;
use std::alloc::Allocator;

/// This byte offset of a text, or its end for one beyond it.
pub fn offset_within(source: &str, offset: usize) -> usize
    ensures value { result ≡ min offset (length source.now) }
    ensures within { result ≤ length source.now }
{
    offset.min(source.len())
}

/// A part of a text, from one byte offset to another.
#[derive(Clone, Copy)]
pub struct Part {
    pub start: usize,
    pub end: usize,
}

/// The part between two byte offsets, as far as the text goes. It is empty where the second comes first.
pub fn part_between(source: &str, start: usize, end: usize) -> Part
    ensures start { result.start ≡ min start (length source.now) }
    ensures in_order { result.start ≤ result.end }
    ensures within { result.end ≤ length source.now }
{
    let start = offset_within(source, start);
    let end = offset_within(source, end);
    Part {
        start,
        end: if start < end { end } else { start },
    }
}

/// The number of the line of a byte offset, from 1 on.
pub fn line_of<A: Allocator>(source: &str, index: &LineIndex<'_, A>, offset: usize) -> usize
    requires index { index.now ≡ source.now }
    requires within { offset ≤ length source.now }
    ensures { result ≡ capped (line_number source.now offset) }
{
    index.line_column(offset).line.saturating_add(1)
}

/// And its column there in characters, from 1 on.
pub fn column_of<A: Allocator>(source: &str, index: &LineIndex<'_, A>, offset: usize) -> usize
    requires index { index.now ≡ source.now }
    requires within { offset ≤ length source.now }
    ensures { result ≡ capped (column_number source.now offset) }
{
    index.column_in_chars(offset).saturating_add(1)
}
