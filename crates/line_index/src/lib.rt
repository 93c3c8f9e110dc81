//! The position of a byte of a text: its line, and its column in that line.
//!
//! `LineIndex` reads a text once and keeps where its lines begin. Columns are counted in bytes, in characters or in
//! units of UTF-16, and lines end as GraphQL's line terminators do. All numbers count from 0.
//!
//! The crates above make one `LineIndex` for each text, and call its `line_column` and `position`.
#![tactic(auto)]

ghost use Rattle.std.specs.Prelude.{◌≡◌, ℕ, ◌+◌, ◌^◌, ◌<◌, ◌==◌, ◌&&◌, ◌≤◌, length, slice_index, slice_range, take};
ghost use Rattle.std.specs.Prelude.{drop, IfOk, MatchOption, take_while, not};
ghost use Rattle.std.specs.List.{sum_by};
ghost use Rattle.std.specs.Str.{IsCharBoundary};
ghost use Rattle.lexical_grammar.specs.Characters.{is_line_terminator};
ghost use Rattle.std.specs.List.Sorted.{IsNonDecreasing};
ghost use Rattle.line_index.specs.Lines.{line_at, line_start, line_text};
ghost use Rattle.line_index.specs.Columns.{char_count, utf16_len, begins_character, utf16_units, weight};
ghost use Rattle.line_index.specs.Positions.{units, width, offset_of, IsCursor};
ghost use Rattle.line_index.specs.LineStarts.{AreStarts, IsNextStart};
ghost use Rattle.line_index.specs.Marks.{AreMarks};

mod first_lines;

pub use first_lines::FirstLines;
use memchr::memchr2;
use std::alloc::{AllocError, Allocator, Global};
use std::marker::Model;

/// A position in a text: the number of its line, and its column there in bytes, both from 0.
#[derive(Clone, Copy)]
pub struct LineColumn {
    pub line: usize,
    pub column: usize,
}

// Whether there is a CR LF at an offset.
fn is_cr_lf(bytes: &[u8], offset: usize) -> bool
    requires { offset < length bytes.now }
    ensures { result ≡ (slice_index bytes.now offset == 13 && slice_index bytes.now (offset + 1) == 10) }
{
    bytes[offset] == b'\r' && offset + 1 < bytes.len() && bytes[offset + 1] == b'\n'
}

// Where the next line begins after an offset.
fn next_start(bytes: &[u8], offset: usize) -> Option<usize>
    requires { offset ≤ length bytes.now }
    ensures { MatchOption result (line_at bytes.now (length bytes.now) ≡ line_at bytes.now offset)
        (IsNextStart bytes.now offset) }
{
    let end = offset + memchr2(b'\n', b'\r', &bytes[offset..])?;
    if is_cr_lf(bytes, end) {
        Some(end + 2)
    } else {
        Some(end + 1)
    }
}

// Where all lines begin.
fn line_starts<A: Allocator>(alloc: A, bytes: &[u8]) -> Result<Vec<usize, A>, AllocError>
    ensures { IfOk result (λ starts. AreStarts bytes.now (length bytes.now) starts.items) }
{
    let mut starts = Vec::new(alloc);
    let mut offset = 0;
    starts.push(offset)?;
    while let Some(next) = next_start(bytes, offset) {
        offset = next;
        starts.push(offset)?;
    }
    Ok(starts)
}

// The index of the last of some offsets that is at most the given one.
fn last_up_to(offsets: &[usize], offset: usize) -> usize
    requires some { 0 < length offsets.now }
    requires first { slice_index offsets.now 0 ≤ offset }
    requires ordered { IsNonDecreasing offsets.now }
    ensures within { result < length offsets.now }
    ensures up_to { slice_index offsets.now result ≤ offset }
    ensures last { result + 1 < length offsets.now → offset < slice_index offsets.now (result + 1) }
{
    offsets.partition_point(|p| *p <= offset) - 1
}

fn begins_character(byte: u8) -> bool
    ensures { result ≡ begins_character byte }
{
    byte < 128 || byte > 191
}

fn utf16_units(byte: u8) -> usize
    ensures value { result ≡ utf16_units byte }
    ensures few { result ≤ 2 }
{
    if !begins_character(byte) {
        0
    } else if byte < 240 {
        1
    } else {
        2
    }
}

// What a column counts, other than bytes.
#[derive(Clone, Copy)]
enum Counted {
    Characters,
    Utf16Units,
}

// How much a byte counts: the first one of a character counts for all of it.
fn weight(counted: Counted, byte: u8) -> usize
    ensures value { result ≡ weight counted byte }
    ensures few { result ≤ 2 }
{
    match counted {
        Counted::Characters => usize::from(begins_character(byte)),
        Counted::Utf16Units => utf16_units(byte),
    }
}

// How much a part of a text counts.
fn weight_of(counted: Counted, bytes: &[u8]) -> usize
    requires { sum_by (weight counted) bytes.now < 2 ^ 64 }
    ensures { result ≡ sum_by (weight counted) bytes.now }
{
    bytes.iter().map(|byte| weight(counted, *byte)).sum()
}

// How many bytes lie between two marks.
const STEP: usize = 64;

// How much the text before each multiple of STEP counts. Nothing is kept of a text in ASCII.
fn marks<A: Allocator>(alloc: A, counted: Counted, text: &str) -> Result<Vec<usize, A>, AllocError>
    ensures { IfOk result (λ marks. AreMarks (weight counted) text.now marks.items) }
{
    let mut marks = Vec::new(alloc);
    if text.is_ascii() {
        return Ok(marks);
    }
    let bytes = text.as_bytes();
    let mut total = 0;
    marks.push(total)?;
    for mark in 0..bytes.len() / STEP {
        total += weight_of(counted, &bytes[mark * STEP..mark * STEP + STEP]);
        marks.push(total)?;
    }
    Ok(marks)
}

// How many bytes there are before the one with which the units of UTF-16 exceed the room.
fn fitting(bytes: &[u8], room: usize) -> usize
    ensures within { result ≤ length bytes.now }
    ensures fits { utf16_len (take result bytes.now) ≤ room }
    ensures full { result < length bytes.now
        → room < utf16_len (take result bytes.now) + utf16_units (slice_index bytes.now result) }
{
    let mut left = room;
    for (offset, byte) in bytes.iter().enumerate() {
        let units = utf16_units(*byte);
        if units > left {
            return offset;
        }
        left -= units;
    }
    bytes.len()
}

/// Where the line of a byte offset ends: at the first LF or CR from there on, or else at the end of the text.
pub fn line_end(bytes: &[u8], offset: usize) -> usize
    requires { offset ≤ length bytes.now }
    ensures from { offset ≤ result }
    ensures within { result ≤ length bytes.now }
    ensures line { slice_range bytes.now offset result
        ≡ take_while (λ c. not (is_line_terminator c)) (drop offset bytes.now) }
{
    match memchr2(b'\n', b'\r', &bytes[offset..]) {
        Some(length) => offset + length,
        None => bytes.len(),
    }
}

// What is in front of the first line terminator.
fn first_line(text: &str) -> &str
    ensures { result.now ≡ take_while (λ c. not (is_line_terminator c)) text.now }
{
    match memchr2(b'\n', b'\r', text.as_bytes()) {
        Some(end) => &text[..end],
        None => text,
    }
}

/// The units that the columns of a `Position` count.
#[derive(Clone, Copy)]
pub enum PositionEncoding {
    /// Bytes of UTF-8.
    Utf8,
    /// Units of UTF-16.
    Utf16,
}

/// A position as the Language Server Protocol gives it: the number of its line, and its column there in units of an
/// encoding, both from 0.
#[derive(Clone, Copy)]
pub struct Position {
    pub line: usize,
    pub column: usize,
}

/// The lines of a text, indexed by where they begin. GraphQL's line terminators end them: LF, CR and CR LF. What
/// follows the last of these is a line too, even when it is empty. It takes one number of memory for each line, and two
/// for every 64 bytes unless the text is ASCII.
///
/// The calls take a byte offset in the text, which may be the text's length, and find its line and column in the time
/// of the logarithm of the number of lines. An offset between the CR and the LF of a CR LF is in the line that they
/// end.
#[derive(Drop)]
pub struct LineIndex<'a, A: Allocator = Global> {
    text: &'a str,
    starts: Vec<usize, A>,
    character_marks: Vec<usize, A>,
    utf16_marks: Vec<usize, A>,
}

impl<'a, A: Allocator> Model for LineIndex<'a, A> {
    ghost use Rattle.std.specs.Prelude.{ℕ, List};
    ghost use Rattle.line_index.specs.LineStarts.{IsIndexed};

    ghost Value = { List ℕ };

    ghost view = { λ index. index.text.now };

    ghost invariant = { λ index. IsIndexed index.text.now index.starts.items index.character_marks.items
        index.utf16_marks.items };
}

impl<'a, A: Allocator> LineIndex<'a, A> {
    /// The index of a text. It reads the text once, and fails only where memory is refused.
    pub fn new(alloc: A, text: &'a str) -> Result<Self, AllocError>
    where
        A: Copy,
        ensures { IfOk result (λ index. index ≡ text.now) }
    {
        let starts = line_starts(alloc, text.as_bytes())?;
        let character_marks = marks(alloc, Counted::Characters, text)?;
        let utf16_marks = marks(alloc, Counted::Utf16Units, text)?;
        Ok(LineIndex {
            text,
            starts,
            character_marks,
            utf16_marks,
        })
    }

    /// The byte offset at which a line begins, by its number from 0.
    pub fn line_start(&self, line: usize) -> usize
        requires { line < line_at self.now (length self.now) + 1 }
        ensures within { result ≤ length self.now }
        ensures begins { line_start self.now result ≡ result }
        ensures number { line_at self.now result ≡ line }
    {
        self.starts[line]
    }

    /// The line and the column of a byte offset.
    pub fn line_column(&self, offset: usize) -> LineColumn
        requires { offset ≤ length self.now }
        ensures line { result.line ≡ line_at self.now offset }
        ensures column { line_start self.now offset + result.column ≡ offset }
    {
        let line = last_up_to(self.starts.as_slice(), offset);
        LineColumn {
            line,
            column: offset - self.starts[line],
        }
    }

    /// The column of a byte offset in characters: how many begin in its line before it.
    pub fn column_in_chars(&self, offset: usize) -> usize
        requires { offset ≤ length self.now }
        ensures { result ≡ char_count (slice_range self.now (line_start self.now offset) offset) }
    {
        self.column(Counted::Characters, offset)
    }

    /// The column of a byte offset in units of UTF-16: how many the characters take that begin in its line before it.
    pub fn column_in_utf16(&self, offset: usize) -> usize
        requires { offset ≤ length self.now }
        ensures { result ≡ utf16_len (slice_range self.now (line_start self.now offset) offset) }
    {
        self.column(Counted::Utf16Units, offset)
    }

    // How much counts of the line of a byte offset that is before it.
    fn column(&self, counted: Counted, offset: usize) -> usize
        requires { offset ≤ length self.now }
        ensures { result ≡ sum_by (weight counted) (slice_range self.now (line_start self.now offset) offset) }
    {
        let start = offset - self.line_column(offset).column;
        self.weight_before(counted, offset) - self.weight_before(counted, start)
    }

    fn marks(&self, counted: Counted) -> &[usize]
        ensures { AreMarks (weight counted) self.now result.now }
    {
        match counted {
            Counted::Characters => self.character_marks.as_slice(),
            Counted::Utf16Units => self.utf16_marks.as_slice(),
        }
    }

    // How much counts of the text before a byte offset.
    fn weight_before(&self, counted: Counted, offset: usize) -> usize
        requires { offset ≤ length self.now }
        ensures { result ≡ sum_by (weight counted) (take offset self.now) }
    {
        let marks = self.marks(counted);
        if marks.is_empty() {
            return offset;
        }
        let mark = offset / STEP;
        let rest = &self.text.as_bytes()[mark * STEP..offset];
        marks[mark] + weight_of(counted, rest)
    }

    fn units_before(&self, offset: usize) -> usize
        requires { offset ≤ length self.now }
        ensures { result ≡ utf16_len (take offset self.now) }
    {
        self.weight_before(Counted::Utf16Units, offset)
    }

    /// The position of a byte offset, as the protocol counts columns in this encoding. The client finds the same byte
    /// by it, unless the offset is inside a character or between the CR and the LF of a CR LF.
    pub fn position(&self, encoding: PositionEncoding, offset: usize) -> Position
        requires { offset ≤ length self.now }
        ensures line { result.line ≡ line_at self.now offset }
        ensures column { result.column ≡ width encoding (slice_range self.now (line_start self.now offset) offset) }
        ensures names { IsCursor self.now offset
            → offset_of encoding (units encoding self.now) result ≡ length (units encoding (take offset self.now)) }
    {
        let position = self.line_column(offset);
        let part = &self.text.as_bytes()[offset - position.column..offset];
        let column = match encoding {
            PositionEncoding::Utf8 => part.len(),
            PositionEncoding::Utf16 => self.column_in_utf16(offset),
        };
        Position {
            line: position.line,
            column,
        }
    }

    // The offset in a part of a line at which the units of UTF-16 reach a column, or where a character begins that
    // would exceed it.
    fn column_end(&self, start: usize, end: usize, column: usize) -> usize
        requires short { start + column < end }
        requires within { end ≤ length self.now }
        requires boundary { IsCharBoundary self.now start }
        ensures from { start ≤ result }
        ensures to { result ≤ end }
        ensures fits { utf16_len (slice_range self.now start result) ≤ column }
        ensures full { result < end
            → column < utf16_len (slice_range self.now start result) + utf16_units (slice_index self.now result) }
    {
        let marks = self.marks(Counted::Utf16Units);
        if marks.is_empty() {
            return start + column;
        }
        let bytes = self.text.as_bytes();
        let wanted = self.units_before(start) + column;
        let mark = last_up_to(marks, wanted) * STEP;
        if mark >= end {
            return end;
        }
        let from = mark.max(start);
        let room = wanted - self.units_before(from);
        from + fitting(&bytes[from..end], room)
    }

    /// The byte offset of a position, whose columns are counted in this encoding: always one at which a character
    /// begins or the text ends. A column beyond the end of its line is that end, in front of the line terminator; a
    /// line beyond the last is the end of the text; a column inside a character is where that begins. It takes the time
    /// of the logarithm of the text's length, and of a search for the line's end.
    pub fn offset(&self, encoding: PositionEncoding, position: Position) -> usize
        ensures boundary { IsCharBoundary self.now result }
        ensures position { length (units encoding (take result self.now))
            ≡ offset_of encoding (units encoding self.now) position }
    {
        let bytes = self.text.as_bytes();
        if position.line >= self.starts.len() {
            return bytes.len();
        }
        let start = self.starts[position.line];
        let end = start + self.line_text(start).len();
        if position.column >= end - start {
            return end;
        }
        match encoding {
            PositionEncoding::Utf8 => self.text.floor_char_boundary(start + position.column),
            PositionEncoding::Utf16 => self.column_end(start, end, position.column),
        }
    }

    /// The text of the line that a byte offset is in, without its line terminator.
    pub fn line_text(&self, offset: usize) -> &'a str
        requires { offset ≤ length self.now }
        ensures { result.now ≡ line_text self.now offset }
    {
        let start = offset - self.line_column(offset).column;
        first_line(&self.text[start..])
    }
}
