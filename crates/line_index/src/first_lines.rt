// Where the first lines of a text begin that changes.
ghost use Rattle.std.specs.Prelude.{◌≡◌, ℕ, ◌<◌, ◌≤◌, List, length, take, IfOk, MatchBool};
ghost use Rattle.std.specs.Str.{IsCharBoundary};
ghost use Rattle.line_index.specs.Lines.{line_at, line_start};
ghost use Rattle.line_index.specs.Positions.{units, offset_of};
ghost use Rattle.line_index.specs.LineStarts.{AreFirstStarts};

use crate::{Position, PositionEncoding, first_line, fitting, next_start};
use std::alloc::{AllocError, Global};
use std::marker::Model;

// The byte offset of a column of the line that begins at an offset.
fn offset_in_line(encoding: PositionEncoding, text: &str, start: usize, column: usize) -> usize
    requires within { start ≤ length text.now }
    requires begins { line_start text.now start ≡ start }
    ensures boundary { IsCharBoundary text.now result }
    ensures position { (position : Position) → position.line ≡ line_at text.now start → position.column ≡ column
        → length (units encoding (take result text.now)) ≡ offset_of encoding (units encoding text.now) position }
{
    let end = start + first_line(&text[start..]).len();
    if column >= end - start {
        return end;
    }
    match encoding {
        PositionEncoding::Utf8 => text.floor_char_boundary(start + column),
        PositionEncoding::Utf16 => start + fitting(&text.as_bytes()[start..end], column),
    }
}

/// Where the first lines of a text begin, as far as offsets were looked for. It finds offsets in a text that changes
/// between the calls, and reads what is in front of the change no second time.
#[derive(Drop)]
pub struct FirstLines {
    starts: Vec<usize>,
}

impl Model for FirstLines {
    ghost use Rattle.std.specs.Prelude.{ℕ, List};

    ghost Value = { List ℕ };

    ghost view = { λ lines. lines.starts.items };
}

impl FirstLines {
    /// The first line of any text, which begins at its front. It fails only where memory is refused.
    pub fn new(alloc: Global) -> Result<FirstLines, AllocError>
        ensures { IfOk result (λ lines. (text : List ℕ) → AreFirstStarts text lines) }
    {
        let mut starts = Vec::new(alloc);
        starts.push(0)?;
        Ok(FirstLines { starts })
    }

    // Reads on to where a line begins; whether the text has that line.
    fn reach(&mut self, text: &str, line: usize) -> Result<bool, AllocError>
        requires { AreFirstStarts text.now self.old }
        ensures known { AreFirstStarts text.now self.new }
        ensures reached { IfOk result
            (λ there. MatchBool there (line < length self.new) (line_at text.now (length text.now) < line)) }
    {
        while self.starts.len() <= line {
            let last = self.starts[self.starts.len() - 1];
            let Some(next) = next_start(text.as_bytes(), last) else {
                return Ok(false);
            };
            self.starts.push(next)?;
        }
        Ok(true)
    }

    /// The byte offset of a position in the text, as `LineIndex::offset` has it. It fails only where memory is refused.
    pub fn offset(
        &mut self,
        encoding: PositionEncoding,
        text: &str,
        position: Position,
    ) -> Result<usize, AllocError>
        requires { AreFirstStarts text.now self.old }
        ensures known { AreFirstStarts text.now self.new }
        ensures boundary { IfOk result (IsCharBoundary text.now) }
        ensures position { IfOk result
            (λ offset. length (units encoding (take offset text.now))
            ≡ offset_of encoding (units encoding text.now) position) }
    {
        if !self.reach(text, position.line)? {
            return Ok(text.len());
        }
        let start = self.starts[position.line];
        Ok(offset_in_line(encoding, text, start, position.column))
    }

    /// Forgets the lines that begin at an offset or behind it: the others are those of each text that is the same up to
    /// there.
    pub fn forget_from(&mut self, offset: usize)
        ensures { (old new : List ℕ) → AreFirstStarts old self.old → take offset new ≡ take offset old
            → AreFirstStarts new self.new }
    {
        let known = self
            .starts
            .as_slice()
            .partition_point(|start| *start < offset);
        self.starts.truncate(known.max(1));
    }
}
