// What a run does with each text.
ghost use Rattle.std.specs.Prelude.{◌≡◌};
ghost use Rattle.gqlfmt_run.specs.Formatting.{line_end_of, most_of};

use apollo_parser::Limits;
use command_lines::gqlfmt::{LineEndings, Mode};
use formatter::{LineEnd, first_line_end};
use std::alloc::Allocator;

// How many bytes a formatted text may have where no number is said, in all or for each byte of its source, whichever is
// more.
const MOST_OUTPUT: usize = 64 * 1024 * 1024;

const MOST_RATIO: usize = 16;

/// What texts and formatted texts keep to: the parser's limits, how many bytes a formatted text may have, if a number
/// is said, and how its lines end.
#[derive(Clone, Copy)]
pub struct Bounds {
    pub limits: Limits,
    pub most_output: Option<usize>,
    pub line_endings: LineEndings,
}

impl Bounds {
    /// How many bytes the formatted text of a source may have.
    pub fn most_of(self, source: &str) -> usize
        ensures { result ≡ most_of self.most_output source.now }
    {
        match self.most_output {
            Some(most) => most,
            None => source.len().saturating_mul(MOST_RATIO).max(MOST_OUTPUT),
        }
    }

    /// How the lines of the formatted text of a source end.
    pub fn line_end_of(self, source: &str) -> LineEnd
        ensures { result ≡ line_end_of self.line_endings source.now }
    {
        match self.line_endings {
            LineEndings::Lf => LineEnd::Lf,
            LineEndings::Crlf => LineEnd::Crlf,
            LineEndings::Keep => first_line_end(source),
        }
    }
}

/// How texts are formatted: in memory of the allocator, by the formatter, within the bounds; and what is done with one
/// that this changes.
#[derive(Drop)]
pub struct Job<'f, A: Allocator, L> {
    pub alloc: A,
    pub formatter: &'f L,
    pub mode: Mode,
    pub bounds: Bounds,
}
