ghost use Rattle.std.specs.Prelude.{◌≡◌, ◌-◌};

use std::fmt;
use std::marker::Model;

/// A range of a text, in bytes: from the offset `start` up to the offset `end`, which is not before it.
///
/// Contracts see it as the pair of its two offsets.
#[derive(Clone, Copy, PartialEq, Eq)]
pub struct TextRange {
    start: usize,
    end: usize,
}

impl Model for TextRange {
    ghost use Rattle.std.specs.Prelude.{ℕ, ◌≤◌};

    ghost Value = { ℕ × ℕ };

    ghost view = { λ r. (r.start, r.end) };

    ghost invariant = { λ r. r.start ≤ r.end };

    ghost inverse = { λ v. record { start = v.0; end = v.1 } };
}

impl TextRange {
    ghost use Rattle.std.specs.Prelude.{◌≤◌};
    ghost use Rattle.apollo_tree.specs.AtOffset.{meets};

    /// The range from one byte offset up to another.
    pub(crate) fn new(start: usize, end: usize) -> TextRange
        requires { start ≤ end }
        ensures { result ≡ (start, end) }
    {
        TextRange { start, end }
    }

    /// The byte offset at which the range begins.
    pub fn start(self) -> usize
        ensures { result ≡ self.0 }
    {
        self.start
    }

    /// The byte offset of the first byte after the range.
    pub fn end(self) -> usize
        ensures { result ≡ self.1 }
    {
        self.end
    }

    // Whether it has the byte at an offset, or the byte before it.
    pub(crate) fn meets(self, offset: usize) -> bool
        ensures { result ≡ meets offset self }
    {
        self.start < self.end && self.start <= offset && offset <= self.end
    }

    /// How many bytes there are in the range.
    pub fn len(self) -> usize
        ensures { result ≡ self.1 - self.0 }
    {
        self.end - self.start
    }
}

/// The two offsets, as `0..3`.
impl fmt::Debug for TextRange {
    ghost use Rattle.std.specs.Prelude.{◌++◌, Some, codes, decimal};

    ghost debug_output = { λ r. Some (decimal r.0 ++ (codes ".." ++ decimal r.1)) };

    fn fmt<W: fmt::Write>(&self, f: &mut fmt::Formatter<W>) -> fmt::Result {
        let start = self.start;
        let end = self.end;
        write!(f, "{start}..{end}")
    }
}
