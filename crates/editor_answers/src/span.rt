// A part of a text.
ghost use Rattle.std.specs.Prelude.{◌≡◌, IfSome, IsTrue};

use apollo_tree::TextRange;

/// A part of a text, in bytes: from the offset `start` up to the offset `end`.
#[derive(Clone, Copy)]
pub struct Span {
    pub start: usize,
    pub end: usize,
}

impl Span {
    ghost use Rattle.editor_answers.specs.Parts.{Encloses, Holds, text_in};

    // Whether it has the byte at an offset.
    pub(crate) fn holds(self, offset: usize) -> bool
        ensures { IsTrue result → Holds offset self }
    {
        self.start <= offset && offset < self.end
    }

    // Whether it has all of another part, and more.
    pub(crate) fn is_larger_than(self, part: Span) -> bool
        ensures { IsTrue result → Encloses self part }
    {
        self.start <= part.start
            && part.end <= self.end
            && (self.start < part.start || part.end < self.end)
    }

    // What is in it; `None` where it isn't a part of the text.
    pub(crate) fn text(self, source: &str) -> Option<&str>
        ensures { IfSome result (λ text. text.now ≡ text_in source.now self) }
    {
        source.get(self.start..self.end)
    }
}

/// The part that a range of a tree is.
pub fn span_of(range: TextRange) -> Span
    ensures start { result.start ≡ range.0 }
    ensures end { result.end ≡ range.1 }
{
    Span {
        start: range.start(),
        end: range.end(),
    }
}
