// The line ends of a formatted text.
//
// `with_line_end` writes a text with other line ends, and `keeps_document` says that it is the same formatted text
// otherwise. `first_line_end` says which line end a source has first. Lines are those of the GraphQL specification: LF,
// CR LF and CR end one.
//
// `gqlfmt_run` calls them for `--line-endings`.
ghost use Rattle.std.specs.Prelude.{◌≡◌, ◌*◌, ◌≤◌, ℕ, true, List, IfOk, length, not, string_bytes};
ghost use Rattle.std.specs.List.{prefix_len};
ghost use Rattle.lexical_grammar.specs.Characters.{is_line_terminator};
ghost use Rattle.lexical_grammar.specs.Cut.{Word};
ghost use Rattle.lexical_grammar.specs.Kept.{Holds};
ghost use Rattle.lexical_grammar.specs.Reads.{items_of};
ghost use Rattle.formatter.specs.Comments.{HasSameComments};
ghost use Rattle.formatter.specs.Formatted.{IsFormatted};
ghost use Rattle.formatter.specs.declared.line_ends.LineEnd.{LineEnd as End};
ghost use Rattle.formatter.specs.declared.line_ends.LineEnd.TheVariants as end;
ghost use Rattle.formatter.specs.LineEnds.{HasLineEnd, end_bytes, first_line_end, with_line_end};

use apollo_cst_core::GraphQLLines;
use memchr::memchr;
use std::alloc::{AllocError, Allocator};

/// The end of a line.
#[derive(Clone, Copy)]
pub enum LineEnd {
    /// LF.
    Lf,
    /// CR LF.
    Crlf,
}

impl LineEnd {
    fn text(self) -> &'static str
        ensures { result.now ≡ end_bytes self }
    {
        match self {
            LineEnd::Lf => "\n",
            LineEnd::Crlf => "\r\n",
        }
    }
}

fn is_line_terminator(byte: u8) -> bool
    ensures { result ≡ is_line_terminator byte }
{
    byte == b'\n' || byte == b'\r'
}

// The number of bytes before the first line end.
fn first_line_len(bytes: &[u8]) -> usize
    ensures value { result ≡ prefix_len (λ byte. not (is_line_terminator byte)) bytes.now }
    ensures within { result ≤ length bytes.now }
{
    bytes
        .iter()
        .take_while(|byte| !is_line_terminator(**byte))
        .count()
}

/// CR LF where the first line of a text ends so, or else LF.
pub fn first_line_end(text: &str) -> LineEnd
    ensures { result ≡ first_line_end text.now }
{
    let bytes = text.as_bytes();
    if bytes[first_line_len(bytes)..].starts_with(b"\r\n") {
        LineEnd::Crlf
    } else {
        LineEnd::Lf
    }
}

// The lines of a text with this end between each two.
fn joined_lines<A: Allocator>(alloc: A, text: &str, end: LineEnd) -> Result<String<A>, AllocError>
    ensures lines { IfOk result (λ other. string_bytes other ≡ with_line_end end text.now) }
    ensures short { IfOk result (λ other. length (string_bytes other) ≤ length (end_bytes end) * length text.now) }
{
    let feeds = text.as_bytes().iter().filter(|b| **b == b'\n').count();
    let mut other = String::with_capacity(alloc, text.len().saturating_add(feeds))?;
    let mut lines = GraphQLLines::new(text);
    let first = lines.next().unwrap();
    other.push_str(first)?;
    while let Some(line) = lines.next() {
        other.push_str(end.text())?;
        other.push_str(line)?;
    }
    Ok(other)
}

// Whether each line end of the text is LF.
fn has_line_feeds(text: &str) -> bool
    ensures { result ≡ true → HasLineEnd end.Lf text.now }
{
    memchr(b'\r', text.as_bytes()).is_none()
}

/// The text with this end in place of each of its line ends, which has at most as many bytes for each of its own as the
/// line end has. Where it has no bad text, the new one has as many items. It fails only where memory is refused.
pub fn with_line_end<A: Allocator>(
    alloc: A,
    text: String<A>,
    end: LineEnd,
) -> Result<String<A>, AllocError>
    ensures lines { IfOk result (λ other. string_bytes other ≡ with_line_end end (string_bytes text)) }
    ensures short { IfOk result
        (λ other. length (string_bytes other) ≤ length (end_bytes end) * length (string_bytes text)) }
    ensures items { IfOk result
        (λ other. (words : List Word) → Holds (string_bytes text) words
        → length (items_of (string_bytes other)) ≡ length (items_of (string_bytes text))) }
{
    if end == LineEnd::Lf && has_line_feeds(text.as_str()) {
        return Ok(text);
    }
    let other = joined_lines(alloc, text.as_str(), end)?;
    Ok(other)
}

/// A formatted text stays one when its lines end otherwise: no token comes or goes, and only block strings may be
/// others, with the same values. Then its lines end so.
pub fn keeps_document()
    ensures document { (end : End) (source text : List ℕ) (r k : ℕ) → IsFormatted source r k text
        → IsFormatted source r k (with_line_end end text) }
    ensures comments { (end : End) (source text : List ℕ) → HasSameComments source text
        → HasSameComments source (with_line_end end text) }
    ensures ends { (end : End) (text : List ℕ) → HasLineEnd end (with_line_end end text) }
{}
