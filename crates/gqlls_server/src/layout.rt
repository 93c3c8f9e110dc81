// The layout of a document, or of some of its definitions.
ghost use Rattle.std.specs.Prelude.{◌≡◌, IfOk};
ghost use Rattle.std.specs.List.{replace_range};
ghost use Rattle.gqlls_server.specs.Layout.{IsLayoutOf, IsPartLaidOut, IsTextIf};

use apollo_parser::{Limits, SyntaxNode};
use editor_answers::{Span, span_of};
use formatter::{WriteError, format_within, stays_within};
use std::alloc::{AllocError, Global};

// How many bytes a formatted text may have: 64 MB.
const MOST_BYTES: usize = 67_108_864;

/// What comes of a layout.
#[derive(Drop)]
pub(crate) enum Layout {
    /// The new text.
    Text(String),
    /// The text is left as it is: it has errors, or would have more items than the limit allows.
    Left,
    /// The new text would have more than 64 MB.
    TooLong,
}

/// The layout of a document by `formatter`. It fails only where memory is refused.
pub(crate) fn formatted(alloc: Global, source: &str, limits: Limits) -> Result<Layout, AllocError>
    ensures { IfOk result (IsLayoutOf limits source.now) }
{
    match format_within(alloc, source, limits, MOST_BYTES) {
        Ok(Some(text)) => {
            if stays_within(text.as_str(), limits.tokens) {
                Ok(Layout::Text(text))
            } else {
                Ok(Layout::Left)
            }
        }
        Ok(None) => Ok(Layout::Left),
        Err(WriteError::TooLong) => Ok(Layout::TooLong),
        Err(WriteError::Memory) => Err(AllocError),
    }
}

// Whether a part of the text has a byte of another, or is an empty part in it or at its edge.
fn meets(within: Span, span: Span) -> bool {
    if within.start == within.end {
        span.start <= within.start && within.start <= span.end
    } else {
        span.start < within.end && within.start < span.end
    }
}

// The definitions that are at least partly in a part of the text, as one part of it.
fn definitions_within(root: SyntaxNode<'_>, within: Span) -> Option<Span> {
    let mut found: Option<Span> = None;
    for definition in root.children() {
        let span = span_of(definition.text_range());
        if meets(within, span) {
            found = Some(match found {
                Some(first) => Span {
                    start: first.start,
                    end: span.end,
                },
                None => span,
            });
        }
    }
    found
}

// A part of a text without the space at its end.
fn trimmed(source: &str, span: Span) -> Span {
    let part = source.get(span.start..span.end).unwrap_or("");
    Span {
        start: span.start,
        end: span.start.saturating_add(part.trim_end().len()),
    }
}

// A text with another one between two byte offsets, or the text as it is where these are inside characters.
fn replaced(alloc: Global, source: &str, span: Span, new: &str) -> Result<Layout, AllocError>
    ensures { IfOk result (IsTextIf (λ text. text ≡ replace_range source.now span.start span.end new.now)) }
{
    let (Some(front), Some(rest)) = (source.get(..span.start), source.get(span.end..)) else {
        return Ok(Layout::Left);
    };
    let mut text = String::from_str(alloc, front)?;
    text.push_str(new)?;
    text.push_str(rest)?;
    Ok(Layout::Text(text))
}

// A text with the layout of `formatter` between two byte offsets, without the line end after it.
fn format_at(alloc: Global, source: &str, span: Span, limits: Limits) -> Result<Layout, AllocError>
    ensures { IfOk result (IsTextIf (IsPartLaidOut limits source.now)) }
{
    let Some(part) = source.get(span.start..span.end) else {
        return Ok(Layout::Left);
    };
    let text = match formatted(alloc, part, limits)? {
        Layout::Text(text) => text,
        Layout::Left => return Ok(Layout::Left),
        Layout::TooLong => return Ok(Layout::TooLong),
    };
    let Some(text) = text.as_str().strip_suffix("\n") else {
        return Ok(Layout::Left);
    };
    replaced(alloc, source, span, text)
}

/// A text where the definitions that are at least partly in a part of it have the layout of `formatter`, if there are
/// any. It fails only where memory is refused.
pub(crate) fn format_part(
    alloc: Global,
    source: &str,
    root: SyntaxNode<'_>,
    within: Span,
    limits: Limits,
) -> Result<Layout, AllocError>
    ensures { IfOk result (IsTextIf (IsPartLaidOut limits source.now)) }
{
    match definitions_within(root, within) {
        Some(span) => format_at(alloc, source, trimmed(source, span), limits),
        None => Ok(Layout::Left),
    }
}
