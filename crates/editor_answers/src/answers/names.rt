// Names as the protocol answers them: their definitions, their uses and what is said of them.
ghost use Rattle.std.specs.Prelude.{◌≡◌, ◌++◌, IfOk, OnOk, flat_map};
ghost use Rattle.json.specs.Tree.{HasNumbers};
ghost use Rattle.json.specs.Value.{value_view};
ghost use Rattle.rpc_messages.specs.Messages.{IsAnswer};
ghost use Rattle.rpc_messages.specs.Pieces.{tokens_of};
ghost use Rattle.editor_answers.specs.Results.{change_tokens, location_tokens, mark_tokens};

use crate::answers::ranges::push_range;
use crate::hovers::{description_of, heading_of, hover_at};
use crate::labels::identifier_at;
use crate::span::{Span, span_of};
use apollo_tree::SyntaxNode;
use editor_diagnostics::Positions;
use json::Value;
use rpc_messages::{Piece, answer};
use std::alloc::{AllocError, Global};

/// Adds a location in a document. It fails only where memory is refused.
pub fn push_location<'p>(
    pieces: &mut Vec<Piece<'p>>,
    positions: &Positions<'_>,
    uri: &'p str,
    span: Span,
) -> Result<(), AllocError>
    ensures { OnOk result (flat_map tokens_of pieces.new.items ≡ flat_map tokens_of pieces.old.items
        ++ location_tokens positions.now.encoding positions.now.text.now uri.now span) }
{
    pieces.extend_from_slice(&[Piece::Object, Piece::Key("uri"), Piece::Text(uri)])?;
    push_range(pieces, positions, "range", span)?;
    pieces.extend_from_slice(&[Piece::EndObject])?;
    Ok(())
}

/// Adds locations in a document, without the brackets of their list. It fails only where memory is refused.
pub fn push_locations<'p>(
    pieces: &mut Vec<Piece<'p>>,
    positions: &Positions<'_>,
    uri: &'p str,
    found: &[Span],
) -> Result<(), AllocError>
    ensures { OnOk result (flat_map tokens_of pieces.new.items ≡ flat_map tokens_of pieces.old.items
        ++ flat_map (location_tokens positions.now.encoding positions.now.text.now uri.now) found.now) }
{
    for span in found {
        push_location(pieces, positions, uri, *span)?;
    }
    Ok(())
}

// Adds a mark of a part of the text.
fn push_mark(
    pieces: &mut Vec<Piece<'_>>,
    positions: &Positions<'_>,
    span: Span,
) -> Result<(), AllocError>
    ensures { OnOk result (flat_map tokens_of pieces.new.items ≡ flat_map tokens_of pieces.old.items
        ++ mark_tokens positions.now.encoding positions.now.text.now span) }
{
    pieces.extend_from_slice(&[Piece::Object])?;
    push_range(pieces, positions, "range", span)?;
    pieces.extend_from_slice(&[Piece::EndObject])?;
    Ok(())
}

/// Adds marks of parts of the text, without the brackets of their list. It fails only where memory is refused.
pub fn push_marks(
    pieces: &mut Vec<Piece<'_>>,
    positions: &Positions<'_>,
    found: &[Span],
) -> Result<(), AllocError>
    ensures { OnOk result (flat_map tokens_of pieces.new.items ≡ flat_map tokens_of pieces.old.items
        ++ flat_map (mark_tokens positions.now.encoding positions.now.text.now) found.now) }
{
    for span in found {
        push_mark(pieces, positions, *span)?;
    }
    Ok(())
}

// Adds a change of a part of the text to a name.
fn push_change<'p>(
    pieces: &mut Vec<Piece<'p>>,
    positions: &Positions<'_>,
    span: Span,
    name: &'p str,
) -> Result<(), AllocError>
    ensures { OnOk result (flat_map tokens_of pieces.new.items ≡ flat_map tokens_of pieces.old.items
        ++ change_tokens positions.now.encoding positions.now.text.now name.now span) }
{
    pieces.extend_from_slice(&[Piece::Object])?;
    push_range(pieces, positions, "range", span)?;
    pieces.extend_from_slice(&[Piece::Key("newText"), Piece::Text(name), Piece::EndObject])?;
    Ok(())
}

/// Adds changes, each of a part of the text to a name, without the brackets of their list. It fails only where memory
/// is refused.
pub fn push_changes<'p>(
    pieces: &mut Vec<Piece<'p>>,
    positions: &Positions<'_>,
    found: &[Span],
    name: &'p str,
) -> Result<(), AllocError>
    ensures { OnOk result (flat_map tokens_of pieces.new.items ≡ flat_map tokens_of pieces.old.items
        ++ flat_map (change_tokens positions.now.encoding positions.now.text.now name.now) found.now) }
{
    for span in found {
        push_change(pieces, positions, *span, name)?;
    }
    Ok(())
}

/// How what is shown of a name is written: `MarkupKind`.
#[derive(Clone, Copy)]
pub enum Markup {
    Markdown,
    PlainText,
}

impl Markup {
    // The protocol's name of it.
    fn name(self) -> &'static str {
        match self {
            Markup::Markdown => "markdown",
            Markup::PlainText => "plaintext",
        }
    }

    // What is shown of a definition.
    fn text(self, alloc: Global, heading: &str, description: &str) -> Result<String, AllocError> {
        match self {
            Markup::Markdown => { format!(in alloc; "```graphql\n{heading}\n```\n\n{description}") }
            Markup::PlainText if description.is_empty() => String::from_str(alloc, heading),
            Markup::PlainText => format!(in alloc; "{heading}\n\n{description}"),
        }
    }
}

/// Another document that defines a name: its text, the root of its tree, and a byte offset where the name is.
#[derive(Clone, Copy)]
pub struct Elsewhere<'t> {
    pub source: &'t str,
    pub root: SyntaxNode<'t>,
    pub offset: usize,
}

// What a document says of the name at a byte offset, and where the name is.
fn said_at(
    alloc: Global,
    markup: Markup,
    source: &str,
    root: SyntaxNode<'_>,
    offset: usize,
) -> Result<Option<(Span, String)>, AllocError> {
    let Some(found) = hover_at(root, offset) else {
        return Ok(None);
    };
    let description = description_of(alloc, found.definition)?;
    let heading = heading_of(source, found.definition);
    let text = markup.text(alloc, heading, description.as_str())?;
    Ok(Some((found.span, text)))
}

// What another document says of the name at a byte offset of this one, and where the name is.
fn said_elsewhere(
    alloc: Global,
    markup: Markup,
    root: SyntaxNode<'_>,
    offset: usize,
    elsewhere: Elsewhere<'_>,
) -> Result<Option<(Span, String)>, AllocError> {
    let Some(leaf) = identifier_at(root, offset) else {
        return Ok(None);
    };
    match said_at(
        alloc,
        markup,
        elsewhere.source,
        elsewhere.root,
        elsewhere.offset,
    )? {
        Some((_, text)) => Ok(Some((span_of(leaf.text_range()), text))),
        None => Ok(None),
    }
}

// What is said of the name at a byte offset, and where the name is: by the document, or by another.
fn said(
    alloc: Global,
    markup: Markup,
    source: &str,
    root: SyntaxNode<'_>,
    offset: usize,
    elsewhere: Option<Elsewhere<'_>>,
) -> Result<Option<(Span, String)>, AllocError> {
    if let Some(found) = said_at(alloc, markup, source, root, offset)? {
        return Ok(Some(found));
    }
    match elsewhere {
        Some(elsewhere) => said_elsewhere(alloc, markup, root, offset, elsewhere),
        None => Ok(None),
    }
}

// Adds a text that is shown for a part of the document.
fn push_shown<'p>(
    pieces: &mut Vec<Piece<'p>>,
    positions: &Positions<'_>,
    span: Span,
    markup: Markup,
    text: &'p str,
) -> Result<(), AllocError> {
    pieces.extend_from_slice(&[
        Piece::Object,
        Piece::Key("contents"),
        Piece::Object,
        Piece::Key("kind"),
        Piece::Text(markup.name()),
        Piece::Key("value"),
        Piece::Text(text),
        Piece::EndObject,
    ])?;
    push_range(pieces, positions, "range", span)?;
    pieces.extend_from_slice(&[Piece::EndObject])
}

/// The answer to hover: what the document says of the name at a byte offset, or else another one that defines it, in a
/// markup; or null. It fails only where memory is refused.
pub fn answer_hover(
    alloc: Global,
    id: &Value<'_>,
    root: SyntaxNode<'_>,
    positions: &Positions<'_>,
    offset: usize,
    elsewhere: Option<Elsewhere<'_>>,
    markup: Markup,
) -> Result<Vec<u8>, AllocError>
    requires { HasNumbers (value_view id.now) }
    ensures { IfOk result (λ body. IsAnswer (value_view id.now) body.items) }
{
    let Some((span, text)) = said(alloc, markup, positions.text, root, offset, elsewhere)? else {
        return answer(alloc, id, &[Piece::Null]);
    };
    let mut pieces = Vec::new(alloc);
    push_shown(&mut pieces, positions, span, markup, text.as_str())?;
    answer(alloc, id, pieces.as_slice())
}
