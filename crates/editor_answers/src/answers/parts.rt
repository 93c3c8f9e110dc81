// Folds and selections as the protocol answers them.
use crate::answers::ranges::push_range;
use crate::folds::fold_of;
use crate::selections::selection;
use crate::span::Span;
use apollo_tree::{SyntaxKind, SyntaxNode};
use editor_diagnostics::Positions;
use rpc_messages::Piece;
use std::alloc::{AllocError, Global};

const COMMENT_END: [Piece<'static>; 3] = [
    Piece::Key("kind"),
    Piece::Text("comment"),
    Piece::EndObject,
];

// How a fold ends.
fn fold_end(is_comment: bool) -> &'static [Piece<'static>] {
    if is_comment {
        &COMMENT_END
    } else {
        &[Piece::EndObject]
    }
}

// Adds a fold, unless it is in one line. The closing bracket stays in sight.
fn push_fold(
    pieces: &mut Vec<Piece<'_>>,
    positions: &Positions<'_>,
    span: Span,
    is_comment: bool,
) -> Result<(), AllocError> {
    let first = positions.position(span.start).line;
    let end = positions.position(span.end).line;
    let last = if is_comment {
        end
    } else {
        end.saturating_sub(1)
    };
    if first >= last {
        return Ok(());
    }
    pieces.extend_from_slice(&[
        Piece::Object,
        Piece::Key("startLine"),
        Piece::Count(first),
        Piece::Key("endLine"),
        Piece::Count(last),
    ])?;
    pieces.extend_from_slice(fold_end(is_comment))
}

/// Adds the result of foldingRange: the folds of more than one line, in the order of the text. A description is a
/// comment, and what else is folded is in brackets. It fails only where memory is refused.
pub fn push_folds(
    pieces: &mut Vec<Piece<'_>>,
    root: SyntaxNode<'_>,
    positions: &Positions<'_>,
) -> Result<(), AllocError> {
    pieces.extend_from_slice(&[Piece::Array])?;
    for node in root.descendants() {
        if let Some(span) = fold_of(node) {
            push_fold(
                pieces,
                positions,
                span,
                node.kind().is(SyntaxKind::DESCRIPTION),
            )?;
        }
    }
    pieces.extend_from_slice(&[Piece::EndArray])
}

// Adds parts, each with the next one as its parent.
fn push_parts(
    pieces: &mut Vec<Piece<'_>>,
    positions: &Positions<'_>,
    parts: &[Span],
) -> Result<(), AllocError> {
    let mut front: &'static [Piece<'static>] = &[Piece::Object];
    for part in parts {
        pieces.extend_from_slice(front)?;
        push_range(pieces, positions, "range", *part)?;
        front = &[Piece::Key("parent"), Piece::Object];
    }
    let ended = pieces.len().saturating_add(parts.len());
    pieces.resize(ended, Piece::EndObject)
}

// Adds the parts around an offset, the smallest first. At the end of the text there is none but that end.
fn push_selection(
    alloc: Global,
    pieces: &mut Vec<Piece<'_>>,
    root: SyntaxNode<'_>,
    positions: &Positions<'_>,
    offset: usize,
) -> Result<(), AllocError> {
    let parts = selection(alloc, root, offset)?;
    if !parts.is_empty() {
        return push_parts(pieces, positions, parts.as_slice());
    }
    let end = Span {
        start: offset,
        end: offset,
    };
    push_parts(pieces, positions, &[end])
}

/// Adds the result of selectionRange: for each byte offset the parts around it, each with the next larger as its
/// parent. It fails only where memory is refused.
pub fn push_selections(
    alloc: Global,
    pieces: &mut Vec<Piece<'_>>,
    root: SyntaxNode<'_>,
    positions: &Positions<'_>,
    offsets: &[usize],
) -> Result<(), AllocError> {
    pieces.extend_from_slice(&[Piece::Array])?;
    for offset in offsets {
        push_selection(alloc, pieces, root, positions, *offset)?;
    }
    pieces.extend_from_slice(&[Piece::EndArray])
}
