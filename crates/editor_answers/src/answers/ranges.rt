// Parts of a text as members of an answer.
ghost use Rattle.std.specs.Prelude.{◌≡◌, ◌++◌, OnOk, flat_map};
ghost use Rattle.rpc_messages.specs.Pieces.{tokens_of};
ghost use Rattle.editor_answers.specs.Results.{range_tokens};

use crate::span::Span;
use editor_diagnostics::Positions;
use rpc_messages::Piece;
use std::alloc::AllocError;

/// Adds a part of a text, with a name. It fails only where memory is refused.
pub fn push_range<'p>(
    pieces: &mut Vec<Piece<'p>>,
    positions: &Positions<'_>,
    name: &'p str,
    span: Span,
) -> Result<(), AllocError>
    ensures { OnOk result (flat_map tokens_of pieces.new.items ≡ flat_map tokens_of pieces.old.items
        ++ range_tokens positions.now.encoding positions.now.text.now name.now span) }
{
    pieces.extend_from_slice(&[Piece::Key(name)])?;
    pieces.extend_from_slice(&positions.range(span.start, span.end))?;
    Ok(())
}
