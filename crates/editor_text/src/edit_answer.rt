// The answer that has edits.
ghost use Rattle.std.specs.Prelude.{◌≡◌, ◌++◌, IfOk, flat_map};
ghost use Rattle.json.specs.Json.{Json};
ghost use Rattle.json.specs.Tree.{HasNumbers, json_tokens};
ghost use Rattle.json.specs.Value.{value_view};
ghost use Rattle.rpc_messages.specs.Answers.{IsBegun};
ghost use Rattle.rpc_messages.specs.Messages.{IsAnswer};
ghost use Rattle.rpc_messages.specs.Pieces.{tokens_of};
ghost use Rattle.editor_text.specs.Answered.{IsEditedBy, edit_tokens, text_edit};
ghost use Rattle.editor_text.specs.Edited.{edit_value};

use crate::differences::{Edit, edits};
use editor_diagnostics::Positions;
use json::Value;
use rpc_messages::{LongAnswer, Piece};
use std::alloc::{AllocError, Global};

// The pieces of an edit.
fn pieces_of<'n>(positions: &Positions<'_>, edit: &Edit<'n>) -> [Piece<'n>; 21]
    ensures { flat_map tokens_of result
        ≡ json_tokens (edit_value (text_edit positions.now.encoding positions.now.text.now edit.now)) }
{
    let start = positions.position(edit.start);
    let end = positions.position(edit.end);
    [
        Piece::Object,
        Piece::Key("range"),
        Piece::Object,
        Piece::Key("start"),
        Piece::Object,
        Piece::Key("line"),
        Piece::Count(start.line),
        Piece::Key("character"),
        Piece::Count(start.column),
        Piece::EndObject,
        Piece::Key("end"),
        Piece::Object,
        Piece::Key("line"),
        Piece::Count(end.line),
        Piece::Key("character"),
        Piece::Count(end.column),
        Piece::EndObject,
        Piece::EndObject,
        Piece::Key("newText"),
        Piece::Text(edit.text),
        Piece::EndObject,
    ]
}

// Puts edits, one after the other.
fn put_edits(
    answer: LongAnswer,
    positions: &Positions<'_>,
    edits: &[Edit<'_>],
) -> Result<LongAnswer, AllocError>
    ensures tokens { IfOk result
        (λ new. new ≡ answer ++ flat_map (edit_tokens positions.now.encoding positions.now.text.now) edits.now) }
    ensures begun { IfOk result (λ new. (id : Json) → IsBegun id answer → IsBegun id new) }
{
    let mut answer = answer;
    for edit in edits {
        answer = answer.put(&pieces_of(positions, edit))?;
    }
    Ok(answer)
}

/// The answer to a request for edits of a text: those that make it another one. It fails only where memory is refused.
pub fn answer_edits(
    alloc: Global,
    id: &Value<'_>,
    positions: &Positions<'_>,
    new: &str,
) -> Result<Vec<u8>, AllocError>
    requires { HasNumbers (value_view id.now) }
    ensures answers { IfOk result (λ body. IsAnswer (value_view id.now) body.items) }
    ensures edits { IfOk result
        (λ body. IsEditedBy (value_view id.now) positions.now.encoding positions.now.text.now new.now body.items) }
{
    let edits = edits(alloc, positions.text, new)?;
    let answer = LongAnswer::new(alloc, id)?;
    let answer = answer.put(&[Piece::Array])?;
    let answer = put_edits(answer, positions, edits.as_slice())?;
    let answer = answer.put(&[Piece::EndArray])?;
    let body = answer.finish(alloc, id)?;
    Ok(body)
}
