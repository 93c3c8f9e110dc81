// Definitions of all documents, by parts of their names.
ghost use Rattle.std.specs.Prelude.{IfOk};
ghost use Rattle.json.specs.Json.{Json};
ghost use Rattle.json.specs.Tree.{HasNumbers};
ghost use Rattle.json.specs.Value.{value_view};
ghost use Rattle.rpc_messages.specs.Answers.{IsBegun};
ghost use Rattle.rpc_messages.specs.Messages.{IsAnswer};

use crate::documents::{Document, Documents};
use editor_answers::{Symbol, push_location, symbol_of};
use editor_diagnostics::Positions;
use json::Value;
use rpc_messages::{LongAnswer, Piece};
use std::alloc::{AllocError, Global};

// Whether a name has a text, in letters of any case.
fn has_part(name: &str, part: &str) -> bool {
    if part.is_empty() {
        return true;
    }
    name.as_bytes()
        .windows(part.len())
        .any(|window| window.eq_ignore_ascii_case(part.as_bytes()))
}

// Adds a definition, with the document that it is in.
fn push_definition<'t>(
    pieces: &mut Vec<Piece<'t>>,
    positions: &Positions<'_>,
    uri: &'t str,
    symbol: &Symbol<'t>,
) -> Result<(), AllocError> {
    pieces.extend_from_slice(&[
        Piece::Object,
        Piece::Key("name"),
        Piece::Text(symbol.name),
        Piece::Key("kind"),
        Piece::Count(symbol.kind as usize),
        Piece::Key("location"),
    ])?;
    push_location(pieces, positions, uri, symbol.name_span)?;
    pieces.extend_from_slice(&[Piece::EndObject])
}

// Puts the definitions of a document whose names have a text.
fn put_found(
    alloc: Global,
    answer: LongAnswer,
    uri: &str,
    document: &Document,
    part: &str,
) -> Result<LongAnswer, AllocError>
    ensures { IfOk result (λ new. (id : Json) → IsBegun id answer → IsBegun id new) }
{
    let mut answer = answer;
    let positions = document.positions(alloc)?;
    let mut pieces = Vec::new(alloc);
    for definition in document.root().children() {
        if let Some(symbol) = symbol_of(definition)
            && has_part(symbol.name, part)
        {
            push_definition(&mut pieces, &positions, uri, &symbol)?;
            answer = answer.put(pieces.as_slice())?;
            pieces.clear();
        }
    }
    Ok(answer)
}

// Puts those of all documents.
fn put_all_found(
    alloc: Global,
    answer: LongAnswer,
    documents: Documents<'_>,
    part: &str,
) -> Result<LongAnswer, AllocError>
    ensures { IfOk result (λ new. (id : Json) → IsBegun id answer → IsBegun id new) }
{
    let mut answer = answer;
    for (uri, document) in documents.iter() {
        answer = put_found(alloc, answer, uri.as_str(), document, part)?;
    }
    Ok(answer)
}

/// The answer to `workspace/symbol`: the definitions of all documents whose names have a text. It fails only where
/// memory is refused.
pub(crate) fn answer_search(
    alloc: Global,
    id: &Value<'_>,
    documents: Documents<'_>,
    part: &str,
) -> Result<Vec<u8>, AllocError>
    requires { HasNumbers (value_view id.now) }
    ensures { IfOk result (λ body. IsAnswer (value_view id.now) body.items) }
{
    let answer = LongAnswer::new(alloc, id)?;
    let answer = answer.put(&[Piece::Array])?;
    let answer = put_all_found(alloc, answer, documents, part)?;
    let answer = answer.put(&[Piece::EndArray])?;
    answer.finish(alloc, id)
}
