// The answers to requests for a layout.
ghost use Rattle.std.specs.Prelude.{IfOk};
ghost use Rattle.json.specs.Json.{null};
ghost use Rattle.json.specs.Tree.{HasNumbers};
ghost use Rattle.json.specs.Value.{value_view};
ghost use Rattle.rpc_messages.specs.Messages.{IsAnswer, IsResult};
ghost use Rattle.gqlls_server.specs.Layout.{IsFormattingIn, IsFormattingOf, IsLaidOut, IsRangeFormattingIn};
ghost use Rattle.gqlls_server.specs.Layout.{IsRangeFormattingOf};
ghost use Rattle.gqlls_server.specs.State.{file_of};

use crate::documents::Document;
use crate::layout::{Layout, format_part, formatted};
use crate::parameters::span_of;
use apollo_parser::Limits;
use editor_diagnostics::Positions;
use editor_text::answer_edits;
use json::Value;
use rpc_messages::{Piece, answer, code, refusal};
use std::alloc::{AllocError, Global};

// `RequestFailed` of the Language Server Protocol.
pub(crate) const REQUEST_FAILED: i64 = -32803;

// The answer to a request for a layout: the edits that make the new text, null where the text is left, and an error
// where the new one would be too long.
fn answer_layout(
    alloc: Global,
    id: &Value<'_>,
    positions: &Positions<'_>,
    layout: &Layout,
) -> Result<Vec<u8>, AllocError>
    requires { HasNumbers (value_view id.now) }
    ensures answers { IfOk result (λ body. IsAnswer (value_view id.now) body.items) }
    ensures edits { IfOk result
        (λ body. IsLaidOut (value_view id.now) positions.now.encoding positions.now.text.now layout.now body.items) }
{
    match layout {
        Layout::Text(text) => {
            let body = answer_edits(alloc, id, positions, text.as_str())?;
            Ok(body)
        }
        Layout::Left => answer_null(alloc, id),
        Layout::TooLong => {
            let body = refusal(alloc, id, REQUEST_FAILED, "the layout has more than 64 MB")?;
            Ok(body)
        }
    }
}

/// The answer whose result is null.
pub(crate) fn answer_null(alloc: Global, id: &Value<'_>) -> Result<Vec<u8>, AllocError>
    requires { HasNumbers (value_view id.now) }
    ensures answers { IfOk result (λ body. IsAnswer (value_view id.now) body.items) }
    ensures null { IfOk result (λ body. IsResult (value_view id.now) null body.items) }
{
    let body = answer(alloc, id, &[Piece::Null])?;
    Ok(body)
}

// The answer to `textDocument/formatting` about a document in GraphQL, within limits.
fn answer_document(
    alloc: Global,
    id: &Value<'_>,
    document: &Document,
    limits: Limits,
) -> Result<Vec<u8>, AllocError>
    requires { HasNumbers (value_view id.now) }
    ensures answers { IfOk result (λ body. IsAnswer (value_view id.now) body.items) }
    ensures formats { IfOk result
        (λ body. IsFormattingOf limits (value_view id.now) document.now.file.content body.items) }
{
    let positions = document.positions(alloc)?;
    let layout = formatted(alloc, positions.text, limits)?;
    let body = answer_layout(alloc, id, &positions, &layout)?;
    Ok(body)
}

/// The answer to `textDocument/formatting` about a document, within limits. A file in another language is left as it
/// is.
pub(crate) fn answer_formatting(
    alloc: Global,
    id: &Value<'_>,
    document: &Document,
    limits: Limits,
) -> Result<Vec<u8>, AllocError>
    requires { HasNumbers (value_view id.now) }
    ensures answers { IfOk result (λ body. IsAnswer (value_view id.now) body.items) }
    ensures formats { IfOk result
        (λ body. IsFormattingIn limits (value_view id.now) (file_of document.now) body.items) }
{
    match document.host() {
        Some(_) => answer_null(alloc, id),
        None => answer_document(alloc, id, document, limits),
    }
}

// The answer to `textDocument/rangeFormatting` about a document in GraphQL, within limits.
fn answer_range(
    alloc: Global,
    id: &Value<'_>,
    document: &Document,
    params: &Value<'_>,
    limits: Limits,
) -> Result<Vec<u8>, AllocError>
    requires { HasNumbers (value_view id.now) }
    ensures answers { IfOk result (λ body. IsAnswer (value_view id.now) body.items) }
    ensures formats { IfOk result
        (λ body. IsRangeFormattingOf limits (value_view id.now) document.now.file.content body.items) }
{
    let positions = document.positions(alloc)?;
    let Some(within) = span_of(&positions, params) else {
        return refusal(alloc, id, code::INVALID_PARAMS, "no such place");
    };
    let layout = format_part(alloc, positions.text, document.root(), within, limits)?;
    let body = answer_layout(alloc, id, &positions, &layout)?;
    Ok(body)
}

/// The answer to `textDocument/rangeFormatting` about a document, within limits. A file in another language is left as
/// it is.
pub(crate) fn answer_range_formatting(
    alloc: Global,
    id: &Value<'_>,
    document: &Document,
    params: &Value<'_>,
    limits: Limits,
) -> Result<Vec<u8>, AllocError>
    requires { HasNumbers (value_view id.now) }
    ensures answers { IfOk result (λ body. IsAnswer (value_view id.now) body.items) }
    ensures formats { IfOk result
        (λ body. IsRangeFormattingIn limits (value_view id.now) (file_of document.now) body.items) }
{
    if document.host().is_some() {
        return answer_null(alloc, id);
    }
    answer_range(alloc, id, document, params, limits)
}
