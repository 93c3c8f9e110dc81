// The notification of the diagnostics on a document to a client.
ghost use Rattle.std.specs.Prelude.{◌≡◌, ◌++◌, ◌∷◌, [], IfOk, OnOk, None, flat_map, map};
ghost use Rattle.json.specs.Json.{Members, object};
ghost use Rattle.json.specs.Token.{end_array, end_object};
ghost use Rattle.json.specs.Tree.{json_tokens};
ghost use Rattle.rpc_messages.specs.Answers.{AreOfObject};
ghost use Rattle.rpc_messages.specs.Messages.{IsNotification, IsNotificationOf};
ghost use Rattle.rpc_messages.specs.Pieces.{tokens_of};
ghost use Rattle.editor_diagnostics.specs.Publication.{IsNotificationAbout, IsPublication, method};
ghost use Rattle.editor_diagnostics.specs.Diagnostics.{as_diagnosis};
ghost use Rattle.editor_diagnostics.specs.Tokens.{front_tokens, tokens_of_diagnostics};

use crate::diagnostic::Diagnostic;
use crate::diagnostic_pieces::push_diagnostic;
use crate::positions::Positions;
use rpc_messages::{Piece, notification};
use std::alloc::{AllocError, Global};

const METHOD: &str = "textDocument/publishDiagnostics";

// Begins the parameters, up to the list of diagnostics.
fn push_front<'p>(
    pieces: &mut Vec<Piece<'p>>,
    uri: &'p str,
    version: Option<i64>,
) -> Result<(), AllocError>
    requires { pieces.old.items ≡ [] }
    ensures { OnOk result (flat_map tokens_of pieces.new.items ≡ front_tokens uri.now version) }
{
    match version {
        Some(version) => pieces.extend_from_slice(&[
            Piece::Object,
            Piece::Key("uri"),
            Piece::Text(uri),
            Piece::Key("version"),
            Piece::Number(version),
            Piece::Key("diagnostics"),
            Piece::Array,
        ]),
        None => pieces.extend_from_slice(&[
            Piece::Object,
            Piece::Key("uri"),
            Piece::Text(uri),
            Piece::Key("diagnostics"),
            Piece::Array,
        ]),
    }
}

// Adds the pieces of some diagnostics.
fn push_diagnostics<'p>(
    pieces: &mut Vec<Piece<'p>>,
    uri: &'p str,
    positions: &Positions<'_>,
    diagnostics: &'p [Diagnostic],
) -> Result<(), AllocError>
    ensures { OnOk result (flat_map tokens_of pieces.new.items ≡ flat_map tokens_of pieces.old.items
        ++ tokens_of_diagnostics uri.now positions.now.encoding positions.now.text.now diagnostics.now) }
{
    for diagnostic in diagnostics {
        push_diagnostic(pieces, uri, positions, diagnostic)?;
    }
    Ok(())
}

// Ends the parameters, and gives the notification.
fn end(alloc: Global, pieces: &mut Vec<Piece<'_>>) -> Result<Vec<u8>, AllocError>
    requires { AreOfObject (flat_map tokens_of pieces.old.items ++ end_array ∷ end_object ∷ []) }
    ensures params { IfOk result
        (λ body. (members : Members)
        → flat_map tokens_of pieces.old.items ++ end_array ∷ end_object ∷ [] ≡ json_tokens (object members)
        → IsNotificationOf method members body.items) }
    ensures notifies { IfOk result (λ body. IsNotification body.items) }
{
    pieces.extend_from_slice(&[Piece::EndArray, Piece::EndObject])?;
    notification(alloc, METHOD, pieces.as_slice())
}

/// The notification of the diagnostics on a document with this name, version and text. It fails only where memory is
/// refused.
pub fn publication(
    alloc: Global,
    uri: &str,
    version: Option<i64>,
    positions: &Positions<'_>,
    diagnostics: &[Diagnostic],
) -> Result<Vec<u8>, AllocError>
    ensures notifies { IfOk result (λ body. IsNotification body.items) }
    ensures published { IfOk result
        (λ body. IsPublication uri.now version positions.now.encoding positions.now.text.now
        (map as_diagnosis diagnostics.now)
        body.items) }
{
    let mut pieces = Vec::new(alloc);
    push_front(&mut pieces, uri, version)?;
    // a slice of its own, since no more than two lifetimes of the signature may meet in the pieces
    push_diagnostics(&mut pieces, uri, positions, &diagnostics[..])?;
    let body = end(alloc, &mut pieces)?;
    Ok(body)
}

/// The notification that takes all diagnostics on a document back. It fails only where memory is refused.
pub fn withdrawal(alloc: Global, uri: &str) -> Result<Vec<u8>, AllocError>
    ensures notifies { IfOk result (λ body. IsNotification body.items) }
    ensures withdrawn { IfOk result (λ body. IsNotificationAbout uri.now None [] body.items) }
{
    let mut pieces = Vec::new(alloc);
    push_front(&mut pieces, uri, None)?;
    let body = end(alloc, &mut pieces)?;
    Ok(body)
}
