// What the server says that it does, and what it wants of the client.
ghost use Rattle.std.specs.Prelude.{◌≡◌, ◌∷◌, ◌++◌, IfOk, OnOk, codes, drop, flat_map};
ghost use Rattle.json.specs.Token.{key};
ghost use Rattle.json.specs.Tree.{HasNumbers, json_tokens};
ghost use Rattle.json.specs.Value.{value_view};
ghost use Rattle.rpc_messages.specs.Messages.{IsAnswer, IsRequest};
ghost use Rattle.rpc_messages.specs.Pieces.{tokens_of};
ghost use Rattle.line_index.specs.declared.PositionEncoding.TheVariants.{Utf16};
ghost use Rattle.gqlls_server.specs.Announcement.{IsAnnounced, announcement, encoding_name, renaming};
ghost use Rattle.gqlls_server.specs.Parameters.{asks_before_renaming_in};
ghost use Rattle.gqlls_server.specs.Registration.{IsRegistration};
ghost use Rattle.gqlls_server.specs.declared.capabilities.TheConstants.{VERSION};

use crate::parameters::asks_before_renaming;
use editor_answers::TOKEN_TYPES;
use json::Value;
use line_index::PositionEncoding;
use rpc_messages::{Piece, answer, request};
use std::alloc::{AllocError, Global};

const VERSION: &str = "0.1.0";

// What is served, up to the types of tokens, but for renaming.
const SERVED: [Piece<'static>; 62] = [
    Piece::Key("documentSymbolProvider"),
    Piece::Flag(true),
    Piece::Key("foldingRangeProvider"),
    Piece::Flag(true),
    Piece::Key("selectionRangeProvider"),
    Piece::Flag(true),
    Piece::Key("documentFormattingProvider"),
    Piece::Flag(true),
    Piece::Key("documentRangeFormattingProvider"),
    Piece::Flag(true),
    Piece::Key("definitionProvider"),
    Piece::Flag(true),
    Piece::Key("referencesProvider"),
    Piece::Flag(true),
    Piece::Key("documentHighlightProvider"),
    Piece::Flag(true),
    Piece::Key("hoverProvider"),
    Piece::Flag(true),
    Piece::Key("workspaceSymbolProvider"),
    Piece::Flag(true),
    Piece::Key("textDocumentSync"),
    Piece::Object,
    Piece::Key("openClose"),
    Piece::Flag(true),
    Piece::Key("change"),
    Piece::Count(2),
    Piece::Key("save"),
    Piece::Flag(true),
    Piece::EndObject,
    Piece::Key("completionProvider"),
    Piece::Object,
    Piece::Key("triggerCharacters"),
    Piece::Array,
    Piece::Text("$"),
    Piece::Text("@"),
    Piece::Text("."),
    Piece::Text(":"),
    Piece::Text("("),
    Piece::Text("{"),
    Piece::EndArray,
    Piece::EndObject,
    Piece::Key("signatureHelpProvider"),
    Piece::Object,
    Piece::Key("triggerCharacters"),
    Piece::Array,
    Piece::Text("("),
    Piece::Text(","),
    Piece::EndArray,
    Piece::EndObject,
    Piece::Key("semanticTokensProvider"),
    Piece::Object,
    Piece::Key("full"),
    Piece::Flag(true),
    Piece::Key("range"),
    Piece::Flag(true),
    Piece::Key("legend"),
    Piece::Object,
    Piece::Key("tokenModifiers"),
    Piece::Array,
    Piece::EndArray,
    Piece::Key("tokenTypes"),
    Piece::Array,
];

// That names are changed, also for clients that ask first whether one may be.
const RENAMING: [Piece<'static>; 2] = [Piece::Key("renameProvider"), Piece::Flag(true)];

const PREPARED_RENAMING: [Piece<'static>; 5] = [
    Piece::Key("renameProvider"),
    Piece::Object,
    Piece::Key("prepareProvider"),
    Piece::Flag(true),
    Piece::EndObject,
];

// What comes after the types of tokens.
const END: [Piece<'static>; 12] = [
    Piece::EndArray,
    Piece::EndObject,
    Piece::EndObject,
    Piece::EndObject,
    Piece::Key("serverInfo"),
    Piece::Object,
    Piece::Key("name"),
    Piece::Text("gqlls"),
    Piece::Key("version"),
    Piece::Text(VERSION),
    Piece::EndObject,
    Piece::EndObject,
];

// The parameters of a registration for the events of GraphQL files.
const REGISTRATION: [Piece<'static>; 21] = [
    Piece::Object,
    Piece::Key("registrations"),
    Piece::Array,
    Piece::Object,
    Piece::Key("id"),
    Piece::Text("files"),
    Piece::Key("method"),
    Piece::Text("workspace/didChangeWatchedFiles"),
    Piece::Key("registerOptions"),
    Piece::Object,
    Piece::Key("watchers"),
    Piece::Array,
    Piece::Object,
    Piece::Key("globPattern"),
    Piece::Text("**/*.{graphql,graphqls,gql}"),
    Piece::EndObject,
    Piece::EndArray,
    Piece::EndObject,
    Piece::EndObject,
    Piece::EndArray,
    Piece::EndObject,
];

// The protocol's name of how columns are counted.
fn encoding_name(encoding: PositionEncoding) -> &'static str
    ensures { result.now ≡ encoding_name encoding }
{
    match encoding {
        PositionEncoding::Utf8 => "utf-8",
        PositionEncoding::Utf16 => "utf-16",
    }
}

// How names are changed, to clients that ask first or don't.
fn renaming(asks_first: bool) -> &'static [Piece<'static>]
    ensures { flat_map tokens_of result.now ≡ key (codes "renameProvider") ∷ json_tokens (renaming asks_first) }
{
    if asks_first {
        &PREPARED_RENAMING
    } else {
        &RENAMING
    }
}

// Adds what follows the encoding: what is served, and the end of the result. The encoding is in the first five tokens,
// so it may be any here.
fn push_served(pieces: &mut Vec<Piece<'_>>, asks_first: bool) -> Result<(), AllocError>
    ensures { OnOk result (flat_map tokens_of pieces.new.items
        ≡ flat_map tokens_of pieces.old.items ++ drop 5 (json_tokens (announcement Utf16 asks_first VERSION.now))) }
{
    pieces.extend_from_slice(renaming(asks_first))?;
    pieces.extend_from_slice(&SERVED)?;
    pieces.extend_from_slice(&TOKEN_TYPES)?;
    pieces.extend_from_slice(&END)?;
    Ok(())
}

/// The answer to the first request, by its parameters: how columns are counted, and what is served.
pub(crate) fn answer_initialize(
    alloc: Global,
    id: &Value<'_>,
    params: &Value<'_>,
    encoding: PositionEncoding,
) -> Result<Vec<u8>, AllocError>
    requires { HasNumbers (value_view id.now) }
    ensures answers { IfOk result (λ body. IsAnswer (value_view id.now) body.items) }
    ensures announces { IfOk result
        (λ body. IsAnnounced (value_view id.now) encoding
        (asks_before_renaming_in (value_view params.now)) body.items) }
{
    let mut pieces = Vec::new(alloc);
    pieces.extend_from_slice(&[
        Piece::Object,
        Piece::Key("capabilities"),
        Piece::Object,
        Piece::Key("positionEncoding"),
        Piece::Text(encoding_name(encoding)),
    ])?;
    push_served(&mut pieces, asks_before_renaming(params))?;
    let body = answer(alloc, id, pieces.as_slice())?;
    Ok(body)
}

/// The request that registers for the events of GraphQL files.
pub(crate) fn registration(alloc: Global) -> Result<Vec<u8>, AllocError>
    ensures requests { IfOk result (λ body. IsRequest body.items) }
    ensures registers { IfOk result (λ body. IsRegistration body.items) }
{
    let body = request(alloc, "files", "client/registerCapability", &REGISTRATION)?;
    Ok(body)
}
