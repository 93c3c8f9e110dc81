// The pieces of one diagnostic, as the protocol has it.
ghost use Rattle.std.specs.Prelude.{◌≡◌, ◌++◌, OnOk, Some, flat_map};
ghost use Rattle.json.specs.Json.{Members};
ghost use Rattle.json.specs.Tree.{json_tokens, members_tokens};
ghost use Rattle.rpc_messages.specs.Pieces.{tokens_of};
ghost use Rattle.editor_diagnostics.specs.Publication.{related_members, diagnostic_value, members_of_diagnostic};
ghost use Rattle.editor_diagnostics.specs.Diagnostics.{as_diagnosis};
ghost use Rattle.editor_diagnostics.specs.Tokens.{brace_front};

use crate::diagnostic::Diagnostic;
use crate::positions::Positions;
use rpc_messages::Piece;
use std::alloc::AllocError;

// What follows the range of a diagnostic, up to its last members.
fn diagnostic_members<'p>(diagnostic: &'p Diagnostic) -> [Piece<'p>; 8]
    ensures { (others : Members)
        → flat_map tokens_of result
        ++ members_tokens others ≡ members_tokens (members_of_diagnostic (as_diagnosis diagnostic.now) others) }
{
    [
        Piece::Key("code"),
        Piece::Text(diagnostic.code),
        Piece::Key("severity"),
        Piece::Count(diagnostic.severity.number()),
        Piece::Key("source"),
        Piece::Text("gqlls"),
        Piece::Key("message"),
        Piece::Text(diagnostic.message.as_str()),
    ]
}

// What is in front of the range of a brace.
fn brace_front<'p>(uri: &'p str) -> [Piece<'p>; 8]
    ensures { flat_map tokens_of result ≡ brace_front uri.now }
{
    [
        Piece::Key("relatedInformation"),
        Piece::Array,
        Piece::Object,
        Piece::Key("location"),
        Piece::Object,
        Piece::Key("uri"),
        Piece::Text(uri),
        Piece::Key("range"),
    ]
}

// What follows that range, with the end of the diagnostic.
const BRACE_END: [Piece<'static>; 6] = [
    Piece::EndObject,
    Piece::Key("message"),
    Piece::Text("this { is never closed"),
    Piece::EndObject,
    Piece::EndArray,
    Piece::EndObject,
];

// Adds the brace that a diagnostic names, and ends the diagnostic.
fn push_brace<'p>(
    pieces: &mut Vec<Piece<'p>>,
    uri: &'p str,
    positions: &Positions<'_>,
    brace: usize,
) -> Result<(), AllocError>
    ensures { OnOk result (flat_map tokens_of pieces.new.items ≡ flat_map tokens_of pieces.old.items
        ++ members_tokens (related_members uri.now positions.now.encoding positions.now.text.now (Some brace))) }
{
    pieces.extend_from_slice(&brace_front(uri))?;
    pieces.extend_from_slice(&positions.range(brace, brace.saturating_add(1)))?;
    pieces.extend_from_slice(&BRACE_END)?;
    Ok(())
}

// Adds the brace that a diagnostic names, if it names one, and ends the diagnostic.
fn push_end<'p>(
    pieces: &mut Vec<Piece<'p>>,
    uri: &'p str,
    positions: &Positions<'_>,
    brace: Option<usize>,
) -> Result<(), AllocError>
    ensures { OnOk result (flat_map tokens_of pieces.new.items ≡ flat_map tokens_of pieces.old.items
        ++ members_tokens (related_members uri.now positions.now.encoding positions.now.text.now brace)) }
{
    match brace {
        Some(brace) => push_brace(pieces, uri, positions, brace),
        None => pieces.extend_from_slice(&[Piece::EndObject]),
    }
}

/// Adds the pieces of a diagnostic on the document with this name.
pub(crate) fn push_diagnostic<'p>(
    pieces: &mut Vec<Piece<'p>>,
    uri: &'p str,
    positions: &Positions<'_>,
    diagnostic: &'p Diagnostic,
) -> Result<(), AllocError>
    ensures { OnOk result (flat_map tokens_of pieces.new.items ≡ flat_map tokens_of pieces.old.items
        ++ json_tokens (diagnostic_value uri.now positions.now.encoding positions.now.text.now
        (as_diagnosis diagnostic.now))) }
{
    pieces.extend_from_slice(&[Piece::Object, Piece::Key("range")])?;
    pieces.extend_from_slice(&positions.range(diagnostic.start, diagnostic.end))?;
    pieces.extend_from_slice(&diagnostic_members(diagnostic))?;
    push_end(pieces, uri, positions, diagnostic.open_brace)?;
    Ok(())
}
