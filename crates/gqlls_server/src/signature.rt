// What a field or a directive takes.
ghost use Rattle.std.specs.Prelude.{IfOk};
ghost use Rattle.json.specs.Tree.{HasNumbers};
ghost use Rattle.json.specs.Value.{value_view};
ghost use Rattle.rpc_messages.specs.Messages.{IsAnswer};

use apollo_parser::{SyntaxKind, SyntaxNode};
use editor_answers::{description_of, span_of};
use json::Value;
use rpc_messages::{Piece, answer};
use schema_members::{Call, arguments_of, name_in, name_offset};
use std::alloc::{AllocError, Global};
use validation_names::Site;

// The text of an argument's definition with its name, its type and its default value.
fn parameter_text<'t>(parameter: Site<'t>) -> &'t str {
    let span = span_of(parameter.node.text_range());
    let mut end = span.end;
    for part in parameter.node.children() {
        if part.kind().is(SyntaxKind::DIRECTIVES) {
            end = part.text_range().start();
        }
    }
    let front = name_offset(parameter.node).saturating_sub(span.start);
    let end = end.saturating_sub(span.start);
    parameter.node.text().get(front..end).unwrap_or("").trim()
}

// The text of the type of a field; empty for a directive.
fn type_text<'t>(definition: SyntaxNode<'t>) -> &'t str {
    for part in definition.children() {
        let kind = part.kind();
        if kind.is(SyntaxKind::NAMED_TYPE)
            || kind.is(SyntaxKind::LIST_TYPE)
            || kind.is(SyntaxKind::NON_NULL_TYPE)
        {
            return part.text().trim();
        }
    }
    ""
}

// The texts of some arguments' definitions.
fn labels_of(alloc: Global, parameters: &[Site<'_>]) -> Result<Vec<String>, AllocError> {
    let mut labels = Vec::new(alloc);
    for parameter in parameters {
        labels.push(String::from_str(alloc, parameter_text(*parameter))?)?;
    }
    Ok(labels)
}

// The name of a field or a directive, with the texts of its arguments and its type.
fn signature_text(
    alloc: Global,
    definition: Site<'_>,
    labels: &[String],
) -> Result<String, AllocError> {
    let mut text = String::from_str(alloc, name_in(definition.node))?;
    for (index, label) in labels.iter().enumerate() {
        text.push_str(if index == 0 { "(" } else { ", " })?;
        text.push_str(label.as_str())?;
    }
    if !labels.is_empty() {
        text.push_str(")")?;
    }
    let type_text = type_text(definition.node);
    if !type_text.is_empty() {
        text.push_str(": ")?;
        text.push_str(type_text)?;
    }
    Ok(text)
}

// Adds parameters, which are parts of the signature's text.
fn push_parameters<'p>(
    pieces: &mut Vec<Piece<'p>>,
    labels: &'p [String],
) -> Result<(), AllocError> {
    pieces.extend_from_slice(&[Piece::Key("parameters"), Piece::Array])?;
    for label in labels {
        pieces.extend_from_slice(&[Piece::Object, Piece::Key("label")])?;
        pieces.extend_from_slice(&[Piece::Text(label.as_str()), Piece::EndObject])?;
    }
    pieces.extend_from_slice(&[Piece::EndArray])
}

// Adds the result of signatureHelp.
fn push_signature<'p>(
    pieces: &mut Vec<Piece<'p>>,
    text: &'p str,
    description: &'p str,
    labels: &'p [String],
    active: usize,
) -> Result<(), AllocError> {
    pieces.extend_from_slice(&[
        Piece::Object,
        Piece::Key("signatures"),
        Piece::Array,
        Piece::Object,
        Piece::Key("label"),
        Piece::Text(text),
        Piece::Key("documentation"),
        Piece::Text(description),
    ])?;
    push_parameters(pieces, labels)?;
    pieces.extend_from_slice(&[
        Piece::EndObject,
        Piece::EndArray,
        Piece::Key("activeSignature"),
        Piece::Count(0),
        Piece::Key("activeParameter"),
        Piece::Count(active),
        Piece::EndObject,
    ])
}

/// The answer to signatureHelp about a call: what its definition takes, and which argument comes next. It fails only
/// where memory is refused.
pub(crate) fn answer_signature(
    alloc: Global,
    id: &Value<'_>,
    call: Call<'_>,
) -> Result<Vec<u8>, AllocError>
    requires { HasNumbers (value_view id.now) }
    ensures { IfOk result (λ body. IsAnswer (value_view id.now) body.items) }
{
    let parameters = arguments_of(alloc, call.definition)?;
    let labels = labels_of(alloc, parameters.as_slice())?;
    let text = signature_text(alloc, call.definition, labels.as_slice())?;
    let description = description_of(alloc, call.definition.node)?;
    let mut pieces = Vec::new(alloc);
    push_signature(
        &mut pieces,
        text.as_str(),
        description.as_str(),
        labels.as_slice(),
        call.active,
    )?;
    answer(alloc, id, pieces.as_slice())
}
