// The outline of a document as nested objects.
ghost use Rattle.std.specs.Prelude.{IfOk};
ghost use Rattle.json.specs.Json.{Json};
ghost use Rattle.json.specs.Tree.{HasNumbers};
ghost use Rattle.json.specs.Value.{value_view};
ghost use Rattle.rpc_messages.specs.Answers.{IsBegun};
ghost use Rattle.rpc_messages.specs.Messages.{IsAnswer};

use crate::answers::ranges::push_range;
use crate::outline::{Symbol, symbol_of};
use apollo_tree::SyntaxNode;
use editor_diagnostics::Positions;
use json::Value;
use rpc_messages::{LongAnswer, Piece};
use std::alloc::{AllocError, Global};

// Adds what a symbol is.
fn push_labels<'t>(pieces: &mut Vec<Piece<'t>>, symbol: &Symbol<'t>) -> Result<(), AllocError> {
    pieces.extend_from_slice(&[
        Piece::Object,
        Piece::Key("name"),
        Piece::Text(symbol.name),
        Piece::Key("kind"),
        Piece::Count(symbol.kind as usize),
    ])?;
    if symbol.detail.is_empty() {
        return Ok(());
    }
    pieces.extend_from_slice(&[Piece::Key("detail"), Piece::Text(symbol.detail)])
}

// Begins a symbol, up to the list of those in it.
fn push_symbol<'t>(
    pieces: &mut Vec<Piece<'t>>,
    positions: &Positions<'_>,
    symbol: &Symbol<'t>,
) -> Result<(), AllocError> {
    push_labels(pieces, symbol)?;
    push_range(pieces, positions, "range", symbol.span)?;
    push_range(pieces, positions, "selectionRange", symbol.name_span)?;
    pieces.extend_from_slice(&[Piece::Key("children"), Piece::Array])
}

// Ends the symbols that are open and end before an offset, by where they end. These ends never rise.
fn push_ends(
    pieces: &mut Vec<Piece<'_>>,
    open: &mut Vec<usize>,
    offset: usize,
) -> Result<(), AllocError> {
    while let Some(end) = open.last().copied() {
        if offset < end {
            break;
        }
        open.pop();
        pieces.extend_from_slice(&[Piece::EndArray, Piece::EndObject])?;
    }
    Ok(())
}

// Adds the symbol that a node is, if it is one, after the ends of those that it isn't in.
fn push_node<'t>(
    pieces: &mut Vec<Piece<'t>>,
    open: &mut Vec<usize>,
    positions: &Positions<'_>,
    node: SyntaxNode<'t>,
) -> Result<(), AllocError> {
    if let Some(symbol) = symbol_of(node) {
        push_ends(pieces, open, symbol.span.start)?;
        push_symbol(pieces, positions, &symbol)?;
        open.push(symbol.span.end)?;
    }
    Ok(())
}

// Puts the symbols of a document, each in the one that it is in.
fn put_symbols(
    alloc: Global,
    answer: LongAnswer,
    root: SyntaxNode<'_>,
    positions: &Positions<'_>,
) -> Result<LongAnswer, AllocError>
    ensures { IfOk result (λ new. (id : Json) → IsBegun id answer → IsBegun id new) }
{
    let mut answer = answer;
    let mut open = Vec::new(alloc);
    let mut pieces = Vec::new(alloc);
    for node in root.descendants() {
        push_node(&mut pieces, &mut open, positions, node)?;
        answer = answer.put(pieces.as_slice())?;
        pieces.clear();
    }
    push_ends(&mut pieces, &mut open, usize::MAX)?;
    answer.put(pieces.as_slice())
}

/// The answer to documentSymbol. It fails only where memory is refused.
pub fn answer_symbols(
    alloc: Global,
    id: &Value<'_>,
    root: SyntaxNode<'_>,
    positions: &Positions<'_>,
) -> Result<Vec<u8>, AllocError>
    requires { HasNumbers (value_view id.now) }
    ensures { IfOk result (λ body. IsAnswer (value_view id.now) body.items) }
{
    let answer = LongAnswer::new(alloc, id)?;
    let answer = answer.put(&[Piece::Array])?;
    let answer = put_symbols(alloc, answer, root, positions)?;
    let answer = answer.put(&[Piece::EndArray])?;
    answer.finish(alloc, id)
}
