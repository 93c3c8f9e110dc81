// Semantic tokens as the protocol's numbers.
ghost use Rattle.std.specs.Prelude.{IfOk};
ghost use Rattle.json.specs.Tree.{HasNumbers};
ghost use Rattle.json.specs.Value.{value_view};
ghost use Rattle.rpc_messages.specs.Messages.{IsAnswer};

use crate::span::Span;
use crate::tokens::{SemanticToken, semantic_tokens};
use apollo_tree::SyntaxNode;
use editor_diagnostics::Positions;
use json::Value;
use line_index::Position;
use rpc_messages::{Piece, answer};
use std::alloc::{AllocError, Global};

// Adds the five numbers of a token that comes after another: how many lines and columns further it begins, its length,
// its type and no modifiers.
fn push_numbers(
    numbers: &mut Vec<usize>,
    positions: &Positions<'_>,
    last: Position,
    token: &SemanticToken,
) -> Result<Position, AllocError> {
    let start = positions.position(token.span.start);
    let end = positions.position(token.span.end);
    let column = if start.line == last.line {
        start.column.saturating_sub(last.column)
    } else {
        start.column
    };
    numbers.extend_from_slice(&[
        start.line.saturating_sub(last.line),
        column,
        end.column.saturating_sub(start.column),
        token.token_type as usize,
        0,
    ])?;
    Ok(start)
}

// The numbers of tokens.
fn numbers_of(
    alloc: Global,
    positions: &Positions<'_>,
    tokens: &[SemanticToken],
) -> Result<Vec<usize>, AllocError> {
    let mut numbers = Vec::new(alloc);
    let mut last = Position { line: 0, column: 0 };
    for token in tokens {
        last = push_numbers(&mut numbers, positions, last, token)?;
    }
    Ok(numbers)
}

/// The answer to semanticTokens for a part of the text. It fails only where memory is refused.
pub fn answer_tokens(
    alloc: Global,
    id: &Value<'_>,
    root: SyntaxNode<'_>,
    positions: &Positions<'_>,
    within: Span,
) -> Result<Vec<u8>, AllocError>
    requires { HasNumbers (value_view id.now) }
    ensures { IfOk result (λ body. IsAnswer (value_view id.now) body.items) }
{
    let tokens = semantic_tokens(alloc, positions.text, root, within)?;
    let numbers = numbers_of(alloc, positions, tokens.as_slice())?;
    answer(
        alloc,
        id,
        &[
            Piece::Object,
            Piece::Key("data"),
            Piece::Counts(numbers.as_slice()),
            Piece::EndObject,
        ],
    )
}
