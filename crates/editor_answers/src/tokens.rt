// What the tokens of a text are, for colours.
ghost use Rattle.std.specs.Prelude.{◌≡◌, ◌≤◌, IfOk, OnOk, false, max, slice_index_or};
ghost use Rattle.editor_answers.specs.Parts.{AreInOrder, EndBefore, HasNoLineEnd, IsInLine};

use crate::labels::found_in;
use crate::names::{defines_type, extends_type, named_by};
use crate::span::{Span, span_of};
use apollo_tree::{SyntaxElement, SyntaxKind, SyntaxNode, SyntaxToken};
use rpc_messages::Piece;
use std::alloc::{AllocError, Global};

/// What a token is, as the language server protocol names it.
#[derive(Clone, Copy)]
pub enum TokenType {
    Comment,
    Keyword,
    String,
    Number,
    Operator,
    Variable,
    Type,
    Property,
    Parameter,
    EnumMember,
    Function,
    Decorator,
}

/// The protocol's names of the types of tokens, in the order of the enum, as the items of a list.
pub const TOKEN_TYPES: [Piece<'static>; 12] = [
    Piece::Text("comment"),
    Piece::Text("keyword"),
    Piece::Text("string"),
    Piece::Text("number"),
    Piece::Text("operator"),
    Piece::Text("variable"),
    Piece::Text("type"),
    Piece::Text("property"),
    Piece::Text("parameter"),
    Piece::Text("enumMember"),
    Piece::Text("function"),
    Piece::Text("decorator"),
];

/// A token, or the part of it that is in one line.
#[derive(Clone, Copy)]
pub struct SemanticToken {
    pub span: Span,
    pub token_type: TokenType,
}

// What a name in a node is, by the kind of the node, where the node is no definition of a type and no extension of one.
const NAME_TYPES: [(SyntaxKind, TokenType); 9] = [
    (SyntaxKind::VARIABLE, TokenType::Variable),
    (SyntaxKind::ARGUMENT, TokenType::Parameter),
    (SyntaxKind::INPUT_VALUE_DEFINITION, TokenType::Parameter),
    (SyntaxKind::ENUM_VALUE, TokenType::EnumMember),
    (SyntaxKind::DIRECTIVE, TokenType::Decorator),
    (SyntaxKind::DIRECTIVE_DEFINITION, TokenType::Decorator),
    (SyntaxKind::FRAGMENT_NAME, TokenType::Function),
    (SyntaxKind::OPERATION_DEFINITION, TokenType::Function),
    (SyntaxKind::NAMED_TYPE, TokenType::Type),
];

// What a leaf is that is neither a name nor a keyword, by its kind.
const LEAF_TYPES: [(SyntaxKind, TokenType); 12] = [
    (SyntaxKind::COMMENT, TokenType::Comment),
    (SyntaxKind::STRING, TokenType::String),
    (SyntaxKind::INT, TokenType::Number),
    (SyntaxKind::FLOAT, TokenType::Number),
    (SyntaxKind::DOLLAR, TokenType::Variable),
    (SyntaxKind::AT, TokenType::Decorator),
    (SyntaxKind::BANG, TokenType::Operator),
    (SyntaxKind::AMP, TokenType::Operator),
    (SyntaxKind::SPREAD, TokenType::Operator),
    (SyntaxKind::COLON, TokenType::Operator),
    (SyntaxKind::EQ, TokenType::Operator),
    (SyntaxKind::PIPE, TokenType::Operator),
];

fn type_of_name(kind: SyntaxKind) -> TokenType {
    if defines_type(kind) || extends_type(kind) {
        return TokenType::Type;
    }
    found_in(&NAME_TYPES, kind).unwrap_or(TokenType::Property)
}

fn type_of_leaf(leaf: SyntaxToken<'_>) -> Option<TokenType> {
    let kind = leaf.kind();
    if kind.is(SyntaxKind::IDENT) {
        return Some(type_of_name(named_by(leaf)?.kind()));
    }
    if kind.keyword().is_some() {
        return Some(TokenType::Keyword);
    }
    found_in(&LEAF_TYPES, kind)
}

// Whether a line ends at an offset of a text.
fn is_line_end(source: &str, offset: usize) -> bool
    ensures { result ≡ false → IsInLine (slice_index_or source.now offset 0) }
{
    match source.as_bytes().get(offset) {
        Some(byte) => *byte == b'\n' || *byte == b'\r',
        None => false,
    }
}

// Where the line ends that is at an offset, or `end` when it goes on up to there.
fn line_end(source: &str, start: usize, end: usize) -> usize
    requires { start ≤ end }
    ensures within { (start ≤ result) × (result ≤ end) }
    ensures line { HasNoLineEnd source.now start result }
{
    for offset in start..end {
        if is_line_end(source, offset) {
            return offset;
        }
    }
    end
}

// Adds a token, in parts when it is in more than one line.
fn push_token(
    tokens: &mut Vec<SemanticToken>,
    source: &str,
    span: Span,
    token_type: TokenType,
) -> Result<(), AllocError>
    requires order { AreInOrder source.now tokens.old.items }
    requires before { EndBefore span.start tokens.old.items }
    ensures order { OnOk result (AreInOrder source.now tokens.new.items) }
    ensures before { OnOk result (EndBefore (max span.start span.end) tokens.new.items) }
{
    let mut start = span.start;
    while start < span.end {
        let end = line_end(source, start, span.end);
        if start < end {
            tokens.push(SemanticToken {
                span: Span { start, end },
                token_type,
            })?;
        }
        start = end.saturating_add(1);
    }
    Ok(())
}

/// The tokens of the part of a text that `within` is, also those that are only partly in it, by the root of the text's
/// tree. They are in the order of the text, and none goes over the end of a line. It fails only where memory is
/// refused.
pub fn semantic_tokens(
    alloc: Global,
    source: &str,
    root: SyntaxNode<'_>,
    within: Span,
) -> Result<Vec<SemanticToken>, AllocError>
    ensures { IfOk result (λ tokens. AreInOrder source.now tokens.items) }
{
    let mut tokens = Vec::new(alloc);
    let mut end = 0;
    for element in root.descendants_with_tokens() {
        if let SyntaxElement::Token(leaf) = element {
            let mut span = span_of(leaf.text_range());
            if span.start < within.end
                && within.start < span.end
                && let Some(token_type) = type_of_leaf(leaf)
            {
                span.start = span.start.max(end);
                push_token(&mut tokens, source, span, token_type)?;
                end = span.end.max(span.start);
            }
        }
    }
    Ok(tokens)
}
