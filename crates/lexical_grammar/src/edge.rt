// What a text ends with, as far as it decides which token may follow directly.
ghost use Rattle.std.specs.Prelude.{◌≡◌};
ghost use Rattle.lexical_grammar.specs.Edges.{edge_of, may_touch};

use crate::TokenKind;

/// What a text ends with, as far as it decides which token may follow with nothing between them.
#[derive(Clone, Copy, PartialEq, Eq)]
pub enum Edge {
    /// Nothing at all, or a token that joins with no other.
    Free,
    /// White space.
    Whitespace,
    /// A comment, which only the end of its line ends.
    Comment,
    /// A name.
    Name,
    /// A whole number or one with a fraction or an exponent.
    Number,
    /// `""`, which with one more quote begins a block string.
    EmptyString,
}

impl Edge {
    /// What a text ends with when its last token has this kind and this text.
    pub fn of(kind: TokenKind, text: &str) -> Edge
        ensures { result ≡ edge_of kind text.now }
    {
        match kind {
            TokenKind::Whitespace => Edge::Whitespace,
            TokenKind::Comment => Edge::Comment,
            TokenKind::Name => Edge::Name,
            TokenKind::Int | TokenKind::Float => Edge::Number,
            TokenKind::StringValue => {
                if text == "\"\"" {
                    Edge::EmptyString
                } else {
                    Edge::Free
                }
            }
            _ => Edge::Free,
        }
    }

    /// Whether a token of this kind that begins with this byte may follow directly.
    pub fn may_touch(self, kind: TokenKind, first: u8) -> bool
        ensures { result ≡ may_touch self kind first }
    {
        match self {
            Edge::Free => true,
            Edge::Whitespace => kind != TokenKind::Whitespace,
            Edge::Comment => first == b'\n' || first == b'\r',
            Edge::Name => !(first.is_ascii_alphanumeric() || first == b'_'),
            Edge::Number => {
                !((first.is_ascii_digit() || first == b'.')
                    || (first.is_ascii_alphabetic() || first == b'_'))
            }
            Edge::EmptyString => first != b'"',
        }
    }
}
