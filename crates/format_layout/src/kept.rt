// Which tokens are written.
ghost use Rattle.std.specs.Prelude.{◌≡◌};
ghost use Rattle.lexical_grammar.specs.Kept.{is_kept_kind};

use lexical_grammar::TokenKind;

/// Whether tokens of the kind are significant or comments. The others are what gaps are made of, and the end.
pub fn is_kept(kind: TokenKind) -> bool
    ensures { result ≡ is_kept_kind kind }
{
    kind != TokenKind::Whitespace && kind != TokenKind::Comma && kind != TokenKind::Eof
}
