// Tests of a token.
#![tactic(auto, using(parser_rules::specs::Runs::does), unfolding(parser_rules::proofs::runs::Running::steps))]

ghost use Rattle.std.specs.Prelude.{◌≡◌, ◌<◌, true, false};
ghost use Rattle.lexical_grammar.specs.declared.TokenKind.TheVariants as token;
ghost use Rattle.lexical_grammar.specs.Answers.{is_end};
ghost use Rattle.document_grammar.specs.declared.kind.SyntaxKind.TheVariants as kind;
ghost use Rattle.parser_rules.specs.State as state;
ghost use Rattle.parser_rules.specs.Nodes.{Name};
ghost use Rattle.parser_rules.specs.RuleLanguage.{fits};
ghost use Rattle.document_grammar.specs.Choices.{is_keyword};
ghost use Rattle.document_grammar.specs.Numbers.{number};
ghost use Rattle.parser_rules.specs.Rules as rules;
ghost use Rattle.parser_state.specs.View.{current_of};

use apollo_lexer::Token;
use document_grammar::SyntaxKind;
use lexical_grammar::TokenKind;

pub(super) fn is_same(a: TokenKind, b: TokenKind) -> bool
    ensures { result ≡ state.same_kind a b }
{
    a == b
}

/// Whether the token is the end.
pub fn is_eof(kind: TokenKind) -> bool
    ensures { result ≡ is_end kind }
{
    matches!(kind, TokenKind::Eof)
}

pub(super) fn ignored(kind: TokenKind) -> Option<SyntaxKind>
    ensures { result ≡ state.ignored kind }
{
    match kind {
        TokenKind::Whitespace => Some(SyntaxKind::WHITESPACE),
        TokenKind::Comment => Some(SyntaxKind::COMMENT),
        TokenKind::Comma => Some(SyntaxKind::COMMA),
        _ => None,
    }
}

/// Whether the token is of the kind.
pub fn is_kind(token: Option<Token<'_>>, kind: TokenKind) -> bool
    ensures { result ≡ state.is_at kind (current_of token.entry) }
{
    match token {
        Some(token) => is_same(token.kind(), kind),
        None => false,
    }
}

/// Whether the token is the keyword.
pub fn is_word(token: Option<Token<'_>>, keyword: SyntaxKind) -> bool
    requires { is_keyword (number keyword) ≡ true }
    ensures { result ≡ state.is_word keyword (current_of token.entry) }
{
    let Some(word) = keyword.keyword() else {
        return false;
    };
    match token {
        Some(token) => is_same(token.kind(), TokenKind::Name) && token.data() == word,
        None => false,
    }
}

/// Whether the token is `true` or `false`.
pub(super) fn is_boolean(token: Option<Token<'_>>) -> bool
    ensures { result ≡ fits rules.boolean (current_of token.entry) }
{
    is_word(token, SyntaxKind::true_KW) || is_word(token, SyntaxKind::false_KW)
}
