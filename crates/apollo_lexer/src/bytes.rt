// Classes of bytes. Each is looked up in a table that has a row for each byte.
ghost use Rattle.std.specs.Prelude.{◌≡◌, ◌||◌};
ghost use Rattle.lexical_grammar.specs.Characters.{is_name_continue, is_white_space, is_line_terminator};
ghost use Rattle.apollo_lexer.specs.Starts.{start_of};

use Start::{Blank, Dot, Name, Number, NumberSign, Other, Punctuator, Quote};
use lexical_grammar::TokenKind;

/// What the first byte of an item says about it.
#[derive(Clone, Copy)]
pub enum Start {
    Name,
    Number,
    Quote,
    NumberSign,
    Dot,
    Blank,
    Punctuator(TokenKind),
    /// A byte order mark, or no token.
    Other,
}

const BANG: Start = Punctuator(TokenKind::Bang);

const DOLLAR: Start = Punctuator(TokenKind::Dollar);

const AMP: Start = Punctuator(TokenKind::Amp);

const COMMA: Start = Punctuator(TokenKind::Comma);

const COLON: Start = Punctuator(TokenKind::Colon);

const EQ: Start = Punctuator(TokenKind::Eq);

const AT: Start = Punctuator(TokenKind::At);

const L_PAREN: Start = Punctuator(TokenKind::LParen);

const R_PAREN: Start = Punctuator(TokenKind::RParen);

const L_BRACKET: Start = Punctuator(TokenKind::LBracket);

const R_BRACKET: Start = Punctuator(TokenKind::RBracket);

const L_CURLY: Start = Punctuator(TokenKind::LCurly);

const R_CURLY: Start = Punctuator(TokenKind::RCurly);

const PIPE: Start = Punctuator(TokenKind::Pipe);

// The start of each byte.
static STARTS: [Start; 256] = [
    Other, Other, Other, Other, Other, Other, Other, Other, Other, Blank, Blank, Other, Other,
    Blank, Other, Other, Other, Other, Other, Other, Other, Other, Other, Other, Other, Other,
    Other, Other, Other, Other, Other, Other, Blank, BANG, Quote, NumberSign, DOLLAR, Other, AMP,
    Other, L_PAREN, R_PAREN, Other, Other, COMMA, Number, Dot, Other, Number, Number, Number,
    Number, Number, Number, Number, Number, Number, Number, COLON, Other, Other, EQ, Other, Other,
    AT, Name, Name, Name, Name, Name, Name, Name, Name, Name, Name, Name, Name, Name, Name, Name,
    Name, Name, Name, Name, Name, Name, Name, Name, Name, Name, Name, L_BRACKET, Other, R_BRACKET,
    Other, Name, Other, Name, Name, Name, Name, Name, Name, Name, Name, Name, Name, Name, Name,
    Name, Name, Name, Name, Name, Name, Name, Name, Name, Name, Name, Name, Name, Name, L_CURLY,
    PIPE, R_CURLY, Other, Other, Other, Other, Other, Other, Other, Other, Other, Other, Other,
    Other, Other, Other, Other, Other, Other, Other, Other, Other, Other, Other, Other, Other,
    Other, Other, Other, Other, Other, Other, Other, Other, Other, Other, Other, Other, Other,
    Other, Other, Other, Other, Other, Other, Other, Other, Other, Other, Other, Other, Other,
    Other, Other, Other, Other, Other, Other, Other, Other, Other, Other, Other, Other, Other,
    Other, Other, Other, Other, Other, Other, Other, Other, Other, Other, Other, Other, Other,
    Other, Other, Other, Other, Other, Other, Other, Other, Other, Other, Other, Other, Other,
    Other, Other, Other, Other, Other, Other, Other, Other, Other, Other, Other, Other, Other,
    Other, Other, Other, Other, Other, Other, Other, Other, Other, Other, Other, Other, Other,
    Other, Other, Other, Other, Other, Other, Other, Other, Other, Other, Other, Other, Other,
    Other, Other,
];

// Whether a byte is a letter, a digit or `_`.
static NAME_CONTINUES: [bool; 256] = [
    false, false, false, false, false, false, false, false, false, false, false, false, false,
    false, false, false, false, false, false, false, false, false, false, false, false, false,
    false, false, false, false, false, false, false, false, false, false, false, false, false,
    false, false, false, false, false, false, false, false, false, true, true, true, true, true,
    true, true, true, true, true, false, false, false, false, false, false, false, true, true,
    true, true, true, true, true, true, true, true, true, true, true, true, true, true, true, true,
    true, true, true, true, true, true, true, true, false, false, false, false, true, false, true,
    true, true, true, true, true, true, true, true, true, true, true, true, true, true, true, true,
    true, true, true, true, true, true, true, true, true, false, false, false, false, false, false,
    false, false, false, false, false, false, false, false, false, false, false, false, false,
    false, false, false, false, false, false, false, false, false, false, false, false, false,
    false, false, false, false, false, false, false, false, false, false, false, false, false,
    false, false, false, false, false, false, false, false, false, false, false, false, false,
    false, false, false, false, false, false, false, false, false, false, false, false, false,
    false, false, false, false, false, false, false, false, false, false, false, false, false,
    false, false, false, false, false, false, false, false, false, false, false, false, false,
    false, false, false, false, false, false, false, false, false, false, false, false, false,
    false, false, false, false, false, false, false, false, false, false, false, false, false,
    false, false, false, false, false, false, false, false, false, false,
];

// Whether a byte is white space or a line terminator.
static BLANKS: [bool; 256] = [
    false, false, false, false, false, false, false, false, false, true, true, false, false, true,
    false, false, false, false, false, false, false, false, false, false, false, false, false,
    false, false, false, false, false, true, false, false, false, false, false, false, false,
    false, false, false, false, false, false, false, false, false, false, false, false, false,
    false, false, false, false, false, false, false, false, false, false, false, false, false,
    false, false, false, false, false, false, false, false, false, false, false, false, false,
    false, false, false, false, false, false, false, false, false, false, false, false, false,
    false, false, false, false, false, false, false, false, false, false, false, false, false,
    false, false, false, false, false, false, false, false, false, false, false, false, false,
    false, false, false, false, false, false, false, false, false, false, false, false, false,
    false, false, false, false, false, false, false, false, false, false, false, false, false,
    false, false, false, false, false, false, false, false, false, false, false, false, false,
    false, false, false, false, false, false, false, false, false, false, false, false, false,
    false, false, false, false, false, false, false, false, false, false, false, false, false,
    false, false, false, false, false, false, false, false, false, false, false, false, false,
    false, false, false, false, false, false, false, false, false, false, false, false, false,
    false, false, false, false, false, false, false, false, false, false, false, false, false,
    false, false, false, false, false, false, false, false, false, false, false, false, false,
    false, false, false, false, false, false, false, false, false, false, false, false, false,
    false, false, false, false, false, false, false, false,
];

#[inline(always)]
pub fn is_blank_byte(b: u8) -> bool
    ensures { result ≡ (is_white_space b || is_line_terminator b) }
{
    BLANKS[b as usize]
}

#[inline(always)]
pub fn start_of(b: u8) -> Start
    ensures { result ≡ start_of b }
{
    STARTS[b as usize]
}

#[inline(always)]
pub fn is_name_continue(b: u8) -> bool
    ensures { result ≡ is_name_continue b }
{
    NAME_CONTINUES[b as usize]
}
