// The items of a text as rows.
ghost use Rattle.std.specs.Prelude.{◌≡◌, ◌∷◌, [], ◌++◌, ◌<◌, ◌^◌, List, IfOk, Some, filter, length, map, not};
ghost use Rattle.std.specs.List.{AllByRecursion};
ghost use Rattle.apollo_parser.specs.Answers.{is_token};
ghost use Rattle.apollo_parser.specs.LexErrors.{AreLexErrors};
ghost use Rattle.apollo_parser.specs.LexerAnswers.{answer_of, answers_left};
ghost use Rattle.c_parsing.specs.declared.rows.ItemRow.{ItemRow as Row};
ghost use Rattle.c_parsing.specs.Items.{ItemsOutcome, item_kind, item_row};
ghost use Rattle.apollo_parser.specs.Filled.{filled};

use crate::errors::{counted_bytes, write_found};
use crate::rows::{Counts, ErrorRow, ItemRow, status};
use crate::source::{refused, text_of};
use apollo_parser::{Error, LexError, Lexer, SyntaxKind, Token, TokenKind};
use std::alloc::{AllocError, Allocator};

// The kind of the leaf that a token is in a tree; a name has IDENT, and the end ERROR.
fn leaf_kind(kind: TokenKind) -> u16
    ensures { result ≡ item_kind (Some kind) }
{
    let leaf = match kind {
        TokenKind::Whitespace => SyntaxKind::WHITESPACE,
        TokenKind::Comment => SyntaxKind::COMMENT,
        TokenKind::Bang => SyntaxKind::BANG,
        TokenKind::Dollar => SyntaxKind::DOLLAR,
        TokenKind::Amp => SyntaxKind::AMP,
        TokenKind::Spread => SyntaxKind::SPREAD,
        TokenKind::Comma => SyntaxKind::COMMA,
        TokenKind::Colon => SyntaxKind::COLON,
        TokenKind::Eq => SyntaxKind::EQ,
        TokenKind::At => SyntaxKind::AT,
        TokenKind::LParen => SyntaxKind::L_PAREN,
        TokenKind::RParen => SyntaxKind::R_PAREN,
        TokenKind::LBracket => SyntaxKind::L_BRACK,
        TokenKind::RBracket => SyntaxKind::R_BRACK,
        TokenKind::LCurly => SyntaxKind::L_CURLY,
        TokenKind::RCurly => SyntaxKind::R_CURLY,
        TokenKind::Pipe => SyntaxKind::PIPE,
        TokenKind::Eof => SyntaxKind::ERROR,
        TokenKind::Name => SyntaxKind::IDENT,
        TokenKind::StringValue => SyntaxKind::STRING,
        TokenKind::Int => SyntaxKind::INT,
        TokenKind::Float => SyntaxKind::FLOAT,
    };
    leaf.to_u16()
}

fn row_of(item: Result<Token<'_>, LexError<'_>>) -> ItemRow
    requires { (item_row (answer_of item)).end < 2 ^ 32 }
    ensures { result ≡ item_row (answer_of item.entry) }
{
    match item {
        Ok(token) => ItemRow {
            start: token.index() as u32,
            end: (token.index() + token.data().len()) as u32,
            kind: leaf_kind(token.kind()),
            is_error: 0,
        },
        Err(error) => ItemRow {
            start: error.index() as u32,
            end: (error.index() + error.data().len()) as u32,
            kind: SyntaxKind::ERROR.to_u16(),
            is_error: 1,
        },
    }
}

// Writes one more row, if there is room. Those before it were written.
fn put(rows: &mut [ItemRow], at: usize, row: ItemRow)
    ensures { (before written : List Row) → length written ≡ at → rows.old ≡ filled before written
        → rows.new ≡ filled before (written ++ row ∷ []) }
{
    if at < rows.len() {
        rows[at] = row;
    }
}

// Writes the rows of a lexer's answers, as far as there is room. It answers how many there are, and their errors.
fn write_items<A: Allocator + Copy>(
    alloc: A,
    lexer: Lexer<'_>,
    rows: &mut [ItemRow],
) -> Result<(usize, Vec<Error<A>, A>), AllocError>
    requires { AllByRecursion (λ answer. (item_row answer).end < 2 ^ 32) (answers_left lexer) }
    ensures rows { IfOk result (λ found. rows.new ≡ filled rows.old (map item_row (answers_left lexer.entry))) }
    ensures count { IfOk result (λ found. found.0 ≡ length (answers_left lexer.entry)) }
    ensures errors { IfOk result
        (λ found. AreLexErrors (filter (λ answer. not (is_token answer)) (answers_left lexer.entry)) found.1.items) }
{
    let mut errors = Vec::new(alloc);
    let mut count: usize = 0;
    for item in lexer {
        put(rows, count, row_of(item));
        if let Err(error) = item {
            errors.push(error.to_error(alloc)?)?;
        }
        count += 1;
    }
    Ok((count, errors))
}

/// Cuts a text into its items (GraphQL October 2021, section 2.1, "Source Text"): tokens, bad text, and the end; or as
/// many of them as the limit allows, and then the limit. It writes their rows, the rows of the errors, one for each bad
/// text and for the limit, and the bytes of the errors' messages, each as far as there is room, and answers how much
/// there is.
///
/// What it promises is `ItemsOutcome` in `specs/Items.antt`.
pub fn lex_into<A: Allocator + Copy>(
    alloc: A,
    source: &[u8],
    token_limit: usize,
    items: &mut [ItemRow],
    errors: &mut [ErrorRow],
    messages: &mut [u8],
) -> Counts
    ensures { ItemsOutcome source.now token_limit
        (record { items = items.old; errors = errors.old; messages = messages.old })
        (record { items = items.new; errors = errors.new; messages = messages.new }) result }
{
    let text = match text_of(source) {
        Ok(text) => text,
        Err(status) => return refused(status),
    };
    let lexer = Lexer::new(text).with_limit(token_limit);
    let Ok((count, made)) = write_items(alloc, lexer, items) else {
        return refused(status::NO_MEMORY);
    };
    let found = made.as_slice();
    let Some(message_bytes) = counted_bytes(found) else {
        return refused(status::NO_MEMORY);
    };
    write_found(found, errors, messages);
    Counts {
        elements: count,
        text_bytes: 0,
        errors: found.len(),
        message_bytes,
        recursion_high: 0,
        token_high: count,
        status: status::OK,
    }
}
