// The output of mode tokens.
ghost use Rattle.std.specs.Prelude.{◌≡◌, ◌+◌, [], ◌∷◌};
ghost use Rattle.apollo_parser.specs.LexerAnswers.{answer_of, answers_left, error_answer};
ghost use Rattle.apollo_parser.specs.Printed.{range_text, token_text};
ghost use Rattle.gqlcst_run.specs.Buffering.{Puts, PutsSome};
ghost use Rattle.gqlcst_run.specs.Parsing.{finding_of};
ghost use Rattle.gqlcst_run.specs.Rendering.{AreLines, IsAnswerForm, IsForm, error_count};

use crate::finding::{Finding, finding_of};
use crate::output_buffer::OutputBuffer;
use crate::report::digits::Digits;
use apollo_parser::laws::answers_fit;
use apollo_parser::{LexError, Lexer, Token, TokenKind};
use byte_streams::Sink;

// Puts a name, and from where to where a text is.
#[inline(always)]
fn put_head<W: Sink>(
    buffer: &mut OutputBuffer,
    writer: &mut W,
    offset: &mut Digits,
    name: &str,
    start: usize,
    len: usize,
)
    ensures { Puts (buffer.old, W.account writer.old) (range_text name.now start (start + len))
        (buffer.new, W.account writer.new) }
{
    offset.move_to(start as u128);
    buffer.put_four(writer, name.as_bytes(), b"@", offset.digits(), b":");
    offset.move_to(start as u128 + len as u128);
    buffer.put(writer, offset.digits());
}

// Puts the printed form of a token.
fn put_token<W: Sink>(
    buffer: &mut OutputBuffer,
    writer: &mut W,
    offset: &mut Digits,
    token: Token<'_>,
)
    ensures { PutsSome (IsForm (token_text token.entry.kind token.entry.text.now token.entry.index))
        (buffer.old, W.account writer.old) (buffer.new, W.account writer.new) }
{
    let text = token.data();
    put_head(
        buffer,
        writer,
        offset,
        token.name(),
        token.index(),
        text.len(),
    );
    if token.kind() == TokenKind::Eof {
        return;
    }
    buffer.put_quoted_after(writer, " ", text);
}

// Puts the printed form of the error for bad text, or for the limit.
fn put_lex_error<W: Sink>(
    buffer: &mut OutputBuffer,
    writer: &mut W,
    offset: &mut Digits,
    error: LexError<'_>,
)
    ensures { PutsSome (IsAnswerForm (error_answer error.entry.is_limit error.entry.text.now error.entry.index))
        (buffer.old, W.account writer.old) (buffer.new, W.account writer.new) }
{
    let text = error.data();
    let (front, quoted, back) = error.message_parts();
    put_head(buffer, writer, offset, "ERROR", error.index(), text.len());
    buffer.put_str(writer, " ");
    buffer.put_quoted_parts(writer, front, quoted, back);
    buffer.put_str(writer, " ");
    buffer.put_str(writer, text);
}

// Puts the printed form of an item, and answers how many errors it is.
fn put_item<W: Sink>(
    buffer: &mut OutputBuffer,
    writer: &mut W,
    offset: &mut Digits,
    item: Result<Token<'_>, LexError<'_>>,
) -> usize
    ensures puts { PutsSome (IsAnswerForm (answer_of item.entry)) (buffer.old, W.account writer.old)
        (buffer.new, W.account writer.new) }
    ensures count { result ≡ error_count (answer_of item.entry ∷ []) }
{
    match item {
        Ok(token) => {
            put_token(buffer, writer, offset, token);
            0
        }
        Err(error) => {
            put_lex_error(buffer, writer, offset, error);
            1
        }
    }
}

/// Puts a line for each item that is left, an error in place of the first that the limit leaves out. Answers the
/// finding for the errors.
pub fn put_tokens<W: Sink>(buffer: &mut OutputBuffer, writer: &mut W, items: Lexer<'_>) -> Finding
    ensures lines { PutsSome (AreLines IsAnswerForm (answers_left items.entry)) (buffer.old, W.account writer.old)
        (buffer.new, W.account writer.new) }
    ensures finding { result ≡ finding_of (error_count (answers_left items.entry)) }
{
    answers_fit(&items);
    let mut offset = Digits::new();
    let mut errors = 0;
    for item in items {
        errors += put_item(buffer, writer, &mut offset, item);
        buffer.put_str(writer, "\n");
    }
    finding_of(errors)
}
