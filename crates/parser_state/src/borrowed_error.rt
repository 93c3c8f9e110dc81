// What a parser reports, and the errors that are made of it.
ghost use Rattle.std.specs.Prelude.{◌≡◌, ◌++◌, true, IfOk, string_bytes};
ghost use Rattle.apollo_lexer.specs.Diagnostics.{is_end_subject, is_limit_subject, subject_text};
ghost use Rattle.parser_rules.specs.Messages.{names_found, message_text};
ghost use Rattle.parser_rules.specs.State as state;
ghost use Rattle.parser_state.specs.View.{lexeme_of};
ghost use Rattle.parser_state.specs.Errors.{error_of, fault_error, subject_of};

use crate::state::is_eof;
use apollo_lexer::{Error, LexError, Token, quoting_error, static_error};
use parser_rules::Message;
use std::alloc::{AllocError, Allocator};
use std::mem::size_of;

/// What is wrong, and where, in little memory: it borrows the source.
#[derive(Clone, Copy)]
pub enum BorrowedError<'i> {
    /// Bad text, or that the token limit is met.
    Lexer(LexError<'i>),
    /// A fault of the grammar, at this token.
    Fault(Message, Token<'i>),
    /// That the recursion limit is met, at this token.
    RecursionLimit(Token<'i>),
}

// A reference to a text, an offset, the kind and the message.
const _: () = prove!(size_of::<BorrowedError<'static>>() == 40);

const RECURSION_LIMIT_MESSAGE: &str = "parser recursion limit reached";

// What a message that says what was found says at the end.
fn end_text<A: Allocator>(alloc: A, message: Message) -> Result<String<A>, AllocError>
    requires { names_found message ≡ true }
    ensures { IfOk result (λ t. string_bytes t ≡ message_text message state.at_end) }
{
    let words = message.description();
    format!(in alloc; "{words}, got EOF")
}

// The error of a message that says what was found.
fn found_error<A: Allocator + Copy>(
    alloc: A,
    message: Message,
    found: Token<'_>,
) -> Result<Error<A>, AllocError>
    requires { names_found message ≡ true }
    ensures { IfOk result (λ e. e ≡ fault_error message (lexeme_of found.entry)) }
{
    if is_eof(found.kind()) {
        let text = end_text(alloc, message)?;
        return Ok(Error::eof(text, found.index()));
    }
    let words = message.description();
    let error = quoting_error(alloc, words, ", got ", found.data(), "", found.index())?;
    Ok(error)
}

// The error of a fault of the grammar, at this token.
fn fault_error<A: Allocator + Copy>(
    alloc: A,
    message: Message,
    found: Token<'_>,
) -> Result<Error<A>, AllocError>
    ensures { IfOk result (λ e. e ≡ fault_error message (lexeme_of found.entry)) }
{
    if message.names_found() {
        return found_error(alloc, message, found);
    }
    let words = message.description();
    if is_eof(found.kind()) {
        return Ok(Error::eof_from_static(words, found.index()));
    }
    let error = static_error(alloc, words, found.data(), found.index())?;
    Ok(error)
}

// The message of a fault at this token in three parts.
fn fault_parts<'i>(message: Message, found: Token<'i>) -> (&'static str, &'i str, &'i str)
    ensures { result.0.now ++ result.1.now
        ++ result.2.now ≡ message_text message (state.found_at (lexeme_of found.entry)) }
{
    let words = message.description();
    if !message.names_found() {
        return (words, "", "");
    }
    if is_eof(found.kind()) {
        return (words, ", got ", "EOF");
    }
    (words, ", got ", found.data())
}

// The text of a token; the end has none.
fn found_text<'i>(found: Token<'i>) -> &'i str
    ensures { result.now ≡ subject_text (subject_of (state.found_at (lexeme_of found.entry))) }
{
    if is_eof(found.kind()) {
        return "";
    }
    found.data()
}

impl<'i> BorrowedError<'i> {
    /// The text that it is about, which is empty for a limit and for the end.
    pub fn data(&self) -> &'i str
        ensures { result.now ≡ subject_text (error_of self.now).subject }
    {
        match self {
            BorrowedError::Lexer(error) => error.data(),
            BorrowedError::Fault(_, found) => found_text(*found),
            BorrowedError::RecursionLimit(_) => "",
        }
    }

    /// The byte of the source where it begins.
    pub fn index(&self) -> usize
        ensures { result ≡ (error_of self.now).index }
    {
        match self {
            BorrowedError::Lexer(error) => error.index(),
            BorrowedError::Fault(_, found) => found.index(),
            BorrowedError::RecursionLimit(found) => found.index(),
        }
    }

    /// Whether it is about a limit.
    pub fn is_limit(&self) -> bool
        ensures { result ≡ is_limit_subject (error_of self.now).subject }
    {
        match self {
            BorrowedError::Lexer(error) => error.is_limit(),
            BorrowedError::Fault(_, _) => false,
            BorrowedError::RecursionLimit(_) => true,
        }
    }

    /// Whether it is about the end of the source.
    pub fn is_eof(&self) -> bool
        ensures { result ≡ is_end_subject (error_of self.now).subject }
    {
        match self {
            BorrowedError::Fault(_, found) => is_eof(found.kind()),
            _ => false,
        }
    }

    /// What is wrong, in words: its message, in three parts. It takes no memory.
    pub fn message_parts(&self) -> (&'static str, &'i str, &'i str)
        ensures { result.0.now ++ result.1.now ++ result.2.now ≡ (error_of self.now).message }
    {
        match self {
            BorrowedError::Lexer(error) => error.message_parts(),
            BorrowedError::Fault(message, found) => fault_parts(*message, *found),
            BorrowedError::RecursionLimit(_) => (RECURSION_LIMIT_MESSAGE, "", ""),
        }
    }

    /// The same error with texts of its own. It fails only where memory is refused.
    pub fn to_error<A: Allocator + Copy>(&self, alloc: A) -> Result<Error<A>, AllocError>
        ensures { IfOk result (λ e. e ≡ error_of self.now) }
    {
        let error = match self {
            BorrowedError::Lexer(error) => error.to_error(alloc)?,
            BorrowedError::Fault(message, found) => fault_error(alloc, *message, *found)?,
            BorrowedError::RecursionLimit(found) => {
                Error::limit_from_static(RECURSION_LIMIT_MESSAGE, found.index())
            }
        };
        Ok(error)
    }
}
