// The errors that a lexer gives.
ghost use Rattle.std.specs.Prelude.{◌≡◌, ◌+◌, ◌++◌, ◌<◌, ◌^◌, length, IsTrue, [], IfOk};
ghost use Rattle.apollo_lexer.specs.LexErrors.{lex_subject, IsLexMessage};

use crate::error::Error;
use crate::faults::{bad_text_error, bad_text_message_parts};
use std::alloc::{AllocError, Allocator};

const LIMIT_MESSAGE: &str = "token limit reached, aborting lexing";

/// Bad text of a source, which it borrows, or that the token limit is met.
#[derive(Clone, Copy, Debug, PartialEq, Eq)]
pub struct LexError<'a> {
    pub(crate) text: &'a str,
    pub(crate) index: usize,
    pub(crate) is_limit: bool,
    // where it ends is an offset
    ghost in_range: { index + length text.now < 2 ^ 64 },
    ghost no_text: { IsTrue is_limit → text.now ≡ [] },
}

impl<'a> LexError<'a> {
    /// The bad text, which is empty for a limit error.
    pub fn data(&self) -> &'a str
        ensures text { result.now ≡ self.now.text.now }
        ensures none { IsTrue self.now.is_limit → result.now ≡ [] }
    {
        self.text
    }

    /// The byte of the source where it begins.
    pub fn index(&self) -> usize
        ensures { result ≡ self.now.index }
    {
        self.index
    }

    /// Whether the token limit was met.
    pub fn is_limit(&self) -> bool
        ensures { result ≡ self.now.is_limit }
    {
        self.is_limit
    }

    /// The message of its error in three parts: words, what they quote of the text, and words after that. It takes no
    /// memory.
    pub fn message_parts(&self) -> (&'static str, &'a str, &'static str)
        ensures { IsLexMessage self.now.is_limit self.now.text.now (result.0.now ++ result.1.now ++ result.2.now) }
    {
        if self.is_limit {
            return (LIMIT_MESSAGE, "", "");
        }
        bad_text_message_parts(self.text)
    }

    /// The error, with a message, and with a text of its own. It fails only where memory is refused.
    pub fn to_error<A: Allocator + Copy>(&self, alloc: A) -> Result<Error<A>, AllocError>
        ensures subject { IfOk result (λ e. e.subject ≡ lex_subject self.now.is_limit self.now.text.now) }
        ensures index { IfOk result (λ e. e.index ≡ self.now.index) }
        ensures message { IfOk result (λ e. IsLexMessage self.now.is_limit self.now.text.now e.message) }
    {
        if self.is_limit {
            return Ok(Error::limit_from_static(LIMIT_MESSAGE, self.index));
        }
        let error = bad_text_error(alloc, self.text, self.index)?;
        Ok(error)
    }
}
