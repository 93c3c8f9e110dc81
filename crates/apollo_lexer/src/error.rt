// Errors of the lexer and the parser.
ghost use Rattle.std.specs.Prelude.{◌≡◌, ◌+◌, ◌<◌, ◌≤◌, ◌^◌, ◌++◌, length, IfOk, IsOk, string_bytes, string_len};
ghost use Rattle.std.proofs.Common.{rules};
ghost use Rattle.std.specs.Cmp.Rules.{comparing, hashing};
ghost use Rattle.apollo_lexer.specs.Equal.{same_diagnostic, subject_number, hashed};
ghost use Rattle.apollo_lexer.specs.Printed.{error_text, subject_shown};
ghost use Rattle.apollo_lexer.specs.Diagnostics.{of_text, of_end, of_limit, subject_text, is_end_subject};
ghost use Rattle.apollo_lexer.specs.Diagnostics.{is_limit_subject};

use crate::error_data::{ErrorData, MessageText};
use arrayvec::ArrayString;
use std::alloc::{AllocError, Allocator, Global};
use std::fmt;
use std::hash::{Hash, Hasher};
use std::marker::Model;
use std::mem::size_of;

/// What is wrong, and where: a message, the text of the source that it is about, and the byte where that begins. In
/// place of a text an error may be about the end of the source, or about a limit that was met.
#[derive(Drop)]
pub struct Error<A: Allocator = Global> {
    data: ErrorData<A>,
    index: usize,
}

// Two owned texts, an offset, and which sort of error it is.
const _: () = prove!(size_of::<Error<Global>>() == 64);

impl<A: Allocator> Model for Error<A> {
    ghost use Rattle.std.specs.Prelude.{◌+◌, ◌<◌, ◌^◌, length};
    ghost use Rattle.apollo_lexer.specs.Diagnostics.{Diagnostic, subject_text};

    ghost Value = { Diagnostic };

    ghost use Rattle.apollo_lexer.specs.Subjects.{message_of, subject_of, IsQuoting};

    ghost view = { λ e. record { message = message_of e.data; subject = subject_of e.data; index = e.index } };

    ghost invariant = { λ e. (e.index + length (subject_text (subject_of e.data)) < 2 ^ 64) × IsQuoting e.data };
}

impl<A: Allocator> Error<A> {
    /// An error about a text of the source, at the byte where that begins.
    pub fn with_loc(message: String<A>, text: String<A>, index: usize) -> Self
        requires { index + string_len text < 2 ^ 64 }
        ensures { result ≡ record {
          message = string_bytes message;
          subject = of_text (string_bytes text);
          index = index;
        } }
    {
        Error {
            data: ErrorData::Text(message, text),
            index,
        }
    }

    /// An error about a limit, at a byte of the source.
    pub fn limit(message: String<A>, index: usize) -> Self
        ensures { result ≡ record { message = string_bytes message; subject = of_limit; index = index } }
    {
        Error {
            data: ErrorData::LimitExceeded(MessageText::Owned(message)),
            index,
        }
    }

    /// An error about the end of the source, at a byte of it.
    pub fn eof(message: String<A>, index: usize) -> Self
        ensures { result ≡ record { message = string_bytes message; subject = of_end; index = index } }
    {
        Error {
            data: ErrorData::Eof(MessageText::Owned(message)),
            index,
        }
    }

    /// An error about a limit, at a byte of the source. It takes no memory.
    pub fn limit_from_static(message: &'static str, index: usize) -> Self
        ensures { result ≡ record { message = message.now; subject = of_limit; index = index } }
    {
        Error {
            data: ErrorData::LimitExceeded(MessageText::Static(message)),
            index,
        }
    }

    /// An error about the end of the source, at a byte of it. It takes no memory.
    pub fn eof_from_static(message: &'static str, index: usize) -> Self
        ensures { result ≡ record { message = message.now; subject = of_end; index = index } }
    {
        Error {
            data: ErrorData::Eof(MessageText::Static(message)),
            index,
        }
    }

    /// The text that it is about, which is empty for a limit and for the end.
    pub fn data(&self) -> &str
        ensures { result.now ≡ subject_text self.now.subject }
    {
        self.data.text()
    }

    /// Whether it is about a limit.
    pub fn is_limit(&self) -> bool
        ensures { result ≡ is_limit_subject self.now.subject }
    {
        matches!(&self.data, ErrorData::LimitExceeded(_))
    }

    /// Whether it is about the end of the source.
    pub fn is_eof(&self) -> bool
        ensures { result ≡ is_end_subject self.now.subject }
    {
        matches!(&self.data, ErrorData::Eof(_))
    }

    /// The byte of the source where it begins.
    pub fn index(&self) -> usize
        ensures { result ≡ self.now.index }
    {
        self.index
    }

    /// What is wrong, in words.
    pub fn message(&self) -> &str
        ensures { result.now ≡ self.now.message }
    {
        self.data.message()
    }

    /// An equal error with texts of its own. It fails only where memory is refused.
    pub fn try_clone<B: Allocator + Copy>(&self, alloc: B) -> Result<Error<B>, AllocError>
        ensures { IfOk result (λ e. e ≡ self.now) }
    {
        let data = self.data.try_clone(alloc)?;
        Ok(Error {
            data,
            index: self.index,
        })
    }
}

/// An error about a text of the source, at the byte where that begins. Only a text of more than 24 bytes takes memory,
/// and it fails only where that is refused.
pub fn static_error<A: Allocator>(
    alloc: A,
    message: &'static str,
    text: &str,
    index: usize,
) -> Result<Error<A>, AllocError>
    requires { index + length text.now < 2 ^ 64 }
    ensures value { IfOk result (λ e. e ≡ record { message = message.now; subject = of_text text.now; index = index }) }
    ensures short { length text.now ≤ 24 → IsOk result }
{
    if let Ok(text) = ArrayString::from(text) {
        let data = ErrorData::Short(message, text);
        return Ok(Error { data, index });
    }
    let data = ErrorData::Long(message, String::from_str(alloc, text)?);
    Ok(Error { data, index })
}

/// An error about a text of the source, at the byte where that begins, whose message quotes the text: the words, an
/// opening mark, the text and a closing mark. Only a message of more than 40 bytes takes memory, and it fails only
/// where that is refused.
pub fn quoting_error<A: Allocator>(
    alloc: A,
    words: &str,
    opening: &str,
    text: &str,
    closing: &str,
    index: usize,
) -> Result<Error<A>, AllocError>
    requires { index + length text.now < 2 ^ 64 }
    ensures value { IfOk result
        (λ e. e ≡ record {
          message = words.now ++ opening.now ++ text.now ++ closing.now;
          subject = of_text text.now;
          index = index;
        }) }
    ensures short { length words.now + length opening.now + length text.now + length closing.now ≤ 40 → IsOk result }
{
    if let Ok(data) = ErrorData::quoting(words, opening, text, closing) {
        return Ok(Error { data, index });
    }
    let data = ErrorData::quoting_long(alloc, words, opening, text, closing)?;
    Ok(Error { data, index })
}

// An error about a text of the source, at the byte where that begins, whose message quotes something else between two
// pieces.
pub(crate) fn quoting_other<A: Allocator + Copy>(
    alloc: A,
    front: &str,
    quoted: &str,
    end: &str,
    text: &str,
    index: usize,
) -> Result<Error<A>, AllocError>
    requires { index + length text.now < 2 ^ 64 }
    ensures { IfOk result (λ e. e
        ≡ record { message = front.now ++ quoted.now ++ end.now; subject = of_text text.now; index = index }) }
{
    if let Ok(data) = ErrorData::pair(front, quoted, end, text) {
        return Ok(Error { data, index });
    }
    let message = format!(in alloc; "{front}{quoted}{end}")?;
    let text = String::from_str(alloc, text)?;
    Ok(Error::with_loc(message, text, index))
}

impl<A: Allocator> Error<A> {
    // Which of the three things it is about.
    fn subject_number(&self) -> u8
        ensures { result ≡ subject_number self.now.subject }
    {
        match &self.data {
            ErrorData::Eof(_) => 1,
            ErrorData::LimitExceeded(_) => 2,
            _ => 0,
        }
    }

    // How its subject is printed.
    fn shown(&self) -> &str
        ensures { result.now ≡ subject_shown self.now.subject }
    {
        match &self.data {
            ErrorData::Eof(_) => "EOF",
            _ => self.data(),
        }
    }
}

impl<A: Allocator> PartialEq for Error<A> {
    ghost eq = { same_diagnostic };

    ghost laws = { Prim.search (comparing, rules) depth 9 };

    fn eq(&self, other: &Error<A>) -> bool {
        self.message() == other.message()
            && self.subject_number() == other.subject_number()
            && self.data() == other.data()
            && self.index() == other.index()
    }
}

impl<A: Allocator> Eq for Error<A> {
    ghost laws = { Prim.search (comparing, rules) depth 9 };
}

impl<A: Allocator> Hash for Error<A> {
    ghost hash_input = { hashed };

    ghost respects_eq = { Prim.search (hashing, rules) depth 9 };

    fn hash<H: Hasher>(&self, state: &mut H) {
        self.message().hash(state);
        state.write_u8(self.subject_number());
        self.data().hash(state);
        state.write_usize(self.index());
    }
}

impl<A: Allocator> fmt::Display for Error<A> {
    ghost output = { error_text };

    fn fmt<W: fmt::Write>(&self, f: &mut fmt::Formatter<W>) -> fmt::Result {
        let start = self.index;
        let end = start + self.data().len();
        let message = self.message();
        let shown = self.shown();
        write!(f, "ERROR@{start}:{end} {message:?} {shown}")
    }
}

impl<A: Allocator> fmt::Debug for Error<A> {
    ghost debug_output = { error_text };

    fn fmt<W: fmt::Write>(&self, f: &mut fmt::Formatter<W>) -> fmt::Result {
        write!(f, "{self}")
    }
}
