// What an error says, in little memory: a message of the program is borrowed, and short texts are in the error itself.
// Longer ones are owned.
ghost use Rattle.std.specs.Prelude.{◌≡◌, ◌+◌, ◌≤◌, ◌++◌, length, IfOk, IsOk};
ghost use Rattle.apollo_lexer.specs.Diagnostics.{of_text, subject_text};
ghost use Rattle.apollo_lexer.specs.Subjects.{IsPart, part, words_text, message_of, subject_of, IsQuoting, Quotes};
ghost use Rattle.apollo_lexer.specs.Subjects.{Same};

use arrayvec::{ArrayString, CapacityError};
use std::alloc::{AllocError, Allocator};

// The message of an error that is about no text.
#[derive(Drop)]
pub enum MessageText<A: Allocator> {
    Static(&'static str),
    Owned(String<A>),
}

// The message of an error, and what it is about.
#[derive(Drop)]
pub enum ErrorData<A: Allocator> {
    // a message of the program, about a short text
    Short(&'static str, ArrayString<24>),
    // a message of the program, about a longer text
    Long(&'static str, String<A>),
    // a short message that quotes the text which it is about, and where that begins and ends in it
    Quoting(u8, u8, ArrayString<40>),
    // a longer one
    QuotingLong(usize, usize, String<A>),
    // a short message that quotes something else, and a short text
    Pair(ArrayString<24>, ArrayString<8>),
    // a message and a text that were given
    Text(String<A>, String<A>),
    Eof(MessageText<A>),
    LimitExceeded(MessageText<A>),
}

impl<A: Allocator> MessageText<A> {
    fn as_str(&self) -> &str
        ensures { result.now ≡ words_text self.now }
    {
        match self {
            MessageText::Static(text) => text,
            MessageText::Owned(text) => text.as_str(),
        }
    }

    fn try_clone<B: Allocator>(&self, alloc: B) -> Result<MessageText<B>, AllocError>
        ensures { IfOk result (λ w. words_text w ≡ words_text self.now) }
    {
        match self {
            MessageText::Static(text) => Ok(MessageText::Static(text)),
            MessageText::Owned(text) => {
                let text = String::from_str(alloc, text.as_str())?;
                Ok(MessageText::Owned(text))
            }
        }
    }
}

// What lies between two offsets of a text.
fn part(text: &str, start: usize, end: usize) -> &str
    requires { IsPart start end text.now }
    ensures { result.now ≡ part start end text.now }
{
    &text[start..end]
}

impl<A: Allocator> ErrorData<A> {
    /// A message that quotes the text between two marks, if it has at most 40 bytes.
    pub fn quoting<'t>(
        words: &'t str,
        opening: &'t str,
        text: &'t str,
        closing: &'t str,
    ) -> Result<Self, CapacityError<&'t str>>
        ensures value { IfOk result (Quotes words.now opening.now text.now closing.now) }
        ensures short { length words.now + length opening.now + length text.now + length closing.now ≤ 40
            → IsOk result }
    {
        let mut message = ArrayString::<40>::new();
        message.try_push_str(words)?;
        message.try_push_str(opening)?;
        let start = message.len();
        message.try_push_str(text)?;
        let end = message.len();
        message.try_push_str(closing)?;
        Ok(ErrorData::Quoting(start as u8, end as u8, message))
    }

    /// A message that quotes the text between two marks.
    pub fn quoting_long(
        alloc: A,
        words: &str,
        opening: &str,
        text: &str,
        closing: &str,
    ) -> Result<Self, AllocError>
        ensures { IfOk result (Quotes words.now opening.now text.now closing.now) }
    {
        let mut message = String::new(alloc);
        message.push_str(words)?;
        message.push_str(opening)?;
        let start = message.len();
        message.push_str(text)?;
        let end = message.len();
        message.push_str(closing)?;
        Ok(ErrorData::QuotingLong(start, end, message))
    }

    /// A message of at most 24 bytes that quotes something else between two pieces, and a text of at most 8.
    pub fn pair<'t>(
        front: &'t str,
        quoted: &'t str,
        end: &'t str,
        text: &'t str,
    ) -> Result<Self, CapacityError<&'t str>>
        ensures message { IfOk result (λ d. message_of d ≡ front.now ++ quoted.now ++ end.now) }
        ensures subject { IfOk result (λ d. subject_of d ≡ of_text text.now) }
        ensures quoting { IfOk result (λ d. IsQuoting d) }
        ensures short { length front.now + length quoted.now + length end.now ≤ 24 → length text.now ≤ 8 → IsOk result }
    {
        let mut message = ArrayString::<24>::new();
        message.try_push_str(front)?;
        message.try_push_str(quoted)?;
        message.try_push_str(end)?;
        let text = ArrayString::<8>::from(text)?;
        Ok(ErrorData::Pair(message, text))
    }

    /// The message.
    pub fn message(&self) -> &str
        ensures { result.now ≡ message_of self.now }
    {
        match self {
            ErrorData::Short(message, _) => message,
            ErrorData::Long(message, _) => message,
            ErrorData::Quoting(_, _, message) => message.as_str(),
            ErrorData::QuotingLong(_, _, message) => message.as_str(),
            ErrorData::Pair(message, _) => message.as_str(),
            ErrorData::Text(message, _) => message.as_str(),
            ErrorData::Eof(words) => words.as_str(),
            ErrorData::LimitExceeded(words) => words.as_str(),
        }
    }

    /// The text that it is about, which is empty for a limit and for the end.
    pub fn text(&self) -> &str
        requires { IsQuoting self.now }
        ensures { result.now ≡ subject_text (subject_of self.now) }
    {
        match self {
            ErrorData::Short(_, text) => text.as_str(),
            ErrorData::Long(_, text) => text.as_str(),
            ErrorData::Quoting(start, end, message) => part(
                message.as_str(),
                usize::from(*start),
                usize::from(*end),
            ),
            ErrorData::QuotingLong(start, end, message) => part(message.as_str(), *start, *end),
            ErrorData::Pair(_, text) => text.as_str(),
            ErrorData::Text(_, text) => text.as_str(),
            _ => "",
        }
    }

    /// The same with texts of its own. It fails only where memory is refused.
    pub fn try_clone<B: Allocator + Copy>(&self, alloc: B) -> Result<ErrorData<B>, AllocError>
        ensures { IfOk result (Same self.now) }
    {
        match self {
            ErrorData::Short(message, text) => Ok(ErrorData::Short(message, *text)),
            ErrorData::Long(message, text) => {
                let text = String::from_str(alloc, text.as_str())?;
                Ok(ErrorData::Long(message, text))
            }
            ErrorData::Quoting(start, end, message) => Ok(ErrorData::Quoting(
                *start, *end, *message,
            )),
            ErrorData::QuotingLong(start, end, message) => {
                let message = String::from_str(alloc, message.as_str())?;
                Ok(ErrorData::QuotingLong(*start, *end, message))
            }
            ErrorData::Pair(message, text) => Ok(ErrorData::Pair(*message, *text)),
            ErrorData::Text(message, text) => {
                let message = String::from_str(alloc, message.as_str())?;
                let text = String::from_str(alloc, text.as_str())?;
                Ok(ErrorData::Text(message, text))
            }
            ErrorData::Eof(words) => {
                let words = words.try_clone(alloc)?;
                Ok(ErrorData::Eof(words))
            }
            ErrorData::LimitExceeded(words) => {
                let words = words.try_clone(alloc)?;
                Ok(ErrorData::LimitExceeded(words))
            }
        }
    }
}
