// What is wrong with bad text, and the errors that say it.
ghost use Rattle.std.specs.Prelude.{◌≡◌, ℕ, ◌+◌, ◌≤◌, ◌<◌, ◌^◌, List, ◌++◌, IfOk, IsTrue, length, take};
ghost use Rattle.lexical_grammar.specs.NumberStates.{run};
ghost use Rattle.lexical_grammar.specs.declared.NumberState.TheVariants.{Begin};
ghost use Rattle.apollo_lexer.specs.BadText.{bad_text_message, braced_fault, escape_fault, fault_behind, first};
ghost use Rattle.apollo_lexer.specs.BadText.{fixed_fault, has_second_escape, last_fault, string_fault};
ghost use Rattle.apollo_lexer.specs.Diagnostics.{of_text};
ghost use Rattle.apollo_lexer.specs.Faults.{words, fault_message, number_fault};
ghost use Rattle.apollo_lexer.specs.Parts.{IsPart, after_characters, or_last};
ghost use Rattle.apollo_lexer.specs.declared.faults.LexFault.{LexFault};
ghost use Rattle.apollo_lexer.specs.declared.faults.LexFault.TheVariants.{UnterminatedString};
ghost use Rattle.apollo_lexer.specs.Wordings.{worded};

use crate::error::{Error, quoting_error, quoting_other, static_error};
use crate::escapes::{bad_escape_len, begins_with_lead, escape_len};
use crate::numbers::number_len;
use lexical_grammar::{NumberState, hex_digits_len};
use memchr::memchr2;
use std::alloc::{AllocError, Allocator};

// What is wrong with bad text. Where a string has several faults and an end, it is the last of them.
#[derive(Clone, Copy, Debug, PartialEq, Eq)]
enum LexFault {
    UnexpectedCharacter,
    LeadingZero,
    NumberSuffix,
    IntegerSuffix,
    FractionalDigit,
    FloatSuffix,
    ExponentDigitOrSign,
    ExponentDigit,
    UnfinishedFloat,
    UnterminatedSpread,
    UnfinishedString,
    UnterminatedString,
    LineTerminator,
    EscapedCharacter,
    IncompleteEscape,
    InvalidEscape,
    UnpairedSurrogate,
    NoScalarValue,
}

// What is wrong with a number that was read so far, when `next` comes after it; `None` when the text ends there.
fn number_fault(state: NumberState, next: Option<u8>) -> LexFault
    ensures { result ≡ number_fault state next }
{
    match next {
        None => match state {
            NumberState::Minus => LexFault::UnexpectedCharacter,
            _ => LexFault::UnfinishedFloat,
        },
        Some(b) => match state {
            NumberState::Minus => LexFault::NumberSuffix,
            NumberState::Zero => if b.is_ascii_digit() {
                LexFault::LeadingZero
            } else {
                LexFault::IntegerSuffix
            },
            NumberState::Integer => LexFault::IntegerSuffix,
            NumberState::Point => LexFault::FractionalDigit,
            NumberState::ExponentIndicator => LexFault::ExponentDigitOrSign,
            NumberState::ExponentSign => LexFault::ExponentDigit,
            _ => LexFault::FloatSuffix,
        },
    }
}

// The byte at the front, if there is one.
fn first(bytes: &[u8]) -> Option<u8>
    ensures { result ≡ first bytes.now }
{
    match bytes {
        [b, ..] => Some(*b),
        [] => None,
    }
}

// What is wrong with an escape of four hex digits at the front, after its `\u`.
fn fixed_fault(rest: &[u8]) -> LexFault
    requires { 2 ≤ length rest.now }
    ensures { result ≡ fixed_fault rest.now }
{
    let n = hex_digits_len(&rest[2..]);
    if n >= 4 {
        LexFault::UnpairedSurrogate
    } else if rest[2 + n..].starts_with(b"\"") {
        LexFault::IncompleteEscape
    } else {
        LexFault::InvalidEscape
    }
}

// The fault of an escape in braces, by the character after its digits.
fn braced_fault(after: &[u8]) -> LexFault
    ensures { result ≡ braced_fault after.now }
{
    if after.starts_with(b"}") {
        LexFault::NoScalarValue
    } else if after.starts_with(b"\"") {
        LexFault::IncompleteEscape
    } else {
        LexFault::InvalidEscape
    }
}

// Whether the escape of a leading surrogate is at the front, and another escape after it.
fn has_second_escape(rest: &[u8]) -> bool
    ensures value { result ≡ has_second_escape rest.now }
    ensures within { IsTrue result → 8 ≤ length rest.now }
{
    begins_with_lead(rest) && rest[6..].starts_with(b"\\u")
}

// The fault of a backslash at the front that begins no string character.
fn escape_fault(rest: &[u8]) -> LexFault
    ensures { result ≡ escape_fault rest.now }
{
    if rest.starts_with(b"\\u{") {
        let n = hex_digits_len(&rest[3..]);
        braced_fault(&rest[3 + n..])
    } else if !rest.starts_with(b"\\u") {
        LexFault::EscapedCharacter
    } else if has_second_escape(rest) {
        fixed_fault(&rest[6..])
    } else {
        fixed_fault(rest)
    }
}

// A piece of a bad string: its bytes, whether it ends the string, and its last fault.
#[derive(Clone, Copy)]
struct Part {
    len: usize,
    is_last: bool,
    fault: Option<LexFault>,
}

// The fault of a line terminator, if one of the bytes is one.
fn line_fault(bytes: &[u8]) -> Option<LexFault>
    ensures { (last : LexFault) → or_last result last ≡ after_characters last bytes.now }
{
    match memchr2(b'\n', b'\r', bytes) {
        Some(_) => Some(LexFault::LineTerminator),
        None => None,
    }
}

// The characters up to a quote or a backslash, and that one and what it takes along.
fn first_part(rest: &[u8]) -> Option<Part>
    ensures { IsPart rest.now result }
{
    match memchr2(b'"', b'\\', rest) {
        None => None,
        Some(i) => {
            let fault = line_fault(&rest[..i]);
            if rest[i] == b'"' {
                return Some(Part {
                    len: i + 1,
                    is_last: true,
                    fault,
                });
            }
            let tail = &rest[i..];
            let n = bad_escape_len(tail);
            let is_good = escape_len(tail) > 0;
            Some(Part {
                len: i + n,
                is_last: false,
                fault: if is_good {
                    fault
                } else {
                    Some(escape_fault(tail))
                },
            })
        }
    }
}

// The last fault of a bad string, which is not empty and does not begin with two quotes, behind its opening quote.
fn last_fault(inside: &[u8]) -> LexFault
    ensures { result ≡ last_fault UnterminatedString 0 inside.now }
{
    let mut last = LexFault::UnterminatedString;
    let mut n = 0;
    loop {
        let Some(part) = first_part(&inside[n..]) else {
            return LexFault::UnterminatedString;
        };
        last = part.fault.unwrap_or(last);
        if part.is_last {
            return last;
        }
        n += part.len;
    }
}

// What is wrong with a bad string, when `inside` is what follows its opening quote.
fn string_fault(inside: &[u8]) -> LexFault
    ensures { result ≡ string_fault inside.now }
{
    if inside.is_empty() {
        LexFault::UnfinishedString
    } else if inside.starts_with(b"\"\"") {
        LexFault::UnterminatedString
    } else {
        last_fault(inside)
    }
}

// What is wrong with bad text, of which this much begins a number.
fn fault(bytes: &[u8], state: NumberState, n: usize) -> LexFault
    requires read { state ≡ run Begin (take n bytes.now) }
    requires within { n ≤ length bytes.now }
    ensures { result ≡ fault_behind n bytes.now }
{
    match bytes {
        [b'-' | b'0'..=b'9', ..] => number_fault(state, first(&bytes[n..])),
        [b'"', ..] => string_fault(&bytes[1..]),
        [b'.', ..] => LexFault::UnterminatedSpread,
        _ => LexFault::UnexpectedCharacter,
    }
}

// The words of a message that quotes nothing.
fn words(fault: LexFault) -> &'static str
    ensures { result.now ≡ words fault }
{
    match fault {
        LexFault::LeadingZero => "Numbers must not have non-significant leading zeroes",
        LexFault::UnfinishedFloat => "Unexpected EOF in float value",
        LexFault::UnterminatedSpread => "Unterminated spread operator",
        LexFault::UnfinishedString => "unexpected end of data while lexing string value",
        LexFault::UnterminatedString => "unterminated string value",
        LexFault::LineTerminator => "unexpected line terminator",
        LexFault::EscapedCharacter => "unexpected escaped character",
        LexFault::IncompleteEscape => "incomplete unicode escape sequence",
        LexFault::InvalidEscape => "invalid unicode escape sequence",
        LexFault::UnpairedSurrogate => "unpaired surrogate in unicode escape sequence",
        LexFault::NoScalarValue => "unicode escape sequence must specify a Unicode scalar value",
        _ => "Unexpected character",
    }
}

// How a message is worded.
#[derive(Clone, Copy)]
enum Wording {
    // these words alone
    Plain(&'static str),
    // the text is quoted
    QuotesText,
    // the character after the beginning of a number is quoted, and then come these words
    QuotesNext(&'static str),
}

fn wording_of(fault: LexFault) -> Wording
    ensures { (text : List ℕ) (next : List ℕ) → worded result text next ≡ fault_message fault text next }
{
    match fault {
        LexFault::UnexpectedCharacter => Wording::QuotesText,
        LexFault::NumberSuffix => Wording::QuotesNext("`"),
        LexFault::IntegerSuffix => Wording::QuotesNext("` as integer suffix"),
        LexFault::FractionalDigit => Wording::QuotesNext("`, expected fractional digit"),
        LexFault::FloatSuffix => Wording::QuotesNext("` as float suffix"),
        LexFault::ExponentDigitOrSign => Wording::QuotesNext("`, expected exponent digit or sign"),
        LexFault::ExponentDigit => Wording::QuotesNext("`, expected exponent digit"),
        _ => Wording::Plain(words(fault)),
    }
}

// How the message for bad text is worded, by the text's last fault, and what follows the beginning of a number in the
// text.
fn bad_text_wording(text: &str) -> (Wording, &str)
    ensures { worded result.0 text.now result.1.now ≡ bad_text_message text.now }
{
    let bytes = text.as_bytes();
    let (state, n) = number_len(bytes);
    let next = &text[n..];
    (wording_of(fault(bytes, state, n)), next)
}

/// The message for bad text, by its last fault, in three parts: words, what they quote of the text, and words after
/// that.
pub fn bad_text_message_parts(text: &str) -> (&'static str, &str, &'static str)
    ensures { result.0.now ++ result.1.now ++ result.2.now ≡ bad_text_message text.now }
{
    let (wording, next) = bad_text_wording(text);
    match wording {
        Wording::Plain(words) => (words, "", ""),
        Wording::QuotesText => ("Unexpected character \"", text, "\""),
        Wording::QuotesNext(end) => ("Unexpected character `", next, end),
    }
}

// The error for bad text whose message is worded so, when `next` is the character after the beginning of a number.
fn worded_error<A: Allocator + Copy>(
    alloc: A,
    wording: Wording,
    text: &str,
    index: usize,
    next: &str,
) -> Result<Error<A>, AllocError>
    requires { index + length text.now < 2 ^ 64 }
    ensures { IfOk result (λ e. e
        ≡ record { message = worded wording text.now next.now; subject = of_text text.now; index = index }) }
{
    match wording {
        Wording::Plain(words) => static_error(alloc, words, text, index),
        Wording::QuotesText => quoting_error(
            alloc,
            "Unexpected character ",
            "\"",
            text,
            "\"",
            index,
        ),
        Wording::QuotesNext(end) => quoting_other(
            alloc,
            "Unexpected character `",
            next,
            end,
            text,
            index,
        ),
    }
}

/// The error for bad text that begins at this byte of the source, by its last fault.
pub fn bad_text_error<A: Allocator + Copy>(
    alloc: A,
    text: &str,
    index: usize,
) -> Result<Error<A>, AllocError>
    requires { index + length text.now < 2 ^ 64 }
    ensures subject { IfOk result (λ e. e.subject ≡ of_text text.now) }
    ensures index { IfOk result (λ e. e.index ≡ index) }
    ensures message { IfOk result (λ e. e.message ≡ bad_text_message text.now) }
{
    let (wording, next) = bad_text_wording(text);
    let error = worded_error(alloc, wording, text, index, next)?;
    Ok(error)
}
