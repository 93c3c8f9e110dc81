// Strings and templates.
ghost use Rattle.std.specs.Prelude.{◌<◌, ◌≤◌, IfSome, length};
ghost use Rattle.embedded_documents.specs.Steps.{IsMoveIn, IsTagged};

use crate::scanner::{Context, HostLanguage, Move, Step};

// How a string or a template begins and ends: by a byte, or by three. In a raw one a backslash is only a backslash.
#[derive(Clone, Copy)]
pub(crate) struct Quote {
    byte: u8,
    is_triple: bool,
    pub is_raw: bool,
}

// Where a template begins in its file, and how it ends.
#[derive(Clone, Copy)]
pub(crate) struct Opening {
    pub start: usize,
    pub quote: Quote,
}

// Whether three equal bytes are at an offset.
fn is_tripled(bytes: &[u8], offset: usize, byte: u8) -> bool
    requires { offset ≤ length bytes.now }
{
    bytes[offset..].starts_with(&[byte, byte, byte])
}

// What begins behind the quote at a byte, if one is there.
pub(crate) fn opening_at(bytes: &[u8], start: usize, language: HostLanguage) -> Option<Opening>
    requires { start ≤ length bytes.now }
    ensures from { IfSome result (λ opening. start < opening.start) }
    ensures within { IfSome result (λ opening. opening.start ≤ length bytes.now) }
{
    let byte = *bytes.get(start)?;
    let is_triple = match (language, byte) {
        (HostLanguage::JavaScript, b'`' | b'\'' | b'"') => false,
        (HostLanguage::Python, b'\'' | b'"') => is_tripled(bytes, start, byte),
        _ => return None,
    };
    let len = if is_triple { 3 } else { 1 };
    Some(Opening {
        start: start.saturating_add(len).min(bytes.len()),
        quote: Quote {
            byte,
            is_triple,
            is_raw: false,
        },
    })
}

impl Quote {
    // Whether this is the quote of a template of JavaScript.
    pub(crate) fn is_template(self) -> bool {
        self.byte == b'`'
    }

    // Whether the quote is at a byte.
    fn ends_at(self, bytes: &[u8], offset: usize) -> bool
        requires { offset < length bytes.now }
    {
        if self.is_triple {
            is_tripled(bytes, offset, self.byte)
        } else {
            bytes[offset] == self.byte
        }
    }

    // Whether code in a template begins at a byte.
    fn is_left_at(self, bytes: &[u8], offset: usize) -> bool
        requires { offset < length bytes.now }
    {
        self.is_template() && bytes[offset..].starts_with(b"${")
    }

    // Whether the line ends there, and the string with it.
    fn is_cut_at(self, bytes: &[u8], offset: usize) -> bool
        requires { offset < length bytes.now }
    {
        !self.is_template() && !self.is_triple && matches!(bytes[offset], b'\n' | b'\r')
    }

    // Whether the text of the string goes on at a byte.
    fn goes_on_at(self, bytes: &[u8], offset: usize) -> bool
        requires { offset < length bytes.now }
    {
        bytes[offset] != b'\\'
            && !self.ends_at(bytes, offset)
            && !self.is_left_at(bytes, offset)
            && !self.is_cut_at(bytes, offset)
    }

    // Up to where the text of the string goes on, from a byte of it.
    fn text_end(self, bytes: &[u8], start: usize) -> usize
        requires { start < length bytes.now }
        ensures from { start < result }
        ensures within { result ≤ length bytes.now }
    {
        for i in start + 1..bytes.len() {
            if !self.goes_on_at(bytes, i) {
                return i;
            }
        }
        bytes.len()
    }

    // Into code in a template, or out of the string, and how many bytes say so.
    fn turn_at(self, bytes: &[u8], offset: usize) -> (Move, usize)
        requires { offset < length bytes.now }
        ensures some { 0 < result.1 }
        ensures next { IsMoveIn bytes.now result.0 }
    {
        if self.is_left_at(bytes, offset) {
            let context = Context::Braces {
                is_in_template: true,
            };
            return (Move::Enter(context), 2);
        }
        (Move::Leave, if self.is_triple { 3 } else { 1 })
    }
}

// The step from a byte of a string or a template on.
pub(crate) fn quoted_step(bytes: &[u8], start: usize, quote: Quote, is_document: bool) -> Step
    requires start { start < length bytes.now }
    requires context { IsTagged bytes.now is_document }
    ensures from { start < result.end }
    ensures within { result.end ≤ length bytes.now }
    ensures document { IsTagged bytes.now result.is_document }
    ensures next { IsMoveIn bytes.now result.next }
{
    if quote.goes_on_at(bytes, start) {
        return Step {
            end: quote.text_end(bytes, start),
            is_document,
            next: Move::Stay,
        };
    }
    if bytes[start] == b'\\' {
        return Step {
            end: start + 1,
            is_document: is_document && quote.is_raw,
            next: Move::Enter(Context::Escaped { quote, is_document }),
        };
    }
    let (next, len) = quote.turn_at(bytes, start);
    Step {
        end: start.saturating_add(len).min(bytes.len()),
        is_document: false,
        next,
    }
}

// The step from the byte behind a backslash on: it is text, whatever it is.
pub(crate) fn escaped_step(bytes: &[u8], start: usize, quote: Quote, is_document: bool) -> Step
    requires start { start < length bytes.now }
    requires context { IsTagged bytes.now is_document }
    ensures from { start < result.end }
    ensures within { result.end ≤ length bytes.now }
    ensures document { IsTagged bytes.now result.is_document }
    ensures next { IsMoveIn bytes.now result.next }
{
    Step {
        end: quote.text_end(bytes, start),
        is_document,
        next: Move::Leave,
    }
}
