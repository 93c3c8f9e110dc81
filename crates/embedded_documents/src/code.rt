// Code around strings and templates.
ghost use Rattle.std.specs.Prelude.{◌≡◌, ◌<◌, ◌≤◌, IfSome, false, length, true};
ghost use Rattle.embedded_documents.specs.Masked.{IsTag};
ghost use Rattle.embedded_documents.specs.Steps.{IsMoveIn, IsTagged};
ghost use Rattle.embedded_documents.specs.declared.scanner.Move.TheVariants.{Enter};
ghost use Rattle.embedded_documents.specs.declared.scanner.Context.TheVariants.{Quoted};

use crate::quoted::{Opening, opening_at};
use crate::scanner::{Context, HostLanguage, Move, Step};
use line_index::line_end;

// Where the comment ends that begins at a byte.
fn comment_end(bytes: &[u8], start: usize) -> usize
    requires { start < length bytes.now }
    ensures from { start < result }
    ensures within { result ≤ length bytes.now }
{
    for i in start.saturating_add(2)..bytes.len() {
        if bytes[i..].starts_with(b"*/") {
            return i.saturating_add(2).min(bytes.len());
        }
    }
    bytes.len()
}

// Whether a byte is of a name, or of a number.
fn is_in_word(byte: u8) -> bool {
    byte.is_ascii_alphanumeric() || byte == b'_' || byte == b'$' || !byte.is_ascii()
}

// Where the word ends that begins at a byte.
fn word_end(bytes: &[u8], start: usize) -> usize
    requires { start < length bytes.now }
    ensures from { start < result }
    ensures within { result ≤ length bytes.now }
{
    for i in start + 1..bytes.len() {
        if !is_in_word(bytes[i]) {
            return i;
        }
    }
    bytes.len()
}

// Where space ends, from an offset on.
fn space_end(bytes: &[u8], start: usize) -> usize
    requires { start ≤ length bytes.now }
    ensures from { start ≤ result }
    ensures within { result ≤ length bytes.now }
{
    for i in start..bytes.len() {
        if !bytes[i].is_ascii_whitespace() {
            return i;
        }
    }
    bytes.len()
}

// The last byte in front of an offset that is no space.
fn last_before(bytes: &[u8], offset: usize) -> Option<u8>
    requires { offset ≤ length bytes.now }
{
    let mut end = offset;
    while end > 0 {
        end -= 1;
        if !bytes[end].is_ascii_whitespace() {
            return Some(bytes[end]);
        }
    }
    None
}

// Whether a slash at a byte begins a regular expression, by the byte in front: after a name, a number, a string or a
// closed bracket it divides, and `</` is of JSX.
fn begins_pattern(bytes: &[u8], start: usize) -> bool
    requires { start < length bytes.now }
{
    match last_before(bytes, start) {
        Some(byte) => byte.is_ascii_punctuation()
            && !matches!(
                byte,
                b')' | b']' | b'}' | b'_' | b'$' | b'<' | b'"' | b'\'' | b'`'
            ),
        None => true,
    }
}

// How many bytes are looked at for the end of a regular expression: without such a bound, a line of slashes that begin
// none would take the square of its length.
const LONGEST_PATTERN: usize = 1_000;

// Where the regular expression ends that begins at a byte. Without an end on its line, or in that number of bytes, it
// is only that byte.
fn pattern_end(bytes: &[u8], start: usize) -> usize
    requires { start < length bytes.now }
    ensures from { start < result }
    ensures within { result ≤ length bytes.now }
{
    let mut is_escaped = false;
    let mut is_in_class = false;
    let last = start.saturating_add(LONGEST_PATTERN).min(bytes.len());
    for i in start + 1..last {
        match bytes[i] {
            b'\n' | b'\r' => return start + 1,
            _ if is_escaped => is_escaped = false,
            b'/' if !is_in_class => return i + 1,
            b'[' => is_in_class = true,
            b']' => is_in_class = false,
            byte => is_escaped = byte == b'\\',
        }
    }
    start + 1
}

// Where what a slash begins ends.
fn slash_end(bytes: &[u8], start: usize) -> usize
    requires { start < length bytes.now }
    ensures from { start < result }
    ensures within { result ≤ length bytes.now }
{
    match bytes.get(start + 1) {
        Some(b'/') => line_end(bytes, start + 1),
        Some(b'*') => comment_end(bytes, start),
        _ if begins_pattern(bytes, start) => pattern_end(bytes, start),
        _ => start + 1,
    }
}

// Where the comment, the regular expression or the word ends that begins at a byte, or else the byte.
fn part_end(bytes: &[u8], start: usize, language: HostLanguage) -> usize
    requires { start < length bytes.now }
    ensures from { start < result }
    ensures within { result ≤ length bytes.now }
{
    match (language, bytes[start]) {
        (HostLanguage::JavaScript, b'/') => slash_end(bytes, start),
        (HostLanguage::Python, b'#') => line_end(bytes, start + 1),
        (_, byte) if is_in_word(byte) => word_end(bytes, start),
        _ => start + 1,
    }
}

const SHORT_TAG: &[u8] = b"gql";

const TAG: &[u8] = b"graphql";

const COMMENT_TAG: &[u8] = b"/* GraphQL */";

// Whether a part of code says that a document comes.
fn is_tag(part: &[u8]) -> bool
    ensures { result ≡ true → IsTag part.now }
{
    part == SHORT_TAG || part == TAG || part == COMMENT_TAG
}

// Behind a byte, if it is the one at an offset.
fn behind(bytes: &[u8], offset: usize, byte: u8) -> usize
    requires { offset ≤ length bytes.now }
    ensures from { offset ≤ result }
    ensures within { result ≤ length bytes.now }
{
    if bytes.get(offset) == Some(&byte) {
        offset + 1
    } else {
        offset
    }
}

// Where what is tagged begins, behind a tag and maybe a parenthesis.
fn argument_start(bytes: &[u8], tag_end: usize) -> usize
    requires { tag_end ≤ length bytes.now }
    ensures from { tag_end ≤ result }
    ensures within { result ≤ length bytes.now }
{
    let start = space_end(bytes, tag_end);
    space_end(bytes, behind(bytes, start, b'('))
}

// The document that begins behind a tag, maybe in parentheses. One in Python may be raw.
fn opening_after(bytes: &[u8], tag_end: usize, language: HostLanguage) -> Option<Opening>
    requires { tag_end ≤ length bytes.now }
    ensures from { IfSome result (λ opening. tag_end < opening.start) }
    ensures within { IfSome result (λ opening. opening.start ≤ length bytes.now) }
{
    let start = argument_start(bytes, tag_end);
    match language {
        HostLanguage::JavaScript => {
            let opening = opening_at(bytes, start, language)?;
            if opening.quote.is_template() {
                Some(opening)
            } else {
                None
            }
        }
        HostLanguage::Python => {
            let quote = behind(bytes, start, b'r');
            let mut opening = opening_at(bytes, quote, language)?;
            opening.quote.is_raw = start < quote;
            Some(opening)
        }
    }
}

// The step from a byte of code on. A document in code of a template is left alone.
pub(crate) fn code_step(
    bytes: &[u8],
    start: usize,
    language: HostLanguage,
    is_in_template: bool,
) -> Step
    requires { start < length bytes.now }
    ensures from { start < result.end }
    ensures within { result.end ≤ length bytes.now }
    ensures document { IsTagged bytes.now result.is_document }
    ensures next { IsMoveIn bytes.now result.next }
{
    let end = part_end(bytes, start, language);
    if is_tag(&bytes[start..end])
        && let Some(opening) = opening_after(bytes, end, language)
    {
        return quoted_from(opening, !is_in_template);
    }
    if let Some(opening) = opening_at(bytes, start, language) {
        return quoted_from(opening, false);
    }
    let next = match bytes[start] {
        b'{' => Move::Enter(Context::Braces { is_in_template }),
        b'}' => Move::Leave,
        _ => Move::Stay,
    };
    Step {
        end,
        is_document: false,
        next,
    }
}

// The step into a string or a template.
fn quoted_from(opening: Opening, is_document: bool) -> Step
    ensures end { result.end ≡ opening.start }
    ensures document { result.is_document ≡ false }
    ensures next { result.next ≡ Enter (Quoted opening.quote is_document) }
{
    Step {
        end: opening.start,
        is_document: false,
        next: Move::Enter(Context::Quoted {
            quote: opening.quote,
            is_document,
        }),
    }
}
