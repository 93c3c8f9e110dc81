// Quoted strings that their lines leave open, which then take all that follows up to the next quote.
ghost use Rattle.std.specs.Prelude.{◌≡◌, ◌<◌, ◌≤◌, IfOk, IfSome, length, string_bytes};

use line_index::line_end;
use std::alloc::{AllocError, Global};

// Something that begins at a byte: where it ends, and whether it is a string that its line leaves open.
#[derive(Clone, Copy)]
struct Part {
    end: usize,
    is_open: bool,
}

// The quoted string that begins at a byte (GraphQL, October 2021, section 2.9.4).
fn quoted(bytes: &[u8], start: usize) -> Part
    requires { start < length bytes.now }
    ensures from { start < result.end }
    ensures within { result.end ≤ length bytes.now }
{
    let mut is_escaped = false;
    for i in start + 1..bytes.len() {
        match bytes[i] {
            b'\n' | b'\r' => {
                return Part {
                    end: i,
                    is_open: true,
                };
            }
            b'"' if !is_escaped => {
                return Part {
                    end: i + 1,
                    is_open: false,
                };
            }
            byte => is_escaped = byte == b'\\' && !is_escaped,
        }
    }
    Part {
        end: bytes.len(),
        is_open: true,
    }
}

const BLOCK_QUOTES: &[u8] = b"\"\"\"";

// Where the block string ends that begins at a byte: behind its last quotes, or with the text.
fn block_end(bytes: &[u8], start: usize) -> usize
    requires { start < length bytes.now }
    ensures from { start < result }
    ensures within { result ≤ length bytes.now }
{
    for i in start.saturating_add(3)..bytes.len() {
        if bytes[i..].starts_with(BLOCK_QUOTES) && bytes[i - 1] != b'\\' {
            return i.saturating_add(3).min(bytes.len());
        }
    }
    bytes.len()
}

// What begins at a byte: a string, a comment, or the byte alone.
fn part_at(bytes: &[u8], start: usize) -> Part
    requires { start < length bytes.now }
    ensures from { start < result.end }
    ensures within { result.end ≤ length bytes.now }
{
    let end = match bytes[start] {
        b'"' if bytes[start..].starts_with(BLOCK_QUOTES) => block_end(bytes, start),
        b'"' => return quoted(bytes, start),
        b'#' => line_end(bytes, start + 1),
        _ => start + 1,
    };
    Part {
        end,
        is_open: false,
    }
}

// Makes a part of a text a string of blanks that is closed. One byte becomes a blank.
fn close(bytes: &mut [u8], start: usize, end: usize)
    requires from { start < end }
    requires within { end ≤ length bytes.old }
{
    for i in start..end {
        bytes[i] = b' ';
    }
    if start + 1 < end {
        bytes[start] = b'"';
        bytes[end - 1] = b'"';
    }
}

// Closes all strings that their lines leave open, and says whether there are any.
fn close_all(bytes: &mut [u8]) -> bool {
    let mut start = 0;
    let mut has_any = false;
    while start < bytes.len() {
        let part = part_at(bytes, start);
        if part.is_open {
            close(bytes, start, part.end);
            has_any = true;
        }
        start = part.end;
    }
    has_any
}

/// The text with each quoted string closed that its line leaves open, at the line's end: its letters are blanks, and
/// each byte offset stays. `None` where there is no such string. It fails only where memory is refused.
pub fn closed(alloc: Global, text: &str) -> Result<Option<String>, AllocError>
    ensures { IfOk result (λ r. IfSome r (λ closed. length (string_bytes closed) ≡ length text.now)) }
{
    let mut bytes = Vec::from_slice(alloc, text.as_bytes())?;
    if !close_all(bytes.as_mut_slice()) {
        return Ok(None);
    }
    match String::from_utf8(bytes) {
        Ok(closed) => Ok(Some(closed)),
        Err(_) => Ok(None),
    }
}
