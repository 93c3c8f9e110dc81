// The frames in which the Language Server Protocol sends its messages: a head of fields as in HTTP, of which
// `Content-Length` gives the length of the body in bytes, and the body. A `FrameBuffer` is given bytes as they come, in
// pieces of any length, and gives the bodies.
ghost use Rattle.std.specs.Prelude.{◌≡◌, ◌≢◌, ◌<◌, ◌≤◌, ◌^◌, ◌==◌, ◌++◌, [], length, map, All, IfOk, IfErr, IfSome};
ghost use Rattle.std.specs.Prelude.{IfNone, OnOk, OnErr};
ghost use Rattle.std.specs.Char.{is_ascii_digit};
ghost use Rattle.std.specs.List.{list_all};
ghost use Rattle.httparse.specs.Spans.{header_bytes, IsHeaderWithin};
ghost use Rattle.rpc_serving.specs.Frames.{Agrees, BeginsWithFrame, HasNoFrame, IsBodyAt, IsFrame, IsHeadAt, IsSkipped};
ghost use Rattle.rpc_serving.specs.Frames.{IsWanted, NeverHasFrame, frame_of, is_length_name, length_in, numeral};
ghost use Rattle.rpc_serving.specs.declared.frames.FrameError.TheVariants.{Memory};

use crate::garbage::garbage_len;
use httparse::Status;
use httparse::spans::{EMPTY_HEADER_SPAN, HeaderSpan, parse_headers};
use std::alloc::{AllocError, Global};
use std::marker::Model;

/// Why no body is given.
#[derive(Clone, Copy)]
pub enum FrameError {
    /// The head is no section of fields, has more than 16 of them, or its first `Content-Length` is missing or no
    /// decimal number.
    Malformed,
    /// The head doesn't end within 4096 bytes.
    TooLong,
    /// The body has more than 2 ^ 30 bytes.
    TooLarge,
    /// Memory was refused.
    Memory,
}

impl From<AllocError> for FrameError {
    ghost from_gives = { λ _ error. error ≡ Memory };

    fn from(_error: AllocError) -> FrameError {
        FrameError::Memory
    }
}

/// Bytes that were read, and of which no body has been made yet.
#[derive(Drop)]
pub struct FrameBuffer {
    bytes: Vec<u8>,
}

impl Model for FrameBuffer {
    ghost use Rattle.std.specs.Prelude.{ℕ, List};

    ghost Value = { List ℕ };

    ghost view = { λ buffer. buffer.bytes.items };
}

impl FrameBuffer {
    /// An empty buffer.
    pub fn new(alloc: Global) -> FrameBuffer
        ensures { result ≡ [] }
    {
        FrameBuffer {
            bytes: Vec::new(alloc),
        }
    }

    /// Whether no byte is left.
    pub fn is_empty(&self) -> bool
        ensures { result ≡ (length self.now == 0) }
    {
        self.bytes.is_empty()
    }

    /// Adds bytes that were read. Where memory is refused, the buffer stays as it was.
    pub fn extend(&mut self, bytes: &[u8]) -> Result<(), AllocError>
        ensures ok { OnOk result (self.new ≡ self.old ++ bytes.now) }
        ensures err { OnErr result (self.new ≡ self.old) }
    {
        self.bytes.extend_from_slice(bytes)
    }

    /// The body of the next frame, which leaves the buffer; `None` when more bytes are needed. After an error the
    /// buffer is as it was.
    pub fn next_body(&mut self, alloc: Global) -> Result<Option<Vec<u8>>, FrameError>
        ensures found { IfOk result (λ next. IfSome next (λ body. BeginsWithFrame self.old body.items self.new)) }
        ensures none { IfOk result (λ next. IfNone next (HasNoFrame self.old)) }
        ensures kept { IfOk result (λ next. IfNone next (self.new ≡ self.old)) }
        ensures err { OnErr result (self.new ≡ self.old) }
        ensures never { IfErr result (λ error. error ≢ Memory → NeverHasFrame self.old) }
    {
        let range = body_range(self.bytes.as_slice())?;
        match range {
            None => Ok(None),
            Some((start, end)) => {
                let body = Vec::from_slice(alloc, &self.bytes[start..end])?;
                let rest = Vec::from_slice(alloc, &self.bytes[end..])?;
                self.bytes = rest;
                Ok(Some(body))
            }
        }
    }

    /// How many bytes to read next, at least one and at most 2 ^ 16: the rest of the first frame where its head is
    /// there, else about as many as a head has. So one read brings no more than one long message.
    pub fn wanted(&self) -> usize
        ensures { IsWanted result }
    {
        match head(self.bytes.as_slice()) {
            Ok(Some(head)) => missing(&head, self.bytes.len()),
            Ok(None) | Err(_) => self.bytes.len().clamp(FEW, MOST),
        }
    }

    /// Leaves out the first bytes, at least one where there is one: after an error a frame may begin behind them. No
    /// frame begins with those after the first. It fails only where memory is refused.
    pub fn skip(&mut self, alloc: Global) -> Result<(), AllocError>
        ensures { OnOk result (IsSkipped self.old self.new) }
    {
        if self.bytes.is_empty() {
            return Ok(());
        }
        let count = garbage_len(self.bytes.as_slice()).max(1);
        let rest = Vec::from_slice(alloc, &self.bytes[count..])?;
        self.bytes = rest;
        Ok(())
    }
}

pub const HEAD_LIMIT: usize = 4096;

// About how many bytes the head of a frame has.
const FEW: usize = 32;

const MOST: usize = 1 << 16;

const FIELD_LIMIT: usize = 16;

const BODY_LIMIT: usize = 1 << 30;

// A head: where it ends, and the length of the body.
#[derive(Clone, Copy)]
struct FrameHead {
    end: usize,
    length: usize,
}

// The head of the first frame, or nothing when it isn't complete.
fn head(bytes: &[u8]) -> Result<Option<FrameHead>, FrameError>
    ensures found { IfOk result (λ next. IfSome next (λ head. IsHeadAt bytes.now head.end head.length)) }
    ensures none { IfOk result (λ next. IfNone next (HasNoFrame bytes.now)) }
    ensures never { OnErr result (NeverHasFrame bytes.now) }
{
    let front = &bytes[..bytes.len().min(HEAD_LIMIT)];
    let mut headers = [EMPTY_HEADER_SPAN; FIELD_LIMIT];
    match parse_headers(front, &mut headers) {
        Ok(Status::Complete((end, count))) => match length_in(front, &headers[..count]) {
            Some(length) => Ok(Some(FrameHead { end, length })),
            None => Err(FrameError::Malformed),
        },
        Ok(Status::Partial) => {
            if bytes.len() < HEAD_LIMIT {
                Ok(None)
            } else {
                Err(FrameError::TooLong)
            }
        }
        Err(_) => Err(FrameError::Malformed),
    }
}

// Where the body of the first frame begins and ends, or nothing when it isn't complete.
fn body_range(bytes: &[u8]) -> Result<Option<(usize, usize)>, FrameError>
    ensures found { IfOk result (λ next. IfSome next (λ range. IsBodyAt bytes.now range.0 range.1)) }
    ensures none { IfOk result (λ next. IfNone next (HasNoFrame bytes.now)) }
    ensures never { OnErr result (NeverHasFrame bytes.now) }
{
    let Some(head) = head(bytes)? else {
        return Ok(None);
    };
    if head.length > BODY_LIMIT {
        return Err(FrameError::TooLarge);
    }
    if bytes.len() - head.end < head.length {
        return Ok(None);
    }
    Ok(Some((head.end, head.end + head.length)))
}

// How many bytes of the frame are missing, at least one and at most 2 ^ 16.
fn missing(head: &FrameHead, count: usize) -> usize
    ensures some { 0 < result }
    ensures few { result ≤ 2 ^ 16 }
{
    head.length
        .saturating_sub(count.saturating_sub(head.end))
        .clamp(1, MOST)
}

// The length that the first field with its name gives.
fn length_in(bytes: &[u8], headers: &[HeaderSpan]) -> Option<usize>
    requires { All (IsHeaderWithin (length bytes.now)) headers.now }
    ensures { Agrees (length_in (map (header_bytes bytes.now) headers.now)) result }
{
    for header in headers {
        if is_length_name(header.name.of(bytes)) {
            return numeral(header.value.of(bytes));
        }
    }
    None
}

fn is_length_name(name: &[u8]) -> bool
    ensures { result ≡ is_length_name name.now }
{
    name.eq_ignore_ascii_case(b"content-length")
}

fn are_digits(bytes: &[u8]) -> bool
    ensures { result ≡ list_all is_ascii_digit bytes.now }
{
    bytes.iter().all(|byte| byte.is_ascii_digit())
}

// The number that decimal digits spell.
fn numeral(digits: &[u8]) -> Option<usize>
    ensures { Agrees (numeral digits.now) result }
{
    if !are_digits(digits) {
        return None;
    }
    let Ok(text) = str::from_utf8(digits) else {
        return None;
    };
    text.parse::<usize>().ok()
}

/// Adds a body to some bytes, as a frame. It fails only where memory is refused.
pub fn put_frame(alloc: Global, bytes: &mut Vec<u8>, body: &[u8]) -> Result<(), AllocError>
    ensures bytes { OnOk result (bytes.new.items ≡ bytes.old.items ++ frame_of body.now) }
    ensures frame { OnOk result (length body.now ≤ 2 ^ 30 → IsFrame (frame_of body.now) body.now) }
{
    let length = body.len();
    let head = format!(in alloc; "Content-Length: {length}\r\n\r\n")?;
    bytes.extend_from_slice(head.as_bytes())?;
    bytes.extend_from_slice(body)?;
    Ok(())
}
