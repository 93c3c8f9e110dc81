// How far strings go: from one quote or backslash to the next, and in a quoted string no farther than its line.
//
// A search ends within the text that it is found to belong to, or at the end of the whole text, which is then bad text
// to its end. None is repeated from an offset that was passed, but for one: where a quoted string turns out to be bad,
// its end is searched for from its opening quote again, and that end is no nearer than the last byte looked at. So no
// byte is looked at more than a fixed number of times, also in a text of nothing but quotes, of bad strings or of
// backslashes.
ghost use Rattle.std.specs.Prelude.{◌≡◌, ◌<◌, ◌≤◌, IfSome, Some, length};
ghost use Rattle.lexical_grammar.specs.Reads.{block_len, quoted_len, string_at};
ghost use Rattle.apollo_lexer.specs.StringParts.{IsStringPart, read_bad};

use crate::classes::{PlainCharacter, long_run_len};
use crate::escapes::{bad_escape_len, escape_len};
use lexical_grammar::TokenKind;
use memchr::memchr2;

// What is at the front: nothing that ends the string, its end, or some bytes of it.
enum StringPart {
    Open,
    Last(usize),
    Inner(usize),
}

// In a block string: the characters up to a quote or a backslash, and that one or what it begins.
fn block_piece(rest: &[u8]) -> StringPart
    ensures { IsStringPart (block_len 0) rest.now result }
{
    match memchr2(b'"', b'\\', rest) {
        None => StringPart::Open,
        Some(i) => {
            let tail = &rest[i..];
            if tail.starts_with(b"\"\"\"") {
                StringPart::Last(i + 3)
            } else if tail.starts_with(b"\\\"\"\"") {
                StringPart::Inner(i + 4)
            } else {
                StringPart::Inner(i + 1)
            }
        }
    }
}

// The bytes of the block characters at the front and of the quotes after them.
#[inline(never)]
fn block_len(bytes: &[u8]) -> Option<usize>
    ensures value { result ≡ block_len 0 bytes.now }
    ensures within { IfSome result (λ n. n ≤ length bytes.now) }
{
    let mut n = 0;
    loop {
        match block_piece(&bytes[n..]) {
            StringPart::Open => return None,
            StringPart::Last(k) => return Some(n + k),
            StringPart::Inner(k) => n += k,
        }
    }
}

// In a quoted string: the plain characters at the front, and the quote or the escape after them.
#[inline(always)]
fn quoted_piece(rest: &[u8]) -> StringPart
    ensures { IsStringPart (quoted_len 0) rest.now result }
{
    let i = long_run_len::<PlainCharacter>(rest);
    if i == rest.len() {
        return StringPart::Open;
    }
    if rest[i] == b'"' {
        return StringPart::Last(i + 1);
    }
    if rest[i] != b'\\' {
        return StringPart::Open;
    }
    let n = escape_len(&rest[i..]);
    if n == 0 {
        StringPart::Open
    } else {
        StringPart::Inner(i + n)
    }
}

// The bytes of the string characters at the front and of the quote after them.
#[inline(never)]
fn quoted_len(bytes: &[u8]) -> Option<usize>
    ensures value { result ≡ quoted_len 0 bytes.now }
    ensures within { IfSome result (λ n. n ≤ length bytes.now) }
{
    let mut n = 0;
    loop {
        match quoted_piece(&bytes[n..]) {
            StringPart::Open => return None,
            StringPart::Last(k) => return Some(n + k),
            StringPart::Inner(k) => n += k,
        }
    }
}

// In a bad string: the bytes up to a quote or a backslash, and that one and what it takes along.
fn bad_piece(rest: &[u8]) -> StringPart
    ensures { IsStringPart read_bad rest.now result }
{
    match memchr2(b'"', b'\\', rest) {
        None => StringPart::Last(rest.len()),
        Some(i) => {
            if rest[i] == b'"' {
                StringPart::Last(i + 1)
            } else {
                let n = bad_escape_len(&rest[i..]);
                StringPart::Inner(i + n)
            }
        }
    }
}

/// How far a bad string goes after its opening quote, in bytes: to the next quote that no backslash takes along, or to
/// the end of the text.
pub fn bad_string_len(bytes: &[u8]) -> usize
    ensures value { Some result ≡ read_bad bytes.now }
    ensures within { result ≤ length bytes.now }
{
    let mut n = 0;
    loop {
        match bad_piece(&bytes[n..]) {
            StringPart::Open => return n,
            StringPart::Last(k) => return n + k,
            StringPart::Inner(k) => n += k,
        }
    }
}

/// The string at the front, which begins with a quote, and its length in bytes.
#[inline(always)]
pub fn string_at(bytes: &[u8]) -> Option<(TokenKind, usize)>
    requires { 0 < length bytes.now }
    ensures { result ≡ string_at bytes.now }
{
    let n = if bytes.starts_with(b"\"\"\"") {
        3 + block_len(&bytes[3..])?
    } else {
        1 + quoted_len(&bytes[1..])?
    };
    Some((TokenKind::StringValue, n))
}
