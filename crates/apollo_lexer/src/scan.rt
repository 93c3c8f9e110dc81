// Which item is at the front of a text, and how far it goes.
ghost use Rattle.std.specs.Prelude.{◌≡◌, ◌+◌, ◌≤◌, ◌<◌, ◌==◌, ◌||◌, [], ◌∷◌, if◌then◌else◌, length, take, drop, Some};
ghost use Rattle.std.specs.Prelude.{None};
ghost use Rattle.std.specs.List.{prefix_len};
ghost use Rattle.lexical_grammar.specs.Characters.{is_comment_character, is_digit};
ghost use Rattle.lexical_grammar.specs.declared.TokenKind.TheVariants as token;
ghost use Rattle.lexical_grammar.specs.Strings.{begins};
ghost use Rattle.lexical_grammar.specs.Reads.{blank_len, blanks_len, character_len, token_at, bad_len, first_item};

use crate::bytes::{Start, is_blank_byte, start_of};
use crate::classes::{BlankByte, NameContinue, short_run_len};
use crate::numbers::{number_at, number_len};
use crate::strings::{bad_string_len, string_at};
use lexical_grammar::TokenKind;
use memchr::memchr2;

fn is_number_start(b: u8) -> bool
    ensures { result ≡ (is_digit b || b == 45) }
{
    b.is_ascii_digit() || b == b'-'
}

// A comment ends before a line terminator, or with the text.
#[inline(never)]
fn comment_len(bytes: &[u8]) -> usize
    ensures value { result ≡ prefix_len is_comment_character bytes.now }
    ensures within { result ≤ length bytes.now }
{
    match memchr2(b'\n', b'\r', bytes) {
        Some(i) => i,
        None => bytes.len(),
    }
}

#[cold]
#[inline(never)]
fn byte_order_mark_len(bytes: &[u8]) -> usize
    ensures { result ≡ (if begins (239 ∷ 187 ∷ 191 ∷ []) bytes.now then 3 else 0) }
{
    if bytes.starts_with(&[0xEF, 0xBB, 0xBF]) {
        3
    } else {
        0
    }
}

#[inline(always)]
fn blank_len(bytes: &[u8]) -> usize
    ensures { result ≡ blank_len bytes.now }
{
    match bytes {
        [b, ..] => if is_blank_byte(*b) {
            1
        } else if *b == 0xEF {
            byte_order_mark_len(bytes)
        } else {
            0
        },
        [] => 0,
    }
}

// The bytes of the blank characters at the front. Most blanks are followed by none, and few runs have a byte order mark
// in them.
#[inline(always)]
fn blanks_len(bytes: &[u8]) -> usize
    ensures value { result ≡ blanks_len 0 bytes.now }
    ensures within { result ≤ length bytes.now }
{
    if blank_len(bytes) == 0 {
        return 0;
    }
    let n = short_run_len::<BlankByte>(bytes);
    let after = &bytes[n..];
    if blank_len(after) == 0 {
        return n;
    }
    n + marked_len(after)
}

// The bytes of the blank characters at the front, where a byte order mark begins them.
#[cold]
#[inline(never)]
fn marked_len(bytes: &[u8]) -> usize
    ensures value { result ≡ blanks_len 0 bytes.now }
    ensures within { result ≤ length bytes.now }
{
    let mut n = 0;
    loop {
        let step = blank_len(&bytes[n..]);
        if step == 0 {
            return n;
        }
        n += step;
    }
}

// The spread at the front, when `others` is what follows its first dot.
#[inline(always)]
fn spread_at(others: &[u8]) -> Option<(TokenKind, usize)>
    ensures { result ≡ (if begins (46 ∷ 46 ∷ []) others.now then Some (token.Spread, 3) else None) }
{
    if others.starts_with(b"..") {
        Some((TokenKind::Spread, 3))
    } else {
        None
    }
}

// What a byte order mark begins, if one is at the front.
#[inline(always)]
fn other_at(bytes: &[u8]) -> Option<(TokenKind, usize)>
    ensures { result ≡ (if blank_len bytes.now == 0 then None else Some (token.Whitespace, blanks_len 0 bytes.now)) }
{
    if blank_len(bytes) == 0 {
        None
    } else {
        Some((TokenKind::Whitespace, marked_len(bytes)))
    }
}

// The token at the front, and its length in bytes.
#[inline(always)]
fn token_at(bytes: &[u8]) -> Option<(TokenKind, usize)>
    ensures { result ≡ token_at bytes.now }
{
    let (first, others) = bytes.split_first()?;
    match start_of(*first) {
        Start::Name => Some((TokenKind::Name, short_run_len::<NameContinue>(bytes))),
        Start::Number => number_at(bytes),
        Start::Quote => string_at(bytes),
        Start::NumberSign => Some((TokenKind::Comment, 1 + comment_len(others))),
        Start::Dot => spread_at(others),
        Start::Blank => Some((TokenKind::Whitespace, 1 + blanks_len(others))),
        Start::Punctuator(kind) => Some((kind, 1)),
        Start::Other => other_at(bytes),
    }
}

// The bytes of the first character; 0 if there is none.
fn character_len(source: &str) -> usize
    ensures value { result ≡ character_len source.now }
    ensures small { result ≤ 4 }
{
    match source.chars().next() {
        Some(c) => c.len_utf8(),
        None => 0,
    }
}

// The bytes of the bad text at the front, when no token is there.
#[cold]
#[inline(never)]
fn bad_len(source: &str) -> usize
    ensures { result ≡ bad_len source.now }
{
    let bytes = source.as_bytes();
    let Some((first, others)) = bytes.split_first() else {
        return 0;
    };
    if is_number_start(*first) {
        let (_, n) = number_len(bytes);
        n + character_len(&source[n..])
    } else if bytes.starts_with(b"\"\"\"") {
        bytes.len()
    } else if *first == b'"' {
        1 + bad_string_len(others)
    } else if *first == b'.' {
        1 + character_len(&source[1..])
    } else {
        character_len(source)
    }
}

/// The first item of a text that isn't empty: its kind, which bad text has none of, its text, and what follows.
#[inline(always)]
pub fn cut(source: &str) -> (Option<TokenKind>, &str, &str)
    requires { 0 < length source.now }
    ensures kind { result.0 ≡ (first_item source.now).0 }
    ensures text { result.1.now ≡ take (first_item source.now).1 source.now }
    ensures after { result.2.now ≡ drop (first_item source.now).1 source.now }
    ensures some { 0 < (first_item source.now).1 }
    ensures within { (first_item source.now).1 + length result.2.now ≡ length source.now }
{
    match token_at(source.as_bytes()) {
        Some((kind, n)) => {
            let (text, after) = source.split_at(n);
            (Some(kind), text, after)
        }
        None => {
            let (text, after) = source.split_at(bad_len(source));
            (None, text, after)
        }
    }
}
