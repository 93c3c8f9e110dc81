// Escapes in quoted strings: good ones, and what is passed over of a bad one.
ghost use Rattle.std.specs.Prelude.{◌≡◌, ◌≤◌, ◌<◌, ◌&&◌, ◌∷◌, [], IsTrue, length, slice_index, true};
ghost use Rattle.std.specs.Char.Utf16.{is_high_surrogate};
ghost use Rattle.lexical_grammar.specs.Strings.{begins};
ghost use Rattle.lexical_grammar.specs.Reads.{bad_escape_len, bad_fixed_len, bad_trail_len, begins_fixed_escape};
ghost use Rattle.lexical_grammar.specs.Reads.{breaking_len, fixed_value, string_character_len};

use lexical_grammar::{escape, fixed_value, hex_digits_len};

/// The bytes of the string character that a backslash at the front begins; 0 if it begins none.
pub fn escape_len(bytes: &[u8]) -> usize
    requires { slice_index bytes.now 0 ≡ 92 }
    ensures value { result ≡ string_character_len bytes.now }
    ensures within { result ≤ length bytes.now }
{
    match escape(bytes) {
        Some((_, n)) => n,
        None => 0,
    }
}

// A character that breaks an escape off belongs to it, unless it is a quote. Its first byte will do: no other byte of
// it is looked for.
fn breaking_len(rest: &[u8]) -> usize
    ensures value { result ≡ breaking_len rest.now }
    ensures within { result ≤ length rest.now }
{
    match rest {
        [] | [b'"', ..] => 0,
        _ => 1,
    }
}

// Of `\u` at the front, and its hex digits, four at most.
fn bad_fixed_len(bytes: &[u8]) -> usize
    requires { begins (92 ∷ 117 ∷ []) bytes.now ≡ true }
    ensures value { result ≡ bad_fixed_len bytes.now }
    ensures within { result ≤ length bytes.now }
{
    let n = hex_digits_len(&bytes[2..]).min(4);
    if n == 4 {
        6
    } else {
        2 + n + breaking_len(&bytes[2 + n..])
    }
}

// Of what follows a leading surrogate.
fn bad_trail_len(rest: &[u8]) -> usize
    ensures value { result ≡ bad_trail_len rest.now }
    ensures within { result ≤ length rest.now }
{
    if rest.starts_with(b"\\u") {
        bad_fixed_len(rest)
    } else if rest.starts_with(b"\\") {
        rest.len().min(2)
    } else {
        breaking_len(rest)
    }
}

/// Whether the escape of a leading surrogate is at the front.
pub fn begins_with_lead(bytes: &[u8]) -> bool
    ensures value { result ≡ (begins_fixed_escape bytes.now && is_high_surrogate (fixed_value bytes.now)) }
    ensures within { IsTrue result → 6 ≤ length bytes.now }
{
    match fixed_value(bytes) {
        Some(value) => 0xD800 <= value && value < 0xDC00,
        None => false,
    }
}

/// The bytes of a backslash at the front and of the characters that it takes along in a bad string.
pub fn bad_escape_len(bytes: &[u8]) -> usize
    requires { slice_index bytes.now 0 ≡ 92 }
    ensures value { result ≡ bad_escape_len bytes.now }
    ensures within { result ≤ length bytes.now }
    ensures some { 0 < result }
{
    if bytes.starts_with(b"\\u{") {
        let n = 3 + hex_digits_len(&bytes[3..]);
        n + breaking_len(&bytes[n..])
    } else if begins_with_lead(bytes) {
        6 + bad_trail_len(&bytes[6..])
    } else if bytes.starts_with(b"\\u") {
        bad_fixed_len(bytes)
    } else {
        bytes.len().min(2)
    }
}
