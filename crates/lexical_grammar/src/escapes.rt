// Escapes in quoted strings (GraphQL September 2025, "String Value"), read at the front of a text.
ghost use Rattle.std.specs.Prelude.{◌≡◌, ◌≤◌, ◌&&◌, length, min, slice_index, IsTrue, IfSome, Some, ◌∷◌, [], true};
ghost use Rattle.std.specs.Prelude.{false};
ghost use Rattle.std.specs.List.{prefix_len, list_all};
ghost use Rattle.std.specs.Char.Utf16.{is_high_surrogate, is_low_surrogate, surrogate_pair_char};
ghost use Rattle.lexical_grammar.specs.Characters.{is_hex_digit};
ghost use Rattle.lexical_grammar.specs.Strings.{begins, escaped_character, hex_value};
ghost use Rattle.lexical_grammar.specs.Reads.{begins_fixed_escape};
ghost use Rattle.lexical_grammar.specs.Escapes.{IsHexDigit, IsFixedValue, IsReadEscape};
ghost use lib.Utf8.{scalar};

// The first number above those of characters.
const NO_CHARACTER: u32 = 0x11_0000;

fn hex_digit(b: u8) -> Option<u32>
    ensures { IsHexDigit b result }
{
    char::from(b).to_digit(16)
}

// The number that hex digits spell, or `NO_CHARACTER` when that is greater. Other bytes count as 0.
fn hex_value(digits: &[u8]) -> u32
    ensures value { IsTrue (list_all is_hex_digit digits.now) → result ≡ min (hex_value digits.now) 1114112 }
    ensures within { result ≤ 1114112 }
{
    let mut value = 0;
    for b in digits {
        let digit = hex_digit(*b).unwrap_or(0);
        value = (value * 16 + digit).min(NO_CHARACTER);
    }
    value
}

/// How many hex digits are at the front.
pub fn hex_digits_len(bytes: &[u8]) -> usize
    ensures value { result ≡ prefix_len is_hex_digit bytes.now }
    ensures within { result ≤ length bytes.now }
{
    bytes.iter().take_while(|b| b.is_ascii_hexdigit()).count()
}

/// The number of `\u` and four hex digits at the front.
pub fn fixed_value(bytes: &[u8]) -> Option<u32>
    ensures value { IsFixedValue bytes.now result }
    ensures within { IfSome result (λ v. 6 ≤ length bytes.now) }
{
    if bytes.len() < 6 || !bytes.starts_with(b"\\u") {
        return None;
    }
    let digits = &bytes[2..6];
    if hex_digits_len(digits) < 4 {
        return None;
    }
    Some(hex_value(digits))
}

fn is_pair(high: u32, low: u32) -> bool
    ensures { result ≡ (is_high_surrogate high && is_low_surrogate low) }
{
    0xD800 <= high && high < 0xDC00 && 0xDC00 <= low && low < 0xE000
}

// The character with the number.
fn character(value: u32) -> char
    requires { IsTrue (scalar value) }
    ensures { result ≡ value }
{
    char::from_u32(value).unwrap()
}

// The character of a surrogate pair.
fn pair(high: u32, low: u32) -> char
    requires high { IsTrue (is_high_surrogate high) }
    requires low { IsTrue (is_low_surrogate low) }
    ensures { result ≡ surrogate_pair_char high low }
{
    character(0x1_0000 + (high - 0xD800) * 0x400 + (low - 0xDC00))
}

// A fixed escape at the front, with its number: it names a character, or it is the first of a surrogate pair.
fn fixed_escape(bytes: &[u8], value: u32) -> Option<(char, usize)>
    requires backslash { slice_index bytes.now 0 ≡ 92 }
    requires fixed { IsFixedValue bytes.now (Some value) }
    requires within { 6 ≤ length bytes.now }
    ensures { IsReadEscape bytes.now result }
{
    if let Some(c) = char::from_u32(value) {
        return Some((c, 6));
    }
    let low = fixed_value(&bytes[6..])?;
    if is_pair(value, low) {
        Some((pair(value, low), 12))
    } else {
        None
    }
}

// A braced escape at the front, where `\u` is there and no fixed escape.
fn braced_escape(bytes: &[u8]) -> Option<(char, usize)>
    requires backslash { slice_index bytes.now 0 ≡ 92 }
    requires unicode { begins (92 ∷ 117 ∷ []) bytes.now ≡ true }
    requires unfixed { begins_fixed_escape bytes.now ≡ false }
    ensures { IsReadEscape bytes.now result }
{
    if !bytes.starts_with(b"\\u{") {
        return None;
    }
    let n = hex_digits_len(&bytes[3..]);
    if n == 0 || !bytes[3 + n..].starts_with(b"}") {
        return None;
    }
    let c = char::from_u32(hex_value(&bytes[3..3 + n]))?;
    Some((c, 4 + n))
}

// The character that a backslash and this byte represent.
fn escaped(b: u8) -> Option<char>
    ensures { result ≡ escaped_character b }
{
    match b {
        b'"' => Some('"'),
        b'\\' => Some('\\'),
        b'/' => Some('/'),
        b'b' => Some('\u{8}'),
        b'f' => Some('\u{C}'),
        b'n' => Some('\n'),
        b'r' => Some('\r'),
        b't' => Some('\t'),
        _ => None,
    }
}

/// The character that the escape at the front represents, and the escape's length in bytes; `None` when the backslash
/// begins no string character.
pub fn escape(bytes: &[u8]) -> Option<(char, usize)>
    requires { slice_index bytes.now 0 ≡ 92 }
    ensures { IsReadEscape bytes.now result }
{
    if let Some(value) = fixed_value(bytes) {
        return fixed_escape(bytes, value);
    }
    if bytes.starts_with(b"\\u") {
        return braced_escape(bytes);
    }
    match bytes {
        [_, b, ..] => {
            let c = escaped(*b)?;
            Some((c, 2))
        }
        _ => None,
    }
}
