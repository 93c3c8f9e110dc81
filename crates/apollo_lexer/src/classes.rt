// Runs of bytes of one class, sixteen bytes at a time.
ghost use Rattle.std.specs.Prelude.{◌≡◌, ◌≤◌, ℕ, Bool, length, take};
ghost use Rattle.std.specs.List.{prefix_len};
ghost use Rattle.lexical_grammar.specs.Characters.{is_name_continue, is_plain_string_character};
ghost use Rattle.apollo_lexer.specs.Starts.{is_blank_byte};

use crate::bytes::{is_blank_byte, is_name_continue};
use crate::lanes::{LANES, blank_lanes, name_lanes, plain_lanes};

/// A class of bytes.
pub trait ByteClass {
    ghost class: { ℕ → Bool };

    fn has(byte: u8) -> bool
        ensures { result ≡ class byte };

    /// Of the first sixteen bytes, how many are of the class before one that is not.
    fn lanes(bytes: &[u8]) -> usize
        requires { LANES ≤ length bytes.now }
        ensures { result ≡ prefix_len class (take 16 bytes.now) };
}

/// What a name goes on with.
pub struct NameContinue;

impl ByteClass for NameContinue {
    ghost class = { is_name_continue };

    #[inline(always)]
    fn has(byte: u8) -> bool {
        is_name_continue(byte)
    }

    #[inline(always)]
    fn lanes(bytes: &[u8]) -> usize {
        name_lanes(bytes)
    }
}

/// The blank characters of one byte.
pub struct BlankByte;

impl ByteClass for BlankByte {
    ghost class = { is_blank_byte };

    #[inline(always)]
    fn has(byte: u8) -> bool {
        is_blank_byte(byte)
    }

    #[inline(always)]
    fn lanes(bytes: &[u8]) -> usize {
        blank_lanes(bytes)
    }
}

/// The characters of a quoted string that begin no escape and do not end it.
pub struct PlainCharacter;

impl ByteClass for PlainCharacter {
    ghost class = { is_plain_string_character };

    #[inline(always)]
    fn has(byte: u8) -> bool {
        !((byte == b'"' || byte == b'\\') || (byte == b'\n' || byte == b'\r'))
    }

    #[inline(always)]
    fn lanes(bytes: &[u8]) -> usize {
        plain_lanes(bytes)
    }
}

// How many bytes at the front are of the class, byte by byte.
#[inline(never)]
fn len_by_bytes<C: ByteClass>(bytes: &[u8]) -> usize
    ensures value { result ≡ prefix_len C.class bytes.now }
    ensures within { result ≤ length bytes.now }
{
    bytes.iter().take_while(|byte| C::has(**byte)).count()
}

/// How many bytes at the front are of the class, where nearly all runs are shorter than sixteen bytes: it looks at
/// sixteen together once.
#[inline(always)]
pub fn short_run_len<C: ByteClass>(bytes: &[u8]) -> usize
    ensures value { result ≡ prefix_len C.class bytes.now }
    ensures within { result ≤ length bytes.now }
{
    if bytes.len() < LANES {
        return len_by_bytes::<C>(bytes);
    }
    let n = C::lanes(bytes);
    if n < LANES {
        return n;
    }
    LANES + len_by_bytes::<C>(&bytes[LANES..])
}

/// The same, where runs are long.
#[inline(always)]
pub fn long_run_len<C: ByteClass>(bytes: &[u8]) -> usize
    ensures value { result ≡ prefix_len C.class bytes.now }
    ensures within { result ≤ length bytes.now }
{
    let mut n = 0;
    while LANES <= bytes.len() - n {
        let k = C::lanes(&bytes[n..]);
        if k < LANES {
            return n + k;
        }
        n += LANES;
    }
    n + len_by_bytes::<C>(&bytes[n..])
}
