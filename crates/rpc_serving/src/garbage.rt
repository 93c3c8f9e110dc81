// Bytes that begin no frame.
ghost use Rattle.std.specs.Prelude.{◌≡◌, ◌<◌, ◌≤◌, ℕ, false, length, slice_index, true};
ghost use Rattle.httparse.specs.Grammar.{is_token_byte};
ghost use Rattle.rpc_serving.specs.Frames.{AreGarbage};

use crate::frames::HEAD_LIMIT;

// Whether a field's name may have the byte (RFC 9110, section 5.6.2).
#[tactic(auto, unfolding(httparse::specs::Grammar::is_token_byte))]
fn is_name_byte(byte: u8) -> bool
    ensures { result ≡ is_token_byte byte }
{
    byte.is_ascii_alphanumeric() || b"!#$%&'*+-.^_`|~".contains(&byte)
}

// How many bytes at the front may be in a field's name.
fn name_len(bytes: &[u8]) -> usize
    ensures within { result ≤ length bytes.now }
    ensures name { (j : ℕ) → j < result → is_token_byte (slice_index bytes.now j) ≡ true }
    ensures end { result < length bytes.now → is_token_byte (slice_index bytes.now result) ≡ false }
{
    for i in 0..bytes.len() {
        if !is_name_byte(bytes[i]) {
            return i;
        }
    }
    bytes.len()
}

// How many bytes at the front begin no frame by the name of its first field: there is no colon after it, or not within
// the length of a head.
fn nameless_len(bytes: &[u8]) -> usize
    ensures within { result ≤ length bytes.now }
    ensures garbage { AreGarbage bytes.now result }
{
    let name = name_len(bytes);
    if name == bytes.len() {
        return (name + 1).saturating_sub(HEAD_LIMIT);
    }
    if name > 0 && bytes[name] == b':' {
        return 0;
    }
    name + 1
}

/// How many bytes at the front surely begin no frame, each looked at once.
pub(crate) fn garbage_len(bytes: &[u8]) -> usize
    ensures within { result ≤ length bytes.now }
    ensures garbage { AreGarbage bytes.now result }
{
    let mut passed = 0;
    while passed < bytes.len() {
        let count = nameless_len(&bytes[passed..]);
        if count == 0 {
            return passed;
        }
        passed += count;
    }
    passed
}
