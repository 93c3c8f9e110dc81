// The bytes that a caller gives as a text.
ghost use Rattle.std.specs.Prelude.{◌≡◌, ◌∷◌, [], ◌≤◌, ◌<◌, ◌^◌, length, IfErr, IfOk};
ghost use Rattle.std.specs.List.{Contains};
ghost use Rattle.std.specs.Str.{IsUtf8};
ghost use Rattle.c_parsing.specs.Outcomes.{NOT_UTF8, TOO_LONG, no_counts};

use crate::rows::{Counts, status};

/// The bytes as a text whose offsets 31 bits can say, or the status of the call that refuses them.
pub fn text_of(source: &[u8]) -> Result<&str, u32>
    ensures text { IfOk result (λ text. text.now ≡ source.now) }
    ensures utf8 { IfOk result (λ text. IsUtf8 source.now) }
    ensures short { IfOk result (λ text. length source.now < 2 ^ 31) }
    ensures not_utf8 { IfErr result (λ status. status ≡ NOT_UTF8 → ¬ IsUtf8 source.now) }
    ensures too_long { IfErr result (λ status. status ≡ TOO_LONG → 2 ^ 31 ≤ length source.now) }
    ensures known { IfErr result (Contains (NOT_UTF8 ∷ TOO_LONG ∷ [])) }
{
    if source.len() >= 1 << 31 {
        return Err(status::TOO_LONG);
    }
    match std::str::from_utf8(source) {
        Ok(text) => Ok(text),
        Err(_) => Err(status::NOT_UTF8),
    }
}

/// The counts of a call that is refused.
pub fn refused(status: u32) -> Counts
    ensures { result ≡ no_counts status }
{
    Counts {
        elements: 0,
        text_bytes: 0,
        errors: 0,
        message_bytes: 0,
        recursion_high: 0,
        token_high: 0,
        status,
    }
}
