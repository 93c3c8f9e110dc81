// The parts of a text between bytes.
ghost use Rattle.std.specs.Prelude.{◌≡◌, ◌==◌, ◌<◌, ◌∷◌, [], IfSome, MatchOption, length, position};
ghost use Rattle.ignore_rules.specs.Parts.{parts};

/// What separates the names of a path.
pub const SLASH: u8 = b'/';

// Where the first of these bytes is.
fn first_of(text: &[u8], byte: u8) -> Option<usize>
    ensures first { result ≡ position (λ it. it == byte) text.now }
    ensures within { IfSome result (λ at. at < length text.now) }
{
    text.iter().position(|it| *it == byte)
}

/// The text before the first of these bytes, and the one after it, if there is such a byte.
pub fn cut(text: &[u8], byte: u8) -> (&[u8], Option<&[u8]>)
    ensures { MatchOption result.1 (parts byte text.now ≡ result.0.now ∷ [])
        (λ rest. (parts byte text.now ≡ result.0.now ∷ parts byte rest.now) × (length rest.now < length text.now)) }
{
    match first_of(text, byte) {
        Some(end) => (&text[..end], Some(&text[end + 1..])),
        None => (text, None),
    }
}
