// Numbers among the words.
ghost use Rattle.std.specs.Prelude.{◌≡◌};
ghost use Rattle.command_lines.specs.Numbers.{number_of};

/// The number that a word spells in decimal digits, with no sign: nothing where it spells no number, or one too large
/// for a `usize`.
pub(crate) fn number_of(word: &str) -> Option<usize>
    ensures { result ≡ number_of word.now }
{
    if word.starts_with('+') {
        return None;
    }
    word.parse::<usize>().ok()
}
