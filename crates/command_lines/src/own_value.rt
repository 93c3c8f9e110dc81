// An option and its value in one word.
ghost use Rattle.std.specs.Prelude.{◌≡◌, true, false, MatchOption};
ghost use Rattle.command_lines.specs.OwnValue.{has_own_value, option_name, own_value};

/// The option and its value in the word `--name=value`, or nothing where the word has no equals sign.
pub(crate) fn name_and_value(word: &str) -> Option<(&str, &str)>
    ensures { MatchOption result (has_own_value word.now ≡ false) (λ it. (has_own_value word.now ≡ true)
        × (it.0.now ≡ option_name word.now) × (it.1.now ≡ own_value word.now)) }
{
    word.split_once('=')
}
