// How grave a finding is.
ghost use Rattle.std.specs.Prelude.{◌≡◌};
ghost use Rattle.gqlcheck_run.specs.GithubCommands.{command_of};

/// The word for it, in JSON and in a SARIF log.
pub fn severity_of(is_warning: bool) -> &'static str {
    if is_warning { "warning" } else { "error" }
}

/// What comes before the message of a finding, for people.
pub fn words_before_message(is_warning: bool) -> &'static str {
    if is_warning { "warning: " } else { "" }
}

/// How the command for GitHub Actions begins.
pub fn command_of(is_warning: bool) -> &'static [u8]
    ensures { result.now ≡ command_of is_warning }
{
    if is_warning {
        b"::warning file="
    } else {
        b"::error file="
    }
}
