// The words for which a program prints something of itself.
ghost use Rattle.std.specs.Prelude.{◌≡◌, map};
ghost use Rattle.command_lines.specs.Information.{information_of, is_help, is_version};

/// What a program prints of itself.
#[derive(Clone, Copy)]
pub enum Information {
    /// How it is called, and what it does.
    Help,
    /// Its version.
    Version,
}

/// The request in the words: a page, or the work of this plan.
#[derive(Drop)]
pub enum Request<P> {
    Print(Information),
    Process(P),
}

fn is_help(word: &str) -> bool
    ensures { result ≡ is_help word.now }
{
    matches!(word, "--help" | "-h")
}

fn is_version(word: &str) -> bool
    ensures { result ≡ is_version word.now }
{
    matches!(word, "--version" | "-V")
}

/// What the words after a program's name have it print of itself, if anything: the first of `--help`, `-h`, `--version`
/// and `-V` says it, unless `--` comes before.
pub fn information_of(words: &[&str]) -> Option<Information>
    ensures { result ≡ information_of (map (λ word. word.now) words.now) }
{
    for word in words {
        if *word == "--" {
            return None;
        }
        if is_help(word) {
            return Some(Information::Help);
        }
        if is_version(word) {
            return Some(Information::Version);
        }
    }
    None
}
