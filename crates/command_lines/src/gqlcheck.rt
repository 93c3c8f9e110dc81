// The words of `gqlcheck`.
ghost use Rattle.std.specs.Prelude.{◌≡◌, option_map};
ghost use Rattle.command_lines.specs.Gqlcheck.{format_named, format_of, most_named, most_of, operation_of, request_of};
ghost use Rattle.command_lines.specs.Misuse.{IsAbout, IsAmong};
ghost use Rattle.command_lines.specs.Reading.{as_given};
ghost use Rattle.command_lines.specs.Words.{IsRead, request_map, texts};

use crate::information::Request;
use crate::misuse::WordsError;
use crate::options::{Plan, RECURSION, Row, TOKENS, Takes, request_of};
use cost_figures::Figures;
use std::alloc::Allocator;

/// The options of the program.
pub const OPTIONS: [Row; 19] = [
    ("--max-depth", "", Takes::Number),
    ("--max-fields", "", Takes::Number),
    ("--max-root-fields", "", Takes::Number),
    ("--max-aliases", "", Takes::Number),
    ("--max-directives", "", Takes::Number),
    ("--max-height", "", Takes::Number),
    ("--max-distinct-root-fields", "", Takes::Number),
    ("--without-introspection", "", Takes::Nothing),
    ("--operation", "", Takes::Text),
    ("--figures", "", Takes::Nothing),
    ("--schema", "", Takes::Texts),
    ("--fragments", "", Takes::Texts),
    ("--allow", "", Takes::Text),
    ("--warn", "", Takes::Text),
    ("--max-steps", "", Takes::Number),
    ("--format", "", Takes::Format),
    ("--json", "", Takes::Json),
    RECURSION,
    TOKENS,
];

/// In which form findings are printed.
#[derive(Clone, Copy)]
pub enum Format {
    /// Lines for people.
    Text,
    /// An object of JSON a line.
    Json,
    /// Workflow commands of GitHub Actions.
    Github,
    /// One log of SARIF 2.1.0.
    Sarif,
}

fn format_named(name: &str) -> Format
    ensures { result ≡ format_named name.now }
{
    match name {
        "json" => Format::Json,
        "github" => Format::Github,
        "sarif" => Format::Sarif,
        _ => Format::Text,
    }
}

impl<'a, A: Allocator> Plan<'a, A> {
    // The greatest figure that an option allows.
    fn most_named(&self, name: &str) -> u64
        ensures { result ≡ most_named name.now (as_given self.now) }
    {
        match self.number(name) {
            Some(number) => number as u64,
            None => u64::MAX,
        }
    }

    /// The greatest figures that an operation may have.
    pub fn most(&self) -> Figures
        ensures { result ≡ most_of (as_given self.now) }
    {
        Figures {
            depth: self.most_named("--max-depth"),
            fields: self.most_named("--max-fields"),
            root_fields: self.most_named("--max-root-fields"),
            aliases: self.most_named("--max-aliases"),
            directives: self.most_named("--max-directives"),
            height: self.most_named("--max-height"),
            distinct_root_fields: self.most_named("--max-distinct-root-fields"),
        }
    }

    /// The name of the operation that has to be within them, or `None` for all operations.
    pub fn operation(&self) -> Option<&'a str>
        ensures { option_map (λ name. name.now) result ≡ operation_of (as_given self.now) }
    {
        self.text("--operation")
    }

    /// In which form findings are printed.
    pub fn format(&self) -> Format
        ensures { result ≡ format_of (as_given self.now) }
    {
        format_named(self.text("--format").unwrap_or("text"))
    }
}

/// The request in the words after the program's name.
pub fn options<'a, A: Allocator + Copy>(
    alloc: A,
    words: &[&'a str],
) -> Result<Request<Plan<'a, A>>, WordsError<'a>>
    ensures request { IsRead (request_map as_given) (request_of (texts words.now)) result }
    ensures about { IsAbout (IsAmong (texts words.now)) result }
{
    request_of(alloc, &OPTIONS, words)
}
