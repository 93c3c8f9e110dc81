// The words of `gqlfmt`.
ghost use Rattle.std.specs.Prelude.{◌≡◌};
ghost use Rattle.command_lines.specs.Gqlfmt.{line_endings_named, line_endings_of, mode_named, mode_of, most_output_of};
ghost use Rattle.command_lines.specs.Gqlfmt.{name_of, request_of};
ghost use Rattle.command_lines.specs.Misuse.{IsAbout, IsAmong};
ghost use Rattle.command_lines.specs.Reading.{as_given};
ghost use Rattle.command_lines.specs.Words.{IsRead, request_map, texts};

use crate::information::Request;
use crate::misuse::WordsError;
use crate::options::{Plan, RECURSION, Row, TOKENS, Takes, request_of};
use std::alloc::Allocator;

/// What is done with a text that formatting changes.
#[derive(Clone, Copy)]
pub enum Mode {
    /// It is written: to standard output, or in place of the file.
    Write,
    /// Its name is listed.
    Check,
    /// Its changes are shown.
    Diff,
    /// Its layout is printed, also where formatting changes nothing.
    Print,
}

/// The name of standard input in messages, where no other is given.
pub const INPUT: &str = "<stdin>";

/// The options of the program.
pub const OPTIONS: [Row; 9] = [
    ("--write", "-w", Takes::Mode),
    ("--check", "", Takes::Mode),
    ("--diff", "", Takes::Mode),
    ("--print", "", Takes::Mode),
    RECURSION,
    TOKENS,
    ("--max-output", "", Takes::Number),
    ("--line-endings", "", Takes::LineEnding),
    ("--stdin-filepath", "", Takes::Text),
];

/// How the lines of a formatted text end.
#[derive(Clone, Copy)]
pub enum LineEndings {
    /// With LF.
    Lf,
    /// With CR LF.
    Crlf,
    /// With CR LF where the first line of the source ends so, or else with LF.
    Keep,
}

fn mode_named(name: &str) -> Mode
    ensures { result ≡ mode_named name.now }
{
    match name {
        "--check" => Mode::Check,
        "--diff" => Mode::Diff,
        "--print" => Mode::Print,
        _ => Mode::Write,
    }
}

fn line_endings_named(name: &str) -> LineEndings
    ensures { result ≡ line_endings_named name.now }
{
    match name {
        "crlf" => LineEndings::Crlf,
        "keep" => LineEndings::Keep,
        _ => LineEndings::Lf,
    }
}

impl<'a, A: Allocator> Plan<'a, A> {
    /// What is done with a text that formatting changes.
    pub fn mode(&self) -> Mode
        ensures { result ≡ mode_of (as_given self.now) }
    {
        mode_named(self.text("mode").unwrap_or("--write"))
    }

    /// How many bytes a formatted text may have, if a number is given.
    pub fn most_output(&self) -> Option<usize>
        ensures { result ≡ most_output_of (as_given self.now) }
    {
        self.number("--max-output")
    }

    pub fn line_endings(&self) -> LineEndings
        ensures { result ≡ line_endings_of (as_given self.now) }
    {
        line_endings_named(self.text("--line-endings").unwrap_or("lf"))
    }

    /// What standard input is called in messages.
    pub fn name(&self) -> &'a str
        ensures { result.now ≡ name_of (as_given self.now) }
    {
        self.text("--stdin-filepath").unwrap_or(INPUT)
    }
}

/// The request in the words after the program's name.
pub fn options<'a, A: Allocator + Copy>(
    alloc: A,
    words: &[&'a str],
) -> Result<Request<Plan<'a, A>>, WordsError<'a>>
    ensures request { IsRead (request_map as_given) (request_of (texts words.now)) result }
    ensures about { IsAbout (IsAmong (texts words.now)) result }
{
    request_of(alloc, &OPTIONS, words)
}
