// The words of `gqlcst`.
ghost use Rattle.std.specs.Prelude.{◌≡◌, ◌⊎◌, []};
ghost use Rattle.std.specs.List.{Contains};
ghost use Rattle.command_lines.specs.Gqlcst.{mode_of, command_of, request_of};
ghost use Rattle.command_lines.specs.Misuse.{IsAbout};
ghost use Rattle.command_lines.specs.Words.{IsRead, texts};

use crate::information::{Request, information_of};
use crate::misuse::{Mistake, WordsError};
use crate::options::{RECURSION, Row, TOKENS, plan_of};
use apollo_lexer::Limits;
use std::alloc::Allocator;

/// The options of the program.
pub const OPTIONS: [Row; 2] = [RECURSION, TOKENS];

/// What is written of a text.
#[derive(Clone, Copy)]
pub enum Mode {
    /// `clean`, or its errors.
    Check,
    /// The items that it is cut into.
    Tokens,
    /// Its tree.
    Tree,
}

fn mode_of(word: &str) -> Option<Mode>
    ensures { result ≡ mode_of word.now }
{
    match word {
        "check" => Some(Mode::Check),
        "tokens" => Some(Mode::Tokens),
        "tree" => Some(Mode::Tree),
        _ => None,
    }
}

// The command of the words.
fn command_of<'a, A: Allocator + Copy>(
    alloc: A,
    words: &[&'a str],
) -> Result<(Mode, Limits), WordsError<'a>>
    ensures command { IsRead (λ command. command) (command_of (texts words.now)) result }
    ensures about { IsAbout (λ wrong. Contains (texts words.now) wrong ⊎ (wrong ≡ [])) result }
{
    let [first, more @ ..] = words else {
        return Err(WordsError::of("", Mistake::NoMode));
    };
    let Some(mode) = mode_of(first) else {
        return Err(WordsError::of(first, Mistake::UnknownMode));
    };
    match plan_of(alloc, &OPTIONS, false, more) {
        Ok(plan) => Ok((mode, plan.limits())),
        Err(error) => Err(error),
    }
}

/// The request in the words after the program's name: a mode, and then options in any order, each at most once; or a
/// page, as `information_of` has it.
pub fn options<'a, A: Allocator + Copy>(
    alloc: A,
    words: &[&'a str],
) -> Result<Request<(Mode, Limits)>, WordsError<'a>>
    ensures request { IsRead (λ request. request) (request_of (texts words.now)) result }
    ensures about { IsAbout (λ wrong. Contains (texts words.now) wrong ⊎ (wrong ≡ [])) result }
{
    if let Some(page) = information_of(words) {
        return Ok(Request::Print(page));
    }
    let command = command_of(alloc, words)?;
    Ok(Request::Process(command))
}
