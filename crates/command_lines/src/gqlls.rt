// The words of `gqlls`.
ghost use Rattle.std.specs.List.{Contains};
ghost use Rattle.command_lines.specs.Gqlls.{request_of};
ghost use Rattle.command_lines.specs.Misuse.{IsAbout};
ghost use Rattle.command_lines.specs.Words.{IsRead, texts};

use crate::information::{Request, information_of};
use crate::misuse::WordsError;
use crate::options::{RECURSION, Row, TOKENS, Takes, plan_of};
use apollo_lexer::Limits;
use std::alloc::Allocator;

/// The options of the program. Editors add the first.
pub const OPTIONS: [Row; 3] = [("--stdio", "", Takes::Ignored), RECURSION, TOKENS];

/// The request in the words after the program's name: the limits that they set, or a page, as `information_of` has it.
/// Options come in any order, each limit at most once.
pub fn options<'a, A: Allocator + Copy>(
    alloc: A,
    words: &[&'a str],
) -> Result<Request<Limits>, WordsError<'a>>
    ensures request { IsRead (λ request. request) (request_of (texts words.now)) result }
    ensures about { IsAbout (Contains (texts words.now)) result }
{
    if let Some(page) = information_of(words) {
        return Ok(Request::Print(page));
    }
    let plan = plan_of(alloc, &OPTIONS, false, words)?;
    Ok(Request::Process(plan.limits()))
}
