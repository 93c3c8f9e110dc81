// Lexing and parsing within limits.
ghost use Rattle.std.specs.Prelude.{◌≡◌, IfOk};
ghost use Rattle.apollo_parser.specs.Cut.{Cut};
ghost use Rattle.apollo_parser.specs.Answers.{limited};
ghost use Rattle.apollo_parser.specs.Reads.{items_of};
ghost use Rattle.apollo_parser.specs.LexerAnswers.{answers_left};
ghost use Rattle.gqlcst_run.specs.Parsing.{IsFound};

use crate::finding::{Finding, finding_of};
use apollo_parser::{BorrowedSyntaxTree, DocumentRoot, Lexer, Limits, Parser};
use std::alloc::{AllocError, Allocator};

/// A lexer of the text, with the token limit.
pub fn lexer(source: &str, limits: Limits) -> Lexer<'_>
    ensures cut { Cut source.now (items_of source.now) }
    ensures answers { answers_left result ≡ limited limits.tokens (items_of source.now) }
{
    Lexer::new(source).with_limit(limits.tokens)
}

/// The tree of a text with its errors, and the finding for their number.
pub fn parse<A: Allocator + Copy>(
    alloc: A,
    source: &str,
    limits: Limits,
) -> Result<(BorrowedSyntaxTree<'_, DocumentRoot, A>, Finding), AllocError>
    ensures { IfOk result (λ it. IsFound limits source.now it.0.errors it.1) }
{
    let tree = Parser::within(source, limits).parse_borrowed(alloc)?;
    let finding = finding_of(tree.errors().len());
    Ok((tree, finding))
}
