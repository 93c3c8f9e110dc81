// The text of a caller as a document.
ghost use Rattle.std.specs.Prelude.{IfErr, IfOk};
ghost use Rattle.c_validation.specs.Outcomes.{IsDocumentParse, IsRefusal};

use crate::rows::status;
use apollo_parser::{DocumentRoot, Limits, Parser, SyntaxTree};
use std::alloc::Allocator;

/// The tree of a document within both limits, or the status of the call that refuses the bytes.
pub(crate) fn read_document<A: Allocator + Copy>(
    alloc: A,
    source: &[u8],
    limits: Limits,
) -> Result<SyntaxTree<DocumentRoot, A>, u32>
    ensures document { IfOk result (IsDocumentParse source.now limits.recursion limits.tokens) }
    ensures refusal { IfErr result (IsRefusal source.now limits.recursion limits.tokens) }
{
    let Ok(text) = std::str::from_utf8(source) else {
        return Err(status::NOT_UTF8);
    };
    let Ok(tree) = Parser::within(text, limits).parse(alloc) else {
        return Err(status::NO_MEMORY);
    };
    if tree.errors().as_slice().is_empty() {
        Ok(tree)
    } else {
        Err(status::NOT_A_DOCUMENT)
    }
}
