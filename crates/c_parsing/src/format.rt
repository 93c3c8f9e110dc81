// Formatting.
ghost use Rattle.c_parsing.specs.Outcomes.{FormatOutcome};

use crate::buffers::{refused, written};
use crate::rows::{ByteCount, status};
use apollo_parser::Limits;
use formatter::{WriteError, format_within};
use std::alloc::Allocator;

/// Formats a document (GraphQL October 2021, section 2.2, "Document") within both limits: it writes the same document
/// with the layout of the crate `formatter`, and answers how many bytes it has. Where that is more than there is room
/// for, it writes nothing, and the status is `NO_ROOM`: it takes no more memory for the formatted text than some two
/// times the room.
///
/// What it promises is `FormatOutcome` in `specs/Outcomes.antt`.
pub fn format_into<A: Allocator + Copy>(
    alloc: A,
    source: &[u8],
    limits: Limits,
    formatted: &mut [u8],
) -> ByteCount
    ensures { FormatOutcome source.now limits.recursion limits.tokens formatted.old formatted.new result }
{
    let Ok(text) = std::str::from_utf8(source) else {
        return refused(status::NOT_UTF8);
    };
    match format_within(alloc, text, limits, formatted.len()) {
        Ok(Some(document)) => written(formatted, document.as_str()),
        Ok(None) => refused(status::NOT_A_DOCUMENT),
        Err(WriteError::TooLong) => refused(status::NO_ROOM),
        Err(WriteError::Memory) => refused(status::NO_MEMORY),
    }
}
