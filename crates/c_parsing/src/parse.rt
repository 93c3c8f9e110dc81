// Parses into rows: of a document, a selection set or a type.
ghost use Rattle.std.specs.Prelude.{◌≡◌, ℕ, List, ◌<◌, ◌^◌, length};
ghost use Rattle.apollo_parser.specs.Forests.{text};
ghost use Rattle.c_parsing.specs.Outcomes.{Outcome, ParseOutcome, SelectionSetOutcome, TypeOutcome};

use crate::errors::{counted_bytes, write_found};
use crate::rows::{Counts, ErrorRow, status};
use crate::source::{refused, text_of};
use apollo_parser::{CompactElement, Limits, Parser, Root, SyntaxTree};
use std::alloc::Allocator;

// Writes the tree and the errors of a parse, each as far as there is room.
fn write_parse<R: Root, A: Allocator>(
    tree: SyntaxTree<R, A>,
    elements: &mut [CompactElement],
    errors: &mut [ErrorRow],
    messages: &mut [u8],
) -> Counts
    requires { length (text tree.tree) < 2 ^ 31 }
    ensures { (source : List ℕ) → ParseOutcome (λ parsed. parsed ≡ tree) source
        (record { elements = elements.old; errors = errors.old; messages = messages.old })
        (record { elements = elements.new; errors = errors.new; messages = messages.new }) result }
{
    let element_count = tree.element_count();
    if element_count >= 1 << 28 {
        return refused(status::TOO_LONG);
    }
    let text = tree.root().text();
    let found = tree.errors().as_slice();
    let Some(message_bytes) = counted_bytes(found) else {
        return refused(status::NO_MEMORY);
    };
    write_found(found, errors, messages);
    let counts = Counts {
        elements: element_count,
        text_bytes: text.len(),
        errors: found.len(),
        message_bytes,
        recursion_high: tree.recursion_limit().high,
        token_high: tree.token_limit().high,
        status: status::OK,
    };
    tree.into_compact(elements);
    counts
}

/// Parses a document (GraphQL October 2021, section 2.2, "Document") within both limits. It writes the rows of the
/// tree's elements and of the errors, and the bytes of the errors' messages, each as far as there is room, and answers
/// how much there is.
///
/// What it promises is `Outcome` in `specs/Outcomes.antt`.
pub fn parse_into<A: Allocator + Copy>(
    alloc: A,
    source: &[u8],
    limits: Limits,
    elements: &mut [CompactElement],
    errors: &mut [ErrorRow],
    messages: &mut [u8],
) -> Counts
    ensures { Outcome source.now limits.recursion limits.tokens
        (record { elements = elements.old; errors = errors.old; messages = messages.old })
        (record { elements = elements.new; errors = errors.new; messages = messages.new }) result }
{
    let text = match text_of(source) {
        Ok(text) => text,
        Err(status) => return refused(status),
    };
    match Parser::within(text, limits).parse(alloc) {
        Ok(tree) => write_parse(tree, elements, errors, messages),
        Err(_) => refused(status::NO_MEMORY),
    }
}

/// Parses a selection set (GraphQL October 2021, section 2.4, "Selection Sets"), with its outer braces or with both
/// left away, and writes as `parse_into` does. What follows the selection set is not in the tree.
///
/// What it promises is `SelectionSetOutcome` in `specs/Outcomes.antt`.
pub fn parse_selection_set_into<A: Allocator + Copy>(
    alloc: A,
    source: &[u8],
    limits: Limits,
    elements: &mut [CompactElement],
    errors: &mut [ErrorRow],
    messages: &mut [u8],
) -> Counts
    ensures { SelectionSetOutcome source.now limits.recursion limits.tokens
        (record { elements = elements.old; errors = errors.old; messages = messages.old })
        (record { elements = elements.new; errors = errors.new; messages = messages.new }) result }
{
    let text = match text_of(source) {
        Ok(text) => text,
        Err(status) => return refused(status),
    };
    match Parser::within(text, limits).parse_selection_set(alloc) {
        Ok(tree) => write_parse(tree, elements, errors, messages),
        Err(_) => refused(status::NO_MEMORY),
    }
}

/// Parses a type (GraphQL October 2021, section 2.11, "Type References"), and writes as `parse_into` does. What follows
/// the type is not in the tree.
///
/// What it promises is `TypeOutcome` in `specs/Outcomes.antt`.
pub fn parse_type_into<A: Allocator + Copy>(
    alloc: A,
    source: &[u8],
    limits: Limits,
    elements: &mut [CompactElement],
    errors: &mut [ErrorRow],
    messages: &mut [u8],
) -> Counts
    ensures { TypeOutcome source.now limits.recursion limits.tokens
        (record { elements = elements.old; errors = errors.old; messages = messages.old })
        (record { elements = elements.new; errors = errors.new; messages = messages.new }) result }
{
    let text = match text_of(source) {
        Ok(text) => text,
        Err(status) => return refused(status),
    };
    match Parser::within(text, limits).parse_type(alloc) {
        Ok(tree) => write_parse(tree, elements, errors, messages),
        Err(_) => refused(status::NO_MEMORY),
    }
}
