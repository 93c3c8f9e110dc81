// The values of strings.
ghost use Rattle.std.specs.Prelude.{◌≡◌, true, false};
ghost use Rattle.apollo_parser.specs.Tokens.{IsString};
ghost use Rattle.c_parsing.specs.Outcomes.{StringOutcome};

use crate::buffers::{refused, written};
use crate::rows::{ByteCount, status};
use apollo_cst_core::string_value;
use apollo_parser::{Lexer, TokenKind};
use std::alloc::Allocator;

// Whether a text is one string, with its quotes, and nothing else.
fn is_string(text: &str) -> bool
    ensures yes { result ≡ true → ∥ IsString text.now ∥₁ }
    ensures no { result ≡ false → IsString text.now → ⊥ }
{
    let mut lexer = Lexer::new(text);
    match lexer.next() {
        Some(Ok(token)) => match token.kind() {
            TokenKind::StringValue => token.data().len() == text.len(),
            _ => false,
        },
        Some(Err(_)) => false,
        None => false,
    }
}

/// Writes the value of a string (GraphQL September 2025, "String Value"), as far as there is room, and answers how many
/// bytes it has. The string is given with its quotes, quoted or a block string.
///
/// What it promises is `StringOutcome` in `specs/Outcomes.antt`.
pub fn string_value_into<A: Allocator + Copy>(
    alloc: A,
    literal: &[u8],
    value: &mut [u8],
) -> ByteCount
    ensures { StringOutcome literal.now value.old value.new result }
{
    let Ok(text) = std::str::from_utf8(literal) else {
        return refused(status::NOT_UTF8);
    };
    if !is_string(text) {
        return refused(status::NOT_A_STRING);
    }
    match string_value(text, alloc) {
        Ok(found) => written(value, found.as_str()),
        Err(_) => refused(status::NO_MEMORY),
    }
}
