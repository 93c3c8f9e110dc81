// Block strings in other words.
ghost use Rattle.std.specs.Prelude.{◌≡◌, true, IfOk, IfSome, string_bytes};
ghost use Rattle.lexical_grammar.specs.Strings.{begins, triple_quote};
ghost use Rattle.lexical_grammar.specs.Tokens.{IsString};
ghost use Rattle.apollo_cst_core.specs.StringValues.{IsStringValue};
ghost use Rattle.format_layout.specs.Respelled.{SameBlock};

use crate::style::{BlockStyle, WriteError};
use apollo_cst_core::string_value;
use apollo_lexer::{Lexer, answers_are_items};
use lexical_grammar::TokenKind;
use std::alloc::{AllocError, Allocator};

fn begins_block(text: &str) -> bool
    ensures { result ≡ begins triple_quote text.now }
{
    matches!(text.as_bytes(), [b'"', b'"', b'"', ..])
}

/// Whether the text is one string, with nothing before it and nothing after it.
fn is_string(text: &str) -> bool
    ensures { result ≡ true → IsString text.now }
{
    let mut lexer = Lexer::new(text);
    answers_are_items(&lexer);
    let Some(Ok(token)) = lexer.next() else {
        return false;
    };
    if token.kind() != TokenKind::StringValue {
        return false;
    }
    token.data() == text
}

// Whether the text is a block string with this value.
fn is_block_of<A: Allocator + Copy>(alloc: A, text: &str, value: &str) -> Result<bool, AllocError>
    ensures string { IfOk result (λ is. is ≡ true → IsString text.now) }
    ensures block { IfOk result (λ is. is ≡ true → begins triple_quote text.now ≡ true) }
    ensures value { IfOk result (λ is. is ≡ true → IsStringValue text.now value.now) }
{
    if !begins_block(text) || !is_string(text) {
        return Ok(false);
    }
    let own = string_value(text, alloc)?;
    Ok(own.as_str() == value)
}

/// The string spelled in a style, if it is a block string. `None` where it is to stay: a quoted string always, and a
/// block string that is spelled so already. It fails where memory is refused, or the style fails.
pub fn spelled<A: Allocator + Copy, S: BlockStyle>(
    alloc: A,
    text: &str,
    style: &S,
) -> Result<Option<String<A>>, WriteError>
    requires { IsString text.now }
    ensures string { IfOk result (λ o. IfSome o (λ other. IsString (string_bytes other))) }
    // both are block strings, with one value
    ensures same { IfOk result (λ o. IfSome o (λ other. SameBlock text.now (string_bytes other))) }
{
    if !begins_block(text) {
        return Ok(None);
    }
    let value = string_value(text, alloc)?;
    let other = style.block_text(alloc, value.as_str())?;
    let words = other.as_str();
    if words == text || !is_block_of(alloc, words, value.as_str())? {
        return Ok(None);
    }
    Ok(Some(other))
}
