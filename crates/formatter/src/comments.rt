// Texts without definitions.
ghost use Rattle.std.specs.Prelude.{◌≡◌, ◌<◌, ◌≤◌, true, false, not, [], None, length, IfErr, IfOk, IfSome, MatchBool};
ghost use Rattle.std.specs.Prelude.{string_bytes};
ghost use Rattle.lexical_grammar.specs.Answers.{usize_max};
ghost use Rattle.lexical_grammar.specs.Cut.{Significant, are_tokens, is_significant_kind};
ghost use Rattle.lexical_grammar.specs.Reads.{items_of};
ghost use Rattle.format_layout.specs.declared.style.WriteError.TheVariants.{TooLong};
ghost use Rattle.format_layout.specs.Lengths.{longest_layout, most_items};
ghost use Rattle.formatter.specs.Comments.{HasNoDefinitions, HasSameComments};

use crate::TreeElements;
use apollo_parser::{Lexer, Parser, TokenKind};
use format_layout::{Gaps, WriteError, format_text};
use std::alloc::{AllocError, Allocator};

fn is_ignored(kind: TokenKind) -> bool
    ensures { result ≡ not (is_significant_kind kind) }
{
    matches!(
        kind,
        TokenKind::Whitespace | TokenKind::Comment | TokenKind::Comma | TokenKind::Eof
    )
}

// Whether a text has no significant token and no bad text.
fn is_all_ignored(source: &str) -> bool
    ensures few { length (items_of source.now) ≤ usize_max }
    ensures tokens { result ≡ true → are_tokens (items_of source.now) ≡ true }
    ensures none { result ≡ true → Significant (items_of source.now) ≡ [] }
    ensures some { result ≡ false → ¬ HasNoDefinitions source.now }
{
    for item in Lexer::new(source) {
        let Ok(token) = item else {
            return false;
        };
        if !is_ignored(token.kind()) {
            return false;
        }
    }
    true
}

/// Whether a text has no definitions: it is empty, or has comments, commas and white space alone.
pub fn has_no_definitions(source: &str) -> bool
    ensures { MatchBool result (HasNoDefinitions source.now) (¬ HasNoDefinitions source.now) }
{
    is_all_ignored(source)
}

// How deep the nodes of such a text nest.
const NESTING: usize = 0;

// The gaps of such a text's layout.
fn gaps_of<A: Allocator + Copy>(alloc: A, source: &str) -> Result<Gaps<A>, AllocError> {
    let tree = Parser::new(source).parse_borrowed(alloc)?;
    Gaps::of(alloc, source, &TreeElements { tree: &tree })
}

/// A text without definitions with the layout of this crate, of at most `most` bytes: one that is empty, or has
/// comments alone. `None` where the text has a significant token or bad text. It fails where memory is refused, or the
/// formatted text has more bytes, as `format_within` does.
///
/// Such a text is no document by the standard, so `format_or_errors` refuses it; but people have such files, and want
/// them formatted too.
pub fn format_comments<A: Allocator + Copy>(
    alloc: A,
    source: &str,
    most: usize,
) -> Result<Option<String<A>>, WriteError>
    ensures same { IfOk result (λ o. IfSome o (λ text. HasSameComments source.now (string_bytes text))) }
    ensures short { IfOk result (λ o. IfSome o (λ text. length (string_bytes text) ≤ most)) }
    ensures longest { IfOk result
        (λ o. IfSome o (λ text. length (string_bytes text) ≤ longest_layout 0 (length source.now))) }
    ensures items { IfOk result
        (λ o. IfSome o (λ text. length (items_of (string_bytes text)) ≤ most_items (length (items_of source.now)))) }
    ensures other { IfOk result (λ o. o ≡ None → ¬ HasNoDefinitions source.now) }
    ensures long { IfErr result (λ error. error ≡ TooLong → HasNoDefinitions source.now) }
    ensures small { IfErr result (λ error. error ≡ TooLong → most < longest_layout 0 (length source.now)) }
{
    if !is_all_ignored(source) {
        return Ok(None);
    }
    let gaps = gaps_of(alloc, source)?;
    let text = format_text(alloc, source, gaps, NESTING, most)?;
    Ok(Some(text))
}
