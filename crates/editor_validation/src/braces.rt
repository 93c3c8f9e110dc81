// Braces of a document that are never closed, although a definition begins behind them. They are found by the leaves:
// which message a missing `}` makes, and where, depends on the definition.
ghost use Rattle.std.specs.Prelude.{◌≡◌, IfOk, OnOk, find, option_map, reverse};
ghost use Rattle.apollo_tree.specs.References.{node_place, token_place};
ghost use Rattle.editor_validation.specs.Braces.{begins_definition, begins_line, explains, is_keyword, never_closed};
ghost use Rattle.editor_validation.specs.Braces.{open_after, open_brace, with_definition};

use apollo_tree::{SyntaxNode, SyntaxToken};
use std::alloc::{AllocError, Global};

// A brace that is open.
#[derive(Clone, Copy)]
struct OpenBrace {
    // its byte offset
    start: usize,
    // whether the keyword of a definition begins a line right inside it
    has_definition: bool,
}

// Whether a definition begins with a word.
fn is_keyword(word: &str) -> bool
    ensures { result ≡ is_keyword word.now }
{
    match word {
        "query"
        | "mutation"
        | "subscription"
        | "fragment"
        | "schema"
        | "scalar"
        | "type"
        | "interface"
        | "union"
        | "enum"
        | "input"
        | "directive"
        | "extend" => true,
        _ => false,
    }
}

// Whether a line of a text begins at a byte offset.
fn begins_line(text: &str, offset: usize) -> bool
    ensures { result ≡ begins_line text.now offset }
{
    match text.as_bytes().get(offset.saturating_sub(1)) {
        Some(byte) => *byte == b'\n' || *byte == b'\r',
        None => false,
    }
}

// Whether a leaf begins a line of a text with the keyword of a definition.
fn begins_definition(text: &str, leaf: SyntaxToken<'_>) -> bool
    ensures { result ≡ begins_definition text.now (token_place leaf.entry) }
{
    begins_line(text, leaf.text_range().start()) && is_keyword(leaf.text())
}

// Notes that the innermost brace has a definition right inside it.
fn note_definition(braces: &mut Vec<OpenBrace>) -> Result<(), AllocError>
    ensures { OnOk result (reverse braces.new.items ≡ with_definition (reverse braces.old.items)) }
{
    if let Some(brace) = braces.pop() {
        braces.push(OpenBrace {
            start: brace.start,
            has_definition: true,
        })?;
    }
    Ok(())
}

// Opens or closes a brace, or notes a definition, by the next leaf of a text.
fn take(braces: &mut Vec<OpenBrace>, text: &str, leaf: SyntaxToken<'_>) -> Result<(), AllocError>
    ensures { OnOk result (reverse braces.new.items
        ≡ open_after text.now (reverse braces.old.items) (token_place leaf.entry)) }
{
    match leaf.text() {
        "{" => {
            braces.push(OpenBrace {
                start: leaf.text_range().start(),
                has_definition: false,
            })?;
            Ok(())
        }
        "}" => {
            braces.pop();
            Ok(())
        }
        _ if begins_definition(text, leaf) => note_definition(braces),
        _ => Ok(()),
    }
}

// The braces of a document that are never closed, the innermost last.
fn never_closed(alloc: Global, document: &SyntaxNode<'_>) -> Result<Vec<OpenBrace>, AllocError>
    ensures { IfOk result (λ braces. reverse braces.items ≡ never_closed (node_place document.now)) }
{
    let text = document.text();
    let mut braces = Vec::new(alloc);
    for element in document.descendants_with_tokens() {
        if let Some(leaf) = element.into_token() {
            take(&mut braces, text, leaf)?;
        }
    }
    Ok(braces)
}

// Where the last of some braces begins that is in front of an error's byte offset, and has a definition right inside
// it.
fn last_that_explains(braces: &[OpenBrace], error: usize) -> Option<usize>
    ensures { result ≡ option_map (λ brace. brace.start) (find (explains error) (reverse braces.now)) }
{
    let mut found = None;
    for brace in braces {
        if brace.has_definition && brace.start < error {
            found = Some(brace.start);
        }
    }
    found
}

/// The byte offset of the innermost brace in front of an error that is never closed and in which a line begins with a
/// definition's keyword, by the root of the document's tree and the error's byte offset. It fails only where memory is
/// refused.
pub(crate) fn open_brace(
    alloc: Global,
    document: &SyntaxNode<'_>,
    error: usize,
) -> Result<Option<usize>, AllocError>
    ensures { IfOk result (λ brace. brace ≡ open_brace (node_place document.now) error) }
{
    let braces = never_closed(alloc, document)?;
    Ok(last_that_explains(braces.as_slice(), error))
}
