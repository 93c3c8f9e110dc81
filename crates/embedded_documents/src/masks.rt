// Texts of which only the documents are left.
ghost use Rattle.std.specs.Prelude.{◌≡◌, ℕ, ◌⊎◌, ◌++◌, ◌≤◌, ◌∷◌, List, [], All, IfOk, IfSome, OnOk, false, length, map};
ghost use Rattle.std.specs.Prelude.{slice_range, string_bytes, true};
ghost use Rattle.embedded_documents.specs.Masked.{HasTag, IsMasked, blank};
ghost use Rattle.embedded_documents.specs.Steps.{IsMoveIn, IsContextIn, IsTagged};

use crate::scanner::{Context, HostLanguage, Move, next_step};
use std::alloc::{AllocError, Global};

// The blank in place of a byte: the end of a line stays.
fn blank_of(byte: u8) -> &'static str
    ensures { result.now ≡ blank byte ∷ [] }
{
    match byte {
        b'\n' => "\n",
        b'\r' => "\r",
        _ => " ",
    }
}

// Adds blanks for some bytes.
fn push_blanks(masked: &mut String, bytes: &[u8]) -> Result<(), AllocError>
    ensures { OnOk result (string_bytes masked.new ≡ string_bytes masked.old ++ map blank bytes.now) }
{
    for byte in bytes {
        masked.push_str(blank_of(*byte))?;
    }
    Ok(())
}

// Adds a part of a text: as it is if it is of a document, and else as blanks. Parts of documents are whole characters.
fn push_part(
    masked: &mut String,
    text: &str,
    start: usize,
    end: usize,
    is_document: bool,
) -> Result<(), AllocError>
    requires order { start ≤ end }
    requires within { end ≤ length text.now }
    ensures part { OnOk result ((string_bytes masked.new ≡ string_bytes masked.old ++ slice_range text.now start end)
        ⊎ (string_bytes masked.new ≡ string_bytes masked.old ++ map blank (slice_range text.now start end))) }
    ensures untagged { OnOk result
        (is_document ≡ false → string_bytes masked.new ≡ string_bytes masked.old
        ++ map blank (slice_range text.now start end)) }
{
    if is_document && let Some(part) = text.get(start..end) {
        return masked.push_str(part);
    }
    push_blanks(masked, &text.as_bytes()[start..end])
}

// Goes into a context, or out of the innermost one.
fn go(text: &str, contexts: &mut Vec<Context>, next: Move) -> Result<(), AllocError>
    requires contexts { All (IsContextIn text.now) contexts.old.items }
    requires next { IsMoveIn text.now next }
    ensures { OnOk result (All (IsContextIn text.now) contexts.new.items) }
{
    match next {
        Move::Stay => {}
        Move::Enter(context) => contexts.push(context)?,
        Move::Leave => {
            contexts.pop();
        }
    }
    Ok(())
}

/// The text of a file with blanks in place of all that is in no document. The number of bytes stays, and so do the ends
/// of lines. It fails only where memory is refused.
pub fn masked(alloc: Global, text: &str, language: HostLanguage) -> Result<String, AllocError>
    ensures { IfOk result (λ masked. IsMasked text.now (string_bytes masked)) }
{
    let bytes = text.as_bytes();
    let mut masked = String::new(alloc);
    let mut contexts = Vec::new(alloc);
    let mut start = 0;
    while start < bytes.len() {
        let context = contexts.as_slice().last().copied();
        let step = next_step(bytes, start, language, context);
        push_part(&mut masked, text, start, step.end, step.is_document)?;
        go(text, &mut contexts, step.next)?;
        start = step.end;
    }
    Ok(masked)
}

// Whether a context is one of a document.
fn is_document(context: Option<Context>) -> bool
    ensures { (text : List ℕ) → IfSome context (IsContextIn text) → IsTagged text result }
{
    match context {
        Some(Context::Quoted { is_document, .. } | Context::Escaped { is_document, .. }) =>
            is_document,
        Some(Context::Braces { .. }) | None => false,
    }
}

/// Whether a document is at a byte offset of a file. It fails only where memory is refused.
pub fn is_in_document(
    alloc: Global,
    text: &str,
    language: HostLanguage,
    offset: usize,
) -> Result<bool, AllocError>
    ensures { IfOk result (λ is_inside. is_inside ≡ true → HasTag text.now) }
{
    let bytes = text.as_bytes();
    let mut contexts = Vec::new(alloc);
    let mut start = 0;
    while start < bytes.len() {
        let context = contexts.as_slice().last().copied();
        let step = next_step(bytes, start, language, context);
        if offset < step.end {
            return Ok(is_document(context));
        }
        go(text, &mut contexts, step.next)?;
        start = step.end;
    }
    Ok(is_document(contexts.as_slice().last().copied()))
}
