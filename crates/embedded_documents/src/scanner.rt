// Steps through a file.
ghost use Rattle.std.specs.Prelude.{◌<◌, ◌≤◌, IfSome, length};
ghost use Rattle.embedded_documents.specs.Steps.{IsMoveIn, IsContextIn, IsTagged};

use crate::code::code_step;
use crate::quoted::{Quote, escaped_step, quoted_step};

/// The language of a file that may have documents in templates.
#[derive(Clone, Copy)]
pub enum HostLanguage {
    /// JavaScript and TypeScript, also with JSX.
    JavaScript,
    Python,
}

// What a byte is in.
#[derive(Clone, Copy)]
pub(crate) enum Context {
    // code in braces: inside a template it is left alone
    Braces { is_in_template: bool },
    // a string or a template: it may be a document
    Quoted { quote: Quote, is_document: bool },
    // behind a backslash in one
    Escaped { quote: Quote, is_document: bool },
}

// Whether the next step is in another context.
#[derive(Clone, Copy)]
pub(crate) enum Move {
    Stay,
    Enter(Context),
    Leave,
}

// A part of the file: where it ends, whether it is of a document, and what comes next.
#[derive(Clone, Copy)]
pub(crate) struct Step {
    pub end: usize,
    pub is_document: bool,
    pub next: Move,
}

// The step from a byte on, in the innermost context there, if it is in any.
pub(crate) fn next_step(
    bytes: &[u8],
    start: usize,
    language: HostLanguage,
    context: Option<Context>,
) -> Step
    requires start { start < length bytes.now }
    requires context { IfSome context (IsContextIn bytes.now) }
    ensures from { start < result.end }
    ensures within { result.end ≤ length bytes.now }
    ensures document { IsTagged bytes.now result.is_document }
    ensures next { IsMoveIn bytes.now result.next }
{
    match context {
        None => code_step(bytes, start, language, false),
        Some(Context::Braces { is_in_template }) => code_step(
            bytes,
            start,
            language,
            is_in_template,
        ),
        Some(Context::Quoted { quote, is_document }) => quoted_step(
            bytes,
            start,
            quote,
            is_document,
        ),
        Some(Context::Escaped { quote, is_document }) => {
            escaped_step(bytes, start, quote, is_document)
        }
    }
}
