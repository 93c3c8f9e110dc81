// Diagnostics on a document.
ghost use Rattle.std.specs.Prelude.{◌≡◌, map};
ghost use Rattle.editor_diagnostics.specs.Diagnostics.{as_diagnosis, severity_number, with_brace};

/// How serious a diagnostic is: a `DiagnosticSeverity` (Language Server Protocol 3.17).
#[derive(Clone, Copy)]
pub enum Severity {
    Error,
    Warning,
}

impl Severity {
    /// The protocol's number of it.
    pub(crate) fn number(self) -> usize
        ensures { result ≡ severity_number self }
    {
        match self {
            Severity::Error => 1,
            Severity::Warning => 2,
        }
    }
}

/// What is wrong with a part of a document, or may be.
#[derive(Drop)]
pub struct Diagnostic {
    /// The byte offset at which the part of the text begins that it is about.
    pub start: usize,
    /// The byte offset at which that part ends.
    pub end: usize,
    /// The rule that it is about (`Diagnostic.code`).
    pub code: &'static str,
    pub severity: Severity,
    pub message: String,
    /// The byte offset of a brace that is never closed, where that is what is wrong.
    pub open_brace: Option<usize>,
}

/// Has the first of some diagnostics name a brace that is never closed, by its byte offset, or none.
pub fn name_brace(diagnostics: &mut [Diagnostic], brace: Option<usize>)
    ensures { map as_diagnosis diagnostics.new ≡ with_brace brace (map as_diagnosis diagnostics.old) }
{
    if !diagnostics.is_empty() {
        diagnostics[0].open_brace = brace;
    }
}
