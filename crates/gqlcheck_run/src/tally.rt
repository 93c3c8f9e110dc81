// What a run has found so far.
ghost use Rattle.std.specs.Prelude.{◌≡◌, [], IfOk, true, string_bytes};

use crate::greatest::greatest_of;
use document_checks::{Figures, Finding, Report};
use std::alloc::{AllocError, Allocator};

/// What comes before a number, by whether it is at least that.
pub fn words_before(at_least: bool) -> &'static str {
    if at_least { "at least " } else { "" }
}

// How many of these findings are no warnings.
fn errors_among(findings: &[Finding]) -> u64 {
    let mut errors: u64 = 0;
    for finding in findings {
        if !finding.is_warning {
            errors = errors.saturating_add(1);
        }
    }
    errors
}

/// How much was found in the texts that were checked. A number that would be above `u64::MAX` is that.
#[derive(Clone, Copy)]
pub struct Tally {
    /// Findings that keep a text from passing.
    pub errors: u64,
    /// Whether there may be more of them than that.
    pub at_least: bool,
    /// Texts that were checked.
    pub texts: u64,
    /// Texts with findings that keep them from passing.
    pub with_findings: u64,
    /// Whether anything was found, be it a warning.
    pub has_findings: bool,
    /// The greatest of each figure, if any operation has figures.
    pub greatest: Option<Figures>,
}

impl Tally {
    /// The tally before the first text.
    pub const NONE: Tally = Tally {
        errors: 0,
        at_least: false,
        texts: 0,
        with_findings: 0,
        has_findings: false,
        greatest: None,
    };

    /// Adds what was found in a text.
    pub fn add(&mut self, report: &Report)
        ensures { report.now.passes ≡ true → self.new.errors ≡ self.old.errors }
    {
        self.texts = self.texts.saturating_add(1);
        self.greatest = greatest_of(self.greatest, report.operations.as_slice());
        self.has_findings = self.has_findings || !report.findings.is_empty();
        if report.passes {
            return;
        }
        self.with_findings = self.with_findings.saturating_add(1);
        self.errors = self
            .errors
            .saturating_add(errors_among(report.findings.as_slice()))
            .saturating_add(report.more as u64);
        self.at_least = self.at_least || report.at_least;
    }

    /// A line with the numbers, as `3 errors in 2 of 48 files`. It is empty where nothing was found.
    pub fn summary<A: Allocator>(&self, alloc: A) -> Result<String<A>, AllocError>
        ensures { IfOk result (λ text. self.now.errors ≡ 0 → string_bytes text ≡ []) }
    {
        let mut text = String::new(alloc);
        if self.errors == 0 {
            return Ok(text);
        }
        let (words, errors) = (words_before(self.at_least), self.errors);
        let plural = if errors == 1 { "" } else { "s" };
        write!(text, "{words}{errors} error{plural}")?;
        if self.texts > 1 {
            let (some, all) = (self.with_findings, self.texts);
            write!(text, " in {some} of {all} files")?;
        }
        text.push('\n')?;
        Ok(text)
    }
}
