// What a text is checked against, and what is found.
ghost use Rattle.std.specs.Prelude.{◌≡◌, ◌≢◌, ◌<◌, [], OnOk, true, false, vec_len};

use apollo_parser::{BorrowedError, Limits};
use apollo_tree::SyntaxNode;
use cost_figures::{Figures, Limit};
use cost_limits::Introspection;
use document_validation::RuleSet;
use std::alloc::{AllocError, Global};

/// What texts are checked against.
#[derive(Clone, Copy)]
pub struct Checks<'a> {
    /// The limits of the parser.
    pub limits: Limits,
    /// The greatest figures that an operation may have.
    pub most: Figures,
    /// Whether the fields count that introspect the schema.
    pub introspection: Introspection,
    /// The name of the operation that has to be within the limits, or `None` for all operations.
    pub operation: Option<&'a str>,
    /// How many findings of a text are reported at most. If this is 0, the first of them still is.
    pub findings: usize,
    /// How many of the texts are judged, from the first on, or `None` for all. The others are only known: they have to
    /// be documents, and their fragments may be spread.
    pub judged: Option<usize>,
    /// How many of the texts, from the first on, are those of a schema, or `None` without one. The documents that are
    /// judged have to keep the rules that need its types. Where the schema defines a name twice, the first definition
    /// counts.
    pub schema: Option<usize>,
    /// The rules whose violations keep the texts from passing.
    pub rules: RuleSet,
    /// Other rules, whose violations are warnings, and keep no text from passing.
    pub warnings: RuleSet,
    /// How many steps validation may take, or `None` for as many as it takes.
    pub steps: Option<usize>,
}

/// A second place that a finding is about, as the first definition of a name.
#[derive(Clone, Copy)]
pub struct OtherPlace {
    /// The number of the text that it is in, from 0.
    pub text: usize,
    /// The byte offset at which it begins.
    pub start: usize,
    /// The byte offset behind it.
    pub end: usize,
    /// What is there, as `first defined here`.
    pub words: &'static str,
}

/// A limit that an operation exceeds.
#[derive(Clone, Copy)]
pub struct ExceededLimit {
    pub limit: Limit,
    /// The operation's figure.
    pub value: u64,
    /// The greatest figure that the limit allows.
    pub most: u64,
}

/// Something that keeps a text from passing, or the first of the places of one; or a warning.
#[derive(Drop)]
pub struct Finding {
    /// The byte offset of its place.
    pub start: usize,
    /// The byte offset behind it.
    pub end: usize,
    /// What it offends: `Syntax`, `Limits`, `KnownOperation`, the rule of validation under its name in graphql-js, or
    /// `Steps` where validation would have taken too many.
    pub rule: &'static str,
    pub message: String,
    /// Whether the text passes all the same.
    pub is_warning: bool,
    /// The other place, if the rule is about two.
    pub other: Option<OtherPlace>,
    /// The name of the operation that it concerns, if it concerns one; empty where that has no name.
    pub operation: Option<String>,
    /// The limit that the operation exceeds, if it does.
    pub limit: Option<ExceededLimit>,
}

/// The figures of an operation.
#[derive(Drop)]
pub struct OperationReport {
    /// The byte offset at which it begins.
    pub start: usize,
    /// Its name, which is empty where it has none.
    pub name: String,
    pub figures: Figures,
}

/// What is found of a text among those that are judged together.
#[derive(Drop)]
pub struct Report {
    /// Whether nothing is found in it that keeps the texts from passing.
    pub passes: bool,
    /// The first things that keep them from passing, in the order in which they are found: of errors the first of each
    /// definition. Warnings are behind them.
    pub findings: Vec<Finding>,
    /// How many more things there are that keep them from passing.
    pub more: usize,
    /// Whether there may be still more, as where more than a thousand rules are broken.
    pub at_least: bool,
    /// The figures of its operations, if they have any and no rule is broken.
    pub operations: Vec<OperationReport>,
}

impl Report {
    ghost use Rattle.document_checks.specs.Documents.{IsFounded, IsUnwarned};

    /// The report of a text with nothing to check.
    pub(crate) fn of_nothing(alloc: Global) -> Report
        ensures passes { result.passes ≡ true }
        ensures findings { result.findings.items ≡ [] }
    {
        Report {
            passes: true,
            findings: Vec::new(alloc),
            more: 0,
            at_least: false,
            operations: Vec::new(alloc),
        }
    }

    /// A report of these findings alone, for a text that does not pass.
    pub(crate) fn failed(alloc: Global, findings: Vec<Finding>, more: usize) -> Report
        ensures passes { result.passes ≡ false }
        ensures findings { result.findings.items ≡ findings.items }
    {
        Report {
            passes: false,
            findings,
            more,
            at_least: false,
            operations: Vec::new(alloc),
        }
    }

    /// Whether one more finding is listed, where `most` are at most, and the first always is.
    pub(crate) fn has_room(&self, most: usize) -> bool
        ensures len { result ≡ false → 0 < vec_len self.now.findings }
        ensures some { result ≡ false → self.now.findings.items ≢ [] }
    {
        self.findings.len() < most.max(1)
    }

    /// Adds an error, with which the text does not pass.
    pub(crate) fn add(&mut self, finding: Finding) -> Result<(), AllocError>
        requires { finding.is_warning ≡ false }
        ensures passes { OnOk result (self.new.passes ≡ false) }
        ensures found { OnOk result (IsUnwarned self.old → IsUnwarned self.new) }
    {
        self.passes = false;
        self.findings.push(finding)?;
        Ok(())
    }

    /// Adds a warning, with which the text passes or not as before.
    pub(crate) fn warn(&mut self, warning: Finding) -> Result<(), AllocError>
        requires { warning.is_warning ≡ true }
        ensures passes { OnOk result (self.new.passes ≡ self.old.passes) }
        ensures found { OnOk result (IsFounded self.old → IsFounded self.new) }
        ensures some { OnOk result (self.new.findings.items ≢ []) }
    {
        self.findings.push(warning)?;
        Ok(())
    }

    /// Counts an error that is not listed, where others are.
    pub(crate) fn count_another(&mut self)
        requires { 0 < vec_len self.old.findings }
        ensures passes { self.new.passes ≡ false }
        ensures found { IsUnwarned self.old → IsUnwarned self.new }
    {
        self.passes = false;
        self.more = self.more.saturating_add(1);
    }
}

impl Finding {
    /// A finding from one byte offset to another, of one place alone.
    pub(crate) fn of(start: usize, end: usize, rule: &'static str, message: String) -> Finding
        ensures start { result.start ≡ start }
        ensures error { result.is_warning ≡ false }
    {
        Finding {
            start,
            end,
            rule,
            message,
            is_warning: false,
            other: None,
            operation: None,
            limit: None,
        }
    }

    /// A finding at a node.
    pub(crate) fn at(node: SyntaxNode<'_>, rule: &'static str, message: String) -> Finding
        ensures { result.is_warning ≡ false }
    {
        let range = node.text_range();
        Finding::of(range.start(), range.end(), rule, message)
    }

    /// A finding that an error of the parser is, with the byte offset at which it is shown. At the end of the text it
    /// has no length.
    pub(crate) fn of_error(error: &BorrowedError<'_>, start: usize, message: String) -> Finding
        ensures start { result.start ≡ start }
        ensures error { result.is_warning ≡ false }
    {
        let length = if error.is_eof() {
            0
        } else {
            error.data().len()
        };
        Finding::of(start, start.saturating_add(length), "Syntax", message)
    }
}
