// A linter: the rules that need no schema.
use apollo_parser::SyntaxNode;
use document_validation::{message, validate};
use line_index::LineIndex;
use std::alloc::{AllocError, Global};

/// A line `line: message` for each place that breaks a rule, at most a hundred of them.
pub(crate) fn lint(
    alloc: Global,
    source: &str,
    root: &SyntaxNode<'_>,
) -> Result<String, AllocError> {
    let lines = LineIndex::new(alloc, source)?;
    let mut list = String::new(alloc);
    for violation in &validate(alloc, &[*root], 100)? {
        let start = violation.site.node.text_range().start().min(source.len());
        let line = lines.line_column(start).line.saturating_add(1);
        let message = message(alloc, violation)?;
        writeln!(list, "{line}: {message}")?;
    }
    Ok(list)
}
