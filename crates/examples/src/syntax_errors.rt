// Syntax errors with their lines and columns, and with their subjects underlined.
ghost use Rattle.std.specs.Prelude.{◌≤◌, length};

use apollo_parser::{DocumentRoot, Error, SyntaxTree};
use line_index::LineIndex;
use std::alloc::{AllocError, Global};

// Where an error is shown. One at the end of the text is shown after the last character that is no white space.
fn offset_of(source: &str, error: &Error) -> usize
    ensures { result ≤ length source.now }
{
    let offset = if error.is_eof() {
        source.trim_end().len()
    } else {
        error.index()
    };
    offset.min(source.len())
}

// Adds a line of the text, and below it marks under what the line has from a column on in common with `marked`: at
// least one mark.
fn underline(
    report: &mut String,
    line: &str,
    column: usize,
    marked: &str,
) -> Result<(), AllocError> {
    let (before, rest) = line.split_at(line.floor_char_boundary(column));
    let blanks = before.chars().count();
    let same = rest.chars().zip(marked.chars()).take_while(|(a, b)| a == b);
    let marks = same.count().max(1);
    writeln!(report, "{line}")?;
    writeln!(report, "{:blanks$}{:^>marks$}", "", "")
}

/// The errors of a parse of the text: for each a line `line:column: message`, the line of the text, and marks below
/// that. Lines and columns count from 1, columns in characters.
pub(crate) fn report(
    alloc: Global,
    source: &str,
    tree: &SyntaxTree<DocumentRoot>,
) -> Result<String, AllocError> {
    let lines = LineIndex::new(alloc, source)?;
    let mut report = String::new(alloc);
    for error in tree.errors() {
        let offset = offset_of(source, error);
        let position = lines.line_column(offset);
        let line = position.line.saturating_add(1);
        let column = lines.column_in_chars(offset).saturating_add(1);
        let message = error.message();
        writeln!(report, "{line}:{column}: {message}")?;
        underline(
            &mut report,
            lines.line_text(offset),
            position.column,
            error.data(),
        )?;
    }
    Ok(report)
}
