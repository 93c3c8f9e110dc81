// The fields that `@key(fields: "..")` directives name, as Apollo Federation has them: each string is a selection set
// without its braces.
ghost use Rattle.std.specs.Prelude.{◌≡◌};

use apollo_parser::cst::{CstNode, Directive, Selection, StringValue, SyntaxNode, Value};
use apollo_parser::{Parser, SelectionSetRoot, SyntaxTree};
use line_index::LineIndex;
use std::alloc::{AllocError, Global};

// The string that a directive `@key` has as its argument `fields`.
fn fields_of<'t>(node: SyntaxNode<'t>) -> Option<StringValue<'t>> {
    let directive = Directive::cast(node)?;
    if directive.name()?.text().as_str() != "key" {
        return None;
    }
    for argument in directive.arguments()?.arguments() {
        if argument.name()?.text().as_str() == "fields" {
            if let Value::StringValue(string) = argument.value()? {
                return Some(string);
            }
        }
    }
    None
}

// Where a byte of a string's value is in the document. With escapes, or in a block string, it is where the string
// begins.
fn offset_in(string: &SyntaxNode<'_>, index: usize) -> usize {
    let start = string.text_range().start();
    if string.text().starts_with("\"\"\"") || string.text().contains('\\') {
        return start;
    }
    start.saturating_add(1).saturating_add(index)
}

// A line for each error in a string: its line and column in the document, and its message.
fn list_errors(
    list: &mut String,
    source: &str,
    lines: &LineIndex<'_>,
    string: &SyntaxNode<'_>,
    tree: &SyntaxTree<SelectionSetRoot>,
) -> Result<(), AllocError>
    requires { lines.now ≡ source.now }
{
    for error in tree.errors() {
        let offset = offset_in(string, error.index()).min(source.len());
        let line = lines.line_column(offset).line.saturating_add(1);
        let column = lines.column_in_chars(offset).saturating_add(1);
        let message = error.message();
        writeln!(list, "{line}:{column}: {message}")?;
    }
    Ok(())
}

// The names of the outermost fields.
fn list_fields(list: &mut String, tree: &SyntaxTree<SelectionSetRoot>) -> Result<(), AllocError> {
    for selection in tree.field_set().selections() {
        if let Selection::Field(field) = selection {
            if let Some(name) = field.name() {
                let name = name.text();
                writeln!(list, "key: {name}")?;
            }
        }
    }
    Ok(())
}

/// The fields of all keys, a line each, and the errors in their strings, at their lines and columns in the document.
pub(crate) fn list(
    alloc: Global,
    source: &str,
    root: SyntaxNode<'_>,
) -> Result<String, AllocError> {
    let lines = LineIndex::new(alloc, source)?;
    let mut list = String::new(alloc);
    for node in root.descendants() {
        if let Some(string) = fields_of(node) {
            let value = string.to_string_in(alloc)?;
            let tree = Parser::new(value.as_str()).parse_selection_set(alloc)?;
            list_fields(&mut list, &tree)?;
            list_errors(&mut list, source, &lines, string.syntax(), &tree)?;
        }
    }
    Ok(list)
}
