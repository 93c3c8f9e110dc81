//! Messages about places of a text, as programs show them: the place, the message, and the line of the text with the
//! place marked.
//!
//! `gqlfmt_run` and `gqlcheck_run` call `push_message`, and `complaint` where there is no place to show. The names that
//! other programs read are quoted by `gqlfmt_run`, which has `is_unseen` from here.
#![tactic(auto)]

ghost use Rattle.std.specs.Prelude.{◌≡◌, ◌≤◌, ◌++◌, IfOk, codes, length, string_bytes};
ghost use Rattle.marked_lines.specs.Escaping.{shown};
ghost use Rattle.marked_lines.specs.Places.{BeginsWith, place};

mod escapes;
mod excerpt;

pub use escapes::{is_unseen, push_escaped};
use excerpt::push_excerpt;
use line_index::LineIndex;
use std::alloc::{AllocError, Allocator};

/// A message, in four parts, about a place of a text.
#[derive(Clone, Copy)]
pub struct Remark<'m> {
    /// The byte offset of the place.
    pub offset: usize,
    pub message: (&'m str, &'m str, &'m str, &'m str),
    /// The text that is marked there.
    pub marked: &'m str,
}

/// Puts `NAME:LINE:COLUMN: ` at the end of a report, for a byte offset of the text. Lines and columns count from 1,
/// columns in characters. The name is escaped.
pub fn push_place<A: Allocator>(
    report: &mut String<A>,
    name: &str,
    index: &LineIndex<'_, A>,
    offset: usize,
) -> Result<(), AllocError>
    requires { offset ≤ length index.now }
    ensures { IfOk result (λ _. string_bytes report.new ≡ string_bytes report.old ++ place name.now index.now offset) }
{
    // in 128 bits, since no contract of an index says that one more fits in fewer
    let line = index.line_column(offset).line as u128 + 1;
    let column = index.column_in_chars(offset) as u128 + 1;
    push_escaped(report, name)?;
    write!(report, ":{line}:{column}: ")
}

/// Puts a line `NAME:LINE:COLUMN: MESSAGE` at the end of a report, and below it the line of the text that has the byte
/// offset, with as many characters marked from the offset on as it has in common with `marked`, at least one. Lines and
/// columns count from 1, columns in characters. Marks are below what they mark on a terminal, and characters that would
/// not be seen there, or would move others, are escaped.
pub fn push_message<A: Allocator>(
    report: &mut String<A>,
    name: &str,
    index: &LineIndex<'_, A>,
    remark: &Remark<'_>,
) -> Result<(), AllocError>
    requires { remark.now.offset ≤ length index.now }
    ensures { IfOk result (λ _. BeginsWith (string_bytes report.new)
        (string_bytes report.old ++ place name.now index.now remark.now.offset)) }
{
    push_place(report, name, index, remark.offset)?;
    push_escaped(report, remark.message.0)?;
    push_escaped(report, remark.message.1)?;
    push_escaped(report, remark.message.2)?;
    push_escaped(report, remark.message.3)?;
    report.push('\n')?;
    push_excerpt(
        report,
        index.line_text(remark.offset),
        index.line_column(remark.offset).column,
        remark.marked,
    )
}

/// A line `PROGRAM: NAME: REASON`, in which the name is escaped.
pub fn complaint<A: Allocator>(
    alloc: A,
    program: &str,
    name: &str,
    reason: &str,
) -> Result<String<A>, AllocError>
    ensures { IfOk result (λ line. string_bytes line ≡ program.now ++ codes ": " ++ shown name.now ++ codes ": "
        ++ reason.now ++ codes "\n") }
{
    let mut line = String::from_str(alloc, program)?;
    line.push_str(": ")?;
    push_escaped(&mut line, name)?;
    line.push_str(": ")?;
    line.push_str(reason)?;
    line.push('\n')?;
    Ok(line)
}

/// Puts a line at the end of a report that says how many more errors the text of this name has, if it has more.
pub fn push_more<A: Allocator>(
    report: &mut String<A>,
    name: &str,
    more: usize,
) -> Result<(), AllocError>
    ensures { IfOk result (λ _. BeginsWith (string_bytes report.new) (string_bytes report.old)) }
{
    if more == 0 {
        return Ok(());
    }
    push_escaped(report, name)?;
    writeln!(report, ": and {more} more")
}
