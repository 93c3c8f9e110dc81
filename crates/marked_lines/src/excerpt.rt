// A line of a text with an offset in it marked.
ghost use Rattle.std.specs.Prelude.{IfOk, string_bytes};
ghost use Rattle.marked_lines.specs.Places.{BeginsWith};

use crate::escapes::{column_count, columns_of, push_escaped};
use std::alloc::{AllocError, Allocator};

// How many bytes of a line are shown at most in front of the offset and from it on.
const BEFORE: usize = 60;

const AFTER: usize = 100;

// As many columns of blanks as a character takes: a tab for a tab, so that what follows is below what follows the
// character.
fn push_blank<A: Allocator>(text: &mut String<A>, c: char) -> Result<(), AllocError>
    ensures { IfOk result (λ _. BeginsWith (string_bytes text.new) (string_bytes text.old)) }
{
    if c == '\t' {
        return text.push('\t');
    }
    for _ in 0..columns_of(c) {
        text.push(' ')?;
    }
    Ok(())
}

// The same for some characters.
fn push_blanks<A: Allocator>(text: &mut String<A>, part: &str) -> Result<(), AllocError>
    ensures { IfOk result (λ _. BeginsWith (string_bytes text.new) (string_bytes text.old)) }
{
    for c in part.chars() {
        push_blank(text, c)?;
    }
    Ok(())
}

// The part that two texts have in common at their front.
fn common_front<'s>(shown: &'s str, marked: &str) -> &'s str {
    let mut end = 0usize;
    for (a, b) in shown.chars().zip(marked.chars()) {
        if a != b {
            break;
        }
        end = end.saturating_add(a.len_utf8());
    }
    shown.get(..end).unwrap_or("")
}

// What is shown of a line, between a margin and an end.
fn push_line<A: Allocator>(
    report: &mut String<A>,
    margin: &str,
    text: &str,
    end: &str,
) -> Result<(), AllocError>
    ensures { IfOk result (λ _. BeginsWith (string_bytes report.new) (string_bytes report.old)) }
{
    report.push_str(margin)?;
    push_escaped(report, text)?;
    report.push_str(end)
}

// Below it a mark for each column of a text, at least one, after the blanks before them.
#[tactic(auto, using(crate::proofs::Fronts::begins_through))]
fn push_marks<A: Allocator>(
    report: &mut String<A>,
    margin: &str,
    before: &str,
    marked: &str,
) -> Result<(), AllocError>
    ensures { IfOk result (λ _. BeginsWith (string_bytes report.new) (string_bytes report.old)) }
{
    push_blanks(report, margin)?;
    push_blanks(report, before)?;
    for _ in 0..column_count(marked).max(1) {
        report.push('^')?;
    }
    report.push('\n')
}

/// Puts a line of a text at the end of a report, and below it a line that marks as many characters from the column on
/// as are in `marked`. The column is in bytes. Of a long line the part around the column is shown, and nothing of an
/// empty one.
#[tactic(auto, using(crate::proofs::Fronts::begins_through))]
pub fn push_excerpt<A: Allocator>(
    report: &mut String<A>,
    line: &str,
    column: usize,
    marked: &str,
) -> Result<(), AllocError>
    ensures { IfOk result (λ _. BeginsWith (string_bytes report.new) (string_bytes report.old)) }
{
    if line.is_empty() {
        return Ok(());
    }
    let offset = line.floor_char_boundary(column);
    let (cut, rest) = line.split_at(line.floor_char_boundary(offset.saturating_sub(BEFORE)));
    let column = offset.saturating_sub(cut.len());
    let (text, left) = rest.split_at(rest.floor_char_boundary(column.saturating_add(AFTER)));
    let (before, after) = text.split_at(text.floor_char_boundary(column));
    let margin = if cut.is_empty() { "    " } else { "    ..." };
    let end = if left.is_empty() { "\n" } else { "...\n" };
    push_line(report, margin, text, end)?;
    push_marks(report, margin, before, common_front(after, marked))
}
