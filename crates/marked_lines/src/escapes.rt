// Characters as they are shown.
ghost use Rattle.std.specs.Prelude.{◌≡◌, ◌++◌, IfOk, encode_utf8_all, string_bytes};
ghost use Rattle.std.specs.Char.Escape.{escape_unicode};
ghost use Rattle.marked_lines.specs.Escaping.{is_unseen, shown, shown_char};

use std::alloc::{AllocError, Allocator};
use ucd_category::GeneralCategory;
use unicode_width::UnicodeWidthChar;

/// Whether a character would not be seen, or would move others: a control character but a tab, a format character, or a
/// separator of lines or paragraphs.
pub fn is_unseen(c: char) -> bool
    ensures { result ≡ is_unseen c }
{
    c != '\t'
        && matches!(
            GeneralCategory::for_char(c),
            GeneralCategory::Control
                | GeneralCategory::Format
                | GeneralCategory::LineSeparator
                | GeneralCategory::ParagraphSeparator
        )
}

// Puts an escape for a character, as `\u{202e}`.
fn push_escape<A: Allocator>(report: &mut String<A>, c: char) -> Result<(), AllocError>
    ensures { IfOk result (λ _. string_bytes report.new ≡ string_bytes report.old
        ++ encode_utf8_all (escape_unicode c)) }
{
    for part in c.escape_unicode() {
        report.push(part)?;
    }
    Ok(())
}

// Puts a character as it is shown.
fn push_shown<A: Allocator>(report: &mut String<A>, c: char) -> Result<(), AllocError>
    ensures { IfOk result (λ _. string_bytes report.new ≡ string_bytes report.old ++ encode_utf8_all (shown_char c)) }
{
    if is_unseen(c) {
        push_escape(report, c)
    } else {
        report.push(c)
    }
}

/// Puts a text at the end of another as it is shown: with escapes, as `\u{202e}`, for the characters that would not be
/// seen or would move others.
pub fn push_escaped<A: Allocator>(report: &mut String<A>, text: &str) -> Result<(), AllocError>
    ensures { IfOk result (λ _. string_bytes report.new ≡ string_bytes report.old ++ shown text.now) }
{
    for c in text.chars() {
        push_shown(report, c)?;
    }
    Ok(())
}

/// How many columns of a terminal a character takes as it is shown. A tab counts as one.
pub fn columns_of(c: char) -> usize {
    if is_unseen(c) {
        c.escape_unicode().count()
    } else {
        c.width().unwrap_or(1)
    }
}

/// How many columns of a terminal a text takes as it is shown.
pub fn column_count(text: &str) -> usize {
    let mut count = 0usize;
    for c in text.chars() {
        count = count.saturating_add(columns_of(c));
    }
    count
}
