// How wide a token is.
use unicode_width::UnicodeWidthStr;

/// How many columns the quotes of a block string take.
pub const QUOTES: usize = 3;

// Whether the text of a block string has its quotes in one line, and text between them that begins with a space or a
// tab. Then it stays: its value would change if the text had a line of its own.
fn is_inline(text: &str) -> bool {
    let Some(inner) = text.get(QUOTES..) else {
        return false;
    };
    let begins_white = inner.starts_with(' ') || inner.starts_with('\t');
    let is_blank = inner.trim_start_matches([' ', '\t']).starts_with("\"\"\"");
    begins_white && !is_blank && !inner.contains(['\n', '\r'])
}

/// Whether a string is written with a line for its quotes: a block string, but for one that stays in its line.
#[inline(always)]
pub fn has_lines(text: &str) -> bool {
    text.starts_with("\"\"\"") && !is_inline(text)
}

/// How many columns a text takes in a terminal.
pub fn columns(text: &str) -> usize {
    if text.is_ascii() {
        text.len()
    } else {
        text.width()
    }
}
