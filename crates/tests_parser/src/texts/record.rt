// The records of the input.
use apollo_parser::Limits;
use std::alloc::{AllocError, Global};

/// What is looked at in a tree.
#[derive(Clone, Copy)]
pub enum View {
    /// The errors, the root and the counts.
    Counts,
    /// The printed tree.
    Printed,
    /// Each definition.
    Definitions,
    /// The value of each string and each integer.
    Values,
    /// What accessors find.
    Parts,
    /// The place and the text of each node and of a copy of it.
    Places,
}

/// How a text is read, and what is looked at.
#[derive(Clone, Copy)]
pub enum Mode {
    /// The lexer's items.
    Tokens,
    /// A copy of the tree of a document whose parse is counted.
    Copy,
    /// The tree of a document that borrows its text, and the same tree with a text of its own.
    Borrowed,
    /// A pointer to a field in the first line, looked up in the other lines.
    Pointers,
    Document(View),
    SelectionSet(View),
    Type(View),
}

/// A text, and what is to be found in it.
#[derive(Clone, Copy)]
pub struct Record<'r> {
    pub mode: Mode,
    pub limits: Limits,
    pub wanted: &'r str,
    // how often the pieces of the text are repeated, where it is written in pieces
    count: Option<usize>,
    written: &'r str,
}

fn mode_of(word: &str) -> Option<Mode> {
    match word {
        "document" => Some(Mode::Document(View::Counts)),
        "selection-set" => Some(Mode::SelectionSet(View::Counts)),
        "type" => Some(Mode::Type(View::Counts)),
        "tree" => Some(Mode::Document(View::Printed)),
        "definitions" => Some(Mode::Document(View::Definitions)),
        "values" => Some(Mode::Document(View::Values)),
        "parts" => Some(Mode::Document(View::Parts)),
        "selection-set-parts" => Some(Mode::SelectionSet(View::Parts)),
        "type-parts" => Some(Mode::Type(View::Parts)),
        "places" => Some(Mode::Document(View::Places)),
        "tokens" => Some(Mode::Tokens),
        "copy" => Some(Mode::Copy),
        "borrowed" => Some(Mode::Borrowed),
        "pointers" => Some(Mode::Pointers),
        _ => None,
    }
}

// The limit that a word sets, where there is one that does.
fn limit_of(word: Option<&str>, unset: usize) -> Option<usize> {
    match word {
        None | Some("-") => Some(unset),
        Some(digits) => digits.parse::<usize>().ok(),
    }
}

fn count_of(word: Option<&str>) -> Option<Option<usize>> {
    match word {
        None => Some(None),
        Some(digits) => Some(Some(digits.parse::<usize>().ok()?)),
    }
}

fn repeat(text: &mut String, piece: &str, count: usize) -> Result<(), AllocError> {
    for _ in 0..count {
        text.push_str(piece)?;
    }
    Ok(())
}

impl<'r> Record<'r> {
    /// The record that a text is, without the `== ` before it.
    pub fn read(text: &'r str) -> Option<Record<'r>> {
        let (given, wanted) = text.split_once("\n--\n")?;
        let (head, written) = given.split_once("\n")?;
        let mut words = head.split_whitespace();
        Some(Record {
            mode: mode_of(words.next()?)?,
            limits: Limits {
                recursion: limit_of(words.next(), Limits::DEFAULT.recursion)?,
                tokens: limit_of(words.next(), Limits::DEFAULT.tokens)?,
            },
            count: count_of(words.next())?,
            written,
            wanted: wanted.trim_end(),
        })
    }

    /// The text. One in pieces has a line each for its front, the piece, what is inside of all pieces, the piece that
    /// closes one, and its back.
    pub fn text(&self, alloc: Global) -> Result<String, AllocError> {
        let Some(count) = self.count else {
            return String::from_str(alloc, self.written);
        };
        let mut lines = self.written.split('\n');
        let mut text = String::new(alloc);
        text.push_str(lines.next().unwrap_or(""))?;
        repeat(&mut text, lines.next().unwrap_or(""), count)?;
        text.push_str(lines.next().unwrap_or(""))?;
        repeat(&mut text, lines.next().unwrap_or(""), count)?;
        text.push_str(lines.next().unwrap_or(""))?;
        Ok(text)
    }
}
