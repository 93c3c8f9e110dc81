//! A text that a client has open, and the changes that the client sends.
//!
//! A change replaces a range of positions, or the whole text. After it the document has the text that the client has:
//! the contract says so for a client that counts lines and units of an encoding.
//!
//! `gqlls_server`, the crate above, keeps an `OpenDocument` for each file and calls its `change_all`. For its answers
//! it parses a text whose quoted strings are `closed` where their lines leave them open.
//!
//! The other way round, `answer_edits` answers a request by the edits that make a text another one. They are so small
//! that a client keeps its marks, its folds and its cursor. `gqlls_server` calls it with a document and its layout.
#![tactic(auto)]

ghost use Rattle.std.specs.Prelude.{◌≡◌, string_bytes, IfOk, OnOk, OnErr};
ghost use Rattle.line_index.specs.LineStarts.{AreFirstStarts};
ghost use Rattle.line_index.specs.Positions.{units};
ghost use Rattle.editor_text.specs.Client.{AreOffsets, changed, changed_all, replaced};

mod differences;
mod edit_answer;
mod open_quotes;

pub use edit_answer::answer_edits;
use line_index::{FirstLines, Position, PositionEncoding};
pub use open_quotes::closed;
use std::alloc::{AllocError, Global};
use std::marker::Model;

/// The part of a text between two positions. When the end comes before the start, it is the empty part at the start.
#[derive(Clone, Copy)]
pub struct PositionRange {
    pub start: Position,
    pub end: Position,
}

/// A new text for a range, or for the whole document when there is no range.
#[derive(Clone, Copy)]
pub struct Change<'a> {
    pub range: Option<PositionRange>,
    pub text: &'a str,
}

/// The text of a document that a client has open, and the encoding in which its positions count columns.
#[derive(Drop)]
pub struct OpenDocument {
    encoding: PositionEncoding,
    text: String,
}

impl Model for OpenDocument {
    ghost use Rattle.std.specs.Prelude.{string_bytes};
    ghost use Rattle.editor_text.specs.Client.{Opened};

    ghost Value = { Opened };

    ghost view = { λ document. record { encoding = document.encoding; text = string_bytes document.text } };
}

impl OpenDocument {
    /// A document with this text. It fails only where memory is refused.
    pub fn new(
        alloc: Global,
        encoding: PositionEncoding,
        text: &str,
    ) -> Result<OpenDocument, AllocError>
        ensures { IfOk result (λ document. document ≡ record { encoding = encoding; text = text.now }) }
    {
        let text = String::from_str(alloc, text)?;
        Ok(OpenDocument { encoding, text })
    }

    /// The text as it is now.
    pub fn text(&self) -> &str
        ensures { result.now ≡ self.now.text }
    {
        self.text.as_str()
    }

    /// What its positions count columns in.
    pub fn encoding(&self) -> PositionEncoding
        ensures { result ≡ self.now.encoding }
    {
        self.encoding
    }

    /// Makes a change. Where memory is refused, the document stays as it was.
    pub fn change(&mut self, alloc: Global, change: &Change<'_>) -> Result<(), AllocError>
        ensures encoding { self.new.encoding ≡ self.old.encoding }
        ensures client { OnOk result
            (units self.old.encoding self.new.text
            ≡ changed self.old.encoding (units self.old.encoding self.old.text) change.now) }
        ensures err { OnErr result (self.new ≡ self.old) }
    {
        self.change_all(alloc, &[*change])
    }

    /// Makes some changes, each to the text that the one before it left. Where memory is refused, the document stays as
    /// it was before all of them.
    pub fn change_all(&mut self, alloc: Global, changes: &[Change<'_>]) -> Result<(), AllocError>
        ensures encoding { self.new.encoding ≡ self.old.encoding }
        ensures client { OnOk result
            (units self.old.encoding self.new.text
            ≡ changed_all self.old.encoding (units self.old.encoding self.old.text) changes.now) }
        ensures err { OnErr result (self.new ≡ self.old) }
    {
        let mut text = String::from_str(alloc, self.text.as_str())?;
        replace_all(alloc, self.encoding, &mut text, changes)?;
        self.text = text;
        Ok(())
    }
}

// Replaces a range of a text, or all of it. Its first lines are known before, and after it.
fn replace(
    alloc: Global,
    encoding: PositionEncoding,
    lines: &mut FirstLines,
    text: &mut String,
    range: Option<PositionRange>,
    new: &str,
) -> Result<(), AllocError>
    requires { AreFirstStarts (string_bytes text.old) lines.old }
    ensures known { OnOk result (AreFirstStarts (string_bytes text.new) lines.new) }
    ensures changed { OnOk result
        (units encoding (string_bytes text.new)
        ≡ replaced encoding (units encoding (string_bytes text.old)) range (units encoding new.now)) }
{
    match range {
        None => {
            *text = String::from_str(alloc, new)?;
            lines.forget_from(0);
        }
        Some(range) => {
            let (start, end) = offsets(encoding, lines, text.as_str(), &range)?;
            text.replace_range(start..end, new)?;
            lines.forget_from(start);
        }
    }
    Ok(())
}

// Makes some changes of a text. When memory is refused, some may have been made.
fn replace_all(
    alloc: Global,
    encoding: PositionEncoding,
    text: &mut String,
    changes: &[Change<'_>],
) -> Result<(), AllocError>
    ensures { OnOk result (units encoding (string_bytes text.new)
        ≡ changed_all encoding (units encoding (string_bytes text.old)) changes.now) }
{
    let mut lines = FirstLines::new(alloc)?;
    for change in changes {
        replace(alloc, encoding, &mut lines, text, change.range, change.text)?;
    }
    Ok(())
}

// The byte offsets of a range of positions.
fn offsets(
    encoding: PositionEncoding,
    lines: &mut FirstLines,
    text: &str,
    range: &PositionRange,
) -> Result<(usize, usize), AllocError>
    requires { AreFirstStarts text.now lines.old }
    ensures known { AreFirstStarts text.now lines.new }
    ensures offsets { IfOk result (λ offsets. AreOffsets encoding text.now range.now offsets.0 offsets.1) }
{
    let start = lines.offset(encoding, text, range.start)?;
    let end = lines.offset(encoding, text, range.end)?;
    Ok((start, end.max(start)))
}
