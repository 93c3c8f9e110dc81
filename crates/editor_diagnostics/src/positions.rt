// Positions in a text as the client counts them.
ghost use Rattle.std.specs.Prelude.{◌≡◌, ◌≤◌, IfOk, flat_map, length, take};
ghost use Rattle.std.specs.Str.{IsCharBoundary};
ghost use Rattle.json.specs.Tree.{json_tokens};
ghost use Rattle.line_index.specs.Positions.{offset_of, units};
ghost use Rattle.rpc_messages.specs.Pieces.{tokens_of};
ghost use Rattle.editor_diagnostics.specs.Positions.{IsReadAt, cursor_at, position_of, range_value};

use line_index::{LineIndex, Position, PositionEncoding};
use rpc_messages::Piece;
use std::alloc::{AllocError, Global};

/// A text with its lines, and how its columns are counted.
#[derive(Drop)]
pub struct Positions<'t> {
    pub text: &'t str,
    pub encoding: PositionEncoding,
    lines: LineIndex<'t>,
    ghost of_text: { lines ≡ text.now },
}

impl<'t> Positions<'t> {
    /// The positions in a text. It fails only where memory is refused.
    pub fn new(
        alloc: Global,
        text: &'t str,
        encoding: PositionEncoding,
    ) -> Result<Positions<'t>, AllocError>
        ensures text { IfOk result (λ positions. positions.text.now ≡ text.now) }
        ensures encoding { IfOk result (λ positions. positions.encoding ≡ encoding) }
    {
        let lines = LineIndex::new(alloc, text)?;
        Ok(Positions {
            text,
            encoding,
            lines,
        })
    }

    // Where a cursor may be, for a byte offset: in front of the CR LF that it is inside.
    fn cursor(&self, offset: usize) -> usize
        requires { offset ≤ length self.now.text.now }
        ensures value { result ≡ cursor_at self.now.text.now offset }
        ensures within { result ≤ length self.now.text.now }
    {
        let bytes = self.text.as_bytes();
        if offset == 0 {
            return 0;
        }
        let before = offset - 1;
        if bytes[before] == b'\r' && bytes.get(offset) == Some(&b'\n') {
            return before;
        }
        offset
    }

    /// The position of a byte offset, by which a client finds that byte. One after the text counts as its end, and one
    /// between the CR and the LF of a CR LF, which no client can name, as in front of them.
    pub fn position(&self, offset: usize) -> Position
        ensures value { result ≡ position_of self.now.encoding self.now.text.now offset }
        ensures read { IsReadAt self.now.encoding self.now.text.now offset result }
    {
        let offset = offset.min(self.text.len());
        self.lines.position(self.encoding, self.cursor(offset))
    }

    /// The byte offset of a position, which is a boundary of characters: as many units are in front of it as the client
    /// means.
    pub fn offset(&self, position: Position) -> usize
        ensures boundary { IsCharBoundary self.now.text.now result }
        ensures position { length (units self.now.encoding (take result self.now.text.now))
            ≡ offset_of self.now.encoding (units self.now.encoding self.now.text.now) position }
    {
        self.lines.offset(self.encoding, position)
    }

    /// The pieces of JSON of the range between two byte offsets.
    pub fn range(&self, start: usize, end: usize) -> [Piece<'static>; 16]
        ensures { flat_map tokens_of result
            ≡ json_tokens (range_value (position_of self.now.encoding self.now.text.now start)
            (position_of self.now.encoding self.now.text.now end)) }
    {
        let start = self.position(start);
        let end = self.position(end);
        [
            Piece::Object,
            Piece::Key("start"),
            Piece::Object,
            Piece::Key("line"),
            Piece::Count(start.line),
            Piece::Key("character"),
            Piece::Count(start.column),
            Piece::EndObject,
            Piece::Key("end"),
            Piece::Object,
            Piece::Key("line"),
            Piece::Count(end.line),
            Piece::Key("character"),
            Piece::Count(end.column),
            Piece::EndObject,
            Piece::EndObject,
        ]
    }
}
