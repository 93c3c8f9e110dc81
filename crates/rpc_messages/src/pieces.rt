// Pieces of JSON, from which messages are made.
ghost use Rattle.std.specs.Prelude.{flat_map, map};
ghost use Rattle.rpc_messages.specs.Pieces.{Adds, list_tokens, number_token, tokens_of};

use json::Writer;
use std::alloc::{AllocError, Global};

/// A piece of JSON.
#[derive(Clone, Copy)]
pub enum Piece<'a> {
    /// `{`
    Object,
    /// `}`
    EndObject,
    /// `[`
    Array,
    /// `]`
    EndArray,
    /// The name of a member.
    Key(&'a str),
    Text(&'a str),
    Count(usize),
    Number(i64),
    Flag(bool),
    Null,
    /// A list of numbers.
    Counts(&'a [usize]),
}

// Writes the items of a list of numbers.
fn put_counts(out: &mut Writer, counts: &[usize]) -> Result<(), AllocError>
    ensures { Adds result out.old out.new (map number_token counts.now) }
{
    for count in counts {
        out.u64(*count as u64)?;
    }
    Ok(())
}

// Writes a list of numbers.
#[tactic(auto, using(crate::proofs::Added::added_one))]
fn put_list(out: &mut Writer, counts: &[usize]) -> Result<(), AllocError>
    ensures { Adds result out.old out.new (list_tokens counts.now) }
{
    out.begin_array()?;
    put_counts(out, counts)?;
    out.end_array()
}

// Writes a piece.
#[tactic(auto, using(crate::proofs::Added::added_one))]
fn put(out: &mut Writer, piece: Piece<'_>) -> Result<(), AllocError>
    ensures { Adds result out.old out.new (tokens_of piece.entry) }
{
    match piece {
        Piece::Object => out.begin_object(),
        Piece::EndObject => out.end_object(),
        Piece::Array => out.begin_array(),
        Piece::EndArray => out.end_array(),
        Piece::Key(name) => out.key(name),
        Piece::Text(text) => out.string(text),
        Piece::Count(count) => out.u64(count as u64),
        Piece::Number(number) => out.i64(number),
        Piece::Flag(flag) => out.boolean(flag),
        Piece::Null => out.null(),
        Piece::Counts(counts) => put_list(out, counts),
    }
}

/// Writes pieces, one after the other.
pub(crate) fn put_all(out: &mut Writer, pieces: &[Piece<'_>]) -> Result<(), AllocError>
    ensures { Adds result out.old out.new (flat_map tokens_of pieces.now) }
{
    for piece in pieces {
        put(out, *piece)?;
    }
    Ok(())
}
