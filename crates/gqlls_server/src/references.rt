// Where the documents have a name: references and marks.
ghost use Rattle.std.specs.Prelude.{◌≡◌, IfOk, bytes_eq, map, option_map};
ghost use Rattle.apollo_tree.specs.Order.{range_at};
ghost use Rattle.editor_answers.specs.Names.{holds};
ghost use Rattle.editor_answers.specs.Parts.{bounds};
ghost use Rattle.gqlls_server.specs.Renaming.{definer_of, defines};
ghost use Rattle.gqlls_server.specs.State.{known_of, places_of, text_of};

use crate::documents::{Document, Known};
use editor_answers::{
    Span, definition, definition_elsewhere, push_locations, push_marks, references,
    references_elsewhere, span_of,
};
use editor_diagnostics::Positions;
use rpc_messages::Piece;
use schema_members::Uses;
use std::alloc::{AllocError, Global};

/// Why what no document defines may not have another name.
pub(crate) const UNDEFINED: &str = "no document defines this name";

// Why a member may not have another name that other types may have to have.
const SHARED: &str = "other types may have to have this name, by an interface";

/// A name in a document, which means what its text says: the document, the name's byte offset, and the document whose
/// definition counts.
#[derive(Clone, Copy)]
pub(crate) struct Occurrence<'a> {
    pub asked: Known<'a>,
    pub offset: usize,
    pub definer: Option<&'a str>,
}

/// What is looked for in the documents.
#[derive(Drop)]
pub(crate) enum Target<'s, 'a> {
    /// The names that mean a member by their places.
    Member(Uses<'s, 'a>),
    /// The names that have a meaning by their texts.
    Name(Occurrence<'a>),
}

// Whether a document defines the name at a byte offset of another.
fn defines(asked: &Known<'_>, offset: usize, other: &Known<'_>) -> bool
    ensures { result ≡ defines (known_of asked.now) offset (known_of other.now) }
{
    definition_elsewhere(asked.document.root(), offset, other.document.root()).is_some()
}

/// The document whose definition of the name at a byte offset counts: the document itself where it has one, or else the
/// first that has one.
pub(crate) fn definer_of<'a>(
    asked: &Known<'a>,
    offset: usize,
    known: &[Known<'a>],
) -> Option<&'a str>
    ensures { option_map text_of result ≡ definer_of (known_of asked.now) offset (map known_of known.now) }
{
    if definition(asked.document.root(), offset).is_some() {
        return Some(asked.uri);
    }
    for one in known {
        if defines(asked, offset, one) {
            return Some(one.uri);
        }
    }
    None
}

// Where a document, the one with an index, names a member.
pub(crate) fn uses_in(
    alloc: Global,
    uses: &Uses<'_, '_>,
    index: usize,
    with_definition: bool,
) -> Result<Vec<Span>, AllocError> {
    let leaves = uses.in_document(alloc, index, with_definition)?;
    leaves
        .as_slice()
        .iter()
        .map(|leaf| span_of(leaf.text_range()))
        .collect(alloc)
}

/// Why a member may not have another name, by how many documents there are: none of them defines it, or another type
/// may have to have it too. `None` where it may.
pub(crate) fn objection_to(uses: &Uses<'_, '_>, documents: usize) -> Option<&'static str> {
    if uses.member.document >= documents {
        Some(UNDEFINED)
    } else if uses.is_shared() {
        Some(SHARED)
    } else {
        None
    }
}

impl Occurrence<'_> {
    // Whether a document's definition counts.
    fn is_defined_by(&self, other: &Known<'_>) -> bool
        ensures { result ≡ holds (bytes_eq other.now.uri.now) (option_map text_of self.now.definer) }
    {
        match self.definer {
            Some(uri) => other.uri == uri,
            None => false,
        }
    }

    /// Where a document has the name.
    pub(crate) fn references_in(
        &self,
        alloc: Global,
        other: &Known<'_>,
        with_definition: bool,
    ) -> Result<Vec<Span>, AllocError>
        ensures { IfOk result (λ found. map bounds found.items
            ≡ map range_at (places_of with_definition self.now (known_of other.now))) }
    {
        let root = self.asked.document.root();
        if other.uri == self.asked.uri {
            return references(alloc, root, self.offset, with_definition);
        }
        if !self.is_defined_by(other) && defines(&self.asked, self.offset, other) {
            return Ok(Vec::new(alloc));
        }
        let other = other.document.root();
        references_elsewhere(alloc, root, self.offset, other, with_definition)
    }
}

impl Target<'_, '_> {
    // Where a document has it, by its index.
    fn spans_in(
        &self,
        alloc: Global,
        index: usize,
        known: &Known<'_>,
        with_definition: bool,
    ) -> Result<Vec<Span>, AllocError> {
        match self {
            Target::Member(uses) => uses_in(alloc, uses, index, with_definition),
            Target::Name(name) => name.references_in(alloc, known, with_definition),
        }
    }

    /// Why it may not have another name, by how many documents there are. `None` where it may.
    pub(crate) fn objection(&self, documents: usize) -> Option<&'static str> {
        match self {
            Target::Member(uses) => objection_to(uses, documents),
            Target::Name(name) if name.definer.is_some() => None,
            Target::Name(_) => Some(UNDEFINED),
        }
    }

    /// Adds the result of references: the locations where the documents have it, with its definition when
    /// `with_definition` says so.
    pub(crate) fn push_references<'p>(
        &self,
        alloc: Global,
        pieces: &mut Vec<Piece<'p>>,
        documents: &[Known<'p>],
        with_definition: bool,
    ) -> Result<(), AllocError> {
        pieces.extend_from_slice(&[Piece::Array])?;
        for (index, known) in documents.iter().enumerate() {
            let found = self.spans_in(alloc, index, known, with_definition)?;
            push_found(alloc, pieces, known.uri, known.document, found.as_slice())?;
        }
        pieces.extend_from_slice(&[Piece::EndArray])
    }

    /// Adds the result of documentHighlight: the parts of a document that have it, by its index and its positions.
    pub(crate) fn push_highlights(
        &self,
        alloc: Global,
        pieces: &mut Vec<Piece<'_>>,
        index: usize,
        known: &Known<'_>,
        positions: &Positions<'_>,
    ) -> Result<(), AllocError> {
        let found = self.spans_in(alloc, index, known, true)?;
        pieces.extend_from_slice(&[Piece::Array])?;
        push_marks(pieces, positions, found.as_slice())?;
        pieces.extend_from_slice(&[Piece::EndArray])
    }
}

// Adds the locations of parts of a document. Its positions are only worked out where there are some.
fn push_found<'p>(
    alloc: Global,
    pieces: &mut Vec<Piece<'p>>,
    uri: &'p str,
    document: &Document,
    found: &[Span],
) -> Result<(), AllocError> {
    if found.is_empty() {
        return Ok(());
    }
    let positions = document.positions(alloc)?;
    push_locations(pieces, &positions, uri, found)
}
