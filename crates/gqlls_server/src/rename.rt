// Renaming what is at a position, in all documents.
ghost use Rattle.std.specs.Prelude.{◌≡◌, ◌++◌, IfOk, OnOk, Some, map, true};
ghost use Rattle.std.specs.List.{flat_map};
ghost use Rattle.std.specs.BTreeMap.{get_by_text};
ghost use Rattle.editor_answers.specs.Parts.{bounds};
ghost use Rattle.json.specs.Tree.{HasNumbers};
ghost use Rattle.json.specs.Value.{value_view};
ghost use Rattle.rpc_messages.specs.Messages.{IsAnswer, IsResult};
ghost use Rattle.rpc_messages.specs.Pieces.{tokens_of};
ghost use Rattle.gqlls_server.specs.Renaming.{IsRenamed, IsRenamedAt, IsRenaming, may_be_called, workspace_edit};
ghost use Rattle.gqlls_server.specs.Edits.{edit_tokens, known_tokens};
ghost use Rattle.gqlls_server.specs.State.{file_of, files, known_of, places_of};

use crate::documents::{Document, Documents, Known};
use crate::format_answers::REQUEST_FAILED;
use crate::parameters::{new_name_of, offset_of};
use crate::references::{Occurrence, UNDEFINED, definer_of, objection_to, uses_in};
use apollo_parser::{Parser, SyntaxKind, SyntaxToken};
use editor_answers::{NameKind, Span, identifier_at, meaning_of, push_changes};
use json::Value;
use rpc_messages::{Piece, answer, code, refusal};
use schema_members::{Schema, Uses, member_named};
use std::alloc::{AllocError, Global};
use type_system::STANDARD;

// The index of the document that is asked about, among all.
const ASKED: usize = 0;

// Why something may not have a name that other things may have.
const NO_NAME_OF_ITS_KIND: &str = "the grammar does not allow this name here";

// Whether the grammar lets such a thing have this name: a fragment may not be called `on` (section 2.8, FragmentName).
fn may_be_called(kind: NameKind, name: &str) -> bool
    ensures { result ≡ may_be_called kind name.now }
{
    match kind {
        NameKind::Fragment => name != "on",
        NameKind::Operation | NameKind::Variable | NameKind::Type | NameKind::Directive => true,
    }
}

// Whether the grammar lets a member have this name: an enum value may not be called `true`, `false` or `null` (section
// 2.9.6, EnumValue).
fn member_may_be_called(uses: &Uses<'_, '_>, name: &str) -> bool {
    let kind = uses.member.node.kind();
    !kind.is(SyntaxKind::ENUM_VALUE_DEFINITION)
        || !(name == "true" || name == "false" || name == "null")
}

// Adds the edits of parts of a document, if there are some. Its positions are only worked out where there are some.
fn push_edits<'p>(
    alloc: Global,
    pieces: &mut Vec<Piece<'p>>,
    known: &Known<'p>,
    found: &[Span],
    name: &'p str,
) -> Result<(), AllocError>
    ensures { OnOk result (flat_map tokens_of pieces.new.items ≡ flat_map tokens_of pieces.old.items
        ++ edit_tokens (known_of known.now) name.now (map bounds found.now)) }
{
    if found.is_empty() {
        return Ok(());
    }
    let positions = known.document.positions(alloc)?;
    pieces.extend_from_slice(&[Piece::Key(known.uri), Piece::Array])?;
    push_changes(pieces, &positions, found, name)?;
    pieces.extend_from_slice(&[Piece::EndArray])?;
    Ok(())
}

// Adds the edits that give a name another text wherever the documents have it.
fn push_all_edits<'p>(
    alloc: Global,
    pieces: &mut Vec<Piece<'p>>,
    occurrence: &Occurrence<'_>,
    known: &[Known<'p>],
    name: &'p str,
) -> Result<(), AllocError>
    ensures { OnOk result (flat_map tokens_of pieces.new.items ≡ flat_map tokens_of pieces.old.items
        ++ flat_map (known_tokens (places_of true occurrence.now) name.now) known.now) }
{
    for one in known {
        let found = occurrence.references_in(alloc, one, true)?;
        push_edits(alloc, pieces, one, found.as_slice(), name)?;
    }
    Ok(())
}

// The answer that has these edits.
fn answer_edits<'p>(
    alloc: Global,
    id: &Value<'_>,
    occurrence: &Occurrence<'_>,
    known: &[Known<'p>],
    name: &'p str,
) -> Result<Vec<u8>, AllocError>
    requires { HasNumbers (value_view id.now) }
    ensures answers { IfOk result (λ body. IsAnswer (value_view id.now) body.items) }
    ensures edits { IfOk result (λ body. IsResult (value_view id.now)
        (workspace_edit (places_of true occurrence.now) name.now (map known_of known.now)) body.items) }
{
    let mut pieces = Vec::new(alloc);
    pieces.extend_from_slice(&[Piece::Object, Piece::Key("changes"), Piece::Object])?;
    push_all_edits(alloc, &mut pieces, occurrence, known, name)?;
    pieces.extend_from_slice(&[Piece::EndObject, Piece::EndObject])?;
    let body = answer(alloc, id, pieces.as_slice())?;
    Ok(body)
}

// The answer to rename of an operation, a fragment, a variable, a type or a directive.
fn answer_name<'a>(
    alloc: Global,
    id: &Value<'_>,
    kind: NameKind,
    asked: &Known<'a>,
    offset: usize,
    known: &[Known<'a>],
    name: &'a str,
) -> Result<Vec<u8>, AllocError>
    requires { HasNumbers (value_view id.now) }
    ensures answers { IfOk result (λ body. IsAnswer (value_view id.now) body.items) }
    ensures renames { IfOk result
        (λ body. IsRenamed (value_view id.now) kind (known_of asked.now) offset name.now
        (map known_of known.now) body.items) }
{
    let Some(definer) = definer_of(asked, offset, known) else {
        return refusal(alloc, id, REQUEST_FAILED, UNDEFINED);
    };
    if !may_be_called(kind, name) {
        return refusal(alloc, id, code::INVALID_PARAMS, NO_NAME_OF_ITS_KIND);
    }
    let occurrence = Occurrence {
        asked: *asked,
        offset,
        definer: Some(definer),
    };
    let body = answer_edits(alloc, id, &occurrence, known, name)?;
    Ok(body)
}

// The answer that has edits of all names that mean a member.
fn answer_member_edits<'p>(
    alloc: Global,
    id: &Value<'_>,
    uses: &Uses<'_, '_>,
    known: &[Known<'p>],
    name: &'p str,
) -> Result<Vec<u8>, AllocError>
    requires { HasNumbers (value_view id.now) }
    ensures { IfOk result (λ body. IsAnswer (value_view id.now) body.items) }
{
    let mut pieces = Vec::new(alloc);
    pieces.extend_from_slice(&[Piece::Object, Piece::Key("changes"), Piece::Object])?;
    for (index, one) in known.iter().enumerate() {
        let found = uses_in(alloc, uses, index, true)?;
        push_edits(alloc, &mut pieces, one, found.as_slice(), name)?;
    }
    pieces.extend_from_slice(&[Piece::EndObject, Piece::EndObject])?;
    answer(alloc, id, pieces.as_slice())
}

// The answer to rename of a field, an argument or a value, by its name in the document that is asked about.
fn answer_member<'a>(
    alloc: Global,
    id: &Value<'_>,
    leaf: SyntaxToken<'a>,
    known: &[Known<'a>],
    name: &'a str,
) -> Result<Vec<u8>, AllocError>
    requires { HasNumbers (value_view id.now) }
    ensures { IfOk result (λ body. IsAnswer (value_view id.now) body.items) }
{
    let standard = Parser::new(STANDARD).parse(alloc)?;
    let mut roots = Vec::new(alloc);
    for one in known {
        roots.push(one.document.root())?;
    }
    roots.push(standard.root())?;
    let schema = Schema {
        roots: roots.as_slice(),
    };
    let Some(member) = member_named(alloc, schema, ASKED, leaf)? else {
        return refusal(alloc, id, REQUEST_FAILED, UNDEFINED);
    };
    let uses = Uses::new(alloc, schema, member)?;
    if let Some(reason) = objection_to(&uses, known.len()) {
        return refusal(alloc, id, REQUEST_FAILED, reason);
    }
    if !member_may_be_called(&uses, name) {
        return refusal(alloc, id, code::INVALID_PARAMS, NO_NAME_OF_ITS_KIND);
    }
    answer_member_edits(alloc, id, &uses, known, name)
}

// The answer to rename of the name at a byte offset.
fn answer_at<'a>(
    alloc: Global,
    id: &Value<'_>,
    asked: &Known<'a>,
    offset: usize,
    known: &[Known<'a>],
    name: &'a str,
) -> Result<Vec<u8>, AllocError>
    requires { HasNumbers (value_view id.now) }
    ensures answers { IfOk result (λ body. IsAnswer (value_view id.now) body.items) }
    ensures renames { IfOk result
        (λ body. IsRenamedAt (value_view id.now) (known_of asked.now) offset name.now
        (map known_of known.now) body.items) }
{
    let Some(leaf) = identifier_at(asked.document.root(), offset) else {
        return refusal(alloc, id, REQUEST_FAILED, UNDEFINED);
    };
    match meaning_of(leaf) {
        Some(meaning) => answer_name(alloc, id, meaning.kind, asked, offset, known, name),
        None => {
            let body = answer_member(alloc, id, leaf, known, name)?;
            Ok(body)
        }
    }
}

// What is asked: to rename the name at the position of a message, in a document, beside all that are known.
#[derive(Clone, Copy)]
struct Asked<'a, 'v> {
    first: Known<'a>,
    documents: Documents<'a>,
    params: &'a Value<'v>,
}

impl Asked<'_, '_> {
    fn answer_to(self, alloc: Global, id: &Value<'_>) -> Result<Vec<u8>, AllocError>
        requires { HasNumbers (value_view id.now) }
        ensures answers { IfOk result (λ body. IsAnswer (value_view id.now) body.items) }
        ensures renames { IfOk result
            (λ body. get_by_text self.entry.documents.opened.now self.entry.first.uri.now
            ≡ Some self.entry.first.document.now
            → IsRenaming (files self.entry.documents.opened.now) (files self.entry.documents.files.now)
            (value_view id.now) (value_view self.entry.params.now)
            self.entry.first.uri.now (file_of self.entry.first.document.now) body.items) }
    {
        let positions = self.first.document.positions(alloc)?;
        let Some(offset) = offset_of(&positions, self.params) else {
            return refusal(alloc, id, code::INVALID_PARAMS, "no such place");
        };
        let Some(name) = new_name_of(self.params) else {
            return refusal(alloc, id, code::INVALID_PARAMS, "no name of GraphQL");
        };
        let known = self.documents.from(alloc, &self.first)?;
        let body = answer_at(alloc, id, &self.first, offset, known.as_slice(), name)?;
        Ok(body)
    }
}

/// The answer to rename of the name at the position of the message, in the document with a name, one of those that are
/// open. It gives it another name in all documents.
pub(crate) fn answer_rename(
    alloc: Global,
    id: &Value<'_>,
    uri: &str,
    document: &Document,
    documents: Documents<'_>,
    params: &Value<'_>,
) -> Result<Vec<u8>, AllocError>
    requires { HasNumbers (value_view id.now) }
    ensures answers { IfOk result (λ body. IsAnswer (value_view id.now) body.items) }
    ensures renames { IfOk result (λ body. get_by_text documents.entry.opened.now uri.now ≡ Some document.now
        → IsRenaming (files documents.entry.opened.now) (files documents.entry.files.now) (value_view id.now)
        (value_view params.now) uri.now
        (file_of document.now) body.items) }
{
    let asked = Asked {
        first: Known { uri, document },
        documents,
        params,
    };
    let body = asked.answer_to(alloc, id)?;
    Ok(body)
}
