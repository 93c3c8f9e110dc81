// What the parameters of a message say. There is nothing where they are not those of the protocol.
ghost use Rattle.std.specs.Prelude.{◌≡◌, IfOk, IfSome, IsTrue, MatchOption, None, Some, ℕ, codes, filter_map, map};
ghost use Rattle.std.specs.Prelude.{ok_or, option_and_then, option_map};
ghost use Rattle.std.specs.List.{Contains, list_all};
ghost use Rattle.std.specs.Str.Parse.{ParsesUnsigned};
ghost use Rattle.json.specs.Find.{as_array, as_number, get};
ghost use Rattle.json.specs.Json.{string};
ghost use Rattle.json.specs.Value.{value_view};
ghost use Rattle.lexical_grammar.specs.Characters.{is_name_continue, is_name_start};
ghost use Rattle.line_index.specs.declared.PositionEncoding.TheVariants.{Utf8};
ghost use Rattle.gqlls_server.specs.Parameters.{IsVersionIn, Offers, OffersAll, number_at, position_at, position_in};
ghost use Rattle.gqlls_server.specs.Parameters.{range_in, text_in, uri_in, asks_before_renaming_in, changed_files};
ghost use Rattle.gqlls_server.specs.Parameters.{may_register_in, prepared_in, registration_in, name_in, names_at};
ghost use Rattle.gqlls_server.specs.Parameters.{opened_folders, related_in, root_in, takes_related_in};
ghost use Rattle.gqlls_server.specs.Files.{host_named};
ghost use Rattle.gqlls_server.specs.Parameters.{IsOffset, is_name, new_name_in, each, edit_in, edits_in, extent_in};
ghost use Rattle.gqlls_server.specs.Parameters.{host_in, items_at, list_of, client_edit};

use editor_answers::{Markup, Span};
use editor_diagnostics::Positions;
use editor_text::{Change, PositionRange};
use embedded_documents::HostLanguage;
use json::Value;
use line_index::{Position, PositionEncoding};
use std::alloc::{AllocError, Global};

fn unsigned_at(value: &Value<'_>, name: &str) -> Option<u64>
    ensures { MatchOption (option_and_then as_number (get name.now (value_view value.now))) (result ≡ None)
        (λ digits. ParsesUnsigned 64 10 digits (ok_or result digits)) }
{
    value.get(name)?.as_u64()
}

fn number_at(value: &Value<'_>, name: &str) -> Option<usize>
    ensures { result ≡ number_at name.now (value_view value.now) }
{
    match unsigned_at(value, name) {
        Some(number) => Some(number as usize),
        None => None,
    }
}

// The position that a value is.
fn position_of(value: &Value<'_>) -> Option<Position>
    ensures { result ≡ position_in (value_view value.now) }
{
    let line = number_at(value, "line")?;
    let column = number_at(value, "character")?;
    Some(Position { line, column })
}

// The position that a value has by a name.
fn position_at(value: &Value<'_>, name: &str) -> Option<Position>
    ensures { result ≡ position_at name.now (value_view value.now) }
{
    position_of(value.get(name)?)
}

// The range that a value is.
fn range_of(value: &Value<'_>) -> Option<PositionRange>
    ensures { result ≡ range_in (value_view value.now) }
{
    let start = position_at(value, "start")?;
    let end = position_at(value, "end")?;
    Some(PositionRange { start, end })
}

// The range that a value may have. Clients write null for one that they leave out.
fn extent_of(value: Option<&Value<'_>>) -> Option<Option<PositionRange>>
    ensures { result ≡ extent_in (option_map (λ v. value_view v.now) value.entry) }
{
    match value {
        Some(range) if !range.is_null() => Some(Some(range_of(range)?)),
        Some(_) | None => Some(None),
    }
}

/// The byte offset that a message is about.
pub(crate) fn offset_of(positions: &Positions<'_>, params: &Value<'_>) -> Option<usize>
    ensures { MatchOption (position_at (codes "position") (value_view params.now)) (result ≡ None)
        (λ position. (offset : ℕ) × (result ≡ Some offset)
        × IsOffset positions.now.encoding positions.now.text.now position offset) }
{
    let position = position_at(params, "position")?;
    Some(positions.offset(position))
}

/// The byte offsets that a message is about.
pub(crate) fn offsets_of(
    alloc: Global,
    positions: &Positions<'_>,
    params: &Value<'_>,
) -> Result<Option<Vec<usize>>, AllocError> {
    let Some(values) = items_at(params, "positions") else {
        return Ok(None);
    };
    let mut offsets = Vec::new(alloc);
    for value in values {
        match position_of(value) {
            Some(position) => offsets.push(positions.offset(position))?,
            None => return Ok(None),
        }
    }
    Ok(Some(offsets))
}

/// The part of a text that a message is about: its range, or the whole text.
pub(crate) fn span_of(positions: &Positions<'_>, params: &Value<'_>) -> Option<Span> {
    let span = match extent_of(params.get("range"))? {
        Some(range) => Span {
            start: positions.offset(range.start),
            end: positions.offset(range.end),
        },
        None => Span {
            start: 0,
            end: positions.text.len(),
        },
    };
    Some(span)
}

// The name that a value has of a file or a folder.
fn name_in<'a>(value: &Value<'a>) -> Option<&'a str>
    ensures { option_map (λ uri. uri.now) result ≡ name_in (value_view value.now) }
{
    value.get("uri")?.as_str()
}

/// The name of the document that a message is about.
pub fn uri_of<'a>(params: &Value<'a>) -> Option<&'a str>
    ensures { option_map (λ uri. uri.now) result ≡ uri_in (value_view params.now) }
{
    name_in(params.get("textDocument")?)
}

/// The version of the document that a message is about.
pub(crate) fn version_of(params: &Value<'_>) -> Option<i64>
    ensures { IsVersionIn (value_view params.now) result }
{
    params.get("textDocument")?.get("version")?.as_i64()
}

/// The text of a document that is opened.
pub(crate) fn text_of<'a>(params: &Value<'a>) -> Option<&'a str>
    ensures { option_map (λ text. text.now) result ≡ text_in (value_view params.now) }
{
    params.get("textDocument")?.get("text")?.as_str()
}

// The language that a `languageId` names, if it isn't GraphQL.
fn host_named(name: &str) -> Option<HostLanguage>
    ensures { result ≡ host_named name.now }
{
    match name {
        "javascript" | "javascriptreact" | "typescript" | "typescriptreact" => {
            Some(HostLanguage::JavaScript)
        }
        "python" => Some(HostLanguage::Python),
        _ => None,
    }
}

/// The language of a document that is opened, if it isn't GraphQL.
pub(crate) fn host_of(params: &Value<'_>) -> Option<HostLanguage>
    ensures { result ≡ host_in (value_view params.now) }
{
    host_named(params.get("textDocument")?.get("languageId")?.as_str()?)
}

// The change that a value is.
fn change_of<'a>(value: &Value<'a>) -> Option<Change<'a>>
    ensures { option_map client_edit result ≡ edit_in (value_view value.now) }
{
    let range = extent_of(value.get("range"))?;
    let text = value.get("text")?.as_str()?;
    Some(Change { range, text })
}

// The items of a list.
fn items_of<'v, 'a>(value: &'v Value<'a>) -> Option<&'v [Value<'a>]>
    ensures { option_map (λ items. map (λ item. value_view item) items.now) result
        ≡ option_map list_of (as_array (value_view value.now)) }
{
    match value {
        Value::Array(items) => Some(items.as_slice()),
        Value::Null | Value::Bool(_) | Value::Number(_) | Value::String(_) | Value::Object(_) => {
            None
        }
    }
}

// The items of a list that a value has by a name.
fn items_at<'v, 'a>(value: &'v Value<'a>, name: &str) -> Option<&'v [Value<'a>]>
    ensures { option_map (λ items. map (λ item. value_view item) items.now) result
        ≡ items_at name.now (value_view value.now) }
{
    items_of(value.get(name)?)
}

// The changes that some values are, where each is one.
fn all_changes<'a>(
    alloc: Global,
    items: &[Value<'a>],
) -> Result<Option<Vec<Change<'a>>>, AllocError>
    ensures { IfOk result (λ found. option_map (λ changes. map client_edit changes.items) found
        ≡ each edit_in (map (λ item. value_view item) items.now)) }
{
    let mut changes = Vec::new(alloc);
    for item in items {
        match change_of(item) {
            Some(change) => changes.push(change)?,
            None => return Ok(None),
        }
    }
    Ok(Some(changes))
}

/// The changes of a document.
pub(crate) fn changes_of<'a>(
    alloc: Global,
    params: &Value<'a>,
) -> Result<Option<Vec<Change<'a>>>, AllocError>
    ensures { IfOk result (λ found. option_map (λ changes. map client_edit changes.items) found
        ≡ edits_in (value_view params.now)) }
{
    match items_at(params, "contentChanges") {
        Some(items) => all_changes(alloc, items),
        None => Ok(None),
    }
}

// The names that some values have.
fn names_in<'a>(alloc: Global, items: &[Value<'a>]) -> Result<Vec<&'a str>, AllocError>
    ensures { IfOk result (λ uris. map (λ uri. uri.now) uris.items
        ≡ filter_map name_in (map (λ item. value_view item) items.now)) }
{
    let mut uris = Vec::new(alloc);
    for item in items {
        if let Some(uri) = name_in(item) {
            uris.push(uri)?;
        }
    }
    Ok(uris)
}

// The names that the values of a list have; none where there is no list.
fn names_at<'a>(alloc: Global, params: &Value<'a>, list: &str) -> Result<Vec<&'a str>, AllocError>
    ensures { IfOk result (λ uris. map (λ uri. uri.now) uris.items ≡ names_at list.now (value_view params.now)) }
{
    match items_at(params, list) {
        Some(items) => names_in(alloc, items),
        None => Ok(Vec::new(alloc)),
    }
}

fn root_of<'a>(params: &Value<'a>) -> Option<&'a str>
    ensures { option_map (λ uri. uri.now) result ≡ root_in (value_view params.now) }
{
    params.get("rootUri")?.as_str()
}

/// The names of the folders that a client opens: its `workspaceFolders`, or else its `rootUri`.
pub fn opened_folders<'a>(alloc: Global, params: &Value<'a>) -> Result<Vec<&'a str>, AllocError>
    ensures { IfOk result (λ uris. map (λ uri. uri.now) uris.items ≡ opened_folders (value_view params.now)) }
{
    let mut uris = names_at(alloc, params, "workspaceFolders")?;
    if uris.is_empty()
        && let Some(root) = root_of(params)
    {
        uris.push(root)?;
    }
    Ok(uris)
}

/// The names of the files that were made, have changed or are gone.
pub fn changed_files<'a>(alloc: Global, params: &Value<'a>) -> Result<Vec<&'a str>, AllocError>
    ensures { IfOk result (λ uris. map (λ uri. uri.now) uris.items ≡ changed_files (value_view params.now)) }
{
    names_at(alloc, params, "changes")
}

/// The text that the names of symbols are to have; empty for all.
pub(crate) fn query_of<'a>(params: &Value<'a>) -> &'a str {
    match params.get("query") {
        Some(query) => query.as_str().unwrap_or(""),
        None => "",
    }
}

// Whether a client lets the server register, where it says so.
fn registration_of(params: &Value<'_>) -> Option<bool>
    ensures { result ≡ registration_in (value_view params.now) }
{
    let capabilities = params.get("capabilities")?;
    let watching = capabilities.get("workspace")?.get("didChangeWatchedFiles")?;
    watching.get("dynamicRegistration")?.as_bool()
}

/// Whether a client lets the server register for the events of files.
pub(crate) fn may_register(params: &Value<'_>) -> bool
    ensures { result ≡ may_register_in (value_view params.now) }
{
    registration_of(params).unwrap_or(false)
}

// Whether a client takes diagnostics with related information, where it says so.
fn related_of(params: &Value<'_>) -> Option<bool>
    ensures { result ≡ related_in (value_view params.now) }
{
    let capabilities = params.get("capabilities")?;
    let publishing = capabilities.get("textDocument")?.get("publishDiagnostics")?;
    publishing.get("relatedInformation")?.as_bool()
}

/// Whether a client takes diagnostics with related information.
pub(crate) fn takes_related(params: &Value<'_>) -> bool
    ensures { result ≡ takes_related_in (value_view params.now) }
{
    related_of(params).unwrap_or(false)
}

fn include_declaration(params: &Value<'_>) -> Option<bool> {
    params.get("context")?.get("includeDeclaration")?.as_bool()
}

/// Whether a search for references wants the definition too.
pub(crate) fn asks_for_definition(params: &Value<'_>) -> bool {
    include_declaration(params) == Some(true)
}

// Whether a name may begin with a byte.
fn starts_name(byte: u8) -> bool
    ensures { result ≡ is_name_start byte }
{
    byte.is_ascii_alphabetic() || byte == b'_'
}

// Whether a name may go on with a byte.
fn continues_name(byte: u8) -> bool
    ensures { result ≡ is_name_continue byte }
{
    byte.is_ascii_alphanumeric() || byte == b'_'
}

// Whether a name may go on with these bytes.
fn continue_name(bytes: &[u8]) -> bool
    ensures { result ≡ list_all is_name_continue bytes.now }
{
    bytes.iter().all(|b| continues_name(*b))
}

// Whether a text is a Name (GraphQL, October 2021, section 2.1.9).
fn is_name(text: &str) -> bool
    ensures { result ≡ is_name text.now }
{
    match text.as_bytes().split_first() {
        Some((first, rest)) => starts_name(*first) && continue_name(rest),
        None => false,
    }
}

/// The name that something gets, if it is one of GraphQL.
pub(crate) fn new_name_of<'a>(params: &Value<'a>) -> Option<&'a str>
    ensures { option_map (λ name. name.now) result ≡ new_name_in (value_view params.now) }
{
    let name = params.get("newName")?.as_str()?;
    if is_name(name) { Some(name) } else { None }
}

// The encodings that a client offers.
fn offered<'v, 'a>(params: &'v Value<'a>) -> Option<&'v [Value<'a>]>
    ensures { IfSome result (λ names. OffersAll (value_view params.now) (map (λ name. value_view name) names.now)) }
{
    let capabilities = params.get("capabilities")?;
    items_at(capabilities.get("general")?, "positionEncodings")
}

// Whether a list has a text.
fn has_text(items: &[Value<'_>], text: &str) -> bool
    ensures { IsTrue result → Contains (map (λ item. value_view item) items.now) (string text.now) }
{
    for item in items {
        if item.as_str() == Some(text) {
            return true;
        }
    }
    false
}

/// How columns are counted: in UTF-8 where the client offers it, else in UTF-16.
pub(crate) fn encoding_of(params: &Value<'_>) -> PositionEncoding
    ensures { result ≡ Utf8 → Offers (value_view params.now) (codes "utf-8") }
{
    match offered(params) {
        Some(names) if has_text(names, "utf-8") => PositionEncoding::Utf8,
        _ => PositionEncoding::Utf16,
    }
}

// What a client can do with a feature of documents.
fn capability_of<'v, 'a>(params: &'v Value<'a>, feature: &str) -> Option<&'v Value<'a>> {
    let capabilities = params.get("capabilities")?;
    capabilities.get("textDocument")?.get(feature)
}

// The markup that a value names.
fn markup_named(value: &Value<'_>) -> Option<Markup> {
    match value.as_str()? {
        "markdown" => Some(Markup::Markdown),
        "plaintext" => Some(Markup::PlainText),
        _ => None,
    }
}

// The first markup that some values name.
fn first_markup(values: &[Value<'_>]) -> Option<Markup> {
    for value in values {
        if let Some(markup) = markup_named(value) {
            return Some(markup);
        }
    }
    None
}

/// The markup that a client likes best in a hover: Markdown where it doesn't say.
pub(crate) fn markup_of(params: &Value<'_>) -> Markup {
    match capability_of(params, "hover") {
        Some(hover) => {
            first_markup(items_at(hover, "contentFormat").unwrap_or_default()).unwrap_or(
                Markup::Markdown,
            )
        }
        None => Markup::Markdown,
    }
}

// Whether a client asks before it changes a name, where it says so.
fn prepared_of(params: &Value<'_>) -> Option<bool>
    ensures { result ≡ prepared_in (value_view params.now) }
{
    let capabilities = params.get("capabilities")?;
    let renaming = capabilities.get("textDocument")?.get("rename")?;
    renaming.get("prepareSupport")?.as_bool()
}

/// Whether a client asks before it changes a name, whether it may be changed.
pub(crate) fn asks_before_renaming(params: &Value<'_>) -> bool
    ensures { result ≡ asks_before_renaming_in (value_view params.now) }
{
    prepared_of(params).unwrap_or(false)
}
