// The open documents.
ghost use Rattle.std.specs.Prelude.{◌≡◌, ◌||◌, ◌++◌, ◌∷◌, [], ℕ, List, IfOk, IfSome, None, OnOk, Some, length, map};
ghost use Rattle.std.specs.Prelude.{option_map, string_bytes, true, unwrap_or};
ghost use Rattle.std.specs.BTreeMap.{IsOrdered, get_by_text, values};
ghost use Rattle.std.specs.BTreeSet.{contains_text};
ghost use Rattle.std.specs.String.{string_cmp};
ghost use Rattle.apollo_tree.specs.References.{node_place};
ghost use Rattle.editor_diagnostics.specs.Diagnostics.{as_diagnosis};
ghost use Rattle.editor_validation.specs.Fragments.{Fragments, as_fragments};
ghost use Rattle.formatter.specs.Comments.{HasNoDefinitions};
ghost use Rattle.rpc_messages.specs.Messages.{IsNotification};
ghost use Rattle.gqlls_server.specs.Parameters.{client_edit};
ghost use Rattle.gqlls_server.specs.Dialogue.{IsChanged, Updates};
ghost use Rattle.gqlls_server.specs.Files.{IsSource};
ghost use Rattle.gqlls_server.specs.Parsing.{IsMended, IsParse, IsParsed};
ghost use Rattle.gqlls_server.specs.Renaming.{AreKnown, AreParsed, KnownFile};
ghost use Rattle.gqlls_server.specs.State.{AreBeside, entries_beside, entries_that, entry_of, file_of, files, is_of};
ghost use Rattle.gqlls_server.specs.State.{is_other, is_own, is_stored, known_of, names_in, names_of};
ghost use Rattle.gqlls_server.specs.Diagnostics.{AreDiagnosticsOf, IsDiagnosticsNotification};

use apollo_parser::{DocumentRoot, Limits, Parser, SyntaxNode, SyntaxTree};
use editor_diagnostics::{Diagnostic, Positions, publication};
use editor_text::{Change, OpenDocument, closed};
use editor_validation::{FragmentNames, diagnostics, fragment_names};
use embedded_documents::{HostLanguage, is_in_document, masked};
use file_uris::normalized;
use formatter::has_no_definitions;
use line_index::PositionEncoding;
use std::alloc::{AllocError, Global};
use std::collections::btree_map::Iter;
use std::collections::{BTreeMap, BTreeSet};
use std::iter::Chain;
use std::marker::Model;

// The text of a file in another language with only what is in templates; none for one in GraphQL.
fn masked_text(
    alloc: Global,
    content: &OpenDocument,
    host: Option<HostLanguage>,
) -> Result<Option<String>, AllocError>
    ensures { IfOk result (λ text. (limits : Limits)
        → IsSource (record { content = content.now; host = host; limits = limits })
        (unwrap_or (option_map string_bytes text) content.now.text)) }
{
    match host {
        Some(language) => Ok(Some(masked(alloc, content.text(), language)?)),
        None => Ok(None),
    }
}

// The text that is parsed: the masked one, if there is one.
fn source_in<'t>(content: &'t OpenDocument, masked: &'t Option<String>) -> &'t str
    ensures { result.now ≡ unwrap_or (option_map string_bytes masked.now) content.now.text }
{
    match masked {
        Some(text) => text.as_str(),
        None => content.text(),
    }
}

// The tree of a text, within limits.
fn parsed(alloc: Global, text: &str, limits: Limits) -> Result<SyntaxTree<DocumentRoot>, AllocError>
    ensures { IfOk result (IsParse limits text.now) }
{
    let tree = Parser::within(text, limits).parse(alloc)?;
    Ok(tree)
}

// The tree of a text where strings that their lines leave open are closed, if there are any: each is an error of the
// text's own tree.
fn mended(
    alloc: Global,
    text: &str,
    tree: &SyntaxTree<DocumentRoot>,
    limits: Limits,
) -> Result<Option<SyntaxTree<DocumentRoot>>, AllocError>
    ensures { IfOk result (λ mended. IfSome mended (IsMended limits text.now tree.now)) }
{
    if tree.errors().as_slice().is_empty() {
        return Ok(None);
    }
    let Some(whole) = closed(alloc, text)? else {
        return Ok(None);
    };
    let shown = parsed(alloc, whole.as_str(), limits)?;
    Ok(Some(shown))
}

/// A document that a client has open, or the documents in templates of a file, with its tree. Contracts see the file,
/// the text of it that is parsed, and the parses.
#[derive(Drop)]
pub(crate) struct Document {
    content: OpenDocument,
    // the language of the file, if it isn't GraphQL
    host: Option<HostLanguage>,
    // the text that is parsed, where it is another; its byte offsets are those of the text
    masked: Option<String>,
    limits: Limits,
    tree: SyntaxTree<DocumentRoot>,
    // the one that answers are about, where it is another
    mended: Option<SyntaxTree<DocumentRoot>>,
    // the fragments of the text's own tree
    fragments: FragmentNames,
}

impl Model for Document {
    ghost use Rattle.std.specs.Coded.{codes};
    ghost use Rattle.apollo_tree.specs.Codes.{forest_code};
    ghost use Rattle.gqlls_server.specs.Parsing.{ParsedFile};

    ghost Value = { ParsedFile };

    ghost coded = { Prim.hlevel (codes, forest_code) };

    ghost use Rattle.gqlls_server.specs.Kept.{IsKept, parsed_file};

    ghost view = { parsed_file };

    ghost invariant = { IsKept };
}

impl Document {
    // A document with its tree.
    fn of(
        alloc: Global,
        content: OpenDocument,
        host: Option<HostLanguage>,
        limits: Limits,
    ) -> Result<Document, AllocError>
        ensures file { IfOk result
            (λ document. document.file ≡ record { content = content; host = host; limits = limits }) }
        ensures parsed { IfOk result IsParsed }
    {
        let masked = masked_text(alloc, &content, host)?;
        let source = source_in(&content, &masked);
        let tree = parsed(alloc, source, limits)?;
        let mended = mended(alloc, source, &tree, limits)?;
        let fragments = fragment_names(alloc, &tree.root())?;
        Ok(Document {
            content,
            host,
            masked,
            limits,
            tree,
            mended,
            fragments,
        })
    }

    /// A document with its tree, which is parsed within limits.
    pub(crate) fn new(
        alloc: Global,
        encoding: PositionEncoding,
        text: &str,
        host: Option<HostLanguage>,
        limits: Limits,
    ) -> Result<Document, AllocError>
        ensures file { IfOk result
            (λ document. document.file
            ≡ record { content = record { encoding = encoding; text = text.now }; host = host; limits = limits }) }
        ensures parsed { IfOk result IsParsed }
    {
        let content = OpenDocument::new(alloc, encoding, text)?;
        let document = Document::of(alloc, content, host, limits)?;
        Ok(document)
    }

    /// The document after changes of its text, parsed within the same limits.
    pub(crate) fn changed(
        self,
        alloc: Global,
        changes: &[Change<'_>],
    ) -> Result<Document, AllocError>
        ensures { IfOk result (λ document. IsChanged (map client_edit changes.now) self.file document.file) }
    {
        let mut content = self.content;
        content.change_all(alloc, changes)?;
        let document = Document::of(alloc, content, self.host, self.limits)?;
        Ok(document)
    }

    /// The text, and the encoding in which positions in it count columns.
    pub(crate) fn content(&self) -> &OpenDocument
        ensures { result.now ≡ self.now.file.content }
    {
        &self.content
    }

    /// The language of the file, if it isn't GraphQL.
    pub(crate) fn host(&self) -> Option<HostLanguage>
        ensures { result ≡ self.now.file.host }
    {
        self.host
    }

    /// The names of the fragments of the text's own tree.
    pub(crate) fn fragments(&self) -> &FragmentNames
        ensures { as_fragments result.now ≡ self.now.fragments }
    {
        &self.fragments
    }

    /// How many errors the text's own parse has.
    pub(crate) fn error_count(&self) -> usize
        ensures { result ≡ length self.now.parsed.errors }
    {
        self.tree.errors().as_slice().len()
    }

    /// The text that is parsed.
    pub(crate) fn source(&self) -> &str
        ensures { result.now ≡ self.now.source }
    {
        source_in(&self.content, &self.masked)
    }

    // The diagnostics on it, by the fragments of the other documents: none where it has no definitions. Where the
    // client takes related information, the first one may name a brace.
    fn diagnostics<'a>(
        &'a self,
        alloc: Global,
        others: &[&'a FragmentNames],
        takes_related: bool,
    ) -> Result<Vec<Diagnostic>, AllocError>
        ensures said { IfOk result
            (λ found. (¬ HasNoDefinitions self.now.source)
            → AreDiagnosticsOf takes_related (map (λ f. as_fragments f.now) others.now) self.now.parsed
            (map as_diagnosis found.items)) }
        ensures silent { IfOk result (λ found. HasNoDefinitions self.now.source → map as_diagnosis found.items ≡ []) }
        ensures parsed { IfOk result (λ found. IsParsed self.now) }
    {
        let root = self.tree.root();
        if has_no_definitions(self.source()) {
            return Ok(Vec::new(alloc));
        }
        let found = diagnostics(
            alloc,
            &root,
            self.tree.errors().as_slice(),
            others,
            takes_related,
        )?;
        Ok(found)
    }

    /// The notification of the diagnostics on it, by its name, the version that the client gave it, the fragments of
    /// the other documents, and whether the client takes related information.
    pub(crate) fn notification<'a>(
        &'a self,
        alloc: Global,
        uri: &str,
        version: Option<i64>,
        others: &[&'a FragmentNames],
        takes_related: bool,
    ) -> Result<Vec<u8>, AllocError>
        ensures notifies { IfOk result (λ body. IsNotification body.items) }
        ensures published { IfOk result
            (λ body. IsDiagnosticsNotification takes_related uri.now version self.now.file self.now.fragments
            (map (λ f. as_fragments f.now) others.now) body.items) }
    {
        let positions = self.positions(alloc)?;
        let diagnostics = self.diagnostics(alloc, others, takes_related)?;
        let body = publication(alloc, uri, version, &positions, diagnostics.as_slice())?;
        Ok(body)
    }

    /// Whether a byte offset is in GraphQL: in a file in another language only templates are.
    pub(crate) fn is_at(&self, alloc: Global, offset: usize) -> Result<bool, AllocError> {
        match self.host {
            Some(language) => is_in_document(alloc, self.content.text(), language, offset),
            None => Ok(true),
        }
    }

    /// The root of the tree that answers are about. Its byte offsets are those of the text, and its strings need not
    /// be.
    pub(crate) fn root(&self) -> SyntaxNode<'_>
        ensures place { node_place result ≡ record { whole = self.now.shown.tree; index = 0 } }
        ensures parsed { IsParsed self.now }
    {
        match &self.mended {
            Some(tree) => tree.root(),
            None => self.tree.root(),
        }
    }

    /// The positions in its text.
    pub(crate) fn positions(&self, alloc: Global) -> Result<Positions<'_>, AllocError>
        ensures text { IfOk result (λ positions. positions.text.now ≡ self.now.file.content.text) }
        ensures encoding { IfOk result (λ positions. positions.encoding ≡ self.now.file.content.encoding) }
    {
        Positions::new(alloc, self.content.text(), self.content.encoding())
    }
}

/// The documents in which names are looked for: those that are open, and then the files that are not, each in the order
/// of their names.
#[derive(Clone, Copy)]
pub(crate) struct Documents<'a> {
    pub opened: &'a BTreeMap<String, Document>,
    pub files: &'a BTreeMap<String, Document>,
}

/// A document, and its name.
#[derive(Clone, Copy)]
pub(crate) struct Known<'a> {
    pub uri: &'a str,
    pub document: &'a Document,
}

impl Document {
    // The document by its name.
    fn known_as<'a>(&'a self, uri: &'a str) -> Known<'a>
        ensures known { known_of result ≡ (uri.now, self.now) }
        ensures parsed { IsParsed self.now }
    {
        // read, so that what holds of each document is known of this one
        let _ = &self.tree;
        Known {
            uri,
            document: self,
        }
    }
}

// Adds the open documents but one.
fn push_opened<'a>(
    found: &mut Vec<Known<'a>>,
    opened: &'a BTreeMap<String, Document>,
    uri: &str,
) -> Result<(), AllocError>
    ensures all { OnOk result
        (map known_of found.new.items ≡ map known_of found.old.items
        ++ map entry_of (entries_that (is_other uri.now) opened.now)) }
    ensures parsed { OnOk result (AreParsed (map known_of found.old.items) → AreParsed (map known_of found.new.items)) }
    ensures ordered { OnOk result (IsOrdered string_cmp opened.now) }
{
    for (name, document) in opened.iter() {
        if name.as_str() != uri {
            found.push(document.known_as(name.as_str()))?;
        }
    }
    Ok(())
}

// Adds the files that are no open document's own, by the names of those that are.
fn push_stored<'a>(
    found: &mut Vec<Known<'a>>,
    files: &'a BTreeMap<String, Document>,
    own: &BTreeSet<String>,
    opened: &BTreeMap<String, Document>,
) -> Result<(), AllocError>
    ensures all { OnOk result
        (map known_of found.new.items ≡ map known_of found.old.items
        ++ map entry_of (entries_that (is_stored own.now opened.now) files.now)) }
    ensures parsed { OnOk result (AreParsed (map known_of found.old.items) → AreParsed (map known_of found.new.items)) }
    ensures ordered { OnOk result (IsOrdered string_cmp files.now) }
{
    for (name, document) in files.iter() {
        if !own.contains(name.as_str()) && !opened.contains_key(name.as_str()) {
            found.push(document.known_as(name.as_str()))?;
        }
    }
    Ok(())
}

impl<'a> Documents<'a> {
    /// Each of them, with its name.
    pub(crate) fn iter(self) -> Chain<Iter<'a, String, Document>, Iter<'a, String, Document>> {
        self.opened.iter().chain(self.files.iter())
    }

    /// An open document, and then the other open ones, and the files that are no open document's own.
    pub(crate) fn from(self, alloc: Global, first: &Known<'a>) -> Result<Vec<Known<'a>>, AllocError>
        ensures { get_by_text self.entry.opened.now first.now.uri.now ≡ Some first.now.document.now
            → IfOk result (λ known. (others : List KnownFile) × (map known_of known.items ≡ known_of first.now ∷ others)
            × AreKnown (files self.entry.opened.now) (files self.entry.files.now) (known_of first.now ∷ others)) }
    {
        let own = own_files(alloc, self.opened, first.uri)?;
        let mut known: Vec<Known<'a>> = Vec::new(alloc);
        known.push(first.document.known_as(first.uri))?;
        push_opened(&mut known, self.opened, first.uri)?;
        push_stored(&mut known, self.files, &own, self.opened)?;
        Ok(known)
    }
}

/// Opens a document, in the place of the one with its name.
pub(crate) fn insert(
    alloc: Global,
    documents: &mut BTreeMap<String, Document>,
    uri: &str,
    document: Document,
) -> Result<(), AllocError>
    ensures files { OnOk result
        (Updates uri.now (Some (file_of document)) (files documents.old) (files documents.new)) }
    ensures names { OnOk result
        (Updates uri.now (Some (names_of document)) (names_in documents.old) (names_in documents.new)) }
{
    let name = String::from_str(alloc, uri)?;
    documents.insert(name, document)?;
    Ok(())
}

// The names of the fragments of all documents.
fn all_fragments<'d>(
    alloc: Global,
    documents: &'d BTreeMap<String, Document>,
) -> Result<Vec<&'d FragmentNames>, AllocError>
    ensures all { IfOk result
        (λ found. map (λ f. as_fragments f.now) found.items ≡ map names_of (values documents.now)) }
    ensures ordered { IfOk result (λ found. IsOrdered string_cmp documents.now) }
{
    let mut found = Vec::new(alloc);
    for document in documents.values() {
        found.push(document.fragments())?;
    }
    Ok(found)
}

// Adds the URI by which the file that a document's URI names is known, if it names one.
fn add_own(alloc: Global, own: &mut BTreeSet<String>, uri: &str) -> Result<(), AllocError>
    ensures { OnOk result ((name : List ℕ)
        → contains_text own.new name ≡ (is_of name uri.now || contains_text own.old name)) }
{
    if let Some(name) = normalized(alloc, uri)? {
        own.insert(name)?;
    }
    Ok(())
}

// The URIs by which the files of this document and of the open ones are known.
fn own_files(
    alloc: Global,
    documents: &BTreeMap<String, Document>,
    uri: &str,
) -> Result<BTreeSet<String>, AllocError>
    ensures { IfOk result (λ own. (name : List ℕ) → contains_text own name ≡ is_own uri.now documents.now name) }
{
    let mut own = BTreeSet::new(alloc);
    add_own(alloc, &mut own, uri)?;
    for name in documents.keys() {
        add_own(alloc, &mut own, name.as_str())?;
    }
    Ok(own)
}

// The names of the fragments of all files but some.
fn file_fragments<'d>(
    alloc: Global,
    files: &'d BTreeMap<String, Document>,
    own: &BTreeSet<String>,
) -> Result<Vec<&'d FragmentNames>, AllocError>
    ensures all { IfOk result
        (λ found. map (λ f. as_fragments f.now) found.items
        ≡ map (λ entry. names_of entry.1) (entries_beside own.now files.now)) }
    ensures ordered { IfOk result (λ found. IsOrdered string_cmp files.now) }
{
    let mut found = Vec::new(alloc);
    for (name, document) in files.iter() {
        if !own.contains(name.as_str()) {
            found.push(document.fragments())?;
        }
    }
    Ok(found)
}

/// The notification of the diagnostics on a document beside others, by its name, the version that the client gave it,
/// and whether the client takes related information.
pub(crate) fn diagnostics_notification(
    alloc: Global,
    others: Documents<'_>,
    document: &Document,
    uri: &str,
    version: Option<i64>,
    takes_related: bool,
) -> Result<Vec<u8>, AllocError>
    ensures notifies { IfOk result (λ body. IsNotification body.items) }
    ensures published { IfOk result (λ body. (names : List Fragments)
        × AreBeside (names_in others.entry.opened.now) (names_in others.entry.files.now)
        (is_own uri.now others.entry.opened.now) names
        × IsDiagnosticsNotification takes_related uri.now version (file_of document.now) (names_of document.now)
        names body.items) }
{
    let mut names = all_fragments(alloc, others.opened)?;
    let own = own_files(alloc, others.opened, uri)?;
    let more = file_fragments(alloc, others.files, &own)?;
    names.extend_from_slice(more.as_slice())?;
    let body = document.notification(alloc, uri, version, names.as_slice(), takes_related)?;
    Ok(body)
}
