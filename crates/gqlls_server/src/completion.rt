// What may come next.
use apollo_parser::{
    DocumentRoot, Error, Limits, Parser, SyntaxKind, SyntaxNode, SyntaxToken, SyntaxTree,
};
use editor_answers::{NameKind, meaning_of, span_of, symbol_of};
use editor_diagnostics::Positions;
use editor_text::closed;
use rpc_messages::Piece;
use schema_members::{Call, Schema, call_at, directives_at, members_at, name_in};
use std::alloc::{AllocError, Global};
use std::collections::BTreeSet;
use validation_names::Site;

// A word that may come next, the protocol's number of its sort, and the type or the condition that its definition
// gives; else empty.
#[derive(Clone, Copy)]
struct Candidate<'t> {
    label: &'t str,
    number: usize,
    detail: &'t str,
}

// The protocol's number of a keyword.
const KEYWORD: usize = 14;

// How long the text of the definition that an offset is in may be for words to be tried there.
const LONGEST_FRONT: usize = 32768;

// Whether a byte of a text is one of a word.
fn is_in_word(source: &str, offset: usize) -> bool {
    match source.as_bytes().get(offset) {
        Some(byte) => byte.is_ascii_alphanumeric() || *byte == b'_',
        None => false,
    }
}

// Where the word begins that ends at an offset of a text.
fn word_start(source: &str, offset: usize) -> usize {
    let mut start = offset;
    while start > 0 && is_in_word(source, start - 1) {
        start -= 1;
    }
    start
}

// The text in front of an offset, without the word that ends there.
fn front_of(source: &str, offset: usize) -> &str {
    source.get(..word_start(source, offset)).unwrap_or("")
}

// The end of a text from where its last definition begins.
fn last_definition<'t>(source: &'t str, root: SyntaxNode<'_>) -> Option<&'t str> {
    let mut start = 0;
    for child in root.children() {
        start = span_of(child.text_range()).start;
    }
    let last = source.get(start..)?;
    if last.len() > LONGEST_FRONT {
        return None;
    }
    Some(last)
}

// What the parser reports of a selection set without a selection.
const NO_SELECTION: &str = "expected at least one Selection in Selection Set";

// Whether the parser goes on behind an error as without it: the text ends, or a selection set is empty.
fn is_passed(error: &Error) -> bool {
    error.is_eof() || (error.message() == NO_SELECTION && error.data() == "}")
}

// The leaf that begins at an offset of a tree, where the parser goes on behind all errors.
fn leaf_from<'t>(tree: &'t SyntaxTree<DocumentRoot>, offset: usize) -> Option<SyntaxToken<'t>> {
    if !tree.errors().as_slice().iter().all(is_passed) {
        return None;
    }
    let leaf = tree.root().token_at_offset(offset).right_biased()?;
    if leaf.text_range().start() == offset {
        Some(leaf)
    } else {
        None
    }
}

// A text that begins with a keyword, and shows how it goes on where the parser looks further.
fn continued(kind: SyntaxKind, word: &'static str) -> &'static str {
    if kind.is(SyntaxKind::extend_KW) {
        "extend type"
    } else if kind.is(SyntaxKind::repeatable_KW) {
        "repeatable on"
    } else {
        word
    }
}

// What the grammar takes a word for.
#[derive(Clone, Copy)]
struct Taken {
    is_keyword: bool,
    // what it is the name of, where that is defined elsewhere
    names: Option<NameKind>,
}

// What the leaf that begins at an offset of a tree is taken for.
fn taken_at(tree: &SyntaxTree<DocumentRoot>, offset: usize) -> Option<Taken> {
    let leaf = leaf_from(tree, offset)?;
    let names = match meaning_of(leaf) {
        Some(meaning) if !meaning.defines => Some(meaning.kind),
        _ => None,
    };
    Some(Taken {
        is_keyword: leaf.kind().keyword().is_some(),
        names,
    })
}

// A text that words are tried after, within limits.
#[derive(Clone, Copy)]
struct Front<'t> {
    alloc: Global,
    text: &'t str,
    limits: Limits,
}

impl Front<'_> {
    // What the grammar takes the first of some words for, after the text; `None` where it fits nowhere.
    fn taken(self, words: &str) -> Result<Option<Taken>, AllocError> {
        let front = self.text;
        let text = format!(in self.alloc; "{front}{words}")?;
        let tree = Parser::within(text.as_str(), self.limits).parse(self.alloc)?;
        Ok(taken_at(&tree, front.len()))
    }

    // The field or the directive whose arguments may come after the text, by the types of some documents.
    fn call<'t>(self, roots: &[SyntaxNode<'t>]) -> Result<Option<Call<'t>>, AllocError> {
        let front = self.text;
        let text = format!(in self.alloc; "{front}x")?;
        let tree = Parser::within(text.as_str(), self.limits).parse(self.alloc)?;
        match leaf_from(&tree, front.len()) {
            Some(leaf) => call_at(self.alloc, Schema { roots }, leaf),
            None => Ok(None),
        }
    }

    // The fields, arguments and values that may come after the text, by the types of some documents.
    fn members<'t>(self, roots: &[SyntaxNode<'t>]) -> Result<Vec<Site<'t>>, AllocError> {
        let front = self.text;
        let text = format!(in self.alloc; "{front}x")?;
        let tree = Parser::within(text.as_str(), self.limits).parse(self.alloc)?;
        match leaf_from(&tree, front.len()) {
            Some(leaf) => members_at(self.alloc, Schema { roots }, leaf),
            None => Ok(Vec::new(self.alloc)),
        }
    }

    // The directives that may come after the text, by the definitions of some documents.
    fn directives<'t>(self, roots: &[SyntaxNode<'t>]) -> Result<Vec<Site<'t>>, AllocError> {
        let front = self.text;
        let text = format!(in self.alloc; "{front}x")?;
        let tree = Parser::within(text.as_str(), self.limits).parse(self.alloc)?;
        match leaf_from(&tree, front.len()) {
            Some(leaf) => directives_at(self.alloc, Schema { roots }, leaf),
            None => Ok(Vec::new(self.alloc)),
        }
    }

    // Whether the grammar takes a variable as a value after the text.
    fn takes_variable(self) -> Result<bool, AllocError> {
        let front = self.text;
        let text = format!(in self.alloc; "{front}$x")?;
        let tree = Parser::within(text.as_str(), self.limits).parse(self.alloc)?;
        match taken_at(&tree, front.len().saturating_add(1)) {
            Some(taken) => Ok(taken.names == Some(NameKind::Variable)),
            None => Ok(false),
        }
    }

    // Whether the grammar takes a keyword after the text, which the words begin with.
    fn takes_keyword(self, words: &str) -> Result<bool, AllocError> {
        match self.taken(words)? {
            Some(taken) => Ok(taken.is_keyword),
            None => Ok(false),
        }
    }

    // What a name after the text would mean.
    fn name(self) -> Result<Option<NameKind>, AllocError> {
        match self.taken("x")? {
            Some(taken) => Ok(taken.names),
            None => Ok(None),
        }
    }
}

// Adds the keywords that the grammar takes after a text.
fn push_keywords(front: Front<'_>, found: &mut Vec<Candidate<'_>>) -> Result<(), AllocError> {
    for number in 0..SyntaxKind::COUNT {
        if let Some(kind) = SyntaxKind::from_u16(number)
            && let Some(label) = kind.keyword()
            && front.takes_keyword(continued(kind, label))?
        {
            found.push(Candidate {
                label,
                number: KEYWORD,
                detail: "",
            })?;
        }
    }
    Ok(())
}

// The protocol's number of the sort of thing that a name means.
fn name_number(kind: NameKind) -> usize {
    match kind {
        NameKind::Operation | NameKind::Fragment => 3,
        NameKind::Variable => 6,
        NameKind::Type => 7,
        NameKind::Directive => 24,
    }
}

// The type or the condition in the definition whose name a leaf is.
fn detail_at<'t>(leaf: SyntaxToken<'t>) -> &'t str {
    if let Some(parent) = leaf.parent() {
        for node in parent.ancestors() {
            if let Some(symbol) = symbol_of(node) {
                return symbol.detail;
            }
        }
    }
    ""
}

// The text of a variable that a leaf is the name of.
fn variable_text<'t>(leaf: SyntaxToken<'t>) -> Option<&'t str> {
    Some(leaf.parent()?.parent()?.text())
}

// The node whose variables may be used behind an offset: the operation there, or else the whole document, since any
// operation may spread a fragment.
fn scope_at<'t>(root: SyntaxNode<'t>, offset: usize) -> SyntaxNode<'t> {
    let definition = root
        .children()
        .take_while(|child| child.text_range().start() < offset)
        .last();
    match definition {
        Some(node) if node.kind().is(SyntaxKind::OPERATION_DEFINITION) => node,
        Some(_) | None => root,
    }
}

// Adds the variables that a part of a document defines and that are not known yet, as values.
fn push_variables<'t>(
    alloc: Global,
    scope: SyntaxNode<'t>,
    found: &mut Vec<Candidate<'t>>,
) -> Result<(), AllocError> {
    let mut known = BTreeSet::new(alloc);
    for element in scope.descendants_with_tokens() {
        if let Some(leaf) = element.into_token()
            && let Some(meaning) = meaning_of(leaf)
            && meaning.defines
            && meaning.kind == NameKind::Variable
            && let Some(label) = variable_text(leaf)
            && known.insert(leaf.text())?
        {
            found.push(Candidate {
                label,
                number: name_number(NameKind::Variable),
                detail: detail_at(leaf),
            })?;
        }
    }
    Ok(())
}

// Adds the names of a kind that a document or its part defines and that are not known yet, but for those of
// introspection.
fn push_names<'t>(
    scope: SyntaxNode<'t>,
    kind: NameKind,
    known: &mut BTreeSet<&'t str>,
    found: &mut Vec<Candidate<'t>>,
) -> Result<(), AllocError> {
    for element in scope.descendants_with_tokens() {
        if let Some(leaf) = element.into_token()
            && let Some(meaning) = meaning_of(leaf)
            && meaning.defines
            && meaning.kind == kind
            && !leaf.text().starts_with("__")
            && known.insert(leaf.text())?
        {
            found.push(Candidate {
                label: leaf.text(),
                number: name_number(kind),
                detail: detail_at(leaf),
            })?;
        }
    }
    Ok(())
}

// Adds the names of a kind that a document or its part defines, and then those that others do, each once.
fn push_all_names<'t>(
    alloc: Global,
    scope: SyntaxNode<'t>,
    others: &[SyntaxNode<'t>],
    kind: NameKind,
    found: &mut Vec<Candidate<'t>>,
) -> Result<(), AllocError> {
    let mut known = BTreeSet::new(alloc);
    push_names(scope, kind, &mut known, found)?;
    for root in others {
        push_names(*root, kind, &mut known, found)?;
    }
    Ok(())
}

// The protocol's number of the sort of thing that a member is.
fn member_number(member: Site<'_>) -> usize {
    let kind = member.node.kind();
    if kind.is(SyntaxKind::DIRECTIVE_DEFINITION) {
        name_number(NameKind::Directive)
    } else if kind.is(SyntaxKind::FIELD_DEFINITION) {
        5
    } else if kind.is(SyntaxKind::ENUM_VALUE_DEFINITION) {
        20
    } else {
        10
    }
}

// The type of a member; empty where it has none.
fn member_detail<'t>(member: Site<'t>) -> &'t str {
    match symbol_of(member.node) {
        Some(symbol) => symbol.detail,
        None => "",
    }
}

// Adds the names of members, each once.
fn push_members<'t>(
    alloc: Global,
    members: &[Site<'t>],
    found: &mut Vec<Candidate<'t>>,
) -> Result<(), AllocError> {
    let mut known = BTreeSet::new(alloc);
    for member in members {
        if known.insert(name_in(member.node))? {
            found.push(Candidate {
                label: name_in(member.node),
                number: member_number(*member),
                detail: member_detail(*member),
            })?;
        }
    }
    Ok(())
}

// The end of a text from where its last definition begins, as its parse has it.
fn last_front(
    alloc: Global,
    before: &str,
    limits: Limits,
) -> Result<Option<Front<'_>>, AllocError> {
    let tree = Parser::within(before, limits).parse(alloc)?;
    match last_definition(before, tree.root()) {
        Some(text) => Ok(Some(Front {
            alloc,
            text,
            limits,
        })),
        None => Ok(None),
    }
}

// The words that may come after a front of a text: the keywords that the grammar takes, and where a name is expected
// those that the documents define, the text's first, and that are built in. There are none after an error of the same
// definition, but for an empty selection set. The scope is the node whose variables there may be.
fn completions<'t>(
    alloc: Global,
    before: &str,
    root: SyntaxNode<'t>,
    scope: SyntaxNode<'t>,
    roots: &[SyntaxNode<'t>],
    limits: Limits,
) -> Result<Vec<Candidate<'t>>, AllocError> {
    let mut found = Vec::new(alloc);
    let Some(front) = last_front(alloc, before, limits)? else {
        return Ok(found);
    };
    let members = front.members(roots)?;
    push_members(alloc, members.as_slice(), &mut found)?;
    if front.takes_variable()? {
        push_variables(alloc, scope, &mut found)?;
    }
    push_keywords(front, &mut found)?;
    match front.name()? {
        Some(NameKind::Directive) => {
            let directives = front.directives(roots)?;
            push_members(alloc, directives.as_slice(), &mut found)?;
        }
        Some(NameKind::Variable) => {
            push_all_names(alloc, scope, &[], NameKind::Variable, &mut found)?;
        }
        Some(kind) => push_all_names(alloc, root, roots, kind, &mut found)?,
        None => {}
    }
    Ok(found)
}

// Adds what is said beside a word, and that names of the standard come last.
fn push_words<'p>(
    pieces: &mut Vec<Piece<'p>>,
    candidate: &Candidate<'p>,
) -> Result<(), AllocError> {
    if !candidate.detail.is_empty() {
        pieces.extend_from_slice(&[Piece::Key("detail"), Piece::Text(candidate.detail)])?;
    }
    if candidate.label.starts_with("__") {
        pieces.extend_from_slice(&[Piece::Key("sortText"), Piece::Text("~")])?;
    }
    Ok(())
}

// Adds a word, with the range that it replaces.
fn push_candidate<'p>(
    pieces: &mut Vec<Piece<'p>>,
    range: &[Piece<'p>],
    candidate: &Candidate<'p>,
) -> Result<(), AllocError> {
    pieces.extend_from_slice(&[
        Piece::Object,
        Piece::Key("label"),
        Piece::Text(candidate.label),
        Piece::Key("kind"),
        Piece::Count(candidate.number),
    ])?;
    push_words(pieces, candidate)?;
    pieces.extend_from_slice(&[Piece::Key("textEdit"), Piece::Object, Piece::Key("range")])?;
    pieces.extend_from_slice(range)?;
    pieces.extend_from_slice(&[Piece::Key("newText"), Piece::Text(candidate.label)])?;
    pieces.extend_from_slice(&[Piece::EndObject, Piece::EndObject])
}

// Adds a list of words, each with the range that it replaces.
fn push_candidates<'p>(
    pieces: &mut Vec<Piece<'p>>,
    range: &[Piece<'p>],
    found: &[Candidate<'p>],
) -> Result<(), AllocError> {
    pieces.extend_from_slice(&[Piece::Array])?;
    for candidate in found {
        push_candidate(pieces, range, candidate)?;
    }
    pieces.extend_from_slice(&[Piece::EndArray])
}

// A text where strings are closed that its lines but the last leave open; `None` where there are none.
fn closed_before(alloc: Global, text: &str) -> Result<Option<String>, AllocError> {
    let Some(end) = text.rfind('\n') else {
        return Ok(None);
    };
    let (front, last) = text.split_at(end);
    let Some(mut front) = closed(alloc, front)? else {
        return Ok(None);
    };
    front.push_str(last)?;
    Ok(Some(front))
}

// What is in front of a place: the text without the word there, and the same with strings closed that its lines leave
// open, if there are any.
#[derive(Drop)]
struct Before<'t> {
    text: &'t str,
    closed: Option<String>,
}

impl<'t> Before<'t> {
    // What is in front of a byte offset.
    fn new(alloc: Global, source: &'t str, offset: usize) -> Result<Before<'t>, AllocError> {
        let text = front_of(source, offset);
        let closed = closed_before(alloc, text)?;
        Ok(Before { text, closed })
    }

    // The text that is parsed.
    fn parsed(&self) -> &str {
        match &self.closed {
            Some(text) => text.as_str(),
            None => self.text,
        }
    }
}

/// The field or the directive whose arguments a byte offset of a text is in, by the types of some documents. It fails
/// only where memory is refused.
pub(crate) fn call_around<'t>(
    alloc: Global,
    source: &str,
    offset: usize,
    roots: &[SyntaxNode<'t>],
    limits: Limits,
) -> Result<Option<Call<'t>>, AllocError> {
    let before = Before::new(alloc, source, offset)?;
    match last_front(alloc, before.parsed(), limits)? {
        Some(front) => front.call(roots),
        None => Ok(None),
    }
}

/// Adds the result of completion at a byte offset: the words that may be there instead of the one that ends there. The
/// root is the document's, and the roots are those of all, whose names may be there too.
pub(crate) fn push_completions<'p>(
    alloc: Global,
    pieces: &mut Vec<Piece<'p>>,
    root: SyntaxNode<'p>,
    roots: &[SyntaxNode<'p>],
    source: &str,
    positions: &Positions<'_>,
    offset: usize,
    limits: Limits,
) -> Result<(), AllocError> {
    let before = Before::new(alloc, source, offset)?;
    let scope = scope_at(root, before.text.len());
    let found = completions(alloc, before.parsed(), root, scope, roots, limits)?;
    let range = positions.range(before.text.len(), offset);
    push_candidates(pieces, &range, found.as_slice())
}
