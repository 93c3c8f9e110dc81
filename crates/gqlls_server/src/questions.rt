// What a client may ask about a document.
ghost use Rattle.std.specs.Prelude.{IfOk};
ghost use Rattle.json.specs.Tree.{HasNumbers};
ghost use Rattle.json.specs.Value.{value_view};
ghost use Rattle.rpc_messages.specs.Messages.{IsAnswer};

use crate::completion::{call_around, push_completions};
use crate::documents::{Document, Documents, Known};
use crate::format_answers::{REQUEST_FAILED, answer_null};
use crate::parameters::{asks_for_definition, offset_of, offsets_of, span_of};
use crate::references::{Occurrence, Target, definer_of};
use crate::signature::answer_signature;
use apollo_parser::{Limits, Parser, SyntaxNode};
use editor_answers::{
    Elsewhere, Markup, Span, answer_hover, answer_symbols, answer_tokens, definition,
    definition_elsewhere, identifier_at, push_folds, push_location, push_range, push_selections,
};
use editor_diagnostics::Positions;
use json::Value;
use rpc_messages::{Piece, answer, code, refusal};
use schema_members::{Call, Schema, Uses, member_at, member_named, name_in, name_offset};
use std::alloc::{AllocError, Global};
use type_system::STANDARD;

/// What is asked.
#[derive(Clone, Copy)]
pub(crate) enum Question {
    Symbols,
    Folds,
    Selections,
    Tokens,
    Definition,
    References,
    Highlight,
    PrepareRename,
    Hover,
    Completion,
    Signature,
}

const QUESTIONS: [(&str, Question); 12] = [
    ("textDocument/documentSymbol", Question::Symbols),
    ("textDocument/foldingRange", Question::Folds),
    ("textDocument/selectionRange", Question::Selections),
    ("textDocument/semanticTokens/full", Question::Tokens),
    ("textDocument/semanticTokens/range", Question::Tokens),
    ("textDocument/definition", Question::Definition),
    ("textDocument/references", Question::References),
    ("textDocument/documentHighlight", Question::Highlight),
    ("textDocument/prepareRename", Question::PrepareRename),
    ("textDocument/hover", Question::Hover),
    ("textDocument/completion", Question::Completion),
    ("textDocument/signatureHelp", Question::Signature),
];

// The index of the document that is asked about, among those in which names are looked for.
const FIRST: usize = 0;

// For how many positions a client gets the parts of the text around them: each answer is as long as the tree is deep
// there.
const MOST_POSITIONS: usize = 100;

/// The question of a method.
pub(crate) fn question_of(method: &str) -> Option<Question> {
    for row in &QUESTIONS {
        if row.0 == method {
            return Some(row.1);
        }
    }
    None
}

// What a question is about: a document, and parameters; and the limits of each parse for its answer, the markup of
// hovers, and the tree of `STANDARD`.
#[derive(Clone, Copy)]
struct Asked<'a, 'd, 'v> {
    alloc: Global,
    standard: SyntaxNode<'a>,
    document: &'a Document,
    root: SyntaxNode<'a>,
    positions: &'a Positions<'d>,
    uri: &'a str,
    documents: Documents<'a>,
    params: &'a Value<'v>,
    limits: Limits,
    markup: Markup,
}

// What defines a name, and where: a document, with its name, or the standard.
#[derive(Clone, Copy)]
struct Definer<'a> {
    document: Option<Known<'a>>,
    span: Span,
}

// The documents in which names are looked for, the one that is asked about first; and the roots of their trees, and the
// standard's.
#[derive(Drop)]
struct Searched<'a> {
    known: Vec<Known<'a>>,
    roots: Vec<SyntaxNode<'a>>,
}

impl<'a> Asked<'a, '_, '_> {
    // The document that is asked about, by its name.
    fn first(self) -> Known<'a> {
        Known {
            uri: self.uri,
            document: self.document,
        }
    }

    // The documents in which names are looked for.
    fn searched(self) -> Result<Searched<'a>, AllocError> {
        let known = self.documents.from(self.alloc, &self.first())?;
        let mut roots = Vec::new(self.alloc);
        for one in &known {
            roots.push(one.document.root())?;
        }
        roots.push(self.standard)?;
        Ok(Searched { known, roots })
    }

    // The first document that defines the name at a byte offset, which this one doesn't define, or the standard.
    fn definer(self, searched: &Searched<'a>, offset: usize) -> Option<Definer<'a>> {
        for known in &searched.known {
            if let Some(span) = definition_elsewhere(self.root, offset, known.document.root()) {
                return Some(Definer {
                    document: Some(*known),
                    span,
                });
            }
        }
        Some(Definer {
            document: None,
            span: definition_elsewhere(self.root, offset, self.standard)?,
        })
    }

    // What defines the field, the argument or the value at a byte offset, by the types of all documents and of the
    // standard.
    fn definer_of_member(
        self,
        searched: &Searched<'a>,
        offset: usize,
    ) -> Result<Option<Definer<'a>>, AllocError> {
        let schema = Schema {
            roots: searched.roots.as_slice(),
        };
        let Some(leaf) = identifier_at(self.root, offset) else {
            return Ok(None);
        };
        let Some(member) = member_at(self.alloc, schema, leaf)? else {
            return Ok(None);
        };
        let start = name_offset(member.node);
        let end = start.saturating_add(name_in(member.node).len());
        Ok(Some(Definer {
            document: searched.known.get(member.document).copied(),
            span: Span { start, end },
        }))
    }

    // What defines the name at a byte offset, which this document doesn't define by the name alone.
    fn any_definer(self, offset: usize) -> Result<Option<Definer<'a>>, AllocError> {
        let searched = self.searched()?;
        match self.definer(&searched, offset) {
            Some(definer) => Ok(Some(definer)),
            None => self.definer_of_member(&searched, offset),
        }
    }

    // Adds the result of definition: the location of the definition of the name at a byte offset, in this document or
    // another, or null.
    fn push_definition(self, pieces: &mut Vec<Piece<'a>>, offset: usize) -> Result<(), AllocError> {
        if let Some(span) = definition(self.root, offset) {
            return push_location(pieces, self.positions, self.uri, span);
        }
        if let Some(definer) = self.any_definer(offset)?
            && let Some(known) = definer.document
        {
            let positions = known.document.positions(self.alloc)?;
            return push_location(pieces, &positions, known.uri, definer.span);
        }
        pieces.extend_from_slice(&[Piece::Null])
    }

    // Where the name at a byte offset is defined, if this document doesn't define it by the name alone.
    fn elsewhere(self, offset: usize) -> Result<Option<Elsewhere<'a>>, AllocError> {
        if definition(self.root, offset).is_some() {
            return Ok(None);
        }
        let Some(definer) = self.any_definer(offset)? else {
            return Ok(None);
        };
        let (source, root) = match definer.document {
            Some(known) => (known.document.content().text(), known.document.root()),
            None => (STANDARD, self.standard),
        };
        Ok(Some(Elsewhere {
            source,
            root,
            offset: definer.span.start,
        }))
    }

    // What the name at a byte offset means: a member by the types in these trees, or what its text says.
    fn target_at<'s>(
        self,
        searched: &'s Searched<'a>,
        offset: usize,
    ) -> Result<Target<'s, 'a>, AllocError> {
        let schema = Schema {
            roots: searched.roots.as_slice(),
        };
        if let Some(leaf) = identifier_at(self.root, offset)
            && let Some(member) = member_named(self.alloc, schema, FIRST, leaf)?
        {
            return Ok(Target::Member(Uses::new(self.alloc, schema, member)?));
        }
        let asked = self.first();
        let definer = definer_of(&asked, offset, searched.known.as_slice());
        Ok(Target::Name(Occurrence {
            asked,
            offset,
            definer,
        }))
    }

    // Adds the result of references.
    fn push_references(self, pieces: &mut Vec<Piece<'a>>, offset: usize) -> Result<(), AllocError> {
        let searched = self.searched()?;
        let target = self.target_at(&searched, offset)?;
        let with_definition = asks_for_definition(self.params);
        target.push_references(
            self.alloc,
            pieces,
            searched.known.as_slice(),
            with_definition,
        )
    }

    // Adds the result of documentHighlight.
    fn push_highlights(self, pieces: &mut Vec<Piece<'a>>, offset: usize) -> Result<(), AllocError> {
        let searched = self.searched()?;
        let target = self.target_at(&searched, offset)?;
        target.push_highlights(self.alloc, pieces, FIRST, &self.first(), self.positions)
    }

    // The answer that lacks a parameter.
    fn refused(self, id: &Value<'_>) -> Result<Vec<u8>, AllocError>
        requires { HasNumbers (value_view id.now) }
        ensures { IfOk result (λ body. IsAnswer (value_view id.now) body.items) }
    {
        refusal(self.alloc, id, code::INVALID_PARAMS, "no such place")
    }

    fn folds(self, id: &Value<'_>) -> Result<Vec<u8>, AllocError>
        requires { HasNumbers (value_view id.now) }
        ensures { IfOk result (λ body. IsAnswer (value_view id.now) body.items) }
    {
        let mut pieces = Vec::new(self.alloc);
        push_folds(&mut pieces, self.root, self.positions)?;
        answer(self.alloc, id, pieces.as_slice())
    }

    fn selections(self, id: &Value<'_>) -> Result<Vec<u8>, AllocError>
        requires { HasNumbers (value_view id.now) }
        ensures { IfOk result (λ body. IsAnswer (value_view id.now) body.items) }
    {
        let Some(offsets) = offsets_of(self.alloc, self.positions, self.params)? else {
            return self.refused(id);
        };
        if offsets.len() > MOST_POSITIONS {
            return refusal(self.alloc, id, code::INVALID_PARAMS, "too many positions");
        }
        let mut pieces = Vec::new(self.alloc);
        push_selections(
            self.alloc,
            &mut pieces,
            self.root,
            self.positions,
            offsets.as_slice(),
        )?;
        answer(self.alloc, id, pieces.as_slice())
    }

    fn tokens(self, id: &Value<'_>) -> Result<Vec<u8>, AllocError>
        requires { HasNumbers (value_view id.now) }
        ensures { IfOk result (λ body. IsAnswer (value_view id.now) body.items) }
    {
        match span_of(self.positions, self.params) {
            Some(within) => answer_tokens(self.alloc, id, self.root, self.positions, within),
            None => self.refused(id),
        }
    }

    fn definition(self, id: &Value<'_>) -> Result<Vec<u8>, AllocError>
        requires { HasNumbers (value_view id.now) }
        ensures { IfOk result (λ body. IsAnswer (value_view id.now) body.items) }
    {
        let Some(offset) = offset_of(self.positions, self.params) else {
            return self.refused(id);
        };
        let mut pieces = Vec::new(self.alloc);
        self.push_definition(&mut pieces, offset)?;
        answer(self.alloc, id, pieces.as_slice())
    }

    fn references(self, id: &Value<'_>) -> Result<Vec<u8>, AllocError>
        requires { HasNumbers (value_view id.now) }
        ensures { IfOk result (λ body. IsAnswer (value_view id.now) body.items) }
    {
        let Some(offset) = offset_of(self.positions, self.params) else {
            return self.refused(id);
        };
        let mut pieces = Vec::new(self.alloc);
        self.push_references(&mut pieces, offset)?;
        answer(self.alloc, id, pieces.as_slice())
    }

    fn highlights(self, id: &Value<'_>) -> Result<Vec<u8>, AllocError>
        requires { HasNumbers (value_view id.now) }
        ensures { IfOk result (λ body. IsAnswer (value_view id.now) body.items) }
    {
        let Some(offset) = offset_of(self.positions, self.params) else {
            return self.refused(id);
        };
        let mut pieces = Vec::new(self.alloc);
        self.push_highlights(&mut pieces, offset)?;
        answer(self.alloc, id, pieces.as_slice())
    }

    // The answer to prepareRename: the name at the place, if it may have another.
    fn prepare_rename(self, id: &Value<'_>) -> Result<Vec<u8>, AllocError>
        requires { HasNumbers (value_view id.now) }
        ensures { IfOk result (λ body. IsAnswer (value_view id.now) body.items) }
    {
        let Some(offset) = offset_of(self.positions, self.params) else {
            return self.refused(id);
        };
        let Some(leaf) = identifier_at(self.root, offset) else {
            return answer_null(self.alloc, id);
        };
        let searched = self.searched()?;
        let target = self.target_at(&searched, offset)?;
        if let Some(reason) = target.objection(searched.known.len()) {
            return refusal(self.alloc, id, REQUEST_FAILED, reason);
        }
        let span = editor_answers::span_of(leaf.text_range());
        let mut pieces = Vec::new(self.alloc);
        pieces.extend_from_slice(&[Piece::Object])?;
        push_range(&mut pieces, self.positions, "range", span)?;
        pieces.extend_from_slice(&[
            Piece::Key("placeholder"),
            Piece::Text(leaf.text()),
            Piece::EndObject,
        ])?;
        answer(self.alloc, id, pieces.as_slice())
    }

    fn hover(self, id: &Value<'_>) -> Result<Vec<u8>, AllocError>
        requires { HasNumbers (value_view id.now) }
        ensures { IfOk result (λ body. IsAnswer (value_view id.now) body.items) }
    {
        let Some(offset) = offset_of(self.positions, self.params) else {
            return self.refused(id);
        };
        let elsewhere = self.elsewhere(offset)?;
        answer_hover(
            self.alloc,
            id,
            self.root,
            self.positions,
            offset,
            elsewhere,
            self.markup,
        )
    }

    fn completion(self, id: &Value<'_>) -> Result<Vec<u8>, AllocError>
        requires { HasNumbers (value_view id.now) }
        ensures { IfOk result (λ body. IsAnswer (value_view id.now) body.items) }
    {
        let Some(offset) = offset_of(self.positions, self.params) else {
            return self.refused(id);
        };
        if !self.document.is_at(self.alloc, offset)? {
            return answer_null(self.alloc, id);
        }
        let searched = self.searched()?;
        let mut pieces = Vec::new(self.alloc);
        push_completions(
            self.alloc,
            &mut pieces,
            self.root,
            searched.roots.as_slice(),
            self.document.source(),
            self.positions,
            offset,
            self.limits,
        )?;
        answer(self.alloc, id, pieces.as_slice())
    }

    // The field or the directive whose arguments a byte offset is in.
    fn call(self, offset: usize) -> Result<Option<Call<'a>>, AllocError> {
        let searched = self.searched()?;
        let text = self.document.source();
        call_around(
            self.alloc,
            text,
            offset,
            searched.roots.as_slice(),
            self.limits,
        )
    }

    fn signature(self, id: &Value<'_>) -> Result<Vec<u8>, AllocError>
        requires { HasNumbers (value_view id.now) }
        ensures { IfOk result (λ body. IsAnswer (value_view id.now) body.items) }
    {
        let Some(offset) = offset_of(self.positions, self.params) else {
            return self.refused(id);
        };
        if !self.document.is_at(self.alloc, offset)? {
            return answer_null(self.alloc, id);
        }
        match self.call(offset)? {
            Some(call) => answer_signature(self.alloc, id, call),
            None => answer_null(self.alloc, id),
        }
    }

    // The answer to a question, whichever it is.
    fn answer_to(self, id: &Value<'_>, question: Question) -> Result<Vec<u8>, AllocError>
        requires { HasNumbers (value_view id.now) }
        ensures { IfOk result (λ body. IsAnswer (value_view id.now) body.items) }
    {
        match question {
            Question::Symbols => answer_symbols(self.alloc, id, self.root, self.positions),
            Question::Folds => self.folds(id),
            Question::Selections => self.selections(id),
            Question::Tokens => self.tokens(id),
            Question::Definition => self.definition(id),
            Question::References => self.references(id),
            Question::Highlight => self.highlights(id),
            Question::PrepareRename => self.prepare_rename(id),
            Question::Hover => self.hover(id),
            Question::Completion => self.completion(id),
            Question::Signature => self.signature(id),
        }
    }
}

/// The answer to a question about the document with a name, one of those that are open, beside others, within limits,
/// hovers in a markup.
pub(crate) fn answer_question(
    alloc: Global,
    id: &Value<'_>,
    question: Question,
    uri: &str,
    document: &Document,
    documents: Documents<'_>,
    params: &Value<'_>,
    limits: Limits,
    markup: Markup,
) -> Result<Vec<u8>, AllocError>
    requires { HasNumbers (value_view id.now) }
    ensures { IfOk result (λ body. IsAnswer (value_view id.now) body.items) }
{
    let positions = document.positions(alloc)?;
    let standard = Parser::new(STANDARD).parse(alloc)?;
    let asked = Asked {
        alloc,
        standard: standard.root(),
        document,
        root: document.root(),
        positions: &positions,
        uri,
        documents,
        params,
        limits,
        markup,
    };
    asked.answer_to(id, question)
}
