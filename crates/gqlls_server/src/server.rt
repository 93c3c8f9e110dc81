// The server: what it replies to each message.
ghost use Rattle.std.specs.Prelude.{◌≡◌, IfOk, None, codes};
ghost use Rattle.json.specs.Tree.{HasNumbers};
ghost use Rattle.json.specs.Value.{value_view};
ghost use Rattle.rpc_messages.specs.Messages.{IsAnswer};
ghost use Rattle.rpc_messages.specs.Replies.{EndsOnlyIf, Replies};
ghost use Rattle.rpc_messages.specs.declared.reply.Reply.TheVariants.{Answer};
ghost use Rattle.gqlls_server.specs.Conversation.{Begins, Changes, Closes, Formats, FormatsRange, HandlesRequest};
ghost use Rattle.gqlls_server.specs.Conversation.{HandlesNotification, Opens, Publishes, Renames, exit_status};
ghost use Rattle.gqlls_server.specs.Dialogue.{SetsFile, initial_dialogue};
ghost use Rattle.gqlls_server.specs.Layout.{IsRefusalOf};
ghost use Rattle.gqlls_server.specs.declared.server.EditRequest.TheVariants.{Formatting, RangeFormatting, Rename};
ghost use Rattle.gqlls_server.specs.State.{StepsOf, dialogue_of, file_of};
ghost use Rattle.gqlls_server.specs.Diagnostics.{KeepsFile};

use crate::capabilities::{answer_initialize, registration};
use crate::documents::{Document, Documents, diagnostics_notification, insert};
use crate::format_answers::{answer_formatting, answer_null, answer_range_formatting};
use crate::parameters::{
    changes_of, encoding_of, host_of, markup_of, may_register, query_of, takes_related, text_of,
    uri_of, version_of,
};
use crate::questions::{answer_question, question_of};
use crate::rename::answer_rename;
use crate::workspace_symbols::answer_search;
use apollo_parser::Limits;
use editor_answers::Markup;
use editor_diagnostics::withdrawal;
use json::Value;
use line_index::PositionEncoding;
use rpc_messages::{Reply, Service, code, refusal};
use std::alloc::{AllocError, Global};
use std::collections::BTreeMap;

// Why a question about a document is refused.
const NO_DOCUMENT: &str = "no document is named";

#[derive(Clone, Copy)]
enum Stage {
    New,
    Running,
    ShutDown,
}

// A request whose answer has edits of an open document.
#[derive(Clone, Copy)]
enum EditRequest {
    Formatting,
    RangeFormatting,
    Rename,
}

/// The open documents by their names, the files that are not open, how far the conversation is, what the client can do,
/// and the limits of each parse.
#[derive(Drop)]
pub struct Server {
    documents: BTreeMap<String, Document>,
    files: BTreeMap<String, Document>,
    stage: Stage,
    encoding: PositionEncoding,
    markup: Markup,
    may_register: bool,
    takes_related: bool,
    limits: Limits,
}

impl Server {
    /// A server that has read no message.
    pub fn new(alloc: Global, limits: Limits) -> Server
        ensures { dialogue_of result ≡ initial_dialogue limits }
    {
        Server {
            documents: BTreeMap::new(alloc),
            files: BTreeMap::new(alloc),
            stage: Stage::New,
            encoding: PositionEncoding::Utf16,
            markup: Markup::Markdown,
            may_register: false,
            takes_related: false,
            limits,
        }
    }

    /// Has names looked for in a file that is not open, by its URI and its text, in the place of the one with this URI,
    /// and gives how many errors its parse has. It fails only where memory is refused.
    pub fn keep_file(&mut self, alloc: Global, uri: &str, text: &str) -> Result<usize, AllocError>
        ensures { IfOk result (λ errors. KeepsFile uri.now text.now errors (dialogue_of self.old)
            (dialogue_of self.new)) }
    {
        let document = Document::new(alloc, self.encoding, text, None, self.limits)?;
        let errors = document.error_count();
        insert(alloc, &mut self.files, uri, document)?;
        Ok(errors)
    }

    /// Has names looked for in this file no more, and gives how many bytes it has.
    pub fn drop_file(&mut self, uri: &str) -> usize
        ensures { SetsFile uri.now None (dialogue_of self.old) (dialogue_of self.new) }
    {
        match self.files.remove(uri) {
            Some(document) => document.content().text().len(),
            None => 0,
        }
    }

    // The documents in which names are looked for.
    fn known(&self) -> Documents<'_>
        ensures opened { result.opened.now ≡ self.now.documents }
        ensures files { result.files.now ≡ self.now.files }
    {
        Documents {
            opened: &self.documents,
            files: &self.files,
        }
    }

    // The answer to a request for edits of an open document.
    fn answer_edits(
        &self,
        alloc: Global,
        id: &Value<'_>,
        request: EditRequest,
        params: &Value<'_>,
    ) -> Result<Vec<u8>, AllocError>
        requires { HasNumbers (value_view id.now) }
        ensures answers { IfOk result (λ body. IsAnswer (value_view id.now) body.items) }
        ensures formats { IfOk result (λ body. request ≡ Formatting
            → Formats (value_view id.now) (value_view params.now) (dialogue_of self.now) body.items) }
        ensures formats_range { IfOk result (λ body. request ≡ RangeFormatting
            → FormatsRange (value_view id.now) (value_view params.now) (dialogue_of self.now) body.items) }
        ensures renames { IfOk result (λ body. request ≡ Rename
            → Renames (value_view id.now) (value_view params.now) (dialogue_of self.now) body.items) }
    {
        let Some(uri) = uri_of(params) else {
            return refused(alloc, id, code::INVALID_PARAMS, NO_DOCUMENT);
        };
        let document = match self.documents.get(uri) {
            Some(document) => document,
            None => return answer_null(alloc, id),
        };
        match request {
            EditRequest::Formatting => answer_formatting(alloc, id, document, self.limits),
            EditRequest::RangeFormatting => {
                answer_range_formatting(alloc, id, document, params, self.limits)
            }
            EditRequest::Rename => {
                let body = answer_rename(alloc, id, uri, document, self.known(), params)?;
                Ok(body)
            }
        }
    }

    // The answer to a question about an open document.
    fn answer_request(
        &self,
        alloc: Global,
        id: &Value<'_>,
        method: &str,
        params: &Value<'_>,
    ) -> Result<Vec<u8>, AllocError>
        requires { HasNumbers (value_view id.now) }
        ensures answers { IfOk result (λ body. IsAnswer (value_view id.now) body.items) }
        ensures formats { IfOk result (λ body. method.now ≡ codes "textDocument/formatting"
            → Formats (value_view id.now) (value_view params.now) (dialogue_of self.now) body.items) }
        ensures formats_range { IfOk result (λ body. method.now ≡ codes "textDocument/rangeFormatting"
            → FormatsRange (value_view id.now) (value_view params.now) (dialogue_of self.now) body.items) }
        ensures renames { IfOk result (λ body. method.now ≡ codes "textDocument/rename"
            → Renames (value_view id.now) (value_view params.now) (dialogue_of self.now) body.items) }
    {
        if method == "initialize" {
            return refused(alloc, id, code::INVALID_REQUEST, "initialized before");
        }
        if method == "textDocument/formatting" {
            return self.answer_edits(alloc, id, EditRequest::Formatting, params);
        }
        if method == "textDocument/rangeFormatting" {
            return self.answer_edits(alloc, id, EditRequest::RangeFormatting, params);
        }
        if method == "textDocument/rename" {
            return self.answer_edits(alloc, id, EditRequest::Rename, params);
        }
        if method == "workspace/symbol" {
            return answer_search(alloc, id, self.known(), query_of(params));
        }
        let Some(question) = question_of(method) else {
            return refused(alloc, id, code::METHOD_NOT_FOUND, "method not found");
        };
        let Some(uri) = uri_of(params) else {
            return refused(alloc, id, code::INVALID_PARAMS, NO_DOCUMENT);
        };
        let Some(document) = self.documents.get(uri) else {
            return answer_null(alloc, id);
        };
        answer_question(
            alloc,
            id,
            question,
            uri,
            document,
            self.known(),
            params,
            self.limits,
            self.markup,
        )
    }

    // Registers for the events of files, if it may.
    fn begin(&self, alloc: Global) -> Result<Reply, AllocError>
        ensures replies { IfOk result (Replies None) }
        ensures ends { IfOk result (EndsOnlyIf ⊥) }
        ensures begins { IfOk result (λ reply. Begins reply (dialogue_of self.now) (dialogue_of self.now)) }
    {
        if !self.may_register {
            return Ok(Reply::Nothing);
        }
        let body = registration(alloc)?;
        Ok(Reply::Request(body))
    }

    // Keeps a document, in the place of the one with its name, and publishes its errors.
    fn publish(
        &mut self,
        alloc: Global,
        uri: &str,
        document: Document,
        params: &Value<'_>,
    ) -> Result<Reply, AllocError>
        ensures replies { IfOk result (Replies None) }
        ensures ends { IfOk result (EndsOnlyIf ⊥) }
        ensures publishes { IfOk result
            (λ reply. Publishes uri.now (file_of document) (value_view params.now) reply (dialogue_of self.old)
            (dialogue_of self.new)) }
    {
        self.documents.remove(uri);
        let notification = diagnostics_notification(
            alloc,
            self.known(),
            &document,
            uri,
            version_of(params),
            self.takes_related,
        )?;
        insert(alloc, &mut self.documents, uri, document)?;
        Ok(Reply::Notification(notification))
    }

    // Opens a document, and publishes its errors.
    fn open(&mut self, alloc: Global, params: &Value<'_>) -> Result<Reply, AllocError>
        ensures replies { IfOk result (Replies None) }
        ensures ends { IfOk result (EndsOnlyIf ⊥) }
        ensures opens { IfOk result
            (λ reply. Opens (value_view params.now) reply (dialogue_of self.old) (dialogue_of self.new)) }
    {
        let Some(uri) = uri_of(params) else {
            return Ok(Reply::Nothing);
        };
        let Some(text) = text_of(params) else {
            return Ok(Reply::Nothing);
        };
        let document = Document::new(alloc, self.encoding, text, host_of(params), self.limits)?;
        let reply = self.publish(alloc, uri, document, params)?;
        Ok(reply)
    }

    // Changes a document, and publishes its errors.
    fn change(&mut self, alloc: Global, params: &Value<'_>) -> Result<Reply, AllocError>
        ensures replies { IfOk result (Replies None) }
        ensures ends { IfOk result (EndsOnlyIf ⊥) }
        ensures changes { IfOk result
            (λ reply. Changes (value_view params.now) reply (dialogue_of self.old) (dialogue_of self.new)) }
    {
        let Some(uri) = uri_of(params) else {
            return Ok(Reply::Nothing);
        };
        let Some(changes) = changes_of(alloc, params)? else {
            return Ok(Reply::Nothing);
        };
        let Some(document) = self.documents.remove(uri) else {
            return Ok(Reply::Nothing);
        };
        let document = document.changed(alloc, changes.as_slice())?;
        let reply = self.publish(alloc, uri, document, params)?;
        Ok(reply)
    }

    // Closes a document, and takes its errors back.
    fn close(&mut self, alloc: Global, params: &Value<'_>) -> Result<Reply, AllocError>
        ensures replies { IfOk result (Replies None) }
        ensures ends { IfOk result (EndsOnlyIf ⊥) }
        ensures closes { IfOk result
            (λ reply. Closes (value_view params.now) reply (dialogue_of self.old) (dialogue_of self.new)) }
    {
        let Some(uri) = uri_of(params) else {
            return Ok(Reply::Nothing);
        };
        if self.documents.remove(uri).is_none() {
            return Ok(Reply::Nothing);
        }
        let notification = withdrawal(alloc, uri)?;
        Ok(Reply::Notification(notification))
    }

    // What a notification brings about.
    fn handle_notification(
        &mut self,
        alloc: Global,
        method: &str,
        params: &Value<'_>,
    ) -> Result<Reply, AllocError>
        ensures replies { IfOk result (Replies None) }
        ensures ends { IfOk result (EndsOnlyIf (method.now ≡ codes "exit")) }
        ensures step { IfOk result
            (λ reply. HandlesNotification method.now (value_view params.now) reply (dialogue_of self.old)
            (dialogue_of self.new)) }
    {
        if method == "exit" {
            return Ok(Reply::Exit(exit_status(self.stage)));
        }
        match self.stage {
            Stage::Running => match method {
                "initialized" => self.begin(alloc),
                "textDocument/didOpen" => self.open(alloc, params),
                "textDocument/didChange" => self.change(alloc, params),
                "textDocument/didClose" => self.close(alloc, params),
                _ => Ok(Reply::Nothing),
            },
            Stage::New | Stage::ShutDown => Ok(Reply::Nothing),
        }
    }
}

// The answer that refuses a request.
fn refused(alloc: Global, id: &Value<'_>, code: i64, text: &str) -> Result<Vec<u8>, AllocError>
    requires { HasNumbers (value_view id.now) }
    ensures answers { IfOk result (λ body. IsAnswer (value_view id.now) body.items) }
    ensures refuses { IfOk result (λ body. IsRefusalOf (value_view id.now) code body.items) }
{
    refusal(alloc, id, code, text)
}

// With which status `exit` ends the server.
fn exit_status(stage: Stage) -> u8
    ensures { result ≡ exit_status stage }
{
    match stage {
        Stage::ShutDown => 0,
        Stage::New | Stage::Running => 1,
    }
}

impl Service for Server {
    ghost steps = { StepsOf };

    fn request(
        &mut self,
        alloc: Global,
        id: &Value<'_>,
        method: &str,
        params: &Value<'_>,
    ) -> Result<Vec<u8>, AllocError>
        requires { HasNumbers (value_view id.now) }
        ensures answers { IfOk result (λ body. IsAnswer (value_view id.now) body.items) }
        ensures step { IfOk result
            (λ body. HandlesRequest (value_view id.now) method.now (value_view params.now) (Answer body)
            (dialogue_of self.old) (dialogue_of self.new)) }
    {
        match self.stage {
            Stage::New if method == "initialize" => {
                self.stage = Stage::Running;
                self.encoding = encoding_of(params);
                self.markup = markup_of(params);
                self.may_register = may_register(params);
                self.takes_related = takes_related(params);
                answer_initialize(alloc, id, params, self.encoding)
            }
            Stage::New => refused(alloc, id, code::NOT_INITIALIZED, "not initialized"),
            Stage::Running if method == "shutdown" => {
                self.stage = Stage::ShutDown;
                answer_null(alloc, id)
            }
            Stage::Running => self.answer_request(alloc, id, method, params),
            Stage::ShutDown => refused(alloc, id, code::INVALID_REQUEST, "shut down"),
        }
    }

    fn notification(
        &mut self,
        alloc: Global,
        method: &str,
        params: &Value<'_>,
    ) -> Result<Reply, AllocError>
        ensures replies { IfOk result (Replies None) }
        ensures ends { IfOk result (EndsOnlyIf (method.now ≡ codes "exit")) }
        ensures step { IfOk result (λ reply. StepsOf self.old None method.now (value_view params.now) reply self.new) }
    {
        let reply = self.handle_notification(alloc, method, params)?;
        Ok(reply)
    }
}
