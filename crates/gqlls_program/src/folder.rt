// A server that knows the files of the folders that its client opens.
ghost use Rattle.std.specs.Prelude.{◌≡◌, ℕ, List, IfOk, IfSome, None, Ok, OnOk, Result, Some, codes, string_bytes};
ghost use Rattle.std.specs.declared.io.Error.{Error};
ghost use Rattle.json.specs.Tree.{HasNumbers};
ghost use Rattle.json.specs.Value.{value_view};
ghost use Rattle.rpc_messages.specs.Messages.{IsAnswer};
ghost use Rattle.rpc_messages.specs.Replies.{EndsOnlyIf, Replies};
ghost use Rattle.rpc_messages.specs.declared.reply.Reply.TheVariants.{Answer};
ghost use Rattle.gqlls_server.specs.State.{dialogue_of};
ghost use Rattle.gqlls_program.specs.FolderDialogues.{Reads, Steps};
ghost use Rattle.gqlls_program.specs.State.{folder_dialogue_of};

use crate::bounds::{Bounded, MOST_BYTES, MOST_ERRORS, MOST_FILES, MOST_TOKENS};
use file_access::Files;
use file_uris::{path_of, uri_of};
use formatter::stays_within;
use gqlls_server::{Server, changed_files, opened_folders, uri_of as document_in};
use json::Value;
use named_files::{Named, is_graphql, named_files};
use rpc_messages::{Reply, Service};
use std::alloc::{AllocError, Global};
use std::collections::BTreeSet;
use std::mem;

// A folder that the client opens: its path as the client spells it, and the one without symbolic links.
#[derive(Drop)]
struct Folder {
    path: String,
    located: String,
}

/// A server, the files that it may read, the folders that the client opens, and the paths of its open documents.
#[derive(Drop)]
pub struct FolderServer<F> {
    server: Server,
    files: Bounded<F>,
    folders: Vec<Folder>,
    open: BTreeSet<String>,
    // how many bytes the files have in which names are looked for
    kept: usize,
}

// The text of a file, if it is one with few enough tokens.
fn text_of(bytes: Vec<u8>) -> Option<String>
    ensures { IfSome result (λ text. string_bytes text ≡ bytes.items) }
{
    let text = String::from_utf8(bytes).ok()?;
    if stays_within(text.as_str(), MOST_TOKENS) {
        Some(text)
    } else {
        None
    }
}

// A folder's path as the client spells it, without slashes at its end.
fn folder_path(path: &str) -> &str {
    match path.trim_end_matches('/') {
        "" => "/",
        trimmed => trimmed,
    }
}

// The path of a folder, and the name in it that a path ends with.
fn split_path(path: &str) -> Option<(&str, &str)> {
    let end = path.rfind('/')?;
    let name = path.get(end + 1..)?;
    match path.get(..end)? {
        "" => Some(("/", name)),
        folder => Some((folder, name)),
    }
}

impl Folder {
    // The path, as the client spells the folder's, of a file of this name in the folder with a path without symbolic
    // links, if that is this one or in it.
    fn spelled(
        &self,
        alloc: Global,
        located: &str,
        name: &str,
    ) -> Result<Option<String>, AllocError> {
        let Some(rest) = located.strip_prefix(self.located.as_str()) else {
            return Ok(None);
        };
        if !rest.is_empty() && !rest.as_bytes().starts_with(b"/") {
            return Ok(None);
        }
        let path = self.path.as_str();
        Ok(Some(format!(in alloc; "{path}{rest}/{name}")?))
    }
}

// The path that a file of this name has in a folder that the client opens, by the path of its folder without symbolic
// links.
fn spelled_in(
    alloc: Global,
    folders: &[Folder],
    located: &str,
    name: &str,
) -> Result<Option<String>, AllocError> {
    for folder in folders {
        if let Some(path) = folder.spelled(alloc, located, name)? {
            return Ok(Some(path));
        }
    }
    Ok(None)
}

impl<F: Files> FolderServer<F> {
    /// One that has read no message.
    pub fn new(alloc: Global, server: Server, files: F) -> Self
        ensures { folder_dialogue_of result ≡ record { dialogue = dialogue_of server; files = files } }
    {
        FolderServer {
            server,
            files: Bounded::new(files),
            folders: Vec::new(alloc),
            open: BTreeSet::new(alloc),
            kept: 0,
        }
    }

    // How many bytes the next file may have.
    fn room(&self) -> usize {
        MOST_BYTES.saturating_sub(self.kept)
    }

    // Has names looked for in this file no more.
    fn drop_file(&mut self, uri: &str)
        ensures { Reads F.lists F.reads F.locates (folder_dialogue_of self.old) (folder_dialogue_of self.new) }
    {
        let bytes = self.server.drop_file(uri);
        self.kept = self.kept.saturating_sub(bytes);
    }

    // The text of the file at a path, if it has one for which there is room.
    fn text_at(&mut self, alloc: Global, path: &str) -> Option<String>
        ensures dialogue { dialogue_of self.new.server ≡ dialogue_of self.old.server }
        ensures given { (given : Result (List ℕ) Error)
            × F.reads self.old.files.files path.now given self.new.files.files
            × IfSome result (λ text. given ≡ Ok (string_bytes text)) }
    {
        let room = self.room();
        match self.files.read_up_to(alloc, path, room) {
            Ok(bytes) if bytes.len() <= room => text_of(bytes),
            Ok(_) | Err(_) => None,
        }
    }

    // Has names looked for no more in a file with too many errors, which take some ten times as much memory as its text
    // would without them.
    fn drop_faulty(&mut self, uri: &str, errors: usize)
        ensures { Reads F.lists F.reads F.locates (folder_dialogue_of self.old) (folder_dialogue_of self.new) }
    {
        if errors > MOST_ERRORS {
            self.drop_file(uri);
        }
    }

    // The path without symbolic links of a folder, where the device knows it.
    fn located(&mut self, alloc: Global, folder: &str) -> Option<String>
        ensures { Reads F.lists F.reads F.locates (folder_dialogue_of self.old) (folder_dialogue_of self.new) }
    {
        self.files.locate(alloc, folder).ok()
    }

    // The path by which a file is known in the folders that the client opens: the client may have it by another,
    // through a link or with `//`.
    fn known_path(&mut self, alloc: Global, path: String) -> Result<String, AllocError>
        ensures { OnOk result (Reads F.lists F.reads F.locates (folder_dialogue_of self.old)
            (folder_dialogue_of self.new)) }
    {
        let Some((folder, name)) = split_path(path.as_str()) else {
            return Ok(path);
        };
        let Some(located) = self.located(alloc, folder) else {
            return Ok(path);
        };
        match spelled_in(alloc, self.folders.as_slice(), located.as_str(), name)? {
            Some(spelled) => Ok(spelled),
            None => Ok(path),
        }
    }

    // The same of the file that a URI names, if it names one.
    fn known_file(&mut self, alloc: Global, uri: &str) -> Result<Option<String>, AllocError>
        ensures { OnOk result (Reads F.lists F.reads F.locates (folder_dialogue_of self.old)
            (folder_dialogue_of self.new)) }
    {
        match path_of(alloc, uri)? {
            Some(path) => Ok(Some(self.known_path(alloc, path)?)),
            None => Ok(None),
        }
    }

    // Reads the file at a path again, if its name is a GraphQL file's and it isn't open. One that can't be read, or is
    // too long, is known no more.
    fn refresh(&mut self, alloc: Global, path: &str) -> Result<(), AllocError>
        ensures { OnOk result (Reads F.lists F.reads F.locates (folder_dialogue_of self.old)
            (folder_dialogue_of self.new)) }
    {
        if !is_graphql(path) || self.open.contains(path) {
            return Ok(());
        }
        let uri = uri_of(alloc, path)?;
        self.drop_file(uri.as_str());
        let Some(text) = self.text_at(alloc, path) else {
            return Ok(());
        };
        let errors = self.server.keep_file(alloc, uri.as_str(), text.as_str())?;
        self.kept = self.kept.saturating_add(text.len());
        self.drop_faulty(uri.as_str(), errors);
        Ok(())
    }

    // Reads the files of a folder.
    fn read_folder(&mut self, alloc: Global, folder: &str) -> Result<(), AllocError>
        ensures { OnOk result (Reads F.lists F.reads F.locates (folder_dialogue_of self.old)
            (folder_dialogue_of self.new)) }
    {
        self.files.begin();
        let found = named_files(alloc, &mut self.files, folder)?;
        for named in found.iter().take(MOST_FILES) {
            let Named::File(path) = named else {
                continue;
            };
            self.refresh(alloc, path.as_str())?;
        }
        Ok(())
    }

    // Reads the files of a folder that the client opens, which is known by this path.
    fn read_opened(&mut self, alloc: Global, mut folder: Folder) -> Result<(), AllocError>
        ensures { OnOk result (Reads F.lists F.reads F.locates (folder_dialogue_of self.old)
            (folder_dialogue_of self.new)) }
    {
        if let Some(located) = self.located(alloc, folder.path.as_str()) {
            folder.located = located;
        }
        self.read_folder(alloc, folder.path.as_str())?;
        self.folders.push(folder)?;
        Ok(())
    }

    // Reads the files of all folders that the client opens.
    fn read_folders(&mut self, alloc: Global) -> Result<(), AllocError>
        ensures { OnOk result (Reads F.lists F.reads F.locates (folder_dialogue_of self.old)
            (folder_dialogue_of self.new)) }
    {
        let folders = mem::replace(&mut self.folders, Vec::new(alloc));
        for folder in folders {
            self.read_opened(alloc, folder)?;
        }
        Ok(())
    }

    // Notes the folders that the client opens.
    fn keep_folders(&mut self, alloc: Global, params: &Value<'_>) -> Result<(), AllocError>
        ensures { folder_dialogue_of self.new ≡ folder_dialogue_of self.old }
    {
        for uri in &opened_folders(alloc, params)? {
            if let Some(path) = path_of(alloc, uri)? {
                let path = folder_path(path.as_str());
                self.folders.push(Folder {
                    path: String::from_str(alloc, path)?,
                    located: String::from_str(alloc, path)?,
                })?;
            }
        }
        Ok(())
    }

    // The path by which the file of the document that a message is about is known, if it names one.
    fn known_document(
        &mut self,
        alloc: Global,
        params: &Value<'_>,
    ) -> Result<Option<String>, AllocError>
        ensures { OnOk result (Reads F.lists F.reads F.locates (folder_dialogue_of self.old)
            (folder_dialogue_of self.new)) }
    {
        match document_in(params) {
            Some(uri) => self.known_file(alloc, uri),
            None => Ok(None),
        }
    }

    // A document is open now: its file counts as the client has it.
    #[tactic(auto, using(crate::proofs::Reading::reads_on))]
    fn leave_out_opened(&mut self, alloc: Global, params: &Value<'_>) -> Result<(), AllocError>
        ensures { OnOk result (Reads F.lists F.reads F.locates (folder_dialogue_of self.old)
            (folder_dialogue_of self.new)) }
    {
        if let Some(path) = self.known_document(alloc, params)? {
            self.drop_file(uri_of(alloc, path.as_str())?.as_str());
            self.open.insert(path)?;
        }
        Ok(())
    }

    // A document is closed: its file counts as it is stored.
    #[tactic(auto, using(crate::proofs::Reading::reads_on))]
    fn read_closed(&mut self, alloc: Global, params: &Value<'_>) -> Result<(), AllocError>
        ensures { OnOk result (Reads F.lists F.reads F.locates (folder_dialogue_of self.old)
            (folder_dialogue_of self.new)) }
    {
        if let Some(path) = self.known_document(alloc, params)? {
            self.open.remove(path.as_str());
            self.refresh(alloc, path.as_str())?;
        }
        Ok(())
    }

    // A file has changed, was made or is gone.
    #[tactic(auto, using(crate::proofs::Reading::reads_on))]
    fn read_changed_file(&mut self, alloc: Global, uri: &str) -> Result<(), AllocError>
        ensures { OnOk result (Reads F.lists F.reads F.locates (folder_dialogue_of self.old)
            (folder_dialogue_of self.new)) }
    {
        if let Some(path) = self.known_file(alloc, uri)? {
            self.refresh(alloc, path.as_str())?;
        }
        Ok(())
    }

    // Some files have changed, were made or are gone.
    fn read_changed_files(&mut self, alloc: Global, params: &Value<'_>) -> Result<(), AllocError>
        ensures { OnOk result (Reads F.lists F.reads F.locates (folder_dialogue_of self.old)
            (folder_dialogue_of self.new)) }
    {
        for uri in &changed_files(alloc, params)? {
            self.read_changed_file(alloc, uri)?;
        }
        Ok(())
    }

    // What a notification says of files.
    fn update_files(
        &mut self,
        alloc: Global,
        method: &str,
        params: &Value<'_>,
    ) -> Result<(), AllocError>
        ensures { OnOk result (Reads F.lists F.reads F.locates (folder_dialogue_of self.old)
            (folder_dialogue_of self.new)) }
    {
        match method {
            "initialized" => self.read_folders(alloc),
            "textDocument/didOpen" => self.leave_out_opened(alloc, params),
            "textDocument/didClose" => self.read_closed(alloc, params),
            "workspace/didChangeWatchedFiles" => self.read_changed_files(alloc, params),
            _ => Ok(()),
        }
    }
}

impl<F: Files> Service for FolderServer<F> {
    ghost steps = { λ old id method params reply new. Steps F.lists F.reads F.locates (folder_dialogue_of old) id method
        params reply (folder_dialogue_of new) };

    fn request(
        &mut self,
        alloc: Global,
        id: &Value<'_>,
        method: &str,
        params: &Value<'_>,
    ) -> Result<Vec<u8>, AllocError>
        requires { HasNumbers (value_view id.now) }
        ensures answers { IfOk result (λ body. IsAnswer (value_view id.now) body.items) }
        ensures step { IfOk result
            (λ body. Steps F.lists F.reads F.locates (folder_dialogue_of self.old) (Some (value_view id.now)) method.now
            (value_view params.now)
            (Answer body) (folder_dialogue_of self.new)) }
    {
        if method == "initialize" {
            self.keep_folders(alloc, params)?;
        }
        self.server.request(alloc, id, method, params)
    }

    fn notification(
        &mut self,
        alloc: Global,
        method: &str,
        params: &Value<'_>,
    ) -> Result<Reply, AllocError>
        ensures replies { IfOk result (Replies None) }
        ensures ends { IfOk result (EndsOnlyIf (method.now ≡ codes "exit")) }
        ensures step { IfOk result
            (λ reply. Steps F.lists F.reads F.locates (folder_dialogue_of self.old) None method.now
            (value_view params.now) reply
            (folder_dialogue_of self.new)) }
    {
        self.update_files(alloc, method, params)?;
        let reply = self.server.notification(alloc, method, params)?;
        Ok(reply)
    }
}
