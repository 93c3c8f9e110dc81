//! The language server with the files of the folder that its client opens.
//!
//! `FolderServer` hands each message on to the `Server` of `gqlls_server`. Beside that it reads the GraphQL files of
//! the folder when the conversation has begun, and one of them again when the client says that it has changed or closes
//! it: names are looked for in these files too. A file that is open counts as the client has it.
//!
//! `gqlls` calls `run`, which is a whole run by the words of its command line.
#![tactic(auto)]

mod bounds;
mod command;
mod folder;
mod program;

pub use program::run;
