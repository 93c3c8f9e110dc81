//! What the program `gqlls` replies to each message: a language server for GraphQL documents.
//!
//! A `Server` is the service of a conversation within limits, and keeps the open documents with their trees. What needs
//! only a tree is made by `editor_answers`; here are the states of a conversation, and what needs the parser or the
//! formatter: errors, layout and completion.
//!
//! `gqlls_program`, the crate above, has a `Server` serve a client, and hands it the files of the folder that the
//! client opens by `keep_file`.
#![tactic(auto)]

mod capabilities;
mod completion;
mod documents;
mod format_answers;
pub mod laws;
mod layout;
mod parameters;
mod questions;
mod references;
mod rename;
mod server;
mod signature;
mod workspace_symbols;

pub use apollo_parser::Limits;
pub use parameters::{changed_files, opened_folders, uri_of};
pub use server::Server;
