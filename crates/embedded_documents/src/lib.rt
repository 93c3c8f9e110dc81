//! GraphQL documents in templates of other languages.
//!
//! `masked` blanks what is in no template, and each byte offset stays. So a tree of the masked text has the offsets of
//! the file. `gqlls_server` parses that text, and counts positions in the file's own.
//!
//! `scanning` goes through a file in steps, `code` and `quoted` say what a step is.
#![tactic(auto)]

mod code;
mod masks;
mod quoted;
mod scanner;

pub use masks::{is_in_document, masked};
pub use scanner::HostLanguage;
