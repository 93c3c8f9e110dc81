//! The notifications by which a language server tells a client what is wrong with a document.
//!
//! `publication` says of each diagnostic where it is, as the client counts lines and columns, and what is wrong;
//! `withdrawal` takes all of them back. `syntax_diagnostics` makes diagnostics of the parser's errors, one for each
//! definition.
//!
//! `gqlls_server`, the crate above, calls `publication` after each change.
#![tactic(auto)]

mod diagnostic;
mod diagnostic_pieces;
mod message_words;
mod positions;
mod publications;
mod syntax;

pub use diagnostic::{Diagnostic, Severity, name_brace};
pub use positions::Positions;
pub use publications::{publication, withdrawal};
pub use syntax::syntax_diagnostics;
